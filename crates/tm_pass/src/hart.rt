// One hart's whole program.
ghost use Rattle.std.specs.Prelude.{◌≡◌, ◌+◌, ◌*◌, ◌%◌, ◌^◌, ◌<◌, ◌≤◌, length, map, IfOk};
ghost use Rattle.tm_base.specs.Lists.{count_from};
ghost use Rattle.tm_plan_map.specs.Map.{text_base, tables_base};
ghost use Rattle.tm_plan_cases.specs.Shaped.{AreShaped};
ghost use Rattle.tm_barrier.specs.Words.{barrier};
ghost use Rattle.tm_pass_text.specs.Hart.{words_of_hart};
ghost use Rattle.tm_pass_place.specs.Built.{start_at, end_at, exit_at, halt_at};
ghost use Rattle.tm_pass.specs.Gate.{ShutsOut};

use crate::cases::append_cases;
use crate::marks::case_marks;
use std::alloc::Global;
use tm_base::{List, NoMemory, Words};
use tm_pass_code::{append_ending, append_opening, barrier_size};
use tm_plan_cases::Cases;

/// The words of one hart's program, and the addresses of its marks: where each case's stream begins and where it ends,
/// the hart's exit mark and its halt mark.
#[derive(Drop)]
pub struct HartCode {
    pub words: Words,
    pub starts: List<u64>,
    pub ends: List<u64>,
    pub exit: u64,
    pub halt: u64,
}

/// Hart `h`'s whole program, for text that begins at the address `base`: a multiple of 4 in the text's 8 MiB, with
/// room for 4096 bytes a case and 4096 more, which the words keep within. A hart with another number that comes to the
/// first word passes by.
pub fn hart_code(alloc: Global, cases: &Cases, h: u32, base: u64) -> Result<HartCode, NoMemory>
    requires shaped { AreShaped cases.now }
    requires mine { h < cases.now.harts }
    requires aligned { base % 4 ≡ 0 }
    requires text { text_base ≤ base }
    requires room { base + 4096 * length cases.now.cases + 4096 ≤ tables_base }
    ensures words { IfOk result (λ code. code.words ≡ words_of_hart cases.now h base) }
    ensures starts { IfOk result (λ code. code.starts
        ≡ map (start_at cases.now h base) (count_from 0 (length cases.now.cases))) }
    ensures ends { IfOk result (λ code. code.ends
        ≡ map (end_at cases.now h base) (count_from 0 (length cases.now.cases))) }
    ensures exit { IfOk result (λ code. code.exit ≡ exit_at cases.now h base) }
    ensures halt { IfOk result (λ code. code.halt ≡ halt_at cases.now h base) }
    ensures few { IfOk result (λ code. 4 * length code.words ≤ 4096 * length cases.now.cases + 4096) }
    ensures gate { IfOk result (λ code. ShutsOut code h base) }
{
    let marks = case_marks(alloc, cases, h, base)?;
    let barrier = barrier_size(alloc, h, cases.harts)?;
    let words = hart_words(alloc, cases, h, base, marks.behind, barrier)?;
    Ok(HartCode {
        words,
        starts: marks.starts,
        ends: marks.ends,
        exit: marks.behind + 4 * barrier,
        halt: marks.behind,
    })
}

// The words, where the halt mark's address and the number of the barrier's words are known.
fn hart_words(
    alloc: Global,
    cases: &Cases,
    h: u32,
    base: u64,
    halt: u64,
    size: u64,
) -> Result<Words, NoMemory>
    requires shaped { AreShaped cases.now }
    requires mine { h < cases.now.harts }
    requires aligned { base % 4 ≡ 0 }
    requires low { base + 56 < 2 ^ 32 }
    requires halt { halt ≡ halt_at cases.now h base }
    requires barrier { size ≡ length (barrier h cases.now.harts) }
    requires few { size ≤ 41 }
    ensures { IfOk result (λ words. words ≡ words_of_hart cases.now h base) }
{
    let mut words = Words::new(alloc);
    append_opening(alloc, &mut words, h, (halt + 4 * size - base - 4) as u32)?;
    append_cases(alloc, &mut words, cases, h, base + 56, halt + 4)?;
    append_ending(alloc, &mut words, h, cases.harts)?;
    Ok(words)
}
