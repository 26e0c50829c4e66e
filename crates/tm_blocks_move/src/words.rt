// Shared memory set and collected, line by line, appended as words.
ghost use Rattle.std.specs.Prelude.{◌≡◌, ◌+◌, ◌*◌, ◌/◌, ◌^◌, ◌<◌, ◌≤◌, [], ◌∷◌, length, OnOk};
ghost use Rattle.tm_plan_cases.specs.Shaped.{AreShaped};
ghost use Rattle.tm_asm.specs.Sheet.{puts};
ghost use Rattle.tm_blocks_base.specs.Instrs.{addi};
ghost use Rattle.tm_blocks_base.specs.Blocks.{copy_dword, copy_dwords};
ghost use Rattle.tm_blocks_move.specs.Words.{line_turn, lines_loop, move_lines};
ghost use Rattle.tm_blocks_move.specs.Lines.{half_stride, first_window, first_bytes, collect_window, collect_windows};
ghost use Rattle.tm_blocks_move.specs.Lines.{collect_all};
ghost use Rattle.tm_blocks_move.specs.Runs.{FirstBytesRuns, CollectAllRuns};
ghost use Rattle.tm_blocks_move.specs.Once.{CollectsOnce};

use tm_asm::Code;
use tm_base::NoMemory;
use tm_blocks_code::{addi, bne_back, ld, put_all, put_constant, sd, subi};
use tm_plan_cases::Cases;
use tm_plan_owned::{bytes_of, dwords_of, line_addr, line_count, line_place, stride_of};

/// Each declared dword that hart `h` collects becomes the one that stands as far from the address `from` as it from the
/// windows' first byte. It changes x1 to x4 alone. Without memory a part may have been appended.
pub fn put_first_bytes(code: &mut Code, cases: &Cases, h: u32, from: u64) -> Result<(), NoMemory>
    requires shaped { AreShaped cases.now }
    requires mine { h < cases.now.harts }
    requires near { from < 2 ^ 63 }
    ensures words { OnOk result (code.new ≡ puts code.old (first_bytes cases.now h from)) }
    ensures short { OnOk result (length (first_bytes cases.now h from) ≤ 183) }
    ensures runs { OnOk result (FirstBytesRuns cases.now h from) }
{
    for v in 0..3u32 {
        put_first_window(code, cases, h, from, v)?;
    }
    Ok(())
}

/// The 30 dwords at x31 go to x9, and all declared dwords that hart `h` collects to those behind, each read once and in
/// address order. It changes x1 to x4 alone. Without memory a part may have been appended.
pub fn put_collect(code: &mut Code, cases: &Cases, h: u32) -> Result<(), NoMemory>
    requires shaped { AreShaped cases.now }
    requires mine { h < cases.now.harts }
    ensures words { OnOk result (code.new ≡ puts code.old (collect_all cases.now h)) }
    ensures short { OnOk result (length (collect_all cases.now h) ≤ 211) }
    ensures runs { OnOk result (CollectAllRuns cases.now h) }
    ensures once { OnOk result (CollectsOnce cases.now h) }
{
    put_line(code, 31, 9, 30)?;
    put_target(code)?;
    put_collect_windows(code, cases, h)
}

// Where the first of the collected dwords goes.
fn put_target(code: &mut Code) -> Result<(), NoMemory>
    ensures { OnOk result (code.new ≡ puts code.old (addi 2 9 240 ∷ [])) }
{
    put_all(code, &[addi(2, 9, 240)])
}

fn put_first_window(
    code: &mut Code,
    cases: &Cases,
    h: u32,
    from: u64,
    v: u32,
) -> Result<(), NoMemory>
    requires shaped { AreShaped cases.now }
    requires mine { h < cases.now.harts }
    requires near { from < 2 ^ 63 }
    requires window { v < 3 }
    ensures { OnOk result (code.new ≡ puts code.old (first_window cases.now h from v)) }
{
    let lines = line_count(cases, h, v) as u16;
    let half = half_of(cases);
    put_constant(code, 2, line_addr(cases, h, v))?;
    put_move_lines(
        code,
        from + line_place(cases, h, v),
        lines,
        dwords_of(cases),
        half,
        half,
    )
}

fn put_collect_windows(code: &mut Code, cases: &Cases, h: u32) -> Result<(), NoMemory>
    requires shaped { AreShaped cases.now }
    requires mine { h < cases.now.harts }
    ensures { OnOk result (code.new ≡ puts code.old (collect_windows cases.now h)) }
{
    for v in 0..3u32 {
        put_collect_window(code, cases, h, v)?;
    }
    Ok(())
}

fn put_collect_window(code: &mut Code, cases: &Cases, h: u32, v: u32) -> Result<(), NoMemory>
    requires shaped { AreShaped cases.now }
    requires mine { h < cases.now.harts }
    requires window { v < 3 }
    ensures { OnOk result (code.new ≡ puts code.old (collect_window cases.now h v)) }
{
    let lines = line_count(cases, h, v) as u16;
    let line = line_addr(cases, h, v);
    put_move_lines(
        code,
        line,
        lines,
        dwords_of(cases),
        half_of(cases),
        bytes_of(cases) / 2,
    )
}

// Half of the way from a line of a hart to its next.
fn half_of(cases: &Cases) -> u16
    requires { AreShaped cases.now }
    ensures is { result ≡ half_stride cases.now }
    ensures few { result ≤ 1024 }
{
    stride_of(cases) / 2
}

// So many lines of `n` dwords, if there are any, go to x2.
fn put_move_lines(
    code: &mut Code,
    from: u64,
    lines: u16,
    n: u16,
    a: u16,
    b: u16,
) -> Result<(), NoMemory>
    requires few { lines < 2048 }
    requires short { n ≤ 16 }
    requires near { (a < 2048) × (b < 2048) }
    ensures { OnOk result (code.new ≡ puts code.old (move_lines from lines n a b)) }
{
    if lines == 0 {
        return Ok(());
    }
    put_constant(code, 1, from)?;
    put_count(code, lines)?;
    put_lines_loop(code, n, a, b)
}

fn put_count(code: &mut Code, lines: u16) -> Result<(), NoMemory>
    requires { lines < 2048 }
    ensures { OnOk result (code.new ≡ puts code.old (addi 4 0 lines ∷ [])) }
{
    put_all(code, &[addi(4, 0, lines)])
}

fn put_lines_loop(code: &mut Code, n: u16, a: u16, b: u16) -> Result<(), NoMemory>
    requires short { n ≤ 16 }
    requires near { (a < 2048) × (b < 2048) }
    ensures { OnOk result (code.new ≡ puts code.old (lines_loop n a b)) }
{
    put_line(code, 1, 2, n)?;
    put_line_turn(code, n, a, b)
}

fn put_line_turn(code: &mut Code, n: u16, a: u16, b: u16) -> Result<(), NoMemory>
    requires short { n ≤ 16 }
    requires near { (a < 2048) × (b < 2048) }
    ensures { OnOk result (code.new ≡ puts code.old (line_turn n a b)) }
{
    put_all(
        code,
        &[
            addi(1, 1, a),
            addi(1, 1, a),
            addi(2, 2, b),
            addi(2, 2, b),
            subi(4, 4, 1),
            bne_back(4, 0, 8 * n + 20),
        ],
    )
}

// `n` dwords go from one register's address to another's, by x3.
fn put_line(code: &mut Code, from: u8, to: u8, n: u16) -> Result<(), NoMemory>
    requires bases { (from < 32) × (to < 32) }
    requires near { n ≤ 200 }
    ensures { OnOk result (code.new ≡ puts code.old (copy_dwords from 0 to 0 n)) }
{
    for j in 0..n {
        put_dword(code, from, to, j)?;
    }
    Ok(())
}

fn put_dword(code: &mut Code, from: u8, to: u8, j: u16) -> Result<(), NoMemory>
    requires bases { (from < 32) × (to < 32) }
    requires near { j < 200 }
    ensures { OnOk result (code.new ≡ puts code.old (copy_dword from 0 to 0 j)) }
{
    put_all(code, &[ld(3, 8 * j, from), sd(3, 8 * j, to)])
}
