// A template is printed statement by statement, each on a line of its own.
ghost use Rattle.std.specs.Prelude.{◌≡◌, ◌++◌, ◌∷◌, [], OnOk, IfOk, codes};
ghost use Rattle.std.specs.Fmt.{decimal};
ghost use Rattle.tm_tmpl.specs.Printed as printed;
ghost use Rattle.tm_tmpl_line.specs.Readings as readings;
ghost use Rattle.tm_tmpl_line.specs.Pieces.{kind_word};
ghost use Rattle.tm_tmpl_read.specs.Steps as steps;
ghost use Rattle.tm_tmpl_read.specs.Writable.{IsWritable};

use std::alloc::Global;
use tm_base::{NoMemory, Text, push_decimal};
use tm_tmpl_types::{BodyDecl, CaseDecl, Kind, Selector, SlotDecl, SlotText, Template, WindowDecl};

/// A template's printed form: single spaces, decimal numbers, no indent, one LF behind each statement. It is read
/// back as a template that equals this one apart from places.
#[tactic(auto, unfolding(crate::specs::Printed::printed))]
pub fn print_template(alloc: Global, t: &Template) -> Result<Text, NoMemory>
    ensures text { IfOk result (λ text. text ≡ printed.printed t.now) }
    ensures reads_back { IfOk result (λ text. IsWritable t.now → printed.ReadsBack text t.now) }
{
    let mut out = Text::new(alloc);
    put_template_name(&mut out, &t.name)?;
    put_passes(&mut out, t.passes)?;
    put_windows(&mut out, t.windows.as_slice())?;
    put_cases(&mut out, t.cases.as_slice())?;
    Ok(out)
}

// A word and the byte behind it.
fn put(out: &mut Text, word: &[u8], end: u8) -> Result<(), NoMemory>
    ensures { OnOk result (out.new ≡ out.old ++ (word.now ++ end ∷ [])) }
{
    out.append(word)?;
    out.push(end)
}

// A number and the byte behind it.
fn put_number(out: &mut Text, number: u32, end: u8) -> Result<(), NoMemory>
    ensures { OnOk result (out.new ≡ out.old ++ (decimal number ++ end ∷ [])) }
{
    push_decimal(out, u64::from(number))?;
    out.push(end)
}

// A first word and a name.
fn put_name(out: &mut Text, word: &[u8], name: &[u8]) -> Result<(), NoMemory>
    ensures { OnOk result (out.new ≡ out.old ++ (printed.spaced (word.now ∷ name.now ∷ []) ++ 10 ∷ [])) }
{
    put(out, word, b' ')?;
    put(out, name, b'\n')
}

#[tactic(auto, unfolding(crate::specs::Printed::line_of, crate::specs::Printed::words_of))]
fn put_template_name(out: &mut Text, name: &Text) -> Result<(), NoMemory>
    ensures { OnOk result (out.new ≡ out.old ++ printed.line_of (readings.template name.now)) }
{
    put_name(out, b"template", name.as_slice())
}

#[tactic(auto, unfolding(crate::specs::Printed::line_of, crate::specs::Printed::words_of))]
fn put_passes(out: &mut Text, passes: u32) -> Result<(), NoMemory>
    ensures { OnOk result (out.new ≡ out.old ++ printed.line_of (readings.passes passes)) }
{
    put(out, b"passes", b' ')?;
    put_number(out, passes, b'\n')
}

#[tactic(auto, unfolding(crate::specs::Printed::line_of, crate::specs::Printed::words_of))]
fn put_window(out: &mut Text, window: WindowDecl) -> Result<(), NoMemory>
    ensures { OnOk result (out.new
        ≡ out.old ++ printed.line_of (readings.window window.number window.kind window.lines)) }
{
    put(out, b"window", b' ')?;
    put_number(out, window.number, b' ')?;
    put(out, kind_word(window.kind), b' ')?;
    put_number(out, window.lines, b'\n')
}

fn kind_word(kind: Kind) -> &'static [u8]
    ensures { result.now ≡ kind_word kind }
{
    match kind {
        Kind::True => b"true".as_slice(),
        Kind::False => b"false".as_slice(),
        Kind::Own => b"own".as_slice(),
    }
}

#[tactic(auto, unfolding(crate::specs::Printed::line_of, crate::specs::Printed::words_of))]
fn put_whom(out: &mut Text, whom: Selector) -> Result<(), NoMemory>
    ensures { OnOk result (out.new ≡ out.old ++ printed.line_of (readings.body whom)) }
{
    put(out, b"body", b' ')?;
    match whom {
        Selector::All => put(out, b"all", b'\n'),
        Selector::Hart(n) => put_pair(out, b"hart", n, b'\n'),
        Selector::Core(n) => put_pair(out, b"core", n, b'\n'),
        Selector::Thread(n) => put_pair(out, b"thread", n, b'\n'),
    }
}

// A word, a number, and the byte behind them.
fn put_pair(out: &mut Text, word: &[u8], number: u32, end: u8) -> Result<(), NoMemory>
    ensures { OnOk result (out.new ≡ out.old ++ (word.now ++ 32 ∷ (decimal number ++ end ∷ []))) }
{
    put(out, word, b' ')?;
    put_number(out, number, end)
}

// The last two weights of a mix.
fn put_last(out: &mut Text, store: u32, branch: u32) -> Result<(), NoMemory>
    ensures { OnOk result (out.new ≡ out.old
        ++ (printed.spaced (codes "store" ∷ decimal store ∷ codes "branch" ∷ decimal branch ∷ []) ++ 10 ∷ [])) }
{
    put_pair(out, b"store", store, b' ')?;
    put_pair(out, b"branch", branch, b'\n')
}

#[tactic(auto, unfolding(crate::specs::Printed::line_of, crate::specs::Printed::words_of))]
fn put_slot(out: &mut Text, what: &SlotText) -> Result<(), NoMemory>
    ensures { OnOk result (out.new ≡ out.old ++ printed.line_of (readings.slot what.now)) }
{
    match what {
        SlotText::Emit(asm) => put_name(out, b"emit", asm.as_slice()),
        SlotText::Mix {
            count,
            alu,
            load,
            store,
            branch,
        } => {
            put_pair(out, b"mix", *count, b' ')?;
            put_pair(out, b"alu", *alu, b' ')?;
            put_pair(out, b"load", *load, b' ')?;
            put_last(out, *store, *branch)
        }
    }
}

fn put_windows(out: &mut Text, windows: &[WindowDecl]) -> Result<(), NoMemory>
    ensures { OnOk result (out.new ≡ out.old ++ printed.lines_of (steps.windows_at windows.now)) }
{
    for window in windows {
        put_window(out, *window)?;
    }
    Ok(())
}

fn put_slots(out: &mut Text, slots: &[SlotDecl]) -> Result<(), NoMemory>
    ensures { OnOk result (out.new ≡ out.old ++ printed.lines_of (steps.slots_at slots.now)) }
{
    for slot in slots {
        put_slot(out, &slot.what)?;
    }
    Ok(())
}

fn put_body(out: &mut Text, body: &BodyDecl) -> Result<(), NoMemory>
    ensures { OnOk result (out.new ≡ out.old ++ printed.lines_of (steps.body_at body.now)) }
{
    put_whom(out, body.whom)?;
    put_slots(out, body.slots.as_slice())
}

fn put_bodies(out: &mut Text, bodies: &[BodyDecl]) -> Result<(), NoMemory>
    ensures { OnOk result (out.new ≡ out.old ++ printed.lines_of (steps.bodies_at bodies.now)) }
{
    for body in bodies {
        put_body(out, body)?;
    }
    Ok(())
}

#[tactic(auto, unfolding(crate::specs::Printed::line_of, crate::specs::Printed::words_of))]
fn put_case_name(out: &mut Text, name: &Text) -> Result<(), NoMemory>
    ensures { OnOk result (out.new ≡ out.old ++ printed.line_of (readings.case_of name.now)) }
{
    put_name(out, b"case", name.as_slice())
}

fn put_case(out: &mut Text, case: &CaseDecl) -> Result<(), NoMemory>
    ensures { OnOk result (out.new ≡ out.old ++ printed.lines_of (steps.case_at case.now)) }
{
    put_case_name(out, &case.name)?;
    put_bodies(out, case.bodies.as_slice())
}

fn put_cases(out: &mut Text, cases: &[CaseDecl]) -> Result<(), NoMemory>
    ensures { OnOk result (out.new ≡ out.old ++ printed.lines_of (steps.cases_at cases.now)) }
{
    for case in cases {
        put_case(out, case)?;
    }
    Ok(())
}
