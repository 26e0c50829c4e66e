// The symbols of a program: the marks of each hart, by name.
ghost use Rattle.std.specs.Prelude.{◌≡◌, ◌<◌, ◌++◌, ◌∷◌, [], IfOk, OnOk, length, codes};
ghost use Rattle.std.specs.Fmt.{decimal};
ghost use Rattle.tm_plan_cases.specs.Shaped.{IsProgram};
ghost use Rattle.tm_image_build.specs.Symbols as symbols_;

use std::alloc::Global;
use tm_base::{Bytes, List, NoMemory, Text, push_decimal};
use tm_elf_write::Symbol;
use tm_plan_cases::Program;

/// The symbols of a program, hart by hart: the start and the end of the stream of each case, the barrier's exit, and
/// halt.
#[tactic(auto, unfolding(crate::specs::Symbols::symbols_of))]
pub fn symbols_of(alloc: Global, program: &Program) -> Result<List<Symbol>, NoMemory>
    requires { IsProgram program.now }
    ensures { IfOk result (λ symbols. symbols ≡ symbols_.symbols_of program.now) }
{
    let mut symbols = List::new(alloc);
    for h in 0..program.cases.harts {
        put_hart(alloc, &mut symbols, program, h)?;
    }
    Ok(symbols)
}

// The symbols of one hart.
fn put_hart(
    alloc: Global,
    symbols: &mut List<Symbol>,
    program: &Program,
    h: u32,
) -> Result<(), NoMemory>
    requires program { IsProgram program.now }
    requires hart { h < program.now.cases.harts }
    ensures { OnOk result (symbols.new ≡ symbols.old ++ symbols_.hart_symbols program.now h) }
{
    put_streams(alloc, symbols, program, h)?;
    let exit = program.marks.exits.as_slice()[h as usize];
    put_symbol(symbols, mark_name(alloc, b"tm_x_", h)?, exit)?;
    let halt = program.marks.halts.as_slice()[h as usize];
    put_symbol(symbols, mark_name(alloc, b"tm_halt_", h)?, halt)
}

// The symbols of one hart's streams.
fn put_streams(
    alloc: Global,
    symbols: &mut List<Symbol>,
    program: &Program,
    h: u32,
) -> Result<(), NoMemory>
    requires program { IsProgram program.now }
    requires hart { h < program.now.cases.harts }
    ensures { OnOk result (symbols.new ≡ symbols.old ++ symbols_.streams_symbols program.now h) }
{
    let cases = program.cases.cases.as_slice().len() as u32;
    for c in 0..cases {
        put_stream(alloc, symbols, program, h, c)?;
    }
    Ok(())
}

// The two symbols of one stream.
fn put_stream(
    alloc: Global,
    symbols: &mut List<Symbol>,
    program: &Program,
    h: u32,
    c: u32,
) -> Result<(), NoMemory>
    requires program { IsProgram program.now }
    requires hart { h < program.now.cases.harts }
    requires case { c < length program.now.cases.cases }
    ensures { OnOk result (symbols.new ≡ symbols.old ++ symbols_.stream_symbols program.now h c) }
{
    let cases = program.cases.cases.as_slice().len();
    let place = h as usize * cases + c as usize;
    let start = program.marks.starts.as_slice()[place];
    put_symbol(symbols, stream_name(alloc, b"tm_s_", h, c)?, start)?;
    let end = program.marks.ends.as_slice()[place];
    put_symbol(symbols, stream_name(alloc, b"tm_e_", h, c)?, end)
}

fn put_symbol(symbols: &mut List<Symbol>, name: Text, addr: u64) -> Result<(), NoMemory>
    ensures { OnOk result (symbols.new ≡ symbols.old ++ symbols_.symbol name addr ∷ []) }
{
    symbols.push(Symbol { name, addr })
}

// The name of a hart's mark.
fn mark_name(alloc: Global, front: &[u8], h: u32) -> Result<Text, NoMemory>
    ensures { IfOk result (λ name. name ≡ front.now ++ decimal h) }
{
    let mut name = Bytes::copy_of(alloc, front)?;
    push_decimal(&mut name, u64::from(h))?;
    Ok(name)
}

// The name of a stream's mark.
fn stream_name(alloc: Global, front: &[u8], h: u32, c: u32) -> Result<Text, NoMemory>
    ensures { IfOk result (λ name. name ≡ symbols_.stream_name front.now h c) }
{
    let mut name = mark_name(alloc, front, h)?;
    name.push(b'_')?;
    push_decimal(&mut name, u64::from(c))?;
    Ok(name)
}
