// The two texts of a sample.
ghost use Rattle.std.specs.Prelude.{◌≡◌, ◌≤◌, ◌++◌, ℕ, IfOk, OnOk, length, flat_map};
ghost use Rattle.tm_base.specs.Lists.{count_from};
ghost use Rattle.tm_sample.specs.Texts as form;

use std::alloc::Global;
use tm_base::{Bytes, NoMemory, Text, push_decimal};

// How many cases a sample has.
const CASES: u64 = 8;

// Puts a key of a topology with its number, as a line.
fn put_key(out: &mut Bytes, key: &[u8], value: u64) -> Result<(), NoMemory>
    ensures { OnOk result (out.new ≡ out.old ++ form.key_line key.now value) }
{
    out.append(key)?;
    out.append(b" = ")?;
    push_decimal(out, value)?;
    out.push(b'\n')
}

// The line size of a sample, in bytes.
fn line_size(turn: u64) -> u64
    ensures { result ≡ form.sample_line turn }
{
    match turn {
        0 => 32,
        1 => 64,
        _ => 128,
    }
}

#[tactic(auto, unfolding(crate::specs::Texts::sample_topology))]
fn topology_text(alloc: Global, n: u64) -> Result<Text, NoMemory>
    ensures { IfOk result (λ text. text ≡ form.sample_topology n) }
{
    let mut out = Bytes::new(alloc);
    put_key(&mut out, b"cores", 1 + n % 2)?;
    out.append(b"threads = 2\n")?;
    put_key(&mut out, b"line", line_size(n % 3))?;
    put_key(&mut out, b"bias", n % 101)?;
    Ok(out)
}

// Puts the lines of a case.
fn put_case(out: &mut Bytes, c: u64) -> Result<(), NoMemory>
    ensures { OnOk result (out.new ≡ out.old ++ form.sample_case c) }
{
    out.append(b"case c")?;
    push_decimal(out, c)?;
    out.append(b"\nbody all\nmix 100 alu 4 load 3 store 3 branch 1\n")
}

// Puts the lines of all cases.
fn put_cases(out: &mut Bytes) -> Result<(), NoMemory>
    ensures { OnOk result (out.new ≡ out.old ++ flat_map form.sample_case (count_from 0 8)) }
{
    for c in 0..CASES {
        put_case(out, c)?;
    }
    Ok(())
}

#[tactic(auto, unfolding(crate::specs::Texts::sample_template))]
fn template_text(alloc: Global, n: u64) -> Result<Text, NoMemory>
    ensures { IfOk result (λ text. text ≡ form.sample_template n) }
{
    let mut out = Bytes::new(alloc);
    out.append(b"template sample\npasses ")?;
    push_decimal(&mut out, 2 + n % 3)?;
    out.append(b"\nwindow 0 true 2\nwindow 1 false 2\nwindow 2 own 8\n")?;
    put_cases(&mut out)?;
    Ok(out)
}

/// The topology and the template of the sample of a number, of at most 60 and 1,075 bytes: up to 4 harts, and 8 cases
/// of 100 drawn slots.
#[tactic(auto, using(crate::proofs::Lengths::topology_short, crate::proofs::Lengths::template_short))]
pub fn sample_texts(alloc: Global, n: u64) -> Result<(Text, Text), NoMemory>
    ensures topology { IfOk result (λ texts. texts.0 ≡ form.sample_topology n) }
    ensures template { IfOk result (λ texts. texts.1 ≡ form.sample_template n) }
    ensures topology_short { IfOk result (λ texts. length texts.0 ≤ 60) }
    ensures template_short { IfOk result (λ texts. length texts.1 ≤ 1075) }
{
    let topology = topology_text(alloc, n)?;
    let template = template_text(alloc, n)?;
    Ok((topology, template))
}
