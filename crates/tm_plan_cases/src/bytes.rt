// The bytes of the tables.
ghost use Rattle.std.specs.Prelude.{◌≡◌, ◌++◌, ◌∷◌, OnOk, IfOk, drop};
ghost use Rattle.tm_plan_cases.specs.Tables.{dword_bytes, dwords_bytes, hart_table, hart_tables, case_table};
ghost use Rattle.tm_plan_cases.specs.Tables.{case_tables, table_bytes};

use crate::cases::{Case, Cases, Stream};
use crate::masks::{CaseMask, Masks};
use std::alloc::Global;
use tm_base::{Bytes, NoMemory};

#[tactic(auto, unfolding(crate::specs::Tables::dword_bytes))]
fn put_dword(out: &mut Bytes, n: u64) -> Result<(), NoMemory>
    ensures { OnOk result (out.new ≡ out.old ++ dword_bytes n) }
{
    out.append(&n.to_le_bytes())
}

fn put_dwords(out: &mut Bytes, numbers: &[u64]) -> Result<(), NoMemory>
    ensures { OnOk result (out.new ≡ out.old ++ dwords_bytes numbers.now) }
{
    for n in numbers {
        put_dword(out, *n)?;
    }
    Ok(())
}

// x0 is always 0, and isn't put.
fn put_registers(out: &mut Bytes, regs: &[u64]) -> Result<(), NoMemory>
    ensures { OnOk result (out.new ≡ out.old ++ dwords_bytes (drop 1 regs.now)) }
{
    let [_, named @ ..] = regs else {
        return Ok(());
    };
    put_dwords(out, named)
}

fn put_hart(out: &mut Bytes, stream: &Stream, mask: u32) -> Result<(), NoMemory>
    ensures { OnOk result (out.new ≡ out.old ++ hart_table stream.now mask) }
{
    put_registers(out, &stream.regs)?;
    put_dword(out, u64::from(mask))
}

fn put_harts(out: &mut Bytes, streams: &[Stream], masks: &[u32]) -> Result<(), NoMemory>
    ensures { OnOk result (out.new ≡ out.old ++ hart_tables streams.now masks.now) }
{
    let [stream, more_streams @ ..] = streams else {
        return Ok(());
    };
    let [mask, more_masks @ ..] = masks else {
        return Ok(());
    };
    put_hart(out, stream, *mask)?;
    put_harts(out, more_streams, more_masks)
}

fn put_case(out: &mut Bytes, case: &Case, mask: &CaseMask) -> Result<(), NoMemory>
    ensures { OnOk result (out.new ≡ out.old ++ case_table case.now mask.now) }
{
    put_harts(out, case.streams.as_slice(), mask.regs.as_slice())?;
    put_dwords(out, case.first.as_slice())?;
    out.append(mask.bytes.as_slice())
}

fn put_cases(out: &mut Bytes, cases: &[Case], masks: &[CaseMask]) -> Result<(), NoMemory>
    ensures { OnOk result (out.new ≡ out.old ++ case_tables cases.now masks.now) }
{
    let [case, more_cases @ ..] = cases else {
        return Ok(());
    };
    let [mask, more_masks @ ..] = masks else {
        return Ok(());
    };
    put_case(out, case, mask)?;
    put_cases(out, more_cases, more_masks)
}

/// The bytes of the tables: for each case with its mask, the first registers and the register mask of
/// each hart, the first bytes of the windows, and their mask bytes.
#[tactic(auto, unfolding(crate::specs::Tables::table_bytes))]
pub fn tables(alloc: Global, cases: &Cases, masks: &Masks) -> Result<Bytes, NoMemory>
    ensures { IfOk result (λ bytes. bytes ≡ table_bytes cases.now masks.now) }
{
    let mut out = Bytes::new(alloc);
    put_cases(&mut out, cases.cases.as_slice(), masks.cases.as_slice())?;
    Ok(out)
}
