// The faults of a trace, as they are told.
ghost use Rattle.std.specs.Prelude.{◌≡◌, ◌++◌, OnOk};
ghost use Rattle.tm_top_line.specs.Traces.{judge_fault_text, trace_fault_text};

use crate::values::put_value;
use tm_base::{Bytes, NoMemory};
use tm_judge::JudgeFault;
use tm_trace::TraceFault;

/// The fault of a text that is no trace.
pub fn put_trace(out: &mut Bytes, fault: TraceFault) -> Result<(), NoMemory>
    ensures { OnOk result (out.new ≡ out.old ++ trace_fault_text fault) }
{
    match fault {
        TraceFault::Expected { line } => put_value(out, b"Expected", u64::from(line)),
        TraceFault::OutOfRange { line } => put_value(out, b"OutOfRange", u64::from(line)),
        TraceFault::Early { line } => put_value(out, b"Early", u64::from(line)),
        TraceFault::NoMemory => Ok(()),
    }
}

/// The fault of a trace that isn't judged.
pub fn put_judge(out: &mut Bytes, fault: JudgeFault) -> Result<(), NoMemory>
    ensures { OnOk result (out.new ≡ out.old ++ judge_fault_text fault) }
{
    match fault {
        JudgeFault::Harts { harts } => put_value(out, b"Harts", u64::from(harts)),
        JudgeFault::NoMemory => Ok(()),
    }
}
