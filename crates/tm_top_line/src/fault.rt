// All faults that have a line.
use tm_desk::DeskError;
use tm_fault::FaultScriptFault;
use tm_judge::JudgeFault;
use tm_refusals::{ImageFault, InputFault};
use tm_trace::TraceFault;

/// Why an input, an image, a script of faults or a trace is refused, or why a file can't be read or written.
#[derive(Drop)]
pub enum AnyFault {
    Input(InputFault),
    Image(ImageFault),
    Script(FaultScriptFault),
    Desk(DeskError),
    Trace(TraceFault),
    Judge(JudgeFault),
}
