// What a template asks for, once no rule refuses it.
use crate::windows::Window;
use tm_base::{List, Text};
use tm_table::Instr;

/// One slot of a stream: an instruction as it was written, or one that is drawn, of a class by these four weights.
#[derive(Clone, Copy, Debug, PartialEq, Eq)]
pub enum Slot {
    Emit(Instr),
    Mix {
        alu: u32,
        load: u32,
        store: u32,
        branch: u32,
    },
}

/// The slots of one hart, in order.
pub type SlotList = List<Slot>;

/// A case: for each hart, in order, the slots that it runs.
#[derive(Drop)]
pub struct AdmittedCase {
    pub name: Text,
    pub bodies: List<SlotList>,
}

/// A test before its streams are drawn. `line` is the line size in bytes, `part` a hart's bytes of each line of a
/// false window, and
/// `bias` says how often, of a hundred times, a drawn access goes to its case's hot line.
#[derive(Drop)]
pub struct Admitted {
    pub name: Text,
    pub harts: u32,
    pub line: u32,
    pub part: u32,
    pub bias: u32,
    pub passes: u32,
    pub windows: List<Window>,
    pub cases: List<AdmittedCase>,
}
