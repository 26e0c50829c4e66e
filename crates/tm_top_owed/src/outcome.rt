// How a call ended.
use tm_plan_journal::Journal;

/// How a call ended: its status, and the journal of a simulation where the command made one.
#[derive(Drop)]
pub struct Outcome {
    pub status: u8,
    pub journal: Option<Journal>,
}
