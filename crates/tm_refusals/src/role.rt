/// What a line on the error sink speaks of.
#[derive(Clone, Copy, Debug, PartialEq, Eq)]
pub enum Role {
    Topology,
    Template,
    Image,
    Faults,
    Trace,
    Output,
}
