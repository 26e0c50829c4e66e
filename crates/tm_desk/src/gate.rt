// What each hart passes before its turns.
/// A gate that is passed before each turn of a hart. It may hold the one that passes for a while; whatever it does, it
/// comes to an end.
pub trait Gate: Sync {
    /// Hart `hart` is about to take a turn.
    fn pass(&self, hart: u32);
}

/// The gate that holds nobody.
#[derive(Clone, Copy, Debug)]
pub struct OpenGate;

impl Gate for OpenGate {
    fn pass(&self, _hart: u32) {}
}
