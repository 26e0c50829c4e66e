// The numbers of the verdicts.
ghost use Rattle.std.specs.Prelude.{◌≡◌};

use std::marker::Model;

/// The verdicts of all harts on all cases, that on case `c` of hart `h` at `c * N + h` for N harts. Contracts see the
/// list of numbers.
#[derive(Drop)]
pub struct Verdicts {
    items: Vec<u64>,
}

impl Model for Verdicts {
    ghost use Rattle.std.specs.Prelude.{ℕ, List};

    ghost Value = { List ℕ };

    ghost view = { λ verdicts. verdicts.items.items };
}

impl Verdicts {
    pub(crate) fn of(items: Vec<u64>) -> Verdicts
        ensures { result ≡ items.items }
    {
        Verdicts { items }
    }

    /// All verdicts, in order.
    pub fn as_slice(&self) -> &[u64]
        ensures { result.now ≡ self.now }
    {
        self.items.as_slice()
    }
}
