// The calls of a desk or a sink in memory, some of which fail.
ghost use Rattle.std.specs.Prelude.{◌≡◌, ◌↔◌, IsTrue};

use tm_base::List;

/// Counted calls, numbered from 1. Those whose numbers are listed fail. Both counts stay at the last
/// value of a `u64`.
#[derive(Drop)]
pub struct Calls {
    fails: List<u64>,
    made: u64,
    faults: u64,
}

impl Calls {
    ghost use Rattle.tm_desk.specs.Seen.{CountsCall, Fails};

    /// No call yet.
    pub fn new(fails: List<u64>) -> Self
        ensures { result ≡ record { fails = fails; made = 0; faults = 0 } }
    {
        Calls {
            fails,
            made: 0,
            faults: 0,
        }
    }

    /// Counts a call, and answers whether it fails.
    pub fn fails_now(&mut self) -> bool
        ensures fails { IsTrue result ↔ Fails self.old }
        ensures counted { CountsCall self.old self.new }
    {
        self.made = self.made.saturating_add(1);
        let fails = self.fails.as_slice().contains(&self.made);
        if fails {
            self.faults = self.faults.saturating_add(1);
        }
        fails
    }
}
