// What a script does to one step.
ghost use Rattle.std.specs.Prelude.{◌≡◌};
ghost use Rattle.tm_world.specs.Faulted.{nothing};
ghost use Rattle.tm_changes.specs.Made.{change_in, with_action};

use tm_plan_script::Action;

/// What a script does to one step: numbers that are xored to its result, to what it loads and to what it stores, 0
/// where nothing is; whether its store is dropped; and whether its branch is turned.
#[derive(Clone, Copy)]
pub struct Change {
    pub result: u64,
    pub loaded: u64,
    pub stored: u64,
    pub drops: bool,
    pub turns: bool,
}

impl Change {
    /// The change that changes nothing.
    pub fn nothing() -> Change
        ensures { change_in result ≡ nothing }
    {
        Change {
            result: 0,
            loaded: 0,
            stored: 0,
            drops: false,
            turns: false,
        }
    }

    /// The change with one action more, which counts before those of its kind.
    pub fn with(self, action: Action) -> Change
        ensures { change_in result ≡ with_action action (change_in self) }
    {
        let mut change = self;
        match action {
            Action::Result(number) => change.result = number,
            Action::Loaded(number) => change.loaded = number,
            Action::Stored(number) => change.stored = number,
            Action::Drop => change.drops = true,
            Action::Turn => change.turns = true,
        }
        change
    }
}
