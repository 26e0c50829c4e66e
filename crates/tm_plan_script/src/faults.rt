// What a script of faults says.
ghost use Rattle.std.specs.Prelude.{◌≡◌, ◌++◌, ◌∷◌, [], OnOk, OnErr};

use std::alloc::Global;
use std::marker::Model;
use tm_base::NoMemory;

/// What is done to a step of a stream. Each number is xored, so that 0 would change nothing.
#[derive(Clone, Copy, Debug, PartialEq, Eq)]
pub enum Action {
    /// The value that the step writes to its register is xored with this number.
    Result(u64),
    /// The raw value that a load reads is xored with this number, before it is extended and written to the register.
    /// The journal holds the xored value.
    Loaded(u64),
    /// The value that a store writes is xored with this number. The journal holds the xored value.
    Stored(u64),
    /// A store writes nothing. The journal holds no access.
    Drop,
    /// A branch goes the other way: on where it would be taken, and to its target where it wouldn't.
    Turn,
}

/// A line of a script: an action on the step of a hart at a slot of its stream of a case. All numbers count from 0. The
/// action is done in one pass, or in every pass where `pass` is `None`.
#[derive(Clone, Copy, Debug, PartialEq, Eq)]
pub struct FaultLine {
    pub hart: u32,
    pub case: u32,
    pub pass: Option<u32>,
    pub slot: u32,
    pub action: Action,
}

/// A script: its lines, in the order of its text. Contracts see the list of lines.
#[derive(Drop)]
pub struct Faults {
    lines: Vec<FaultLine>,
}

impl Model for Faults {
    ghost use Rattle.std.specs.Prelude.{List};
    ghost use Rattle.tm_plan_script.specs.declared.faults.FaultLine.{FaultLine};

    ghost Value = { List FaultLine };

    ghost view = { λ faults. faults.lines.items };
}

impl Faults {
    /// The script that has no lines, and changes nothing.
    pub fn nothing(alloc: Global) -> Faults
        ensures { result ≡ [] }
    {
        Faults {
            lines: Vec::new(alloc),
        }
    }

    /// Puts a line behind all others, or changes nothing.
    pub fn put(&mut self, line: FaultLine) -> Result<(), NoMemory>
        ensures ok { OnOk result (self.new ≡ self.old ++ line ∷ []) }
        ensures err { OnErr result (self.new ≡ self.old) }
    {
        match self.lines.push(line) {
            Ok(()) => Ok(()),
            Err(_) => Err(NoMemory),
        }
    }

    /// All lines, in order.
    pub fn as_slice(&self) -> &[FaultLine]
        ensures { result.now ≡ self.now }
    {
        self.lines.as_slice()
    }
}
