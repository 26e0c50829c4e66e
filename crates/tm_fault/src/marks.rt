// The table of marks: which steps the lines so far name, so that a line that repeats one is found at its entry.
ghost use Rattle.std.specs.Prelude.{◌≡◌, ◌++◌, ◌∷◌, ◌*◌, ◌^◌, ◌<◌, [], ℕ, IfOk, length, if◌then◌else◌};
ghost use Rattle.std.specs.Int.{bit_at};
ghost use Rattle.tm_fault.specs.Script as script;
ghost use Rattle.tm_fault.specs.Marks as marked;

use std::alloc::Global;
use std::marker::Model;
use tm_base::{HART_ROOM, MOST_SLOTS, NoMemory};
use tm_plan_script::{Action, FaultLine};

/// How many kinds of action there are.
pub const KINDS: u32 = 5;

/// How many entries a case has.
pub const CASE_ENTRIES: u32 = HART_ROOM * MOST_SLOTS * KINDS;

fn kind_number(action: Action) -> u64
    ensures { result ≡ marked.kind_number action }
{
    match action {
        Action::Result(_) => 0,
        Action::Loaded(_) => 1,
        Action::Stored(_) => 2,
        Action::Drop => 3,
        Action::Turn => 4,
    }
}

// Where the entry of a line stands.
#[tactic(auto, unfolding(crate::specs::Marks::place_of))]
fn place_of(line: FaultLine) -> u64
    ensures { result ≡ marked.place_of line }
{
    let row = u64::from(line.case) * u64::from(HART_ROOM) + u64::from(line.hart);
    let slot = row * u64::from(MOST_SLOTS) + u64::from(line.slot);
    slot * u64::from(KINDS) + kind_number(line.action)
}

// The bits of a pass, or of all of them.
fn bits_of(pass: Option<u32>) -> u8
    requires { marked.HasBit pass }
    ensures { (k : ℕ) → k < 8 → bit_at result k ≡ (if marked.in_pass pass k then 1 else 0) }
{
    match pass {
        Some(k) => 1u8 << k,
        None => u8::MAX,
    }
}

/// The table of marks, a byte for each hart, case, slot and kind of action, and in it a bit for each pass. Contracts
/// see the list of bytes.
#[derive(Drop)]
pub struct Marks {
    entries: Vec<u8>,
}

impl Model for Marks {
    ghost use Rattle.std.specs.Prelude.{List, ℕ};

    ghost Value = { List ℕ };

    ghost view = { λ marks. marks.entries.items };
}

impl Marks {
    /// The table of so many cases before any line.
    pub fn none(alloc: Global, cases: usize) -> Result<Marks, NoMemory>
        requires { cases < 2 ^ 32 }
        ensures marks { IfOk result (λ m. marked.AreMarks [] m) }
        ensures long { IfOk result (λ m. length m ≡ cases * CASE_ENTRIES) }
    {
        match vec![in alloc; 0u8; cases * CASE_ENTRIES as usize] {
            Ok(entries) => Ok(Marks { entries }),
            Err(_) => Err(NoMemory),
        }
    }

    /// Whether a line repeats one of those that the table tells of.
    pub fn has(&self, line: FaultLine) -> bool
        requires { marked.IsTabled (length self.now) line }
        ensures { (lines : _) → marked.AreMarks lines self.now → result ≡ script.is_twice lines line }
    {
        self.entries[place_of(line) as usize] & bits_of(line.pass) != 0
    }

    /// Puts a line into the table.
    pub fn put(&mut self, line: FaultLine)
        requires { marked.IsTabled (length self.old) line }
        ensures marks { (lines : _) → marked.AreMarks lines self.old → marked.AreMarks (lines ++ line ∷ []) self.new }
        ensures long { length self.new ≡ length self.old }
    {
        self.entries[place_of(line) as usize] |= bits_of(line.pass);
    }
}
