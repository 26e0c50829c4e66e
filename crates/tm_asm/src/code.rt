// Labelled code.
ghost use Rattle.std.specs.Prelude.{◌≡◌, ℕ, ◌<◌, ◌≤◌, ◌↔◌, List, [], ◌∷◌, ◌++◌, length, true, false, Option, Some};
ghost use Rattle.std.specs.Prelude.{None, IfOk, IfErr, IfSome, IsSome, OnOk, OnErr, slice_get, slice_set};
ghost use Rattle.tm_table.specs.Ops.{is_branch};
ghost use Rattle.tm_table.specs.Words.{Fits};
ghost use Rattle.tm_asm.specs.Sheet.{Sheet, AllGood, AllPlaced, AllReach, IsFar, IsFarAt, HasPlace, IsWithin};
ghost use Rattle.tm_asm.specs.Sheet.{words_in, worded, IsGood, distance, branching, jumping, reaches};
ghost use Rattle.tm_asm.specs.Sheet.{branch_reaches, jump_reaches};
ghost use Rattle.tm_asm.specs.Sheet.{place_of as own_place_of};
ghost use Rattle.tm_asm.specs.declared.code.Item.TheVariants.{Plain, Branch, Jump, Word};
ghost use Rattle.tm_asm.specs.declared.fault.CodeFault.TheVariants.{FarBranch};

use crate::fault::CodeFault;
use std::alloc::Global;
use std::marker::Model;
use tm_base::{NoMemory, Words};
use tm_table::{Instr, Op, encode};

/// A place in code that is set once, before or after the words that lead to it. The labels of a code are
/// numbered from 0.
#[derive(Clone, Copy)]
pub struct Label {
    pub number: u64,
}

/// A word to come: an instruction, a branch or jump to a label by its number, or a word as it is.
#[derive(Clone, Copy)]
pub enum Item {
    Plain(Instr),
    Branch(Op, u8, u8, u64),
    Jump(u8, u64),
    Word(u32),
}

/// Words with labels. A contract sees the words to come, and the places of the labels that have one.
#[derive(Drop)]
pub struct Code {
    items: Vec<Item>,
    places: Vec<Option<u64>>,
}

impl Model for Code {
    ghost Value = { Sheet };

    ghost view = { λ c. record { items = c.items.items; places = c.places.items } };

    ghost invariant = { λ c. AllGood c.items.items };
}

impl Code {
    /// Code without words and labels.
    pub fn new(alloc: Global) -> Self
        ensures { result ≡ record { items = []; places = [] } }
    {
        Code {
            items: Vec::new(alloc),
            places: Vec::new(alloc),
        }
    }

    /// How many words there are.
    pub fn len(&self) -> u64
        ensures { result ≡ length self.now.items }
    {
        self.items.len() as u64
    }

    /// Appends an instruction, or changes nothing.
    pub fn put(&mut self, i: Instr) -> Result<(), NoMemory>
        requires { Fits i }
        ensures ok { OnOk result (self.new ≡ record {
          items = self.old.items ++ Plain i ∷ [];
          places = self.old.places;
        }) }
        ensures err { OnErr result (self.new ≡ self.old) }
    {
        self.items.push(Item::Plain(i)).map_err(|_| NoMemory)
    }

    /// Appends a word as it is, or changes nothing.
    pub fn put_word(&mut self, word: u32) -> Result<(), NoMemory>
        ensures ok { OnOk result (self.new ≡ record {
          items = self.old.items ++ Word word ∷ [];
          places = self.old.places;
        }) }
        ensures err { OnErr result (self.new ≡ self.old) }
    {
        self.items.push(Item::Word(word)).map_err(|_| NoMemory)
    }

    /// A new label without a place; or nothing changes.
    pub fn fresh(&mut self) -> Result<Label, NoMemory>
        ensures ok { IfOk result (λ label. (label.number ≡ length self.old.places)
            × (self.new ≡ record { items = self.old.items; places = self.old.places ++ None ∷ [] })) }
        ensures err { OnErr result (self.new ≡ self.old) }
    {
        let number = self.places.len() as u64;
        match self.places.push(None) {
            Ok(()) => Ok(Label { number }),
            Err(_) => Err(NoMemory),
        }
    }

    /// Sets a label's place to the next word.
    pub fn here(&mut self, label: Label)
        requires { slice_get self.old.places label.number ≡ Some None }
        ensures { self.new ≡ record {
          items = self.old.items;
          places = slice_set self.old.places label.number (Some (length self.old.items));
        } }
    {
        let place = self.items.len() as u64;
        self.places[label.number as usize] = Some(place);
    }

    /// Appends a branch to a label, or changes nothing.
    pub fn branch(&mut self, op: Op, rs1: u8, rs2: u8, to: Label) -> Result<(), NoMemory>
        requires branch { is_branch op ≡ true }
        requires rs1 { rs1 < 32 }
        requires rs2 { rs2 < 32 }
        ensures ok { OnOk result (self.new ≡ record {
          items = self.old.items ++ Branch op rs1 rs2 to.number ∷ [];
          places = self.old.places;
        }) }
        ensures err { OnErr result (self.new ≡ self.old) }
    {
        self.items
            .push(Item::Branch(op, rs1, rs2, to.number))
            .map_err(|_| NoMemory)
    }

    /// Appends a jump to a label, with its link in `rd`, or changes nothing.
    pub fn jump(&mut self, rd: u8, to: Label) -> Result<(), NoMemory>
        requires { rd < 32 }
        ensures ok { OnOk result (self.new ≡ record {
          items = self.old.items ++ Jump rd to.number ∷ [];
          places = self.old.places;
        }) }
        ensures err { OnErr result (self.new ≡ self.old) }
    {
        self.items
            .push(Item::Jump(rd, to.number))
            .map_err(|_| NoMemory)
    }

    /// The words, with each branch and jump reaching its label's place; or the first that can't reach it, which
    /// is one whose offset is outside -4096 to 4094, or -1048576 to 1048574 for a jump.
    pub fn finish(self) -> Result<Words, CodeFault>
        requires { AllPlaced self.places self.items }
        ensures words { IfOk result (λ words. words ≡ words_in self.places 0 self.items) }
        ensures near { OnOk result (AllReach self) }
        ensures far { IfErr result (IsFar self) }
    {
        let mut words = Words::new(*self.items.allocator());
        for (at, item) in self.items.iter().enumerate() {
            let word = word_at(*item, at as u64, self.places.as_slice())?;
            if words.push(word).is_err() {
                return Err(CodeFault::NoMemory);
            }
        }
        Ok(words)
    }
}

/// The word at a place, where it reaches its label.
fn word_at(item: Item, at: u64, places: &[Option<u64>]) -> Result<u32, CodeFault>
    requires placed { HasPlace places.now item }
    requires good { IsGood item }
    ensures ok { IfOk result (λ word. word ≡ worded places.now at item) }
    ensures near { OnOk result (reaches places.now at item ≡ true) }
    ensures far { IfErr result (IsFarAt places.now at item) }
{
    match item {
        Item::Plain(i) => Ok(encode(i)),
        Item::Branch(op, rs1, rs2, label) => {
            let i = branch_to(op, rs1, rs2, at, place_of(places, label))?;
            Ok(encode(i))
        }
        Item::Jump(rd, label) => {
            let i = jump_to(rd, at, place_of(places, label))?;
            Ok(encode(i))
        }
        Item::Word(word) => Ok(word),
    }
}

/// The branch from a word to another, where it reaches it.
fn branch_to(op: Op, rs1: u8, rs2: u8, at: u64, to: u64) -> Result<Instr, CodeFault>
    ensures ok { IfOk result (λ i. i ≡ branching op rs1 rs2 (distance at to)) }
    ensures near { OnOk result (branch_reaches (distance at to) ≡ true) }
    ensures far { IfErr result (λ e. (e ≡ FarBranch at to) × (branch_reaches (distance at to) ≡ false)) }
{
    match offset(at, to, 1024) {
        Some(imm) => Ok(Instr {
            op,
            rd: 0,
            rs1,
            rs2,
            imm,
        }),
        None => Err(CodeFault::FarBranch { from: at, to }),
    }
}

/// The jump from a word to another, with its link in `rd`, where it reaches it.
fn jump_to(rd: u8, at: u64, to: u64) -> Result<Instr, CodeFault>
    ensures ok { IfOk result (λ i. i ≡ jumping rd (distance at to)) }
    ensures near { OnOk result (jump_reaches (distance at to) ≡ true) }
    ensures far { IfErr result (λ e. (e ≡ FarBranch at to) × (jump_reaches (distance at to) ≡ false)) }
{
    match offset(at, to, 262_144) {
        Some(imm) => Ok(Instr {
            op: Op::Jal,
            rd,
            rs1: 0,
            rs2: 0,
            imm,
        }),
        None => Err(CodeFault::FarBranch { from: at, to }),
    }
}

/// The place of a label, or 0 where it has none.
fn place_of(places: &[Option<u64>], label: u64) -> u64
    ensures { result ≡ own_place_of places.now label }
{
    match places.get(label as usize) {
        Some(Some(place)) => *place,
        _ => 0,
    }
}

/// The offset in bytes between two words, where there are fewer than `reach` words to go on, or at most so many
/// to go back.
fn offset(from: u64, to: u64, reach: u64) -> Option<i64>
    requires { reach ≤ 262144 }
    ensures value { IfSome result (λ d. d ≡ distance from to) }
    ensures some { IsSome result ↔ IsWithin reach from to }
{
    if from <= to {
        let words = to - from;
        if words < reach {
            return Some((4 * words) as i64);
        }
        return None;
    }
    let words = from - to;
    if words <= reach {
        return Some(-((4 * words) as i64));
    }
    None
}
