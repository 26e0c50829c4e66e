// What a template says, each statement with the place of its first word; and why a text says none.
use tm_base::{List, Pos, Text};
use tm_lex::LexFault;

/// A test: its name, its passes, its windows and its cases, and where its text ends.
#[derive(Drop)]
pub struct Template {
    pub name: Text,
    pub passes: u32,
    pub passes_at: Pos,
    pub windows: List<WindowDecl>,
    pub cases: List<CaseDecl>,
    pub end: Pos,
}

/// A window of shared lines.
#[derive(Clone, Copy, Debug, PartialEq, Eq)]
pub struct WindowDecl {
    pub at: Pos,
    pub number: u32,
    pub kind: Kind,
    pub lines: u32,
}

/// How the harts share a window.
#[derive(Clone, Copy, Debug, PartialEq, Eq)]
pub enum Kind {
    True,
    False,
    Own,
}

/// A case, with the bodies of some harts.
#[derive(Drop)]
pub struct CaseDecl {
    pub at: Pos,
    pub name: Text,
    pub bodies: List<BodyDecl>,
}

/// What the selected harts run.
#[derive(Drop)]
pub struct BodyDecl {
    pub at: Pos,
    pub whom: Selector,
    pub slots: List<SlotDecl>,
}

/// All harts, or one by its number, or those of a core, or those of one thread of each core.
#[derive(Clone, Copy, Debug, PartialEq, Eq)]
pub enum Selector {
    All,
    Hart(u32),
    Core(u32),
    Thread(u32),
}

/// One statement of a body.
#[derive(Drop)]
pub struct SlotDecl {
    pub at: Pos,
    pub what: SlotText,
}

/// An assembler line as it stands, or a number of slots that are drawn by weights.
#[derive(Drop)]
pub enum SlotText {
    Emit(Text),
    Mix {
        count: u32,
        alu: u32,
        load: u32,
        store: u32,
        branch: u32,
    },
}

/// What a place of a template wants.
#[derive(Clone, Copy, Debug, PartialEq, Eq)]
pub enum Want {
    Template,
    Passes,
    Name,
    Number,
    Kind,
    Selector,
    Asm,
    Class,
    LineEnd,
    Statement,
}

/// Why a text is no template.
#[derive(Clone, Copy, Debug, PartialEq, Eq)]
pub enum TmplFault {
    Lex(LexFault),
    Early { what: Want },
    Expected { pos: Pos, what: Want },
    NoMemory,
}
