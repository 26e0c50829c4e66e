use tm_asm_line::AsmFault;
use tm_base::Pos;
use tm_table::Op;

/// Which rule a statement of a template breaks, with the number that breaks it.
#[derive(Clone, Copy, Debug, PartialEq, Eq)]
pub enum RuleFault {
    /// The number of cases isn't 1 to 32.
    Cases { n: u64 },
    /// The number of passes isn't 2 to 8.
    Passes { n: u32 },
    /// The number of a body's slots isn't 1 to 256.
    Slots { n: u64 },
    /// A window has no lines, more than its 2048 bytes hold, or fewer than one for each hart that needs one.
    Lines { n: u32 },
    /// There is no window of this number, or it isn't declared.
    NoWindow { w: u32 },
    /// The register may not stand there.
    Register { x: u8 },
    /// The line spells no instruction.
    Asm(AsmFault),
    /// The op has no place in a stream.
    NotAllowed { name: Op },
    /// The address isn't aligned, or isn't in a declared line of the window of its base.
    BadPlace { addr: u64 },
    /// The hart, the least of the body that may not, makes an access.
    NotOwner { hart: u32, addr: u64 },
    /// A branch or jump of this slot that doesn't go to a slot behind it, or to the end.
    Target { slot: u32, offset: i64 },
    /// The sum of the weights isn't 1 to 1,000,000.
    NoWeight { sum: u64 },
    /// There is no hart, core or thread of this number.
    NoHart { n: u32 },
    /// The hart has a body already.
    TwiceBody { h: u32 },
    /// The name or the number came before.
    TwiceName,
}

/// The rule that a template breaks, and the place of its statement's first word.
#[derive(Clone, Copy, Debug, PartialEq, Eq)]
pub struct RuleAt {
    pub pos: Pos,
    pub fault: RuleFault,
}

/// Why a template isn't admitted.
#[derive(Clone, Copy, Debug, PartialEq, Eq)]
pub enum AdmitFault {
    /// The first rule that it breaks, and where.
    Rule(RuleAt),
    NoMemory,
}
