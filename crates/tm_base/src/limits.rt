// The limits that several crates read, each once and by name, for code and clauses.
ghost use Rattle.std.specs.Prelude.{◌≡◌};
ghost use Rattle.tm_base.specs.Limits as limits;

/// The version of the images that are built.
pub const IMAGE_VERSION: u32 = 1;

/// The most harts of an image of version 1.
pub const IMAGE_1_HARTS: u32 = 8;

/// The most cases of an image of version 1.
pub const IMAGE_1_CASES: u32 = 32;

/// How many operations the class `alu` has in an image of version 1.
pub const IMAGE_1_ALU_OPS: u32 = 30;

/// How many harts the memory map has room for.
pub const HART_ROOM: u32 = 16;

/// How many cases the memory map has room for.
pub const CASE_ROOM: u32 = 64;

/// The shortest line, in bytes.
pub const SHORT_LINE: u32 = 32;

/// The line between the shortest and the longest, in bytes.
pub const MIDDLE_LINE: u32 = 64;

/// The longest line, in bytes.
pub const LONG_LINE: u32 = 128;

/// The greatest bias: of so many accesses it tells how many go to the hot line.
pub const MOST_BIAS: u32 = 100;

/// How many windows there may be.
pub const WINDOWS: u32 = 3;

/// The most bytes of a window.
pub const WINDOW_BYTES: u32 = 2048;

/// The least passes of a case.
pub const LEAST_PASSES: u32 = 2;

/// The most passes of a case.
pub const MOST_PASSES: u32 = 8;

/// The most slots of a body.
pub const MOST_SLOTS: u32 = 256;

/// The greatest sum of a mix's weights.
pub const MOST_WEIGHTS: u32 = 1_000_000;

/// The most bytes of a word of a text that is read.
pub const WORD_BYTES: usize = 64;

/// The most bytes of a template's or a case's name.
pub const NAME_BYTES: usize = 16;

/// The most words of a program's text.
pub const TEXT_WORDS: u32 = 2_097_152;

/// The most bytes of a program's tables.
pub const TABLES_BYTES: u32 = 4_194_304;

/// Where a guest's memory begins.
pub const GUEST_ADDRESS: u64 = 0x8000_0000;

/// How many bytes of memory a guest has.
pub const GUEST_BYTES: u64 = 16_777_216;

/// The most bytes of a topology's file.
pub const TOPOLOGY_BYTES: u64 = 65_536;

/// The most bytes of a template's file.
pub const TEMPLATE_BYTES: u64 = 1_048_576;

/// The most bytes of an image's file.
pub const IMAGE_BYTES: u64 = 16_777_216;

/// The most events that a run may ask for.
pub const MOST_EVENTS: u64 = 100_000_000;

/// The most events of a run that doesn't say how many.
pub const DEFAULT_EVENTS: u64 = 4_000_000;

/// The most harts of an image of a version.
pub fn most_harts(version: u32) -> u32
    ensures { result ≡ limits.most_harts version }
{
    match version {
        _ => IMAGE_1_HARTS,
    }
}

/// The most cases of an image of a version.
pub fn most_cases(version: u32) -> u32
    ensures { result ≡ limits.most_cases version }
{
    match version {
        _ => IMAGE_1_CASES,
    }
}

/// How many operations the class `alu` has in an image of a version.
pub fn alu_ops(version: u32) -> u32
    ensures { result ≡ limits.alu_ops version }
{
    match version {
        _ => IMAGE_1_ALU_OPS,
    }
}
