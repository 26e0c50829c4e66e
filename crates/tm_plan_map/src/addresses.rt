// Where things stand in the guest's memory. All addresses are those of bytes.
ghost use Rattle.std.specs.Prelude.{◌≡◌, ◌≤◌, ◌<◌};
ghost use Rattle.tm_plan_map.specs.Map.{window_at, flag_at, verdict_at, private_at, save_at, table_at};

use tm_base::{CASE_ROOM, HART_ROOM, MOST_PASSES, WINDOW_BYTES, WINDOWS};

/// Where the text begins.
pub const TEXT_ADDRESS: u64 = 0x8000_0000;

/// Where the tables begin.
pub const TABLES_ADDRESS: u64 = 0x8080_0000;

/// Where the harts' flags begin.
pub const FLAGS_ADDRESS: u64 = 0x80C0_0000;

/// The bytes from one hart's flag to the next one's.
pub const FLAG_STEP: u64 = 128;

/// Where the verdict cells begin.
pub const VERDICTS_ADDRESS: u64 = 0x80C0_1000;

/// Where the harts' private areas begin.
pub const PRIVATE_ADDRESS: u64 = 0x80C1_0000;

/// The bytes of a private area.
pub const PRIVATE_BYTES: u64 = 0x2_0000;

/// Where in a private area a hart counts its exits from streams.
pub const EXITS_OFFSET: u64 = 0x100;

/// Where in a private area a hart counts the passes of a case.
pub const PASSES_OFFSET: u64 = 0x108;

/// Where in a private area the end states of passes are saved.
pub const SAVES_OFFSET: u64 = 0x1000;

/// The bytes from the end state of one pass to that of the next.
pub const SAVE_STEP: u64 = 0x2000;

/// Where the windows begin.
pub const WINDOWS_ADDRESS: u64 = 0x80E8_0000;

/// The bytes of all three windows.
pub const WINDOWS_BYTES: u64 = 6144;

/// The dwords of all three windows.
pub const WINDOWS_DWORDS: u64 = 768;

/// The bytes of a hart's part of a table.
pub const HART_TABLE_BYTES: u64 = 256;

/// The bytes of a table beside the harts' parts: the first bytes of the windows, and their masks.
pub const WINDOWS_TABLE_BYTES: u64 = 12288;

/// The first byte of window `w`, below 3.
#[tactic(auto, unfolding(crate::specs::Map::window_at, crate::specs::Map::windows_base))]
pub fn window_base(w: u32) -> u64
    requires { w < WINDOWS }
    ensures { result ≡ window_at w }
{
    WINDOWS_ADDRESS + u64::from(WINDOW_BYTES) * u64::from(w)
}

/// The 8 bytes of hart `h`'s flag, `h` below 16.
#[tactic(auto, unfolding(crate::specs::Map::flag_at))]
pub fn flag_addr(h: u32) -> u64
    requires { h < HART_ROOM }
    ensures { result ≡ flag_at h }
{
    FLAGS_ADDRESS + FLAG_STEP * u64::from(h)
}

/// The 8 bytes of the verdict cell of case `c`, below 64, and hart `h`, below 16.
#[tactic(auto, unfolding(crate::specs::Map::verdict_at))]
pub fn verdict_addr(c: u32, h: u32) -> u64
    requires case { c < CASE_ROOM }
    requires hart { h < HART_ROOM }
    ensures { result ≡ verdict_at c h }
{
    VERDICTS_ADDRESS + 8 * (u64::from(HART_ROOM) * u64::from(c) + u64::from(h))
}

/// The first of the 131,072 bytes of hart `h`'s private area, `h` below 16.
#[tactic(auto, unfolding(crate::specs::Map::private_at))]
pub fn private_base(h: u32) -> u64
    requires { h < HART_ROOM }
    ensures { result ≡ private_at h }
{
    PRIVATE_ADDRESS + PRIVATE_BYTES * u64::from(h)
}

/// Where hart `h`, below 16, saves the end state of pass `k`, below 8.
#[tactic(auto, unfolding(crate::specs::Map::save_at, crate::specs::Map::private_at))]
pub fn save_addr(h: u32, k: u32) -> u64
    requires hart { h < HART_ROOM }
    requires pass { k < MOST_PASSES }
    ensures { result ≡ save_at h k }
{
    private_base(h) + SAVES_OFFSET + SAVE_STEP * u64::from(k)
}

/// The table of case `c`, below 64, of a test with 1 to 16 harts.
#[tactic(auto, unfolding(crate::specs::Map::table_at, crate::specs::Map::tables_base))]
pub fn table_addr(harts: u32, c: u32) -> u64
    requires some { 1 ≤ harts }
    requires few { harts ≤ HART_ROOM }
    requires case { c < CASE_ROOM }
    ensures { result ≡ table_at harts c }
{
    TABLES_ADDRESS + u64::from(c) * (HART_TABLE_BYTES * u64::from(harts) + WINDOWS_TABLE_BYTES)
}
