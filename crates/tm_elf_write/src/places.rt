// Where each part stands, in the file and in memory.
ghost use Rattle.std.specs.Prelude.{◌≡◌, ◌+◌, ◌%◌, ◌^◌, ◌≤◌, ◌<◌};
ghost use Rattle.tm_elf_write.specs.Fields.{next_multiple as multiple};
ghost use Rattle.tm_elf_write.specs.Places.{places};

use tm_plan_map::FLAGS_ADDRESS;

/// The step of the parts that a loader maps.
pub const PAGE: u64 = 4096;

/// Where the text stands in the file, behind the file header and three program headers.
pub const TEXT_AT: u64 = 4096;

/// The length of the section names.
pub const NAMES_LEN: u64 = 55;

/// Where the memory stands that no bytes of the file fill, from the harts' flags on.
pub const WORK_ADDRESS: u64 = FLAGS_ADDRESS;

/// The length of that memory.
pub const WORK_LEN: u64 = 0x30_0000;

/// Where each part behind the text stands, in bytes from the file's begin.
#[derive(Clone, Copy, Debug, PartialEq, Eq)]
pub struct Places {
    pub tables: u64,
    pub plan: u64,
    pub symbols: u64,
    pub strings: u64,
    pub names: u64,
    pub sections: u64,
}

fn next_multiple(step: u64, n: u64) -> u64
    requires some { 0 < step }
    requires small { n + step < 2 ^ 63 }
    ensures value { result ≡ multiple step n }
    ensures at_least { n ≤ result }
    ensures close { result < n + step }
    ensures exact { result % step ≡ 0 }
{
    (n + (step - 1)) / step * step
}

/// The places of parts of these lengths, in bytes.
#[tactic(auto, unfolding(crate::specs::Places::places))]
pub fn places_of(text: u64, tables: u64, plan: u64, symbols: u64, strings: u64) -> Places
    requires text { text < 2 ^ 40 }
    requires tables { tables < 2 ^ 40 }
    requires plan { plan < 2 ^ 40 }
    requires symbols { symbols < 2 ^ 40 }
    requires strings { strings < 2 ^ 40 }
    ensures value { result ≡ places text tables plan symbols strings }
    ensures tables_at { 4096 + text ≤ result.tables }
    ensures plan_at { result.tables + tables ≤ result.plan }
    ensures symbols_at { result.plan + plan ≤ result.symbols }
    ensures sections_at { result.names + 55 ≤ result.sections }
    ensures bound { result.sections < 2 ^ 50 }
{
    let tables_at = next_multiple(PAGE, TEXT_AT + text);
    let plan_at = next_multiple(8, tables_at + tables);
    let symbols_at = next_multiple(8, plan_at + plan);
    let strings_at = symbols_at + symbols;
    let names_at = strings_at + strings;
    Places {
        tables: tables_at,
        plan: plan_at,
        symbols: symbols_at,
        strings: strings_at,
        names: names_at,
        sections: next_multiple(8, names_at + NAMES_LEN),
    }
}
