// Laws over the definitions, each as the contract of a function that does nothing.
ghost use Rattle.std.specs.Prelude.{◌≤◌, ◌<◌};
ghost use Rattle.tm_blocks_base.specs.Laws.{ConstantRuns, LoadAllButLastRuns, LastLoadRuns};
ghost use Rattle.tm_blocks_base.specs.Laws.{LoadRegistersRuns, SaveRegistersRuns, LastStoreRuns};
ghost use Rattle.tm_blocks_base.specs.Verdict.{NamesLeast};

/// What the words do by which a register from x1 on becomes a value.
pub fn constant(rd: u8, value: u64)
    requires { (1 ≤ rd) × (rd < 32) }
    ensures { ConstantRuns rd value }
{
    let _ = rd;
    let _ = value;
}

/// What the words do that load x1 to x31 from a table, and those that save x1 to x30.
pub fn registers(table: u64)
    ensures load { LoadRegistersRuns table }
    ensures all_but_last { LoadAllButLastRuns table }
    ensures last { LastLoadRuns table }
    ensures save { SaveRegistersRuns }
{
    let _ = table;
}

/// What the word does that stores a verdict.
pub fn store(cell: u64)
    ensures { LastStoreRuns cell }
{
    let _ = cell;
}

/// The number over two saved states is the verdict on them.
pub fn verdict(pass: u32, dwords: u32)
    ensures { NamesLeast pass dwords }
{
    let _ = pass;
    let _ = dwords;
}
