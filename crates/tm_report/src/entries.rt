// Lines of entries.
ghost use Rattle.std.specs.Prelude.{◌≡◌, ◌++◌, OnOk, codes};
ghost use Rattle.tm_report.specs.Listing.{or_none};

use tm_base::{Bytes, NoMemory};

/// Puts entries, each of which begins with a blank, or ` none` where there are none, and ends the line.
pub fn put_entries(out: &mut Bytes, entries: &[u8]) -> Result<(), NoMemory>
    ensures { OnOk result (out.new ≡ out.old ++ or_none entries.now ++ codes "\n") }
{
    match entries {
        [] => out.append(b" none")?,
        [..] => out.append(entries)?,
    }
    out.push(b'\n')
}
