// The faults of a topology, as they are told.
ghost use Rattle.std.specs.Prelude.{◌≡◌, ◌++◌, OnOk};
ghost use Rattle.tm_top_line.specs.Inputs.{number_text, topo_text};

use crate::values::{put_key, put_signed, put_value};
use tm_base::{Bytes, NoMemory};
use tm_topo::{TopoFault, TopoKey};

// A key and its number.
fn put_number(out: &mut Bytes, key: TopoKey, value: i64) -> Result<(), NoMemory>
    ensures { OnOk result (out.new ≡ out.old ++ number_text key value) }
{
    out.append(key.as_str().as_bytes())?;
    out.push(b' ')?;
    put_signed(out, &i128::from(value))
}

/// The fault of a topology.
pub fn put_topology(out: &mut Bytes, fault: &TopoFault) -> Result<(), NoMemory>
    ensures { OnOk result (out.new ≡ out.old ++ topo_text fault.now) }
{
    match fault {
        TopoFault::NotToml => out.append(b"NotToml"),
        TopoFault::UnknownKey { key } => {
            out.append(b"UnknownKey ")?;
            put_key(out, key.as_slice())
        }
        TopoFault::Missing { key } => {
            out.append(b"Missing ")?;
            out.append(key.as_str().as_bytes())
        }
        TopoFault::WrongKind { key } => {
            out.append(b"WrongKind ")?;
            out.append(key.as_str().as_bytes())
        }
        TopoFault::OutOfRange { key, value } => {
            out.append(b"OutOfRange ")?;
            put_number(out, *key, *value)
        }
        TopoFault::TooManyHarts { product } => put_value(out, b"TooManyHarts", u64::from(*product)),
        TopoFault::NoMemory => Ok(()),
    }
}
