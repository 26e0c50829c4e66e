ghost use Rattle.std.specs.Prelude.{◌≡◌, Some};
ghost use Rattle.tm_topo.specs.Reading as reading;

use std::fmt;
use tm_base::{IMAGE_VERSION, LONG_LINE, MIDDLE_LINE, MOST_BIAS, SHORT_LINE, Text, most_harts};

/// How many of a hundred accesses go to the hot line where a topology doesn't say it.
pub const DEFAULT_BIAS: u32 = 40;

/// The system that a test is built for: cores of as many threads each, no more harts than an image may have, lines of
/// 32, 64 or 128 bytes, and how often, of a hundred times, an access goes to its case's hot line.
#[derive(Clone, Copy, Debug, PartialEq, Eq)]
pub struct Topology {
    pub cores: u32,
    pub threads: u32,
    pub line: u32,
    pub bias: u32,
}

/// A key of the document. It prints as it stands there.
#[derive(Clone, Copy, Debug, PartialEq, Eq)]
pub enum TopoKey {
    Cores,
    Threads,
    Line,
    Bias,
}

/// Why a text is no topology.
#[derive(Drop)]
pub enum TopoFault {
    NotToml,
    UnknownKey { key: Text },
    Missing { key: TopoKey },
    WrongKind { key: TopoKey },
    OutOfRange { key: TopoKey, value: i64 },
    TooManyHarts { product: u32 },
    NoMemory,
}

impl TopoKey {
    /// The key as it stands in the document.
    pub fn as_str(self) -> &'static str
        ensures { result.now ≡ reading.key_text self }
    {
        match self {
            TopoKey::Cores => "cores",
            TopoKey::Threads => "threads",
            TopoKey::Line => "line",
            TopoKey::Bias => "bias",
        }
    }

    /// Whether the key may have this number.
    pub fn allows(self, number: u64) -> bool
        ensures { result ≡ reading.allows self number }
    {
        match self {
            TopoKey::Cores | TopoKey::Threads => {
                1 <= number && number <= u64::from(most_harts(IMAGE_VERSION))
            }
            TopoKey::Line => {
                number == u64::from(SHORT_LINE)
                    || number == u64::from(MIDDLE_LINE)
                    || number == u64::from(LONG_LINE)
            }
            TopoKey::Bias => number <= u64::from(MOST_BIAS),
        }
    }
}

impl fmt::Display for TopoKey {
    ghost output = { λ key. Some (reading.key_text key) };

    fn fmt<W: fmt::Write>(&self, f: &mut fmt::Formatter<W>) -> fmt::Result {
        f.write_str(self.as_str())
    }
}
