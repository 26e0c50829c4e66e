// Texts by name, and the form in which a file of cases writes bytes.
ghost use Rattle.std.specs.Prelude.{◌≡◌, ◌+◌, ◌≤◌, List, [], length};
ghost use Rattle.tm_cases_book.specs.Texts.{text_of};
ghost use Rattle.tm_cases_book.specs.declared.book.Entry.{Entry as Held};

use std::alloc::Global;
use std::marker::Model;
use tm_base::{Bytes, Name, NoMemory};

/// A text and its name.
#[derive(Drop)]
pub struct Entry {
    pub name: Name,
    pub text: Bytes,
}

/// Texts by name.
#[derive(Drop)]
pub struct Book {
    alloc: Global,
    entries: Vec<Entry>,
}

impl Model for Book {
    ghost Value = { List Held };

    ghost view = { λ b. b.entries.items };
}

/// Where the reading of a text stands: in plain bytes, behind a backslash, before the first or the second digit of a
/// byte, or in a name whose bracket stands at a place.
#[derive(Clone, Copy)]
enum Part {
    Plain,
    Escape,
    First,
    Second(u8),
    Name(usize),
}

impl Book {
    pub fn new(alloc: Global) -> Self
        ensures { result ≡ [] }
    {
        Book {
            alloc,
            entries: Vec::new(alloc),
        }
    }

    /// Puts a text under a name, in place of the one that had it.
    pub fn put(&mut self, name: &str, text: Bytes) -> Result<(), NoMemory>
        ensures { length self.new ≤ length self.old + 1 }
    {
        let at = self.place(name);
        if at < self.entries.len() {
            self.entries[at].text = text;
            return Ok(());
        }
        let name = Name::of(self.alloc, name)?;
        self.entries
            .push(Entry { name, text })
            .map_err(|_| NoMemory)
    }

    // The place of a name, behind all places where there is none.
    fn place(&self, name: &str) -> usize {
        for (at, entry) in self.entries.as_slice().iter().enumerate() {
            if entry.name.as_str() == name {
                return at;
            }
        }
        usize::MAX
    }

    pub fn entries(&self) -> &[Entry]
        ensures { result.now ≡ self.now }
    {
        self.entries.as_slice()
    }

    /// The text of a name, empty where there is none.
    pub fn find(&self, name: &str) -> &[u8]
        ensures { result.now ≡ text_of self.now name.now }
    {
        find_in(self.entries.as_slice(), name)
    }

    /// Whether a text has the name.
    pub fn has(&self, name: &str) -> bool {
        self.place(name) < self.entries.len()
    }

    /// Whether a text is written as a file of cases writes bytes, with names that texts have.
    pub fn is_text(&self, text: &str) -> bool {
        let mut part = Part::Plain;
        for (at, byte) in text.as_bytes().iter().enumerate() {
            let Some(next) = self.followed(text, part, at, *byte) else {
                return false;
            };
            part = next;
        }
        matches!(part, Part::Plain)
    }

    // What follows behind a byte, if it may stand there.
    fn followed(&self, text: &str, part: Part, at: usize, byte: u8) -> Option<Part> {
        match part {
            Part::Plain => match byte {
                b'\\' => Some(Part::Escape),
                b'{' => Some(Part::Name(at)),
                _ => Some(Part::Plain),
            },
            Part::Escape => match byte {
                b'x' => Some(Part::First),
                b'n' | b't' | b'r' | b'e' | b'\\' => Some(Part::Plain),
                _ => None,
            },
            Part::First if is_digit(byte) => Some(Part::Second(0)),
            Part::Second(_) if is_digit(byte) => Some(Part::Plain),
            Part::First | Part::Second(_) => None,
            Part::Name(from) => {
                if byte != b'}' {
                    return Some(part);
                }
                if self.has(text.get(from.saturating_add(1)..at).unwrap_or("")) {
                    return Some(Part::Plain);
                }
                None
            }
        }
    }

    /// The bytes that a text writes.
    pub fn read(&self, text: &str) -> Result<Bytes, NoMemory> {
        let mut out = Bytes::new(self.alloc);
        let mut part = Part::Plain;
        for (at, byte) in text.as_bytes().iter().enumerate() {
            part = self.step(&mut out, text, part, at, *byte)?;
        }
        Ok(out)
    }

    fn step(
        &self,
        out: &mut Bytes,
        text: &str,
        part: Part,
        at: usize,
        byte: u8,
    ) -> Result<Part, NoMemory> {
        match part {
            Part::Plain => plain(out, at, byte),
            Part::Escape => escaped(out, byte),
            Part::First => Ok(Part::Second(digit(byte) << 4)),
            Part::Second(high) => {
                out.push(high | digit(byte))?;
                Ok(Part::Plain)
            }
            Part::Name(from) => {
                if byte != b'}' {
                    return Ok(part);
                }
                let name = text.get(from.saturating_add(1)..at).unwrap_or("");
                out.append(self.find(name))?;
                Ok(Part::Plain)
            }
        }
    }
}

fn find_in<'a>(entries: &'a [Entry], name: &str) -> &'a [u8]
    ensures { result.now ≡ text_of entries.now name.now }
{
    let [first, rest @ ..] = entries else {
        return b"";
    };
    if first.name.as_str() == name {
        first.text.as_slice()
    } else {
        find_in(rest, name)
    }
}

fn plain(out: &mut Bytes, at: usize, byte: u8) -> Result<Part, NoMemory> {
    match byte {
        b'\\' => Ok(Part::Escape),
        b'{' => Ok(Part::Name(at)),
        _ => {
            out.push(byte)?;
            Ok(Part::Plain)
        }
    }
}

fn escaped(out: &mut Bytes, byte: u8) -> Result<Part, NoMemory> {
    match byte {
        b'x' => return Ok(Part::First),
        b'n' => out.push(b'\n')?,
        b't' => out.push(b'\t')?,
        b'r' => out.push(b'\r')?,
        b'e' => (),
        _ => out.push(byte)?,
    }
    Ok(Part::Plain)
}

fn is_digit(byte: u8) -> bool {
    matches!(byte, b'0'..=b'9' | b'a'..=b'f')
}

fn digit(byte: u8) -> u8 {
    match byte {
        b'0'..=b'9' => byte - b'0',
        b'a'..=b'f' => byte - b'a' + 10,
        _ => 0,
    }
}
