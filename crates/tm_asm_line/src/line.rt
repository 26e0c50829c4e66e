// Room for one printed line.
ghost use Rattle.std.specs.Prelude.{◌≡◌, ℕ, ◌+◌, ◌<◌, ◌≤◌, List, [], ◌∷◌, ◌++◌, length, take};
ghost use Rattle.std.specs.Fmt.{decimal, signed_decimal};

use std::marker::Model;

/// At most 64 bytes. A contract sees them as a list.
#[derive(Drop)]
pub struct Line {
    bytes: [u8; 64],
    len: usize,
}

impl Model for Line {
    ghost Value = { List ℕ };

    ghost view = { λ l. take l.len l.bytes };

    ghost invariant = { λ l. l.len ≤ 64 };
}

impl Line {
    pub fn new() -> Self
        ensures { result ≡ [] }
    {
        Line {
            bytes: [0; 64],
            len: 0,
        }
    }

    /// Appends one byte.
    pub fn push(&mut self, byte: u8)
        requires { length self.old < 64 }
        ensures { self.new ≡ self.old ++ byte ∷ [] }
    {
        self.bytes[self.len] = byte;
        self.len += 1;
    }

    /// Appends a text.
    pub fn append(&mut self, text: &[u8])
        requires { length self.old + length text.now ≤ 64 }
        ensures { self.new ≡ self.old ++ text.now }
    {
        for byte in text {
            self.push(*byte);
        }
    }

    /// Appends a number's decimal digits without leading zeros.
    #[tactic(auto, using(std::proofs::lemmas::Fmt::decimal_step, std::proofs::lemmas::Fmt::decimal_digit, std::proofs::lemmas::Grind::common_steps))]
    pub fn append_decimal(&mut self, value: u64)
        requires { length self.old + length (decimal value) ≤ 64 }
        ensures { self.new ≡ self.old ++ decimal value }
    {
        if value >= 10 {
            self.append_decimal(value / 10);
        }
        self.push(b'0' + (value % 10) as u8);
    }

    /// Appends a number in decimal, with `-` where it is negative.
    pub fn append_signed(&mut self, value: i64)
        requires { length self.old + length (signed_decimal value) ≤ 64 }
        ensures { self.new ≡ self.old ++ signed_decimal value }
    {
        if value < 0 {
            self.push(b'-');
        }
        self.append_decimal(value.unsigned_abs());
    }

    pub fn as_slice(&self) -> &[u8]
        ensures { result.now ≡ self.now }
    {
        &self.bytes[..self.len]
    }
}
