// A line of text that takes no memory.
ghost use Rattle.std.specs.Prelude.{◌≡◌, ◌==◌, ◌+◌, ◌<◌, ◌≤◌, [], ◌∷◌, ◌++◌, decimal, length};

use itoa::{Buffer, Integer};
use std::marker::Model;

/// A line of text, seen as its bytes. It takes no memory and has room for 160 bytes.
#[derive(Debug, Drop)]
pub struct Line {
    bytes: [u8; Line::CAPACITY],
    len: usize,
}

impl Model for Line {
    ghost use Rattle.std.specs.Prelude.{ℕ, ◌≤◌, List, take};

    ghost Value = { List ℕ };

    ghost view = { λ line. take line.len line.bytes };

    ghost invariant = { λ line. line.len ≤ 160 };
}

impl Line {
    /// The capacity in bytes: more than the longest line needs.
    pub const CAPACITY: usize = 160;

    /// An empty line.
    pub fn new() -> Line
        ensures { result ≡ [] }
    {
        Line {
            bytes: [0; Line::CAPACITY],
            len: 0,
        }
    }

    /// Makes it empty again.
    pub fn clear(&mut self)
        ensures { self.new ≡ [] }
    {
        self.len = 0;
    }

    /// The number of bytes.
    pub fn len(&self) -> usize
        ensures value { result ≡ length self.now }
        ensures fits { result ≤ Line.CAPACITY }
    {
        self.len
    }

    /// Whether it is empty.
    pub fn is_empty(&self) -> bool
        ensures { result ≡ (length self.now == 0) }
    {
        self.len == 0
    }

    /// The bytes.
    pub fn as_bytes(&self) -> &[u8]
        ensures { result.now ≡ self.now }
    {
        &self.bytes[..self.len]
    }

    /// Appends a text, for which there is room.
    pub fn push_str(&mut self, text: &str)
        requires { length self.old + length text.now ≤ Line.CAPACITY }
        ensures { self.new ≡ self.old ++ text.now }
    {
        let end = self.len + text.len();
        self.bytes[self.len..end].copy_from_slice(text.as_bytes());
        self.len = end;
    }

    // Appends one digit, for which there is room.
    fn push_digit(&mut self, digit: u8)
        requires digit { digit < 10 }
        requires room { length self.old + 1 ≤ Line.CAPACITY }
        ensures { self.new ≡ self.old ++ (48 + digit) ∷ [] }
    {
        let end = self.len + 1;
        self.bytes[self.len..end].copy_from_slice(&[b'0' + digit]);
        self.len = end;
    }

    /// Appends a number in decimal, for which there is room.
    pub fn push_number<I: Integer>(&mut self, number: I)
        requires { length self.old + I.MAX_STR_LEN ≤ Line.CAPACITY }
        ensures text { self.new ≡ self.old ++ I.text number }
        ensures short { length self.new ≤ length self.old + I.MAX_STR_LEN }
    {
        let mut buffer = Buffer::new();
        self.push_str(buffer.format(number));
    }

    /// Appends a number in decimal, for which there is room, and which is mostly one digit.
    #[tactic(auto, using(std::proofs::lemmas::Fmt::decimal_digit))]
    pub(crate) fn push_count(&mut self, count: u32)
        requires { length self.old + 10 ≤ Line.CAPACITY }
        ensures text { self.new ≡ self.old ++ decimal count }
        ensures short { length self.new ≤ length self.old + 10 }
    {
        if count < 10 {
            self.push_digit(count as u8);
        } else {
            self.push_number(count);
        }
    }
}
