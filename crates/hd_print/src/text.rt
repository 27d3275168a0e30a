// A text that is made in memory.
ghost use Rattle.std.specs.Prelude.{◌≡◌, ◌++◌, [], decimal, IfOk};

use crate::line::Line;
use hd_model::Memory;
use std::alloc::Global;
use std::marker::Model;

/// A text in memory, seen as its bytes. Where memory runs out it is not to be used any more.
#[derive(Drop)]
pub struct Text {
    bytes: Vec<u8>,
}

impl Model for Text {
    ghost use Rattle.std.specs.Prelude.{ℕ, List};

    ghost Value = { List ℕ };

    ghost view = { λ text. text.bytes.items };
}

impl Text {
    /// An empty text.
    pub fn open(alloc: Global) -> Text
        ensures { result ≡ [] }
    {
        Text {
            bytes: Vec::new(alloc),
        }
    }

    /// Appends bytes.
    pub fn push_bytes(&mut self, bytes: &[u8]) -> Result<(), Memory>
        ensures { IfOk result (λ _. self.new ≡ self.old ++ bytes.now) }
    {
        match self.bytes.extend_from_slice(bytes) {
            Ok(_) => Ok(()),
            Err(_) => Err(Memory),
        }
    }

    /// Appends words.
    pub fn push(&mut self, words: &str) -> Result<(), Memory>
        ensures { IfOk result (λ _. self.new ≡ self.old ++ words.now) }
    {
        self.push_bytes(words.as_bytes())
    }

    /// Appends a line.
    pub fn push_line(&mut self, line: &Line) -> Result<(), Memory>
        ensures { IfOk result (λ _. self.new ≡ self.old ++ line.now) }
    {
        self.push_bytes(line.as_bytes())
    }

    /// Appends a number in decimal.
    pub fn push_number(&mut self, number: u32) -> Result<(), Memory>
        ensures { IfOk result (λ _. self.new ≡ self.old ++ decimal number) }
    {
        let mut line = Line::new();
        line.push_number(number);
        self.push_line(&line)
    }

    /// The bytes.
    pub fn as_bytes(&self) -> &[u8]
        ensures { result.now ≡ self.now }
    {
        &self.bytes
    }

    /// Ends with the bytes.
    pub fn into_bytes(self) -> Vec<u8>
        ensures { result.items ≡ self }
    {
        self.bytes
    }
}
