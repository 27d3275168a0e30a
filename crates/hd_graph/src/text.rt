// A text that is made in memory, piece by piece.
ghost use Rattle.std.specs.Prelude.{◌≡◌, ◌++◌, decimal, IfOk};
ghost use Rattle.hd_model.specs.Text.{identity_text};

use hd_model::{Id, Memory};
use hd_print::Line;

// Appends bytes.
fn push_bytes(text: &mut Vec<u8>, bytes: &[u8]) -> Result<(), Memory>
    ensures { IfOk result (λ _. text.new.items ≡ text.old.items ++ bytes.now) }
{
    match text.extend_from_slice(bytes) {
        Ok(_) => Ok(()),
        Err(_) => Err(Memory),
    }
}

/// Appends words.
pub(crate) fn push(text: &mut Vec<u8>, words: &str) -> Result<(), Memory>
    ensures { IfOk result (λ _. text.new.items ≡ text.old.items ++ words.now) }
{
    push_bytes(text, words.as_bytes())
}

/// Appends a number.
pub(crate) fn push_number(text: &mut Vec<u8>, number: u64) -> Result<(), Memory>
    ensures { IfOk result (λ _. text.new.items ≡ text.old.items ++ decimal number) }
{
    let mut line = Line::new();
    line.push_number(number);
    push_bytes(text, line.as_bytes())
}

/// Appends a number of 32 bits.
pub(crate) fn push_small(text: &mut Vec<u8>, number: u32) -> Result<(), Memory>
    ensures { IfOk result (λ _. text.new.items ≡ text.old.items ++ decimal number) }
{
    push_number(text, u64::from(number))
}

/// Appends a generation.
pub(crate) fn push_tiny(text: &mut Vec<u8>, number: u8) -> Result<(), Memory>
    ensures { IfOk result (λ _. text.new.items ≡ text.old.items ++ decimal number) }
{
    push_number(text, u64::from(number))
}

/// Appends an identity as its caller and its serial.
pub(crate) fn push_identity(text: &mut Vec<u8>, id: Id) -> Result<(), Memory>
    ensures { IfOk result (λ _. text.new.items ≡ text.old.items ++ identity_text id) }
{
    let caller = id.0 >> 32;
    let serial = id.0 & 0xffff_ffff;
    push_number(text, caller)?;
    push(text, ".")?;
    push_number(text, serial)
}
