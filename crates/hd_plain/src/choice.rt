// What a line states of its entry beside the reply. It is read loosely: the line is compared with
// that of the entry afterwards.
ghost use Rattle.std.specs.Prelude.{◌≡◌, option_map};
ghost use Rattle.hd_plain.specs.Choice.{after_mark, leading, slot_in, grown_in, after_blank, address_in, choice_in};

use hd_model::{Grown, Slot};

/// The choice that a line states: its caller, slot and blocks, and the last number of an `addr`.
#[derive(Clone, Copy)]
pub struct Choice {
    pub caller: u32,
    pub slot: Option<Slot>,
    pub grown: Grown,
    pub address: u32,
}

impl Choice {
    /// The choice that a line states.
    pub fn by(line: &[u8]) -> Choice
        ensures { result ≡ choice_in line.now }
    {
        Choice {
            caller: leading(line),
            slot: slot_in(line),
            grown: grown_in(line),
            address: address_in(line),
        }
    }
}

// The slot, after its mark.
fn slot_in(line: &[u8]) -> Option<Slot>
    ensures { result ≡ slot_in line.now }
{
    match after_mark(line, b'@') {
        Some(rest) => Some(Slot(leading(rest))),
        None => None,
    }
}

// The blocks, after their mark.
fn grown_in(line: &[u8]) -> Grown
    ensures { result ≡ grown_in line.now }
{
    if let Some(rest) = after_mark(line, b'+') {
        return match after_mark(rest, b',') {
            Some(more) => Grown::Two(leading(rest), leading(more)),
            None => Grown::One(leading(rest)),
        };
    }
    match after_mark(line, b'-') {
        Some(rest) => Grown::Back(leading(rest)),
        None => Grown::Zero,
    }
}

// The number of the fourth word.
fn address_in(line: &[u8]) -> u32
    ensures { result ≡ address_in line.now }
{
    leading(after_blank(after_blank(after_blank(line))))
}

// The bytes after the first blank, or none.
fn after_blank(bytes: &[u8]) -> &[u8]
    ensures { result.now ≡ after_blank bytes.now }
{
    match after_mark(bytes, b' ') {
        Some(rest) => rest,
        None => &[],
    }
}

// The bytes after the first mark.
fn after_mark(bytes: &[u8], mark: u8) -> Option<&[u8]>
    ensures { option_map (λ rest. rest.now) result ≡ after_mark mark bytes.now }
{
    let mut rest = bytes;
    'bytes: while let Some((first, more)) = rest.split_first() {
        rest = more;
        if *first == mark {
            return Some(rest);
        }
    }
    None
}

/// The number with which the bytes begin, 0 where they begin with none, and modulo 2^32.
pub fn leading(bytes: &[u8]) -> u32
    ensures { result ≡ leading bytes.now }
{
    let mut value: u32 = 0;
    for b in bytes {
        if !b.is_ascii_digit() {
            return value;
        }
        value = value.wrapping_mul(10).wrapping_add(u32::from(*b - b'0'));
    }
    value
}
