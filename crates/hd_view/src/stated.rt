// What a line states of its entry, read loosely.
ghost use Rattle.std.specs.Prelude.{◌≡◌, ◌↔◌, IsTrue, bytes_eq, option_map};
ghost use Rattle.hd_view.specs.{Stated.after_number, Stated.begins, Stated.stated_in, Stated.EndsWord, Stated.HasReply, Inside.parts_in};

use hd_audit::{Choice, leading};
use hd_model::{Grown, Reply, Slot};
use hd_print::reply_line;

/// What a line states: a caller, a number, and behind them a reply, a slot and blocks.
#[derive(Clone, Copy)]
pub(crate) struct Stated<'a> {
    pub(crate) caller: u32,
    pub(crate) number: u32,
    pub(crate) tail: &'a [u8],
    pub(crate) slot: Option<Slot>,
    pub(crate) grown: Grown,
    /// The last number of an `addr`.
    pub(crate) address: u32,
}

/// What a line states, where it begins with two numbers that have a blank behind them.
pub(crate) fn parts_of(line: &[u8]) -> Option<Stated<'_>>
    ensures { option_map parts_in result ≡ stated_in line.now }
{
    let rest = after_number(line)?;
    let tail = after_number(rest)?;
    let choice = Choice::by(line);
    Some(Stated {
        caller: choice.caller,
        number: leading(rest),
        tail,
        slot: choice.slot,
        grown: choice.grown,
        address: choice.address,
    })
}

// The bytes after digits and a blank.
fn after_number(bytes: &[u8]) -> Option<&[u8]>
    ensures { option_map (λ rest. rest.now) result ≡ after_number bytes.now }
{
    let mut rest = bytes;
    let mut is_number = false;
    'bytes: while let Some((first, more)) = rest.split_first() {
        rest = more;
        if !first.is_ascii_digit() {
            return if is_number && *first == b' ' {
                Some(rest)
            } else {
                None
            };
        }
        is_number = true;
    }
    None
}

/// Whether bytes begin with a text.
pub(crate) fn begins(bytes: &[u8], text: &[u8]) -> bool
    ensures { result ≡ begins bytes.now text.now }
{
    bytes.len() >= text.len() && &bytes[..text.len()] == text
}

/// Whether bytes begin with a reply, and a blank or the end of a line behind it.
pub(crate) fn has_reply(tail: &[u8], reply: Reply) -> bool
    ensures { IsTrue result ↔ HasReply tail.now reply }
{
    let line = reply_line(reply);
    let text = line.as_bytes();
    begins(tail, text) && ends_word(&tail[text.len()..])
}

// Whether a word ends before bytes: a blank or the end of a line comes first.
fn ends_word(bytes: &[u8]) -> bool
    ensures { IsTrue result ↔ EndsWord bytes.now }
{
    match bytes.first() {
        Some(first) => *first == b' ' || *first == b'\n',
        None => false,
    }
}
