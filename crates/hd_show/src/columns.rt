// Words of tables: each begins at its column, and what is not there is a hyphen.
ghost use Rattle.std.specs.Prelude.{◌≡◌, ◌++◌, ◌+◌, ◌≤◌, codes, decimal, length, max, IfOk};
ghost use Rattle.hd_model.specs.Text.{identity_text, newline};
ghost use Rattle.hd_show.specs.{Columns.padded, Columns.object_word, Inside.slot_word};

use hd_model::{Id, Memory, Slot};
use hd_print::{Line, Text};

// The bytes of the longest identity: two numbers of ten digits and a dot.
const LONGEST_IDENTITY: usize = 21;

// The bytes of the longest number.
const LONGEST_NUMBER: usize = 20;

/// Appends blanks up to a column.
pub(crate) fn pad(line: &mut Line, column: usize)
    requires { column ≤ Line.CAPACITY }
    ensures blanks { line.new ≡ padded column line.old }
    ensures short { length line.new ≤ max column (length line.old) }
{
    for _ in line.len()..column {
        line.push_str(" ");
    }
}

/// Appends a number at a column.
pub(crate) fn push_cell(line: &mut Line, column: usize, number: u64)
    requires column { column + LONGEST_NUMBER ≤ Line.CAPACITY }
    requires room { length line.old + LONGEST_NUMBER ≤ Line.CAPACITY }
    ensures cell { line.new ≡ padded column line.old ++ decimal number }
    ensures short { length line.new ≤ max column (length line.old) + LONGEST_NUMBER }
{
    pad(line, column);
    line.push_number(number);
}

/// Appends a hyphen at a column.
pub(crate) fn push_hyphen(line: &mut Line, column: usize)
    requires column { column + 1 ≤ Line.CAPACITY }
    requires room { length line.old + 1 ≤ Line.CAPACITY }
    ensures cell { line.new ≡ padded column line.old ++ codes "-" }
    ensures short { length line.new ≤ max column (length line.old) + 1 }
{
    pad(line, column);
    line.push_str("-");
}

/// Appends an identity as its caller and its serial.
pub(crate) fn push_identity(line: &mut Line, id: Id)
    requires { length line.old + LONGEST_IDENTITY ≤ Line.CAPACITY }
    ensures text { line.new ≡ line.old ++ identity_text id }
    ensures short { length line.new ≤ length line.old + LONGEST_IDENTITY }
{
    let caller = (id.0 >> 32) as u32;
    let serial = (id.0 & 0xffff_ffff) as u32;
    line.push_number(caller);
    line.push_str(".");
    line.push_number(serial);
}

/// Appends an identity, or a hyphen.
pub(crate) fn push_object(line: &mut Line, id: Option<Id>)
    requires { length line.old + LONGEST_IDENTITY ≤ Line.CAPACITY }
    ensures word { line.new ≡ line.old ++ object_word id }
    ensures short { length line.new ≤ length line.old + LONGEST_IDENTITY }
{
    match id {
        Some(id) => push_identity(line, id),
        None => line.push_str("-"),
    }
}

/// Appends a slot, or a hyphen.
pub(crate) fn push_slot(line: &mut Line, slot: Option<Slot>)
    requires { length line.old + 10 ≤ Line.CAPACITY }
    ensures word { line.new ≡ line.old ++ slot_word slot }
    ensures short { length line.new ≤ length line.old + 10 }
{
    match slot {
        Some(slot) => line.push_number(slot.0),
        None => line.push_str("-"),
    }
}

/// Appends a line with its end.
pub(crate) fn push_end(text: &mut Text, mut line: Line) -> Result<(), Memory>
    requires { length line + 1 ≤ Line.CAPACITY }
    ensures { IfOk result (λ _. text.new ≡ text.old ++ line ++ newline) }
{
    line.push_str("\n");
    text.push_line(&line)
}
