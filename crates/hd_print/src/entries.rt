// The lines of a journal.
ghost use Rattle.std.specs.Prelude.{◌≡◌, ◌+◌, ◌^◌, ◌<◌, ◌≤◌, ◌++◌, length, slice_index, slice_set, All, OnOk, OnErr};
ghost use Rattle.std.specs.List.{concat};
ghost use Rattle.hd_io.specs.Sink.{Took, WriteBrokeOff};
ghost use Rattle.hd_model.specs.Text.{entry_text, lines_of};
ghost use Rattle.hd_model.specs.FullText.{slot_text, growth_text, full_line, full_lines};
ghost use Rattle.hd_print.specs.EntryLines.{form_of, line_by, lines_by};

use crate::line::Line;
use crate::reply::push_reply;
use hd_io::{Failed, Sink, write_all};
use hd_model::limits::CALLERS;
use hd_model::{Entry, Grown, Journal, Reply, Slot};

// A count for each caller.
const COUNTS: usize = CALLERS as usize;

// The bytes of the longest slot: a blank, its mark and a number of ten digits.
const LONGEST_SLOT: usize = 12;

// The bytes of the longest growth: a blank, its mark and two numbers of ten digits with a comma.
const LONGEST_GROWTH: usize = 23;

/// How entries are written.
#[derive(Clone, Copy, Debug, PartialEq, Eq)]
pub enum Form {
    /// With their replies.
    Plain,
    /// With their slots and blocks too.
    Full,
}

impl Form {
    /// Full or plain.
    pub fn of(full: bool) -> Form
        ensures { result ≡ form_of full }
    {
        if full { Form::Full } else { Form::Plain }
    }
}

/// The line of an entry: its caller, its number among that caller's entries, and its reply.
pub fn entry_line(entry: Entry, number: u32) -> Line
    ensures { result ≡ entry_text entry number }
{
    let mut line = Line::new();
    set_entry(&mut line, entry, number);
    line
}

/// The full line of an entry: its slot and its blocks too, where it has any.
pub fn full_line(entry: Entry, number: u32) -> Line
    ensures { result ≡ full_line entry number }
{
    let mut line = Line::new();
    set_full(&mut line, entry, number);
    line
}

// Makes a line that of an entry.
fn set_line(line: &mut Line, entry: Entry, number: u32, form: Form)
    ensures { line.new ≡ line_by form entry number }
{
    match form {
        Form::Plain => set_entry(line, entry, number),
        Form::Full => set_full(line, entry, number),
    }
}

// Makes a line the plain one of an entry.
fn set_entry(line: &mut Line, entry: Entry, number: u32)
    ensures { line.new ≡ entry_text entry number }
{
    line.clear();
    line.push_count(entry.caller);
    line.push_str(" ");
    line.push_number(number);
    if let Reply::Done = entry.reply {
        line.push_str(" ok\n");
    } else {
        line.push_str(" ");
        push_reply(line, entry.reply);
        line.push_str("\n");
    }
}

// Makes a line the full one of an entry.
fn set_full(full: &mut Line, entry: Entry, number: u32)
    ensures { full.new ≡ full_line entry number }
{
    full.clear();
    full.push_count(entry.caller);
    full.push_str(" ");
    full.push_number(number);
    full.push_str(" ");
    push_reply(full, entry.reply);
    push_slot(full, entry.slot);
    push_growth(full, entry.grown);
    full.push_str("\n");
}

// Appends the slot that an entry gives or frees.
fn push_slot(line: &mut Line, slot: Option<Slot>)
    requires { length line.old + LONGEST_SLOT ≤ Line.CAPACITY }
    ensures text { line.new ≡ line.old ++ slot_text slot }
    ensures short { length line.new ≤ length line.old + LONGEST_SLOT }
{
    if let Some(slot) = slot {
        line.push_str(" @");
        line.push_number(slot.0);
    }
}

// Appends how the blocks in use changed.
fn push_growth(line: &mut Line, grown: Grown)
    requires { length line.old + LONGEST_GROWTH ≤ Line.CAPACITY }
    ensures text { line.new ≡ line.old ++ growth_text grown }
    ensures short { length line.new ≤ length line.old + LONGEST_GROWTH }
{
    match grown {
        Grown::Zero => {}
        Grown::One(block) => {
            line.push_str(" +");
            line.push_number(block);
        }
        Grown::Two(block, other) => {
            line.push_str(" +");
            line.push_number(block);
            line.push_str(",");
            line.push_number(other);
        }
        Grown::Back(block) => {
            line.push_str(" -");
            line.push_number(block);
        }
    }
}

// Counts one more entry of a caller, and returns its number.
fn count_entry(counts: &mut [u32; COUNTS], caller: u32) -> u32
    requires known { caller < CALLERS }
    requires fits { slice_index counts.old caller + 1 < 2 ^ 32 }
    ensures number { result ≡ slice_index counts.old caller + 1 }
    ensures counted { counts.new ≡ slice_set counts.old caller result }
{
    let count = &mut counts[caller as usize];
    *count += 1;
    *count
}

/// Writes the line of each entry, in the journal's order. Each line goes to the sink in one write.
/// A write that fails is the last, and a prefix of these lines was written then.
pub fn write_entries<K: Sink>(journal: &Journal, sink: &mut K) -> Result<(), Failed>
    requires { All (λ e. e.caller < CALLERS) journal.now.entries }
    ensures all { OnOk result
        (Took (K.seen sink.old) (K.seen sink.new) (lines_of journal.now.entries)) }
    ensures broke_off { OnErr result
        (WriteBrokeOff (K.seen sink.old) (K.seen sink.new) (lines_of journal.now.entries)) }
{
    write_lines(journal, Form::Plain, sink)
}

/// Writes the full line of each entry, as `write_entries` writes the plain one.
pub fn write_full<K: Sink>(journal: &Journal, sink: &mut K) -> Result<(), Failed>
    requires { All (λ e. e.caller < CALLERS) journal.now.entries }
    ensures all { OnOk result (Took (K.seen sink.old) (K.seen sink.new)
        (concat (full_lines journal.now.entries))) }
    ensures broke_off { OnErr result (WriteBrokeOff (K.seen sink.old) (K.seen sink.new)
        (concat (full_lines journal.now.entries))) }
{
    write_lines(journal, Form::Full, sink)
}

/// Writes the line of each entry in a form, as `write_entries` writes the plain one.
pub fn write_lines<K: Sink>(journal: &Journal, form: Form, sink: &mut K) -> Result<(), Failed>
    requires { All (λ e. e.caller < CALLERS) journal.now.entries }
    ensures all { OnOk result
        (Took (K.seen sink.old) (K.seen sink.new) (lines_by form journal.now.entries)) }
    ensures broke_off { OnErr result
        (WriteBrokeOff (K.seen sink.old) (K.seen sink.new) (lines_by form journal.now.entries)) }
{
    let mut counts = [0; COUNTS];
    let mut line = Line::new();
    for i in 0..journal.len() {
        let entry = journal.entry(i);
        let number = count_entry(&mut counts, entry.caller);
        set_line(&mut line, entry, number, form);
        write_all(sink, line.as_bytes())?;
    }
    Ok(())
}
