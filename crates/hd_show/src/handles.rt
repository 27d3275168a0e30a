// The tables of handles and of the weak table's slots.
ghost use Rattle.std.specs.Prelude.{◌≡◌, ◌++◌, ◌+◌, ◌≤◌, IfOk, length};
ghost use Rattle.hd_show.specs.Handles.{entries_text, entry_row, extra_word, handle_row, handles_text, key_word};

use crate::columns::{pad, push_end, push_object};
use hd_model::{Id, Memory};
use hd_print::{Line, Text, kind_name, strength_name};
use hd_seen::{SeenEntry, SeenExtra, SeenHandle};

/// Appends a line for each handle.
pub(crate) fn push_handles(text: &mut Text, handles: &[SeenHandle]) -> Result<(), Memory>
    ensures { IfOk result (λ _. text.new ≡ text.old ++ handles_text handles.now) }
{
    text.push("SLOT   KIND    TARGET                EXTRA                 AGE\n")?;
    for handle in handles {
        push_handle(text, *handle)?;
    }
    text.push("\n")?;
    Ok(())
}

// Appends the line of a handle.
fn push_handle(text: &mut Text, handle: SeenHandle) -> Result<(), Memory>
    ensures { IfOk result (λ _. text.new ≡ text.old ++ handle_row handle) }
{
    let mut line = Line::new();
    line.push_number(handle.slot.0);
    pad(&mut line, 7);
    line.push_str(kind_name(handle.kind));
    pad(&mut line, 15);
    push_object(&mut line, handle.target);
    pad(&mut line, 37);
    push_extra(&mut line, handle.extra);
    pad(&mut line, 59);
    line.push_number(handle.age);
    push_end(text, line)
}

// Appends what a handle has beside its target, or a hyphen.
fn push_extra(line: &mut Line, extra: SeenExtra)
    requires { length line.old + 21 ≤ Line.CAPACITY }
    ensures word { line.new ≡ line.old ++ extra_word extra }
    ensures short { length line.new ≤ length line.old + 21 }
{
    match extra {
        SeenExtra::Nothing => line.push_str("-"),
        SeenExtra::Strength(strength) => line.push_str(strength_name(strength)),
        SeenExtra::Secondary(id) => push_object(line, id),
        SeenExtra::Count(count) => line.push_number(count),
    }
}

/// Appends a line for each slot of the weak table.
pub(crate) fn push_entries(text: &mut Text, entries: &[SeenEntry]) -> Result<(), Memory>
    ensures { IfOk result (λ _. text.new ≡ text.old ++ entries_text entries.now) }
{
    text.push("ENTRY  KEY                    VALUE                  AGE\n")?;
    for entry in entries {
        push_entry(text, *entry)?;
    }
    text.push("\n")?;
    Ok(())
}

// Appends the line of a slot of the weak table.
fn push_entry(text: &mut Text, entry: SeenEntry) -> Result<(), Memory>
    ensures { IfOk result (λ _. text.new ≡ text.old ++ entry_row entry) }
{
    let mut line = Line::new();
    line.push_number(entry.slot.0);
    pad(&mut line, 7);
    push_key(&mut line, entry.key);
    pad(&mut line, 30);
    push_object(&mut line, entry.value);
    pad(&mut line, 53);
    line.push_number(entry.age);
    push_end(text, line)
}

// Appends a key, or that the slot is idle.
fn push_key(line: &mut Line, key: Option<Id>)
    requires { length line.old + 21 ≤ Line.CAPACITY }
    ensures word { line.new ≡ line.old ++ key_word key }
    ensures short { length line.new ≤ length line.old + 21 }
{
    match key {
        Some(_) => push_object(line, key),
        None => line.push_str("idle"),
    }
}
