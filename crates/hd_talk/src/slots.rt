// What is in a slot, and who has it.
ghost use Rattle.std.specs.Prelude.{◌≡◌, ◌++◌, ◌==◌, codes, decimal, find, IfOk};
ghost use Rattle.hd_seen.specs.Seen.{view_seen};
ghost use Rattle.hd_talk.specs.Slots.{content_text, entry_line, extra_words, handle_line, line_of, object_word};
ghost use Rattle.hd_talk.specs.Slots.{slot_text, slot_words};

use crate::holders::push_holders;
use crate::text::{push, push_line};
use hd_model::{Id, Memory, Reply, Slot};
use hd_print::{Line, kind_name, reply_line, strength_name};
use hd_seen::{SeenEntry, SeenExtra, SeenHandle, Snapshot};
use std::alloc::{AllocError, Global};

/// What is in a slot, a handle or an entry of the weak table or nothing live; and then who has the
/// slot, a line for each handle register and each board index. A handle may be freed by a
/// caller that has its slot in a register, and by each caller once it took the slot off the board.
pub fn slot_text(alloc: Global, seen: &Snapshot, slot: Slot) -> Result<Vec<u8>, Memory>
    ensures { IfOk result (λ text. text.items ≡ slot_text (view_seen seen.now) slot.0) }
{
    match text_of(alloc, seen, slot) {
        Ok(text) => Ok(text),
        Err(AllocError) => Err(Memory),
    }
}

// The same.
fn text_of(alloc: Global, seen: &Snapshot, slot: Slot) -> Result<Vec<u8>, AllocError>
    ensures { IfOk result (λ text. text.items ≡ slot_text (view_seen seen.now) slot.0) }
{
    let mut text = Vec::new(alloc);
    push_content(&mut text, seen, slot)?;
    push_holders(&mut text, seen, slot)?;
    Ok(text)
}

// Appends what is in a slot.
fn push_content(text: &mut Vec<u8>, seen: &Snapshot, slot: Slot) -> Result<(), AllocError>
    ensures { IfOk result (λ _. text.new.items
        ≡ text.old.items ++ content_text seen.now.handles.items seen.now.entries.items slot.0) }
{
    push_line(text, &slot_line(slot))?;
    let handle = handle_in(&seen.handles, slot);
    let entry = entry_in(&seen.entries, slot);
    push_found(text, handle, entry)
}

// Appends the handle, or else the entry, that is found in a slot.
fn push_found(
    text: &mut Vec<u8>,
    handle: Option<SeenHandle>,
    entry: Option<SeenEntry>,
) -> Result<(), AllocError>
    ensures { IfOk result (λ _. text.new.items ≡ text.old.items ++ line_of handle entry) }
{
    match (handle, entry) {
        (Some(handle), _) => push_handle(text, handle),
        (None, Some(entry)) => push_entry(text, entry),
        (None, None) => push(text, " not live\n"),
    }
}

// The begin of the line of a slot.
fn slot_line(slot: Slot) -> Line
    ensures { result ≡ slot_words slot.0 }
{
    let mut line = Line::new();
    line.push_str("slot ");
    line.push_number(slot.0);
    line
}

// The handle in a slot.
fn handle_in(handles: &[SeenHandle], slot: Slot) -> Option<SeenHandle>
    ensures { result ≡ find (λ (h : SeenHandle). h.slot.0 == slot.0) handles.now }
{
    handles
        .iter()
        .find(|handle| handle.slot.0 == slot.0)
        .copied()
}

// The entry in a slot.
fn entry_in(entries: &[SeenEntry], slot: Slot) -> Option<SeenEntry>
    ensures { result ≡ find (λ (e : SeenEntry). e.slot.0 == slot.0) entries.now }
{
    entries.iter().find(|entry| entry.slot.0 == slot.0).copied()
}

// Appends what there is of a handle.
fn push_handle(text: &mut Vec<u8>, handle: SeenHandle) -> Result<(), AllocError>
    ensures { IfOk result (λ _. text.new.items ≡ text.old.items ++ handle_line handle) }
{
    push(text, " kind ")?;
    push(text, kind_name(handle.kind))?;
    push(text, " target ")?;
    push_object(text, handle.target)?;
    push_extra(text, handle.extra)?;
    push_age(text, handle.age)
}

// Appends what a handle has beside its target.
fn push_extra(text: &mut Vec<u8>, extra: SeenExtra) -> Result<(), AllocError>
    ensures { IfOk result (λ _. text.new.items ≡ text.old.items ++ extra_words extra) }
{
    match extra {
        SeenExtra::Nothing => Ok(()),
        SeenExtra::Strength(strength) => {
            push(text, " strength ")?;
            push(text, strength_name(strength))
        }
        SeenExtra::Secondary(id) => {
            push(text, " secondary ")?;
            push_object(text, id)
        }
        SeenExtra::Count(count) => {
            push(text, " count ")?;
            push_number(text, count)
        }
    }
}

// Appends what there is of an entry of the weak table.
fn push_entry(text: &mut Vec<u8>, entry: SeenEntry) -> Result<(), AllocError>
    ensures { IfOk result (λ _. text.new.items ≡ text.old.items ++ entry_line entry) }
{
    push(text, " entry key ")?;
    push_object(text, entry.key)?;
    push(text, " value ")?;
    push_object(text, entry.value)?;
    push_age(text, entry.age)
}

// Appends the age of a clump, with which a line ends.
fn push_age(text: &mut Vec<u8>, age: u8) -> Result<(), AllocError>
    ensures { IfOk result (λ _. text.new.items
        ≡ text.old.items ++ (codes " age " ++ decimal age ++ codes "\n")) }
{
    let mut line = Line::new();
    line.push_str(" age ");
    line.push_number(age);
    line.push_str("\n");
    push_line(text, &line)
}

// Appends an object as a reply shows it.
fn push_object(text: &mut Vec<u8>, id: Option<Id>) -> Result<(), AllocError>
    ensures { IfOk result (λ _. text.new.items ≡ text.old.items ++ object_word id) }
{
    match id {
        Some(id) => push_line(text, &reply_line(Reply::Object(id))),
        None => push_line(text, &reply_line(Reply::Nothing)),
    }
}

// Appends a number.
fn push_number(text: &mut Vec<u8>, number: u32) -> Result<(), AllocError>
    ensures { IfOk result (λ _. text.new.items ≡ text.old.items ++ decimal number) }
{
    let mut line = Line::new();
    line.push_number(number);
    push_line(text, &line)
}
