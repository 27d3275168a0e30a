// The table of the registers that have something: the object registers of each caller, and then the
// handle registers of each.
ghost use Rattle.std.specs.Prelude.{◌≡◌, ◌++◌, IfOk, flat_map};
ghost use Rattle.std.specs.List.{enumerate_from};
ghost use Rattle.hd_show.specs.Registers.{caller_objects, caller_slots, handle_register, object_register, registers_text};

use crate::columns::{pad, push_end, push_object, push_slot};
use hd_model::{Id, Memory, Slot};
use hd_print::{Line, Text};
use hd_seen::INDEXES;

/// Appends the registers of all callers.
pub(crate) fn push_registers(
    text: &mut Text,
    objects: &[[Option<Id>; INDEXES]],
    slots: &[[Option<Slot>; INDEXES]],
) -> Result<(), Memory>
    ensures { IfOk result (λ _. text.new ≡ text.old ++ registers_text objects.now slots.now) }
{
    text.push("CALLER  REGISTER  HAS\n")?;
    push_objects(text, objects)?;
    push_slots(text, slots)?;
    text.push("\n")
}

// Appends the object registers of all callers.
fn push_objects(text: &mut Text, objects: &[[Option<Id>; INDEXES]]) -> Result<(), Memory>
    ensures { IfOk result (λ _. text.new
        ≡ text.old ++ flat_map caller_objects (enumerate_from 0 objects.now)) }
{
    for i in 0..objects.len() {
        push_caller_objects(text, i, &objects[i])?;
    }
    Ok(())
}

// Appends the object registers of a caller.
fn push_caller_objects(text: &mut Text, caller: usize, objects: &[Option<Id>]) -> Result<(), Memory>
    ensures { IfOk result (λ _. text.new ≡ text.old ++ caller_objects (caller, objects.now)) }
{
    for i in 0..objects.len() {
        push_object_register(text, caller, i, objects[i])?;
    }
    Ok(())
}

// Appends an object register, if it has an object.
fn push_object_register(
    text: &mut Text,
    caller: usize,
    d: usize,
    id: Option<Id>,
) -> Result<(), Memory>
    ensures { IfOk result (λ _. text.new ≡ text.old ++ object_register caller (d, id)) }
{
    let Some(id) = id else {
        return Ok(());
    };
    let mut line = Line::new();
    line.push_number(caller);
    pad(&mut line, 8);
    line.push_str("r");
    line.push_number(d);
    pad(&mut line, 18);
    push_object(&mut line, Some(id));
    push_end(text, line)
}

// Appends the handle registers of all callers.
fn push_slots(text: &mut Text, slots: &[[Option<Slot>; INDEXES]]) -> Result<(), Memory>
    ensures { IfOk result (λ _. text.new
        ≡ text.old ++ flat_map caller_slots (enumerate_from 0 slots.now)) }
{
    for i in 0..slots.len() {
        push_caller_slots(text, i, &slots[i])?;
    }
    Ok(())
}

// Appends the handle registers of a caller.
fn push_caller_slots(text: &mut Text, caller: usize, slots: &[Option<Slot>]) -> Result<(), Memory>
    ensures { IfOk result (λ _. text.new ≡ text.old ++ caller_slots (caller, slots.now)) }
{
    for i in 0..slots.len() {
        push_handle_register(text, caller, i, slots[i])?;
    }
    Ok(())
}

// Appends a handle register, if it has a slot.
fn push_handle_register(
    text: &mut Text,
    caller: usize,
    d: usize,
    slot: Option<Slot>,
) -> Result<(), Memory>
    ensures { IfOk result (λ _. text.new ≡ text.old ++ handle_register caller (d, slot)) }
{
    let Some(slot) = slot else {
        return Ok(());
    };
    let mut line = Line::new();
    line.push_number(caller);
    pad(&mut line, 8);
    line.push_str("h");
    line.push_number(d);
    pad(&mut line, 18);
    push_slot(&mut line, Some(slot));
    push_end(text, line)
}
