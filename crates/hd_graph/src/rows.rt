// Handles, entries of the weak table, and roots of a graph.
ghost use Rattle.std.specs.Prelude.{◌≡◌, ◌++◌, cond, codes, is_some, flat_map, IfOk};
ghost use Rattle.std.specs.List.{enumerate_from};
ghost use Rattle.hd_graph.specs.Graph.{entry_text, handle_text, queue_text, register_text};
ghost use Rattle.hd_graph.specs.Graph.{registers_text};
ghost use Rattle.hd_graph.specs.Graph.{static_text};

use crate::dot::{Node, Reason, Style, push_attached, push_edge_to, push_root, push_slot};
use crate::roles::{secondary, style};
use hd_model::{Id, Memory};
use hd_print::kind_name;
use hd_seen::{INDEXES, SeenEntry, SeenHandle};

// Appends a handle.
fn push_handle(text: &mut Vec<u8>, handle: &SeenHandle) -> Result<(), Memory>
    ensures { IfOk result (λ _. text.new.items ≡ text.old.items ++ handle_text handle.now) }
{
    push_slot(text, handle.slot, kind_name(handle.kind))?;
    let reason = Reason::Target(style(handle));
    push_edge_to(text, Node::Slot(handle.slot), reason, handle.target)?;
    let reason = Reason::Dependent(handle.slot);
    push_attached(text, reason, handle.target, secondary(handle))
}

/// Appends all handles.
pub(crate) fn push_handles(text: &mut Vec<u8>, handles: &[SeenHandle]) -> Result<(), Memory>
    ensures { IfOk result (λ _. text.new.items ≡ text.old.items
        ++ flat_map handle_text handles.now) }
{
    for handle in handles {
        push_handle(text, handle)?;
    }
    Ok(())
}

// The word for a slot of the weak table.
fn entry_word(key: Option<Id>) -> &'static str
    ensures { result.now ≡ cond (is_some key) (codes "entry") (codes "idle") }
{
    match key {
        Some(_) => "entry",
        None => "idle",
    }
}

// Appends a slot of the weak table.
fn push_entry(text: &mut Vec<u8>, entry: &SeenEntry) -> Result<(), Memory>
    ensures { IfOk result (λ _. text.new.items ≡ text.old.items ++ entry_text entry.now) }
{
    push_slot(text, entry.slot, entry_word(entry.key))?;
    let reason = Reason::Target(Style::Dotted);
    push_edge_to(text, Node::Slot(entry.slot), reason, entry.key)?;
    push_attached(text, Reason::Entry(entry.slot), entry.key, entry.value)
}

/// Appends all slots of the weak table.
pub(crate) fn push_entries(text: &mut Vec<u8>, entries: &[SeenEntry]) -> Result<(), Memory>
    ensures { IfOk result (λ _. text.new.items ≡ text.old.items
        ++ flat_map entry_text entries.now) }
{
    for entry in entries {
        push_entry(text, entry)?;
    }
    Ok(())
}

/// Appends the statics that reference objects.
pub(crate) fn push_statics(text: &mut Vec<u8>, statics: &[Option<Id>]) -> Result<(), Memory>
    ensures { IfOk result (λ _. text.new.items ≡ text.old.items
        ++ flat_map static_text (enumerate_from 0 statics.now)) }
{
    for i in 0..statics.len() {
        push_root(text, Node::Static(i), statics[i])?;
    }
    Ok(())
}

/// Appends the finalization queue.
pub(crate) fn push_queue(text: &mut Vec<u8>, queue: &[Id]) -> Result<(), Memory>
    ensures { IfOk result (λ _. text.new.items ≡ text.old.items
        ++ flat_map queue_text (enumerate_from 1 queue.now)) }
{
    for i in 0..queue.len() {
        push_root(text, Node::Queued(i + 1), Some(queue[i]))?;
    }
    Ok(())
}

// Appends the registers of a caller that reference objects.
fn push_row(text: &mut Vec<u8>, caller: usize, row: &[Option<Id>]) -> Result<(), Memory>
    ensures { IfOk result (λ _. text.new.items ≡ text.old.items
        ++ registers_text (caller, row.now)) }
{
    for i in 0..row.len() {
        push_root(text, Node::Register(caller, i), row[i])?;
    }
    Ok(())
}

/// Appends the registers that reference objects.
pub(crate) fn push_registers(
    text: &mut Vec<u8>,
    registers: &[[Option<Id>; INDEXES]],
) -> Result<(), Memory>
    ensures { IfOk result (λ _. text.new.items ≡ text.old.items
        ++ flat_map registers_text (enumerate_from 0 registers.now)) }
{
    for i in 0..registers.len() {
        push_row(text, i, &registers[i])?;
    }
    Ok(())
}
