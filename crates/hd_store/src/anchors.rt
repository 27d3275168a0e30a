// The anchors of a search for what keeps an object: what statics reference, what is queued for
// finalization, and what handles hold.
ghost use Rattle.std.specs.Prelude.{◌≡◌, ◌*◌, ◌≤◌, ◌++◌, drop, flat_map, length, map, IfOk, OnOk};
ghost use Rattle.std.specs.Option.{option_to_list};
ghost use Rattle.hd_store.specs.Inside.{anchor_list, address_of};

use hd_final::Final;
use hd_model::limits::REGISTERS;
use hd_model::{Addr, Memory};
use hd_scan::Root;
use std::alloc::Global;

/// The statics among what registers and statics reference, which come after the registers of all
/// callers.
pub(crate) fn statics(roots: &[Option<Addr>], callers: usize) -> &[Option<Addr>]
    requires { REGISTERS * callers ≤ length roots.now }
    ensures { result.now ≡ drop (REGISTERS * callers) roots.now }
{
    &roots[REGISTERS as usize * callers..]
}

/// The anchors: those of statics, then those of the queue, then those of handles.
pub(crate) fn anchors(
    alloc: Global,
    statics: &[Option<Addr>],
    queue: &Final,
    held: &[Root],
) -> Result<Vec<Addr>, Memory>
    ensures { IfOk result (λ anchors.
        anchors.items ≡ anchor_list statics.now queue.now.queued held.now) }
{
    let mut anchors = Vec::new(alloc);
    add_statics(&mut anchors, statics)?;
    add_queued(&mut anchors, queue)?;
    add_held(&mut anchors, held)?;
    Ok(anchors)
}

// Adds what statics reference.
fn add_statics(anchors: &mut Vec<Addr>, statics: &[Option<Addr>]) -> Result<(), Memory>
    ensures { OnOk result
        (anchors.new.items ≡ anchors.old.items ++ flat_map option_to_list statics.now) }
{
    for referenced in statics {
        add(anchors, *referenced)?;
    }
    Ok(())
}

// Adds what is queued for finalization.
fn add_queued(anchors: &mut Vec<Addr>, queue: &Final) -> Result<(), Memory>
    ensures { OnOk result (anchors.new.items ≡ anchors.old.items ++ queue.now.queued) }
{
    for i in 0..queue.len() {
        add(anchors, Some(queue.at(i)))?;
    }
    Ok(())
}

// Adds what handles hold.
fn add_held(anchors: &mut Vec<Addr>, held: &[Root]) -> Result<(), Memory>
    ensures { OnOk result (anchors.new.items ≡ anchors.old.items ++ map address_of held.now) }
{
    for root in held {
        add(anchors, Some(root.at))?;
    }
    Ok(())
}

// Adds an object, if there is one.
fn add(anchors: &mut Vec<Addr>, referenced: Option<Addr>) -> Result<(), Memory>
    ensures { OnOk result (anchors.new.items ≡ anchors.old.items ++ option_to_list referenced) }
{
    if let Some(at) = referenced {
        if anchors.push(at).is_err() {
            return Err(Memory);
        }
    }
    Ok(())
}
