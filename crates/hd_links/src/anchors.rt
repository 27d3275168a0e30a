// The anchors of `gcroot`: what statics reference, what is queued, and what handles hold.
ghost use Rattle.std.specs.Prelude.{◌≡◌, ◌++◌, flat_map, IfOk};
ghost use Rattle.hd_links.specs.Graph.{anchors_in, held_numbers, numbers_of, queued_numbers};

use crate::links::Link;
use hd_model::Id;
use hd_seen::Snapshot;
use std::alloc::{AllocError, Global};

/// The anchors of a snapshot, some of them maybe more than once.
pub fn anchors_of(alloc: Global, seen: &Snapshot, links: &[Link]) -> Result<Vec<u64>, AllocError>
    ensures { IfOk result (λ anchors. anchors.items
        ≡ anchors_in seen.now.statics seen.now.queue.items links.now) }
{
    let mut anchors = Vec::new(alloc);
    push_all(&seen.statics, &mut anchors)?;
    push_queue(&seen.queue, &mut anchors)?;
    push_held(links, &mut anchors)?;
    Ok(anchors)
}

/// Appends the numbers of what is referenced.
pub fn push_all(references: &[Option<Id>], numbers: &mut Vec<u64>) -> Result<(), AllocError>
    ensures { IfOk result (λ _. numbers.new.items
        ≡ numbers.old.items ++ flat_map numbers_of references.now) }
{
    for reference in references {
        push(*reference, numbers)?;
    }
    Ok(())
}

/// Appends the number of what is referenced, if anything.
pub(crate) fn push(reference: Option<Id>, numbers: &mut Vec<u64>) -> Result<(), AllocError>
    ensures { IfOk result (λ _. numbers.new.items ≡ numbers.old.items ++ numbers_of reference) }
{
    if let Some(id) = reference {
        numbers.push(id.0)?;
    }
    Ok(())
}

// Appends the numbers of what is queued.
fn push_queue(queue: &[Id], numbers: &mut Vec<u64>) -> Result<(), AllocError>
    ensures { IfOk result (λ _. numbers.new.items
        ≡ numbers.old.items ++ flat_map queued_numbers queue.now) }
{
    for id in queue {
        numbers.push(id.0)?;
    }
    Ok(())
}

// Appends the numbers of what is held.
fn push_held(links: &[Link], numbers: &mut Vec<u64>) -> Result<(), AllocError>
    ensures { IfOk result (λ _. numbers.new.items
        ≡ numbers.old.items ++ flat_map held_numbers links.now) }
{
    for link in links {
        push(link.held, numbers)?;
    }
    Ok(())
}
