// What a collection of all generations would keep.
ghost use Rattle.std.specs.Prelude.{◌≡◌, ◌++◌, flat_map, IfOk};
ghost use Rattle.hd_links.specs.Graph.{Rises, anchors_in, ids_of};
ghost use Rattle.hd_graph.specs.{Kept.AreKept, Kept.row_numbers, Inside.registered_number};
ghost use Rattle.hd_walk.specs.Trail.{is_found};

use hd_links::{Link, anchors_of, graph_of, push_all};
use hd_model::Id;
use hd_seen::{INDEXES, SeenObject, Snapshot};
use hd_walk::{Trail, walk};
use std::alloc::{AllocError, Global};

// Appends what registers reference.
fn push_rows(registers: &[[Option<Id>; INDEXES]], numbers: &mut Vec<u64>) -> Result<(), AllocError>
    ensures { IfOk result (λ _. numbers.new.items
        ≡ numbers.old.items ++ flat_map row_numbers registers.now) }
{
    for row in registers {
        push_all(row, numbers)?;
    }
    Ok(())
}

// The roots of a snapshot: its anchors, and what registers reference.
fn roots_of(alloc: Global, seen: &Snapshot, links: &[Link]) -> Result<Vec<u64>, AllocError>
    ensures { IfOk result (λ roots. roots.items
        ≡ anchors_in seen.now.statics seen.now.queue.items links.now
        ++ flat_map row_numbers seen.now.registers.items) }
{
    let mut roots = anchors_of(alloc, seen, links)?;
    push_rows(&seen.registers, &mut roots)?;
    Ok(roots)
}

// The objects that are registered for finalization.
fn registered_of(alloc: Global, objects: &[SeenObject]) -> Result<Vec<u64>, AllocError>
    ensures { IfOk result (λ numbers. numbers.items ≡ flat_map registered_number objects.now) }
{
    let mut numbers = Vec::new(alloc);
    for object in objects {
        push_registered(object, &mut numbers)?;
    }
    Ok(numbers)
}

// Appends an object, if it is registered.
fn push_registered(object: &SeenObject, numbers: &mut Vec<u64>) -> Result<(), AllocError>
    ensures { IfOk result (λ _. numbers.new.items
        ≡ numbers.old.items ++ registered_number object.now) }
{
    if object.registered {
        numbers.push(object.id.0)?;
    }
    Ok(())
}

/// What a collection of all generations would keep: what chains lead to from roots, and then from
/// what is registered for finalization.
pub(crate) fn kept_of(alloc: Global, seen: &Snapshot) -> Result<Trail, AllocError>
    requires { Rises (ids_of seen.now) }
    ensures { IfOk result (λ kept. AreKept seen.now (is_found kept)) }
{
    let graph = graph_of(alloc, seen)?;
    let roots = roots_of(alloc, seen, &graph.links)?;
    let registered = registered_of(alloc, &seen.objects)?;
    let mut trail = Trail::open(alloc);
    trail.reserve(seen.objects.len())?;
    trail.add_all(&roots, None)?;
    let _reached = walk(alloc, &graph, &mut trail, 0, None)?;
    let reached = trail.len();
    trail.add_all(&registered, None)?;
    let _kept = walk(alloc, &graph, &mut trail, reached, None)?;
    Ok(trail)
}
