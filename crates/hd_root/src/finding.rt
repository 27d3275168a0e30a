ghost use Rattle.std.specs.Prelude.{◌≡◌, [], true, Contains, IfOk, MatchOption, None};
ghost use Rattle.hd_model.specs.declared.data.Addr.{Addr as AddrValue};
ghost use Rattle.hd_model.specs.Anchors.{IsUnrooted};
ghost use Rattle.hd_model.specs.Heap.{has_object, object_at};
ghost use Rattle.hd_model.specs.Names.{HasClosedFields, NamesObjects};
ghost use Rattle.hd_model.specs.Table.{row_at};
ghost use Rattle.hd_root.specs.Chain.{IsLeastChain};
ghost use Rattle.hd_root.specs.Inside.{AreObjects, WalksTo};
ghost use Rattle.hd_root.specs.Search.{EdgeIn, number};
ghost use Rattle.hd_walk.specs.Trail.{with_all};

use crate::anchors::by_identity;
use crate::chain::{Chain, chain_of};
use crate::dependents::dependents_of;
use crate::graph::Graph;
use hd_heap::Heap;
use hd_model::{Addr, Memory};
use hd_seg::Seg;
use hd_walk::{Trail, walk};
use std::alloc::{AllocError, Global};

/// A shortest chain of fields and dependent handles from an anchor to `goal`, if there is one. The
/// anchors come in any order, and may repeat. It takes memory by what it reaches.
#[inline(never)]
pub fn search(
    alloc: Global,
    heap: &Heap,
    seg: &Seg,
    anchors: &[Addr],
    goal: Addr,
) -> Result<Option<Chain>, Memory>
    requires fields { HasClosedFields (object_at heap.now) }
    requires rows { NamesObjects (object_at heap.now) (row_at seg.now) }
    requires anchors { (a : AddrValue) → Contains anchors.now a → has_object heap.now a ≡ true }
    ensures { let edge = EdgeIn heap.now seg.now in
        IfOk result (λ found. MatchOption found (IsUnrooted edge (Contains anchors.now) goal)
        (IsLeastChain edge (Contains anchors.now) (number heap.now) goal)) }
{
    match found_from(alloc, heap, seg, anchors, goal) {
        Ok(found) => Ok(found),
        Err(_) => Err(Memory),
    }
}

// The same.
fn found_from(
    alloc: Global,
    heap: &Heap,
    seg: &Seg,
    anchors: &[Addr],
    goal: Addr,
) -> Result<Option<Chain>, AllocError>
    requires fields { HasClosedFields (object_at heap.now) }
    requires rows { NamesObjects (object_at heap.now) (row_at seg.now) }
    requires anchors { (a : AddrValue) → Contains anchors.now a → has_object heap.now a ≡ true }
    ensures { let edge = EdgeIn heap.now seg.now in
        IfOk result (λ found. MatchOption found (IsUnrooted edge (Contains anchors.now) goal)
        (IsLeastChain edge (Contains anchors.now) (number heap.now) goal)) }
{
    let starts = by_identity(alloc, heap, anchors)?;
    let mut trail = entered(alloc, &starts)?;
    match walk_to(alloc, heap, seg, goal, &mut trail)? {
        Some(last) => Ok(Some(chain_of(alloc, heap, &trail, last)?)),
        None => Ok(None),
    }
}

// Walks along fields and dependent handles from the objects of a trail until the goal is found, and
// returns the index at which it is.
#[inline(always)]
fn walk_to(
    alloc: Global,
    heap: &Heap,
    seg: &Seg,
    goal: Addr,
    trail: &mut Trail,
) -> Result<Option<usize>, AllocError>
    requires fields { HasClosedFields (object_at heap.now) }
    requires rows { NamesObjects (object_at heap.now) (row_at seg.now) }
    requires objects { AreObjects heap.now trail.old }
    ensures { IfOk result (WalksTo heap.now seg.now goal trail.old trail.new) }
{
    let dependents = dependents_of(alloc, seg)?;
    let graph = Graph {
        heap,
        seg,
        dependents: &dependents,
    };
    walk(alloc, &graph, trail, 0, Some(u64::from(goal.0)))
}

// A trail that begins with these nodes.
fn entered(alloc: Global, starts: &[u64]) -> Result<Trail, AllocError>
    ensures { IfOk result (λ trail. trail ≡ with_all [] starts.now None) }
{
    let mut trail = Trail::open(alloc);
    trail.reserve(starts.len())?;
    trail.add_all(starts, None)?;
    Ok(trail)
}
