// The anchors of a search, in rising identity.

ghost use Rattle.std.specs.Prelude.{◌≡◌, ◌≤◌, [], true, length, map, vec_capacity, Contains, IfOk};
ghost use Rattle.std.specs.List.Sorted.{IsPermutation, IsNonDecreasingBy};
ghost use Rattle.hd_model.specs.declared.data.Addr.{Addr as AddrValue};
ghost use Rattle.hd_model.specs.Heap.{has_object};
ghost use Rattle.hd_root.specs.Inside.{AreStarts, anchor_of, id_of, node_of};

use hd_heap::Heap;
use hd_model::Addr;
use std::alloc::{AllocError, Global};

/// An anchor by its identity and its address.
#[derive(Clone, Copy)]
pub(crate) struct Anchor {
    pub(crate) id: u64,
    pub(crate) at: Addr,
}

/// The nodes of the anchors, in rising identity.
pub(crate) fn by_identity(
    alloc: Global,
    heap: &Heap,
    anchors: &[Addr],
) -> Result<Vec<u64>, AllocError>
    requires { (a : AddrValue) → Contains anchors.now a → has_object heap.now a ≡ true }
    ensures { IfOk result (λ starts. AreStarts heap.now anchors.now starts.items) }
{
    let mut listed = identified(alloc, heap, anchors)?;
    sort(&mut listed);
    nodes_of(alloc, &listed)
}

// The anchors with their identities, as they come.
fn identified(alloc: Global, heap: &Heap, anchors: &[Addr]) -> Result<Vec<Anchor>, AllocError>
    requires { (a : AddrValue) → Contains anchors.now a → has_object heap.now a ≡ true }
    ensures { IfOk result (λ listed. listed.items ≡ map (anchor_of heap.now) anchors.now) }
{
    let mut listed = Vec::with_capacity(alloc, anchors.len())?;
    identify(heap, anchors, &mut listed);
    Ok(listed)
}

// Lists them, for which there is room.
#[inline(always)]
fn identify(heap: &Heap, anchors: &[Addr], listed: &mut Vec<Anchor>)
    requires objects { (a : AddrValue) → Contains anchors.now a → has_object heap.now a ≡ true }
    requires none { listed.old.items ≡ [] }
    requires room { length anchors.now ≤ vec_capacity listed.old }
    ensures { listed.new.items ≡ map (anchor_of heap.now) anchors.now }
{
    for at in anchors {
        let id = heap.id(*at).0;
        listed.push_reserved(Anchor { id, at: *at });
    }
}

// Puts them in the order of their identities.
fn sort(listed: &mut Vec<Anchor>)
    ensures permutation { IsPermutation listed.old.items listed.new.items }
    ensures rising { IsNonDecreasingBy id_of listed.new.items }
{
    listed.sort_unstable_by_key(|anchor| anchor.id);
}

// Their nodes, in their order.
fn nodes_of(alloc: Global, listed: &[Anchor]) -> Result<Vec<u64>, AllocError>
    ensures { IfOk result (λ nodes. nodes.items ≡ map node_of listed.now) }
{
    listed
        .iter()
        .map(|anchor| u64::from(anchor.at.0))
        .collect(alloc)
}
