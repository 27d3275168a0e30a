// The objects that join the queue in one collection: all are found before any is promoted, since
// what one leads to joins too.
ghost use Rattle.std.specs.Prelude.{◌≡◌, ◌+◌, ◌*◌, ◌≤◌, ◌++◌, true, length, Contains, not, ◌&&◌, vec_len, vec_capacity};
ghost use Rattle.std.specs.FinMap as map;
ghost use Rattle.std.specs.{List.Sorted.IsPermutation, List.Sorted.IsNonDecreasingBy, VecDeque.deque_len, VecDeque.deque_capacity};
ghost use Rattle.hd_model.specs.declared.limits.TheConstants.{REGION};
ghost use Rattle.hd_model.specs.Heap.{Basis, has_object, is_in_use, objects_of, placed_at, region_generation};
ghost use Rattle.hd_heap.specs.Sound.{IsSound};
ghost use Rattle.hd_model.specs.{Leads.Grows, Scene.is_object, Scene.IsYoungField};
ghost use Rattle.hd_final.specs.{declared.joiners.Joiner.Joiner as JoinerValue, Inside.IsFinding, Inside.IsFound, Inside.addresses};

use hd_heap::Heap;
use hd_model::{Addr, Id, Marker};
use std::collections::VecDeque;

/// An object that is to join, with its identity.
#[derive(Clone, Copy)]
pub(crate) struct Joiner {
    pub(crate) id: Id,
    pub(crate) at: Addr,
}

/// Collects the registered condemned objects that are not promoted, in the order of addresses. None
/// is looked at where no object may be registered.
pub(crate) fn find<M: Marker>(joiners: &mut Vec<Joiner>, heap: &Heap, marker: &M, n: u8)
    requires settled { M.settled marker.now }
    requires basis { M.basis marker.now ≡ record { heap = heap.now; condemned = n } }
    requires room { map.len heap.now.objects ≤ vec_capacity joiners.old }
    ensures found { IsFound heap.now n (M.promoted marker.now) joiners.new.items }
    ensures capacity { vec_capacity joiners.new ≡ vec_capacity joiners.old }
{
    joiners.clear();
    if !heap.may_have_registered() {
        return;
    }
    let mut after = 0;
    while let Some(region) = heap.next_condemned_region(after, n) {
        find_in_region(joiners, heap, marker, region);
        after = region;
    }
}

// Collects those of a condemned region.
fn find_in_region<M: Marker>(joiners: &mut Vec<Joiner>, heap: &Heap, marker: &M, region: u32)
    requires settled { M.settled marker.now }
    requires basis { (M.basis marker.now).heap ≡ heap.now }
    requires sound { IsSound heap.now }
    requires held { is_in_use heap.now region ≡ true }
    requires young { region_generation heap.now region ≤ (M.basis marker.now).condemned }
    requires room { map.len heap.now.objects ≤ vec_capacity joiners.old }
    requires so_far { IsFinding heap.now (M.basis marker.now).condemned (M.promoted marker.now)
        (region * REGION) joiners.old.items }
    ensures finding { IsFinding heap.now (M.basis marker.now).condemned (M.promoted marker.now)
        ((region + 1) * REGION) joiners.new.items }
    ensures capacity { vec_capacity joiners.new ≡ vec_capacity joiners.old }
{
    let mut objects = heap.objects_of(region);
    while let Some(object) = objects.next() {
        let at = object.at;
        if is_out(heap, marker, at, object.registered) {
            let id = heap.id(at);
            joiners.push_reserved(Joiner { id, at });
        }
    }
}

// Whether an object is registered and not promoted.
fn is_out<M: Marker>(_heap: &Heap, marker: &M, at: Addr, registered: bool) -> bool
    requires settled { M.settled marker.now }
    requires object { has_object _heap.now at ≡ true }
    requires basis { (M.basis marker.now).heap ≡ _heap.now }
    requires registered { registered ≡ (placed_at _heap.now at).registered }
    ensures { result ≡ ((placed_at _heap.now at).registered && not (M.promoted marker.now at)) }
{
    registered && !marker.promoted(at)
}

/// Puts them in the order of their identities.
pub(crate) fn sort(joiners: &mut Vec<Joiner>)
    ensures permutation { IsPermutation joiners.old.items joiners.new.items }
    ensures rising { IsNonDecreasingBy (λ (j : JoinerValue). j.id.0) joiners.new.items }
    ensures capacity { vec_capacity joiners.new ≡ vec_capacity joiners.old }
{
    joiners.sort_unstable_by_key(|joiner| joiner.id.0);
}

/// Promotes them, and queues them after the others.
pub(crate) fn join<M: Marker>(joiners: &[Joiner], queued: &mut VecDeque<Addr>, marker: &mut M)
    requires settled { M.settled marker.old }
    requires objects { (a : _) → Contains (addresses joiners.now) a →
        is_object (objects_of (M.basis marker.old)) a ≡ true }
    requires room { deque_len queued.old + length joiners.now ≤ deque_capacity queued.old }
    ensures settled { M.settled marker.new }
    ensures basis { M.basis marker.new ≡ M.basis marker.old }
    ensures pinned { M.pinned marker.new ≡ M.pinned marker.old }
    ensures grows { let b = M.basis marker.old in
        Grows (IsYoungField (objects_of b) b.condemned) (λ a. Contains (addresses joiners.now) a)
        (M.promoted marker.old) (M.promoted marker.new) }
    ensures queued { queued.new.items ≡ queued.old.items ++ addresses joiners.now }
    ensures capacity { deque_capacity queued.new ≡ deque_capacity queued.old }
{
    for joiner in joiners {
        queued.push_back_reserved(joiner.at);
        marker.promote(joiner.at);
    }
}
