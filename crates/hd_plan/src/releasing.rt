// What is not kept is removed, and regions without objects are freed.
ghost use Rattle.std.specs.Prelude.{◌≡◌, ◌<◌, ◌≤◌, ℕ, true, false, length};
ghost use Rattle.hd_model.specs.Heap.{has_object, is_in_use, region_of};
ghost use Rattle.hd_heap.specs.{Moves.move_at, Moves.is_staying, Calls.IsRemoved, Calls.with_generation, Calls.without_region};
ghost use Rattle.hd_plan.specs.{Layout.condemned_at, Layout.IsRising, Inside.first_at, Inside.AreRemovedIn, Inside.AreGivenUp, Inside.is_pinned};

use crate::forwards::{Forwards, region_number};
use crate::moves::{Condemned, Move};
use hd_heap::Heap;
use hd_model::Addr;
use hd_model::limits::OLDEST;

/// Removes the objects of these moves from their old addresses, but for those that stay, where
/// their region stays. The other regions are given up whole.
#[inline(never)]
pub(crate) fn remove_left(
    heap: &mut Heap,
    moves: &[Move],
    regions: &[Condemned],
    forwards: &Forwards,
)
    requires objects { (k : ℕ) → k < length moves.now
        → has_object heap.old (move_at moves.now k).from ≡ true }
    requires rising { IsRising moves.now }
    requires low { (k : ℕ) → k < length moves.now
        → 0 < first_at forwards.now.firsts.items (region_of (move_at moves.now k).from) }
    requires high { (k : ℕ) → k < length moves.now
        → first_at forwards.now.firsts.items (region_of (move_at moves.now k).from)
        ≤ length regions.now }
    ensures { AreRemovedIn (is_pinned regions.now forwards.now.firsts.items) heap.old heap.new
        moves.now (length moves.now) }
{
    if !has_pinned(regions) {
        return;
    }
    for object in moves {
        remove_if_left(heap, *object, regions, forwards);
    }
}

/// Whether an object of these regions stays.
pub(crate) fn has_pinned(regions: &[Condemned]) -> bool
    ensures { result ≡ false → (k : ℕ) → k < length regions.now
        → (condemned_at regions.now k).pinned ≡ false }
{
    for region in regions {
        if region.pinned {
            return true;
        }
    }
    false
}

// Removes one object from its old address, unless it stays or its region is given up.
fn remove_if_left(heap: &mut Heap, object: Move, regions: &[Condemned], forwards: &Forwards)
    requires object { has_object heap.old object.from ≡ true }
    requires low { 0 < first_at forwards.now.firsts.items (region_of object.from) }
    requires high { first_at forwards.now.firsts.items (region_of object.from) ≤ length
        regions.now }
    ensures stays { is_staying object.fate ≡ true → heap.new ≡ heap.old }
    ensures whole { is_pinned regions.now forwards.now.firsts.items (region_of object.from) ≡ false
        → heap.new ≡ heap.old }
    ensures left { is_staying object.fate ≡ false
        → is_pinned regions.now forwards.now.firsts.items (region_of object.from) ≡ true
        → IsRemoved heap.old heap.new object.from }
{
    if !object.fate.stays() {
        if is_pinned(regions, forwards, object.from) {
            heap.remove(object.from);
        }
    }
}

// Whether a listed region stays, by an address in it.
fn is_pinned(regions: &[Condemned], forwards: &Forwards, at: Addr) -> bool
    requires low { 0 < first_at forwards.now.firsts.items (region_of at) }
    requires high { first_at forwards.now.firsts.items (region_of at) ≤ length regions.now }
    ensures { result ≡ is_pinned regions.now forwards.now.firsts.items (region_of at) }
{
    let first = forwards.firsts[region_number(at) as usize];
    regions[first as usize - 1].pinned
}

/// Gives a condemned region its new generation if an object in it stays, and gives it up with its
/// objects otherwise.
pub(crate) fn settle_regions(heap: &mut Heap, regions: &[Condemned])
    requires held { (k : ℕ) → k < length regions.now
        → is_in_use heap.old (condemned_at regions.now k).region ≡ true }
    requires rising { (j k : ℕ) → j < k → k < length regions.now
        → (condemned_at regions.now j).region < (condemned_at regions.now k).region }
    requires generations { (k : ℕ) → k < length regions.now
        → (condemned_at regions.now k).generation ≤ OLDEST }
    ensures { AreGivenUp heap.old heap.new regions.now (length regions.now) }
{
    for condemned in regions {
        settle_region(heap, *condemned);
    }
}

// Raises the generation of one condemned region, or gives it up.
fn settle_region(heap: &mut Heap, condemned: Condemned)
    requires held { is_in_use heap.old condemned.region ≡ true }
    requires generation { condemned.generation ≤ OLDEST }
    ensures stays { condemned.pinned ≡ true
        → heap.new ≡ with_generation heap.old condemned.region condemned.generation }
    ensures given_up { condemned.pinned ≡ false
        → heap.new ≡ without_region heap.old condemned.region }
{
    if condemned.pinned {
        heap.set_generation(condemned.region, condemned.generation);
    } else {
        heap.give_up(condemned.region);
    }
}
