// The fields of what stays in place come to hold the new addresses.
ghost use Rattle.std.specs.Prelude.{◌≡◌, ◌≢◌, ◌<◌, ℕ, true, length};
ghost use Rattle.hd_model.specs.Heap.{has_object};
ghost use Rattle.hd_heap.specs.{Calls.is_old_carded, Moves.move_at, Moves.is_staying};
ghost use Rattle.hd_plan.specs.{Layout.condemned_at, Layout.IsRising, Inside.AreRewritten, Inside.HasKeptFields, Inside.IsStayedAt};

use crate::moves::{Condemned, Move};
use crate::releasing::has_pinned;
use hd_heap::Heap;
use hd_model::{Addr, Forward};

/// Rewrites the fields of the older objects in set cards, which are all that may reference a
/// condemned object.
pub(crate) fn rewrite_carded<F: Forward>(heap: &mut Heap, forward: &F, n: u8)
    requires laid { F.laid forward.now }
    requires kept { (x : Addr) → is_old_carded heap.old n x ≡ true
        → HasKeptFields (F.kept forward.now) heap.old x }
    requires forwards { (y : Addr) → F.kept forward.now y ≡ true
        → (F.forwarding forward.now y).0 ≢ 0 }
    ensures { AreRewritten (λ a. is_old_carded heap.old n a ≡ true) (F.forwarding forward.now)
        heap.old heap.new }
{
    let mut after = None;
    while let Some(at) = heap.next_carded(after, n) {
        heap.rewrite_fields(at, forward);
        after = Some(at);
    }
}

/// Rewrites the fields of the objects of these moves that stay. Without a region that stays none
/// does, and no move is looked at.
pub(crate) fn rewrite_pinned<F: Forward>(
    heap: &mut Heap,
    forward: &F,
    moves: &[Move],
    regions: &[Condemned],
)
    requires pinned { (k : ℕ) → k < length moves.now → is_staying (move_at moves.now k).fate ≡ true
        → (j : ℕ) × ((j < length regions.now) × ((condemned_at regions.now j).pinned ≡ true)) }
    requires laid { F.laid forward.now }
    requires objects { (k : ℕ) → k < length moves.now
        → has_object heap.old (move_at moves.now k).from ≡ true }
    requires rising { IsRising moves.now }
    requires kept { (k : ℕ) → k < length moves.now → is_staying (move_at moves.now k).fate ≡ true
        → HasKeptFields (F.kept forward.now) heap.old (move_at moves.now k).from }
    requires forwards { (y : Addr) → F.kept forward.now y ≡ true
        → (F.forwarding forward.now y).0 ≢ 0 }
    ensures { AreRewritten (IsStayedAt moves.now (length moves.now)) (F.forwarding forward.now)
        heap.old heap.new }
{
    if !has_pinned(regions) {
        return;
    }
    for object in moves {
        if object.fate.stays() {
            heap.rewrite_fields(object.from, forward);
        }
    }
}
