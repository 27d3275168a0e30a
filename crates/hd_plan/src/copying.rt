// The objects that move are copied to their new addresses.
ghost use Rattle.std.specs.Prelude.{◌≡◌, ◌≢◌, ◌<◌, ◌≤◌, ℕ, true, length};
ghost use Rattle.hd_heap.specs.Moves.{move_at, is_moving};
ghost use Rattle.hd_plan.specs.Inside.{CanCopy, AreCopied, HasKeptFields, HaveGone, MayGoFrom};

use crate::moves::{Fate, Move};
use hd_heap::Heap;
use hd_model::{Addr, Forward};

/// Copies each object that moves to its new address, with new addresses in its fields. It is at
/// both addresses from then on. Those that go from one region to one other are copied together.
pub(crate) fn copy_moves<F: Forward>(heap: &mut Heap, forward: &F, moves: &[Move])
    requires can_copy { CanCopy heap.old moves.now }
    requires laid { F.laid forward.now }
    requires kept { (k : ℕ) → k < length moves.now → is_moving (move_at moves.now k).fate ≡ true
        → HasKeptFields (F.kept forward.now) heap.old (move_at moves.now k).from }
    requires forwards { (y : Addr) → F.kept forward.now y ≡ true
        → (F.forwarding forward.now y).0 ≢ 0 }
    ensures { AreCopied (F.forwarding forward.now) heap.old heap.new moves.now (length moves.now) }
{
    let mut k = 0;
    while k < moves.len() {
        k = copy_from(heap, forward, moves, k);
    }
}

// Copies the objects of the moves that go with the one at an index, and returns the index after
// them.
fn copy_from<F: Forward>(heap: &mut Heap, forward: &F, moves: &[Move], k: usize) -> usize
    requires within { k < length moves.now }
    requires may_go { MayGoFrom (F.kept forward.now) (F.forwarding forward.now) heap.old
        moves.now k }
    requires laid { F.laid forward.now }
    requires forwards { (y : Addr) → F.kept forward.now y ≡ true
        → (F.forwarding forward.now y).0 ≢ 0 }
    ensures on { k < result }
    ensures within { result ≤ length moves.now }
    ensures gone { HaveGone (F.forwarding forward.now) heap.old heap.new moves.now k result }
{
    match moves[k].fate {
        Fate::Dead | Fate::Pinned => k + 1,
        Fate::MovesToNewRegion => {
            let _region = heap.fresh(moves[k].generation);
            heap.copy_run(moves, k, forward)
        }
        Fate::Moves => heap.copy_run(moves, k, forward),
    }
}
