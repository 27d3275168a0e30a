ghost use Rattle.std.specs.Prelude.{◌≡◌};
ghost use Rattle.hd_model.specs.{Ages.HasSoundCards, Heap.object_at, Heap.is_carded};
ghost use Rattle.hd_plan.specs.{Plan.IsLaid, Commit.IsSameShape, Commit.Commits};

use crate::carding::{card_kept, clear_unneeded};
use crate::copying::copy_moves;
use crate::forwards::Forwards;
use crate::moves::{Condemned, Move};
use crate::plan::Plan;
use crate::releasing::{remove_left, settle_regions};
use crate::rewriting::{rewrite_carded, rewrite_pinned};
use hd_heap::Heap;

/// Moves the objects that the plan keeps to their new addresses, rewrites the fields that reference
/// them, and removes all other condemned objects. Cards are exact afterwards. It looks at condemned
/// objects and at those in set cards, and at no other object; it takes no memory.
pub fn commit(heap: &mut Heap, plan: &mut Plan)
    requires laid { IsLaid plan.old }
    requires same { IsSameShape plan.old.basis.heap heap.old }
    requires cards { HasSoundCards (object_at heap.old) (is_carded heap.old) }
    ensures plan { plan.new ≡ plan.old }
    ensures commits { Commits plan.old heap.old heap.new }
{
    // The result is not used: the call states to the proof what every heap keeps.
    let _regions = heap.regions();
    let moves: &[Move] = &plan.moves;
    let regions: &[Condemned] = &plan.regions;
    let forwards: &Forwards = &plan.forwards;
    copy_moves(heap, &*plan, moves);
    rewrite_carded(heap, &*plan, plan.condemned);
    rewrite_pinned(heap, &*plan, moves, regions);
    remove_left(heap, moves, regions, forwards);
    settle_regions(heap, regions);
    card_kept(heap, moves, regions);
    clear_unneeded(heap);
}
