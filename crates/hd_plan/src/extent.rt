ghost use Rattle.hd_plan.specs.Inside.{IsToLay};

use hd_heap::{Extent, Heap};

/// How much there is to lay.
#[tactic(auto, using(crate::proofs::CondemnedAmounts::to_lay))]
pub(crate) fn extent(heap: &Heap, n: u8) -> Extent
    ensures { IsToLay heap.now n result }
{
    heap.extent(n)
}
