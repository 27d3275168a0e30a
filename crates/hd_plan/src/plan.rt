ghost use Rattle.std.specs.Prelude.{◌≡◌, ◌≤◌, length, take, IfOk, MatchResult};
ghost use Rattle.hd_heap.specs.Calls.{IsExtent};
ghost use Rattle.hd_plan.specs.Plan.{FreeNeeded, FreeAtMost, IsTakenPlan, IsLaid, kept_in, forwarding_in, HasFreeRegions};

use crate::extent::extent;
use crate::forwards::Forwards;
use crate::moves::{Condemned, Move};
use hd_heap::{Extent, Heap};
use hd_model::limits::{LEFT, OLDEST, OPEN};
use hd_model::{Addr, Forward, Memory};
use std::alloc::Global;
use std::marker::Model;
use std::snapshot::Snapshot;

/// Where each condemned object of one heap goes, and what becomes of each condemned region.
#[derive(Drop)]
pub struct Plan {
    // The heap for which the plan is, for clauses alone.
    pub(crate) heap: Snapshot<Heap>,
    pub(crate) condemned: u8,
    // How much was condemned when the plan was taken.
    pub(crate) extent: Extent,
    pub(crate) moves: Vec<Move>,
    pub(crate) regions: Vec<Condemned>,
    pub(crate) forwards: Forwards,
}

impl Model for Plan {
    ghost use Rattle.std.specs.Prelude.{vec_capacity};
    ghost use Rattle.hd_plan.specs.Plan.{PlanOf, plan_code};

    ghost Value = { PlanOf };

    ghost coded = { plan_code };

    ghost use Rattle.hd_plan.specs.Inside.{IsPlan};

    ghost view = { λ p. record {
      basis = record { heap = p.heap.value; condemned = p.condemned };
      moves = p.moves.items;
      regions = p.regions.items;
    } };

    ghost invariant = { λ p. IsPlan (record {
      basis = record { heap = p.heap.value; condemned = p.condemned };
      moves = p.moves.items;
      regions = p.regions.items;
    }) p.extent (vec_capacity p.moves) (vec_capacity p.regions) p.forwards.firsts.items
        p.forwards.cells.items };
}

impl Plan {
    /// Takes memory for a plan of generation `n` and below, and free regions for what it may keep.
    /// Free regions that were added stay free where memory runs out for the rest.
    pub fn take(alloc: Global, heap: &mut Heap, n: u8) -> Result<Plan, Memory>
        requires generation { n ≤ OLDEST }
        ensures same { heap.new ≡ record heap.old { free = heap.new.free } }
        ensures free { take (length heap.old.free) heap.new.free ≡ heap.old.free }
        ensures needed { MatchResult result (λ _. FreeNeeded heap.old heap.new n)
            (λ _. FreeAtMost heap.old heap.new n) }
        ensures taken { IfOk result (λ plan. IsTakenPlan plan) }
        ensures basis { IfOk result (λ plan. plan.basis ≡ record {
          heap = heap.new;
          condemned = n;
        }) }
    {
        let found = extent(heap, n);
        heap.reserve_regions(found.cells / LEFT + OPEN)?;
        Plan::with_room(alloc, heap, n, found)
    }

    /// An empty plan with room for what is condemned.
    fn with_room(alloc: Global, heap: &Heap, n: u8, found: Extent) -> Result<Plan, Memory>
        requires found { IsExtent heap.now n found }
        requires generation { n ≤ OLDEST }
        requires free { HasFreeRegions heap.now n }
        ensures taken { IfOk result (λ plan. IsTakenPlan plan) }
        ensures basis { IfOk result (λ plan. plan.basis ≡ record {
          heap = heap.now;
          condemned = n;
        }) }
    {
        let forwards = Forwards::open(alloc, found.regions, found.end)?;
        let Ok(moves) = Vec::with_capacity(alloc, found.objects as usize) else {
            return Err(Memory);
        };
        match Vec::with_capacity(alloc, found.regions as usize) {
            Ok(regions) => Ok(Plan {
                heap: Snapshot::of(heap),
                condemned: n,
                extent: found,
                moves,
                regions,
                forwards,
            }),
            Err(_) => Err(Memory),
        }
    }

    /// How much was condemned when the plan was taken.
    pub fn extent(&self) -> Extent
        ensures { IsExtent self.now.basis.heap self.now.basis.condemned result }
    {
        self.extent
    }
}

impl Forward for Plan {
    ghost basis = { λ p. p.basis };

    ghost laid = { IsLaid };

    ghost kept = { kept_in };

    ghost forwarding = { forwarding_in };

    fn moved(&self, at: Addr) -> Addr {
        self.forwards.forwarding_address(at)
    }

    ghost keeps = { λ p laid. laid.keeping };
}
