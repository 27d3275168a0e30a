ghost use Rattle.std.specs.Prelude.{◌≡◌, ◌≤◌, [], IfOk, sum_by, length};
ghost use Rattle.hd_model.specs.State.{start_of};
ghost use Rattle.hd_run.specs.{declared.limits.TheConstants.LEAST_HEAP, Bounds.numbers_for, Inside.IsOpenFor};

use hd_model::Memory;
use hd_model::limits::{BLOCKS, HEAP};
use hd_script::Scripts;
use hd_world::World;
use std::alloc::Global;
use std::marker::Model;

/// The cells of a heap, at least: those of an object without fields.
pub const LEAST_HEAP: u32 = 3;

/// The most cells of a heap, and the blocks of a table, as a run may have them.
#[derive(Drop)]
pub struct Limits {
    /// The most cells of a heap.
    pub heap: u32,
    /// The blocks of a table.
    pub blocks: u32,
}

impl Model for Limits {
    ghost use Rattle.std.specs.Prelude.{◌≤◌};
    ghost use Rattle.hd_model.specs.declared.limits.TheConstants.{HEAP, BLOCKS};
    ghost use Rattle.hd_run.specs.{declared.limits.TheConstants.LEAST_HEAP, Bounds.Bounds};

    ghost Value = { Bounds };

    ghost view = { λ l. record { heap = l.heap; blocks = l.blocks } };

    ghost invariant = { λ l. ((LEAST_HEAP ≤ l.heap) × (l.heap ≤ HEAP))
        × ((1 ≤ l.blocks) × (l.blocks ≤ BLOCKS)) };
}

impl Limits {
    /// These limits.
    pub fn new(heap: u32, blocks: u32) -> Limits
        requires heap { (LEAST_HEAP ≤ heap) × (heap ≤ HEAP) }
        requires blocks { (1 ≤ blocks) × (blocks ≤ BLOCKS) }
        ensures { result ≡ record { heap = heap; blocks = blocks } }
    {
        Limits { heap, blocks }
    }

    /// An empty world for a script.
    pub(crate) fn open(&self, alloc: Global, scripts: &Scripts) -> Result<World, Memory>
        ensures { IfOk result (IsOpenFor scripts.now (numbers_for self.now scripts.now)) }
    {
        World::open(
            alloc,
            self.heap,
            self.blocks,
            scripts.callers(),
            scripts.total(),
        )
    }
}
