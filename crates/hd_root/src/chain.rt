ghost use Rattle.std.specs.Prelude.{◌≡◌, ◌<◌, length, slice_get, Some, IfOk};
ghost use Rattle.hd_root.specs.Inside.{IsChainOf};
ghost use Rattle.hd_root.specs.Inside.{AreObjects};
ghost use Rattle.hd_walk.specs.Trail.{IsFalling};

use hd_heap::Heap;
use hd_model::Addr;
use hd_walk::{Trail, read_back};
use std::alloc::{AllocError, Global};
use std::marker::Model;

/// A chain of objects, each with an edge to the next.
#[derive(Drop)]
pub struct Chain {
    nodes: Vec<u64>,
}

impl Model for Chain {
    ghost use Rattle.std.specs.Prelude.{List, map};
    ghost use Rattle.hd_model.specs.declared.data.Addr.{Addr};
    ghost use Rattle.hd_root.specs.Inside.{AreFew};
    ghost use Rattle.hd_root.specs.Search.{address};

    ghost Value = { List Addr };

    ghost view = { λ c. map address c.nodes.items };

    ghost invariant = { λ c. AreFew c.nodes.items };
}

impl Chain {
    /// The number of its objects, which is one more than that of its edges.
    pub fn len(&self) -> u32
        ensures { result ≡ length self.now }
    {
        self.nodes.len() as u32
    }

    /// Object `i`, from 0.
    pub fn at(&self, i: u32) -> Addr
        requires { i < length self.now }
        ensures { slice_get self.now i ≡ Some result }
    {
        Addr(self.nodes[i as usize] as u32)
    }
}

/// The chain by which a search found number `last`.
pub(crate) fn chain_of(
    alloc: Global,
    heap: &Heap,
    trail: &Trail,
    last: usize,
) -> Result<Chain, AllocError>
    requires last { last < length trail.now }
    requires falling { IsFalling trail.now }
    requires objects { AreObjects heap.now trail.now }
    ensures { IfOk result (IsChainOf trail.now last) }
{
    // These reads give the proof how many objects there are, and that none is found twice.
    let _count = heap.count();
    let _len = trail.len();
    let nodes = read_back(alloc, trail, last)?;
    Ok(Chain { nodes })
}
