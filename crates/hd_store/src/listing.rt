// The roots among the handles, with their objects by identity.
ghost use Rattle.std.specs.Prelude.{◌≡◌, All, map, true, IfOk};
ghost use Rattle.hd_model.specs.{Heap.has_object, RootText.roots_of};
ghost use Rattle.hd_scan.specs.Gathering.{roots_of as table_roots_of};
ghost use Rattle.hd_store.specs.Inside.{root_named};

use crate::contents::Contents;
use hd_heap::Heap;
use hd_model::{Memory, RootId};
use hd_scan::Root;
use std::alloc::{AllocError, Global};

impl Contents {
    /// The roots of the table, which are given by address, with their objects by identity. It takes
    /// memory for them.
    pub fn named_roots(&self, alloc: Global, roots: &[Root]) -> Result<Vec<RootId>, Memory>
        requires { roots.now ≡ table_roots_of self.now.table }
        ensures { IfOk result (λ named. named.items ≡ roots_of self.now.state) }
    {
        match named_roots(alloc, &self.heap, roots) {
            Ok(named) => Ok(named),
            Err(AllocError) => Err(Memory),
        }
    }
}

// The same roots, with the identities of their objects.
fn named_roots(alloc: Global, heap: &Heap, roots: &[Root]) -> Result<Vec<RootId>, AllocError>
    requires { All (λ root. has_object heap.now root.at ≡ true) roots.now }
    ensures { IfOk result (λ named. named.items ≡ map (root_named heap.now) roots.now) }
{
    let mut named = Vec::new(alloc);
    for root in roots {
        let id = heap.id(root.at);
        named.push(RootId {
            slot: root.slot,
            kind: root.kind,
            id,
        })?;
    }
    Ok(named)
}
