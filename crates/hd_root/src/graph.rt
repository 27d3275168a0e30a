// The objects of a heap as a graph, with fields and what dependent handles attach as its edges.
ghost use Rattle.std.specs.Prelude.{◌≡◌, ◌++◌, ◌<◌, ◌^◌, true, flat_map, IfOk};
ghost use Rattle.hd_model.specs.Heap.{has_object, object_at};
ghost use Rattle.hd_model.specs.Scene.{fields_at};
ghost use Rattle.hd_root.specs.Links.{Attaches};
ghost use Rattle.hd_root.specs.{Inside.HasListed, Inside.nodes_in, Search.address};

use crate::dependents::Dependents;
use hd_heap::Heap;
use hd_model::Addr;
use hd_seg::Seg;
use hd_walk::Edges;
use std::alloc::AllocError;

/// A heap and a table of handles, with the rows that attach something.
#[derive(Clone, Copy)]
pub(crate) struct Graph<'g> {
    pub(crate) heap: &'g Heap,
    pub(crate) seg: &'g Seg,
    pub(crate) dependents: &'g Dependents,
}

impl<'g> Edges for Graph<'g> {
    ghost use Rattle.hd_root.specs.Search.{EdgeBy, IsNode, in_any_order};

    ghost node = { λ g. IsNode g.heap.now g.seg.now g.dependents.now };

    ghost edge = { λ g. EdgeBy g.heap.now g.seg.now };

    ghost order = { in_any_order };

    fn list(&self, at: u64, targets: &mut Vec<u64>) -> Result<(), AllocError> {
        // This read gives the proof that addresses are small.
        let _count = self.heap.count();
        let from = address(at);
        list_fields(self.heap, from, targets)?;
        list_dependents(self.dependents, from, targets)
    }
}

// The address of a node.
fn address(at: u64) -> Addr
    requires { at < 2 ^ 32 }
    ensures { result ≡ address at }
{
    Addr(at as u32)
}

// Lists what fields of an object reference.
fn list_fields(heap: &Heap, from: Addr, targets: &mut Vec<u64>) -> Result<(), AllocError>
    requires { has_object heap.now from ≡ true }
    ensures { let fields = fields_at (object_at heap.now) from in
        IfOk result (λ _. targets.new.items ≡ targets.old.items ++ flat_map nodes_in fields) }
{
    let fields = heap.fields_of(from);
    for i in 0..fields.number() {
        push_field(targets, fields.load(i))?;
    }
    Ok(())
}

// Lists what a field references, if anything.
fn push_field(targets: &mut Vec<u64>, to: Option<Addr>) -> Result<(), AllocError>
    ensures { IfOk result (λ _. targets.new.items ≡ targets.old.items ++ nodes_in to) }
{
    if let Some(to) = to {
        targets.push(u64::from(to.0))?;
    }
    Ok(())
}

// Lists what dependent handles attach to an object.
fn list_dependents(
    dependents: &Dependents,
    from: Addr,
    targets: &mut Vec<u64>,
) -> Result<(), AllocError>
    ensures { IfOk result (λ _. HasListed (λ y. Attaches dependents.now from (address y))
        targets.old.items targets.new.items) }
{
    let mut next = dependents.last(from);
    while let Some(i) = next {
        let link = dependents.get(i);
        targets.push(u64::from(link.secondary.0))?;
        next = link.before;
    }
    Ok(())
}
