// A linked list on a heap whose objects may have 20 cells in all: nodes are put until one is
// refused, all of them are printed, and the first is removed.
ghost use Rattle.std.specs.Prelude.{◌≡◌, ◌≢◌, true, IfOk, IfSome};
ghost use Rattle.hd_model.specs.Heap.{has_object};

use hd_heap::{Heap, NewFault};
use hd_model::{Addr, Id};
use std::alloc::{AllocError, Global};
use std::io;

// The cells of all objects together, at most. A node has 4: three of each object, and its field.
const LIMIT: u32 = 20;

// Puts a node with a value, whose field references another node or is null.
fn put_node(heap: &mut Heap, id: Id, value: u64, next: Option<Addr>) -> Result<Addr, NewFault>
    requires id { id.0 ≢ 0 }
    requires next { IfSome next (λ node. has_object heap.old node ≡ true) }
    ensures { IfOk result (λ node. has_object heap.new node ≡ true) }
{
    let node = heap.new_object(id, 1, false)?;
    heap.store(node, 0, next);
    heap.set_value(node, value);
    Ok(node)
}

// Puts up to 100 nodes, each of which references the one before it.
fn put_nodes(heap: &mut Heap) -> Result<(), NewFault> {
    let mut last = None;
    for number in 1..101 {
        last = Some(put_node(heap, Id(number), 10 * number, last)?);
    }
    Ok(())
}

// Prints each object in rising address, with its value and what its fields reference.
fn print_objects(rt: &impl Print, heap: &Heap) -> io::Result<()> {
    let mut after = None;
    for _object in 0..heap.count() {
        let Some(at) = heap.next(after) else {
            break;
        };
        let (id, value) = (heap.id(at).0, heap.value(at));
        print!(rt; "{}: identity {id}, value {value}", at.0)?;
        for i in 0..heap.fields(at) {
            match heap.load(at, i) {
                Some(target) => print!(rt; ", field {i} references {}", target.0)?,
                None => print!(rt; ", field {i} is null")?,
            }
        }
        println!(rt)?;
        after = Some(at);
    }
    Ok(())
}

fn print_counts(rt: &impl Print, heap: &Heap) -> io::Result<()> {
    let (objects, cells, regions) = (heap.count(), heap.used(), heap.regions());
    println!(rt; "objects {objects}, their cells {cells}, regions in use {regions}")
}

/// Puts the nodes, prints them, and removes the first.
pub(crate) fn run(rt: &impl Print, alloc: Global) -> io::Result<()> {
    let Ok(mut heap) = Heap::open(alloc, LIMIT) else {
        return Err(AllocError.into());
    };
    if let Err(fault) = put_nodes(&mut heap) {
        println!(rt; "no more nodes: {fault:?}")?;
    }
    print_objects(rt, &heap)?;
    print_counts(rt, &heap)?;
    if let Some(first) = heap.next(None) {
        heap.remove(first);
    }
    print_counts(rt, &heap)
}
