use crate::same::{same, same_at};
use hd_heap::{Heap, NewFault};
use hd_model::limits::FIELDS;
use hd_model::{Addr, Id};
use std::process::Abort;
use std::test::Fail;

// A new object. It has no clause, so that no test carries what the call promises.
fn new(rt: &impl Abort, heap: &mut Heap, id: u64, fields: u32) -> Result<Addr, NewFault> {
    assert!(rt; id > 0 && fields <= FIELDS);
    heap.new_object(Id(id), fields, false)
}

// The words and the objects of a heap, and the regions in use.
fn counts(heap: &Heap) -> (u32, u32, u32) {
    (heap.used(), heap.count(), heap.regions())
}

#[test]
fn a_fifth_object_of_61_fields_goes_to_a_second_region(rt: HostRuntime) -> Result<(), Fail> {
    let mut heap = Heap::open(rt.alloc(), 320)?;
    for (id, at) in [(1, 256), (2, 320), (3, 384), (4, 448), (5, 512)] {
        same_at(&rt, id, new(&rt, &mut heap, id, 61), Ok(Addr(at)));
    }
    same(&rt, counts(&heap), (320, 5, 2));
    let full = NewFault::Full { used: 320, size: 3 };
    same(&rt, new(&rt, &mut heap, 6, 0), Err(full));
    Ok(())
}
