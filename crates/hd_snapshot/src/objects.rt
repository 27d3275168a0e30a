// The objects of a store's heap, by rising identity.
ghost use Rattle.std.specs.Prelude.{◌≡◌, true, Some, map, option_map, Contains, IfOk};
ghost use Rattle.std.specs.List.Sorted.{IsPermutation, IsNonDecreasingBy};
ghost use Rattle.std.specs.FinMap.{entries};
ghost use Rattle.hd_model.specs.declared.data.Addr.{Addr as AddrValue};
ghost use Rattle.hd_model.specs.Heap.{HasIdentities, has_object, id_at, object_at};
ghost use Rattle.hd_model.specs.Scene.{fields_at};
ghost use Rattle.hd_store.specs.Reading.{objects_by_id};
ghost use Rattle.hd_seen.specs.Seen.{object_seen, object_shown};
ghost use Rattle.hd_snapshot.specs.Inside.{AreLocated, IsListing, IsWholeHeap, number_of, shown_at};
ghost use Rattle.hd_snapshot.specs.declared.objects.Located.{Located as LocatedValue};

use hd_heap::Heap;
use hd_model::{Addr, Id};
use hd_seen::SeenObject;
use hd_store::Store;
use std::alloc::{AllocError, Global};

/// An object, by its identity and its address.
#[derive(Clone, Copy)]
pub(crate) struct Located {
    pub(crate) id: Id,
    pub(crate) at: Addr,
}

/// The objects, reachable or not.
pub(crate) fn objects(alloc: Global, store: &Store) -> Result<Vec<SeenObject>, AllocError>
    ensures { let h = store.now.heap in IfOk result (λ seen.
        map object_shown seen.items ≡ map (object_seen h) (entries store.now.state.objects)) }
{
    objects_of(alloc, store.contents().heap())
}

// Those of a heap.
fn objects_of(alloc: Global, heap: &Heap) -> Result<Vec<SeenObject>, AllocError>
    requires identities { HasIdentities heap.now }
    requires whole { IsWholeHeap heap.now }
    ensures { let h = heap.now in IfOk result (λ seen.
        map object_shown seen.items ≡ map (object_seen h) (entries (objects_by_id h))) }
{
    let located = sorted(alloc, heap)?;
    all_seen(alloc, heap, &located)
}

// All of them by their identities, which rise.
fn sorted(alloc: Global, heap: &Heap) -> Result<Vec<Located>, AllocError>
    requires { HasIdentities heap.now }
    ensures { IfOk result (λ located. IsListing heap.now located.items) }
{
    let mut located = locate(alloc, heap)?;
    sort(&mut located);
    Ok(located)
}

// Puts them in the order of their identities.
fn sort(located: &mut Vec<Located>)
    ensures permutation { IsPermutation located.old.items located.new.items }
    ensures rising { IsNonDecreasingBy number_of located.new.items }
{
    located.sort_unstable_by_key(|object| object.id.0);
}

// All of them by their addresses, which rise.
fn locate(alloc: Global, heap: &Heap) -> Result<Vec<Located>, AllocError>
    requires { HasIdentities heap.now }
    ensures { IfOk result (λ located. AreLocated heap.now located.items) }
{
    let mut located = Vec::new(alloc);
    let mut after = None;
    'walk: while let Some(at) = heap.next(after) {
        let id = heap.id(at);
        located.push(Located { id, at })?;
        after = Some(at);
    }
    Ok(located)
}

// As they are seen, in the same order.
fn all_seen(alloc: Global, heap: &Heap, located: &[Located]) -> Result<Vec<SeenObject>, AllocError>
    requires objects { (o : LocatedValue) → Contains located.now o →
        has_object heap.now o.at ≡ true }
    requires whole { IsWholeHeap heap.now }
    ensures { let h = heap.now in IfOk result (λ seen.
        map object_shown seen.items ≡ map (λ (o : LocatedValue). shown_at h o.at) located.now) }
{
    let mut seen = Vec::new(alloc);
    for object in located {
        seen.push(seen_object(alloc, heap, object.at)?)?;
    }
    Ok(seen)
}

// One of them.
fn seen_object(alloc: Global, heap: &Heap, at: Addr) -> Result<SeenObject, AllocError>
    requires object { has_object heap.now at ≡ true }
    requires whole { IsWholeHeap heap.now }
    ensures { IfOk result (λ seen. object_shown seen ≡ shown_at heap.now at) }
{
    Ok(SeenObject {
        id: heap.id(at),
        at,
        generation: heap.generation(at),
        value: heap.value(at),
        registered: heap.registered(at),
        fields: fields_of(alloc, heap, at)?,
    })
}

// Its fields, by identity.
fn fields_of(alloc: Global, heap: &Heap, at: Addr) -> Result<Vec<Option<Id>>, AllocError>
    requires object { has_object heap.now at ≡ true }
    requires whole { IsWholeHeap heap.now }
    ensures { IfOk result (λ fields. fields.items ≡
        map (option_map (id_at heap.now)) (fields_at (object_at heap.now) at)) }
{
    let mut fields = Vec::new(alloc);
    for i in 0..heap.fields(at) {
        fields.push(named(heap, heap.load(at, i)))?;
    }
    Ok(fields)
}

// The identity of an object, or null.
fn named(heap: &Heap, referenced: Option<Addr>) -> Option<Id>
    requires { (y : AddrValue) → referenced ≡ Some y → has_object heap.now y ≡ true }
    ensures { result ≡ option_map (id_at heap.now) referenced }
{
    match referenced {
        Some(at) => Some(heap.id(at)),
        None => None,
    }
}
