// Whether a state meets what a collection asks of it.
ghost use Rattle.std.specs.Prelude.{◌≡◌, ◌≢◌, ℕ, ◌*◌, ◌<◌, ◌≤◌, true, Some, None, length, Contains};
ghost use Rattle.hd_model.specs.declared.data.Addr.{Addr};
ghost use Rattle.hd_model.specs.State.{Handle, secondary_of};
ghost use Rattle.hd_model.specs.Handles.{extra_of};
ghost use Rattle.hd_model.specs.Heap.{has_object, object_at, id_at};
ghost use Rattle.hd_model.specs.Table.{row_at};
ghost use Rattle.hd_rows.specs.Inside.{HasNullFields, IsBare, IsAlone, AreAlone, IsPlain, ArePlain};

use hd_ages::AgeMap;
use hd_heap::Heap;
use hd_model::limits::{CLUMP, CLUMPS, ROWS};
use hd_model::{Addr, Slot};
use hd_seg::{Extra, Seg};

/// Whether there is an object at an address.
pub(crate) fn is_object_at(heap: &Heap, at: Addr) -> bool
    ensures { result ≡ true → has_object heap.now at ≡ true }
{
    if at.0 == 0 {
        return false;
    }
    match heap.next(Some(Addr(at.0 - 1))) {
        Some(found) => found.0 == at.0,
        None => false,
    }
}

// Whether all fields of an object are null.
fn names_nothing(heap: &Heap, at: Addr) -> bool
    requires { has_object heap.now at ≡ true }
    ensures { result ≡ true → HasNullFields heap.now at }
{
    for i in 0..heap.fields(at) {
        if heap.load(at, i).is_some() {
            return false;
        }
    }
    true
}

/// Whether all fields are null.
pub(crate) fn is_bare(heap: &Heap) -> bool
    ensures { result ≡ true → IsBare heap.now }
{
    let mut after = None;
    while let Some(at) = heap.next(after) {
        if !names_nothing(heap, at) {
            return false;
        }
        after = Some(at);
    }
    true
}

// Whether no object after this one has its identity.
fn is_alone(heap: &Heap, at: Addr) -> bool
    requires { has_object heap.now at ≡ true }
    ensures { result ≡ true → IsAlone heap.now at }
{
    let mut after = at;
    while let Some(other) = heap.next(Some(after)) {
        if heap.id(other) == heap.id(at) {
            return false;
        }
        after = other;
    }
    true
}

/// Whether no two objects have one identity.
pub(crate) fn are_alone(heap: &Heap) -> bool
    ensures { result ≡ true → AreAlone heap.now }
{
    let mut after = None;
    while let Some(at) = heap.next(after) {
        if !is_alone(heap, at) {
            return false;
        }
        after = Some(at);
    }
    true
}

// Whether an extra is no secondary.
fn is_single(extra: Extra<Addr>) -> bool
    ensures { result ≡ true → secondary_of (extra_of extra) ≡ None }
{
    match extra {
        Extra::Secondary(_) => false,
        Extra::Nothing | Extra::Strength(_) | Extra::Count(_) => true,
    }
}

// Whether a slot is vacant, or its row is a plain one.
fn is_plain(heap: &Heap, seg: &Seg, ages: &AgeMap, slot: u32) -> bool
    ensures { result ≡ true → (row : Handle Addr) → row_at seg.now slot ≡ Some row →
        IsPlain heap.now ages.now slot row }
{
    let Some(row) = seg.row(Slot(slot)) else {
        return true;
    };
    if !is_single(row.extra) {
        return false;
    }
    let Some(at) = row.target else {
        return true;
    };
    if slot < ROWS || slot / ROWS > ages.blocks() || !is_object_at(heap, at) {
        return false;
    }
    ages.age(slot / ROWS, slot % ROWS / CLUMP) <= heap.generation(at)
}

/// Whether all rows are plain ones.
pub(crate) fn are_plain(heap: &Heap, seg: &Seg, ages: &AgeMap) -> bool
    requires { length ages.now ≡ CLUMPS * seg.now.blocks }
    ensures { result ≡ true → ArePlain heap.now seg.now ages.now }
{
    // Read for the proof alone: a live row is in one of the table's blocks.
    let _ = seg.given();
    for slot in 0..ROWS * (ages.blocks() + 1) {
        if !is_plain(heap, seg, ages, slot) {
            return false;
        }
    }
    true
}

/// Whether each root is null or an object.
pub(crate) fn roots_are_objects(heap: &Heap, roots: &[Option<Addr>]) -> bool
    ensures { result ≡ true → (x : Addr) → Contains roots.now (Some x) →
        has_object heap.now x ≡ true }
{
    for root in roots {
        if let Some(at) = *root {
            if !is_object_at(heap, at) {
                return false;
            }
        }
    }
    true
}
