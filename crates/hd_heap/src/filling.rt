// A new object with its value and its fields.
ghost use Rattle.std.specs.Prelude.{◌≡◌, ◌≢◌, ℕ, ◌+◌, ◌<◌, ◌≤◌, true, length, map, slice_index, slice_index_or};
ghost use Rattle.std.specs.Prelude.{None, Some, Contains, MatchOption};
ghost use Rattle.hd_cells.specs.Object.{with_field};
ghost use Rattle.hd_cells.specs.Region.{IsLaidOut, IsObject, fields_at, object_at, with_object, with_put};
ghost use Rattle.hd_model.specs.Heap.{has_object};
ghost use Rattle.hd_heap.specs.{Calls.filled_object, Calls.IsMade, Inside.region_filled, Inside.stored_target};

use crate::heap::{Heap, address_in};
use crate::notes::note;
use hd_cells::Region;
use hd_model::limits::{FIELDS, HEADER, REGION};
use hd_model::{Addr, Id};

/// Field `i` of an object, which is null, references the same as a reference. A null one leaves it.
#[inline(always)]
fn fill_field(region: &mut Region, at: u32, i: u32, v: Option<Addr>)
    requires laid_out { IsLaidOut region.old }
    requires object { IsObject region.old at }
    requires within { i < length (fields_at region.old at) }
    requires null { slice_index (fields_at region.old at) i ≡ 0 }
    ensures written { let after = with_field (object_at region.old at) i (stored_target v) in
        region.new ≡ with_object region.old at after }
    ensures laid_out { IsLaidOut region.new }
{
    match v {
        Some(target) => region.set_field(at, i, target.0),
        None => {}
    }
}

/// Gives an object, whose fields are null, its fields: field `i` is the target at `first + src[i]`.
#[inline(always)]
fn fill_fields(region: &mut Region, at: u32, targets: &[Option<Addr>], first: usize, src: &[u32])
    requires laid_out { IsLaidOut region.old }
    requires object { IsObject region.old at }
    requires number { length src.now ≡ length (fields_at region.old at) }
    requires null { (i : ℕ) → slice_index (fields_at region.old at) i ≡ 0 }
    requires few { length src.now ≤ FIELDS }
    requires sources { (i : ℕ) → i < length src.now
        → first + slice_index src.now i < length targets.now }
    ensures written { let after = record (object_at region.old at) {
      fields = map (λ i. stored_target (slice_index_or targets.now (first + i) None)) src.now;
    } in region.new ≡ with_object region.old at after }
    ensures laid_out { IsLaidOut region.new }
{
    for i in 0..src.len() as u32 {
        let from = first + src[i as usize] as usize;
        fill_field(region, at, i, targets[from]);
    }
}

/// Puts an object with a value and with its fields after all others of a region, and returns its
/// offset.
#[inline(always)]
pub(crate) fn put_filled(
    region: &mut Region,
    id: u64,
    value: u64,
    registered: bool,
    targets: &[Option<Addr>],
    first: usize,
    src: &[u32],
) -> u32
    requires identified { id ≢ 0 }
    requires few { length src.now ≤ FIELDS }
    requires sources { (i : ℕ) → i < length src.now
        → first + slice_index src.now i < length targets.now }
    requires room { region.old.fill + (length src.now + HEADER) ≤ REGION }
    ensures offset { result ≡ region.old.fill }
    ensures put { region.new
        ≡ with_put region.old (region_filled id value registered targets.now first src.now) }
    ensures laid_out { IsLaidOut region.new }
{
    let at = region.put_object(id, src.len() as u32, registered);
    region.set_value(at, value);
    fill_fields(region, at, targets, first, src);
    at
}

impl Heap {
    /// Makes an object as `put_in_current` does, with a value and with fields: field `i` is the
    /// target at `first + src[i]`. No card is set, since nothing is younger than a new object.
    #[inline(always)]
    pub fn put_filled(
        &mut self,
        id: Id,
        value: u64,
        registered: bool,
        targets: &[Option<Addr>],
        first: usize,
        src: &[u32],
    ) -> Option<Addr>
        requires identified { id.0 ≢ 0 }
        requires few_fields { length src.now ≤ FIELDS }
        requires sources { (i : ℕ) → i < length src.now
            → first + slice_index src.now i < length targets.now }
        requires objects { (y : Addr) → Contains targets.now (Some y)
            → has_object self.old y ≡ true }
        ensures { let o = filled_object id value registered targets.now first src.now in
            MatchOption result (self.new ≡ self.old) (λ at. IsMade self.old self.new at o) }
    {
        let cells = src.len() as u32 + HEADER;
        let region = self.current;
        if cells > self.left {
            return None;
        }
        // What is counted of the region, and of the heap, is not written side by side: the compiler
        // would add both as a vector, which takes longer.
        self.used += cells;
        note(&mut self.registering, registered);
        let index = (region - 1) as usize;
        let offset = self.areas[index].put_filled(id.0, value, registered, targets, first, src);
        self.count += 1;
        self.left -= cells;
        Some(address_in(region, offset))
    }
}
