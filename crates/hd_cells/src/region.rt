// A region, seen by its callers as a map from offset to object and an allocation pointer.
ghost use Rattle.std.specs.Prelude.{◌≡◌, ◌≢◌, ◌↔◌, ◌+◌, ◌<◌, ◌≤◌, IsTrue, length, slice_index};
ghost use Rattle.std.specs.FinMap as map;
ghost use Rattle.hd_cells.specs.Object.{new_object, size_of, with_field, with_registered, with_value};
ghost use Rattle.hd_cells.specs.Region.{empty_region, IsFirstFrom, IsLaidOut, IsObject};
ghost use Rattle.hd_cells.specs.Region.{fields_at, object_at, with_object, with_put};
ghost use Rattle.hd_cells.specs.Region.{without_object};
ghost use Rattle.hd_cells.specs.Headers.{IsEnd, IsHeader, IsHeaderFrom};
ghost use Rattle.hd_cells.specs.Inside.{HoldsObject};

use crate::cells::{
    CELLS, FIELDS, HEADER, NONE, PARTS, REGISTERED, SHAPE, VALUE, clear, copy, extent, first_from,
    no_starts, part_of, shape,
};
use std::marker::Model;

/// A region of 256 cells of 64 bits (2 KiB), with its allocation pointer and with the offset of the
/// object that begins in each three cells. Offsets and sizes are in cells.
#[derive(Drop)]
pub struct Region {
    cells: [u64; CELLS],
    starts: [u8; PARTS],
    fill: u32,
    // Above the allocation pointer, the cells below this may have what objects that were taken out
    // left; all others are 0.
    stale: u32,
}

/// What the header of an object says: its offset, the number of its fields, and whether it is
/// registered for finalization.
#[derive(Clone, Copy, Debug, PartialEq, Eq)]
pub struct Header {
    pub at: u32,
    pub fields: u32,
    pub registered: bool,
}

// Callers see the objects by their offsets and the allocation pointer, but no cells and no gaps.
impl Model for Region {
    ghost use Rattle.hd_cells.specs.Region.{Contents, contents_code};
    ghost use Rattle.hd_cells.specs.{Inside.IsWhole, Cells.contents_of};

    ghost Value = { Contents };

    ghost coded = { contents_code };

    ghost view = { λ r. contents_of r.cells r.fill };

    ghost invariant = { λ r. IsWhole r.cells r.fill r.starts r.stale };
}

impl Region {
    /// A region without objects.
    pub fn empty() -> Region
        ensures empty { result ≡ empty_region }
        ensures laid_out { IsLaidOut result }
    {
        Region {
            cells: [0; CELLS],
            starts: no_starts(),
            fill: 0,
            stale: 0,
        }
    }

    /// Takes all objects out. No cell is written.
    pub fn reset(&mut self)
        ensures empty { self.new ≡ empty_region }
        ensures laid_out { IsLaidOut self.new }
    {
        self.stale = self.stale.max(self.fill);
        self.starts = no_starts();
        self.fill = 0;
    }

    /// The allocation pointer: the first cell after the last object put. It never falls.
    pub fn fill(&self) -> u32
        ensures value { result ≡ self.now.fill }
        ensures laid_out { IsLaidOut self.now }
    {
        self.fill
    }

    /// Puts an object with null fields and value 0 after all others, and returns its offset. It
    /// takes three cells more than it has fields. After `reset` the first one clears what the cells
    /// had; no other writes its fields.
    #[inline(always)]
    pub fn put_object(&mut self, id: u64, fields: u32, registered: bool) -> u32
        requires identified { id ≢ 0 }
        requires few_fields { fields ≤ FIELDS }
        requires room { self.old.fill + fields + HEADER ≤ CELLS }
        ensures offset { result ≡ self.old.fill }
        ensures was_free { map.get self.old.objects result ≡ None }
        ensures put { self.new ≡ with_put self.old (new_object id fields registered) }
        ensures laid_out { IsLaidOut self.new }
    {
        let at = self.fill;
        clear(&mut self.cells, at as usize, self.stale as usize);
        self.stale = 0;
        self.cells[at as usize] = id;
        self.cells[at as usize + SHAPE] = shape(u64::from(fields), registered);
        self.starts[part_of(at as usize)] = at as u8;
        self.fill = at + fields + HEADER as u32;
        at
    }

    /// Puts a copy of an object of another region after all others, and returns its offset.
    pub fn put_copy(&mut self, source: &Region, from: u32) -> u32
        requires object { IsObject source.now from }
        requires room { self.old.fill + size_of (object_at source.now from) ≤ CELLS }
        ensures offset { result ≡ self.old.fill }
        ensures was_free { map.get self.old.objects result ≡ None }
        ensures put { self.new ≡ with_put self.old (object_at source.now from) }
        ensures laid_out { IsLaidOut self.new }
    {
        let at = self.fill;
        let fields = source.fields(from);
        copy(
            source.object(from),
            &mut self.cells,
            at as usize,
            fields as usize,
        );
        self.starts[part_of(at as usize)] = at as u8;
        self.fill = at + fields + HEADER as u32;
        at
    }

    /// Whether an object begins at `at`, which may be any number.
    pub fn is_object(&self, at: u32) -> bool
        ensures { IsTrue result ↔ IsObject self.now at }
    {
        // Borrowed first for the proof: it gives the invariant where `at` is too large.
        let starts = &self.starts;
        let at = at as usize;
        if at > CELLS - HEADER {
            return false;
        }
        usize::from(starts[part_of(at)]) == at
    }

    /// The identity of the object at `at`.
    pub fn id(&self, at: u32) -> u64
        requires { IsObject self.now at }
        ensures identity { result ≡ (object_at self.now at).identity }
        ensures never_zero { result ≢ 0 }
    {
        self.object(at)[0]
    }

    /// The number of fields of the object at `at`.
    pub fn fields(&self, at: u32) -> u32
        requires { IsObject self.now at }
        ensures count { result ≡ length (fields_at self.now at) }
        ensures few { result ≤ FIELDS }
    {
        (self.object(at)[SHAPE] % REGISTERED) as u32
    }

    /// The value of the object at `at`.
    pub fn value(&self, at: u32) -> u64
        requires { IsObject self.now at }
        ensures { result ≡ (object_at self.now at).value }
    {
        self.object(at)[VALUE]
    }

    /// Gives the object at `at` another value.
    pub fn set_value(&mut self, at: u32, v: u64)
        requires { IsObject self.old at }
        ensures written { self.new
            ≡ with_object self.old at (with_value (object_at self.old at) v) }
        ensures laid_out { IsLaidOut self.new }
    {
        let index = at as usize + VALUE;
        self.cells[index] = v;
    }

    /// Whether the object at `at` is registered for finalization.
    pub fn registered(&self, at: u32) -> bool
        requires { IsObject self.now at }
        ensures { result ≡ (object_at self.now at).registered }
    {
        self.object(at)[SHAPE] >= REGISTERED
    }

    /// Registers the object at `at` for finalization, or takes its registration away. It may be so
    /// already.
    pub fn set_registered(&mut self, at: u32, on: bool)
        requires { IsObject self.old at }
        ensures written { let after = with_registered (object_at self.old at) on in
            self.new ≡ with_object self.old at after }
        ensures laid_out { IsLaidOut self.new }
    {
        let index = at as usize + SHAPE;
        let fields = self.cells[index] % REGISTERED;
        self.cells[index] = shape(fields, on);
    }

    /// Field `i` of the object at `at`, counted from 0: an address, or 0 for null.
    pub fn field(&self, at: u32, i: u32) -> u32
        requires object { IsObject self.now at }
        requires within { i < length (fields_at self.now at) }
        ensures { result ≡ slice_index (fields_at self.now at) i }
    {
        self.object(at)[HEADER + i as usize] as u32
    }

    /// Writes an address, or 0 for null, into field `i` of the object at `at`. The address is not
    /// checked.
    pub fn set_field(&mut self, at: u32, i: u32, v: u32)
        requires object { IsObject self.old at }
        requires within { i < length (fields_at self.old at) }
        ensures written { let after = with_field (object_at self.old at) i v in
            self.new ≡ with_object self.old at after }
        ensures laid_out { IsLaidOut self.new }
    {
        let index = at as usize + HEADER + i as usize;
        self.cells[index] = u64::from(v);
    }

    /// Removes the object at `at`. Its cells become a gap, which is never used again.
    pub fn remove(&mut self, at: u32)
        requires { IsObject self.old at }
        ensures removed { self.new ≡ without_object self.old at }
        ensures laid_out { IsLaidOut self.new }
    {
        let at = at as usize;
        let fields = self.cells[at + SHAPE] % REGISTERED;
        self.cells[at] = 0;
        self.cells[at + SHAPE] = fields + HEADER as u64;
        self.starts[part_of(at)] = NONE;
    }

    /// The offset of the first object at or after `from`, which may be any number. Takes time by
    /// the objects and gaps before it, and constant time past the allocation pointer.
    pub fn walk(&self, from: u32) -> Option<u32>
        ensures first { IsFirstFrom self.now from result }
        ensures laid_out { IsLaidOut self.now }
    {
        if from >= self.fill {
            return None;
        }
        first_from(&self.cells, self.fill, 0, from as usize)
    }

    /// The offset of the first object after the one at `at`. Takes time by the gaps between them.
    pub fn after(&self, at: u32) -> Option<u32>
        requires { IsObject self.now at }
        ensures first { IsFirstFrom self.now (at + 1) result }
        ensures laid_out { IsLaidOut self.now }
    {
        let next = at as usize + extent(&self.cells, at as usize);
        first_from(&self.cells, self.fill, next, at as usize + 1)
    }

    /// The first object at or after `end`, and what its header says. `end` is 0, or where another
    /// object ends. Takes time by the gaps between them.
    #[inline(always)]
    pub fn object_from(&self, end: u32) -> Option<Header>
        requires { IsEnd self.now end }
        ensures { IsHeaderFrom self.now end result }
    {
        if end < self.fill && self.cells[end as usize] != 0 {
            return Some(self.header(end));
        }
        let at = self.object_past(end)?;
        Some(self.header(at))
    }

    /// Its offset alone. Out of line, since there is mostly no gap where an object ends.
    #[inline(never)]
    fn object_past(&self, end: u32) -> Option<u32>
        requires { IsEnd self.now end }
        ensures { IsFirstFrom self.now end result }
    {
        first_from(&self.cells, self.fill, end as usize, end as usize)
    }

    /// What the header of the object at `at` says.
    #[inline(always)]
    fn header(&self, at: u32) -> Header
        requires { IsObject self.now at }
        ensures { IsHeader self.now at result }
    {
        let shape = self.object(at)[SHAPE];
        Header {
            at,
            fields: (shape % REGISTERED) as u32,
            registered: shape >= REGISTERED,
        }
    }

    /// The cells from the object at `at` on.
    fn object(&self, at: u32) -> &[u64]
        requires { IsObject self.now at }
        ensures { HoldsObject result.now (object_at self.now at) }
    {
        &self.cells[at as usize..]
    }
}
