// The cells of a region: the parts of an object, and the cells that an object or gap takes.

ghost use Rattle.std.specs.Prelude.{◌≡◌, ℕ, ◌+◌, ◌/◌, ◌<◌, ◌≤◌, if◌then◌else◌, length, slice_index};
ghost use Rattle.hd_cells.specs.{Cells.extent_at, Inside.IsReached, Inside.IsFirstIn};

/// The number of cells of a region.
pub const CELLS: usize = 256;

/// The largest number of fields of an object.
pub const FIELDS: u32 = 61;

/// The number of cells of an object before its fields.
pub const HEADER: usize = 3;

/// The number of parts of a region. At most one object begins in each, since an object takes three
/// cells or more.
pub(crate) const PARTS: usize = 86;

/// The entry of a part in which no object begins.
pub(crate) const NONE: u8 = 255;

/// From an object's first cell, its identity, to the cell with the number of its fields and its
/// registration. In a gap that cell is the gap's length.
pub(crate) const SHAPE: usize = 1;

/// From an object's first cell to its value.
pub(crate) const VALUE: usize = 2;

/// What is added to the number of fields where the object is registered for finalization.
pub(crate) const REGISTERED: u64 = 256;

/// The part of a region that a cell is in.
pub(crate) fn part_of(at: usize) -> usize
    ensures { result ≡ at / HEADER }
{
    at / HEADER
}

/// The entries of a region without objects.
pub(crate) fn no_starts() -> [u8; PARTS]
    ensures { (k : ℕ) → k < PARTS → slice_index result k ≡ NONE }
{
    [NONE; PARTS]
}

/// The number of fields and the registration of an object, as one cell.
pub(crate) fn shape(fields: u64, registered: bool) -> u64
    requires { fields < REGISTERED }
    ensures { result ≡ (if registered then fields + REGISTERED else fields) }
{
    if registered {
        fields + REGISTERED
    } else {
        fields
    }
}

/// Writes 0 into the cells from one offset up to another, if there are any.
pub(crate) fn clear(cells: &mut [u64; CELLS], from: usize, to: usize)
    requires { to ≤ CELLS }
    ensures cleared { (k : ℕ) → from ≤ k → k < to → slice_index cells.new k ≡ 0 }
    ensures before { (k : ℕ) → k < from → slice_index cells.new k ≡ slice_index cells.old k }
    ensures after { (k : ℕ) → to ≤ k → slice_index cells.new k ≡ slice_index cells.old k }
{
    for k in from..to {
        cells[k] = 0;
    }
}

/// Copies an object of this number of fields into the cells from an offset on.
pub(crate) fn copy(object: &[u64], cells: &mut [u64; CELLS], at: usize, fields: usize)
    requires room { at + HEADER + fields ≤ CELLS }
    requires source { HEADER + fields ≤ length object.now }
    ensures copied { (k : ℕ) → k < HEADER + fields →
        slice_index cells.new (at + k) ≡ slice_index object.now k }
    ensures before { (k : ℕ) → k < at → slice_index cells.new k ≡ slice_index cells.old k }
    ensures after { (k : ℕ) → at + HEADER + fields ≤ k →
        slice_index cells.new k ≡ slice_index cells.old k }
{
    // Most objects have few fields: their header is copied without a loop.
    cells[at] = object[0];
    cells[at + SHAPE] = object[SHAPE];
    cells[at + VALUE] = object[VALUE];
    for i in 0..fields {
        cells[at + HEADER + i] = object[HEADER + i];
    }
}

/// The number of cells of the object or gap that begins at `at`.
#[tactic(auto, unfolding(crate::specs::Cells::extent_at))]
pub(crate) fn extent(cells: &[u64; CELLS], at: usize) -> usize
    requires { at + SHAPE < CELLS }
    ensures { result ≡ extent_at cells.now at }
{
    let shape = cells[at + SHAPE];
    if cells[at] == 0 {
        shape as usize
    } else {
        (shape % REGISTERED) as usize + HEADER
    }
}

/// The offset of the first object at or after `from`. The search begins at `start`, where an object
/// or gap begins and before which there is no such object, and goes on by whole objects and gaps.
pub(crate) fn first_from(cells: &[u64; CELLS], fill: u32, start: usize, from: usize) -> Option<u32>
    requires within { fill ≤ CELLS }
    requires reached { IsReached cells.now fill from start }
    ensures { IsFirstIn cells.now fill from result }
{
    let mut at = start;
    while at < fill as usize {
        if at >= from && cells[at] != 0 {
            return Some(at as u32);
        }
        at += extent(cells, at);
    }
    None
}
