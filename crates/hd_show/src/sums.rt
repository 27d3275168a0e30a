// Objects, cells and pinned objects by region.
ghost use Rattle.std.specs.Prelude.{◌≡◌, ℕ, nat_eq, count_by, if◌then◌else◌, sum_by, IfOk};
ghost use Rattle.std.specs.HashSet.{contains};
ghost use Rattle.hd_seen.specs.Seen.{view_seen};
ghost use Rattle.hd_show.specs.Inside.{tally_at};
ghost use Rattle.hd_show.specs.{Inside.cells_seen_in, Inside.is_marked, Inside.regions_by, Inside.seen_in, Heaps.regions_of};

use crate::pins::pinned_objects;
use crate::tally::{Tally, plus};
use hd_model::Memory;
use hd_model::limits::{HEADER, REGION};
use hd_seen::{SeenObject, Snapshot};
use std::alloc::Global;
use std::collections::HashSet;

/// How many objects and cells there are in each region, and how many pinned objects.
#[derive(Drop)]
pub(crate) struct RegionSums {
    objects: Tally,
    cells: Tally,
    pinned: Tally,
}

impl RegionSums {
    /// Counts those of a snapshot.
    pub(crate) fn of(alloc: Global, seen: &Snapshot) -> Result<RegionSums, Memory>
        ensures { IfOk result (λ sums. regions_by sums ≡ regions_of (view_seen seen.now)) }
    {
        let marks = pinned_objects(alloc, &seen.handles)?;
        let objects = count_objects(alloc, &seen.objects)?;
        let cells = sum_cells(alloc, &seen.objects)?;
        let pinned = count_pinned(alloc, &seen.objects, &marks)?;
        Ok(RegionSums {
            objects,
            cells,
            pinned,
        })
    }

    /// The number of objects in a region.
    pub(crate) fn objects(&self, region: u32) -> u64
        ensures { result ≡ (regions_by self.now).objects region }
    {
        self.objects.at(u64::from(region))
    }

    /// The cells of the objects in a region.
    pub(crate) fn cells(&self, region: u32) -> u64
        ensures { result ≡ (regions_by self.now).cells region }
    {
        self.cells.at(u64::from(region))
    }

    /// The number of pinned objects in a region.
    pub(crate) fn pinned(&self, region: u32) -> u64
        ensures { result ≡ (regions_by self.now).pinned region }
    {
        self.pinned.at(u64::from(region))
    }
}

// Counts objects by region.
fn count_objects(alloc: Global, objects: &[SeenObject]) -> Result<Tally, Memory>
    ensures { IfOk result (λ tally. (k : ℕ) → tally_at tally k ≡ count_by (seen_in k) objects.now) }
{
    let mut tally = Tally::open(alloc);
    for object in objects {
        tally.add(object.at.0 / REGION, 1)?;
    }
    Ok(tally)
}

// Adds up the cells of objects by region.
fn sum_cells(alloc: Global, objects: &[SeenObject]) -> Result<Tally, Memory>
    ensures { IfOk result (λ tally. (k : ℕ) →
        tally_at tally k ≡ sum_by (cells_seen_in k) objects.now) }
{
    let mut tally = Tally::open(alloc);
    for object in objects {
        let cells = plus(object.fields.len() as u64, u64::from(HEADER))?;
        tally.add(object.at.0 / REGION, cells)?;
    }
    Ok(tally)
}

// Counts the objects by region that have a mark.
fn count_pinned(
    alloc: Global,
    objects: &[SeenObject],
    marks: &HashSet<u64>,
) -> Result<Tally, Memory>
    ensures { IfOk result (λ tally. (k : ℕ) →
        tally_at tally k ≡ count_by (is_marked (contains nat_eq marks.now) k) objects.now) }
{
    let mut tally = Tally::open(alloc);
    for object in objects {
        tally.add(object.at.0 / REGION, mark_of(marks, object.id.0))?;
    }
    Ok(tally)
}

// The number of marks of an object: one at most.
fn mark_of(marks: &HashSet<u64>, id: u64) -> u64
    ensures { result ≡ (if contains nat_eq marks.now id then 1 else 0) }
{
    if marks.contains(&id) { 1 } else { 0 }
}
