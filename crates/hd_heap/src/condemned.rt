// What a collection condemns: how much it is, and its objects region by region, by their headers.
ghost use Rattle.std.specs.Prelude.{◌≡◌, ◌+◌, ◌*◌, ◌<◌, true, MatchOption, option_map};
ghost use Rattle.std.specs.FinMap.{get};
ghost use Rattle.hd_model.specs.Heap.{is_in_use, is_set, region_generation};
ghost use Rattle.hd_heap.specs.declared.area.TheConstants.{CARDS};
ghost use Rattle.hd_heap.specs.Calls.{IsExtent, IsFirstIn, IsRegionWalk, region_reported};
ghost use Rattle.hd_heap.specs.Walks.{end_in};
ghost use Rattle.hd_heap.specs.Sound.{IsSound};

use crate::heap::{Heap, address_in, index_of};
use hd_cells::Region;
use hd_model::Addr;
use hd_model::limits::HEADER;
use std::marker::Model;
use std::snapshot::Snapshot;

/// What the header of an object says: where it begins, the number of its fields, and whether it is
/// registered for finalization.
#[derive(Clone, Copy, Debug, PartialEq, Eq)]
pub struct ObjectHeader {
    pub at: Addr,
    pub fields: u32,
    pub registered: bool,
}

/// What is condemned: how many objects, the cells that they take together, and the number of their
/// regions; beside it a number above that of each region in use.
#[derive(Clone, Copy, Debug, PartialEq, Eq)]
pub struct Extent {
    pub objects: u32,
    pub cells: u32,
    pub regions: u32,
    pub end: u32,
}

/// A region in use: its generation, and its allocation pointer, the offset of the first cell after
/// its last object.
#[derive(Clone, Copy, Debug, PartialEq, Eq)]
pub struct RegionInfo {
    pub generation: u8,
    pub fill: u32,
}

impl Heap {
    /// How much a collection of generation `n` condemns, by what is counted of each region. No
    /// object is looked at.
    pub fn extent(&self, n: u8) -> Extent
        ensures extent { IsExtent self.now n result }
        ensures sound { IsSound self.now }
    {
        let mut extent = Extent {
            objects: 0,
            cells: 0,
            regions: 0,
            end: self.areas.len() as u32 + 1,
        };
        for index in 0..self.areas.len() {
            let area = &self.areas[index];
            if area.has_condemned(n) {
                extent.objects += area.count;
                extent.cells += area.live;
                extent.regions += 1;
            }
        }
        extent
    }

    /// The first region past a number that has an object of no generation above `n`. No object is
    /// looked at.
    pub fn next_condemned_region(&self, after: u32, n: u8) -> Option<u32>
        ensures walk { IsRegionWalk self.now n after result }
        ensures sound { IsSound self.now }
    {
        for index in after as usize..self.areas.len() {
            if self.areas[index].has_condemned(n) {
                return Some(index as u32 + 1);
            }
        }
        None
    }

    /// The generation of a region in use.
    pub fn region_generation(&self, region: u32) -> u8
        requires { is_in_use self.now region ≡ true }
        ensures { result ≡ region_generation self.now region }
    {
        self.areas[index_of(region)].generation
    }

    /// A region in use, by its number; none where there is none in use of that number.
    pub fn region(&self, region: u32) -> Option<RegionInfo>
        ensures { option_map region_reported result ≡ get self.now.regions region }
    {
        // Read first for the proof: it gives the invariant where the call returns early.
        let regions = self.areas.len();
        if region == 0 {
            return None;
        }
        let index = index_of(region);
        if index >= regions {
            return None;
        }
        let area = &self.areas[index];
        if !area.held {
            return None;
        }
        Some(RegionInfo {
            generation: area.generation,
            fill: area.region.fill(),
        })
    }

    /// Whether a card of a region in use is set, by its number in the region.
    pub fn has_set_card(&self, region: u32, card: u32) -> bool
        requires region { is_in_use self.now region ≡ true }
        requires card { card < CARDS }
        ensures { result ≡ is_set self.now (region * CARDS + card) }
    {
        self.areas[index_of(region)].cards[card as usize]
    }

    /// A walk over the objects of a region in use.
    pub fn objects_of(&self, region: u32) -> RegionObjects<'_>
        requires { is_in_use self.now region ≡ true }
        ensures { result ≡ record { heap = self.now; region = region; end = 0 } }
    {
        RegionObjects {
            heap: Snapshot::of(self),
            region,
            objects: &self.areas[index_of(region)].region,
            end: 0,
        }
    }
}

/// A walk over the objects of one region of a heap, in rising address.
#[derive(Drop)]
pub struct RegionObjects<'h> {
    // The heap, for clauses alone.
    heap: Snapshot<Heap>,
    region: u32,
    objects: &'h Region,
    // Where the last object ends that was returned, in cells from the start of the region.
    end: u32,
}

impl<'h> Model for RegionObjects<'h> {
    ghost use Rattle.hd_heap.specs.{Walks.WalkOf, Walks.walk_code, Inside.IsWalkIn};

    ghost Value = { WalkOf };

    ghost coded = { walk_code };

    ghost view = { λ w. record { heap = w.heap.value; region = w.region; end = w.end } };

    ghost invariant = { λ w. IsWalkIn w.heap.value w.region w.end w.objects.now };
}

impl<'h> RegionObjects<'h> {
    /// The next object, as its header says.
    #[inline(always)]
    pub fn next(&mut self) -> Option<ObjectHeader>
        ensures next { IsFirstIn self.old.heap self.old.region self.old.end result }
        ensures after { MatchOption result (self.new ≡ self.old)
            (λ o. self.new ≡ record self.old { end = end_in self.old.region o }) }
    {
        let header = self.objects.object_from(self.end)?;
        self.end = header.at + header.fields + HEADER;
        Some(ObjectHeader {
            at: address_in(self.region, header.at),
            fields: header.fields,
            registered: header.registered,
        })
    }
}
