// The condemned regions of a heap: their indices among themselves.
ghost use Rattle.std.specs.Prelude.{◌≡◌, ◌<◌, length, IfOk};
ghost use Rattle.hd_model.specs.Heap.{region_of};
ghost use Rattle.hd_heap.specs.Calls.{IsExtent};
ghost use Rattle.hd_mark.specs.Inside.{bit_of, index_at, IsTable, HasIndexes};

use hd_heap::{Extent, Heap};
use hd_model::limits::REGION;
use hd_model::{Addr, Memory, filled};
use std::alloc::Global;

/// The indices of condemned regions among themselves, by the number of the region. An older region
/// has none.
#[derive(Drop)]
pub(crate) struct Indexes {
    pub(crate) indexes: Vec<u32>,
    pub(crate) regions: u32,
}

impl Indexes {
    /// Gives an index to each region that has an object of no generation above `n`. It takes memory
    /// for a number for each region of the heap, and time by these regions. No object is looked at,
    /// and no region where nothing is condemned.
    #[tactic(auto, unfolding(hd_model::specs::Heap::region_of))]
    pub(crate) fn of(alloc: Global, heap: &Heap, n: u8, extent: Extent) -> Result<Indexes, Memory>
        requires extent { IsExtent heap.now n extent }
        ensures { IfOk result (HasIndexes heap.now n) }
    {
        let mut indexes = filled(alloc, 0, extent.end)?;
        if extent.regions == 0 {
            return Ok(Indexes {
                indexes,
                regions: 0,
            });
        }
        let mut regions = 1;
        // The result is not used: the call states to the proof what every heap keeps.
        let _held = heap.regions();
        let mut after = 0;
        while let Some(region) = heap.next_condemned_region(after, n) {
            indexes[region as usize] = regions;
            regions += 1;
            after = region;
        }
        Ok(Indexes { indexes, regions })
    }

    /// The index of a region, which may be any number, if it is condemned.
    pub(crate) fn index(&self, region: u32) -> Option<u32>
        ensures { result ≡ index_at self.now.indexes.items region }
    {
        if region as usize >= self.indexes.len() {
            return None;
        }
        match self.indexes[region as usize] {
            0 => None,
            index => Some(index),
        }
    }

    /// The number of the bit of an address, if it lies in a condemned region.
    #[tactic(auto, unfolding(hd_model::specs::Heap::region_of))]
    pub(crate) fn bit(&self, at: Addr) -> Option<u32>
        requires table { IsTable self.now.indexes.items self.now.regions }
        requires span { region_of at < length self.now.indexes.items }
        ensures { result ≡ bit_of self.now.indexes.items at }
    {
        match self.indexes[(at.0 / REGION) as usize] {
            0 => None,
            index => Some(index * REGION + at.0 % REGION),
        }
    }
}
