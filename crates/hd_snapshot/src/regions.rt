// The regions of a store's heap, by rising number.
ghost use Rattle.std.specs.Prelude.{◌≡◌, true, option_map, IfOk};
ghost use Rattle.std.specs.FinMap.{get};
ghost use Rattle.hd_model.specs.Heap.{is_in_use};
ghost use Rattle.hd_plan.specs.Plan.{HasNoEmptyRegion};
ghost use Rattle.hd_seen.specs.Seen.{region_seen, regions_seen, set_cards};
ghost use Rattle.hd_snapshot.specs.Laws.{IsParted};
ghost use Rattle.hd_snapshot.specs.Taken.{picture_of};

use crate::growing::add;
use hd_heap::Heap;
use hd_model::limits::{CARD, OLDEST, REGION};
use hd_seen::SeenRegion;
use hd_store::Store;
use std::alloc::{AllocError, Global};

/// The regions in use.
pub(crate) fn regions(alloc: Global, store: &Store) -> Result<Vec<SeenRegion>, AllocError>
    ensures { IfOk result (λ seen. seen.items ≡ regions_seen store.now.heap) }
{
    regions_of(alloc, store.contents().heap())
}

/// Each of them is of a generation up to the oldest, and each object is in exactly one.
pub(crate) fn part(store: &Store)
    ensures { IsParted (picture_of store.now) }
{
    // For the proof: the store's state is one over its heap, which is sound.
    let contents = store.contents();
    let _count = contents.heap().count();
}

// Those of a heap.
fn regions_of(alloc: Global, heap: &Heap) -> Result<Vec<SeenRegion>, AllocError>
    requires { HasNoEmptyRegion heap.now }
    ensures { IfOk result (λ seen. seen.items ≡ regions_seen heap.now) }
{
    let mut seen = Vec::new(alloc);
    for number in 0..heap.extent(OLDEST).end {
        let region = region_at(heap, number);
        add(&mut seen, region)?;
    }
    Ok(seen)
}

// A region, if it is in use.
fn region_at(heap: &Heap, number: u32) -> Option<SeenRegion>
    ensures { result ≡
        option_map (λ r. region_seen heap.now (number, r)) (get heap.now.regions number) }
{
    let info = heap.region(number)?;
    Some(SeenRegion {
        number,
        generation: info.generation,
        pointer: info.fill,
        cards: set_cards(heap, number),
    })
}

// How many cards of a region in use are set.
fn set_cards(heap: &Heap, number: u32) -> u32
    requires { is_in_use heap.now number ≡ true }
    ensures { result ≡ set_cards heap.now number }
{
    let mut cards = 0;
    for card in 0..REGION / CARD {
        if heap.has_set_card(number, card) {
            cards += 1;
        }
    }
    cards
}
