ghost use Rattle.std.specs.Prelude.{◌≡◌, ◌+◌, ◌*◌, ◌^◌, ◌<◌, ◌≤◌, length, replicate, slice_set, IfOk};
ghost use Rattle.hd_model.specs.Heap.{region_of};
ghost use Rattle.hd_plan.specs.Inside.{first_at, forwarding_among, spot_in};

use hd_model::limits::REGION;
use hd_model::{Addr, Memory, filled};
use std::alloc::Global;

/// New addresses by old ones, found in constant time: each region that is listed has an entry for
/// each of its addresses.
#[derive(Drop)]
pub(crate) struct Forwards {
    // By region index, where the entries of a region are: 1 for the first region that is listed,
    // and so on; 0 for a region that is not listed.
    pub(crate) firsts: Vec<u32>,
    pub(crate) cells: Vec<Addr>,
}

/// The region index of an address.
#[tactic(auto, unfolding(hd_model::specs::Heap::region_of))]
pub(crate) fn region_number(at: Addr) -> u32
    ensures { result ≡ region_of at }
{
    at.0 / REGION
}

// The entry of an address in a region, by the position of the region in the list.
fn spot(first: u32, at: Addr) -> usize
    ensures { result ≡ spot_in first at }
{
    REGION as usize * first as usize + (at.0 % REGION) as usize
}

impl Forwards {
    /// Room for this number of regions, with indexes below `end`. None is listed. It takes memory,
    /// and time to fill it, for a number for each region below `end` and for an address for each
    /// cell of those that may be listed.
    pub(crate) fn open(alloc: Global, regions: u32, end: u32) -> Result<Forwards, Memory>
        ensures firsts { IfOk result (λ p. p.firsts.items ≡ replicate end 0) }
        ensures cells { IfOk result (λ p. length p.cells.items ≡ REGION * regions) }
    {
        let firsts = filled(alloc, 0, end)?;
        let mut cells = Vec::new(alloc);
        // Which address they have at first does not matter: each is put before it is read.
        match cells.resize(REGION as usize * regions as usize, Addr(REGION)) {
            Ok(()) => Ok(Forwards { firsts, cells }),
            Err(_) => Err(Memory),
        }
    }

    /// Lists a region as the `k`-th, from 0.
    pub(crate) fn list(&mut self, region: u32, k: u32)
        requires within { region < length self.old.firsts.items }
        requires number { k + 1 < 2 ^ 32 }
        ensures firsts { self.new.firsts.items ≡ slice_set self.old.firsts.items region (k + 1) }
        ensures cells { self.new.cells.items ≡ self.old.cells.items }
    {
        self.firsts[region as usize] = k + 1;
    }

    /// Gives an address in the `k`-th listed region its new address.
    pub(crate) fn put(&mut self, k: u32, at: Addr, to: Addr)
        requires room { spot_in k at < length self.old.cells.items }
        ensures firsts { self.new.firsts.items ≡ self.old.firsts.items }
        ensures cells { self.new.cells.items ≡ slice_set self.old.cells.items (spot_in k at) to }
    {
        self.cells[spot(k, at)] = to;
    }

    /// The new address of an address in a listed region; any other address is returned itself.
    pub(crate) fn forwarding_address(&self, at: Addr) -> Addr
        requires span { region_of at < length self.now.firsts.items }
        requires room { REGION * first_at self.now.firsts.items (region_of at)
            ≤ length self.now.cells.items }
        ensures { result ≡ forwarding_among self.now.firsts.items self.now.cells.items at }
    {
        let first = self.firsts[region_number(at) as usize];
        if first == 0 {
            return at;
        }
        self.cells[spot(first - 1, at)]
    }
}
