ghost use Rattle.std.specs.Prelude.{◌≡◌, ◌≤◌, ◌*◌, ◌+◌, replicate, IfOk, MatchOption};
ghost use Rattle.hd_model.specs.State.{Numbers, start_of};
ghost use Rattle.hd_host.specs.{Changes.no_change, Handles.IsOf, Handles.IsStale};

use crate::change::Change;
use crate::handle::Handle;
use crate::last::Last;
use crate::stamps::Stamps;
use hd_model::limits::{CLUMPS, HOST_BLOCKS, HOST_CONTEXTS, HOST_HEAP, OLDEST, ROWS};
use hd_model::{Memory, Slot};
use hd_pool::Pool;
use hd_store::Store;
use std::alloc::Global;
use std::marker::Model;

/// The limits of a host: the cells of all objects together, the blocks of 64 slots that its table
/// may have, and its contexts.
#[derive(Clone, Copy, Debug, PartialEq, Eq)]
pub struct Limits {
    /// From 3 to 1,073,741,824.
    pub cells: u32,
    /// From 1 to 65,536.
    pub blocks: u32,
    /// From 1 to 65,536.
    pub contexts: u32,
}

/// A handle table over a collected heap. Contracts see the store with its state, in which no handle
/// register has a slot, the stamp of each slot, and what the last call that was done did to slots
/// and blocks.
///
/// A context has 16 local references, from 0, and references what they do. A call by a handle is a
/// command of the machine from the state in which the first handle register of the context has the
/// slot of the handle; no register has one in between. What a call returns of an object is its
/// identity, which keeps nothing.
///
/// Its table grows as it is used. Contracts see all blocks that it may have: those that it does not
/// have so far are without a use.
#[derive(Drop)]
pub struct Host {
    pub(crate) store: Store,
    pub(crate) pool: Pool,
    pub(crate) stamps: Stamps,
    pub(crate) last: Last,
    // The blocks that its table may have.
    pub(crate) limit: u32,
}

impl Model for Host {
    ghost use Rattle.hd_store.specs.Growth.{with_blocks};
    ghost use Rattle.hd_host.specs.{View.HostView, View.host_view_code, Inside.IsGrown, Handles.padded, Handles.stamps_in};

    ghost Value = { HostView };

    ghost coded = { host_view_code };

    ghost view = { λ h. record {
      machine = with_blocks h.limit h.store;
      stamps = stamps_in (padded h.limit h.stamps);
      last = h.last;
    } };

    ghost invariant = { λ h. IsGrown h.limit h.store h.pool h.stamps };
}

// The blocks that a table has at first, where it may have so many.
const FIRST: u32 = 64;

impl Host {
    /// A host in which nothing is made. It takes the memory of its contexts and of a table of 64
    /// blocks, and no more before it is used.
    pub fn open(alloc: Global, limits: Limits) -> Result<Host, Memory>
        requires cells { (3 ≤ limits.cells) × (limits.cells ≤ HOST_HEAP) }
        requires blocks { (1 ≤ limits.blocks) × (limits.blocks ≤ HOST_BLOCKS) }
        requires contexts { (1 ≤ limits.contexts) × (limits.contexts ≤ HOST_CONTEXTS) }
        ensures numbers { let n : Numbers = record {
          heap = limits.cells;
          blocks = limits.blocks;
          callers = limits.contexts;
        } in IfOk result (λ h. h.machine.numbers ≡ n) }
        ensures state { IfOk result (λ h. h.machine.state ≡ start_of h.machine.numbers) }
        ensures ages { IfOk result (λ h. h.machine.ages ≡ replicate (CLUMPS * limits.blocks) OLDEST) }
        ensures stamps { IfOk result (λ h. h.stamps ≡ replicate (ROWS * (limits.blocks + 1)) 0) }
        ensures last { IfOk result (λ h. h.last ≡ no_change) }
    {
        let blocks = limits.blocks.min(FIRST);
        let store = Store::open(alloc, limits.cells, blocks, limits.contexts)?;
        // Read for the proof alone: the store is sound.
        let _sound = store.contents();
        let pool = Pool::open(alloc, blocks)?;
        let stamps = Stamps::open(alloc, blocks)?;
        let last = Last::none();
        Ok(Host {
            store,
            pool,
            stamps,
            last,
            limit: limits.blocks,
        })
    }

    /// The number of contexts, at least one.
    #[inline(always)]
    pub fn contexts(&self) -> u32
        ensures value { result ≡ self.now.machine.numbers.callers }
        ensures some { 1 ≤ result }
    {
        self.store.callers()
    }

    /// What the last call that was done did to slots and blocks.
    pub fn last(&self) -> Change
        ensures { result ≡ self.now.last }
    {
        self.last.get()
    }

    /// Has it return another `last`, until a call is done. An end of a shared host has its own.
    #[inline(always)]
    pub fn recall(&mut self, last: &Last)
        ensures { self.new ≡ record self.old { last = last.now } }
    {
        self.last.set_as(last);
    }

    /// Writes what the last call that was done did, for who keeps it.
    #[inline(always)]
    pub fn note(&self, last: &mut Last)
        ensures { last.new ≡ self.now.last }
    {
        last.set_as(&self.last);
    }

    // The slot of a live handle.
    #[inline(always)]
    pub(crate) fn live_slot(&self, handle: Handle) -> Option<Slot>
        ensures { MatchOption result (IsStale self.now handle) (IsOf self.now handle) }
    {
        // Read for the proof alone: each slot has an entry.
        let _last = &self.last;
        if self.stamps.is_live(handle) {
            Some(handle.slot())
        } else {
            None
        }
    }
}
