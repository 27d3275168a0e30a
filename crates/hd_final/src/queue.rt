// The queue, seen by its callers as the list of the queued addresses and its room.
ghost use Rattle.std.specs.Prelude.{◌≡◌, ℕ, ◌<◌, ◌≤◌, true, [], ◌∷◌, length, drop, map, max, slice_index_or, Contains};
ghost use Rattle.std.specs.Prelude.{IfOk, MatchOption, MatchResult};
ghost use Rattle.std.specs.FinMap as map;
ghost use Rattle.hd_model.specs.{Counting.Counts, declared.data.Addr.Addr};
ghost use Rattle.hd_model.specs.Heap.{HasIdentities, has_object, id_at, object_at};
ghost use Rattle.hd_final.specs.{Queue.IsQueue, Resurrection.IsOut, Resurrection.Resurrects, Settling.Unregisters};

use crate::joiners;
use crate::joiners::Joiner;
use hd_heap::Heap;
use hd_model::{Addr, Forward, Marker, Memory};
use std::alloc::Global;
use std::collections::VecDeque;
use std::marker::Model;

/// The objects that are queued for finalization, the next one first, with room for as many as may
/// join in a collection. No object is queued twice.
#[derive(Drop)]
pub struct Final {
    queued: VecDeque<Addr>,
    // Those that joined in the last collection.
    joiners: Vec<Joiner>,
    room: u32,
}

impl Model for Final {
    ghost use Rattle.std.specs.{Prelude.vec_capacity, VecDeque.deque_capacity};
    ghost use Rattle.hd_model.specs.{Table.Queue, Code.queue_code};
    ghost use Rattle.hd_final.specs.Inside.{IsKept};

    ghost Value = { Queue };

    ghost coded = { queue_code };

    ghost view = { λ q. record { queued = q.queued.items; room = q.room } };

    ghost invariant = { λ q. IsKept q.queued.items q.room (deque_capacity q.queued)
        (vec_capacity q.joiners) };
}

impl Final {
    /// An empty queue without room.
    pub fn open(alloc: Global) -> Result<Final, Memory>
        ensures { IfOk result (λ q. q ≡ record { queued = []; room = 0 }) }
    {
        Ok(Final {
            queued: VecDeque::new(alloc),
            joiners: Vec::new(alloc),
            room: 0,
        })
    }

    /// The number of objects for which there is room.
    #[inline(always)]
    pub fn room(&self) -> u32
        ensures value { result ≡ self.now.room }
        ensures queue { IsQueue self.now }
    {
        self.room
    }

    /// Takes memory, so that there is room for at least `objects` objects. `revive` requires as
    /// much room as the heap has objects, and takes no memory.
    #[inline(always)]
    pub fn reserve(&mut self, objects: u32) -> Result<(), Memory>
        ensures { MatchResult result
            (λ _. self.new ≡ record self.old { room = max objects self.old.room })
            (λ _. (self.new ≡ self.old) × (self.old.room < objects)) }
    {
        if objects <= self.room {
            return Ok(());
        }
        self.reserve_more(objects)
    }

    // Takes the memory, where there is less. Out of line, since there is mostly enough.
    #[inline(never)]
    fn reserve_more(&mut self, objects: u32) -> Result<(), Memory>
        requires { self.old.room < objects }
        ensures { MatchResult result
            (λ _. self.new ≡ record self.old { room = max objects self.old.room })
            (λ _. (self.new ≡ self.old) × (self.old.room < objects)) }
    {
        let count = objects as usize;
        if self.queued.reserve(count - self.queued.len()).is_err() {
            return Err(Memory);
        }
        self.joiners.clear();
        if self.joiners.reserve(count).is_err() {
            return Err(Memory);
        }
        self.room = objects;
        Ok(())
    }

    /// Promotes the registered condemned objects that are not promoted, and queues them after the
    /// others, in the order of their identities. Returns their number. No older object is looked
    /// at.
    pub fn revive<M: Marker>(&mut self, heap: &Heap, marker: &mut M, n: u8) -> u32
        requires settled { M.settled marker.old }
        requires basis { M.basis marker.old ≡ record { heap = heap.now; condemned = n } }
        requires room { map.len heap.now.objects ≤ self.old.room }
        requires objects { (a : Addr) → Contains self.old.queued a → has_object heap.now a ≡ true }
        requires promoted { (a : Addr) → Contains self.old.queued a →
            M.promoted marker.old a ≡ true }
        requires identities { HasIdentities heap.now }
        ensures settled { M.settled marker.new }
        ensures basis { M.basis marker.new ≡ M.basis marker.old }
        ensures pinned { M.pinned marker.new ≡ M.pinned marker.old }
        ensures room { self.new.room ≡ self.old.room }
        ensures resurrects { Resurrects (λ a. (id_at heap.now a).0) (object_at heap.now) n
            (M.promoted marker.old) (M.promoted marker.new) self.old.queued self.new.queued }
        ensures count { Counts (IsOut (object_at heap.now) n (M.promoted marker.old)) result }
    {
        joiners::find(&mut self.joiners, heap, marker, n);
        joiners::sort(&mut self.joiners);
        joiners::join(&self.joiners, &mut self.queued, marker);
        self.joiners.len() as u32
    }

    /// Removes the registrations of the queued objects from position `from` on: the ones that
    /// joined last, since a queued object may be registered again.
    pub fn settle(&self, heap: &mut Heap, from: u32)
        requires { (a : Addr) → Contains self.now.queued a → has_object heap.old a ≡ true }
        ensures { Unregisters (drop from self.now.queued) heap.old heap.new }
    {
        for i in from as usize..self.queued.len() {
            heap.set_registered(self.queued[i], false);
        }
    }

    /// Replaces each queued address by its forwarding address.
    pub fn relocate<F: Forward>(&mut self, forward: &F)
        requires laid { F.laid forward.now }
        requires kept { (a : Addr) → Contains self.old.queued a → F.kept forward.now a ≡ true }
        ensures { self.new ≡ record self.old {
          queued = map (F.forwarding forward.now) self.old.queued;
        } }
    {
        for i in 0..self.queued.len() {
            self.queued[i] = forward.moved(self.queued[i]);
        }
    }

    /// Takes the first queued object out, in constant time.
    pub fn pop(&mut self) -> Option<Addr>
        ensures { MatchOption result
            ((self.old.queued ≡ []) × (self.new ≡ self.old))
            (λ at. self.old ≡ record self.new { queued = at ∷ self.new.queued }) }
    {
        self.queued.pop_front()
    }

    /// The number of queued objects.
    pub fn len(&self) -> u32
        ensures value { result ≡ length self.now.queued }
        ensures queue { IsQueue self.now }
    {
        self.queued.len() as u32
    }

    /// The queued object at position `i`, from 0.
    pub fn at(&self, i: u32) -> Addr
        requires { i < length self.now.queued }
        ensures { (d : Addr) → result ≡ slice_index_or self.now.queued i d }
    {
        self.queued[i as usize]
    }
}
