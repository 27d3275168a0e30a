// A heap, seen by its callers as maps from addresses to objects and from numbers to regions in use.
ghost use Rattle.std.specs.Prelude.{◌≡◌, ◌≢◌, ℕ, ◌+◌, ◌-◌, ◌*◌, ◌/◌, ◌%◌, ◌<◌, ◌≤◌, ◌↔◌, ◌++◌, ◌∷◌, []};
ghost use Rattle.std.specs.Prelude.{Bool, true, false, length, max, take, replicate};
ghost use Rattle.std.specs.Prelude.{slice_index, slice_index_or};
ghost use Rattle.std.specs.Prelude.{None, Some, IfOk, IfErr, IfSome, OnOk, OnErr, MatchResult, MatchOption};
ghost use Rattle.std.specs.Bool.{Decides};
ghost use Rattle.std.specs.FinMap as map;
ghost use Rattle.hd_model.specs.Scene.{fields_at, generation_at, IsField};
ghost use Rattle.hd_model.specs.Heap.{has_object, object_at, placed_at, cells_of, used_of};
ghost use Rattle.hd_model.specs.Heap.{is_in_use, is_set, region_at, region_of, offset_of, region_generation, card_of};
ghost use Rattle.hd_heap.specs.Sound.{IsSound};
ghost use Rattle.hd_heap.specs.Calls.{empty_heap, new_object, with_object, with_put, with_field};
ghost use Rattle.hd_heap.specs.Calls.{IsMade, IsRefused, LacksFree, AreFull};
ghost use Rattle.hd_heap.specs.Calls.{stored, is_younger, with_card, IsWalk, is_old_carded};
ghost use Rattle.hd_heap.specs.Calls.{with_fresh, with_copy, IsRemoved, with_generation};
ghost use Rattle.hd_heap.specs.Calls.{forwarded, without_region, NamesBelow};
ghost use Rattle.hd_heap.specs.{Areas.address, Areas.contents, Inside.IsArea};
ghost use Rattle.hd_heap.specs.Inside.{HasPart, HasRoom, IsObjectOf, IsRoom, with_part};
ghost use Rattle.hd_heap.specs.Inside.{is_wanted, IsLeastBetween, IsLeastFrom};
ghost use Rattle.hd_heap.specs.Inside.{is_below};
ghost use Rattle.hd_heap.specs.{Runs.run_copied, Runs.IsRun, Runs.MayRun, Inside.ArePutBetween, Inside.MayPutRun};

use crate::NewFault;
use crate::area::{Area, Part, Wanted};
use crate::fields::ObjectFields;
use crate::moves::Move;
use crate::notes::{left_after, left_in_fresh, noted, still_current};
use crate::sizes::{Older, size};
use hd_cells::Region;
use hd_model::limits::{CARD, FIELDS, HEADER, OLDEST, REGION, REGIONS};
use hd_model::{Addr, Forward, Id, Memory};
use std::alloc::Global;
use std::boxed::Box;
use std::collections::VecDeque;
use std::marker::Model;

/// The objects of a program by address, in regions, with the set cards. The memory of a released
/// region is kept for another one.
#[derive(Drop)]
pub struct Heap {
    alloc: Global,
    pub(crate) areas: Vec<Area>,
    free: VecDeque<u32>,
    limit: u32,
    pub(crate) used: u32,
    pub(crate) count: u32,
    pub(crate) held: u32,
    pub(crate) older: Older,
    // The region of the last new object, or 0 where other ones may have room for the next.
    pub(crate) current: u32,
    // Cells that are left in that region, which is then of generation 0, and within the limit: as
    // far as is known, or 0.
    pub(crate) left: u32,
    // Whether a card may be set, and whether an object may be registered for finalization.
    carding: bool,
    pub(crate) registering: bool,
}

impl Model for Heap {
    ghost use Rattle.hd_model.specs.Heap.{Heap as HeapValue};
    ghost use Rattle.hd_model.specs.Code.{heap_code};

    ghost Value = { HeapValue };

    ghost coded = { heap_code };

    ghost use Rattle.std.specs.VecDeque.{deque_capacity};
    ghost use Rattle.hd_heap.specs.Areas.{heap_of};
    ghost use Rattle.hd_heap.specs.Inside.{IsKept, AreOthersFull, HasFlags, HasLeft, HasOlder};

    ghost view = { λ h. heap_of h.areas.items h.free.items h.limit };

    ghost invariant = { λ h. IsKept h.areas.items h.free.items (deque_capacity h.free)
        h.used h.count h.held
        × AreOthersFull (heap_of h.areas.items h.free.items h.limit) h.current
        × HasFlags (heap_of h.areas.items h.free.items h.limit) h.carding h.registering
        × HasLeft (heap_of h.areas.items h.free.items h.limit) h.current h.used h.left
        × HasOlder h.areas.items h.older };
}

/// The index in the heap's list of a region, by its number from 1 on.
pub(crate) fn index_of(region: u32) -> usize
    ensures { result ≡ region - 1 }
{
    region.saturating_sub(1) as usize
}

/// The offset of an address in its region, in cells.
fn offset_of(at: Addr) -> u32
    ensures { result ≡ offset_of at }
{
    at.0 % REGION
}

/// The address of a cell of a region.
pub(crate) fn address_in(region: u32, offset: u32) -> Addr
    requires region { region < REGIONS }
    requires offset { offset < REGION }
    ensures { result.0 ≡ region * REGION + offset }
{
    Addr(region * REGION + offset)
}

/// What a field as it is stored references.
pub(crate) fn address_of(cell: u32) -> Option<Addr>
    ensures { result ≡ address cell }
{
    if cell == 0 { None } else { Some(Addr(cell)) }
}

/// Copies the objects of some moves from a region of the list to another one, with forwarding
/// addresses, as far as they go with the one at an index. Returns the index after them and the
/// cells that they take.
fn copy_between<F: Forward>(
    areas: &mut [Area],
    source: usize,
    target: usize,
    moves: &[Move],
    first: usize,
    forward: &F,
) -> (usize, u32)
    requires source { source < length areas.old }
    requires target { target < length areas.old }
    requires apart { source ≢ target }
    requires laid { F.laid forward.now }
    requires may_copy { (a b : Area) → a ≡ slice_index_or areas.old source a
        → b ≡ slice_index_or areas.old target b → let kept = F.kept forward.now in
        IsArea b × MayPutRun kept (contents a) (contents b) moves.now first }
    ensures run { IsRun moves.now first result.0 }
    ensures put { let index = F.forwarding forward.now in let n = result.0 - first in
        ArePutBetween index areas.old areas.new source target moves.now first n result.1 }
{
    if source < target {
        let (low, high) = areas.split_at_mut(target);
        high[0].put_run(&low[source], moves, first, forward)
    } else {
        let (low, high) = areas.split_at_mut(source);
        low[target].put_run(&high[0], moves, first, forward)
    }
}

impl Heap {
    /// An empty heap. `limit` bounds the sizes of all objects together, in cells. No memory is
    /// taken.
    pub fn open(alloc: Global, limit: u32) -> Result<Heap, Memory>
        ensures { MatchResult result (λ h. h ≡ empty_heap limit) (λ _. ⊥) }
    {
        Ok(Heap {
            alloc,
            areas: Vec::new(alloc),
            free: VecDeque::new(alloc),
            limit,
            used: 0,
            count: 0,
            held: 0,
            older: Older::none(),
            current: 0,
            left: 0,
            carding: false,
            registering: false,
        })
    }

    /// Makes an object of generation 0 with null fields and value 0. The limit is checked before
    /// memory is asked for, and after a refusal nothing is changed.
    pub fn new_object(&mut self, id: Id, fields: u32, registered: bool) -> Result<Addr, NewFault>
        requires identified { id.0 ≢ 0 }
        requires few_fields { fields ≤ FIELDS }
        ensures made { MatchResult result
            (λ at. IsMade self.old self.new at (new_object id fields registered))
            (λ fault. IsRefused self.old self.new (fields + HEADER) fault) }
        ensures free { IfErr result (LacksFree self.old) }
    {
        let size = fields + HEADER;
        let used = self.used();
        if u64::from(used) + u64::from(size) > u64::from(self.limit) {
            return Err(NewFault::Full { used, size });
        }
        match self.room_for(size) {
            Ok(region) => Ok(self.put(region, id, fields, registered)),
            Err(Memory) => Err(NewFault::Memory),
        }
    }

    /// Makes an object as `new_object` does, where the region of the last new one is known to have
    /// room for it, within the limit; else nothing is done. It takes constant time beside the
    /// object's fields, and no memory.
    #[inline(always)]
    pub fn put_in_current(&mut self, id: Id, fields: u32, registered: bool) -> Option<Addr>
        requires identified { id.0 ≢ 0 }
        requires few_fields { fields ≤ FIELDS }
        ensures { MatchOption result (self.new ≡ self.old)
            (λ at. IsMade self.old self.new at (new_object id fields registered)) }
    {
        let size = fields + HEADER;
        let region = self.current;
        if size > self.left {
            return None;
        }
        Some(self.put(region, id, fields, registered))
    }

    /// The identity of the object at `at`.
    pub fn id(&self, at: Addr) -> Id
        requires { has_object self.now at ≡ true }
        ensures identity { result ≡ (placed_at self.now at).id }
        ensures never_zero { result.0 ≢ 0 }
    {
        let (area, offset) = self.area_of(at);
        Id(area.region.id(offset))
    }

    /// The number of fields of the object at `at`.
    pub fn fields(&self, at: Addr) -> u32
        requires { has_object self.now at ≡ true }
        ensures count { result ≡ length (fields_at (object_at self.now) at) }
        ensures few { result ≤ FIELDS }
    {
        let (area, offset) = self.area_of(at);
        area.region.fields(offset)
    }

    /// The fields of the object at `at`, for a walk over them.
    #[inline(always)]
    pub fn fields_of(&self, at: Addr) -> ObjectFields<'_>
        requires { has_object self.now at ≡ true }
        ensures { result ≡ fields_at (object_at self.now) at }
    {
        let (area, offset) = self.area_of(at);
        ObjectFields {
            region: &area.region,
            at: offset,
        }
    }

    /// The value of the object at `at`.
    pub fn value(&self, at: Addr) -> u64
        requires { has_object self.now at ≡ true }
        ensures { result ≡ (placed_at self.now at).value }
    {
        let (area, offset) = self.area_of(at);
        area.region.value(offset)
    }

    /// Sets the value of the object at `at`.
    pub fn set_value(&mut self, at: Addr, v: u64)
        requires { has_object self.old at ≡ true }
        ensures { let after = record (placed_at self.old at) { value = v } in
            self.new ≡ with_object self.old at after }
    {
        self.write(at, Part::Value(v));
    }

    /// Whether the object at `at` is registered for finalization.
    pub fn registered(&self, at: Addr) -> bool
        requires { has_object self.now at ≡ true }
        ensures { result ≡ (placed_at self.now at).registered }
    {
        let (area, offset) = self.area_of(at);
        area.region.registered(offset)
    }

    /// Registers the object at `at` for finalization, or removes its registration, also where that
    /// is so already.
    pub fn set_registered(&mut self, at: Addr, on: bool)
        requires { has_object self.old at ≡ true }
        ensures { let after = record (placed_at self.old at) { registered = on } in
            self.new ≡ with_object self.old at after }
    {
        self.write(at, Part::Registered(on));
    }

    /// The generation of the object at `at`, which is that of its region: 0, 1 or 2.
    pub fn generation(&self, at: Addr) -> u8
        requires { has_object self.now at ≡ true }
        ensures value { result ≡ generation_at (object_at self.now) at }
        ensures few { result ≤ OLDEST }
    {
        let (area, _offset) = self.area_of(at);
        area.generation
    }

    /// Field `i` of the object at `at`: an address, or `None` for null.
    pub fn load(&self, at: Addr, i: u32) -> Option<Addr>
        requires object { has_object self.now at ≡ true }
        requires within { i < length (fields_at (object_at self.now) at) }
        ensures { result ≡ slice_index_or (fields_at (object_at self.now) at) i None }
    {
        address_of(self.field(at, i))
    }

    /// Field `i` of the object at `at` becomes `v`, an object or null. Where `v` is of a younger
    /// generation, the card of `at` is set: this is the write barrier.
    pub fn store(&mut self, at: Addr, i: u32, v: Option<Addr>)
        requires object { has_object self.old at ≡ true }
        requires within { i < length (fields_at (object_at self.old) at) }
        requires target { IfSome v (λ y. has_object self.old y ≡ true) }
        ensures { self.new ≡ stored self.old at i v }
    {
        let younger = self.is_younger(at, v);
        self.write(at, Part::Field(i, self.stored(v)));
        if younger {
            self.set_card(at, true);
        }
    }

    /// Sets or clears the card in which the object at `at` starts.
    pub fn set_card(&mut self, at: Addr, on: bool)
        requires { has_object self.old at ≡ true }
        ensures { self.new ≡ with_card self.old (card_of at) on }
    {
        let card = (offset_of(at) / CARD) as usize;
        self.carding = noted(self.carding, on);
        self.areas[index_of(at.0 / REGION)].cards[card] = on;
    }

    /// Notes that no card is set, so that walks over set cards end at once until one is.
    pub fn note_no_card(&mut self)
        requires { (card : ℕ) → is_set self.old card ≡ false }
        ensures { self.new ≡ self.old }
    {
        self.carding = false;
    }

    /// Whether an object may be registered for finalization, as far as can be said without a look
    /// at any: false before the first that was.
    pub fn may_have_registered(&self) -> bool
        ensures none { result ≡ false → (a : Addr) → has_object self.now a ≡ true →
            (placed_at self.now a).registered ≡ false }
    {
        self.registering
    }

    /// The limit of the sizes of all objects together, in cells.
    pub fn limit(&self) -> u32
        ensures { result ≡ self.now.limit }
    {
        self.limit
    }

    /// The sizes of all objects together, in cells.
    pub fn used(&self) -> u32
        ensures value { result ≡ used_of self.now }
        ensures sound { IsSound self.now }
    {
        self.used
    }

    /// The number of objects.
    pub fn count(&self) -> u32
        ensures value { result ≡ map.len self.now.objects }
        ensures sound { IsSound self.now }
    {
        self.count
    }

    /// The number of regions in use.
    pub fn regions(&self) -> u32
        ensures value { result ≡ map.len self.now.regions }
        ensures sound { IsSound self.now }
    {
        self.held
    }

    /// The first object past `after`, which may be any address, or the first of all. A region
    /// without objects is passed at once.
    pub fn next(&self, after: Option<Addr>) -> Option<Addr>
        ensures walk { IsWalk (has_object self.now) after result }
        ensures sound { IsSound self.now }
    {
        self.walk(after, Wanted::Any)
    }

    /// The first object past `after`, which may be any address, that is of a generation above `n`
    /// and starts in a set card. A region of another generation or without set cards is passed at
    /// once, and none is looked at where no card may be set.
    pub fn next_carded(&self, after: Option<Addr>, n: u8) -> Option<Addr>
        ensures walk { IsWalk (is_old_carded self.now n) after result }
        ensures sound { IsSound self.now }
    {
        let carding = self.carding;
        if !carding {
            return None;
        }
        self.walk(after, Wanted::Carded(n))
    }

    /// Whether a field of the object at `at` references one of a generation below `n`.
    pub fn names_below(&self, at: Addr, n: u8) -> bool
        requires object { has_object self.now at ≡ true }
        requires fields { (y : Addr) → IsField (object_at self.now) at y →
            has_object self.now y ≡ true }
        ensures { (result ≡ true) ↔ NamesBelow self.now at n }
    {
        for i in 0..self.fields(at) {
            if self.is_below(self.load(at, i), n) {
                return true;
            }
        }
        false
    }

    /// Takes memory for free regions, so that there are at least `count`. Where memory runs out,
    /// those that were taken stay free.
    pub fn reserve_regions(&mut self, count: u32) -> Result<(), Memory>
        ensures same { self.new ≡ record self.old { free = self.new.free } }
        ensures kept { take (length self.old.free) self.new.free ≡ self.old.free }
        ensures enough { MatchResult result
            (λ _. length self.new.free ≡ max count (length self.old.free))
            (λ _. length self.new.free < count) }
    {
        while self.free_len() < count {
            self.add_free_region()?;
        }
        Ok(())
    }

    /// The number of the region that the `i`-th later `fresh` returns, from 0.
    pub fn spare_number(&self, i: u32) -> u32
        requires { i < length self.now.free }
        ensures { result ≡ slice_index self.now.free i }
    {
        self.free[i as usize]
    }

    /// Takes the first free region into use, which has no object and no set card, and returns its
    /// number.
    pub fn fresh(&mut self, generation: u8) -> u32
        requires free { 0 < length self.old.free }
        requires generation { generation ≤ OLDEST }
        ensures number { result ≡ slice_index self.old.free 0 }
        ensures was_free { is_in_use self.old result ≡ false }
        ensures held { self.new ≡ with_fresh self.old result generation }
    {
        let number = self.free[0];
        let _ = self.free.pop_front();
        self.areas[index_of(number)].hold(generation);
        self.held += 1;
        self.older.add(generation, size(0, 0, 1));
        self.current = still_current(self.current, generation);
        self.left = 0;
        number
    }

    /// Copies the object at `from` after all others of a region. It is in the heap twice from then
    /// on.
    pub fn copy_into(&mut self, from: Addr, region: u32) -> Addr
        requires object { has_object self.old from ≡ true }
        requires held { is_in_use self.old region ≡ true }
        requires room { let fill = (region_at self.old region).fill in
            fill + cells_of (placed_at self.old from) ≤ REGION }
        ensures address { result.0 ≡ region * REGION + (region_at self.old region).fill }
        ensures was_free { has_object self.old result ≡ false }
        ensures copied { self.new ≡ with_copy self.old from region }
    {
        let generation = self.region_generation(region);
        let (area, offset) = self.area_of(from);
        // It goes through a region of its own, since it may be in the region that it is copied to.
        let mut copy = Region::empty();
        let first = copy.put_copy(&area.region, offset);
        let cells = copy.fill();
        let end = self.areas[index_of(region)].put_copy(&copy, first);
        self.used += cells;
        self.count += 1;
        self.older.add(generation, size(1, cells, 0));
        self.left = 0;
        address_in(region, end)
    }

    /// Copies the object of the move at an index, and those of the moves after it as far as they go
    /// with it from its region to one other, each after all others of that one, with the forwarding
    /// addresses of what they reference in their fields. They are in the heap twice from then on.
    /// No card is set. Returns the index after these moves.
    pub fn copy_run<F: Forward>(&mut self, moves: &[Move], first: usize, forward: &F) -> usize
        requires run { MayRun (F.kept forward.now) (F.forwarding forward.now) self.old moves.now
            first }
        requires laid { F.laid forward.now }
        requires forwardings { (y : Addr) → F.kept forward.now y ≡ true
            → (F.forwarding forward.now y).0 ≢ 0 }
        ensures run { IsRun moves.now first result }
        ensures copied { let index = F.forwarding forward.now in
            self.new ≡ run_copied index self.old moves.now first (result - first) }
    {
        let source = index_of(moves[first].from.0 / REGION);
        let target = index_of(moves[first].to.0 / REGION);
        let generation = self.region_generation(moves[first].to.0 / REGION);
        let (end, cells) = copy_between(&mut self.areas, source, target, moves, first, forward);
        let copies = (end - first) as u32;
        self.used += cells;
        self.count += copies;
        self.older.add(generation, size(copies, cells, 0));
        self.left = 0;
        end
    }

    /// Gives the fields of the object at `at` the forwarding addresses of what they reference. No
    /// card is set.
    pub fn rewrite_fields<F: Forward>(&mut self, at: Addr, forward: &F)
        requires object { has_object self.old at ≡ true }
        requires laid { F.laid forward.now }
        requires kept { (y : Addr) → IsField (object_at self.old) at y
            → F.kept forward.now y ≡ true }
        requires forwardings { (y : Addr) → IsField (object_at self.old) at y
            → (F.forwarding forward.now y).0 ≢ 0 }
        ensures { let after = forwarded (F.forwarding forward.now) (placed_at self.old at) in
            self.new ≡ with_object self.old at after }
    {
        self.areas[index_of(at.0 / REGION)].forward_fields(offset_of(at), forward);
    }

    /// Removes the object at `at`. Fields that reference it stay as they are.
    pub fn remove(&mut self, at: Addr)
        requires { has_object self.old at ≡ true }
        ensures { IsRemoved self.old self.new at }
    {
        let generation = self.generation(at);
        let cells = self.areas[index_of(at.0 / REGION)].remove(offset_of(at));
        self.used -= cells;
        self.count -= 1;
        self.older.take(generation, size(1, cells, 0));
    }

    /// Gives a region in use, and with it its objects, another generation.
    pub fn set_generation(&mut self, region: u32, generation: u8)
        requires held { is_in_use self.old region ≡ true }
        requires generation { generation ≤ OLDEST }
        ensures { self.new ≡ with_generation self.old region generation }
    {
        let area = &mut self.areas[index_of(region)];
        let (was, of) = (area.generation, size(area.count, area.live, 1));
        area.generation = generation;
        self.older.take(was, of);
        self.older.add(generation, of);
        self.current = still_current(self.current, generation);
        self.left = 0;
    }

    /// Releases a region in use without objects. It becomes the last free one.
    pub fn release(&mut self, region: u32)
        requires held { is_in_use self.old region ≡ true }
        requires no_object { (a : Addr) → has_object self.old a ≡ true → region_of a ≢ region }
        ensures { self.new ≡ record self.old {
          regions = map.remove self.old.regions region;
          free = self.old.free ++ region ∷ [];
        } }
    {
        // The result is not used: the call states to the proof what every heap keeps.
        let _regions = self.regions();
        self.give_up(region);
    }

    /// Gives up a region in use with its objects. It becomes the last free one, and its cards are
    /// clear. Fields that reference its objects stay as they are. No object is looked at.
    pub fn give_up(&mut self, region: u32)
        requires held { is_in_use self.old region ≡ true }
        ensures { self.new ≡ without_region self.old region }
    {
        let generation = self.region_generation(region);
        let (cells, objects) = self.areas[index_of(region)].give_up();
        self.used -= cells;
        self.count -= objects;
        self.held -= 1;
        self.older.take(generation, size(objects, cells, 1));
        self.left = 0;
        self.free.push_back_reserved(region);
    }

    /// The number of free regions.
    fn free_len(&self) -> u32
        ensures { result ≡ length self.now.free }
    {
        self.free.len() as u32
    }

    /// Takes memory for one more free region.
    fn add_free_region(&mut self) -> Result<(), Memory>
        ensures ok { OnOk result ((n : ℕ) × (self.new ≡ record self.old {
          free = self.old.free ++ n ∷ [];
        })) }
        ensures err { OnErr result (self.new ≡ self.old) }
    {
        let number = self.areas.len() + 1;
        if number >= REGIONS as usize {
            return Err(Memory);
        }
        if self.areas.reserve(1).is_err() {
            return Err(Memory);
        }
        if self.free.reserve(number - self.free.len()).is_err() {
            return Err(Memory);
        }
        let Ok(region) = Box::new(self.alloc, Region::empty()) else {
            return Err(Memory);
        };
        self.areas.push_reserved(Area::free(region));
        self.free.push_back_reserved(number as u32);
        Ok(())
    }

    /// A region in use of generation 0 with `size` cells left: one with room, or a free one where
    /// none has room for the largest object.
    fn room_for(&mut self, size: u32) -> Result<u32, Memory>
        requires { size ≤ FIELDS + HEADER }
        ensures ok { IfOk result (λ region. IsRoom self.old self.new region size) }
        ensures err { OnErr result (self.new ≡ self.old) }
        ensures none { OnErr result (self.old.free ≡ []) }
    {
        if let Some(region) = self.open_region(size) {
            return Ok(region);
        }
        self.reserve_regions(1)?;
        let region = self.fresh(0);
        self.current = region;
        self.left = left_in_fresh(self.limit, self.used);
        Ok(region)
    }

    /// A region of generation 0 with `size` cells left: that of the last new object alone, where
    /// all others are full.
    fn open_region(&self, size: u32) -> Option<u32>
        requires { size ≤ FIELDS + HEADER }
        ensures { MatchOption result (AreFull self.now) (λ region. HasRoom self.now region size) }
    {
        if self.current == 0 {
            return self.first_open(size);
        }
        if self.has_room(self.current, size) {
            Some(self.current)
        } else {
            None
        }
    }

    /// The first region of generation 0 with `size` cells left.
    fn first_open(&self, size: u32) -> Option<u32>
        requires { size ≤ FIELDS + HEADER }
        ensures { MatchOption result (AreFull self.now) (λ region. HasRoom self.now region size) }
    {
        for index in 0..self.areas.len() {
            if self.has_room(index as u32 + 1, size) {
                return Some(index as u32 + 1);
            }
        }
        None
    }

    /// Whether this is the number of a region in use of generation 0 with `size` cells left.
    fn has_room(&self, region: u32, size: u32) -> bool
        requires { size ≤ FIELDS + HEADER }
        ensures { Decides result (HasRoom self.now region size) }
    {
        if region == 0 || region as usize > self.areas.len() {
            return false;
        }
        let area = &self.areas[index_of(region)];
        if !area.held {
            return false;
        }
        if area.generation != 0 {
            return false;
        }
        area.region.fill() + size <= REGION
    }

    /// Puts an object after all others of a region in use of generation 0.
    #[inline(always)]
    fn put(&mut self, region: u32, id: Id, fields: u32, registered: bool) -> Addr
        requires identified { id.0 ≢ 0 }
        requires few_fields { fields ≤ FIELDS }
        requires held { is_in_use self.old region ≡ true }
        requires young { region_generation self.old region ≡ 0 }
        requires room { (region_at self.old region).fill + (fields + HEADER) ≤ REGION }
        ensures address { result.0 ≡ region * REGION + (region_at self.old region).fill }
        ensures region { region_of result ≡ region }
        ensures was_free { has_object self.old result ≡ false }
        ensures put { let generation = region_generation self.old region in
            self.new ≡ with_put self.old region generation (new_object id fields registered) }
    {
        self.registering = noted(self.registering, registered);
        let offset = self.areas[index_of(region)].put(id.0, fields, registered);
        self.used += fields + HEADER;
        self.count += 1;
        self.left = left_after(self.left, fields + HEADER, region == self.current);
        address_in(region, offset)
    }

    /// Whether a reference is to an object of a generation below `n`.
    fn is_below(&self, v: Option<Addr>, n: u8) -> bool
        requires { IfSome v (λ y. has_object self.now y ≡ true) }
        ensures { result ≡ is_below self.now v n }
    {
        match v {
            Some(target) => self.generation(target) < n,
            None => false,
        }
    }

    /// Whether an object, or null, is of a younger generation than the object at `at`.
    fn is_younger(&self, at: Addr, v: Option<Addr>) -> bool
        requires object { has_object self.now at ≡ true }
        requires target { IfSome v (λ y. has_object self.now y ≡ true) }
        ensures { result ≡ is_younger self.now at v }
    {
        match v {
            Some(target) => self.generation(target) < self.generation(at),
            None => false,
        }
    }

    /// The region of the object at `at`, and its offset there.
    fn area_of(&self, at: Addr) -> (&Area, u32)
        requires { has_object self.now at ≡ true }
        ensures { IsObjectOf self.now at result.0.now result.1 }
    {
        (&self.areas[(at.0 / REGION - 1) as usize], offset_of(at))
    }

    /// A reference to an object, or null, as it is stored in a field: 0 for null.
    fn stored(&self, v: Option<Addr>) -> u32
        requires { IfSome v (λ y. has_object self.now y ≡ true) }
        ensures { address result ≡ v }
    {
        // Read for the proof: it gives the invariant, by which no address is 0.
        let _areas = &self.areas;
        match v {
            Some(at) => at.0,
            None => 0,
        }
    }

    /// Field `i` of the object at `at` as it is stored.
    fn field(&self, at: Addr, i: u32) -> u32
        requires object { has_object self.now at ≡ true }
        requires within { i < length (fields_at (object_at self.now) at) }
        ensures { address result ≡ slice_index_or (fields_at (object_at self.now) at) i None }
    {
        let (area, offset) = self.area_of(at);
        area.region.field(offset, i)
    }

    /// Writes a part of the object at `at`, without the write barrier.
    fn write(&mut self, at: Addr, part: Part)
        requires object { has_object self.old at ≡ true }
        requires within { HasPart (placed_at self.old at).fields part }
        ensures { let after = with_part (placed_at self.old at) part in
            self.new ≡ with_object self.old at after }
    {
        self.registering = noted(self.registering, part.registers());
        self.areas[index_of(at.0 / REGION)].write(offset_of(at), part);
    }

    /// The first object past `after` that is wanted.
    fn walk(&self, after: Option<Addr>, wanted: Wanted) -> Option<Addr>
        ensures walk { IsWalk (is_wanted self.now wanted) after result }
        ensures sound { IsSound self.now }
    {
        let Some(at) = after else {
            return self.first_from(0, wanted);
        };
        if let Some(found) = self.next_in_region(at, wanted) {
            return Some(found);
        }
        self.first_from((at.0 / REGION) as usize, wanted)
    }

    /// The first object that is wanted after an address in the same region.
    fn next_in_region(&self, at: Addr, wanted: Wanted) -> Option<Addr>
        ensures next { let end = (at.0 / REGION + 1) * REGION in
            IsLeastBetween (is_wanted self.now wanted) (at.0 + 1) end result }
        ensures sound { IsSound self.now }
    {
        // Read first for the proof: it gives the invariant where the call returns early.
        let regions = self.areas.len();
        if at.0 < REGION {
            return None;
        }
        let index = index_of(at.0 / REGION);
        if index >= regions {
            return None;
        }
        match self.areas[index].wanted_after(offset_of(at), wanted) {
            Some(offset) => Some(address_in(at.0 / REGION, offset)),
            None => None,
        }
    }

    /// The first object that is wanted in the regions from an index of the list on.
    fn first_from(&self, first: usize, wanted: Wanted) -> Option<Addr>
        ensures first { IsLeastFrom (is_wanted self.now wanted) ((first + 1) * REGION) result }
        ensures sound { IsSound self.now }
    {
        for index in first..self.areas.len() {
            if let Some(offset) = self.areas[index].first_wanted(wanted) {
                return Some(address_in(index as u32 + 1, offset));
            }
        }
        None
    }
}
