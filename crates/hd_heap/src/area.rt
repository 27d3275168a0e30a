// A region of a heap, with what the heap keeps of it.
ghost use Rattle.std.specs.Prelude.{◌≡◌, ◌≢◌, ℕ, ◌+◌, ◌-◌, ◌/◌, ◌<◌, ◌≤◌, ◌&&◌, ◌⊎◌, true, false, nat_lt, nat_eq, not};
ghost use Rattle.std.specs.Prelude.{Some, None, IfSome, IsTrue, length, slice_index};
ghost use Rattle.std.specs.FinMap as map;
ghost use Rattle.hd_cells.specs.Object.{new_object, size_of};
ghost use Rattle.hd_cells.specs.Region.{IsFirstFrom, IsLaidOut, IsObject, empty_region};
ghost use Rattle.hd_cells.specs.Region.{object_at, with_object};
ghost use Rattle.hd_heap.specs.{Areas.contents, Areas.card_in, Inside.BeginsIn, Inside.IsArea};
ghost use Rattle.hd_heap.specs.Inside.{wants, HasPart, IsAsked, IsFirstAt, IsFirstSince, IsTaken};
ghost use Rattle.hd_heap.specs.Inside.{IsFreed, area_put, area_written, region_with_part, registers};
ghost use Rattle.hd_heap.specs.{Inside.area_run, Inside.cells_run, Inside.AreLaidOut, Inside.MayPutRun, Runs.IsRun};
ghost use Rattle.hd_heap.specs.Inside.{region_filled, region_forwarded, MayForward};

use crate::filling::put_filled;
use crate::forwarding::{copy_run, forward_fields};
use crate::moves::Move;
use hd_cells::Region;
use hd_model::limits::{CARD, FIELDS, HEADER, OLDEST, REGION};
use hd_model::{Addr, Forward};
use std::boxed::Box;

/// The cards of a region.
pub const CARDS: usize = (REGION / CARD) as usize;

/// A region of a heap, in use or free: its objects, its generation, whether each of its cards is
/// set, the number of cells that its objects take, and the number of its objects.
#[derive(Drop)]
pub(crate) struct Area {
    pub(crate) region: Box<Region>,
    pub(crate) held: bool,
    pub(crate) generation: u8,
    pub(crate) cards: [bool; CARDS],
    pub(crate) live: u32,
    pub(crate) count: u32,
}

/// What a walk returns: any object, or one of a generation above a number that starts in a set
/// card.
#[derive(Clone, Copy)]
pub(crate) enum Wanted {
    Any,
    Carded(u8),
}

/// What is written into an object: its value, its registration, or a field as it is stored, counted
/// from 0.
#[derive(Clone, Copy)]
pub(crate) enum Part {
    Value(u64),
    Registered(bool),
    Field(u32, u32),
}

impl Part {
    /// Whether it registers the object.
    #[inline(always)]
    pub(crate) fn registers(self) -> bool
        ensures { result ≡ registers self }
    {
        match self {
            Part::Registered(on) => on,
            Part::Value(_) | Part::Field(_, _) => false,
        }
    }
}

/// The offset of the first object after an offset. Where an object begins at the offset, this takes
/// time by the gaps between the two.
fn offset_after(region: &Region, offset: u32) -> Option<u32>
    requires { offset < REGION }
    ensures { IsFirstFrom region.now (offset + 1) result }
{
    if region.is_object(offset) {
        region.after(offset)
    } else {
        region.walk(offset + 1)
    }
}

/// Writes a part of an object.
fn write_part(region: &mut Region, at: u32, part: Part)
    requires object { IsObject region.old at }
    requires within { HasPart (object_at region.old at).fields part }
    ensures written { let after = region_with_part (object_at region.old at) part in
        region.new ≡ with_object region.old at after }
    ensures laid_out { IsLaidOut region.new }
{
    match part {
        Part::Value(v) => region.set_value(at, v),
        Part::Registered(on) => region.set_registered(at, on),
        Part::Field(i, v) => region.set_field(at, i, v),
    }
}

impl Area {
    /// A free region without objects.
    pub(crate) fn free(region: Box<Region>) -> Area
        requires empty { region.value ≡ empty_region }
        requires laid_out { IsLaidOut region.value }
        ensures area { IsArea result }
        ensures freed { IsFreed result }
    {
        Area {
            region,
            held: false,
            generation: 0,
            cards: [false; CARDS],
            live: 0,
            count: 0,
        }
    }

    /// Takes a free region into use.
    pub(crate) fn hold(&mut self, generation: u8)
        requires area { IsArea self.old }
        requires generation { generation ≤ OLDEST }
        ensures area { IsArea self.new }
        ensures held { self.new ≡ record self.old { held = true; generation = generation } }
    {
        self.held = true;
        self.generation = generation;
    }

    /// Frees a region with its objects, and returns the cells that they took and their number. What
    /// its cells had is gone.
    pub(crate) fn give_up(&mut self) -> (u32, u32)
        requires area { IsArea self.old }
        ensures area { IsArea self.new }
        ensures freed { IsFreed self.new }
        ensures cells { result.0 ≡ self.old.live }
        ensures count { result.1 ≡ self.old.count }
    {
        let taken = (self.live, self.count);
        self.region.reset();
        self.held = false;
        self.cards = [false; CARDS];
        self.live = 0;
        self.count = 0;
        taken
    }

    /// Puts an object after all others, and returns its offset.
    #[inline(always)]
    pub(crate) fn put(&mut self, id: u64, fields: u32, registered: bool) -> u32
        requires area { IsArea self.old }
        requires held { self.old.held ≡ true }
        requires identified { id ≢ 0 }
        requires few_fields { fields ≤ FIELDS }
        requires room { (contents self.old).fill + (fields + HEADER) ≤ REGION }
        ensures area { IsArea self.new }
        ensures offset { result ≡ (contents self.old).fill }
        ensures put { self.new ≡ area_put self.old (new_object id fields registered) }
    {
        self.live += fields + HEADER;
        self.count += 1;
        self.region.put_object(id, fields, registered)
    }

    /// Puts an object with a value and with its fields after all others, and returns its offset.
    #[inline(always)]
    pub(crate) fn put_filled(
        &mut self,
        id: u64,
        value: u64,
        registered: bool,
        targets: &[Option<Addr>],
        first: usize,
        src: &[u32],
    ) -> u32
        requires area { IsArea self.old }
        requires held { self.old.held ≡ true }
        requires identified { id ≢ 0 }
        requires few { length src.now ≤ FIELDS }
        requires sources { (i : ℕ) → i < length src.now
            → first + slice_index src.now i < length targets.now }
        requires room { (contents self.old).fill + (length src.now + HEADER) ≤ REGION }
        ensures area { IsArea self.new }
        ensures offset { result ≡ (contents self.old).fill }
        ensures put { self.new
            ≡ area_put self.old (region_filled id value registered targets.now first src.now) }
    {
        self.live += src.len() as u32 + HEADER;
        let at = put_filled(&mut self.region, id, value, registered, targets, first, src);
        self.count += 1;
        at
    }

    /// Puts a copy of an object of another region after all others, and returns its offset.
    pub(crate) fn put_copy(&mut self, source: &Region, from: u32) -> u32
        requires area { IsArea self.old }
        requires held { self.old.held ≡ true }
        requires object { IsObject source.now from }
        requires room { (contents self.old).fill + size_of (object_at source.now from) ≤ REGION }
        ensures area { IsArea self.new }
        ensures offset { result ≡ (contents self.old).fill }
        ensures put { self.new ≡ area_put self.old (object_at source.now from) }
    {
        self.live += source.fields(from) + HEADER;
        self.count += 1;
        self.region.put_copy(source, from)
    }

    /// Puts copies of the objects of some moves after all others, with their fields as `forward`
    /// moves them, as far as they go with the one at an index. Returns the index after them and the
    /// cells that they take.
    pub(crate) fn put_run<F: Forward>(
        &mut self,
        source: &Area,
        moves: &[Move],
        first: usize,
        forward: &F,
    ) -> (usize, u32)
        requires area { IsArea self.old }
        requires run { let kept = F.kept forward.now in
            MayPutRun kept (contents source.now) (contents self.old) moves.now first }
        requires laid { F.laid forward.now }
        ensures run { IsRun moves.now first result.0 }
        ensures put { let forwarding = F.forwarding forward.now in let n = result.0 - first in
            self.new ≡ area_run forwarding (contents source.now) moves.now first n self.old }
        ensures laid_out { let forwarding = F.forwarding forward.now in let n = result.0 - first in
            AreLaidOut forwarding (contents source.now) moves.now first n (contents self.old) }
        ensures cells { let n = result.0 - first in
            result.1 ≡ cells_run (contents source.now) moves.now first n }
    {
        let before = self.region.fill();
        let end = copy_run(&mut self.region, &source.region, moves, first, forward);
        let cells = self.region.fill() - before;
        self.live += cells;
        self.count += (end - first) as u32;
        (end, cells)
    }

    /// Gives the fields of an object their forwarding addresses.
    pub(crate) fn forward_fields<F: Forward>(&mut self, at: u32, forward: &F)
        requires area { IsArea self.old }
        requires object { IsObject (contents self.old) at }
        requires laid { F.laid forward.now }
        requires kept { MayForward (F.kept forward.now) (object_at (contents self.old) at).fields }
        ensures area { IsArea self.new }
        ensures written { let object = object_at (contents self.old) at in
            self.new ≡ area_written self.old at
            (region_forwarded (F.forwarding forward.now) object) }
    {
        let fields = self.region.fields(at);
        forward_fields(&mut self.region, at, fields, forward);
    }

    /// Writes a part of an object.
    pub(crate) fn write(&mut self, at: u32, part: Part)
        requires area { IsArea self.old }
        requires object { IsObject (contents self.old) at }
        requires within { HasPart (object_at (contents self.old) at).fields part }
        ensures area { IsArea self.new }
        ensures written { let after = region_with_part (object_at (contents self.old) at) part in
            self.new ≡ area_written self.old at after }
    {
        write_part(&mut self.region, at, part);
    }

    /// Removes an object, and returns its size. Its card is clear where no other object starts.
    pub(crate) fn remove(&mut self, at: u32) -> u32
        requires area { IsArea self.old }
        requires object { IsObject (contents self.old) at }
        ensures area { IsArea self.new }
        ensures taken { IsTaken self.old self.new at result }
    {
        let cells = self.region.fields(at) + HEADER;
        self.region.remove(at);
        self.live -= cells;
        self.count -= 1;
        let card = at / CARD;
        if self.cards[card as usize] {
            self.cards[card as usize] = self.starts_in(card);
        }
        cells
    }

    /// Whether an object starts in a card.
    fn starts_in(&self, card: u32) -> bool
        requires { card < CARDS }
        ensures some { result ≡ true → BeginsIn (contents self.now) card }
        ensures none { result ≡ false → (k : ℕ) → IsObject (contents self.now) k → k / CARD ≢ card }
    {
        match self.region.walk(card * CARD) {
            Some(first) => first / CARD == card,
            None => false,
        }
    }

    /// The offset of the first object that is wanted. Where there can be none, no object is looked
    /// at.
    pub(crate) fn first_wanted(&self, wanted: Wanted) -> Option<u32>
        requires { IsArea self.now }
        ensures { IsFirstAt (wants wanted self.now) 0 result }
    {
        if self.may_have(wanted) {
            self.wanted_from(self.region.walk(0), wanted)
        } else {
            None
        }
    }

    /// The same, after an offset.
    pub(crate) fn wanted_after(&self, offset: u32, wanted: Wanted) -> Option<u32>
        requires area { IsArea self.now }
        requires offset { offset < REGION }
        ensures { IsFirstAt (wants wanted self.now) (offset + 1) result }
    {
        if self.may_have(wanted) {
            self.wanted_from(offset_after(&self.region, offset), wanted)
        } else {
            None
        }
    }

    /// Whether there is an object of no generation above `n`.
    pub(crate) fn has_condemned(&self, n: u8) -> bool
        requires { IsArea self.now }
        ensures young { result ≡ true → self.now.generation ≤ n }
        ensures some { result ≡ true → self.now.live ≢ 0 }
        ensures none { result ≡ false → (k : ℕ) → IsObject (contents self.now) k
            → n < self.now.generation }
    {
        self.generation <= n && self.live != 0
    }

    /// Whether there may be an object that is wanted, as far as can be said without a look at any.
    fn may_have(&self, wanted: Wanted) -> bool
        requires { IsArea self.now }
        ensures none { result ≡ false → (k : ℕ) → wants wanted self.now k ≡ false }
        ensures old { result ≡ true → IsAsked wanted self.now.generation }
    {
        match wanted {
            Wanted::Any => self.live != 0,
            Wanted::Carded(n) => self.generation > n && self.has_set_card(),
        }
    }

    /// Whether some card is set.
    fn has_set_card(&self) -> bool
        requires { IsArea self.now }
        ensures { result ≡ false → (card : ℕ) → card_in (Some self.now) card ≡ false }
    {
        for set in self.cards {
            if set {
                return true;
            }
        }
        false
    }

    /// Whether an object is wanted, in a region of a generation that is.
    #[tactic(auto, using(crate::proofs::WantedObjects::object_below))]
    fn is_wanted(&self, at: u32, wanted: Wanted) -> bool
        requires area { IsArea self.now }
        requires object { IsObject (contents self.now) at }
        requires old { IsAsked wanted self.now.generation }
        ensures { result ≡ wants wanted self.now at }
    {
        match wanted {
            Wanted::Any => true,
            Wanted::Carded(_) => self.cards[(at / CARD) as usize],
        }
    }

    /// From an object on, the first one that is wanted.
    fn wanted_from(&self, first: Option<u32>, wanted: Wanted) -> Option<u32>
        requires area { IsArea self.now }
        requires object { IfSome first (λ at. IsObject (contents self.now) at) }
        requires old { IsAsked wanted self.now.generation }
        ensures { IsFirstSince (wants wanted self.now) first result }
    {
        let mut next = first;
        while let Some(at) = next {
            if self.is_wanted(at, wanted) {
                return next;
            }
            next = self.region.after(at);
        }
        None
    }
}
