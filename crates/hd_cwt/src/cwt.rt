ghost use Rattle.std.specs.Prelude.{◌≡◌, ℕ, ◌+◌, ◌^◌, ◌<◌, ◌≤◌, ◌↔◌, Some, None, option_map};
ghost use Rattle.std.specs.Prelude.{◌⊎◌, ◌-◌, IfOk, IfSome, IsSome, IsNone, length, vec_capacity};
ghost use Rattle.std.specs.FinMap as map;
ghost use Rattle.std.specs.FinMap.{get, len, contains_key};
ghost use Rattle.hd_model.specs.{Counting.Counts, Table.live_at};
ghost use Rattle.hd_cwt.specs.WeakTable.{CanTake, HasKey, IsIdle, IsIn, IsLeastIdle, IsWeakTable, LooksAt};
ghost use Rattle.hd_cwt.specs.WeakTable.{bucket_of, entries_in, kept_key, room_of, slots_of};
ghost use Rattle.hd_cwt.specs.Inside.{copied, node_at};
ghost use Rattle.hd_cwt.specs.Inside.{IsTaken, IsLeft};

use crate::entries::{BUCKETS, Entries};
use crate::keyed::Keyed;
use hd_model::limits::{HOST_BLOCKS, ROWS};
use hd_model::{Addr, Id, Memory, Slot, Steps};
use hd_seg::Seg;
use std::alloc::Global;
use std::marker::{Brand, Model};
use std::sync::ledger::{Blank, Ledger};

/// The weak table: the slots that it holds, and the key in each, if it has one.
///
/// A held slot stays held until it is idle and released. It may lose its key and get another. Values
/// are not here: they are the secondaries of the slots' rows. All memory is taken by `open`,
/// `open_with` and `larger`.
pub struct Cwt {
    entries: Entries,
    // The number of held slots, and those of them with a key.
    count: u32,
    keyed: Keyed,
}

// Not derived: what a derived one does is proved again wherever a table is dropped.
impl Drop for Cwt {
    fn drop(self) {
        let Cwt {
            entries: _entries,
            count: _,
            keyed: _keyed,
        } = self;
    }
}

impl Model for Cwt {
    ghost use Rattle.std.specs.Prelude.{vec_capacity};
    ghost use Rattle.hd_cwt.specs.{WeakTable.WeakTable, WeakTable.weak_table_code, Inside.IsListed};

    ghost Value = { WeakTable };

    ghost coded = { weak_table_code };

    ghost view = { λ t. t.entries };

    ghost invariant = { λ t. IsListed t.entries t.count t.keyed.slots.items t.keyed.indexes.items
        (vec_capacity t.keyed.slots) };
}

impl Cwt {
    /// A table for the slots of `blocks` blocks, with room for 64 of each pair of blocks. No slot
    /// is held.
    pub fn open(alloc: Global, blocks: u32) -> Result<Cwt, Memory>
        requires { blocks ≤ HOST_BLOCKS }
        ensures { IfOk result (λ t.
            t ≡ record { blocks = blocks; buckets = BUCKETS; held = map.empty }) }
    {
        Cwt::open_with(alloc, blocks, BUCKETS)
    }

    /// The same, with so many buckets of keys.
    pub fn open_with(alloc: Global, blocks: u32, buckets: u32) -> Result<Cwt, Memory>
        requires blocks { blocks ≤ HOST_BLOCKS }
        requires buckets { (0 < buckets) × (buckets < 2 ^ 31) }
        ensures { IfOk result (λ t.
            t ≡ record { blocks = blocks; buckets = buckets; held = map.empty }) }
    {
        let entries = Entries::open(alloc, blocks, buckets)?;
        let keyed = Keyed::open(alloc, ROWS * (blocks + 1), ROWS * (blocks / 2))?;
        Ok(Cwt {
            entries,
            count: 0,
            keyed,
        })
    }

    /// A table for the slots of as many blocks or more, with so many buckets, which has the same
    /// keys in the same slots. It looks at each slot, so a caller that takes one more again and
    /// again doubles.
    pub fn larger(&self, alloc: Global, blocks: u32, buckets: u32) -> Result<Cwt, Memory>
        requires blocks { (self.now.blocks ≤ blocks) × (blocks ≤ HOST_BLOCKS) }
        requires buckets { (0 < buckets) × (buckets < 2 ^ 31) }
        ensures { IfOk result (λ t.
            t ≡ record self.now { blocks = blocks; buckets = buckets }) }
    {
        let mut larger = Cwt::open_with(alloc, blocks, buckets)?;
        for slot in 0..self.entries.slots() {
            larger.copy(slot, self.entries.get(slot));
        }
        Ok(larger)
    }

    // Has in a slot that is not held what another table has there.
    fn copy(&mut self, slot: u32, entry: Option<Option<Id>>)
        requires within { slot < slots_of self.old }
        requires free { get self.old.held slot ≡ None }
        requires room { IsSome entry → len self.old.held < room_of self.old }
        requires new { (key : Id) → entry ≡ Some (Some key) →
            (other : ℕ) → ¬ (HasKey self.old key other) }
        ensures { self.new ≡ copied self.old slot entry }
    {
        match entry {
            Some(Some(key)) => self.add(key, Slot(slot)),
            Some(None) => self.hold(slot),
            None => {}
        }
    }

    // Holds a slot that is not held, without a key.
    fn hold(&mut self, slot: u32)
        requires within { slot < slots_of self.old }
        requires free { get self.old.held slot ≡ None }
        requires room { len self.old.held < room_of self.old }
        ensures { self.new ≡ record self.old { held = map.insert self.old.held slot None } }
    {
        self.entries.clear(slot);
        self.count += 1;
    }

    /// Whether a slot, which may be any number, is held.
    pub fn held(&self, slot: Slot) -> bool
        ensures value { result ≡ contains_key self.now.held slot.0 }
        ensures table { IsWeakTable self.now }
    {
        self.entries.get(slot.0).is_some()
    }

    /// The number of held slots.
    pub fn held_count(&self) -> u32
        ensures value { result ≡ len self.now.held }
        ensures table { IsWeakTable self.now }
    {
        self.count
    }

    /// The number of held slots without a key.
    pub fn idle_count(&self) -> u32
        ensures { Counts (IsIdle self.now) result }
    {
        self.count - self.keyed.slots.len() as u32
    }

    /// The least held slot without a key, in constant time.
    pub fn idle(&self) -> Option<Slot>
        ensures least { IfSome result (IsLeastIdle self.now) }
        ensures none { IsNone result ↔ ((slot : ℕ) → ¬ (IsIdle self.now slot)) }
        ensures table { IsWeakTable self.now }
    {
        let slot = self.entries.idle()?;
        Some(Slot(slot))
    }

    /// The slot with a key. One step is one entry that is looked at, of those in the key's bucket.
    pub fn find<L: Ledger>(&self, key: Id, steps: &mut Steps<L>) -> Option<Slot>
        ensures found { IfSome result (λ slot. HasKey self.now key slot.0) }
        ensures none { IsNone result ↔ ((slot : ℕ) → ¬ (HasKey self.now key slot)) }
        ensures steps { let n = self.now.buckets in
            let many = entries_in n self.now.held (bucket_of n key) in
            LooksAt result many steps.old steps.new }
        ensures table { IsWeakTable self.now }
    {
        let slot = self.entries.find(key, steps)?;
        Some(Slot(slot))
    }

    /// Puts a key into a slot, which is held from now on.
    pub fn add(&mut self, key: Id, slot: Slot)
        requires new { (other : ℕ) → ¬ (HasKey self.old key other) }
        requires within { slot.0 < slots_of self.old }
        requires slot { CanTake self.old slot.0 }
        ensures { self.new ≡ record self.old { held = map.insert self.old.held slot.0 (Some key) } }
    {
        let held = self.held(slot);
        self.entries.put(slot.0, key);
        self.keyed.push(slot.0);
        if !held {
            self.count += 1;
        }
    }

    /// Takes a key out. Its slot stays held, and is idle.
    pub fn remove(&mut self, key: Id)
        requires { IsIn self.old key }
        ensures { (slot : ℕ) → HasKey self.old key slot →
            self.new ≡ record self.old { held = map.insert self.old.held slot None } }
    {
        self.remove_on::<Brand>(key, Blank::new(1));
    }

    // The same, with a counter that nothing reads.
    fn remove_on<L: Ledger>(&mut self, key: Id, blank: Blank)
        requires blank { (L.name ≡ blank.name) × (L.parts ≡ blank.parts) × (0 < blank.parts) }
        requires has { IsIn self.old key }
        ensures { (slot : ℕ) → HasKey self.old key slot →
            self.new ≡ record self.old { held = map.insert self.old.held slot None } }
    {
        let mut steps = Steps::<L>::open(blank);
        let slot = self.entries.find(key, &mut steps).unwrap();
        self.entries.clear(slot);
        self.keyed.remove(slot);
    }

    /// Takes the key out of a held slot, if it has one, without a search. The slot stays held, and
    /// is idle.
    pub fn clear(&mut self, slot: Slot)
        requires { IsSome (get self.old.held slot.0) }
        ensures { self.new ≡ record self.old { held = map.insert self.old.held slot.0 None } }
    {
        let keyed = self.entries.has_key(slot.0);
        self.entries.clear(slot.0);
        if keyed {
            self.keyed.remove(slot.0);
        }
    }

    /// Releases an idle slot, which is held no more.
    pub fn release(&mut self, slot: Slot)
        requires { IsIdle self.old slot.0 }
        ensures { self.new ≡ record self.old { held = map.remove self.old.held slot.0 } }
    {
        self.entries.release(slot.0);
        self.count -= 1;
    }

    /// Takes out the keys in slots whose row has a null target. Their slots stay held. It looks at
    /// each slot with a key once, and at no other. A slot that is not live has no target.
    pub fn sweep(&mut self, seg: &Seg)
        ensures blocks { self.new.blocks ≡ self.old.blocks }
        ensures buckets { self.new.buckets ≡ self.old.buckets }
        ensures each { (slot : ℕ) → get self.new.held slot ≡
            option_map (kept_key seg.now slot) (get self.old.held slot) }
    {
        let mut left = self.keyed.slots.len();
        // From the last on: where a slot is taken off, the one that takes its index was seen.
        while left > 0 {
            left -= 1;
            let slot = self.keyed.slots[left];
            sweep_slot(&mut self.entries, &mut self.keyed, seg, slot);
        }
    }
}

// Takes out the key in a slot that has one, where its row has a null target.
fn sweep_slot(entries: &mut Entries, keyed: &mut Keyed, seg: &Seg, slot: u32)
    requires held { slot < slots_of entries.old }
    requires within { slot < length keyed.old.indexes.items }
    requires listed { node_at keyed.old.indexes.items slot < length keyed.old.slots.items }
    requires last { let slots = keyed.old.slots.items in
        node_at slots (length slots - 1) < length keyed.old.indexes.items }
    ensures swept { let slots = keyed.old.slots.items in let indexes = keyed.old.indexes.items in
        let left = keyed.new.slots.items in let moved = keyed.new.indexes.items in
        IsTaken seg.now slot entries.old entries.new slots indexes left moved
        ⊎ IsLeft seg.now slot entries.old entries.new slots indexes left moved }
    ensures capacity { vec_capacity keyed.new.slots ≡ vec_capacity keyed.old.slots }
{
    if target_of(seg, slot).is_none() {
        entries.clear(slot);
        keyed.remove(slot);
    }
}

// The target of a slot's row. A slot that is not live has none.
fn target_of(seg: &Seg, slot: u32) -> Option<Addr>
    ensures { result ≡ (live_at seg.now slot).target }
{
    seg.row(Slot(slot))?.target
}
