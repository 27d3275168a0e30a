// The entries of the table: the key of each held slot, and how a key is found.
ghost use Rattle.std.specs.Prelude.{◌≡◌, ℕ, ◌+◌, ◌^◌, ◌<◌, ◌≤◌, length};
ghost use Rattle.std.specs.Prelude.{Some, None, IfOk, IfSome, IfNone};
ghost use Rattle.std.specs.FinMap as map;
ghost use Rattle.std.specs.FinMap.{get};
ghost use Rattle.hd_model.specs.Indexed.{by_index};
ghost use Rattle.hd_cwt.specs.WeakTable.{IsIdle, HasKey, LooksAt, bucket_of, entries_in, slots_of};
ghost use Rattle.hd_cwt.specs.Inside.{HasBucket, entry_at, keyed_in};

use crate::rings::Rings;
use hd_model::limits::{HOST_BLOCKS, ROWS};
use hd_model::{Id, Memory, Steps, filled};
use hd_tiers::{Masks, Numbers, Tier};
use std::alloc::Global;
use std::marker::Model;
use std::sync::ledger::Ledger;

/// The buckets of keys, where no other number is asked for.
pub(crate) const BUCKETS: u32 = 4_096;

/// For each slot whether it is held, and its key.
#[derive(Drop)]
pub(crate) struct Entries {
    blocks: u32,
    buckets: u32,
    held: Vec<Option<Option<Id>>>,
    // Each slot is a node, and after them each bucket.
    rings: Rings,
    // The idle slots. Of three tiers the top one has one word for the slots of 4,096 blocks.
    idle: Tier<Tier<Masks>>,
}

impl Model for Entries {
    ghost use Rattle.hd_model.specs.Indexed.{by_index};
    ghost use Rattle.hd_cwt.specs.{WeakTable.WeakTable, WeakTable.weak_table_code, Inside.IsEntries};

    ghost Value = { WeakTable };

    ghost coded = { weak_table_code };

    ghost view = { λ e.
        record { blocks = e.blocks; buckets = e.buckets; held = by_index e.held.items } };

    ghost invariant = { λ e. IsEntries e.blocks e.buckets e.held.items e.rings.next.items
        e.rings.previous.items e.idle };
}

impl Entries {
    /// No slot is held.
    pub(crate) fn open(alloc: Global, blocks: u32, buckets: u32) -> Result<Entries, Memory>
        requires blocks { blocks ≤ HOST_BLOCKS }
        requires buckets { (0 < buckets) × (buckets < 2 ^ 31) }
        ensures { IfOk result (λ e.
            e ≡ record { blocks = blocks; buckets = buckets; held = map.empty }) }
    {
        let slots = ROWS * (blocks + 1);
        let held = filled(alloc, None, slots)?;
        let rings = Rings::open(alloc, slots + buckets)?;
        let idle = Tier::<Tier<Masks>>::open(alloc, blocks + 1)?;
        Ok(Entries {
            blocks,
            buckets,
            held,
            rings,
            idle,
        })
    }

    /// The number of slots.
    pub(crate) fn slots(&self) -> u32
        ensures { result ≡ slots_of self.now }
    {
        self.held.len() as u32
    }

    /// Whether a slot, which may be any number, is held, and its key.
    pub(crate) fn get(&self, slot: u32) -> Option<Option<Id>>
        ensures { result ≡ get self.now.held slot }
    {
        entry(&self.held, slot)
    }

    /// Whether a slot, which may be any number, is held and has a key.
    pub(crate) fn has_key(&self, slot: u32) -> bool
        ensures { result ≡ keyed_in (get self.now.held slot) }
    {
        matches!(self.get(slot), Some(Some(_)))
    }

    /// The least idle slot.
    pub(crate) fn idle(&self) -> Option<u32>
        ensures idle { IfSome result (IsIdle self.now) }
        ensures least { IfSome result (λ slot. (other : ℕ) → IsIdle self.now other → slot ≤ other) }
        ensures none { IfNone result ((slot : ℕ) → IsIdle self.now slot → ⊥) }
    {
        self.idle.least()
    }

    /// The slot with a key. Each entry that is looked at is a step.
    pub(crate) fn find<L: Ledger>(&self, key: Id, steps: &mut Steps<L>) -> Option<u32>
        ensures found { IfSome result (HasKey self.now key) }
        ensures none { IfNone result ((slot : ℕ) → HasKey self.now key slot → ⊥) }
        ensures steps { let n = self.now.buckets in
            let many = entries_in n self.now.held (bucket_of n key) in
            LooksAt result many steps.old steps.new }
    {
        let end = self.bucket(key);
        search(&self.held, &self.rings.next, self.buckets, end, key, steps)
    }

    /// Gives a slot a key. It is held from now on.
    pub(crate) fn put(&mut self, slot: u32, key: Id)
        requires within { slot < slots_of self.old }
        requires free { (other : Id) → HasKey self.old other slot → ⊥ }
        ensures { self.new ≡ record self.old { held = map.insert self.old.held slot (Some key) } }
    {
        let end = self.bucket(key);
        self.held[slot as usize] = Some(Some(key));
        self.rings.exchange(end, slot);
        self.idle.remove(slot);
    }

    /// Takes the key of a slot, if it has one. It is held from now on.
    pub(crate) fn clear(&mut self, slot: u32)
        requires { slot < slots_of self.old }
        ensures { self.new ≡ record self.old { held = map.insert self.old.held slot None } }
    {
        let before = self.rings.previous[slot as usize];
        self.held[slot as usize] = Some(None);
        self.rings.exchange(before, slot);
        self.idle.insert(slot);
    }

    /// Releases an idle slot, which is held no more. It is in no bucket.
    pub(crate) fn release(&mut self, idle: u32)
        requires { IsIdle self.old idle }
        ensures { self.new ≡ record self.old { held = map.remove self.old.held idle } }
    {
        self.held[idle as usize] = None;
        self.idle.remove(idle);
    }

    // The node of the bucket of a key.
    fn bucket(&self, key: Id) -> u32
        ensures { result ≡ slots_of self.now + bucket_of self.now.buckets key }
    {
        self.slots() + bucket(key, self.buckets)
    }
}

// The bucket of a key, of so many.
fn bucket(key: Id, buckets: u32) -> u32
    requires { 0 < buckets }
    ensures value { result ≡ bucket_of buckets key }
    ensures low { result < buckets }
{
    (key.0 % u64::from(buckets)) as u32
}

// Whether a slot, which may be any number, is held, and its key.
fn entry(held: &[Option<Option<Id>>], slot: u32) -> Option<Option<Id>>
    ensures { result ≡ entry_at held.now slot }
{
    held.get(slot as usize).copied().unwrap_or(None)
}

// The slot with a key, along the ring of its bucket. The number of buckets is for the proof alone.
fn search<L: Ledger>(
    held: &[Option<Option<Id>>],
    next: &[u32],
    buckets: u32,
    end: u32,
    key: Id,
    steps: &mut Steps<L>,
) -> Option<u32>
    requires bucket { HasBucket buckets held.now next.now end (bucket_of buckets key) }
    requires within { (length held.now ≤ end) × (end < length next.now) }
    ensures found { IfSome result (λ slot. entry_at held.now slot ≡ Some (Some key)) }
    ensures none { IfNone result ((slot : ℕ) → entry_at held.now slot ≡ Some (Some key) → ⊥) }
    ensures steps { let many = entries_in buckets (by_index held.now) (bucket_of buckets key) in
        LooksAt result many steps.old steps.new }
{
    let mut at = next[end as usize];
    while at != end {
        steps.tick();
        if held[at as usize] == Some(Some(key)) {
            return Some(at);
        }
        at = next[at as usize];
    }
    None
}
