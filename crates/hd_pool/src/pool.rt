ghost use Rattle.std.specs.Prelude.{◌≡◌, ◌↔◌, ℕ, ◌*◌, ◌<◌, ◌≤◌, true, false, Some, None, IsSome, IsNone, IfOk, IfSome, OnSome, IfNone};
ghost use Rattle.std.specs.FinMap.{get};
ghost use Rattle.std.specs.FinMap as map;
ghost use Rattle.std.specs.FinSet.{contains};
ghost use Rattle.std.specs.FinSet as set;
ghost use Rattle.std.specs.Prelude.{length, max, replicate, ◌+◌, ◌-◌, ◌++◌, MatchResult};
ghost use Rattle.hd_model.specs.State.{block_of};
ghost use Rattle.hd_pool.specs.Inside.{IsMoved, with_block};
ghost use Rattle.hd_pool.specs.Pool.{slots_of, IsLeastFreeFor, HasNoneFor, IsWhole, IsLeastWholeOf, HasNoWholeOf};

use crate::ready::Ready;
use hd_mask::BITS;
use hd_model::limits::{HOST_BLOCKS, KINDS, ROWS};
use hd_model::{Kind, Memory, Slot};
use hd_tiers::{Masks, Numbers, Tier, least_between};
use std::alloc::Global;
use std::marker::Model;

/// The free slots of a table, seen as the kind of each added block and the set of free slots. A
/// block has 64 slots. All memory is taken by `open` and `reserve`.
///
/// Each call reads a few masks, whatever the number of blocks: `take` and `put` mostly one.
#[derive(Drop)]
pub struct Pool {
    // The kind of each added block, by its number.
    kinds: Vec<Option<Kind>>,
    free: Masks,
    // For each kind, the blocks that have a free slot.
    ready: Ready,
    // For each kind, the blocks whose slots are all free.
    wholes: Tier<Tier<Masks>>,
}

impl Model for Pool {
    ghost use Rattle.std.specs.Prelude.{◌-◌, length};
    ghost use Rattle.hd_pool.specs.Pool.{FreeSlots, free_slots_code};
    ghost use Rattle.hd_model.specs.Indexed.{by_index};
    ghost use Rattle.hd_pool.specs.Inside.{IsPool, IsWholes};

    ghost Value = { FreeSlots };

    ghost coded = { free_slots_code };

    ghost view = { λ p. record {
      blocks = length p.kinds.items - 1;
      kinds = by_index p.kinds.items;
      free = p.free.members;
    } };

    ghost invariant = { λ p. IsPool p.kinds.items p.free p.ready
        × IsWholes p.kinds.items p.free p.ready.stride p.wholes };
}

impl Pool {
    /// A pool for blocks numbered from 1 to `blocks`. Nothing is free.
    pub fn open(alloc: Global, blocks: u32) -> Result<Pool, Memory>
        requires { blocks ≤ HOST_BLOCKS }
        ensures { IfOk result (λ p.
            p ≡ record { blocks = blocks; kinds = map.empty; free = set.empty }) }
    {
        let free = Masks::open(alloc, blocks + 1)?;
        let ready = Ready::open(alloc, blocks + 1)?;
        let wholes = Tier::<Tier<Masks>>::open(alloc, KINDS * (blocks + 1) / BITS + 1)?;
        match vec![in alloc; None; blocks as usize + 1] {
            Ok(kinds) => Ok(Pool {
                kinds,
                free,
                ready,
                wholes,
            }),
            Err(_) => Err(Memory),
        }
    }

    /// Makes it a pool for at least `blocks` blocks. It looks at each block, so a caller that takes
    /// one more again and again doubles.
    pub fn reserve(&mut self, blocks: u32) -> Result<(), Memory>
        requires { blocks ≤ HOST_BLOCKS }
        ensures { MatchResult result
            (λ _. self.new ≡ record self.old { blocks = max self.old.blocks blocks })
            (λ _. self.new ≡ self.old) }
    {
        if (blocks as usize) < self.kinds.len() {
            return Ok(());
        }
        let stride = blocks + 1;
        let alloc = *self.kinds.allocator();
        let (ready, wholes) = widened(alloc, &self.kinds, &self.ready, &self.wholes, stride)?;
        self.free.reserve(stride)?;
        lengthen(&mut self.kinds, stride)?;
        self.ready = ready;
        self.wholes = wholes;
        Ok(())
    }

    /// Adds a block of a kind. Its slots are free.
    pub fn add_block(&mut self, block: u32, kind: Kind)
        requires within { (1 ≤ block) × (block ≤ self.old.blocks) }
        requires new { get self.old.kinds block ≡ None }
        ensures { self.new ≡ record self.old {
          kinds = map.insert self.old.kinds block kind;
          free = set.union self.old.free (slots_of block);
        } }
    {
        self.kinds[block as usize] = Some(kind);
        self.free.insert_block(block);
        let index = self.ready.number_of(kind, block);
        self.ready.insert(kind, index);
        self.wholes.insert(index);
    }

    /// Takes the lowest free slot of a kind.
    #[inline(always)]
    pub fn take(&mut self, kind: Kind) -> Option<Slot>
        ensures least { IfSome result (IsLeastFreeFor self.old kind) }
        ensures taken { IfSome result (λ slot.
            self.new ≡ record self.old { free = set.remove self.old.free slot.0 }) }
        ensures none { IsNone result ↔ HasNoneFor self.old kind }
        ensures kept { IfNone result (self.new ≡ self.old) }
    {
        let first = self.ready.number_of(kind, 0);
        let at = self.ready.least(kind, first)?;
        let taken = self.free.take_least(at - first).unwrap();
        remove_where(taken.full, &mut self.wholes, at);
        self.ready.remove_where(taken.last, kind, at);
        Some(Slot(taken.number))
    }

    /// Makes a slot of an added block free again.
    #[inline(always)]
    pub fn put(&mut self, slot: Slot)
        requires added { IsSome (get self.old.kinds (block_of slot)) }
        requires taken { contains self.old.free slot.0 ≡ false }
        ensures { self.new ≡ record self.old { free = set.insert self.old.free slot.0 } }
    {
        let block = slot.0 / ROWS;
        let kind = self.kinds[block as usize].unwrap();
        let added = self.free.add(slot.0);
        let index = self.ready.number_of(kind, block);
        self.ready.insert_where(added.first, kind, index);
        insert_where(added.full, &mut self.wholes, index);
    }

    /// The lowest block of a kind whose slots are all free.
    pub fn whole(&self, kind: Kind) -> Option<u32>
        ensures least { IfSome result (IsLeastWholeOf self.now kind) }
        ensures small { IfSome result (λ block. block ≤ HOST_BLOCKS) }
        ensures none { IsNone result ↔ HasNoWholeOf self.now kind }
    {
        let first = self.ready.number_of(kind, 0);
        let at = least_between(&self.wholes, first, first + self.ready.stride())?;
        Some(at - first)
    }

    /// Removes a block whose slots are all free: it is as if it were never added.
    pub fn drop_block(&mut self, block: u32)
        requires added { IsSome (get self.old.kinds block) }
        requires whole { IsWhole self.old block }
        ensures { self.new ≡ record self.old {
          kinds = map.remove self.old.kinds block;
          free = set.difference self.old.free (slots_of block);
        } }
    {
        self.remove_block(block);
    }

    /// Removes a block, whichever of its slots are free: it is as if it were never added.
    pub fn remove_block(&mut self, block: u32)
        requires { IsSome (get self.old.kinds block) }
        ensures { self.new ≡ record self.old {
          kinds = map.remove self.old.kinds block;
          free = set.difference self.old.free (slots_of block);
        } }
    {
        let kind = self.kinds[block as usize].unwrap();
        self.kinds[block as usize] = None;
        self.free.remove_block(block);
        let index = self.ready.number_of(kind, block);
        self.ready.remove(kind, index);
        self.wholes.remove(index);
    }
}

// Adds a number if it is wanted.
#[inline(always)]
fn insert_where(wanted: bool, numbers: &mut Tier<Tier<Masks>>, i: u32)
    requires { i < numbers.old.room }
    ensures added { wanted ≡ true → numbers.new ≡
        record numbers.old { members = set.insert numbers.old.members i } }
    ensures kept { wanted ≡ false → numbers.new ≡ numbers.old }
{
    if wanted {
        insert(numbers, i);
    }
}

// Adds a number: out of line, since it is rarely wanted.
#[inline(never)]
fn insert(numbers: &mut Tier<Tier<Masks>>, i: u32)
    requires { i < numbers.old.room }
    ensures { numbers.new ≡ record numbers.old { members = set.insert numbers.old.members i } }
{
    numbers.insert(i);
}

// Removes a number if that is wanted.
#[inline(always)]
fn remove_where(wanted: bool, numbers: &mut Tier<Tier<Masks>>, i: u32)
    requires { i < numbers.old.room }
    ensures removed { wanted ≡ true → numbers.new ≡
        record numbers.old { members = set.remove numbers.old.members i } }
    ensures kept { wanted ≡ false → numbers.new ≡ numbers.old }
{
    if wanted {
        remove(numbers, i);
    }
}

// Removes a number: out of line, since that is rarely wanted.
#[inline(never)]
fn remove(numbers: &mut Tier<Tier<Masks>>, i: u32)
    requires { i < numbers.old.room }
    ensures { numbers.new ≡ record numbers.old { members = set.remove numbers.old.members i } }
{
    numbers.remove(i);
}

// The lists of blocks by kind, those that have a free slot and those whose slots are all free, with
// `stride` numbers for each kind.
fn widened(
    alloc: Global,
    kinds: &Vec<Option<Kind>>,
    ready: &Ready,
    wholes: &Tier<Tier<Masks>>,
    stride: u32,
) -> Result<(Ready, Tier<Tier<Masks>>), Memory>
    requires few { stride ≤ HOST_BLOCKS + 1 }
    requires within { length kinds.now.items ≤ ready.now.stride }
    requires wide { length kinds.now.items ≤ stride }
    ensures stride { IfOk result (λ made. made.0.stride ≡ stride) }
    ensures ready_room { IfOk result (λ made. KINDS * stride ≤ made.0.room) }
    ensures room { IfOk result (λ made. KINDS * stride ≤ made.1.room) }
    ensures ready { IfOk result (λ made. IsMoved kinds.now.items ready.now.stride stride
        (length kinds.now.items) ready.now.members made.0.members) }
    ensures wholes { IfOk result (λ made. IsMoved kinds.now.items ready.now.stride stride
        (length kinds.now.items) wholes.now.members made.1.members) }
{
    let mut after = Ready::open(alloc, stride)?;
    let mut whole = Tier::<Tier<Masks>>::open(alloc, KINDS * stride / BITS + 1)?;
    for block in 0..kinds.len() as u32 {
        move_block(
            kinds[block as usize],
            block,
            ready,
            wholes,
            &mut after,
            &mut whole,
        );
    }
    Ok((after, whole))
}

// Lists a block, which may have no kind, where it was listed before.
fn move_block(
    kind: Option<Kind>,
    block: u32,
    ready: &Ready,
    wholes: &Tier<Tier<Masks>>,
    after: &mut Ready,
    whole: &mut Tier<Tier<Masks>>,
)
    requires low { (block < ready.now.stride) × (block < after.old.stride) }
    requires ready_room { KINDS * after.old.stride ≤ after.old.room }
    requires room { KINDS * after.old.stride ≤ whole.old.room }
    ensures ready { let members = with_block ready.now.stride after.old.stride kind block
        ready.now.members after.old.members in
        after.new ≡ record after.old { members = members } }
    ensures wholes { let members = with_block ready.now.stride after.old.stride kind block
        wholes.now.members whole.old.members in
        whole.new ≡ record whole.old { members = members } }
{
    let Some(kind) = kind else {
        return;
    };
    let from = ready.number_of(kind, block);
    let to = after.number_of(kind, block);
    after.insert_where(ready.contains(from), kind, to);
    insert_where(wholes.contains(from), whole, to);
}

// At least `count` blocks: those that come have no kind.
fn lengthen(kinds: &mut Vec<Option<Kind>>, count: u32) -> Result<(), Memory>
    ensures { MatchResult result
        (λ _. kinds.new.items ≡
        kinds.old.items ++ replicate (count - length kinds.old.items) None)
        (λ _. kinds.new.items ≡ kinds.old.items) }
{
    if count as usize <= kinds.len() {
        return Ok(());
    }
    match kinds.resize(count as usize, None) {
        Ok(()) => Ok(()),
        Err(_) => Err(Memory),
    }
}
