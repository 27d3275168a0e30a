ghost use Rattle.std.specs.Prelude.{◌≡◌, ◌↔◌, ℕ, ◌+◌, ◌*◌, ◌/◌, ◌^◌, ◌<◌, ◌≤◌, ◌⊎◌, true, false, length, IfSome, IfNone, IsTrue, MatchResult};
ghost use Rattle.std.specs.FinSet.{contains, insert, remove, union, difference};
ghost use Rattle.hd_tiers.specs.Sets.{numbers_of, IsLeastFrom, HasNoneFrom, HasNoneBetween, HasAllOf, HasNoneOf, HasSomeOf, IsLeastOf};
ghost use Rattle.hd_tiers.specs.Sets.{HasAllBetween, IsGapFrom};
ghost use Rattle.hd_tiers.specs.Inside.{mask_of, Lengthened};

use crate::numbers::Numbers;
use hd_mask::{BITS, bit, lowest};
use hd_model::{Memory, filled};
use std::alloc::Global;
use std::marker::Model;

// The mask with all bits set.
const FULL: u64 = u64::MAX;

/// A set of one tier: a mask for each block. A search for the least member of all reads the masks
/// one after another.
#[derive(Drop)]
pub struct Masks {
    masks: Vec<u64>,
}

impl Model for Masks {
    ghost use Rattle.std.specs.Prelude.{◌*◌, ◌^◌, ◌<◌, length};
    ghost use Rattle.hd_mask.specs.declared.TheConstants.{BITS};
    ghost use Rattle.hd_tiers.specs.Sets.{NumberSet, number_set_code, set_of};

    ghost Value = { NumberSet };

    ghost coded = { number_set_code };

    ghost view = { λ s. record {
      room = BITS * length s.masks.items;
      members = set_of s.masks.items;
    } };

    ghost invariant = { λ s. BITS * length s.masks.items < 2 ^ 32 };
}

/// What an insertion found and left in the block of its number.
#[derive(Clone, Copy, Drop)]
pub struct Added {
    /// The block had no member before.
    pub first: bool,
    /// All numbers of the block are members now.
    pub full: bool,
}

/// A number that was taken out of a set.
#[derive(Clone, Copy, Drop)]
pub struct Taken {
    /// The number.
    pub number: u32,
    /// Its block has no member left.
    pub last: bool,
    /// All numbers of its block were members before.
    pub full: bool,
}

impl Masks {
    /// Adds a number.
    pub fn add(&mut self, i: u32) -> Added
        requires { i < self.old.room }
        ensures value { self.new ≡
            record self.old { members = insert self.old.members i } }
        ensures first { result.first ≡ true → HasNoneOf self.old.members (i / BITS) }
        ensures more { result.first ≡ false → HasSomeOf self.old.members (i / BITS) }
        ensures full { IsTrue result.full ↔ HasAllOf self.new.members (i / BITS) }
    {
        let at = (i / BITS) as usize;
        let mask = self.masks[at];
        let after = mask | bit(i % BITS);
        self.masks[at] = after;
        Added {
            first: mask == 0,
            full: after == FULL,
        }
    }

    /// Removes a number. It returns whether that was the last member of its block.
    pub fn remove_last(&mut self, i: u32) -> bool
        requires { i < self.old.room }
        ensures value { self.new ≡
            record self.old { members = remove self.old.members i } }
        ensures some { result ≡ true → HasSomeOf self.old.members (i / BITS) }
        ensures none { result ≡ true → HasNoneOf self.new.members (i / BITS) }
        ensures kept { result ≡ false →
            HasSomeOf self.new.members (i / BITS) ⊎ HasNoneOf self.old.members (i / BITS) }
    {
        let at = (i / BITS) as usize;
        let mask = self.masks[at];
        let left = mask & !bit(i % BITS);
        self.masks[at] = left;
        is_last(mask, left)
    }

    /// Removes the least member of a block, if the block has one.
    pub fn take_least(&mut self, block: u32) -> Option<Taken>
        requires { BITS * block < self.old.room }
        ensures least { IfSome result (λ t. IsLeastOf self.old.members block t.number) }
        ensures taken { IfSome result (λ t.
            self.new ≡ record self.old { members = remove self.old.members t.number }) }
        ensures last { IfSome result (λ t.
            t.last ≡ true → HasNoneOf self.new.members block) }
        ensures left { IfSome result (λ t.
            t.last ≡ false → HasSomeOf self.new.members block) }
        ensures full { IfSome result (λ t.
            IsTrue t.full ↔ HasAllOf self.old.members block) }
        ensures none { IfNone result (HasNoneOf self.old.members block) }
        ensures kept { IfNone result (self.new ≡ self.old) }
    {
        let mask = self.masks[block as usize];
        let row = lowest(mask)?;
        let left = mask & !bit(row);
        self.masks[block as usize] = left;
        Some(Taken {
            number: block * BITS + row,
            last: left == 0,
            full: mask == FULL,
        })
    }

    /// Adds the numbers of a block.
    pub fn insert_block(&mut self, block: u32)
        requires { BITS * block < self.old.room }
        ensures { self.new ≡
            record self.old { members = union self.old.members (numbers_of block) } }
    {
        self.masks[block as usize] = FULL;
    }

    /// Removes the numbers of a block.
    pub fn remove_block(&mut self, block: u32)
        requires { BITS * block < self.old.room }
        ensures { self.new ≡
            record self.old { members = difference self.old.members (numbers_of block) } }
    {
        self.masks[block as usize] = 0;
    }

    /// The least member of a block.
    pub fn least_of(&self, block: u32) -> Option<u32>
        ensures found { IfSome result (IsLeastOf self.now.members block) }
        ensures none { IfNone result (HasNoneOf self.now.members block) }
    {
        let row = lowest(mask_of(&self.masks, block))?;
        Some(block * BITS + row)
    }

    // The least member from `from` on in the block of `from`.
    pub(crate) fn least_beside(&self, from: u32) -> Option<u32>
        ensures found { IfSome result (IsLeastFrom self.now.members from) }
        ensures none { IfNone result
            (HasNoneBetween self.now.members from (BITS * (from / BITS + 1))) }
    {
        let row = lowest(mask_of(&self.masks, from / BITS) >> (from % BITS))?;
        Some(from + row)
    }

    // The least member of the blocks from `block` on.
    fn least_beyond(&self, block: u32) -> Option<u32>
        ensures found { IfSome result (IsLeastFrom self.now.members (BITS * block)) }
        ensures none { IfNone result (HasNoneFrom self.now.members (BITS * block)) }
    {
        for at in block..blocks_of(&self.masks) {
            if let Some(row) = lowest(self.masks[at as usize]) {
                return Some(at * BITS + row);
            }
        }
        None
    }

    /// The least number from `from` on that is no member. It may be past the room.
    pub(crate) fn gap_from(&self, from: u32) -> u32
        ensures { IsGapFrom self.now.members from result }
    {
        match self.gap_beside(from) {
            Some(i) => i,
            None => self.gap_beyond(from / BITS + 1),
        }
    }

    // The least number from `from` on in the block of `from` that is no member.
    fn gap_beside(&self, from: u32) -> Option<u32>
        ensures found { IfSome result (IsGapFrom self.now.members from) }
        ensures none { IfNone result
            (HasAllBetween self.now.members from (BITS * (from / BITS + 1))) }
        ensures within { IfNone result (BITS * (from / BITS + 1) ≤ self.now.room) }
    {
        let row = lowest(!mask_of(&self.masks, from / BITS) >> (from % BITS))?;
        Some(from + row)
    }

    // The least number of the blocks from `block` on that is no member.
    fn gap_beyond(&self, block: u32) -> u32
        requires { BITS * block ≤ self.now.room }
        ensures { IsGapFrom self.now.members (BITS * block) result }
    {
        for at in block..blocks_of(&self.masks) {
            if let Some(row) = lowest(!self.masks[at as usize]) {
                return at * BITS + row;
            }
        }
        blocks_of(&self.masks) * BITS
    }
}

impl Numbers for Masks {
    ghost seen = { λ s. s };

    fn open(alloc: Global, blocks: u32) -> Result<Masks, Memory> {
        let masks = filled(alloc, 0, blocks)?;
        Ok(Masks { masks })
    }

    fn reserve(&mut self, blocks: u32) -> Result<(), Memory> {
        lengthen(&mut self.masks, blocks)
    }

    fn insert(&mut self, i: u32) {
        self.add(i);
    }

    fn remove(&mut self, i: u32) {
        self.remove_last(i);
    }

    fn contains(&self, i: u32) -> bool {
        mask_of(&self.masks, i / BITS) >> (i % BITS) & 1 == 1
    }

    fn least(&self) -> Option<u32> {
        self.least_beyond(0)
    }

    fn least_from(&self, from: u32) -> Option<u32> {
        if let Some(i) = self.least_beside(from) {
            return Some(i);
        }
        self.least_beyond(from / BITS + 1)
    }
}

// Whether a removal took the last member of a block, by the block's mask before and after it.
fn is_last(mask: u64, left: u64) -> bool
    ensures some { result ≡ true → 0 < mask }
    ensures last { result ≡ true → left ≡ 0 }
    ensures more { result ≡ false → (0 < left) ⊎ (mask ≡ 0) }
{
    left == 0 && mask != 0
}

// The number of masks.
fn blocks_of(masks: &Vec<u64>) -> u32
    requires { BITS * length masks.now.items < 2 ^ 32 }
    ensures { result ≡ length masks.now.items }
{
    masks.len() as u32
}

// At least `blocks` masks, those that are added with no bit set.
fn lengthen(masks: &mut Vec<u64>, blocks: u32) -> Result<(), Memory>
    ensures { MatchResult result
        (λ _. Lengthened masks.old.items masks.new.items blocks)
        (λ _. masks.new.items ≡ masks.old.items) }
{
    if blocks as usize <= masks.len() {
        return Ok(());
    }
    match masks.resize(blocks as usize, 0) {
        Ok(()) => Ok(()),
        Err(_) => Err(Memory),
    }
}

// The mask of a block, 0 past the last.
fn mask_of(masks: &Vec<u64>, block: u32) -> u64
    ensures { result ≡ mask_of masks.now.items block }
{
    match masks.get(block as usize) {
        Some(mask) => *mask,
        None => 0,
    }
}
