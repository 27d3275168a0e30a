ghost use Rattle.std.specs.Prelude.{◌≡◌, ℕ, ◌+◌, ◌-◌, ◌*◌, ◌<◌, ◌≤◌, ◌^◌, List, cond, nat_le, length, map, filter};
ghost use Rattle.std.specs.Prelude.{true, false, replicate, slice_index, take, ◌++◌, All, IfOk, IfSome, IfNone};
ghost use Rattle.std.specs.Prelude.{MatchResult};
ghost use Rattle.std.specs.FinSet.{contains, insert, remove};
ghost use Rattle.std.specs.Int.{bit_at};
ghost use Rattle.hd_mask.specs.Mask.{set_bits};
ghost use Rattle.hd_model.specs.Ages.{clumps_of, grown, lowered};
ghost use Rattle.hd_ages.specs.Clumps.{IsSlotOf, ages_at, clump_at, grown_at, with_ages};
ghost use Rattle.hd_tiers.specs.Sets.{HasNoneFrom};
ghost use Rattle.hd_ages.specs.Inside.{AreAbove, IsCutFrom, IsWord, ages_in};

use crate::word;
use crate::word::ALL_OLDEST;
use hd_mask::BITS;
use hd_model::limits::{CLUMPS, HOST_BLOCKS, OLDEST};
use hd_model::{Memory, filled};
use hd_tiers::{Masks, Numbers, Tier};
use std::alloc::Global;
use std::marker::Model;

/// The ages of all clumps of a table.
#[derive(Drop)]
pub struct AgeMap {
    words: Vec<u8>,
    // No clump is of a lower age. This may be below all of them.
    youngest: u8,
    // The blocks with a clump of age 0, and those with one of age 0 or 1.
    zero: Tier<Masks>,
    young: Tier<Masks>,
}

impl Model for AgeMap {
    ghost use Rattle.std.specs.Prelude.{ℕ, List, All, length, ◌≤◌};
    ghost use Rattle.hd_model.specs.declared.limits.TheConstants.{HOST_BLOCKS, OLDEST};
    ghost use Rattle.hd_ages.specs.{Inside.HasYoung, Inside.IsWord, Word.ages_of};

    ghost Value = { List ℕ };

    ghost view = { λ a. ages_of a.words.items };

    ghost invariant = { λ a. (length a.words.items ≤ HOST_BLOCKS) × All IsWord a.words.items
        × (a.youngest ≤ OLDEST) × All (λ age. a.youngest ≤ age) (ages_of a.words.items)
        × HasYoung 0 a.words.items a.zero × HasYoung 1 a.words.items a.young };
}

impl AgeMap {
    /// The ages of a table of `blocks` blocks: each is 2. All memory is taken here.
    pub fn open(alloc: Global, blocks: u32) -> Result<AgeMap, Memory>
        requires { blocks ≤ HOST_BLOCKS }
        ensures { IfOk result (λ ages. ages ≡ replicate (CLUMPS * blocks) OLDEST) }
    {
        let words = filled(alloc, ALL_OLDEST, blocks)?;
        let zero = Tier::<Masks>::open(alloc, blocks / BITS + 1)?;
        let young = Tier::<Masks>::open(alloc, blocks / BITS + 1)?;
        Ok(AgeMap {
            words,
            youngest: OLDEST,
            zero,
            young,
        })
    }

    /// Makes the map one of at least `blocks` blocks: the ages that come are 2.
    pub fn reserve(&mut self, blocks: u32) -> Result<(), Memory>
        requires { blocks ≤ HOST_BLOCKS }
        ensures { MatchResult result
            (λ _. self.new ≡
            self.old ++ replicate (CLUMPS * blocks - length self.old) OLDEST)
            (λ _. self.new ≡ self.old) }
    {
        self.zero.reserve(blocks / BITS + 1)?;
        self.young.reserve(blocks / BITS + 1)?;
        lengthen(&mut self.words, blocks)
    }

    /// Leaves the ages of the first `blocks` blocks alone. Their memory is kept.
    pub fn cut(&mut self, blocks: u32)
        requires { blocks ≤ HOST_BLOCKS }
        ensures { self.new ≡ take (CLUMPS * blocks) self.old }
    {
        cut_from(&mut self.zero, blocks + 1);
        cut_from(&mut self.young, blocks + 1);
        self.words.truncate(blocks as usize);
    }

    /// The number of blocks.
    pub fn blocks(&self) -> u32
        ensures value { length self.now ≡ CLUMPS * result }
        ensures few { result ≤ HOST_BLOCKS }
        ensures ages { All (λ age. age ≤ OLDEST) self.now }
    {
        self.words.len() as u32
    }

    /// The age of a block's clump, from 0 to 2. The clump is from 0 to 3.
    #[tactic(auto, using(crate::proofs::BlockAges::age_at))]
    pub fn age(&self, block: u32, clump: u32) -> u8
        requires low { 1 ≤ block }
        requires high { CLUMPS * block ≤ length self.now }
        requires clump { clump < CLUMPS }
        ensures value { result ≡ slice_index self.now (clump_at block clump) }
        ensures small { result ≤ OLDEST }
    {
        word::age(self.word(block), clump)
    }

    /// Lowers the age of a block's clump to `g`. An age that is not above `g` stays.
    #[inline(always)]
    pub fn lower(&mut self, block: u32, clump: u32, g: u8)
        requires low { 1 ≤ block }
        requires high { CLUMPS * block ≤ length self.old }
        requires clump { clump < CLUMPS }
        ensures { (slot : ℕ) → IsSlotOf block clump slot → self.new ≡ lowered self.old slot g }
    {
        let before = self.word(block);
        let word = word::lower(before, clump, g);
        if word != before {
            self.set_word(block, word);
        }
    }

    /// A mask of a block's clumps whose age is at most `n`: a collection of generation `n` visits
    /// exactly these.
    #[tactic(auto, using(crate::proofs::BlockAges::reads))]
    pub fn due(&self, block: u32, n: u8) -> u8
        requires low { 1 ≤ block }
        requires high { CLUMPS * block ≤ length self.now }
        ensures bits { (clump : ℕ) → clump < CLUMPS →
            bit_at result clump
            ≡ cond (nat_le (slice_index self.now (clump_at block clump)) n) 1 0 }
        ensures clumps { map (clump_at block) (set_bits result)
            ≡ filter (λ clump. nat_le (slice_index self.now clump) n) (clumps_of block) }
        ensures small { result < 2 ^ CLUMPS }
    {
        word::due(self.word(block), n)
    }

    /// Raises by one each age of a block that is at most `n`, at most to 2.
    pub fn grow(&mut self, block: u32, n: u8)
        requires low { 1 ≤ block }
        requires high { CLUMPS * block ≤ length self.old }
        ensures { self.new ≡ grown_at n block self.old }
    {
        let word = word::grow(self.word(block), n);
        self.set_word(block, word);
    }

    /// Raises by one each age of the table that is at most `n`, at most to 2. It goes over the
    /// blocks with such an age alone.
    pub fn grow_all(&mut self, n: u8)
        ensures { self.new ≡ grown n self.old }
    {
        let youngest = self.youngest;
        if youngest > n {
            return;
        }
        self.grow_blocks(n);
        self.note_youngest((youngest + 1).min(OLDEST));
    }

    /// Whether a collection of generation `n` may have a clump to visit.
    pub(crate) fn may_be_due(&self, n: u8) -> bool
        ensures none { result ≡ false → All (λ age. n < age) self.now }
    {
        self.youngest <= n
    }

    // Raises the ages of all blocks. Where a block has no clump of age 0 or 1, or none up to `n`,
    // they stay.
    fn grow_blocks(&mut self, n: u8)
        ensures { self.new ≡ grown n self.old }
    {
        let young = n.min(1);
        let mut after = 0;
        while let Some(block) = self.next_young(young, after) {
            self.grow(block, n);
            after = block;
        }
    }

    // The least block after `after` with a clump of age `n` or less.
    fn next_young(&self, n: u8, after: u32) -> Option<u32>
        requires young { n ≤ 1 }
        requires few { after ≤ HOST_BLOCKS }
        ensures low { IfSome result (λ block. after + 1 ≤ block) }
        ensures high { IfSome result (λ block. CLUMPS * block ≤ length self.now) }
        ensures few { IfSome result (λ block. block ≤ HOST_BLOCKS) }
        ensures above { IfSome result (λ block.
            AreAbove n self.now (CLUMPS * after) (CLUMPS * block - CLUMPS)) }
        ensures none { IfNone result (AreAbove n self.now (CLUMPS * after) (length self.now)) }
        ensures ages { All (λ age. age ≤ OLDEST) self.now }
    {
        if n == 0 {
            self.zero.least_from(after + 1)
        } else {
            self.young.least_from(after + 1)
        }
    }

    // Notes an age that no clump is below.
    fn note_youngest(&mut self, age: u8)
        requires small { age ≤ OLDEST }
        requires least { All (λ other. age ≤ other) self.old }
        ensures { self.new ≡ self.old }
    {
        self.youngest = age;
    }

    // The word of a block's ages.
    #[inline(always)]
    fn word(&self, block: u32) -> u8
        requires low { 1 ≤ block }
        requires high { CLUMPS * block ≤ length self.now }
        ensures word { IsWord result }
        ensures ages { ages_in result ≡ ages_at block self.now }
    {
        self.words[block as usize - 1]
    }

    // Writes the word of a block's ages.
    #[inline(never)]
    fn set_word(&mut self, block: u32, word: u8)
        requires low { 1 ≤ block }
        requires high { CLUMPS * block ≤ length self.old }
        requires word { IsWord word }
        ensures { self.new ≡ with_ages block (ages_in word) self.old }
    {
        let least = word::youngest(word);
        self.words[block as usize - 1] = word;
        self.youngest = self.youngest.min(least);
        note(&mut self.zero, block, least, 0);
        note(&mut self.young, block, least, 1);
    }
}

// Notes the least age of a block in the set of those with an age of `most` or less.
fn note(set: &mut Tier<Masks>, block: u32, least: u8, most: u8)
    requires { block < set.old.room }
    ensures young { least ≤ most →
        set.new ≡ record set.old { members = insert set.old.members block } }
    ensures old { most < least →
        set.new ≡ record set.old { members = remove set.old.members block } }
{
    if least <= most {
        set.insert(block);
    } else {
        set.remove(block);
    }
}

// At least `blocks` words: those that come are of four ages of 2.
fn lengthen(words: &mut Vec<u8>, blocks: u32) -> Result<(), Memory>
    ensures { MatchResult result
        (λ _. words.new.items ≡
        words.old.items ++ replicate (blocks - length words.old.items) ALL_OLDEST)
        (λ _. words.new.items ≡ words.old.items) }
{
    if blocks as usize <= words.len() {
        return Ok(());
    }
    match words.resize(blocks as usize, ALL_OLDEST) {
        Ok(()) => Ok(()),
        Err(_) => Err(Memory),
    }
}

// Removes the blocks from `first` on.
fn cut_from(set: &mut Tier<Masks>, first: u32)
    requires few { (b : ℕ) → contains set.old.members b ≡ true → b ≤ HOST_BLOCKS }
    requires within { (b : ℕ) → contains set.old.members b ≡ true → b < set.old.room }
    requires first { first ≤ HOST_BLOCKS + 1 }
    ensures kept { IsCutFrom first set.old set.new }
    ensures none { HasNoneFrom set.new.members first }
{
    let mut from = first;
    while let Some(block) = set.least_from(from) {
        set.remove(block);
        from = block + 1;
    }
}
