// Sets of small numbers, a bit for each.
ghost use Rattle.std.specs.Prelude.{◌≡◌, ◌≢◌, ℕ, ◌+◌, ◌*◌, ◌<◌, ◌≤◌, true, false, length, slice_index, IfOk};
ghost use Rattle.hd_mark.specs.Fields.{is_set};

use hd_mask::bit;
use hd_model::limits::{REGION, REGIONS};
use hd_model::{Memory, filled};
use std::alloc::Global;

// The numbers of one word.
const BITS: u32 = 64;

// The 64-bit words of one region: a bit for each cell of the region.
const WORDS: u32 = REGION / BITS;

/// A set of numbers, each below BITS times the number of words.
#[derive(Drop)]
pub(crate) struct Bits {
    pub(crate) words: Vec<u64>,
}

impl Bits {
    /// The empty set, with room for a number for each cell of `regions` regions.
    pub(crate) fn open(alloc: Global, regions: u32) -> Result<Bits, Memory>
        requires { regions ≤ REGIONS }
        ensures long { IfOk result (λ b. length b.words.items ≡ WORDS * regions) }
        ensures empty { IfOk result (λ b. (i : ℕ) → is_set b.words.items i ≡ false) }
    {
        let words = filled(alloc, 0, WORDS * regions)?;
        Ok(Bits { words })
    }

    /// Whether a number is a member.
    #[tactic(auto, using(hd_mask::proofs::Bits::mask_bits))]
    pub(crate) fn has(&self, i: u32) -> bool
        requires { i < BITS * length self.now.words.items }
        ensures { result ≡ is_set self.now.words.items i }
    {
        self.words[(i / BITS) as usize] & bit(i % BITS) != 0
    }

    /// Whether there is a member among the numbers of a region of this index.
    pub(crate) fn has_some(&self, index: u32) -> bool
        requires { WORDS * (index + 1) ≤ length self.now.words.items }
        ensures { result ≡ false → (k : ℕ) → k < REGION →
            is_set self.now.words.items (index * REGION + k) ≡ false }
    {
        let first = WORDS as usize * index as usize;
        let a = self.word(first);
        let b = self.word(first + 1);
        let c = self.word(first + 2);
        let d = self.word(first + 3);
        a | b | c | d != 0
    }

    // The word at an index.
    fn word(&self, at: usize) -> u64
        requires { at < length self.now.words.items }
        ensures { result ≡ slice_index self.now.words.items at }
    {
        self.words[at]
    }

    /// Adds a number.
    #[tactic(auto, using(hd_mask::proofs::Bits::mask_bits))]
    pub(crate) fn insert(&mut self, i: u32)
        requires { i < BITS * length self.old.words.items }
        ensures long { length self.new.words.items ≡ length self.old.words.items }
        ensures joins { is_set self.new.words.items i ≡ true }
        ensures others { (k : ℕ) → k ≢ i →
            is_set self.new.words.items k ≡ is_set self.old.words.items k }
    {
        let at = (i / BITS) as usize;
        let word = self.words[at];
        self.words[at] = word | bit(i % BITS);
    }
}
