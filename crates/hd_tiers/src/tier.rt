ghost use Rattle.hd_tiers.specs.Sets.{IsGapFrom};

use crate::masks::Masks;
use crate::numbers::Numbers;
use hd_mask::BITS;
use hd_model::Memory;
use std::alloc::Global;
use std::marker::Model;

/// A set with a tier above its masks: which blocks have a member. A search reads at most two masks
/// here, and what a search above reads.
///
/// `Tier<Masks>` has two tiers, `Tier<Tier<Masks>>` three.
#[derive(Drop)]
pub struct Tier<S: Numbers> {
    numbers: Masks,
    // The blocks that have a member.
    marked: S,
}

impl<S: Numbers> Model for Tier<S> {
    ghost use Rattle.hd_tiers.specs.{Sets.NumberSet, Sets.number_set_code, Inside.IsTiered};

    ghost Value = { NumberSet };

    ghost coded = { number_set_code };

    ghost view = { λ s. s.numbers };

    ghost invariant = { λ s. IsTiered s.numbers (S.seen s.marked) };
}

impl<S: Numbers> Tier<S> {
    /// The least number from `from` on that is no member. It reads the masks from that of `from` on
    /// up to one that is not full.
    pub fn gap_from(&self, from: u32) -> u32
        ensures { IsGapFrom self.now.members from result }
    {
        self.numbers.gap_from(from)
    }
}

impl<S: Numbers> Numbers for Tier<S> {
    ghost seen = { λ s. s };

    fn open(alloc: Global, blocks: u32) -> Result<Tier<S>, Memory> {
        let numbers = Masks::open(alloc, blocks)?;
        let marked = S::open(alloc, blocks / BITS + 1)?;
        Ok(Tier { numbers, marked })
    }

    fn reserve(&mut self, blocks: u32) -> Result<(), Memory> {
        self.marked.reserve(blocks / BITS + 1)?;
        self.numbers.reserve(blocks)
    }

    fn insert(&mut self, i: u32) {
        let added = self.numbers.add(i);
        if added.first {
            self.marked.insert(i / BITS);
        }
    }

    fn remove(&mut self, i: u32) {
        if self.numbers.remove_last(i) {
            self.marked.remove(i / BITS);
        }
    }

    fn contains(&self, i: u32) -> bool {
        self.numbers.contains(i)
    }

    fn least(&self) -> Option<u32> {
        let block = self.marked.least()?;
        self.numbers.least_of(block)
    }

    fn least_from(&self, from: u32) -> Option<u32> {
        if let Some(i) = self.numbers.least_beside(from) {
            return Some(i);
        }
        let block = self.marked.least_from(from / BITS + 1)?;
        self.numbers.least_of(block)
    }
}
