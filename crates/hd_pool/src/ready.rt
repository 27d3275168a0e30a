// The blocks that have a free slot: numbers, so many for each kind, of which the least of each kind
// is known without a search.
ghost use Rattle.std.specs.Prelude.{◌≡◌, ◌≢◌, ℕ, ◌+◌, ◌*◌, ◌/◌, ◌<◌, ◌≤◌, true, false, IfOk, IfSome, IfNone};
ghost use Rattle.std.specs.FinSet as set;
ghost use Rattle.hd_tiers.specs.Sets.{IsLeastBetween, HasNoneBetween};
ghost use Rattle.hd_pool.specs.Inside.{index_of, IsLeastOrEnd};

use hd_mask::BITS;
use hd_model::limits::{HOST_BLOCKS, KINDS};
use hd_model::{Kind, Memory, filled};
use hd_tiers::{Masks, Numbers, Tier, least_between};
use std::alloc::Global;
use std::marker::Model;

/// A set of numbers, of which each kind has its own.
#[derive(Drop)]
pub(crate) struct Ready {
    // The numbers of each kind.
    stride: u32,
    numbers: Tier<Tier<Masks>>,
    // By kind number, the least member of the kind, or a number past all of the kind.
    least: Vec<u32>,
}

impl Model for Ready {
    ghost use Rattle.hd_pool.specs.Inside.{AreLeast, KindBlocks, kind_blocks_code};

    ghost Value = { KindBlocks };

    ghost coded = { kind_blocks_code };

    ghost view = { λ r. record {
      stride = r.stride;
      room = r.numbers.room;
      members = r.numbers.members;
    } };

    ghost invariant = { λ r. AreLeast r.stride r.numbers.members r.least.items };
}

impl Ready {
    /// The empty set, with room for so many numbers of each kind.
    pub(crate) fn open(alloc: Global, stride: u32) -> Result<Ready, Memory>
        requires { stride ≤ HOST_BLOCKS + 1 }
        ensures { IfOk result (λ r. r ≡ record {
          stride = stride;
          room = BITS * (KINDS * stride / BITS + 1);
          members = set.empty;
        }) }
    {
        let count = KINDS * stride;
        let numbers = Tier::<Tier<Masks>>::open(alloc, count / BITS + 1)?;
        let least = filled(alloc, count, KINDS)?;
        Ok(Ready {
            stride,
            numbers,
            least,
        })
    }

    /// How many numbers each kind has.
    pub(crate) fn stride(&self) -> u32
        ensures value { result ≡ self.now.stride }
        ensures few { result ≤ HOST_BLOCKS + 1 }
    {
        self.stride
    }

    /// The number of a block of a kind.
    pub(crate) fn number_of(&self, kind: Kind, block: u32) -> u32
        requires { block < self.now.stride }
        ensures value { result ≡ index_of self.now.stride kind block }
        ensures below { result + self.now.stride ≤ KINDS * self.now.stride + block }
    {
        number_by(self.stride, kind, block)
    }

    /// The least member of a kind, whose numbers begin at `first`.
    #[inline(always)]
    pub(crate) fn least(&self, kind: Kind, first: u32) -> Option<u32>
        requires { first ≡ index_of self.now.stride kind 0 }
        ensures found { IfSome result
            (IsLeastBetween self.now.members first (first + self.now.stride)) }
        ensures none { IfNone result
            (HasNoneBetween self.now.members first (first + self.now.stride)) }
    {
        let end = number_by(self.stride, kind, self.stride);
        let group = kind.number();
        let at = self.least[group as usize];
        below(at, end)
    }

    /// Whether a number is a member.
    pub(crate) fn contains(&self, i: u32) -> bool
        ensures { result ≡ set.contains self.now.members i }
    {
        self.numbers.contains(i)
    }

    /// Adds a number of a kind. Out of line, since it is rare.
    #[inline(never)]
    pub(crate) fn insert(&mut self, kind: Kind, i: u32)
        requires { let s = self.old.stride in
            (i < self.old.room) × (index_of s kind 0 ≤ i) × (i < index_of s kind s) }
        ensures { self.new ≡ record self.old { members = set.insert self.old.members i } }
    {
        self.numbers.insert(i);
        let group = kind.number();
        let least = self.least[group as usize];
        let lower = least.min(i);
        self.least[group as usize] = lower;
    }

    /// Removes a number of a kind. Out of line, since it is rare.
    #[inline(never)]
    pub(crate) fn remove(&mut self, kind: Kind, i: u32)
        requires { let s = self.old.stride in
            (i < self.old.room) × (index_of s kind 0 ≤ i) × (i < index_of s kind s) }
        ensures { self.new ≡ record self.old { members = set.remove self.old.members i } }
    {
        let end = number_by(self.stride, kind, self.stride);
        self.numbers.remove(i);
        let group = kind.number();
        let least = self.least[group as usize];
        let after = least_without(&self.numbers, least, i, end);
        self.least[group as usize] = after;
    }

    /// Adds a number of a kind if it is wanted.
    pub(crate) fn insert_where(&mut self, wanted: bool, kind: Kind, i: u32)
        requires { let s = self.old.stride in
            (i < self.old.room) × (index_of s kind 0 ≤ i) × (i < index_of s kind s) }
        ensures added { wanted ≡ true → self.new ≡
            record self.old { members = set.insert self.old.members i } }
        ensures kept { wanted ≡ false → self.new ≡ self.old }
    {
        if wanted {
            self.insert(kind, i);
        }
    }

    /// Removes a number of a kind if that is wanted.
    pub(crate) fn remove_where(&mut self, wanted: bool, kind: Kind, i: u32)
        requires { let s = self.old.stride in
            (i < self.old.room) × (index_of s kind 0 ≤ i) × (i < index_of s kind s) }
        ensures removed { wanted ≡ true → self.new ≡
            record self.old { members = set.remove self.old.members i } }
        ensures kept { wanted ≡ false → self.new ≡ self.old }
    {
        if wanted {
            self.remove(kind, i);
        }
    }
}

// The number of a block of a kind, where each kind has `stride` numbers.
fn number_by(stride: u32, kind: Kind, block: u32) -> u32
    requires few { stride ≤ HOST_BLOCKS + 1 }
    requires within { block ≤ stride }
    ensures value { result ≡ index_of stride kind block }
    ensures below { result + stride ≤ KINDS * stride + block }
{
    kind.number() * stride + block
}

// A number, if it is below `to`.
#[inline(always)]
fn below(i: u32, to: u32) -> Option<u32>
    ensures some { IfSome result (λ k. (k ≡ i) × (i < to)) }
    ensures none { IfNone result (to ≤ i) }
{
    if i < to { Some(i) } else { None }
}

// The least member of a kind after `i` was removed, where it was `least` before; `end` is past the
// numbers of the kind.
fn least_without(numbers: &Tier<Tier<Masks>>, least: u32, i: u32, end: u32) -> u32
    requires { i < end }
    ensures kept { least ≢ i → result ≡ least }
    ensures next { least ≡ i → IsLeastOrEnd numbers.now.members (i + 1) end result }
{
    if least == i {
        least_or_end(numbers, i + 1, end)
    } else {
        least
    }
}

// The least member from `from` on and below `to`, or `to`.
fn least_or_end(numbers: &Tier<Tier<Masks>>, from: u32, to: u32) -> u32
    requires { from ≤ to }
    ensures { IsLeastOrEnd numbers.now.members from to result }
{
    match least_between(numbers, from, to) {
        Some(i) => i,
        None => to,
    }
}
