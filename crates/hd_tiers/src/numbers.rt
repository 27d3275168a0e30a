ghost use Rattle.std.specs.Prelude.{◌≡◌, ◌*◌, ◌^◌, ◌<◌, max, IfOk, IfSome, IfNone, MatchResult};
ghost use Rattle.std.specs.FinSet.{contains, insert, remove, empty};
ghost use Rattle.hd_mask.specs.declared.TheConstants.{BITS};
ghost use Rattle.hd_tiers.specs.Sets.{IsLeastFrom, HasNoneFrom, IsLeastBetween, HasNoneBetween};

use hd_model::Memory;
use std::alloc::Global;

/// A set of numbers below a limit, its room, which is 64 for each block.
pub trait Numbers: Drop {
    ghost use Rattle.hd_tiers.specs.Sets.{NumberSet};

    /// The room and the members.
    ghost seen: { Self → NumberSet };

    /// The empty set, with room for the numbers of `blocks` blocks. All memory for it is taken.
    fn open(alloc: Global, blocks: u32) -> Result<Self, Memory>
        requires { BITS * blocks < 2 ^ 32 }
        ensures { IfOk result (λ s. seen s ≡ record { room = BITS * blocks; members = empty }) };

    /// Room for the numbers of `blocks` blocks at least. Memory is taken by doubling.
    fn reserve(&mut self, blocks: u32) -> Result<(), Memory>
        requires { BITS * blocks < 2 ^ 32 }
        ensures { MatchResult result
            (λ _. seen self.new ≡
            record (seen self.old) { room = max (seen self.old).room (BITS * blocks) })
            (λ _. seen self.new ≡ seen self.old) };

    /// Adds a number.
    fn insert(&mut self, i: u32)
        requires { i < (seen self.old).room }
        ensures { seen self.new ≡
            record (seen self.old) { members = insert (seen self.old).members i } };

    /// Removes a number.
    fn remove(&mut self, i: u32)
        requires { i < (seen self.old).room }
        ensures { seen self.new ≡
            record (seen self.old) { members = remove (seen self.old).members i } };

    /// Whether a number is a member. It may be any number.
    fn contains(&self, i: u32) -> bool
        ensures { result ≡ contains (seen self.now).members i };

    /// The least member.
    fn least(&self) -> Option<u32>
        ensures found { IfSome result (IsLeastFrom (seen self.now).members 0) }
        ensures none { IfNone result (HasNoneFrom (seen self.now).members 0) };

    /// The least member from `from` on.
    fn least_from(&self, from: u32) -> Option<u32>
        ensures found { IfSome result (IsLeastFrom (seen self.now).members from) }
        ensures none { IfNone result (HasNoneFrom (seen self.now).members from) };
}

/// The least member from `from` on and below `to`.
pub fn least_between<S: Numbers>(set: &S, from: u32, to: u32) -> Option<u32>
    ensures found { IfSome result (IsLeastBetween (S.seen set.now).members from to) }
    ensures none { IfNone result (HasNoneBetween (S.seen set.now).members from to) }
{
    match set.least_from(from) {
        Some(i) if i < to => Some(i),
        _ => None,
    }
}
