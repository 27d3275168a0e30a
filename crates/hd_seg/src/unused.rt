// Sets of block numbers: all of them, and the least taken out.
ghost use Rattle.std.specs.Prelude.{◌≡◌, ℕ, ◌<◌, ◌≤◌, true, IfOk};
ghost use Rattle.std.specs.FinSet.{contains, remove};
ghost use Rattle.hd_tiers.specs.Sets.{IsLeastFrom};
ghost use Rattle.hd_seg.specs.Inside.{HasAdded, HasFrom, HasNumbers};

use hd_mask::BITS;
use hd_model::Memory;
use hd_model::limits::HOST_BLOCKS;
use hd_tiers::{Masks, Numbers, Tier};
use std::alloc::Global;

/// The set of the numbers from 1 to `last`.
pub(crate) fn numbers_to(alloc: Global, last: u32) -> Result<Tier<Masks>, Memory>
    requires { last ≤ HOST_BLOCKS }
    ensures { IfOk result (λ s. HasNumbers last last s) }
{
    let mut numbers = Tier::<Masks>::open(alloc, last / BITS + 1)?;
    for before in 0..last {
        numbers.insert(before + 1);
    }
    Ok(numbers)
}

/// Adds the numbers after `from` up to `to`.
pub(crate) fn add_numbers(numbers: &mut Tier<Masks>, from: u32, to: u32)
    requires room { to < numbers.old.room }
    requires few { to ≤ HOST_BLOCKS }
    requires low { from ≤ to }
    ensures { HasAdded from to numbers.old numbers.new }
{
    for before in from..to {
        numbers.insert(before + 1);
    }
}

/// Takes the least member from `from` on out of a set that has one.
pub(crate) fn take_from(numbers: &mut Tier<Masks>, from: u32) -> u32
    requires some { HasFrom numbers.old.members from }
    requires within { (i : ℕ) → contains numbers.old.members i ≡ true → i < numbers.old.room }
    ensures least { IsLeastFrom numbers.old.members from result }
    ensures taken { numbers.new ≡
        record numbers.old { members = remove numbers.old.members result } }
{
    let least = numbers.least_from(from).unwrap();
    numbers.remove(least);
    least
}
