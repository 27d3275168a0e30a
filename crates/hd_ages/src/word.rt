// The four ages of a block in one word. Bit `c` is set if clump `c` is of age 1 or more, and bit
// `c + 4` if it is of age 2.

ghost use Rattle.std.specs.Prelude.{◌≡◌, ℕ, ◌<◌, ◌≤◌, ◌/◌, ◌^◌, cond, nat_le, min, slice_set, All};
ghost use Rattle.std.specs.Int.{bit_at};
ghost use Rattle.hd_ages.specs.{Inside.IsWord, Inside.ages_in, Word.age_in};
ghost use Rattle.hd_model.specs.Ages.{grown};

use hd_model::limits::{CLUMP, CLUMPS, OLDEST, ROWS};

/// The word of four ages of 2.
pub(crate) const ALL_OLDEST: u8 = 0xff;

// The bits that are set for clumps of age 1 or more.
const SOME: u8 = 0x0f;

// The distance from a clump's bit for age 1 or more to its bit for age 2.
const TWO: u32 = CLUMPS;

// The bits of the age of clump 0.
const AGE: u8 = 0x11;

// The bit that is set if clump 0 is of age 2.
const OLD: u8 = 0x10;

// The rows of each mask of clumps.
const CLUMP_ROWS: [u64; 16] = [
    0,
    0xffff,
    0xffff_0000,
    0xffff_ffff,
    0xffff_0000_0000,
    0xffff_0000_ffff,
    0xffff_ffff_0000,
    0xffff_ffff_ffff,
    0xffff_0000_0000_0000,
    0xffff_0000_0000_ffff,
    0xffff_0000_ffff_0000,
    0xffff_0000_ffff_ffff,
    0xffff_ffff_0000_0000,
    0xffff_ffff_0000_ffff,
    0xffff_ffff_ffff_0000,
    0xffff_ffff_ffff_ffff,
];

/// The age of a clump.
pub(crate) fn age(word: u8, clump: u32) -> u8
    requires { clump < CLUMPS }
    ensures value { result ≡ age_in word clump }
    ensures small { result ≤ OLDEST }
{
    (word >> clump & 1) + (word >> (clump + TWO) & 1)
}

/// The word after the age of a clump was lowered to `g`, where it was above.
#[tactic(auto, using(crate::proofs::AgeWord::lows))]
#[inline(always)]
pub(crate) fn lower(word: u8, clump: u32, g: u8) -> u8
    requires word { IsWord word }
    requires clump { clump < CLUMPS }
    ensures ages { ages_in result ≡ slice_set (ages_in word) clump (min (age_in word clump) g) }
    ensures after { IsWord result }
{
    match g {
        0 => word & !(AGE << clump),
        1 => word & !(OLD << clump),
        _ => word,
    }
}

/// A mask of the clumps of age `n` or less.
#[tactic(auto, using(crate::proofs::AgeWord::dues))]
pub(crate) fn due(word: u8, n: u8) -> u8
    requires { IsWord word }
    ensures bits { (clump : ℕ) → clump < CLUMPS →
        bit_at result clump ≡ cond (nat_le (age_in word clump) n) 1 0 }
    ensures small { result < 2 ^ CLUMPS }
{
    match n {
        0 => !word & SOME,
        1 => !(word >> TWO) & SOME,
        _ => SOME,
    }
}

/// The rows of the clumps of a mask, as a mask of their block.
#[tactic(auto, using(crate::proofs::AgeWord::rows_read))]
pub(crate) fn rows_of(clumps: u8) -> u64
    requires { clumps < 2 ^ CLUMPS }
    ensures { (row : ℕ) → row < ROWS → bit_at result row ≡ bit_at clumps (row / CLUMP) }
{
    CLUMP_ROWS[clumps as usize]
}

/// The word after each age up to `n` was raised by one, at most to 2.
#[tactic(auto, using(crate::proofs::AgeWord::grows))]
pub(crate) fn grow(word: u8, n: u8) -> u8
    requires { IsWord word }
    ensures ages { ages_in result ≡ grown n (ages_in word) }
    ensures after { IsWord result }
{
    match n {
        0 => word | SOME,
        _ => word | (word & SOME) << TWO | SOME,
    }
}

/// The least of the four ages.
#[tactic(auto, using(crate::proofs::AgeWord::least))]
pub(crate) fn youngest(word: u8) -> u8
    requires { IsWord word }
    ensures least { All (λ age. result ≤ age) (ages_in word) }
    ensures small { result ≤ OLDEST }
{
    if word & SOME != SOME {
        0
    } else if word >> TWO != SOME {
        1
    } else {
        2
    }
}
