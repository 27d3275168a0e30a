//! The bits of one word: a mask is a set of the 64 rows of a block.
//!
//! Row `i` of the block is bit `i` of the word. Whether a set bit means that the row is free or
//! that it is live is for the caller to say. No call takes memory or refuses anything.
#![tactic(auto)]

ghost use Rattle.std.specs.Prelude.{◌≡◌, ◌≢◌, ◌↔◌, ◌<◌, ◌≤◌, ◌-◌, ◌+◌, ◌^◌, ℕ, min, IsNone, IfSome};
ghost use Rattle.std.specs.Prelude.{[], ◌∷◌, length, slice_get, take, drop};
ghost use Rattle.std.specs.Prelude.{bit_and, bit_or, count_ones};
ghost use Rattle.std.specs.Int.{bit_at};
ghost use Rattle.hd_mask.specs.Mask.{set_bits};

mod laws;

pub use laws::limits_are_these;

/// The number of bits of a mask.
pub const BITS: u32 = 64;

/// The lowest set bit of `mask`, from 0 to 63.
pub fn lowest(mask: u64) -> Option<u32>
    ensures first { result ≡ slice_get (set_bits mask) 0 }
    ensures none { IsNone result ↔ (mask ≡ 0) }
    ensures within { IfSome result (λ i. i < 64) }
    ensures set { IfSome result (λ i. bit_at mask i ≡ 1) }
    ensures least { IfSome result (λ i. (k : ℕ) → k < i → bit_at mask k ≡ 0) }
{
    if mask == 0 {
        None
    } else {
        Some(mask.trailing_zeros())
    }
}

/// The number of set bits of `mask`, from 0 to 64.
pub fn count(mask: u64) -> u32
    ensures ones { result ≡ count_ones mask }
    ensures number { result ≡ length (set_bits mask) }
    ensures bound { result ≤ BITS }
{
    mask.count_ones()
}

/// The mask of row `i` alone, for `i` from 0 to 63.
pub fn bit(i: u32) -> u64
    requires { i < BITS }
    ensures value { result ≡ 2 ^ i }
    ensures alone { set_bits result ≡ i ∷ [] }
    ensures set { bit_at result i ≡ 1 }
    ensures others { (k : ℕ) → k ≢ i → bit_at result k ≡ 0 }
{
    1 << i
}

/// Splits `mask` in two. The first result has its `n` lowest set bits, or all of them where there
/// are fewer, and the second has the rest.
pub fn take_lowest(mask: u64, n: u32) -> (u64, u64)
    ensures lowest { set_bits result.0 ≡ take n (set_bits mask) }
    ensures rest { set_bits result.1 ≡ drop n (set_bits mask) }

    // Each bit of the mask is in one of the two parts, and no other bit is in either.
    ensures parts { (i : ℕ) → bit_at mask i ≡ bit_at result.0 i + bit_at result.1 i }
    ensures together { mask ≡ bit_or result.0 result.1 }
    ensures apart { bit_and result.0 result.1 ≡ 0 }

    ensures below { (i k : ℕ) → bit_at result.0 i ≡ 1 → bit_at result.1 k ≡ 1 → i < k }
    ensures taken { count_ones result.0 ≡ min n (count_ones mask) }
    ensures left { count_ones result.1 ≡ count_ones mask - n }
{
    let mut left = mask;
    for _taken in 0..n.min(count(mask)) {
        // Clears the lowest set bit: `left - 1` has it clear and differs only there and below.
        left &= left - 1;
    }
    (mask ^ left, left)
}
