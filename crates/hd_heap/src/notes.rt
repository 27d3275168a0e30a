// What is noted of a heap, as it changes.
ghost use Rattle.std.specs.Prelude.{◌≡◌, ◌-◌, ◌≤◌, ◌||◌, cond, nat_eq};

use hd_model::limits::REGION;

/// The region of the last new object after a region got a generation: 0, for none, where it is 0,
/// since that region may then have room for a new object.
pub(crate) fn still_current(current: u32, generation: u8) -> u32
    ensures { result ≡ cond (nat_eq generation 0) 0 current }
{
    if generation == 0 { 0 } else { current }
}

/// The cells that are left in a region without objects, within the limit.
pub(crate) fn left_in_fresh(limit: u32, used: u32) -> u32
    ensures region { result ≤ REGION }
    ensures limit { result ≤ limit - used }
{
    REGION.min(limit.saturating_sub(used))
}

/// The cells that are left in the current region after some were taken there; of another one
/// nothing is known.
pub(crate) fn left_after(left: u32, cells: u32, is_current: bool) -> u32
    ensures { result ≡ cond is_current (left - cells) 0 }
{
    if is_current {
        left.saturating_sub(cells)
    } else {
        0
    }
}

/// A flag after something was noted, or not.
pub(crate) fn noted(flag: bool, on: bool) -> bool
    ensures { result ≡ (flag || on) }
{
    flag || on
}

/// Notes something in a flag, if it is so. Where it rarely is, a test takes less than a write.
#[inline(always)]
pub(crate) fn note(flag: &mut bool, on: bool)
    ensures { flag.new ≡ (flag.old || on) }
{
    if on {
        *flag = true;
    }
}
