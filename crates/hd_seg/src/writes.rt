ghost use Rattle.std.specs.Prelude.{◌≡◌, ℕ, ◌+◌, ◌*◌, ◌%◌, ◌<◌, ◌≤◌, ◌==◌, Some, length, slice_index_or};
ghost use Rattle.std.specs.FinMap.{get};
ghost use Rattle.std.specs.Option.{ForSome};
ghost use Rattle.hd_seg.specs.{Rows.extra_at, Rows.extra_index, Rows.live_bit, Inside.with_extra};

use crate::blocks::Blocks;
use hd_mask::bit;
use hd_model::limits::{HOST_BLOCKS, ROWS};
use hd_model::{Addr, Extra, Slot};

/// The index of the extra of a slot's row, if its block has a data block.
#[inline(always)]
pub(crate) fn extra_index(blocks: &Blocks, slot: Slot) -> Option<usize>
    requires low { ROWS ≤ slot.0 }
    requires high { slot.0 < ROWS * (blocks.now.table.blocks + 1) }
    requires small { (b d : ℕ) → get blocks.now.extras b ≡ Some d → d ≤ HOST_BLOCKS }
    ensures { result ≡ extra_index blocks.now slot.0 }
{
    let data = blocks.extras(slot.0 / ROWS)?;
    Some(extra_index_in(data, slot))
}

// The index of the extra of a slot's row, in a data block.
fn extra_index_in(block: u32, slot: Slot) -> usize
    requires { block ≤ HOST_BLOCKS }
    ensures { result ≡ block * ROWS + slot.0 % ROWS }
{
    (block * ROWS + slot.0 % ROWS) as usize
}

// The mask of a block, which may be any number.
fn mask_at(masks: &[u64], block: u32) -> u64
    ensures { result ≡ slice_index_or masks.now block 0 }
{
    masks.get(block as usize).copied().unwrap_or(0)
}

/// Whether the bit of a slot, which may be any number, is set.
#[tactic(auto, using(hd_mask::proofs::Bits::mask_bits))]
pub(crate) fn is_marked(masks: &[u64], slot: Slot) -> bool
    ensures { result ≡ (live_bit masks.now slot.0 == 1) }
{
    mask_at(masks, slot.0 / ROWS) & bit(slot.0 % ROWS) != 0
}

/// The extra at an index, where there is one.
#[inline(always)]
pub(crate) fn extra_in(extras: &[Extra<Addr>], index: Option<usize>) -> Extra<Addr>
    requires { ForSome index (λ q. q < length extras.now) }
    ensures { result ≡ extra_at extras.now index }
{
    match index {
        Some(index) => extras[index],
        None => Extra::Nothing,
    }
}

/// Writes an extra, where there is room for one.
#[inline(always)]
pub(crate) fn write_extra(extras: &mut [Extra<Addr>], index: Option<usize>, extra: Extra<Addr>)
    requires { ForSome index (λ q. q < length extras.old) }
    ensures { extras.new ≡ with_extra extras.old index extra }
{
    if let Some(index) = index {
        extras[index] = extra;
    }
}
