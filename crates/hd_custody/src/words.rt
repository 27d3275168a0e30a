//! The words of a table, by their numbers, and what they have; those of a kind in the order in
//! which each call goes over them.
ghost use Rattle.std.specs.Prelude.{◌≡◌, ◌+◌, ◌*◌, ◌/◌, ◌%◌, ◌<◌, ◌≤◌};
ghost use Rattle.hd_custody.specs.Counts.{mask_word, slot_block, slot_row, quick_word, reserve_cell, cell_kind, IsCell};
ghost use Rattle.hd_custody.specs.Traces.{probe_word, sweep_word, push_word};

use hd_model::limits::{BLOCKS, KINDS, ROWS};

/// The gate. The kind words of the blocks come next, each at the number of its block.
pub(crate) const GATE: usize = 0;

/// What the gate has while no seat has it.
pub(crate) const FREE: u64 = 0;

/// What it has while one has.
pub(crate) const TAKEN: u64 = 1;

/// The slot of the table, which has the world.
pub(crate) const WORLD: usize = 0;

/// What the word to sleep on has while a caller may sleep on it. It is no word of the table.
pub(crate) const ANY_ASLEEP: u32 = 1;

/// What it has while none does.
pub(crate) const NONE_ASLEEP: u64 = 0;

/// The first mask. Each block has one, from block 1 on.
pub(crate) const FIRST_MASK: usize = BLOCKS as usize + 1;

/// The quick word of the first kind.
pub(crate) const FIRST_QUICK: usize = FIRST_MASK + BLOCKS as usize;

/// The reserve cells of a kind, and as many free cells: of a block one row is returned, and each
/// other has a cell.
pub(crate) const BANK: u32 = ROWS - 1;

/// The words of a kind: its quick word, its reserve cells and its free cells.
pub(crate) const CACHE: u32 = 1 + 2 * BANK;

/// All words.
pub(crate) const WORDS: usize = FIRST_QUICK + KINDS as usize * CACHE as usize;

/// The mask of all rows of a block but row 0.
pub(crate) const ROWS_AFTER_FIRST: u64 = u64::MAX - 1;

/// The kind word of a block of extra data. That of handles is one more than the number of the kind.
pub(crate) const EXTRA_DATA: u64 = KINDS as u64 + 1;

/// The mask of a block.
pub(crate) fn mask_word(block: u32) -> usize
    ensures { result ≡ mask_word block }
{
    BLOCKS as usize + block as usize
}

/// The block of a slot.
pub(crate) fn slot_block(slot: u64) -> u32
    requires { slot < ROWS * (BLOCKS + 1) }
    ensures { result ≡ slot_block slot }
{
    (slot / ROWS as u64) as u32
}

/// The row of a slot in its block.
pub(crate) fn slot_row(slot: u64) -> u32
    ensures value { result ≡ slot_row slot }
    ensures row { result < ROWS }
{
    (slot % ROWS as u64) as u32
}

// The quick word of a kind.
fn quick_word(kind: u32) -> usize
    requires { kind < KINDS }
    ensures { result ≡ quick_word kind }
{
    FIRST_QUICK + CACHE as usize * kind as usize
}

/// The quick word, then the reserve cells from the last down, then the free cells so.
#[tactic(auto, using(crate::proofs::WordNumbers::numbered))]
pub(crate) fn probed(kind: u32, n: u32) -> usize
    requires kind { kind < KINDS }
    requires index { n < CACHE }
    ensures value { result ≡ probe_word kind n }
    ensures cell { IsCell result }
    ensures kind { cell_kind result ≡ kind }
{
    let quick = quick_word(kind);
    if n == 0 {
        quick
    } else if n <= BANK {
        quick + (BANK + 1 - n) as usize
    } else {
        quick + (CACHE + BANK - n) as usize
    }
}

/// The quick word, the reserve cells and the free cells, upwards.
#[tactic(auto, using(crate::proofs::WordNumbers::numbered))]
pub(crate) fn swept(kind: u32, n: u32) -> usize
    requires kind { kind < KINDS }
    requires index { n < CACHE }
    ensures value { result ≡ sweep_word kind n }
    ensures cell { IsCell result }
    ensures kind { cell_kind result ≡ kind }
{
    quick_word(kind) + n as usize
}

/// The quick word, then the free cells from the first up.
#[tactic(auto, using(crate::proofs::WordNumbers::numbered))]
pub(crate) fn pushed(kind: u32, n: u32) -> usize
    requires kind { kind < KINDS }
    requires index { n < ROWS }
    ensures value { result ≡ push_word kind n }
    ensures cell { IsCell result }
    ensures kind { cell_kind result ≡ kind }
{
    let quick = quick_word(kind);
    if n == 0 {
        quick
    } else {
        quick + BANK as usize + n as usize
    }
}

/// A reserve cell.
pub(crate) fn reserved(kind: u32, i: u32) -> usize
    requires kind { kind < KINDS }
    requires index { i < BANK }
    ensures value { result ≡ reserve_cell kind i }
    ensures cell { IsCell result }
    ensures kind { cell_kind result ≡ kind }
{
    quick_word(kind) + 1 + i as usize
}
