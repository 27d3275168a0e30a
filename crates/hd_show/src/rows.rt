// The handles and the weak table's entries, counted by block and by slot.
ghost use Rattle.std.specs.Prelude.{◌≡◌, ℕ, ◌+◌, count_by, IfOk};
ghost use Rattle.hd_seen.specs.Seen.{view_seen};
ghost use Rattle.hd_show.specs.Inside.{tally_at};
ghost use Rattle.hd_show.specs.{Blocks.entry_at, Blocks.entry_within, Blocks.free_in, Blocks.handle_at, Blocks.handle_within, Blocks.is_free_row, Blocks.rows_of, Inside.rows_by};

use crate::tally::Tally;
use hd_model::Memory;
use hd_model::limits::ROWS;
use hd_seen::{SeenEntry, SeenHandle, Snapshot};
use std::alloc::Global;

/// How many handles and how many entries of the weak table there are in each block, and how many of
/// both have each slot.
#[derive(Drop)]
pub(crate) struct Rows {
    handles: Tally,
    entries: Tally,
    taken: Tally,
}

impl Rows {
    /// Counts those of a snapshot.
    pub(crate) fn of(alloc: Global, seen: &Snapshot) -> Result<Rows, Memory>
        ensures { IfOk result (λ rows. rows_by rows ≡ rows_of (view_seen seen.now)) }
    {
        let handles = handles_by_block(alloc, &seen.handles)?;
        let entries = entries_by_block(alloc, &seen.entries)?;
        let mut taken = handles_by_slot(alloc, &seen.handles)?;
        add_entries(&mut taken, &seen.entries)?;
        Ok(Rows {
            handles,
            entries,
            taken,
        })
    }

    /// The number of handles in a block.
    pub(crate) fn handles(&self, block: u32) -> u64
        ensures { result ≡ (rows_by self.now).handles block }
    {
        self.handles.at(u64::from(block))
    }

    /// The number of the weak table's entries in a block.
    pub(crate) fn entries(&self, block: u32) -> u64
        ensures { result ≡ (rows_by self.now).entries block }
    {
        self.entries.at(u64::from(block))
    }

    /// The number of slots of a block that have neither.
    pub(crate) fn free(&self, block: u32) -> u64
        ensures { result ≡ free_in (rows_by self.now) block }
    {
        let left = u64::from(ROWS).saturating_sub(self.handles(block));
        left.saturating_sub(self.entries(block))
    }

    /// Whether a row of a block has neither.
    pub(crate) fn is_free(&self, block: u32, row: u32) -> bool
        ensures { result ≡ is_free_row (rows_by self.now) block row }
    {
        let slot = u64::from(block) * u64::from(ROWS) + u64::from(row);
        self.taken.at(slot) == 0
    }
}

// Counts handles by block.
fn handles_by_block(alloc: Global, handles: &[SeenHandle]) -> Result<Tally, Memory>
    ensures { IfOk result (λ tally. (k : ℕ) → tally_at tally k
        ≡ count_by (handle_within k) handles.now) }
{
    let mut tally = Tally::open(alloc);
    for handle in handles {
        tally.add(handle.slot.0 / ROWS, 1)?;
    }
    Ok(tally)
}

// Counts entries of the weak table by block.
fn entries_by_block(alloc: Global, entries: &[SeenEntry]) -> Result<Tally, Memory>
    ensures { IfOk result (λ tally. (k : ℕ) → tally_at tally k
        ≡ count_by (entry_within k) entries.now) }
{
    let mut tally = Tally::open(alloc);
    for entry in entries {
        tally.add(entry.slot.0 / ROWS, 1)?;
    }
    Ok(tally)
}

// Counts handles by slot.
fn handles_by_slot(alloc: Global, handles: &[SeenHandle]) -> Result<Tally, Memory>
    ensures { IfOk result (λ tally. (k : ℕ) → tally_at tally k
        ≡ count_by (handle_at k) handles.now) }
{
    let mut tally = Tally::open(alloc);
    for handle in handles {
        tally.add(handle.slot.0, 1)?;
    }
    Ok(tally)
}

// Counts entries of the weak table by slot, beside what is counted.
fn add_entries(tally: &mut Tally, entries: &[SeenEntry]) -> Result<(), Memory>
    ensures { IfOk result (λ _. (k : ℕ) →
        tally_at tally.new k ≡ tally_at tally.old k + count_by (entry_at k) entries.now) }
{
    for entry in entries {
        tally.add(entry.slot.0, 1)?;
    }
    Ok(())
}
