//! All that there is in a store, as tables of text: handles, kinds, blocks, generations, regions,
//! the finalization queue, the weak table, registers, statics and the board.
#![tactic(auto)]

ghost use Rattle.std.specs.Prelude.{◌≡◌, ◌++◌, IfOk};
ghost use Rattle.hd_seen.specs.Seen.{view_seen};
ghost use Rattle.hd_show.specs.Show.{heap_text, rest_text, show_text, table_text};

mod blocks;
mod columns;
mod handles;
mod heaps;
mod kinds;
mod laws;
mod lists;
mod pins;
mod ranges;
mod registers;
mod rows;
mod sums;
mod tally;

use crate::blocks::push_blocks;
use crate::handles::{push_entries, push_handles};
use crate::heaps::{push_generations, push_regions};
use crate::kinds::push_kinds;
pub use crate::laws::{
    generations_add_up, handles_have_one_line, kinds_add_up, objects_are_counted_once,
    ranges_have_the_numbers,
};
use crate::lists::{push_board, push_queue, push_statics};
use crate::registers::push_registers;
use crate::rows::Rows;
use crate::sums::RegionSums;
use hd_model::Memory;
use hd_print::Text;
use hd_seen::Snapshot;
use std::alloc::Global;

/// The tables of a snapshot, each with a header line and with an empty line between each two. Out
/// of memory also where a number does not fit 64 bits, which no memory has room for.
pub fn show_text(alloc: Global, seen: &Snapshot) -> Result<Vec<u8>, Memory>
    ensures { IfOk result (λ text. text.items ≡ show_text (view_seen seen.now)) }
{
    let mut text = Text::open(alloc);
    push_table(&mut text, alloc, seen)?;
    push_heap(&mut text, alloc, seen)?;
    push_rest(&mut text, seen)?;
    Ok(text.into_bytes())
}

// Appends the handles, the kinds and the blocks.
fn push_table(text: &mut Text, alloc: Global, seen: &Snapshot) -> Result<(), Memory>
    ensures { IfOk result (λ _. text.new ≡ text.old ++ table_text (view_seen seen.now)) }
{
    let rows = Rows::of(alloc, seen)?;
    push_handles(text, &seen.handles)?;
    push_kinds(text, seen, &rows)?;
    push_blocks(text, &seen.blocks, &rows)
}

// Appends the generations and the regions.
fn push_heap(text: &mut Text, alloc: Global, seen: &Snapshot) -> Result<(), Memory>
    ensures { IfOk result (λ _. text.new ≡ text.old ++ heap_text (view_seen seen.now)) }
{
    let sums = RegionSums::of(alloc, seen)?;
    push_generations(text, &seen.regions, &sums)?;
    push_regions(text, &seen.regions, &sums)
}

// Appends what is beside the handles and the heap.
fn push_rest(text: &mut Text, seen: &Snapshot) -> Result<(), Memory>
    ensures { IfOk result (λ _. text.new ≡ text.old ++ rest_text (view_seen seen.now)) }
{
    push_queue(text, &seen.queue)?;
    push_entries(text, &seen.entries)?;
    push_registers(text, &seen.registers, &seen.handle_registers)?;
    push_statics(text, &seen.statics)?;
    push_board(text, &seen.board)
}
