// The table of kinds of handle, and of all kinds together.
ghost use Rattle.std.specs.Prelude.{◌≡◌, ◌+◌, ◌++◌, ◌≤◌, codes, count_by, filter, length, max, sum_by, IfOk};
ghost use Rattle.hd_seen.specs.Seen.{view_seen};
ghost use Rattle.hd_seen.specs.declared.SeenBlock.{SeenBlock as Block};
ghost use Rattle.hd_seen.specs.declared.SeenHandle.{SeenHandle as Handle};
ghost use Rattle.hd_show.specs.{Blocks.free_in, Inside.rows_by};
ghost use Rattle.hd_show.specs.Kinds.{block_is, handle_is, is_of, kind_row, kinds_text, name_of};

use crate::columns::{push_cell, push_end};
use crate::rows::Rows;
use crate::tally::plus;
use hd_model::{Kind, Memory};
use hd_print::{Line, Text, kind_name};
use hd_seen::{SeenBlock, SeenHandle, Snapshot};

/// Appends a line for each kind, and one for all.
pub(crate) fn push_kinds(text: &mut Text, seen: &Snapshot, rows: &Rows) -> Result<(), Memory>
    ensures { IfOk result (λ _. text.new
        ≡ text.old ++ kinds_text (rows_by rows.now) (view_seen seen.now)) }
{
    text.push("KIND    HANDLES  BLOCKS  FREE\n")?;
    for kind in Kind::ALL {
        push_kind(text, seen, rows, Some(kind))?;
    }
    push_kind(text, seen, rows, None)?;
    text.push("\n")?;
    Ok(())
}

// Appends the line of a kind, or of all.
fn push_kind(
    text: &mut Text,
    seen: &Snapshot,
    rows: &Rows,
    kind: Option<Kind>,
) -> Result<(), Memory>
    ensures { IfOk result (λ _. text.new
        ≡ text.old ++ kind_row (rows_by rows.now) (view_seen seen.now) kind) }
{
    let free = free_of(&seen.blocks, rows, kind)?;
    let mut line = Line::new();
    push_name(&mut line, kind);
    push_cell(&mut line, 8, count_handles(&seen.handles, kind));
    push_cell(&mut line, 17, count_blocks(&seen.blocks, kind));
    push_cell(&mut line, 25, free);
    push_end(text, line)
}

// Appends the name of a kind, or that it is all.
fn push_name(line: &mut Line, kind: Option<Kind>)
    requires { length line.old + 6 ≤ Line.CAPACITY }
    ensures word { line.new ≡ line.old ++ name_of kind }
    ensures short { length line.new ≤ length line.old + 6 }
{
    match kind {
        Some(kind) => line.push_str(kind_name(kind)),
        None => line.push_str("all"),
    }
}

// The number of handles of a kind, or of all.
fn count_handles(handles: &[SeenHandle], kind: Option<Kind>) -> u64
    ensures { result ≡ count_by (handle_is kind) handles.now }
{
    let mut count = 0;
    for handle in handles {
        if is_of(kind, handle.kind) {
            count += 1;
        }
    }
    count
}

// The number of blocks of handles of a kind, or of all.
fn count_blocks(blocks: &[SeenBlock], kind: Option<Kind>) -> u64
    ensures { result ≡ count_by (block_is kind) blocks.now }
{
    let mut count = 0;
    for block in blocks {
        if block_is(kind, *block) {
            count += 1;
        }
    }
    count
}

// The number of free slots of the blocks of a kind, or of all.
fn free_of(blocks: &[SeenBlock], rows: &Rows, kind: Option<Kind>) -> Result<u64, Memory>
    ensures { IfOk result (λ sum. sum
        ≡ sum_by (λ (b : Block). free_in (rows_by rows.now) b.number) (filter
        (block_is kind) blocks.now)) }
{
    let mut sum = 0;
    for block in blocks {
        if block_is(kind, *block) {
            sum = plus(sum, rows.free(block.number))?;
        }
    }
    Ok(sum)
}

// Whether a block has handles of a kind, or of any.
fn block_is(kind: Option<Kind>, block: SeenBlock) -> bool
    ensures { result ≡ block_is kind block }
{
    match block.kind {
        Some(found) => is_of(kind, found),
        None => false,
    }
}

// Whether a kind is another, or any is asked for.
fn is_of(kind: Option<Kind>, found: Kind) -> bool
    ensures { result ≡ is_of kind found }
{
    match kind {
        Some(kind) => kind.number() == found.number(),
        None => true,
    }
}
