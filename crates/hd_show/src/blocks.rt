// The table of blocks.
ghost use Rattle.std.specs.Prelude.{◌≡◌, ◌++◌, IfOk};
ghost use Rattle.hd_show.specs.{Blocks.block_row, Blocks.blocks_text, Blocks.counts_line, Blocks.data_row, Blocks.kind_block_row, Inside.rows_by};

use crate::columns::{pad, push_cell, push_end, push_hyphen};
use crate::ranges::push_free;
use crate::rows::Rows;
use hd_model::{Kind, Memory};
use hd_print::{Line, Text, kind_name};
use hd_seen::SeenBlock;

/// Appends a line for each block.
pub(crate) fn push_blocks(text: &mut Text, blocks: &[SeenBlock], rows: &Rows) -> Result<(), Memory>
    ensures { IfOk result (λ _. text.new ≡ text.old ++ blocks_text (rows_by rows.now) blocks.now) }
{
    text.push("KIND    BLOCK  HANDLES  ENTRIES  FREE  ROWS\n")?;
    for block in blocks {
        push_block(text, *block, rows)?;
    }
    text.push("\n")?;
    Ok(())
}

// Appends the line of a block.
fn push_block(text: &mut Text, block: SeenBlock, rows: &Rows) -> Result<(), Memory>
    ensures { IfOk result (λ _. text.new ≡ text.old ++ block_row (rows_by rows.now) block) }
{
    match block.kind {
        Some(kind) => push_kind_block(text, kind, block.number, rows),
        None => push_data_block(text, block.number),
    }
}

// Appends the line of a block of extra data.
fn push_data_block(text: &mut Text, number: u32) -> Result<(), Memory>
    ensures { IfOk result (λ _. text.new ≡ text.old ++ data_row number) }
{
    let mut line = Line::new();
    line.push_str("data");
    push_cell(&mut line, 8, u64::from(number));
    push_hyphen(&mut line, 15);
    push_hyphen(&mut line, 24);
    push_hyphen(&mut line, 33);
    push_hyphen(&mut line, 39);
    push_end(text, line)
}

// Appends the line of a block of handles, with its free rows.
fn push_kind_block(text: &mut Text, kind: Kind, number: u32, rows: &Rows) -> Result<(), Memory>
    ensures { IfOk result (λ _. text.new
        ≡ text.old ++ kind_block_row (rows_by rows.now) kind number) }
{
    text.push_line(&counts_line(kind, number, rows))?;
    push_free(text, rows, number)?;
    text.push("\n")
}

// The line of a block of handles up to its free rows.
fn counts_line(kind: Kind, number: u32, rows: &Rows) -> Line
    ensures { result ≡ counts_line (rows_by rows.now) kind number }
{
    let mut line = Line::new();
    line.push_str(kind_name(kind));
    push_cell(&mut line, 8, u64::from(number));
    push_cell(&mut line, 15, rows.handles(number));
    push_cell(&mut line, 24, rows.entries(number));
    push_cell(&mut line, 33, rows.free(number));
    pad(&mut line, 39);
    line
}
