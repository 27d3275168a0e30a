// The free rows of a block, as ranges.
ghost use Rattle.std.specs.Prelude.{◌≡◌, ℕ, ◌+◌, ◌==◌, false, List, [], ◌∷◌, ◌++◌, if◌then◌else◌, Some, IfOk};
ghost use Rattle.hd_show.specs.{Blocks.free_rows, Blocks.is_free_row, Inside.rows_by};
ghost use Rattle.hd_show.specs.{Inside.left_word, Ranges.range_word, Ranges.ranges_of, Ranges.ranges_word};

use crate::rows::Rows;
use hd_model::Memory;
use hd_model::limits::ROWS;
use hd_print::{Line, Text};

/// All numbers from one to another.
#[derive(Clone, Copy)]
pub(crate) struct Range {
    pub(crate) first: u32,
    pub(crate) last: u32,
}

/// Appends the free rows of a block as ranges, with a comma between each two; a hyphen where no row
/// is free.
pub(crate) fn push_free(text: &mut Text, rows: &Rows, block: u32) -> Result<(), Memory>
    ensures { IfOk result (λ _. text.new
        ≡ text.old ++ ranges_word (ranges_of (free_rows (rows_by rows.now) block))) }
{
    let mut before = None;
    for row in 0..ROWS {
        before = push_row(text, rows, block, before, row)?;
    }
    push_last(text, before)
}

// Appends the last range, a hyphen where there is none.
fn push_last(text: &mut Text, last: Option<Range>) -> Result<(), Memory>
    ensures { IfOk result (λ _. text.new ≡ text.old ++ left_word last []) }
{
    match last {
        Some(range) => push_range(text, range),
        None => text.push("-"),
    }
}

// Goes on to a row.
fn push_row(
    text: &mut Text,
    rows: &Rows,
    block: u32,
    before: Option<Range>,
    row: u32,
) -> Result<Option<Range>, Memory>
    ensures { IfOk result (λ after. (rest : List ℕ) → text.new ++ left_word after rest
        ≡ text.old
        ++ left_word before (if is_free_row
        (rows_by rows.now) block row then row ∷ rest else rest)) }
{
    if !rows.is_free(block, row) {
        return Ok(before);
    }
    let range = push_number(text, before, row)?;
    Ok(Some(range))
}

// Goes on to a number, behind a range if there is one.
fn push_number(text: &mut Text, before: Option<Range>, number: u32) -> Result<Range, Memory>
    ensures { IfOk result (λ range. (rest : List ℕ) →
        text.new ++ left_word (Some range) rest ≡ text.old ++ left_word before (number ∷ rest)) }
{
    match before {
        Some(range) => go_on(text, range, number),
        None => Ok(Range {
            first: number,
            last: number,
        }),
    }
}

// Goes on to a number: it makes the range longer, or another one begins.
fn go_on(text: &mut Text, range: Range, number: u32) -> Result<Range, Memory>
    ensures { IfOk result (λ next. (rest : List ℕ) →
        text.new ++ left_word (Some next) rest ≡ text.old ++ left_word (Some range) (number ∷ rest)) }
{
    if follows(range, number) {
        Ok(Range {
            first: range.first,
            last: number,
        })
    } else {
        begin(text, range, number)
    }
}

// Whether a number is the one behind a range.
fn follows(range: Range, number: u32) -> bool
    ensures { result ≡ (number == range.last + 1) }
{
    u64::from(number) == u64::from(range.last) + 1
}

// Appends a range with a comma: a number that does not follow it begins another one.
fn begin(text: &mut Text, range: Range, number: u32) -> Result<Range, Memory>
    requires { (number == range.last + 1) ≡ false }
    ensures { IfOk result (λ next. (rest : List ℕ) →
        text.new ++ left_word (Some next) rest ≡ text.old ++ left_word (Some range) (number ∷ rest)) }
{
    push_range(text, range)?;
    text.push(",")?;
    Ok(Range {
        first: number,
        last: number,
    })
}

// Appends a range.
fn push_range(text: &mut Text, range: Range) -> Result<(), Memory>
    ensures { IfOk result (λ _. text.new ≡ text.old ++ range_word range) }
{
    let mut line = Line::new();
    line.push_number(range.first);
    if range.first != range.last {
        line.push_str("-");
        line.push_number(range.last);
    }
    text.push_line(&line)
}
