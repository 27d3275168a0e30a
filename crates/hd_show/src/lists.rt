// The tables of the finalization queue, of the statics and of the board.
ghost use Rattle.std.specs.Prelude.{◌≡◌, ◌++◌, IfOk};
ghost use Rattle.hd_show.specs.Lists.{queue_row, queue_text, static_rows, statics_text, board_rows, board_text};

use crate::columns::{pad, push_end, push_object, push_slot};
use hd_model::{Id, Memory, Slot};
use hd_print::{Line, Text};

/// Appends the queue, the next object first.
pub(crate) fn push_queue(text: &mut Text, queue: &[Id]) -> Result<(), Memory>
    ensures { IfOk result (λ _. text.new ≡ text.old ++ queue_text queue.now) }
{
    text.push("QUEUED  OBJECT\n")?;
    for i in 0..queue.len() {
        push_queued(text, i + 1, queue[i])?;
    }
    text.push("\n")?;
    Ok(())
}

// Appends the line of a queued object and its position, from 1 on.
fn push_queued(text: &mut Text, index: usize, id: Id) -> Result<(), Memory>
    ensures { IfOk result (λ _. text.new ≡ text.old ++ queue_row (index, id)) }
{
    let mut line = Line::new();
    line.push_number(index);
    pad(&mut line, 8);
    push_object(&mut line, Some(id));
    push_end(text, line)
}

/// Appends the statics that have an object.
pub(crate) fn push_statics(text: &mut Text, statics: &[Option<Id>]) -> Result<(), Memory>
    ensures { IfOk result (λ _. text.new ≡ text.old ++ statics_text statics.now) }
{
    text.push("STATIC  OBJECT\n")?;
    for i in 0..statics.len() {
        push_static(text, i, statics[i])?;
    }
    text.push("\n")?;
    Ok(())
}

// Appends the line of a static, if it has an object.
fn push_static(text: &mut Text, k: usize, id: Option<Id>) -> Result<(), Memory>
    ensures { IfOk result (λ _. text.new ≡ text.old ++ static_rows (k, id)) }
{
    let Some(id) = id else {
        return Ok(());
    };
    let mut line = Line::new();
    line.push_number(k);
    pad(&mut line, 8);
    push_object(&mut line, Some(id));
    push_end(text, line)
}

/// Appends the board indexes that have a slot.
pub(crate) fn push_board(text: &mut Text, board: &[Option<Slot>]) -> Result<(), Memory>
    ensures { IfOk result (λ _. text.new ≡ text.old ++ board_text board.now) }
{
    text.push("BOARD   SLOT\n")?;
    for i in 0..board.len() {
        push_posted(text, i, board[i])?;
    }
    Ok(())
}

// Appends the line of a board index, if it has a slot.
fn push_posted(text: &mut Text, k: usize, slot: Option<Slot>) -> Result<(), Memory>
    ensures { IfOk result (λ _. text.new ≡ text.old ++ board_rows (k, slot)) }
{
    let Some(slot) = slot else {
        return Ok(());
    };
    let mut line = Line::new();
    line.push_number(k);
    pad(&mut line, 8);
    push_slot(&mut line, Some(slot));
    push_end(text, line)
}
