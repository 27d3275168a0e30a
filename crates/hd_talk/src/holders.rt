// Who has a slot: the handle registers of all callers, and the board.
ghost use Rattle.std.specs.Prelude.{◌≡◌, ◌++◌, flat_map, IfOk};
ghost use Rattle.std.specs.List.{enumerate_from};
ghost use Rattle.hd_talk.specs.Slots.{board_line, caller_lines, has_slot, holders_text, register_line};

use crate::text::push_line;
use hd_model::Slot;
use hd_print::Line;
use hd_seen::{INDEXES, Snapshot};
use std::alloc::AllocError;

/// Appends a line for each handle register and each board index that has a slot.
pub(crate) fn push_holders(
    text: &mut Vec<u8>,
    seen: &Snapshot,
    slot: Slot,
) -> Result<(), AllocError>
    ensures { IfOk result (λ _. text.new.items ≡ text.old.items
        ++ holders_text seen.now.handle_registers.items seen.now.board slot.0) }
{
    push_callers(text, &seen.handle_registers, slot)?;
    push_board(text, &seen.board, slot)
}

// Appends the lines of all callers.
fn push_callers(
    text: &mut Vec<u8>,
    registers: &[[Option<Slot>; INDEXES]],
    slot: Slot,
) -> Result<(), AllocError>
    ensures { IfOk result (λ _. text.new.items ≡ text.old.items
        ++ flat_map (caller_lines slot.0) (enumerate_from 0 registers.now)) }
{
    for caller in 0..registers.len() {
        push_caller(text, caller, &registers[caller], slot)?;
    }
    Ok(())
}

// Appends the lines of a caller.
fn push_caller(
    text: &mut Vec<u8>,
    caller: usize,
    registers: &[Option<Slot>],
    slot: Slot,
) -> Result<(), AllocError>
    ensures { IfOk result (λ _. text.new.items
        ≡ text.old.items ++ caller_lines slot.0 (caller, registers.now)) }
{
    for d in 0..registers.len() {
        push_register(text, caller, d, registers[d], slot)?;
    }
    Ok(())
}

// Appends the line of a handle register, if it has the slot.
fn push_register(
    text: &mut Vec<u8>,
    caller: usize,
    d: usize,
    held: Option<Slot>,
    slot: Slot,
) -> Result<(), AllocError>
    ensures { IfOk result (λ _. text.new.items
        ≡ text.old.items ++ register_line slot.0 caller (d, held)) }
{
    if !has(held, slot) {
        return Ok(());
    }
    let mut line = Line::new();
    line.push_str("  caller ");
    line.push_number(caller);
    line.push_str(" h");
    line.push_number(d);
    line.push_str("\n");
    push_line(text, &line)
}

// Appends the lines of the board.
fn push_board(text: &mut Vec<u8>, board: &[Option<Slot>], slot: Slot) -> Result<(), AllocError>
    ensures { IfOk result (λ _. text.new.items ≡ text.old.items
        ++ flat_map (board_line slot.0) (enumerate_from 0 board.now)) }
{
    for k in 0..board.len() {
        push_index(text, k, board[k], slot)?;
    }
    Ok(())
}

// Appends the line of a board index, if it has the slot.
fn push_index(
    text: &mut Vec<u8>,
    k: usize,
    held: Option<Slot>,
    slot: Slot,
) -> Result<(), AllocError>
    ensures { IfOk result (λ _. text.new.items ≡ text.old.items ++ board_line slot.0 (k, held)) }
{
    if !has(held, slot) {
        return Ok(());
    }
    let mut line = Line::new();
    line.push_str("  board ");
    line.push_number(k);
    line.push_str("\n");
    push_line(text, &line)
}

// Whether a register or board index has a slot.
fn has(held: Option<Slot>, slot: Slot) -> bool
    ensures { result ≡ has_slot slot.0 held }
{
    match held {
        Some(other) => other.0 == slot.0,
        None => false,
    }
}
