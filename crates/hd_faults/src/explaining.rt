// A line's fault, in words for people.
ghost use Rattle.std.specs.Prelude.{◌≡◌, ◌++◌, ◌<◌, decimal, flat_map, IfOk};
ghost use Rattle.hd_faults.specs.FaultText as texts;
ghost use Rattle.hd_faults.specs.Hints as hints;
ghost use Rattle.hd_faults.specs.declared.fault.Cause.TheVariants as causes;

use crate::fault::{Cause, LineFault};
use crate::hints::{names_for, nearest};
use hd_model::{Memory, Operand};
use hd_print::Line;
use std::alloc::{AllocError, Global};

/// Why an input was not read, where no line of it is at fault.
#[derive(Clone, Copy, Debug, PartialEq, Eq)]
pub enum Unread {
    /// It has more than 8,388,608 bytes.
    TooLarge,
    /// A read failed.
    Failed,
}

// The bytes of a word that are shown, at most.
const LONGEST_WORD: usize = 40;

/// Appends why a line is at fault, by its number from 1: the line and the column, the cause, and
/// what may have been meant. Where memory runs out, the text is not to be used.
pub fn push_fault(
    alloc: Global,
    text: &mut Vec<u8>,
    number: u32,
    fault: &LineFault<'_>,
) -> Result<(), Memory>
    ensures { IfOk result
        (λ _. text.new.items ≡ text.old.items ++ texts.fault_text number fault.now) }
{
    match push_line(alloc, text, number, fault) {
        Ok(()) => Ok(()),
        Err(_) => Err(Memory),
    }
}

/// Appends why an input was not read. Where memory runs out, the text is not to be used.
pub fn push_unread(text: &mut Vec<u8>, unread: Unread) -> Result<(), Memory>
    ensures { IfOk result (λ _. text.new.items ≡ text.old.items ++ texts.unread_text unread) }
{
    let words = match unread {
        Unread::TooLarge => "the input has more than 8388608 bytes\n",
        Unread::Failed => "a read failed\n",
    };
    match push(text, words) {
        Ok(()) => Ok(()),
        Err(_) => Err(Memory),
    }
}

// The whole line.
fn push_line(
    alloc: Global,
    text: &mut Vec<u8>,
    number: u32,
    fault: &LineFault<'_>,
) -> Result<(), AllocError>
    ensures { IfOk result
        (λ _. text.new.items ≡ text.old.items ++ texts.fault_text number fault.now) }
{
    push_position(text, number, fault.column)?;
    push_cause(text, fault)?;
    push_hint(alloc, text, fault)?;
    push(text, "\n")?;
    Ok(())
}

// A line and a column.
fn push_position(text: &mut Vec<u8>, number: u32, column: usize) -> Result<(), AllocError>
    ensures { IfOk result
        (λ _. text.new.items ≡ text.old.items ++ texts.position_words number column) }
{
    push(text, "line ")?;
    push_number(text, number as u64)?;
    push(text, ", column ")?;
    push_number(text, column as u64)?;
    push(text, ": ")?;
    Ok(())
}

// A cause.
fn push_cause(text: &mut Vec<u8>, fault: &LineFault<'_>) -> Result<(), AllocError>
    ensures { IfOk result (λ _. text.new.items ≡ text.old.items
        ++ texts.cause_words fault.now.cause fault.now.command.now fault.now.word.now) }
{
    match fault.cause {
        Cause::Unknown => push_unknown(text, fault.word),
        Cause::Count { least, most, has } => push_count(text, fault.command, least, most, has),
        Cause::Operand { number: _, wanted } => push_operand(
            text,
            fault.command,
            wanted,
            fault.word,
        ),
        Cause::TooMany => push(text, "one command too many: a script has at most 100000"),
    }
}

// A word that is no command.
fn push_unknown(text: &mut Vec<u8>, word: &[u8]) -> Result<(), AllocError>
    ensures { IfOk result (λ _. text.new.items
        ≡ text.old.items ++ texts.cause_words causes.Unknown word.now word.now) }
{
    push(text, "no command ")?;
    push_quoted(text, word)?;
    Ok(())
}

// A number of operands.
fn push_count(
    text: &mut Vec<u8>,
    command: &[u8],
    least: usize,
    most: usize,
    has: usize,
) -> Result<(), AllocError>
    ensures { IfOk result (λ _. text.new.items
        ≡ text.old.items ++ texts.count_words command.now least most has) }
{
    push_bytes(text, command)?;
    push(text, " takes ")?;
    push_number(text, least as u64)?;
    push_more(text, least, most)?;
    push_noun(text, most)?;
    push_number(text, has as u64)?;
    Ok(())
}

// The most that a command takes, where it is more than the least.
fn push_more(text: &mut Vec<u8>, least: usize, most: usize) -> Result<(), AllocError>
    ensures { IfOk result (λ _. text.new.items ≡ text.old.items ++ texts.more_words least most) }
{
    if least == most {
        return Ok(());
    }
    push(text, " or ")?;
    push_number(text, most as u64)?;
    Ok(())
}

// One operand, or more.
fn push_noun(text: &mut Vec<u8>, most: usize) -> Result<(), AllocError>
    ensures { IfOk result (λ _. text.new.items ≡ text.old.items ++ texts.noun most) }
{
    if most == 1 {
        push(text, " operand, not ")
    } else {
        push(text, " operands, not ")
    }
}

// An operand that is not what it has to be.
fn push_operand(
    text: &mut Vec<u8>,
    command: &[u8],
    wanted: Operand,
    word: &[u8],
) -> Result<(), AllocError>
    ensures { IfOk result (λ _. text.new.items
        ≡ text.old.items ++ texts.operand_words command.now wanted word.now) }
{
    push_bytes(text, command)?;
    push(text, ": ")?;
    push_wanted(text, wanted)?;
    push_quoted(text, word)?;
    Ok(())
}

// What a word has to be.
fn push_wanted(text: &mut Vec<u8>, wanted: Operand) -> Result<(), AllocError>
    ensures { IfOk result (λ _. text.new.items ≡ text.old.items ++ texts.wanted_words wanted) }
{
    match wanted {
        Operand::Object => push(text, "no object register r0 to r15 "),
        Operand::Handle => push(text, "no handle register h0 to h15 "),
        Operand::Number(most) => push_range(text, most),
        Operand::Kind => push(text, "no kind "),
        Operand::PlainKind => push(text, "no kind without extra data "),
        Operand::Strength => push(text, "no strength "),
        Operand::Fin => push(text, "only fin may follow, not "),
    }
}

// A number that has to be at most `most`.
fn push_range(text: &mut Vec<u8>, most: u64) -> Result<(), AllocError>
    ensures { IfOk result (λ _. text.new.items ≡ text.old.items ++ texts.range_words most) }
{
    push(text, "no number from 0 to ")?;
    push_number(text, most)?;
    push(text, " ")?;
    Ok(())
}

// What may have been meant.
fn push_hint(alloc: Global, text: &mut Vec<u8>, fault: &LineFault<'_>) -> Result<(), AllocError>
    ensures { IfOk result (λ _. text.new.items ≡ text.old.items
        ++ texts.hint_words (hints.nearest fault.now.word.now (hints.names_for fault.now.cause))) }
{
    match nearest(alloc, fault.word, names_for(fault.cause))? {
        Some(name) => push_name(text, name),
        None => Ok(()),
    }
}

// A name that may have been meant.
fn push_name(text: &mut Vec<u8>, name: &str) -> Result<(), AllocError>
    ensures { IfOk result (λ _. text.new.items ≡ text.old.items ++ texts.name_words name.now) }
{
    push(text, "; did you mean ")?;
    push(text, name)?;
    push(text, "?")?;
    Ok(())
}

// A word between quotes, cut where it is long.
fn push_quoted(text: &mut Vec<u8>, word: &[u8]) -> Result<(), AllocError>
    ensures { IfOk result (λ _. text.new.items ≡ text.old.items ++ texts.quoted word.now) }
{
    push(text, "\"")?;
    push_escaped(text, word)?;
    push(text, "\"")?;
    Ok(())
}

// Bytes as they are shown, and two dots where not all of them are.
fn push_escaped(text: &mut Vec<u8>, bytes: &[u8]) -> Result<(), AllocError>
    ensures { IfOk result (λ _. text.new.items ≡ text.old.items ++ texts.escaped bytes.now) }
{
    if bytes.len() <= LONGEST_WORD {
        push_shown(text, bytes)?;
        return Ok(());
    }
    let (shown, _rest) = bytes.split_at(LONGEST_WORD);
    push_shown(text, shown)?;
    push(text, "..")?;
    Ok(())
}

// Each byte as it is shown.
fn push_shown(text: &mut Vec<u8>, bytes: &[u8]) -> Result<(), AllocError>
    ensures { IfOk result
        (λ _. text.new.items ≡ text.old.items ++ flat_map texts.byte_word bytes.now) }
{
    for byte in bytes {
        push_byte(text, *byte)?;
    }
    Ok(())
}

// A byte as it is shown.
fn push_byte(text: &mut Vec<u8>, byte: u8) -> Result<(), AllocError>
    ensures { IfOk result (λ _. text.new.items ≡ text.old.items ++ texts.byte_word byte) }
{
    if byte == b'"' {
        return push_bytes(text, &[b'\\', byte]);
    }
    if byte == b'\\' {
        return push_bytes(text, &[b'\\', byte]);
    }
    if byte >= 32 && byte <= 126 {
        return push_bytes(text, &[byte]);
    }
    push_bytes(text, &[b'\\', b'x', digit(byte / 16), digit(byte % 16)])
}

// A digit of a number to the base 16.
fn digit(value: u8) -> u8
    requires { value < 16 }
    ensures { result ≡ texts.digit_of value }
{
    if value <= 9 {
        b'0' + value
    } else {
        b'a' + (value - 10)
    }
}

// A number in decimal.
fn push_number(text: &mut Vec<u8>, number: u64) -> Result<(), AllocError>
    ensures { IfOk result (λ _. text.new.items ≡ text.old.items ++ decimal number) }
{
    let mut line = Line::new();
    line.push_number(number);
    push_bytes(text, line.as_bytes())
}

// Words.
fn push(text: &mut Vec<u8>, words: &str) -> Result<(), AllocError>
    ensures { IfOk result (λ _. text.new.items ≡ text.old.items ++ words.now) }
{
    push_bytes(text, words.as_bytes())
}

// Bytes.
fn push_bytes(text: &mut Vec<u8>, bytes: &[u8]) -> Result<(), AllocError>
    ensures { IfOk result (λ _. text.new.items ≡ text.old.items ++ bytes.now) }
{
    text.extend_from_slice(bytes)?;
    Ok(())
}
