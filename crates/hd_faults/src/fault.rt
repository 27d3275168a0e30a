// Why a line has no reading: the first of its words that is at fault.
ghost use Rattle.std.specs.Prelude.{◌≡◌, ◌+◌, ◌≤◌, ◌∷◌, length, is_none, is_some, option_map, IfSome};
ghost use Rattle.hd_model.specs.Grammar.{reading_of, words_of};
ghost use Rattle.hd_faults.specs.Causes.{cause_of, is_other_count, operand_cause};
ghost use Rattle.hd_faults.specs.Faults.{IsPlaced, IsPlacedIn};
ghost use Rattle.hd_faults.specs.Inside.{seen};
ghost use Rattle.hd_faults.specs.declared.fault.Cause.TheVariants as causes;
ghost use Rattle.hd_faults.specs.Placed.{bytes_of, words_from};

use crate::forms::{Form, form_of};
use crate::operand::fits;
use crate::words::{WordAt, content, count_words, next_word, second_word};
use hd_model::Operand;
use hd_model::limits::MOST_BYTES;

/// Why a line is at fault.
#[derive(Clone, Copy, Debug, PartialEq, Eq)]
pub enum Cause {
    /// Its first word is the name of no command.
    Unknown,
    /// Its command takes another number of operands: from `least` to `most`, and the line has
    /// `has`.
    Count {
        least: usize,
        most: usize,
        has: usize,
    },
    /// The operand of this number, from 1, is not what it has to be.
    Operand {
        number: usize,
        wanted: Operand,
    },
    /// It is one command too many for a script.
    TooMany,
}

/// A line's fault: the cause, the first word of the line, and the word at fault with its column,
/// which counts bytes from 1.
#[derive(Clone, Copy)]
pub struct LineFault<'a> {
    pub cause: Cause,
    pub command: &'a [u8],
    pub column: usize,
    pub word: &'a [u8],
}

/// Why a line of at most 8,388,608 bytes, without the byte 10 at its end, has no reading: none
/// where it has one. Of several faults it is the first: the name, then the number of operands, then
/// each operand.
pub fn fault_of_line(line: &[u8]) -> Option<LineFault<'_>>
    requires { length line.now ≤ MOST_BYTES }
    ensures cause { option_map (λ fault. fault.cause) result ≡ cause_of (words_of line.now) }
    ensures reading { is_none result ≡ is_some (reading_of (words_of line.now)) }
    ensures position { IfSome result (IsPlaced line.now) }
{
    let Some(first) = next_word(content(line), 1) else {
        return None;
    };
    fault_of_words(&first)
}

// Why a line with these words has no reading.
fn fault_of_words<'a>(first: &WordAt<'a>) -> Option<LineFault<'a>>
    requires { first.now.end + length first.now.rest.now ≤ MOST_BYTES + 1 }
    ensures cause { option_map (λ fault. fault.cause) result
        ≡ cause_of (first.now.word.now ∷ bytes_of (words_from first.now.end first.now.rest.now)) }
    ensures position { IfSome result (IsPlacedIn
        ((first.now.column, first.now.word.now) ∷ words_from first.now.end first.now.rest.now)) }
{
    let kind = second_word(first.rest, first.end);
    let Some(form) = form_of(first.word, kind) else {
        return Some(command_fault(first, Cause::Unknown));
    };
    let has = count_words(first.rest, first.end);
    if is_other_count(form, has) {
        return Some(command_fault(first, count_cause(form, has)));
    }
    operand_fault(first, form.operands)
}

/// A fault at the first word.
pub(crate) fn command_fault<'a>(first: &WordAt<'a>, cause: Cause) -> LineFault<'a>
    ensures cause { result.cause ≡ cause }
    ensures command { result.command.now ≡ first.now.word.now }
    ensures column { result.column ≡ first.now.column }
    ensures word { result.word.now ≡ first.now.word.now }
{
    LineFault {
        cause,
        command: first.word,
        column: first.column,
        word: first.word,
    }
}

// The cause of another number of operands.
fn count_cause(form: Form, has: usize) -> Cause
    ensures { result ≡ causes.Count form.least (length form.operands.now) has }
{
    Cause::Count {
        least: form.least,
        most: form.operands.len(),
        has,
    }
}

// Whether the number of operands is none that a command takes.
fn is_other_count(form: Form, has: usize) -> bool
    ensures { result ≡ is_other_count (seen form) has }
{
    has < form.least || form.operands.len() < has
}

// The first operand that is at fault.
fn operand_fault<'a>(first: &WordAt<'a>, operands: &[Operand]) -> Option<LineFault<'a>>
    requires { first.now.end + length first.now.rest.now ≤ MOST_BYTES + 1 }
    ensures cause { option_map (λ fault. fault.cause) result
        ≡ operand_cause 1 operands.now (bytes_of (words_from first.now.end first.now.rest.now)) }
    ensures position { IfSome result (IsPlacedIn
        ((first.now.column, first.now.word.now) ∷ words_from first.now.end first.now.rest.now)) }
{
    let mut rest = first.rest;
    let mut column = first.end;
    let mut number = 1;
    'operands: for wanted in operands {
        let Some(found) = next_word(rest, column) else {
            return None;
        };
        if !fits(*wanted, found.word) {
            return Some(LineFault {
                cause: Cause::Operand {
                    number,
                    wanted: *wanted,
                },
                command: first.word,
                column: found.column,
                word: found.word,
            });
        }
        number += 1;
        rest = found.rest;
        column = found.end;
    }
    None
}
