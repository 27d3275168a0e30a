// The first fault of a script.
ghost use Rattle.std.specs.Prelude.{◌≡◌, ◌+◌, ◌<◌, ◌≤◌, [], None, Some, length, option_map, position, MatchOption, IfNone, IfSome};
ghost use Rattle.std.specs.List.{before_first};
ghost use Rattle.hd_model.specs.Grammar.{first_fault, is_line_end, readings_of, words_of};
ghost use Rattle.hd_script.specs.Said.{seen};
ghost use Rattle.hd_faults.specs.{ScriptFaults.FaultOf, ScriptFaults.IsFirstFault, ScriptFaults.is_at_fault, Inside.IsOneTooMany, Inside.count_after};

use crate::fault::{Cause, LineFault, command_fault, fault_of_line};
use crate::words::{content, next_word};
use hd_model::limits::{MOST_BYTES, MOST_COMMANDS};
use hd_script::{Reading, read_line};

/// The first line of a script of at most 8,388,608 bytes that has no reading or is one command too
/// many, by its number from 1, and its fault.
pub fn find_fault(bytes: &[u8]) -> Option<(u32, LineFault<'_>)>
    requires { length bytes.now ≤ MOST_BYTES }
    ensures { MatchOption result (first_fault 1 0 (readings_of bytes.now) ≡ None)
        (λ found. IsFirstFault bytes.now found.0 found.1) }
{
    let mut rest = bytes;
    let mut number = 0;
    let mut commands = 0;
    'lines: while !rest.is_empty() {
        let line = first_line(rest);
        let Some((reading, after)) = read_line(rest) else {
            return numbered(number + 1, fault_of_line(line));
        };
        if is_at_fault(reading, commands) {
            return numbered(number + 1, one_too_many(line));
        }
        number += 1;
        commands = count_after(reading, commands);
        rest = after;
    }
    None
}

/// The fault of the first line of bytes, where so many commands come before it: why it has no
/// reading, or that it is one command too many.
pub fn first_line_fault(bytes: &[u8], commands: u32) -> Option<LineFault<'_>>
    requires { length bytes.now ≤ MOST_BYTES }
    ensures { FaultOf commands (before_first is_line_end bytes.now) result }
{
    let line = first_line(bytes);
    let Some((reading, _rest)) = read_line(bytes) else {
        return fault_of_line(line);
    };
    if is_at_fault(reading, commands) {
        return one_too_many(line);
    }
    None
}

// A fault with the number of its line.
fn numbered(number: u32, fault: Option<LineFault<'_>>) -> Option<(u32, LineFault<'_>)>
    ensures { result ≡ option_map (λ found. (number, found)) fault.entry }
{
    match fault {
        Some(found) => Some((number, found)),
        None => None,
    }
}

// Whether a line is one command too many behind some commands.
fn is_at_fault(reading: Reading, commands: u32) -> bool
    ensures { result ≡ is_at_fault commands (Some (seen reading)) }
{
    match reading {
        Reading::Command(_) => !(commands < MOST_COMMANDS),
        Reading::Blank | Reading::Caller(_) => false,
    }
}

// How many commands there are after a line, with some before it.
fn count_after(reading: Reading, commands: u32) -> u32
    requires { commands ≤ MOST_BYTES }
    ensures count { result ≡ count_after commands (Some (seen reading)) }
    ensures most { result ≤ commands + 1 }
{
    match reading {
        Reading::Command(_) => commands + 1,
        Reading::Blank | Reading::Caller(_) => commands,
    }
}

// That a line is one command too many, if it has a word.
fn one_too_many(line: &[u8]) -> Option<LineFault<'_>>
    requires { length line.now ≤ MOST_BYTES }
    ensures some { IfSome result (IsOneTooMany line.now) }
    ensures none { IfNone result (words_of line.now ≡ []) }
{
    let Some(first) = next_word(content(line), 1) else {
        return None;
    };
    Some(command_fault(&first, Cause::TooMany))
}

// The first line, without its end.
fn first_line(bytes: &[u8]) -> &[u8]
    ensures line { result.now ≡ before_first is_line_end bytes.now }
    ensures short { length result.now ≤ length bytes.now }
{
    match line_end(bytes) {
        Some(end) => &bytes[..end],
        None => bytes,
    }
}

// Where the first line ends.
fn line_end(bytes: &[u8]) -> Option<usize>
    ensures end { result ≡ position is_line_end bytes.now }
    ensures within { IfSome result (λ end. end < length bytes.now) }
{
    bytes.iter().position(|b| *b == b'\n')
}
