// The input of an audit: a script, a dividing line, and the text that is judged.
ghost use Rattle.std.specs.Prelude.{◌≡◌, ◌≤◌, length, MatchOption, IfSome, IfOk, IfErr};
ghost use Rattle.hd_model.specs.Grammar.{AreLists};
ghost use Rattle.hd_model.specs.RunTexts.{cut_lines};
ghost use Rattle.hd_script.specs.AuditInput.{is_dividing, NoneDivides, IsDivided, IsAuditInput};
ghost use Rattle.hd_script.specs.AuditInput.{IsInputFault};

use crate::fault::ScriptFault;
use crate::parsing::parse;
use crate::reading::spells;
use crate::scripts::Scripts;
use crate::text::{after_line, next_word};
use hd_model::limits::MOST_BYTES;
use std::alloc::Global;

/// Reads the input of an audit, of at most 8,388,608 bytes: a script, the first line whose one word
/// is `=`, and the text after it, which is not read.
pub fn parse_audit(alloc: Global, bytes: &[u8]) -> Result<(Scripts, &[u8]), ScriptFault>
    requires { length bytes.now ≤ MOST_BYTES }
    // `Line` has a line of the script, as that of `parse`. Where no line divides, all lines are the
    // script's, and where none of them is at fault either, it has the number after the last one's.
    ensures ok { IfOk result (λ read. IsAuditInput bytes.now read.0 read.1.now) }
    ensures line { IfErr result (IsInputFault bytes.now) }
    ensures lists { IfOk result (λ read. AreLists read.0) }
{
    let Some((script, text)) = divide(bytes) else {
        return Err(undivided(alloc, bytes));
    };
    match parse(alloc, script) {
        Ok(scripts) => Ok((scripts, text)),
        Err(fault) => Err(fault),
    }
}

// What is at fault in bytes of which no line divides.
fn undivided(alloc: Global, bytes: &[u8]) -> ScriptFault
    requires small { length bytes.now ≤ MOST_BYTES }
    requires none { NoneDivides (cut_lines bytes.now) }
    ensures { IsInputFault bytes.now result }
{
    if let Err(fault) = parse(alloc, bytes) {
        return fault;
    }
    ScriptFault::Line(count_lines(bytes) + 1)
}

// The bytes before the first line that divides, and those after it.
fn divide(bytes: &[u8]) -> Option<(&[u8], &[u8])>
    ensures parts { MatchOption result (NoneDivides (cut_lines bytes.now))
        (λ parts. IsDivided bytes.now parts.0.now parts.1.now) }
    ensures short { IfSome result (λ parts. length parts.0.now ≤ length bytes.now) }
{
    let mut rest = bytes;
    'lines: while !rest.is_empty() {
        if divides(rest) {
            let end = bytes.len() - rest.len();
            return Some((&bytes[..end], after_line(rest)));
        }
        rest = after_line(rest);
    }
    None
}

// Whether the first line divides.
fn divides(bytes: &[u8]) -> bool
    ensures { result ≡ is_dividing bytes.now }
{
    match next_word(bytes) {
        Some((word, rest)) => spells(word, "=") && next_word(rest).is_none(),
        None => false,
    }
}

// The number of lines.
fn count_lines(bytes: &[u8]) -> u32
    requires { length bytes.now ≤ MOST_BYTES }
    ensures count { result ≡ length (cut_lines bytes.now) }
    ensures most { result ≤ length bytes.now }
{
    let mut count = 0;
    let mut rest = bytes;
    'lines: while !rest.is_empty() {
        count += 1;
        rest = after_line(rest);
    }
    count
}
