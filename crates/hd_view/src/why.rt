// Why a printed text is that of no run.
ghost use Rattle.std.specs.Prelude.{◌≡◌, ◌+◌, ◌++◌, ◌≤◌, drop, length, IfOk, OnErr, OnOk};
ghost use Rattle.hd_io.specs.Sink.{Took, WriteBrokeOff};
ghost use Rattle.hd_model.specs.declared.limits.TheConstants.{MOST_BYTES};
ghost use Rattle.hd_model.specs.RunTexts.{cut_lines};
ghost use Rattle.hd_run.specs.{Audit.wrong_text, Bounds.numbers_for};
ghost use Rattle.hd_view.specs.Inside.{AreValid, IsKnownOf, IsTextOf};
ghost use Rattle.hd_view.specs.{Findings.found_text, Findings.FindsIn, Findings.FoundCause, Inside.IsFoundOf, Inside.IsReasonOf};
ghost use Rattle.hd_view.specs.{Inside.IsWrongOf, Findings.Reports};
ghost use Rattle.hd_view.specs.Why.{WhyPromise};
ghost use Rattle.hd_view.specs.WhyText.{why_text};

use crate::accepted::{Due, Judgement, all_due};
use crate::cause::{Cause, cause_of};
use crate::finding::Finding;
use crate::why_text::push_why;
use hd_audit::{Before, Verdict, audit};
use hd_io::{Failed, Sink, Source, read_all, write_all};
use hd_model::Memory;
use hd_model::limits::MOST_BYTES;
use hd_print::Text;
use hd_run::{Fault, Limits, unparsed, unread};
use hd_script::{Scripts, parse_audit};
use std::alloc::Global;

// The status where not all was written.
const UNWRITTEN: u8 = 5;

/// Judges the text that the source gives after a script and a line whose one word is `=`, as
/// `hdt audit` does, with its verdicts, faults and statuses; and where the text is that of no run,
/// writes why. All memory is taken before anything is written.
pub(crate) fn explain<S: Source, K: Sink>(
    alloc: Global,
    limits: &Limits,
    source: &mut S,
    out: &mut K,
) -> u8
    ensures { WhyPromise limits.now (S.seen source.old) (S.seen source.new)
        (K.seen out.old) (K.seen out.new) result }
{
    let found = judge(alloc, limits, source);
    report(&found, out)
}

// Writes what was found, and returns the status.
fn report<K: Sink>(found: &Finding, out: &mut K) -> u8
    ensures { Reports (K.seen out.old) (K.seen out.new) found.now result }
{
    match write_found(found, out) {
        Ok(()) => found.status(),
        Err(Failed) => UNWRITTEN,
    }
}

// Writes the text of what was found.
fn write_found<K: Sink>(found: &Finding, out: &mut K) -> Result<(), Failed>
    ensures all { OnOk result (Took (K.seen out.old) (K.seen out.new) (found_text found.now)) }
    ensures broke_off { OnErr result
        (WriteBrokeOff (K.seen out.old) (K.seen out.new) (found_text found.now)) }
{
    match found {
        Finding::Refused(fault) => write_all(out, fault.line().as_bytes()),
        Finding::Run => write_all(out, "run yes\n".as_bytes()),
        Finding::NoRun(text) => write_all(out, text.as_bytes()),
    }
}

// Reads the source to its end, and judges the text in it against the script before it.
fn judge<S: Source>(alloc: Global, limits: &Limits, source: &mut S) -> Finding
    ensures { FoundCause limits.now (S.seen source.old) (S.seen source.new) result }
{
    match read_all(alloc, source, MOST_BYTES) {
        Ok(bytes) => judge_bytes(alloc, limits, &bytes),
        Err(fault) => Finding::Refused(unread(fault)),
    }
}

// Judges the text in an input that was read whole.
fn judge_bytes(alloc: Global, limits: &Limits, bytes: &[u8]) -> Finding
    requires { length bytes.now ≤ MOST_BYTES }
    ensures { FindsIn limits.now bytes.now result }
{
    match parse_audit(alloc, bytes) {
        Ok((scripts, text)) => match judge_text(alloc, limits, &scripts, text) {
            Ok(found) => found,
            Err(Memory) => Finding::Refused(Fault::NoMemory),
        },
        Err(fault) => Finding::Refused(unparsed(fault)),
    }
}

// Judges a text against a script.
fn judge_text(
    alloc: Global,
    limits: &Limits,
    scripts: &Scripts,
    text: &[u8],
) -> Result<Finding, Memory>
    ensures { IfOk result (IsFoundOf (numbers_for limits.now scripts.now) scripts.now text.now) }
{
    let line = match audit(alloc, scripts, text, limits.heap, limits.blocks) {
        Verdict::Run => return Ok(Finding::Run),
        Verdict::Memory => return Err(Memory),
        Verdict::NotRun { line } => line,
    };
    let judgement = Judgement {
        alloc,
        scripts,
        text,
        heap: limits.heap,
        blocks: limits.blocks,
        count: line - 1,
    };
    Ok(Finding::NoRun(reason(&judgement, line)?))
}

// The verdict that a line is the first that is not right, and why.
fn reason(judgement: &Judgement, line: u32) -> Result<Text, Memory>
    requires text { IsTextOf judgement.now }
    requires line { line ≡ judgement.now.count + 1 }
    requires wrong { IsWrongOf judgement.now }
    ensures { IfOk result (IsReasonOf judgement.now) }
{
    let before = judgement.before()?;
    reason_after(judgement, &before, line)
}

// The same, by what is known after the lines that are right.
fn reason_after(judgement: &Judgement, before: &Before, line: u32) -> Result<Text, Memory>
    requires text { IsTextOf judgement.now }
    requires line { line ≡ judgement.now.count + 1 }
    requires wrong { IsWrongOf judgement.now }
    requires known { IsKnownOf judgement.now before.now }
    requires rest { cut_lines before.now.rest
        ≡ drop judgement.now.count (cut_lines judgement.now.text.now) }
    ensures { IfOk result (IsReasonOf judgement.now) }
{
    let dues = all_due(judgement, before)?;
    let cause = cause_of(before, &dues);
    reason_text(judgement.alloc, line, before, &dues, cause)
}

// The text of a verdict, with the cause.
fn reason_text(
    alloc: Global,
    line: u32,
    before: &Before,
    dues: &[Due],
    cause: Cause,
) -> Result<Text, Memory>
    requires { AreValid dues.now }
    ensures { IfOk result (λ text. text ≡ wrong_text line ++ why_text before.now dues.now cause) }
{
    let mut text = verdict_text(alloc, line)?;
    push_why(&mut text, before, dues, cause)?;
    Ok(text)
}

// The verdict of a text of which a line is the first that is not right.
fn verdict_text(alloc: Global, line: u32) -> Result<Text, Memory>
    ensures { IfOk result (λ text. text ≡ wrong_text line) }
{
    let mut text = Text::open(alloc);
    text.push("run no ")?;
    text.push_number(line)?;
    text.push("\n")?;
    Ok(text)
}
