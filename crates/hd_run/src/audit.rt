// The judgement of a text against its script.
ghost use Rattle.std.specs.Prelude.{◌≡◌, ◌≤◌, length};
ghost use Rattle.hd_model.specs.declared.limits.TheConstants.{MOST_BYTES};
ghost use Rattle.hd_run.specs.{Inside.FindsIn, Inside.finding_of, Audit.FindingCause, Audit.finding_status};

use crate::fault::{Fault, unparsed, unread};
use crate::limits::Limits;
use hd_audit::{Verdict, audit};
use hd_io::{Source, read_all};
use hd_model::limits::MOST_BYTES;
use hd_script::parse_audit;
use std::alloc::Global;

/// How an audit ends before its report is written.
#[derive(Clone, Copy)]
pub(crate) enum Finding {
    Refused(Fault),
    /// The text is that of a run.
    Right,
    /// It is not: this line is the first that is not right, or the one that is missing.
    WrongAt(u32),
}

impl Finding {
    pub(crate) fn status(self) -> u8
        ensures { result ≡ finding_status self }
    {
        match self {
            Finding::Refused(fault) => fault.status(),
            Finding::Right => 0,
            Finding::WrongAt(_) => 7,
        }
    }
}

/// Reads the source to its end, and judges the text in it against the script before it.
pub(crate) fn judge<S: Source>(alloc: Global, limits: &Limits, source: &mut S) -> Finding
    ensures { FindingCause limits.now (S.seen source.old) (S.seen source.new) result }
{
    match read_all(alloc, source, MOST_BYTES) {
        Ok(bytes) => judge_bytes(alloc, limits, &bytes),
        Err(fault) => Finding::Refused(unread(fault)),
    }
}

// Judges the text in an input that was read whole.
fn judge_bytes(alloc: Global, limits: &Limits, bytes: &[u8]) -> Finding
    requires { length bytes.now ≤ MOST_BYTES }
    ensures { FindsIn limits.now bytes.now result }
{
    match parse_audit(alloc, bytes) {
        Ok((scripts, text)) => {
            finding_of(audit(alloc, &scripts, text, limits.heap, limits.blocks))
        }
        Err(fault) => Finding::Refused(unparsed(fault)),
    }
}

fn finding_of(verdict: Verdict) -> Finding
    ensures { result ≡ finding_of verdict }
{
    match verdict {
        Verdict::Run => Finding::Right,
        Verdict::NotRun { line } => Finding::WrongAt(line),
        Verdict::Memory => Finding::Refused(Fault::NoMemory),
    }
}
