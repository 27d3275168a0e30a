ghost use Rattle.std.specs.Prelude.{◌≡◌, ◌≤◌, ◌++◌, decimal, length};
ghost use Rattle.hd_print.specs.EntryLines.{lines_by};
ghost use Rattle.hd_model.specs.Text.{newline};
ghost use Rattle.hd_run.specs.{Ending.world_that, declared.mode.Output.TheVariants.Lines};
ghost use Rattle.hd_run.specs.{Report.Reports, Inside.Writes, Inside.HasFewCallers, Inside.HasSum, Inside.IsWritable};
ghost use Rattle.hd_run.specs.Report.{text_for, stopped_text, ran_text, whole_text};
ghost use Rattle.hd_run.specs.Audit.{finding_text, ReportsFinding};

use crate::audit::Finding;
use crate::ending::Ending;
use crate::mode::Output;
use crate::root_list::RootList;
use crate::summary::summary;
use crate::{Kept, Outcome};
use hd_io::{Failed, Sink, write_all};
use hd_model::Journal;
use hd_print::{Form, Line, end_line, write_lines};
use hd_world::World;

// The status where the sink failed.
const WRITE_FAULT: u8 = 5;

/// The line that is written where memory ran out.
pub(crate) const MEMORY: &str = "fault memory\n";

const RIGHT: &str = "run yes\n";

// The most bytes of words before a number.
const LONGEST_WORDS: usize = 20;

/// Writes what an ending has to say, and returns its status and what it keeps.
pub(crate) fn report<K: Sink>(sink: &mut K, output: Output, ending: Ending) -> Outcome
    requires { IsWritable output ending }
    ensures { Reports (K.seen sink.old) (K.seen sink.new) output ending result }
{
    let status = match write_text(sink, output, &ending) {
        Ok(()) => ending.status(),
        Err(Failed) => WRITE_FAULT,
    };
    Outcome {
        status,
        kept: ending.kept(),
    }
}

/// Writes what an audit found, and returns its status. Nothing is kept.
pub(crate) fn report_finding<K: Sink>(sink: &mut K, finding: Finding) -> Outcome
    ensures { ReportsFinding (K.seen sink.old) (K.seen sink.new) finding result }
{
    let status = match write_all(sink, finding_line(finding).as_bytes()) {
        Ok(()) => finding.status(),
        Err(Failed) => WRITE_FAULT,
    };
    Outcome {
        status,
        kept: Kept::Nothing,
    }
}

fn write_text<K: Sink>(sink: &mut K, output: Output, ending: &Ending) -> Result<(), Failed>
    requires { IsWritable output ending.now }
    ensures { Writes (K.seen sink.old) (K.seen sink.new) (text_for output ending.now) result }
{
    match ending {
        Ending::Refused(fault) => write_all(sink, fault.line().as_bytes()),
        Ending::Stopped(ran) => write_stopped(sink, output, ran.world().journal()),
        Ending::Done(ran, roots) => write_ran(sink, output, ran.world(), roots),
    }
}

// What is written where memory ran out.
fn write_stopped<K: Sink>(sink: &mut K, output: Output, journal: &Journal) -> Result<(), Failed>
    requires { HasFewCallers journal.now.entries }
    ensures { Writes (K.seen sink.old) (K.seen sink.new) (stopped_text output journal.now.entries)
        result }
{
    match output {
        Output::Lines(form) => write_with_last(sink, form, journal, MEMORY.as_bytes()),
        Output::Summary => write_all(sink, MEMORY.as_bytes()),
    }
}

// What is written of a whole run, and then the lines of its roots, if they were listed.
#[tactic(auto, using(hd_io::proofs::SinkPieces::appending))]
fn write_ran<K: Sink>(
    sink: &mut K,
    output: Output,
    world: &World,
    roots: &Option<RootList>,
) -> Result<(), Failed>
    requires callers { HasFewCallers world.now.journal }
    requires sum { HasSum output world.now }
    ensures { Writes (K.seen sink.old) (K.seen sink.new) (ran_text output world.now roots.now)
        result }
{
    match roots {
        None => write_whole(sink, output, world),
        Some(roots) => {
            write_whole(sink, output, world)?;
            roots.write(sink)
        }
    }
}

// What is written of a whole run.
fn write_whole<K: Sink>(sink: &mut K, output: Output, world: &World) -> Result<(), Failed>
    requires callers { HasFewCallers world.now.journal }
    requires sum { HasSum output world.now }
    ensures { Writes (K.seen sink.old) (K.seen sink.new) (whole_text output world.now) result }
{
    match output {
        Output::Lines(form) => write_world(sink, form, world),
        Output::Summary => write_all(sink, summary(world).as_bytes()),
    }
}

// The lines of a world's journal, and the line of its end.
fn write_world<K: Sink>(sink: &mut K, form: Form, world: &World) -> Result<(), Failed>
    requires { HasFewCallers world.now.journal }
    ensures { Writes (K.seen sink.old) (K.seen sink.new) (whole_text (Lines form) world.now)
        result }
{
    let line = end_line(world.live(), world.objects(), world.collections());
    write_with_last(sink, form, world.journal(), line.as_bytes())
}

// The lines of a journal, and then a last one.
#[tactic(auto, using(hd_io::proofs::SinkPieces::appending))]
fn write_with_last<K: Sink>(
    sink: &mut K,
    form: Form,
    journal: &Journal,
    last: &[u8],
) -> Result<(), Failed>
    requires { HasFewCallers journal.now.entries }
    ensures { Writes (K.seen sink.old) (K.seen sink.new)
        (lines_by form journal.now.entries ++ last.now) result }
{
    write_lines(journal, form, sink)?;
    write_all(sink, last)
}

fn finding_line(finding: Finding) -> Line
    ensures { result ≡ finding_text finding }
{
    match finding {
        Finding::Refused(fault) => fault.line(),
        Finding::Right => line_of(RIGHT),
        Finding::WrongAt(line) => numbered_line("run no ", line),
    }
}

/// A line of this text.
pub(crate) fn line_of(text: &str) -> Line
    requires { length text.now ≤ Line.CAPACITY }
    ensures { result ≡ text.now }
{
    let mut line = Line::new();
    line.push_str(text);
    line
}

/// Words, and then a number.
pub(crate) fn numbered_line(words: &str, number: u32) -> Line
    requires { length words.now ≤ LONGEST_WORDS }
    ensures { result ≡ words.now ++ decimal number ++ newline }
{
    let mut line = Line::new();
    line.push_str(words);
    line.push_number(number);
    line.push_str("\n");
    line
}
