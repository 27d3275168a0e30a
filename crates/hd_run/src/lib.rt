//! Runs a script, from its bytes to the text of its journal.
#![tactic(auto)]

ghost use Rattle.std.specs.Prelude.{◌≡◌, ◌≤◌, IfOk, Some};
ghost use Rattle.hd_model.specs.Generated.{load_numbers, generated_lists};
ghost use Rattle.hd_run.specs.{declared.mode.Output.TheVariants.Lines, declared.mode.Output.TheVariants.Summary, declared.limits.TheConstants.LEAST_HEAP, Bounds.Bounds, Bounds.numbers_for};
ghost use Rattle.hd_print.specs.EntryLines.{form_of};
ghost use Rattle.hd_print.specs.declared.entries.Form.TheVariants.{Plain};
ghost use Rattle.hd_run.specs.declared.ending.Ending.TheVariants.{Refused};
ghost use Rattle.hd_run.specs.Report.{Reports};
ghost use Rattle.hd_run.specs.Words.{request_of, solo_of, listing_of, audit_of};
ghost use Rattle.hd_run.specs.Claims.{Promise, Together, HasLine};
ghost use Rattle.hd_run.specs.AuditClaims.{AuditPromise, ProgramPromise};
ghost use Rattle.hd_run.specs.Turns.{RanWhole};

mod audit;
mod ending;
mod fault;
mod laws;
mod limits;
mod mode;
mod outcome;
mod printed;
mod report;
mod request;
mod root_list;
mod still;
mod summary;
mod threads;
mod turns;
mod work;

use crate::audit::{Finding, judge};
use crate::ending::Ending;
use crate::mode::Output;
use crate::report::{report, report_finding};
use crate::request::{Request, read_audit_words, read_words, read_words_alone};
use crate::threads::run_callers;
use crate::turns::Opened;
use crate::work::{work, work_alone};
pub use fault::{Fault, unparsed, unread};
use hd_io::{Pace, Sink, Source};
use hd_model::Memory;
use hd_model::limits::{BLOCKS, HEAP, MOST_ROUNDS};
use hd_print::Form;
use hd_script::{Scripts, generate};
use hd_world::World;
pub use laws::{limits_are_these, parts_follow_the_turns};
pub use limits::{LEAST_HEAP, Limits};
pub use outcome::{Kept, Outcome};
pub use printed::{printed_runs_are_judged_runs, whole_runs_are_judged_runs};
use std::alloc::Global;
use std::sync::Wait;
use std::thread::Threads;
pub use still::still_ends_never_fail;

/// The program: reads its words, the program's name first, and does what they say, in the mode that
/// they name: `solo`, `run`, `load`, `roots` or `audit`. It may start threads and wait for them, so
/// what it promises is promised where it returns. What it printed of a whole run in full lines it
/// never calls no run: [`printed_runs_are_judged_runs`].
pub fn top<R: Threads + Wait + Sync, S: Source, K: Sink, P: Pace>(
    rt: &R,
    alloc: Global,
    words: &[String],
    source: &mut S,
    sink: &mut K,
    pace: &P,
) -> Outcome
    ensures { ProgramPromise S.seen K.seen (request_of words.now)
        (source.old, source.new) (sink.old, sink.new) result }
{
    match read_words(alloc, words) {
        Ok(request) => {
            if request.mode.traits().judges {
                return audited(alloc, request, source, sink);
            }
            let output = request.output();
            let ending = work(rt, alloc, request, source, pace);
            report(sink, output, ending)
        }
        Err(fault) => refuse(sink, fault),
    }
}

/// Runs the script that the source gives, of at most 8,388,608 bytes and 100,000 commands, over a
/// heap and a table as the words have it. Its callers are taken one after another in rising number,
/// each to its end. A line for each command and a last line are written, each as one piece. Words
/// that don't name the mode `solo` are refused.
pub fn solo<S: Source, K: Sink>(
    alloc: Global,
    words: &[String],
    source: &mut S,
    sink: &mut K,
) -> Outcome
    ensures { Promise S.seen K.seen (solo_of (request_of words.now))
        (source.old, source.new) (sink.old, sink.new) result }
{
    match read_words_alone(alloc, words, false) {
        Ok(request) => {
            let output = request.output();
            let ending = work_alone(alloc, request, source);
            report(sink, output, ending)
        }
        Err(fault) => refuse(sink, fault),
    }
}

/// Does what `solo` does, and then writes a line for each root, in rising slot, and one with their
/// number. A root is a handle that holds its target. They are gathered in threads, before anything
/// is written. Words that don't name the mode `roots` are refused.
pub fn roots<R: Threads + Sync, S: Source, K: Sink>(
    rt: &R,
    alloc: Global,
    words: &[String],
    source: &mut S,
    sink: &mut K,
) -> Outcome
    ensures { Promise S.seen K.seen (listing_of (request_of words.now))
        (source.old, source.new) (sink.old, sink.new) result }
{
    match read_words_alone(alloc, words, true) {
        Ok(request) => {
            let output = request.output();
            let ending = work_alone(alloc, request, source).list_roots(rt, alloc);
            report(sink, output, ending)
        }
        Err(fault) => refuse(sink, fault),
    }
}

/// Judges the text that the source gives after a script and a line whose one word is `=`: whether
/// it is the full text of a run of the whole script, over a heap and a table as the words have it.
/// The source gives at most 8,388,608 bytes. Words that don't name the mode `audit` are refused.
pub fn audit_mode<S: Source, K: Sink>(
    alloc: Global,
    words: &[String],
    source: &mut S,
    sink: &mut K,
) -> Outcome
    ensures { AuditPromise S.seen K.seen (audit_of (request_of words.now))
        (source.old, source.new) (sink.old, sink.new) result }
{
    match read_audit_words(alloc, words) {
        Ok(request) => audited(alloc, request, source, sink),
        Err(fault) => report_finding(sink, Finding::Refused(fault)),
    }
}

// Reports that words are refused.
fn refuse<K: Sink>(sink: &mut K, fault: Fault) -> Outcome
    ensures { Reports (K.seen sink.old) (K.seen sink.new) (Lines Plain) (Refused fault) result }
{
    report(sink, Output::Lines(Form::Plain), Ending::Refused(fault))
}

// Judges the text that the source gives, over a heap and a table as it is asked.
fn audited<S: Source, K: Sink>(
    alloc: Global,
    request: Request,
    source: &mut S,
    sink: &mut K,
) -> Outcome
    ensures { AuditPromise S.seen K.seen (Some request)
        (source.old, source.new) (sink.old, sink.new) result }
{
    report_finding(sink, judge(alloc, &request.limits, source))
}

/// Runs a script by a thread for each of its callers, over a heap of at most `heap` cells, 3 to
/// 1,000,000, and a table of `blocks` blocks, 1 to 256, and writes what `solo` would write of its
/// journal, in full lines or plain ones. A caller that finds no memory stops.
pub fn run<R: Threads + Wait + Sync, K: Sink, P: Pace>(
    rt: &R,
    alloc: Global,
    scripts: &Scripts,
    heap: u32,
    blocks: u32,
    full: bool,
    sink: &mut K,
    pace: &P,
) -> Outcome
    requires heap { (LEAST_HEAP ≤ heap) × (heap ≤ HEAP) }
    requires blocks { (1 ≤ blocks) × (blocks ≤ BLOCKS) }
    ensures { Together K.seen (Lines (form_of full))
        (numbers_for (record { heap = heap; blocks = blocks }) scripts.now)
        scripts.now sink.old sink.new result }
{
    // The scripts state that they are of few callers.
    let _callers = scripts.callers();
    let ending = run_callers(rt, alloc, scripts, &Limits::new(heap, blocks), pace);
    report(sink, Output::Lines(Form::of(full)), ending)
}

/// Runs the script of a load of 1 to 3,000 rounds as `run` does, and writes one line.
pub fn load<R: Threads + Wait + Sync, K: Sink, P: Pace>(
    rt: &R,
    alloc: Global,
    rounds: u32,
    sink: &mut K,
    pace: &P,
) -> Outcome
    requires { (1 ≤ rounds) × (rounds ≤ MOST_ROUNDS) }
    ensures promise { Together K.seen Summary load_numbers (generated_lists rounds)
        sink.old sink.new result }
    ensures line { HasLine rounds (K.seen sink.old) (K.seen sink.new) result.status }
{
    let Ok(scripts) = generate(alloc, rounds) else {
        return report(sink, Output::Summary, Ending::Refused(Fault::NoMemory));
    };
    let ending = run_callers(rt, alloc, &scripts, &Limits::new(HEAP, BLOCKS), pace);
    report(sink, Output::Summary, ending)
}

/// The world that a script leads to, over a heap of at most `heap` cells, 3 to 1,000,000, and a
/// table of `blocks` blocks, 1 to 256: its callers are taken as `solo` takes them, one after
/// another in rising number, each to its end.
pub fn solo_world(alloc: Global, scripts: &Scripts, heap: u32, blocks: u32) -> Result<World, Memory>
    requires heap { (LEAST_HEAP ≤ heap) × (heap ≤ HEAP) }
    requires blocks { (1 ≤ blocks) × (blocks ≤ BLOCKS) }
    ensures { let b : Bounds = record { heap = heap; blocks = blocks } in
        IfOk result (RanWhole (numbers_for b scripts.now) scripts.now) }
{
    let opened = Opened::open(alloc, scripts, &Limits::new(heap, blocks))?;
    opened.world(scripts)
}
