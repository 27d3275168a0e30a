// A dialogue: each line is done, and its reply is written, before the next one is read.
ghost use Rattle.std.specs.Prelude.{◌≡◌, ◌<◌, Some, IfOk, IfErr};
ghost use Rattle.hd_model.specs.Grammar.{reading_of};
ghost use Rattle.hd_model.specs.Valid.{IsValid};
ghost use Rattle.hd_script.specs.Words.{words_at};
ghost use Rattle.hd_step.specs.Dialogue.{asked};
ghost use Rattle.hd_step.specs.Ending.{Conversed, StoppedIn};
ghost use Rattle.hd_step.specs.Inside.{AfterReading, Answered, Called, IsReady, LeftOut, LineDone, LineStopped};
ghost use Rattle.hd_step.specs.Machine.{IsNew};
ghost use Rattle.hd_step.specs.Inside.{IsOver};

use crate::machine::Machine;
use crate::own::{Answer, Own, Words, asked_by};
use crate::progress::Progress;
use crate::reader::Reader;
use crate::stop::{Stop, unread};
use hd_io::{Sink, Source, write_all};
use hd_model::{Cmd, Entry, Grown, Memory, Reply};
use hd_print::{Line, entry_line};
use hd_script::{Reading, read_line};
use std::alloc::Global;

const PROMPT: &str = "hdv> ";

/// Does each line that the source gives, and writes its reply. A bad line is left out, and why goes
/// to `errors`, as does a prompt before each line where one is asked for; a write that fails there
/// changes nothing. At the end comes the end line. It returns whether a line was bad.
pub fn converse<M: Machine, W: Words<M>, S: Source, K: Sink, E: Sink>(
    alloc: Global,
    machine: &mut M,
    words: &W,
    source: &mut S,
    out: &mut K,
    errors: &mut E,
    is_prompting: bool,
) -> Result<bool, Stop>
    requires { IsNew (M.seen machine.old) }
    ensures done { IfOk result (Conversed (W.answers words.now) (W.faults words.now)
        (M.seen machine.old).numbers (S.seen source.old) (S.seen source.new) (K.seen out.old)
        (K.seen out.new)) }
    ensures stopped { IfErr result (StoppedIn (W.answers words.now) (W.faults words.now)
        (M.seen machine.old).numbers (S.seen source.old) (S.seen source.new) (K.seen out.old)
        (K.seen out.new)) }
{
    let is_bad = talk(alloc, machine, words, source, out, errors, is_prompting)?;
    match write_all(out, machine.end_line().as_bytes()) {
        Ok(()) => Ok(is_bad),
        Err(_) => Err(Stop::Unwritten),
    }
}

// Does each line, and returns whether one was bad.
fn talk<M: Machine, W: Words<M>, S: Source, K: Sink, E: Sink>(
    alloc: Global,
    machine: &mut M,
    words: &W,
    source: &mut S,
    out: &mut K,
    errors: &mut E,
    is_prompting: bool,
) -> Result<bool, Stop>
    requires { IsNew (M.seen machine.old) }
    ensures done { IfOk result (IsOver (W.answers words.now) (W.faults words.now)
        (M.seen machine.old).numbers (S.seen source.old) (S.seen source.new) (K.seen out.old)
        (K.seen out.new) (M.seen machine.new)) }
    ensures stopped { IfErr result (StoppedIn (W.answers words.now) (W.faults words.now)
        (M.seen machine.old).numbers (S.seen source.old) (S.seen source.new) (K.seen out.old)
        (K.seen out.new)) }
{
    let mut reader = Reader::open(alloc);
    let mut progress = Progress::new();
    'lines: loop {
        prompt(errors, is_prompting);
        let count = match reader.find(source) {
            Ok(count) => count,
            Err(fault) => return Err(unread(fault)),
        };
        if count == 0 {
            return Ok(progress.is_bad);
        }
        progress.lines = progress.lines.saturating_add(1);
        let line = reader.first(count);
        match take_line(alloc, machine, words, &mut progress, line, out, errors) {
            Ok(()) => reader.forget(count),
            Err(stop) => return Err(stop),
        }
    }
}

// Does what a line asks for, and writes what there is to write for it at once.
fn take_line<M: Machine, W: Words<M>, K: Sink, E: Sink>(
    alloc: Global,
    machine: &mut M,
    words: &W,
    progress: &mut Progress,
    line: &[u8],
    out: &mut K,
    errors: &mut E,
) -> Result<(), Stop>
    requires { IsReady (M.seen machine.old) progress.old }
    ensures done { IfOk result (λ _. LineDone (W.answers words.now) (W.faults words.now)
        (words_at line.now) (M.seen machine.old) (M.seen machine.new) progress.old progress.new
        (K.seen out.old) (K.seen out.new)) }
    ensures stopped { IfErr result (LineStopped (W.answers words.now) (W.faults words.now)
        (words_at line.now) (M.seen machine.old) (M.seen machine.new) progress.old progress.new
        (K.seen out.old) (K.seen out.new)) }
{
    let written = match asked_by(line) {
        Some(own) => {
            let text = match answer(alloc, machine, words, progress, own, line, errors) {
                Ok(text) => text,
                Err(Memory) => return Err(Stop::Memory),
            };
            write_all(out, &text)
        }
        None => {
            let reply = match do_line(alloc, machine, words, progress, line, errors) {
                Ok(reply) => reply,
                Err(Memory) => return Err(Stop::Memory),
            };
            write_all(out, reply.as_bytes())
        }
    };
    match written {
        Ok(()) => Ok(()),
        Err(_) => Err(Stop::Unwritten),
    }
}

// The text of the answer to one of a dialogue's own words. Where its operand is at fault it is
// empty, and why goes to `errors`.
fn answer<M: Machine, W: Words<M>, E: Sink>(
    alloc: Global,
    machine: &M,
    words: &W,
    progress: &mut Progress,
    own: Own,
    line: &[u8],
    errors: &mut E,
) -> Result<Vec<u8>, Memory>
    requires { asked (words_at line.now) ≡ Some own }
    ensures { IfOk result (λ text. Answered (W.answers words.now) (W.faults words.now)
        (words_at line.now) (M.seen machine.now) (M.seen machine.now) progress.old progress.new
        text.items) }
{
    match words.answer(alloc, machine, progress.lines, own, line)? {
        Answer::Text(text) => Ok(text),
        Answer::Fault(why) => {
            progress.is_bad = true;
            let _ = write_all(errors, &why);
            Ok(Vec::new(alloc))
        }
    }
}

// Does a line of a script, and returns its reply: an empty line where it has none.
fn do_line<M: Machine, W: Words<M>, E: Sink>(
    alloc: Global,
    machine: &mut M,
    words: &W,
    progress: &mut Progress,
    line: &[u8],
    errors: &mut E,
) -> Result<Line, Memory>
    requires { IsReady (M.seen machine.old) progress.old }
    ensures { IfOk result (AfterReading (reading_of (words_at line.now)) (M.seen machine.old)
        (M.seen machine.new) progress.old progress.new) }
{
    let Some((reading, _rest)) = read_line(line) else {
        return leave_out(alloc, machine, words, progress, line, errors);
    };
    match reading {
        Reading::Blank => Ok(Line::new()),
        Reading::Caller(caller) => {
            progress.caller = u32::from(caller);
            Ok(Line::new())
        }
        Reading::Command(cmd) => {
            if machine.spare() == 0 {
                leave_out(alloc, machine, words, progress, line, errors)
            } else {
                call(machine, progress, cmd)
            }
        }
    }
}

// Leaves a bad line out, with no reply. Why goes to `errors`.
fn leave_out<M: Machine, W: Words<M>, E: Sink>(
    alloc: Global,
    machine: &M,
    words: &W,
    progress: &mut Progress,
    line: &[u8],
    errors: &mut E,
) -> Result<Line, Memory>
    ensures { IfOk result
        (LeftOut (M.seen machine.now) (M.seen machine.now) progress.old progress.new) }
{
    progress.is_bad = true;
    let why = words.fault(alloc, machine, progress.lines, line)?;
    let _ = write_all(errors, &why);
    Ok(Line::new())
}

// Does a command, and returns the line of its entry.
fn call<M: Machine>(machine: &mut M, progress: &mut Progress, cmd: Cmd) -> Result<Line, Memory>
    requires ready { IsReady (M.seen machine.old) progress.old }
    requires room { 0 < (M.seen machine.old).spare }
    requires valid { IsValid cmd }
    ensures { IfOk result (Called cmd (M.seen machine.old) (M.seen machine.new)
        progress.old progress.new) }
{
    let reply = machine.call(progress.caller, cmd)?;
    let number = progress.count();
    Ok(entry_line(plain_entry(progress.caller, cmd, reply), number))
}

// The entry of a command with its reply, as far as a plain line goes by it.
fn plain_entry(caller: u32, cmd: Cmd, reply: Reply) -> Entry
    ensures caller { result.caller ≡ caller }
    ensures reply { result.reply ≡ reply }
{
    Entry {
        caller,
        cmd,
        slot: None,
        grown: Grown::Zero,
        reply,
    }
}

// Writes a prompt, where one is asked for.
fn prompt<E: Sink>(errors: &mut E, is_prompting: bool) {
    if is_prompting {
        let _ = write_all(errors, PROMPT.as_bytes());
    }
}
