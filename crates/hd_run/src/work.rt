ghost use Rattle.std.specs.Prelude.{◌≡◌, false, IfOk, IfErr};
ghost use Rattle.hd_run.specs.{Bounds.numbers_for, Modes.alone, Modes.traits_of, Inside.IsInLimits, Inside.IsJob, Inside.Worked};
ghost use Rattle.hd_run.specs.declared.mode.Manner.{Manner};
ghost use Rattle.hd_run.specs.{Ending.FaultCause, Ending.ReadProgram, Ending.RefusedBy, Ending.RunCause, Inside.script_or_fault};

use crate::ending::Ending;
use crate::fault::{Fault, unparsed, unread};
use crate::limits::Limits;
use crate::request::Request;
use crate::threads::run_callers;
use crate::turns::Opened;
use hd_io::{Pace, Source, read_all};
use hd_model::Memory;
use hd_model::limits::{BLOCKS, HEAP, MOST_BYTES};
use hd_script::{ScriptFault, Scripts, generate, parse};
use std::alloc::Global;
use std::sync::Wait;
use std::thread::Threads;

/// Does what was asked, in the mode that it names.
pub(crate) fn work<R: Threads + Wait + Sync, S: Source, P: Pace>(
    rt: &R,
    alloc: Global,
    request: Request,
    source: &mut S,
    pace: &P,
) -> Ending
    requires { IsInLimits request }
    ensures { Worked S.seen (traits_of request.mode).manner request (source.old, source.new)
        result }
{
    let manner = request.mode.traits().manner;
    let ending = run_by(rt, alloc, manner.threads, request, source, pace);
    if manner.lists_roots {
        ending.list_roots(rt, alloc)
    } else {
        ending
    }
}

// Does what was asked by callers in threads or by one thread.
fn run_by<R: Threads + Wait + Sync, S: Source, P: Pace>(
    rt: &R,
    alloc: Global,
    threads: bool,
    request: Request,
    source: &mut S,
    pace: &P,
) -> Ending
    requires { IsInLimits request }
    ensures { let manner : Manner = record { threads = threads; lists_roots = false } in
        Worked S.seen manner request (source.old, source.new) result }
{
    if !threads {
        return work_alone(alloc, request, source);
    }
    match prepare(alloc, request, source) {
        Ok((scripts, limits)) => run_callers(rt, alloc, &scripts, &limits, pace),
        Err(fault) => Ending::Refused(fault),
    }
}

/// Does what was asked by one thread, and lists no roots.
pub(crate) fn work_alone<S: Source>(alloc: Global, request: Request, source: &mut S) -> Ending
    requires { IsInLimits request }
    ensures { Worked S.seen alone request (source.old, source.new) result }
{
    match prepare(alloc, request, source) {
        Ok((scripts, limits)) => run_alone(alloc, &scripts, &limits),
        Err(fault) => Ending::Refused(fault),
    }
}

// The script that was asked for, and the limits of its run: that of the source, or that of a load.
fn prepare<S: Source>(
    alloc: Global,
    request: Request,
    source: &mut S,
) -> Result<(Scripts, Limits), Fault>
    requires { IsInLimits request }
    ensures job { IfOk result (IsJob request (S.seen source.old) (S.seen source.new)) }
    ensures fault { IfErr result (RefusedBy (traits_of request.mode).reads (S.seen source.old)
        (S.seen source.new)) }
    ensures unread { (traits_of request.mode).reads ≡ false → source.new ≡ source.old }
{
    if request.mode.traits().reads {
        let scripts = read_script(alloc, source)?;
        return Ok((scripts, request.limits));
    }
    match generate(alloc, request.rounds) {
        Ok(scripts) => Ok((scripts, Limits::new(HEAP, BLOCKS))),
        Err(Memory) => Err(Fault::NoMemory),
    }
}

// Runs a script by one thread, its callers one after another.
fn run_alone(alloc: Global, scripts: &Scripts, limits: &Limits) -> Ending
    ensures { RunCause alone (numbers_for limits.now scripts.now) scripts.now result }
{
    match Opened::open(alloc, scripts, limits) {
        Ok(opened) => opened.run(scripts),
        Err(Memory) => Ending::Refused(Fault::NoMemory),
    }
}

// Reads the source to its end, and the script of its bytes.
fn read_script<S: Source>(alloc: Global, source: &mut S) -> Result<Scripts, Fault>
    ensures read { IfOk result (ReadProgram (S.seen source.old) (S.seen source.new)) }
    ensures fault { IfErr result (FaultCause (S.seen source.old) (S.seen source.new)) }
{
    match read_all(alloc, source, MOST_BYTES) {
        Ok(bytes) => script_or_fault(parse(alloc, &bytes)),
        Err(fault) => Err(unread(fault)),
    }
}

// What bytes come to.
fn script_or_fault(parsed: Result<Scripts, ScriptFault>) -> Result<Scripts, Fault>
    ensures { result ≡ script_or_fault parsed }
{
    match parsed {
        Ok(scripts) => Ok(scripts),
        Err(fault) => Err(unparsed(fault)),
    }
}
