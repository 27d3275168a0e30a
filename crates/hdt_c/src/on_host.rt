// The exports on a host as a whole: it is opened, closed and collected.
ghost use Rattle.std.specs.Prelude.{◌≡◌, ◌<◌, ◌≤◌, None, Some, IfOk, MatchResult};
ghost use Rattle.hd_model.specs.declared.command.Cmd.TheVariants as cmd;
ghost use Rattle.hd_model.specs.declared.data.Reply.TheVariants as reply;
ghost use Rattle.hd_host.specs.View.{HostView};
ghost use Rattle.hd_commands.specs.Done.{queued_reply};
ghost use Rattle.hd_store.specs.Offers.{HasLimits};
ghost use Rattle.hd_ends.specs.declared.end.End.TheVariants.{Own as own};
ghost use Rattle.hdt_c.specs.Exports.{Comes, Runs, NeverFails, AlwaysRight, HasLocal, FailsIn, Replies, Returns};
ghost use Rattle.hdt_c.specs.Outs.{IsFirst, IsOpened, Opens, Refuses, TellsLast, last_out, numbers_in, report_in, stats_of};

use crate::arguments::{change, has_local, is_generation};
use crate::held::{Held, on_open, put, take};
use crate::parts::{Change, Limits, Report, Stats};
use crate::status::{ARGUMENT, CLOSED, IS_OPEN, NO_MEMORY, NONE, OK, status_of};
use hd_ends::End;
use hd_host::Host;
use hd_model::limits::{HOST_BLOCKS, HOST_CONTEXTS, HOST_HEAP};
use std::alloc::Global;

// The version of the interface.
const ABI: u32 = 2;

/// `hdt_abi`.
#[unsafe(no_mangle)]
pub extern "C" fn hdt_abi() -> u32
    ensures { result ≡ 2 }
{
    ABI
}

/// `hdt_open`.
#[unsafe(no_mangle)]
pub extern "C" fn hdt_open(alloc: Global, host: &mut Held, limits: &Limits) -> u32
    ensures { Opens limits.now host.old.value host.new.value result }
{
    if let Some(open) = take(alloc, host) {
        put(host, open);
        return IS_OPEN;
    }
    let made = match open(alloc, limits) {
        Ok(made) => made,
        Err(status) => return status,
    };
    put(host, made);
    OK
}

// The end of a host of its own, in a box.
fn open(alloc: Global, limits: &Limits) -> Result<Box<End>, u32>
    ensures { MatchResult result
        (λ made. (v : HostView) × (made.value ≡ own v) × IsOpened limits.now v)
        (Refuses limits.now) }
{
    let host = new_host(alloc, limits)?;
    match Box::new(alloc, End::Own(host)) {
        Ok(made) => Ok(made),
        Err(_) => Err(NO_MEMORY),
    }
}

/// A host with these limits.
pub(crate) fn new_host(alloc: Global, limits: &Limits) -> Result<Host, u32>
    ensures made { MatchResult result (IsOpened limits.now) (Refuses limits.now) }
    ensures limits { IfOk result (λ _. HasLimits (numbers_in limits.now)) }
{
    let Limits {
        cells,
        blocks,
        contexts,
    } = *limits;
    if cells < 3 || cells > HOST_HEAP || blocks < 1 || blocks > HOST_BLOCKS {
        return Err(ARGUMENT);
    }
    if contexts < 1 || contexts > HOST_CONTEXTS {
        return Err(ARGUMENT);
    }
    let limits = hd_host::Limits {
        cells,
        blocks,
        contexts,
    };
    match Host::open(alloc, limits) {
        Ok(host) => Ok(host),
        Err(_) => Err(NO_MEMORY),
    }
}

/// `hdt_close`. A closed host stays closed.
#[unsafe(no_mangle)]
pub extern "C" fn hdt_close(alloc: Global, host: &mut Held)
    ensures { host.new.value ≡ None }
{
    drop(take(alloc, host));
}

// The numbers of a host.
fn stats(host: &mut Host, out: &mut Stats) -> u32
    ensures { Runs NeverFails (λ v w s. (w ≡ v) × (s ≡ OK) × (out.new ≡ stats_of v))
        (out.new ≡ out.old) host.old host.new result }
{
    let stats = host.stats();
    *out = Stats {
        objects: stats.objects,
        cells: stats.cells,
        handles: stats.handles,
        blocks: stats.blocks,
        queued: stats.queued,
    };
    OK
}

/// `hdt_stats`.
#[unsafe(no_mangle)]
pub extern "C" fn hdt_stats(alloc: Global, host: &mut Held, out: &mut Stats) -> u32
    ensures { Comes AlwaysRight (λ at. NeverFails)
        (λ at v w s. (w ≡ v) × (s ≡ OK) × (out.new ≡ stats_of v)) (out.new ≡ out.old) host.old.value
        host.new.value result }
{
    on_open!(alloc, host, stats(out))
}

// What the end's own last call that was done did to slots and blocks, and the number of its turn.
fn last_of(end: &End) -> Change
    ensures { result ≡ last_out end.now }
{
    match end {
        End::Own(host) => change(host.last(), 0),
        End::Shared(shared) => change(shared.sharer.last(), shared.sharer.turn()),
    }
}

/// `hdt_last`. It takes no turn.
#[unsafe(no_mangle)]
pub extern "C" fn hdt_last(alloc: Global, host: &mut Held, out: &mut Change) -> u32
    ensures { TellsLast out.old out.new host.old.value host.new.value result }
{
    let Some(end) = take(alloc, host) else {
        return CLOSED;
    };
    *out = last_of(&end);
    put(host, end);
    OK
}

fn collect(host: &mut Host, generation: u32, report: &mut Report) -> u32
    requires { generation ≤ 2 }
    ensures { let command = cmd.Collect generation in
        Runs (FailsIn 0 command) (Replies 0 command (reply.Report (report_in report.new)))
        (report.new ≡ report.old) host.old host.new result }
{
    match host.collect(generation as u8) {
        Ok(made) => {
            *report = Report {
                kept: made.kept,
                removed: made.removed,
                cleared_short: made.short,
                cleared_long: made.long,
                cleared_dependent: made.dep,
                revived: made.revived,
            };
            OK
        }
        Err(fault) => status_of(fault),
    }
}

/// `hdt_collect`.
#[unsafe(no_mangle)]
pub extern "C" fn hdt_collect(
    alloc: Global,
    host: &mut Held,
    generation: u32,
    report: &mut Report,
) -> u32
    ensures { let command = cmd.Collect generation in
        Comes (λ contexts. generation ≤ 2) (λ at. FailsIn 0 command)
        (λ at. Replies 0 command (reply.Report (report_in report.new))) (report.new ≡ report.old)
        host.old.value host.new.value result }
{
    on_open!(alloc, host, collect(generation, report) if is_generation(generation))
}

// Takes the first object off the finalization queue.
fn final_next(host: &mut Host, c: u32, dst: u32, id: &mut u64) -> u32
    requires { HasLocal c dst host.old.machine.numbers.callers }
    ensures { let command = cmd.Final dst in
        Runs NeverFails (Returns c command queued_reply (λ taken. IsFirst taken id.old id.new))
        (id.new ≡ id.old) host.old host.new result }
{
    match host.final_next(c, dst as u8) {
        Some(first) => {
            *id = first.0;
            OK
        }
        None => NONE,
    }
}

/// `hdt_final_next`.
#[unsafe(no_mangle)]
pub extern "C" fn hdt_final_next(
    alloc: Global,
    host: &mut Held,
    c: u32,
    dst: u32,
    id: &mut u64,
) -> u32
    ensures { let command = cmd.Final dst in
        Comes (HasLocal c dst) (λ at. NeverFails)
        (λ at. Returns (at c) command queued_reply (λ taken. IsFirst taken id.old id.new))
        (id.new ≡ id.old) host.old.value host.new.value result }
{
    on_open!(alloc, host, in c, final_next(dst, id) if has_local(dst))
}
