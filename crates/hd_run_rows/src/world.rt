// A world, command by command, without an offer.
ghost use Rattle.std.specs.Prelude.{◌≡◌, ◌<◌, ◌≤◌};
ghost use Rattle.hd_model.specs.declared.limits.TheConstants.{HEAP, BLOCKS};
ghost use Rattle.hd_model.specs.Valid.{IsValid};

use crate::audits::read;
use crate::same::same_at;
use hd_model::{Cmd, Entry, Id, Memory, Refusal, Reply, Report};
use hd_world::World;
use std::process::Abort;

// A command as a script has it, and the reply that it must get.
type Line = (&'static str, Reply);

const DONE: Reply = Reply::Done;

// The reply with an object.
fn object(serial: u64) -> Reply {
    Reply::Object(Id(serial))
}

// The reply of a collection that removes and clears nothing.
fn report(kept: u32) -> Reply {
    Reply::Report(Report {
        kept,
        removed: 0,
        short: 0,
        long: 0,
        dep: 0,
        revived: 0,
    })
}

// The command of a line.
fn command<R: Abort + AllocGlobal>(rt: &R, line: &str) -> Cmd
    ensures { IsValid result }
{
    let script = read(rt, rt.alloc(), line.as_bytes());
    assert!(rt; script.callers() == 1 && script.len(0) == 1, "{line}");
    script.cmd(0, 0)
}

// Does a command without an offer.
fn apply(world: &mut World, cmd: Cmd) -> Result<Entry, Memory>
    requires room { 1 ≤ world.old.spare }
    requires caller { 0 < world.old.numbers.callers }
    requires valid { IsValid cmd }
    ensures { world.new.numbers ≡ world.old.numbers }
{
    world.apply_uncounted(0, cmd, None)
}

// Does commands of one caller, each of which must get its reply.
fn apply_all<R: Abort + AllocGlobal>(
    rt: &R,
    world: &mut World,
    lines: &[Line],
) -> Result<(), Memory>
    requires callers { world.old.numbers.callers ≡ 1 }
{
    for line in lines {
        let (text, reply) = *line;
        let cmd = command(rt, text);
        assert!(rt; world.spare() >= 1);
        same_at(rt, text, apply(world, cmd)?.reply, reply);
    }
    Ok(())
}

// Does commands of one caller in a new world of some words and blocks, each of which must get its
// reply.
fn world_replies<R: Abort + AllocGlobal>(
    rt: &R,
    heap: u32,
    blocks: u32,
    lines: &[Line],
) -> Result<(), Memory>
    requires heap { (3 ≤ heap) × (heap ≤ HEAP) }
    requires blocks { (1 ≤ blocks) × (blocks ≤ BLOCKS) }
{
    let mut world = World::open(rt.alloc(), heap, blocks, 1, 20)?;
    apply_all(rt, &mut world, lines)
}

// All ten words are used, and an object has at least three.
#[test]
fn a_full_heap_is_refused(rt: HostRuntime) -> Result<(), Memory> {
    let full = Refusal::HeapFull { used: 10, size: 3 };
    let lines = [("new r0 7", object(1)), ("new r1 0", Reply::Refused(full))];
    world_replies(&rt, 10, 1, &lines)
}

// A handle whose clump is old takes a young target, which later collections then find: the commands
// for which the steps are counted where `hd_rows` makes the calls one by one.
#[test]
fn a_world_finds_the_young_target_of_an_old_handle(rt: HostRuntime) -> Result<(), Memory> {
    let lines = [
        ("new r0 0", object(1)),
        ("collect 0", report(1)),
        ("collect 1", report(1)),
        ("hnew h0 strong r0", DONE),
        ("collect 0", report(0)),
        ("new r1 0", object(2)),
        ("hset h0 r1", DONE),
        ("collect 0", report(1)),
        ("collect 0", report(0)),
        ("collect 1", report(1)),
    ];
    world_replies(&rt, 1_000, 1, &lines)
}
