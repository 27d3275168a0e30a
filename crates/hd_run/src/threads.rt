// The callers of a script in threads of their own.
ghost use Rattle.std.specs.Prelude.{◌≡◌, ◌<◌, ◌≤◌, [], length, map, sum, All, Any, IfOk, MatchBool};
ghost use Rattle.hd_gate.specs.Shared.{AreAll, Begin};
ghost use Rattle.hd_model.specs.State.{start_of};
ghost use Rattle.hd_run.specs.{Bounds.numbers_for, Ending.RunCause, Modes.in_threads, Turns.list_of, Inside.Keeps};
ghost use Rattle.hd_run.specs.Inside.{IsReadyToPlay, AreReadyToPlay, HasPlayed, HavePlayed};

use crate::ending::{Ending, Ran};
use crate::fault::Fault;
use crate::limits::Limits;
use hd_gate::{Caller, Callers, Shared};
use hd_io::Pace;
use hd_model::Memory;
use hd_script::Scripts;
use hd_world::World;
use std::alloc::{AllocError, Global};
use std::sync::Wait;
use std::thread;
use std::thread::Threads;

/// Runs a script by a thread for each of its callers. A caller that finds no memory stops.
pub(crate) fn run_callers<R: Threads + Wait + Sync, P: Pace>(
    rt: &R,
    alloc: Global,
    scripts: &Scripts,
    limits: &Limits,
    pace: &P,
) -> Ending
    ensures { RunCause in_threads (numbers_for limits.now scripts.now) scripts.now result }
{
    match Team::open(alloc, scripts, limits) {
        Ok(team) => team.run(rt, scripts, pace),
        Err(Memory) => Ending::Refused(Fault::NoMemory),
    }
}

// A shared world and all its callers. It may be dropped only while none of them has done anything.
struct Team {
    shared: Shared,
    callers: Callers,
}

impl Drop for Team {
    fn drop(self)
        requires { All (λ p. p.part ≡ []) self.callers }
    {
        let Team {
            shared: _shared,
            callers: _callers,
        } = self;
    }
}

impl Team {
    // An empty world that is shared, with a caller for each list, which has room for it.
    fn open(alloc: Global, scripts: &Scripts, limits: &Limits) -> Result<Team, Memory>
        ensures numbers { IfOk result (λ t. t.shared.numbers ≡ numbers_for limits.now scripts.now) }
        ensures ready { IfOk result (λ t. AreReadyToPlay scripts.now t.shared t.callers) }
    {
        let Ok(rooms) = rooms(alloc, scripts) else {
            return Err(Memory);
        };
        Team::share(alloc, limits.open(alloc, scripts)?, limits.blocks, &rooms)
    }

    // Shares a world in which nothing was done among callers with these rooms.
    fn share(alloc: Global, world: World, blocks: u32, rooms: &[u32]) -> Result<Team, Memory>
        requires start { (world.state ≡ start_of world.numbers) × (world.journal ≡ []) }
        requires same { blocks ≡ world.numbers.blocks }
        requires callers { length rooms.now ≡ world.numbers.callers }
        requires rooms { sum rooms.now ≤ world.spare }
        ensures numbers { IfOk result (λ t. t.shared.numbers ≡ world.numbers) }
        ensures all { IfOk result (λ t. AreAll t.shared t.callers) }
        ensures begin { IfOk result (λ t. Begin rooms.now t.callers) }
    {
        let (shared, callers) = Shared::open(alloc, world, blocks, rooms)?;
        Ok(Team { shared, callers })
    }

    // Has each caller do its list, and ends with the world, whatever became of them.
    fn run<R: Threads + Wait + Sync, P: Pace>(self, rt: &R, scripts: &Scripts, pace: &P) -> Ending
        requires { AreReadyToPlay scripts.now self.shared self.callers }
        ensures kept { Keeps result }
        ensures cause { RunCause in_threads self.shared.numbers scripts.now result }
    {
        let Team {
            shared,
            mut callers,
        } = self;
        let done = play_all(rt, &shared, &mut callers, scripts, pace);
        Ending::of(done, Ran::Shared(shared.close(callers)))
    }
}

// The number of commands of each caller.
fn rooms(alloc: Global, scripts: &Scripts) -> Result<Vec<u32>, AllocError>
    ensures { IfOk result (λ rooms. rooms.items ≡ map length scripts.now) }
{
    let mut rooms = Vec::new(alloc);
    for caller in 0..scripts.callers() {
        rooms.push(scripts.len(caller))?;
    }
    Ok(rooms)
}

// Has each caller do its list, in a thread of its own, and returns whether all did it whole.
fn play_all<R: Threads + Wait + Sync, P: Pace>(
    rt: &R,
    shared: &Shared,
    callers: &mut Callers,
    scripts: &Scripts,
    pace: &P,
) -> bool
    requires some { 0 < length callers.old }
    requires ready { All (IsReadyToPlay shared.now scripts.now) callers.old }
    ensures played { HavePlayed scripts.now callers.old callers.new }
    ensures done { MatchBool result (All (λ p. p.room ≡ 0) callers.new)
        (Any (λ p. 1 ≤ p.room) callers.new) }
{
    let list = callers.all();
    play_each(rt, shared, list, scripts, pace);
    all_are_done(list)
}

fn play_each<R: Threads + Wait + Sync, P: Pace>(
    rt: &R,
    shared: &Shared,
    callers: &mut [Caller],
    scripts: &Scripts,
    pace: &P,
)
    requires some { 0 < length callers.old }
    requires ready { All (IsReadyToPlay shared.now scripts.now) callers.old }
    ensures { HavePlayed scripts.now callers.old callers.new }
{
    let threads = callers.len();
    let turn = |_: usize, caller: &mut Caller|
        requires { IsReadyToPlay shared.now scripts.now caller.now }
        ensures { HasPlayed (list_of scripts.entry.now caller.entry.now.number) caller.entry.now
            caller.exit.now }
    { play(rt, shared, caller, scripts, pace) };
    thread::for_each_mut(rt, callers, threads, &turn);
}

// Does the commands of a caller one after another, up to one that finds no memory.
fn play<R: Wait, P: Pace>(rt: &R, shared: &Shared, caller: &mut Caller, scripts: &Scripts, pace: &P)
    requires { IsReadyToPlay shared.now scripts.now caller.old }
    ensures { HasPlayed (list_of scripts.now caller.old.number) caller.old caller.new }
{
    let number = caller.number();
    'commands: for i in 0..scripts.len(number) {
        pace.at(number, u64::from(i) + 1);
        match shared.call(rt, caller, scripts.cmd(number, i)) {
            Ok(_) => {}
            Err(Memory) => return,
        }
    }
}

// Whether each caller has done all that it had room for.
fn all_are_done(callers: &[Caller]) -> bool
    ensures { MatchBool result (All (λ p. p.room ≡ 0) callers.now)
        (Any (λ p. 1 ≤ p.room) callers.now) }
{
    for caller in callers {
        if caller.room() > 0 {
            return false;
        }
    }
    true
}
