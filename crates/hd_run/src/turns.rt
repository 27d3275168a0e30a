ghost use Rattle.std.specs.Prelude.{◌≡◌, ◌+◌, ◌<◌, [], drop, length, IfOk, OnOk, OnErr};
ghost use Rattle.hd_run.specs.{Bounds.numbers_for, Ending.RunCause, Inside.Keeps};
ghost use Rattle.hd_run.specs.Modes as modes;
ghost use Rattle.hd_run.specs.{Turns.turns_from, Turns.RanWhole, Turns.StoppedAt, Inside.IsReadyFor, Inside.IsReadyToRun};

use crate::ending::{Ending, Ran};
use crate::limits::Limits;
use hd_gate::Alone;
use hd_model::Memory;
use hd_script::Scripts;
use hd_world::World;
use std::alloc::Global;

/// A world for one thread. It may be dropped only while nothing was done in it.
pub(crate) struct Opened {
    alone: Alone,
}

impl Drop for Opened {
    fn drop(self)
        requires { self.alone.journal ≡ [] }
    {
        let Opened { alone: _alone } = self;
    }
}

impl Opened {
    /// An empty world for a script, with all turns left.
    pub(crate) fn open(alloc: Global, scripts: &Scripts, limits: &Limits) -> Result<Opened, Memory>
        ensures numbers { IfOk result (λ o. o.alone.numbers ≡ numbers_for limits.now scripts.now) }
        ensures ready { IfOk result (λ o. IsReadyToRun scripts.now o.alone) }
    {
        let world = limits.open(alloc, scripts)?;
        let alone = Alone::open(alloc, world, limits.blocks)?;
        Ok(Opened { alone })
    }

    /// Takes all turns, and ends with the world, whatever became of them.
    pub(crate) fn run(self, scripts: &Scripts) -> Ending
        requires { IsReadyToRun scripts.now self.alone }
        ensures kept { Keeps result }
        ensures cause { RunCause modes.alone self.alone.numbers scripts.now result }
    {
        let Opened { mut alone } = self;
        let done = take_turns(&mut alone, scripts).is_ok();
        Ending::of(done, Ran::Alone(alone.finish()))
    }
}

impl Opened {
    /// Takes all turns, and returns the world that they lead to.
    pub(crate) fn world(self, scripts: &Scripts) -> Result<World, Memory>
        requires { IsReadyToRun scripts.now self.alone }
        ensures { IfOk result (RanWhole self.alone.numbers scripts.now) }
    {
        let Opened { mut alone } = self;
        take_turns(&mut alone, scripts)?;
        Ok(alone.finish())
    }
}

// Takes all turns, those of the callers one after another in rising number, each to its end, up to
// one that finds no memory.
fn take_turns(alone: &mut Alone, scripts: &Scripts) -> Result<(), Memory>
    requires ready { IsReadyFor alone.old.numbers scripts.now (turns_from 0 scripts.now) alone.old }
    requires callers { alone.old.numbers.callers ≡ length scripts.now }
    ensures done { OnOk result (IsReadyFor alone.old.numbers scripts.now [] alone.new) }
    ensures stopped { OnErr result (StoppedAt alone.old.numbers scripts.now alone.new) }
{
    'callers: for caller in 0..scripts.callers() {
        take_turns_of(alone, scripts, caller)?;
    }
    Ok(())
}

// Takes the turns of one caller.
fn take_turns_of(alone: &mut Alone, scripts: &Scripts, caller: u32) -> Result<(), Memory>
    requires ready { IsReadyFor alone.old.numbers scripts.now
        (turns_from caller (drop caller scripts.now)) alone.old }
    requires callers { alone.old.numbers.callers ≡ length scripts.now }
    requires caller { caller < length scripts.now }
    ensures done { OnOk result (IsReadyFor alone.old.numbers scripts.now
        (turns_from (caller + 1) (drop (caller + 1) scripts.now)) alone.new) }
    ensures stopped { OnErr result (StoppedAt alone.old.numbers scripts.now alone.new) }
{
    'commands: for i in 0..scripts.len(caller) {
        alone.call(caller, scripts.cmd(caller, i))?;
    }
    Ok(())
}
