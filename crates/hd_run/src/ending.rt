ghost use Rattle.std.specs.Prelude.{◌≡◌};
ghost use Rattle.hd_run.specs.Ending.{kept_of, kept_that, world_that};
ghost use Rattle.hd_run.specs.{Inside.run_ending, Inside.Lists, Report.status_of};

use crate::Kept;
use crate::fault::Fault;
use crate::root_list::RootList;
use hd_gate::Closed;
use hd_model::Memory;
use hd_world::World;
use std::alloc::Global;
use std::thread::Threads;

/// The world that ran a script: that of one thread, or one that callers in threads shared.
#[derive(Drop)]
pub(crate) enum Ran {
    Alone(World),
    Shared(Closed),
}

/// How the work of a call ends, before its report is written, and what it keeps. One that keeps a
/// world may not be dropped.
pub(crate) enum Ending {
    Refused(Fault),
    /// Memory ran out.
    Stopped(Ran),
    /// The whole script was run, and its roots were listed if they were to be.
    Done(Ran, Option<RootList>),
}

impl Drop for Ending {
    fn drop(self)
        requires { kept_of self ≡ Kept.Nothing }
    {
        match self {
            Ending::Refused(_fault) => {}
            Ending::Stopped(_ran) => {}
            Ending::Done(_ran, _roots) => {}
        }
    }
}

impl Ran {
    /// The world that ran the script.
    pub(crate) fn world(&self) -> &World
        ensures { result.now ≡ world_that self.now }
    {
        match self {
            Ran::Alone(world) => world,
            Ran::Shared(closed) => closed.world(),
        }
    }

    fn kept(self) -> Kept
        ensures { result ≡ kept_that self }
    {
        match self {
            Ran::Alone(world) => Kept::Alone(world),
            Ran::Shared(closed) => Kept::Shared(closed),
        }
    }
}

impl Ending {
    pub(crate) fn status(&self) -> u8
        ensures { result ≡ status_of self.now }
    {
        match self {
            Ending::Refused(fault) => fault.status(),
            Ending::Stopped(_) => 6,
            Ending::Done(..) => 0,
        }
    }

    pub(crate) fn kept(self) -> Kept
        ensures { result ≡ kept_of self }
    {
        match self {
            Ending::Refused(_fault) => Kept::Nothing,
            Ending::Stopped(ran) => ran.kept(),
            Ending::Done(ran, _roots) => ran.kept(),
        }
    }

    /// A whole run, or one that stopped because memory ran out.
    pub(crate) fn of(done: bool, ran: Ran) -> Ending
        ensures { result ≡ run_ending done ran }
    {
        if done {
            Ending::Done(ran, None)
        } else {
            Ending::Stopped(ran)
        }
    }

    /// Lists the roots of a world that ran its whole script. Where memory runs out, the run has
    /// stopped.
    pub(crate) fn list_roots(self, rt: &(impl Threads + Sync), alloc: Global) -> Ending
        ensures { Lists self result }
    {
        match self {
            Ending::Done(ran, _roots) => match RootList::of(rt, alloc, ran.world()) {
                Ok(roots) => Ending::Done(ran, Some(roots)),
                Err(Memory) => Ending::Stopped(ran),
            },
            Ending::Refused(fault) => Ending::Refused(fault),
            Ending::Stopped(ran) => Ending::Stopped(ran),
        }
    }
}
