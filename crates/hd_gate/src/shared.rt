//! A world behind a gate, for callers in threads.
ghost use Rattle.std.specs.Prelude.{◌≡◌, ◌<◌, ◌≤◌, [], length, sum, IsTrue, IfOk, OnErr};
ghost use Rattle.hd_model.specs.{State.start_of, Run.Run, Valid.IsValid, Valid.takes_memory};
ghost use Rattle.hd_world.specs.StateHeap.{IsOfJournal};
ghost use Rattle.hd_gate.specs.Shared.{IsCallerOf, AreAll, Begin, HasParts, IsSameCaller, HasDone, HadRoom, having_seen};

use crate::boxed::Boxed;
use crate::callers::{Caller, Callers};
use crate::opening::{callers_of, join_all};
use crate::turns::turn;
use crossbeam_utils::CachePadded;
use hd_custody::Custody;
use hd_model::{Cmd, Memory, Reply};
use hd_world::World;
use std::alloc::Global;
use std::marker::Model;
use std::sync::Wait;

/// A world that callers in threads share. Contracts see the table of its shared words, how many
/// blocks that has, and the numbers of the world.
#[derive(Drop)]
pub struct Shared {
    custody: Custody<Boxed>,
}

impl Model for Shared {
    ghost use Rattle.std.specs.Prelude.{◌≡◌, ◌≤◌};
    ghost use Rattle.hd_model.specs.declared.limits.TheConstants.{BLOCKS};
    ghost use Rattle.hd_custody.specs.Views.{Named};

    ghost Value = { Named };

    ghost view = { λ s. s.custody };

    ghost invariant = { λ s. (s.custody.blocks ≡ s.custody.numbers.blocks)
        × (s.custody.blocks ≤ BLOCKS) × (1 ≤ s.custody.numbers.callers) };
}

/// A world that was shared, once all its callers have ended: what `Shared::close` gives, and
/// nothing else does.
#[derive(Drop)]
pub struct Closed {
    world: World,
}

impl Model for Closed {
    ghost use Rattle.hd_world.specs.World.{WorldView, world_view_code};

    ghost Value = { WorldView };

    ghost coded = { world_view_code };

    ghost view = { λ c. c.world };
}

impl Closed {
    /// The world.
    pub fn world(&self) -> &World
        ensures { result.now ≡ self.now }
    {
        &self.world
    }
}

impl Shared {
    /// Shares a world in its first state, in which nothing was done and whose table has `blocks`
    /// blocks. Each of its callers gets its room: the number of commands that it may do. Where
    /// memory runs out, the world was dropped.
    pub fn open(
        alloc: Global,
        world: World,
        blocks: u32,
        rooms: &[u32],
    ) -> Result<(Shared, Callers), Memory>
        requires start { (world.state ≡ start_of world.numbers) × (world.journal ≡ []) }
        requires same { blocks ≡ world.numbers.blocks }
        requires callers { length rooms.now ≡ world.numbers.callers }
        requires rooms { sum rooms.now ≤ world.spare }
        ensures numbers { IfOk result (λ r. r.0.numbers ≡ world.numbers) }
        ensures all { IfOk result (λ r. AreAll r.0 r.1) }
        ensures begin { IfOk result (λ r. Begin rooms.now r.1) }
    {
        // The journal states that the numbers of the world are within their limits.
        let _journal = world.journal();
        let boxed = Boxed::new(alloc, world)?;
        let (custody, first) = Custody::open(alloc, blocks, boxed)?;
        let callers = callers_of(alloc, &custody, first, rooms)?;
        Ok((Shared { custody }, callers))
    }

    /// Does a command of a caller, and returns its reply: that of a step of the machine from the
    /// state that the caller found under the gate. `hnew` looks once for a slot, before it waits
    /// for the gate, and the table grows, or is found full, only where it found none; so does a
    /// `cadd` that needs a slot, but with the gate; `hfree` releases the slot once it has left the
    /// gate; `trim` first looks once for a block whose slots are all free.
    pub fn call<R: Wait>(&self, rt: &R, caller: &mut Caller, cmd: Cmd) -> Result<Reply, Memory>
        requires caller { IsCallerOf self.now caller.old }
        requires room { 1 ≤ caller.old.room }
        requires valid { IsValid cmd }
        ensures same { IsSameCaller caller.old caller.new }
        ensures done { IfOk result (HasDone caller.old caller.new cmd) }
        // Out of memory comes for commands that may take it, and not where the heap was full.
        ensures memory { OnErr result (IsTrue (takes_memory cmd)) }
        ensures fits { OnErr result (HadRoom caller.old caller.new cmd) }
        // The caller is then as it was, but for what it has seen.
        ensures unchanged { OnErr result (caller.new
            ≡ having_seen caller.new.seen caller.old) }
    {
        let number = caller.number;
        let room = *caller.room;
        match turn(&self.custody, rt, &mut caller.seat, number, cmd) {
            Ok(reply) => {
                caller.room = CachePadded::new(room - 1);
                Ok(reply)
            }
            Err(Memory) => Err(Memory),
        }
    }

    /// Ends with the world, in which the callers have done exactly what each was asked. Its journal
    /// begins with what each has seen.
    pub fn close(self, callers: Callers) -> Closed
        requires { AreAll self callers }
        ensures numbers { result.numbers ≡ self.numbers }
        ensures parts { HasParts callers result.journal }
        ensures run { Run result.numbers result.journal result.state }
        ensures sound { IsOfJournal result }
    {
        let Shared { custody } = self;
        let Callers { list } = callers;
        let first = join_all(&custody, list);
        let world = custody.close(first).into_inner();
        // The journal states that it is a run.
        let _journal = world.journal();
        Closed { world }
    }
}
