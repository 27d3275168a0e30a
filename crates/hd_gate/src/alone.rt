ghost use Rattle.std.specs.Prelude.{◌≡◌, ◌<◌, ◌≤◌, IsTrue, IfOk, OnErr};
ghost use Rattle.hd_model.specs.{State.start_of, Valid.IsValid, Valid.takes_memory};
ghost use Rattle.hd_store.specs.Offers.{FitsHeap};
ghost use Rattle.hd_gate.specs.Alone.{HasCalled, FindsFullExactly, TrimsExactly};

use crate::change::change_in;
use hd_model::{Cmd, Memory, Reply};
use hd_pool::Pool;
use hd_slots::{note, offer};
use hd_world::World;
use std::alloc::Global;
use std::marker::Model;

/// A world for one thread, seen as that world. Its callers take turns as they like.
#[derive(Drop)]
pub struct Alone {
    world: World,
    pool: Pool,
}

impl Model for Alone {
    ghost use Rattle.hd_world.specs.World.{WorldView, world_view_code};
    ghost use Rattle.hd_slots.specs.Tied.{IsTied};

    ghost Value = { WorldView };

    ghost coded = { world_view_code };

    ghost view = { λ a. a.world };

    ghost invariant = { λ a. IsTied a.world.numbers a.world.state a.pool };
}

impl Alone {
    /// Begins with a world in its first state, whose table has `blocks` blocks. Where memory is
    /// out, the world was dropped.
    pub fn open(alloc: Global, world: World, blocks: u32) -> Result<Alone, Memory>
        requires start { world.state ≡ start_of world.numbers }
        requires same { blocks ≡ world.numbers.blocks }
        ensures { IfOk result (λ a. a ≡ world) }
    {
        // The journal states that the numbers of the world are within their limits.
        let _journal = world.journal();
        let pool = Pool::open(alloc, blocks)?;
        Ok(Alone { world, pool })
    }

    /// Does a command of a caller, and returns its reply. A new handle takes the least free slot of
    /// its kind, and so does a `cadd` that needs a slot, as of kind dependent; the table grows only
    /// where there is none. `trim` gives back the least block of its kind whose slots are all free.
    pub fn call(&mut self, caller: u32, cmd: Cmd) -> Result<Reply, Memory>
        requires room { 1 ≤ self.old.spare }
        requires caller { caller < self.old.numbers.callers }
        requires valid { IsValid cmd }
        ensures done { IfOk result (HasCalled self.old self.new caller cmd) }
        ensures full { IfOk result (FindsFullExactly self.old caller cmd) }
        ensures trims { IfOk result (TrimsExactly self.old cmd) }
        // Out of memory comes for commands that may take it. A full heap is reported first.
        ensures memory { OnErr result (IsTrue (takes_memory cmd)) }
        ensures fits { OnErr result (FitsHeap self.old.numbers self.old.state cmd) }
        ensures unchanged { OnErr result (self.new ≡ self.old) }
    {
        let change = change_in(&self.world, caller, cmd);
        let offered = offer(&mut self.pool, change);
        let entry = self.world.apply_uncounted(caller, cmd, offered)?;
        note(&mut self.pool, change, &entry);
        Ok(entry.reply)
    }

    /// The world.
    pub fn world(&self) -> &World
        ensures { result.now ≡ self.now }
    {
        &self.world
    }

    /// Ends with the world.
    pub fn finish(self) -> World
        ensures { result ≡ self }
    {
        self.world
    }
}
