ghost use Rattle.std.specs.Prelude.{◌≡◌, ◌<◌, IfOk, MatchResult};
ghost use Rattle.hd_model.specs.Valid.{IsValid};
ghost use Rattle.hd_store.specs.Offers.{needs_slot};
ghost use Rattle.hd_world.specs.{Stepped.Stepped, Stepped.WantsMemory, World.MayApply};

use hd_model::{Cmd, Entry, Held, Memory, Slot};
use hd_world::World;
use std::alloc::Global;
use std::boxed::Box;
use std::marker::Model;

/// A world in a box, seen as the world: eight bytes go into the slot of a table and out of it.
#[derive(Drop)]
pub(crate) struct Boxed {
    pub(crate) inside: Box<World>,
}

impl Model for Boxed {
    ghost use Rattle.hd_world.specs.World.{WorldView, world_view_code};

    ghost Value = { WorldView };

    ghost coded = { world_view_code };

    ghost view = { λ b. b.inside.value };
}

impl Held for Boxed {
    ghost numbers = { ⟦<World as Held>⟧.numbers };

    ghost journal = { ⟦<World as Held>⟧.journal };

    ghost spare = { ⟦<World as Held>⟧.spare };

    ghost live = { ⟦<World as Held>⟧.live };

    ghost kind = { ⟦<World as Held>⟧.kind };

    ghost sound = { ⟦<World as Held>⟧.sound };
}

impl Boxed {
    /// Where memory runs out, the world was dropped.
    pub(crate) fn new(alloc: Global, world: World) -> Result<Boxed, Memory>
        ensures { IfOk result (λ b. b ≡ world) }
    {
        match Box::new(alloc, world) {
            Ok(inside) => Ok(Boxed { inside }),
            Err(_) => Err(Memory),
        }
    }

    pub(crate) fn step(
        &mut self,
        caller: u32,
        cmd: Cmd,
        offer: Option<Slot>,
    ) -> Result<Entry, Memory>
        requires { MayApply self.old caller cmd offer }
        ensures { MatchResult result (Stepped self.old self.new caller cmd offer)
            (λ _. WantsMemory self.old self.new cmd) }
    {
        self.inside.apply_uncounted(caller, cmd, offer)
    }

    pub(crate) fn needs_slot(&self, caller: u32, cmd: Cmd) -> bool
        requires caller { caller < self.now.numbers.callers }
        requires valid { IsValid cmd }
        ensures { result ≡ needs_slot self.now.state caller cmd }
    {
        self.inside.needs_slot(caller, cmd)
    }

    pub(crate) fn into_inner(self) -> World
        ensures { result ≡ self }
    {
        Box::into_inner(self.inside)
    }
}
