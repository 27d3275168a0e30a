// A world of one thread, as a dialogue sees a machine.
ghost use Rattle.std.specs.Prelude.{◌≡◌, ◌<◌, ◌≤◌, IfOk, OnErr};
ghost use Rattle.hd_model.specs.declared.limits.TheConstants.{BLOCKS, HEAP};
ghost use Rattle.hd_model.specs.FullText.{end_of};
ghost use Rattle.hd_model.specs.Valid.{IsValid};
ghost use Rattle.hd_seen.specs.Seen.{view_seen};
ghost use Rattle.hd_snapshot.specs.Laws.{IsParted};
ghost use Rattle.hd_step.specs.Machine.{HasDone, IsNew};
ghost use Rattle.hd_talk.specs.Machine.{machine_view, numbers_with, picture_in};

use hd_gate::Alone;
use hd_model::limits::{BLOCKS, CALLERS, HEAP, MOST_COMMANDS};
use hd_model::{Cmd, Memory, Reply};
use hd_print::{Line, end_line};
use hd_seen::Snapshot;
use hd_snapshot::snapshot;
use hd_step::Machine;
use hd_world::World;
use std::alloc::Global;
use std::marker::Model;

/// A world for one thread, seen as that world.
#[derive(Drop)]
pub struct Played {
    alone: Alone,
}

impl Model for Played {
    ghost use Rattle.hd_world.specs.World.{WorldView, world_view_code};

    ghost Value = { WorldView };

    ghost coded = { world_view_code };

    ghost view = { λ p. p.alone };
}

impl Played {
    /// An empty world of sixteen callers, with room for as many commands as a script may have.
    pub fn open(alloc: Global, heap: u32, blocks: u32) -> Result<Played, Memory>
        requires heap { (3 ≤ heap) × (heap ≤ HEAP) }
        requires blocks { (1 ≤ blocks) × (blocks ≤ BLOCKS) }
        ensures numbers { IfOk result (λ p. p.numbers ≡ numbers_with heap blocks) }
        ensures new { IfOk result (λ p. IsNew (machine_view p)) }
    {
        let world = World::open(alloc, heap, blocks, CALLERS, MOST_COMMANDS)?;
        let alone = Alone::open(alloc, world, blocks)?;
        Ok(Played { alone })
    }

    /// The world.
    pub fn world(&self) -> &World
        ensures { result.now ≡ self.now }
    {
        self.alone.world()
    }
}

impl Machine for Played {
    ghost seen = { machine_view };

    fn call(&mut self, caller: u32, cmd: Cmd) -> Result<Reply, Memory>
        requires room { 1 ≤ self.old.spare }
        requires caller { caller < self.old.numbers.callers }
        requires valid { IsValid cmd }
        ensures done { IfOk result
            (HasDone (machine_view self.old) (machine_view self.new) caller cmd) }
        ensures unchanged { OnErr result (machine_view self.new ≡ machine_view self.old) }
    {
        self.alone.call(caller, cmd)
    }

    fn spare(&self) -> u32
        ensures { result ≡ self.now.spare }
    {
        self.alone.world().spare()
    }

    fn end_line(&self) -> Line
        ensures { result ≡ end_of self.now.journal self.now.state }
    {
        let world = self.alone.world();
        end_line(world.live(), world.objects(), world.collections())
    }
}

/// What there is to see of a world.
pub fn seen_in(alloc: Global, world: &World) -> Result<Snapshot, Memory>
    ensures seen { IfOk result (λ seen. view_seen seen ≡ picture_in world.now) }
    ensures parted { IsParted (picture_in world.now) }
{
    snapshot(alloc, world.store())
}
