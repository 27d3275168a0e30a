ghost use Rattle.std.specs.Prelude.{◌≡◌, ◌<◌};
ghost use Rattle.hd_model.specs.Valid.{IsValid};
ghost use Rattle.hd_slots.specs.Change.{change_in};

use hd_model::{Cmd, Kind};
use hd_slots::{Change, change_of};
use hd_world::World;

/// What a command does to the free slots of a world, where a `cadd` takes a slot or needs none.
pub(crate) fn change_in(world: &World, caller: u32, cmd: Cmd) -> Change
    requires caller { caller < world.now.numbers.callers }
    requires valid { IsValid cmd }
    ensures { result ≡ change_in world.now.state caller cmd }
{
    if world.needs_slot(caller, cmd) {
        Change::Takes(Kind::Dependent)
    } else {
        change_of(cmd)
    }
}
