// The roots of a world, and their lines.
ghost use Rattle.std.specs.Prelude.{◌≡◌, flat_map, IfOk};
ghost use Rattle.hd_model.specs.RootText.{list_text, root_text, roots_of};
ghost use Rattle.hd_run.specs.Inside.{Writes};

use hd_io::{Failed, Sink, write_all};
use hd_model::{Memory, RootId};
use hd_print::{root_line, roots_line};
use hd_world::World;
use std::alloc::Global;
use std::marker::Model;
use std::thread::Threads;

/// The roots of a world, in rising slot.
#[derive(Drop)]
pub(crate) struct RootList {
    roots: Vec<RootId>,
}

impl Model for RootList {
    ghost use Rattle.std.specs.Prelude.{List, ◌<◌, ◌^◌, length};
    ghost use Rattle.std.specs.Coded.{coded_list};
    ghost use Rattle.hd_model.specs.declared.data.RootId.{RootId};
    ghost use Rattle.hd_model.specs.contracts.data.RootId as root_contract;

    ghost Value = { List RootId };

    ghost coded = { coded_list root_contract.the_row.coded };

    ghost view = { λ list. list.roots.items };

    ghost invariant = { λ list. length list.roots.items < 2 ^ 32 };
}

impl RootList {
    /// The roots of a world.
    pub(crate) fn of(
        rt: &(impl Threads + Sync),
        alloc: Global,
        world: &World,
    ) -> Result<RootList, Memory>
        ensures { IfOk result (λ list. list ≡ roots_of world.now.state) }
    {
        let roots = world.roots(rt, alloc)?;
        Ok(RootList { roots })
    }

    /// Writes the line of each root, and then the line with their number. Each line goes to the
    /// sink as one piece.
    #[tactic(auto, using(hd_io::proofs::SinkPieces::appending))]
    pub(crate) fn write<K: Sink>(&self, sink: &mut K) -> Result<(), Failed>
        ensures { Writes (K.seen sink.old) (K.seen sink.new) (list_text self.now) result }
    {
        write_roots(sink, &self.roots)?;
        write_all(sink, roots_line(self.roots.len() as u32).as_bytes())
    }
}

// Writes the line of each root.
fn write_roots<K: Sink>(sink: &mut K, roots: &[RootId]) -> Result<(), Failed>
    ensures { Writes (K.seen sink.old) (K.seen sink.new) (flat_map root_text roots.now) result }
{
    for root in roots {
        write_all(sink, root_line(*root).as_bytes())?;
    }
    Ok(())
}
