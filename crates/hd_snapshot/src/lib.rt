//! What a debugger sees of a running store: a snapshot of it, as plain data.
#![tactic(auto)]

ghost use Rattle.std.specs.Prelude.{◌≡◌, IfOk};
ghost use Rattle.hd_seen.specs.Seen.{view_seen};
ghost use Rattle.hd_snapshot.specs.Laws.{IsParted};
ghost use Rattle.hd_snapshot.specs.Taken.{picture_of};

mod blocks;
mod growing;
mod laws;
mod objects;
mod regions;
mod roots;
mod rows;

use hd_model::Memory;
use hd_seen::Snapshot;
use hd_store::Store;
pub use laws::each_is_shown_once;
use std::alloc::{AllocError, Global};

/// A snapshot of a store, which takes memory for it and changes nothing.
pub fn snapshot(alloc: Global, store: &Store) -> Result<Snapshot, Memory>
    ensures shows { IfOk result (λ taken. view_seen taken ≡ picture_of store.now) }
    ensures parted { IsParted (picture_of store.now) }
{
    regions::part(store);
    match take(alloc, store) {
        Ok(taken) => Ok(taken),
        Err(AllocError) => Err(Memory),
    }
}

// The same, list by list.
fn take(alloc: Global, store: &Store) -> Result<Snapshot, AllocError>
    ensures { IfOk result (λ taken. view_seen taken ≡ picture_of store.now) }
{
    Ok(Snapshot {
        callers: store.callers(),
        objects: objects::objects(alloc, store)?,
        regions: regions::regions(alloc, store)?,
        handles: rows::handles(alloc, store)?,
        entries: rows::entries(alloc, store)?,
        blocks: blocks::blocks(alloc, store)?,
        queue: roots::queue(alloc, store)?,
        registers: roots::registers(alloc, store)?,
        handle_registers: roots::handle_registers(alloc, store)?,
        statics: roots::statics(store),
        board: roots::board(store),
        serials: roots::serials(alloc, store)?,
    })
}
