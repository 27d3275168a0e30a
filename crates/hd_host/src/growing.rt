// A table that grows as it is used: before a command that needs a slot, where none is free.
ghost use Rattle.std.specs.Prelude.{◌≡◌, ◌+◌, ◌≤◌, ◌⊎◌, ◌<◌, IfOk, MatchResult};
ghost use Rattle.hd_model.specs.{State.given_of, Step.blocks_needed};
ghost use Rattle.hd_host.specs.Inside.{HasBlocksFor, HasGrown, IsSized, MayHaveBlocksFor};

use crate::stamps::Stamps;
use hd_model::{Kind, Memory, Slot};
use hd_pool::Pool;
use hd_slots::Change as Slots;
use hd_store::Store;

// Has the table grow where a command that takes a slot is offered none, and the host may have the
// blocks that it needs.
#[inline(always)]
pub(crate) fn make_room(
    store: &mut Store,
    pool: &mut Pool,
    stamps: &mut Stamps,
    limit: u32,
    change: Slots,
    offered: Option<Slot>,
) -> Result<(), Memory>
    requires { IsSized limit store.old pool.old.blocks stamps.old }
    ensures grown { HasGrown limit store.old pool.old stamps.old store.new pool.new stamps.new }
    ensures room { MatchResult result (λ _. HasBlocksFor limit store.new change offered)
        (λ _. MayHaveBlocksFor limit store.new change offered) }
{
    match (change, offered) {
        (Slots::Takes(kind), None) => make_blocks(store, pool, stamps, limit, kind),
        (Slots::Takes(_), Some(_))
        | (Slots::Adds | Slots::Frees | Slots::GivesBack(_) | Slots::Keeps, _) => Ok(()),
    }
}

// The same for a kind. It is out of line: few calls come here.
#[inline(never)]
fn make_blocks(
    store: &mut Store,
    pool: &mut Pool,
    stamps: &mut Stamps,
    limit: u32,
    kind: Kind,
) -> Result<(), Memory>
    requires { IsSized limit store.old pool.old.blocks stamps.old }
    ensures grown { HasGrown limit store.old pool.old stamps.old store.new pool.new stamps.new }
    ensures room { let wanted = given_of store.new.state + blocks_needed kind in
        MatchResult result (λ _. (wanted ≤ store.new.numbers.blocks) ⊎ (limit < wanted))
        (λ _. wanted ≤ limit) }
{
    let contents = store.contents();
    let blocks = contents.blocks();
    let given = contents.given();
    let needed = needed_blocks(kind);
    if limit < needed || limit - needed < given {
        return Ok(());
    }
    let wanted = given + needed;
    if wanted <= blocks {
        return Ok(());
    }
    grow(
        store,
        pool,
        stamps,
        limit,
        limit.min(wanted.max(2 * blocks)),
    )
}

// Has a table grow to so many blocks. What is refused may leave the others larger, which nothing
// shows.
fn grow(
    store: &mut Store,
    pool: &mut Pool,
    stamps: &mut Stamps,
    limit: u32,
    blocks: u32,
) -> Result<(), Memory>
    requires sized { IsSized limit store.old pool.old.blocks stamps.old }
    requires few { blocks ≤ limit }
    ensures grown { HasGrown limit store.old pool.old stamps.old store.new pool.new stamps.new }
    ensures room { IfOk result (λ _. blocks ≤ store.new.numbers.blocks) }
{
    pool.reserve(blocks)?;
    stamps.reserve(blocks)?;
    store.reserve_blocks(blocks)?;
    // Read for the proof alone: the store is sound.
    let _sound = store.contents();
    Ok(())
}

// The number of blocks by which a table grows for a kind.
fn needed_blocks(kind: Kind) -> u32
    ensures value { result ≡ blocks_needed kind }
    ensures few { result ≤ 2 }
{
    if kind.paired() { 2 } else { 1 }
}
