ghost use Rattle.std.specs.Prelude.{◌≡◌};
ghost use Rattle.hd_slots.specs.Change.{change_of, Offers, noted, MayNote, grown_by, MayGrow};

use hd_model::limits::ROWS;
use hd_model::{Class, Cmd, Entry, Grown, Kind, Slot};
use hd_pool::Pool;

/// What a command does to the free slots.
#[derive(Clone, Copy)]
pub enum Change {
    /// It takes one of a kind.
    Takes(Kind),
    /// It takes one for the weak table, where no slot of that is idle.
    Adds,
    /// It frees one.
    Frees,
    /// It gives a block of a kind back, all of whose slots are free.
    GivesBack(Kind),
    /// It leaves them as they are.
    Keeps,
}

/// What a command does to the free slots, by its class.
#[inline(always)]
pub fn change_of(cmd: Cmd) -> Change
    ensures { result ≡ change_of cmd }
{
    match cmd.class() {
        Class::TakesSlot { make, .. } => Change::Takes(make.kind()),
        Class::AddsEntry { .. } => Change::Adds,
        Class::Frees => Change::Frees,
        Class::GivesBack(kind) => Change::GivesBack(kind),
        Class::MakesObject(_)
        | Class::StoresTarget { .. }
        | Class::StoresSecondary { .. }
        | Class::Collects(_)
        | Class::RepliesAddress { .. }
        | Class::LooksUp { .. }
        | Class::Searches { .. }
        | Class::Plain => Change::Keeps,
    }
}

/// What is offered to a command: to one that takes a slot the least free one of its kind, which the
/// pool has no more, and to `trim` the first slot of the least block of its kind whose slots are
/// all free.
#[inline(always)]
pub fn offer(pool: &mut Pool, change: Change) -> Option<Slot>
    ensures { Offers pool.old pool.new change result }
{
    match change {
        Change::Takes(kind) => pool.take(kind),
        Change::GivesBack(kind) => pool.whole(kind).map(|block| Slot(block * ROWS)),
        Change::Adds | Change::Frees | Change::Keeps => None,
    }
}

/// Takes note of an entry that took what was offered: a block by which the table grew is added, and
/// its first slot taken; a freed slot is put back; a block that was given back is dropped.
#[inline(always)]
pub fn note(pool: &mut Pool, change: Change, entry: &Entry)
    requires { MayNote pool.old change entry.now.slot entry.now.grown }
    ensures { pool.new ≡ noted pool.old change entry.now.slot entry.now.grown }
{
    note_slot(pool, change, entry.slot, entry.grown);
}

/// The same, by the slot that was given or freed and how the table grew.
#[inline(always)]
pub fn note_slot(pool: &mut Pool, change: Change, slot: Option<Slot>, grown: Grown)
    requires { MayNote pool.old change slot grown }
    ensures { pool.new ≡ noted pool.old change slot grown }
{
    match (change, grown, slot) {
        (Change::Takes(kind), Grown::One(block) | Grown::Two(block, _), _) => {
            add_block(pool, kind, block);
        }
        (Change::Frees, _, Some(slot)) => pool.put(slot),
        (Change::GivesBack(_), Grown::Back(block), _) => pool.drop_block(block),
        (Change::Takes(_), Grown::Zero | Grown::Back(_), _)
        | (Change::Frees, _, None)
        | (Change::GivesBack(_), Grown::Zero | Grown::One(_) | Grown::Two(..), _)
        | (Change::Adds | Change::Keeps, _, _) => {}
    }
}

// Adds a block to a pool that has no free slot of its kind, and takes its first slot.
fn add_block(pool: &mut Pool, kind: Kind, block: u32)
    requires { MayGrow pool.old kind block }
    ensures { pool.new ≡ grown_by pool.old kind block }
{
    pool.add_block(block, kind);
    let _first = pool.take(kind);
}
