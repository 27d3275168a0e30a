// The queue of a store, and what its registers, statics and board have.
ghost use Rattle.std.specs.Prelude.{◌≡◌, ◌<◌, [], slice_index_or, IfOk};

use hd_model::{Id, Slot};
use hd_seen::INDEXES;
use hd_store::Store;
use std::alloc::{AllocError, Global};

/// The objects in the finalization queue, the next one first.
pub(crate) fn queue(alloc: Global, store: &Store) -> Result<Vec<Id>, AllocError>
    ensures { IfOk result (λ seen. seen.items ≡ store.now.state.queue) }
{
    let contents = store.contents();
    let mut seen = Vec::new(alloc);
    for i in 0..contents.queued() {
        seen.push(store.queued_at(i))?;
    }
    Ok(seen)
}

/// The object registers of each caller.
pub(crate) fn registers(
    alloc: Global,
    store: &Store,
) -> Result<Vec<[Option<Id>; INDEXES]>, AllocError>
    ensures { IfOk result (λ seen. seen.items ≡ store.now.state.registers) }
{
    // For the proof: the store is well formed.
    let _contents = store.contents();
    let mut seen = Vec::new(alloc);
    for caller in 0..store.callers() {
        seen.push(registers_of(store, caller))?;
    }
    Ok(seen)
}

// Those of one caller.
fn registers_of(store: &Store, caller: u32) -> [Option<Id>; INDEXES]
    requires { caller < store.now.numbers.callers }
    ensures { result ≡ slice_index_or store.now.state.registers caller [] }
{
    // For the proof: the store is well formed.
    let _contents = store.contents();
    let mut row = [None; INDEXES];
    for d in 0..INDEXES {
        row[d] = store.register(caller, d as u8);
    }
    row
}

/// The handle registers of each caller.
pub(crate) fn handle_registers(
    alloc: Global,
    store: &Store,
) -> Result<Vec<[Option<Slot>; INDEXES]>, AllocError>
    ensures { IfOk result (λ seen. seen.items ≡ store.now.state.handle_registers) }
{
    // For the proof: the store is well formed.
    let _contents = store.contents();
    let mut seen = Vec::new(alloc);
    for caller in 0..store.callers() {
        seen.push(handle_registers_of(store, caller))?;
    }
    Ok(seen)
}

// Those of one caller.
fn handle_registers_of(store: &Store, caller: u32) -> [Option<Slot>; INDEXES]
    requires { caller < store.now.numbers.callers }
    ensures { result ≡ slice_index_or store.now.state.handle_registers caller [] }
{
    // For the proof: the store is well formed.
    let _contents = store.contents();
    let mut row = [None; INDEXES];
    for h in 0..INDEXES {
        row[h] = store.handle_register(caller, h as u8);
    }
    row
}

/// What the statics reference.
pub(crate) fn statics(store: &Store) -> [Option<Id>; INDEXES]
    ensures { result ≡ store.now.state.statics }
{
    // For the proof: the store is well formed.
    let _contents = store.contents();
    let mut row = [None; INDEXES];
    for k in 0..INDEXES {
        row[k] = store.static_at(k as u8);
    }
    row
}

/// The slots on the board.
pub(crate) fn board(store: &Store) -> [Option<Slot>; INDEXES]
    ensures { result ≡ store.now.state.board }
{
    // For the proof: the store is well formed.
    let _contents = store.contents();
    let mut row = [None; INDEXES];
    for k in 0..INDEXES {
        row[k] = store.board_at(k as u8);
    }
    row
}

/// The serial of the last object that each caller made.
pub(crate) fn serials(alloc: Global, store: &Store) -> Result<Vec<u32>, AllocError>
    ensures { IfOk result (λ seen. seen.items ≡ store.now.state.serials) }
{
    // It says for the proof too that the store is well formed.
    let contents = store.contents();
    let mut seen = Vec::new(alloc);
    for caller in 0..store.callers() {
        seen.push(contents.last_serial(caller))?;
    }
    Ok(seen)
}
