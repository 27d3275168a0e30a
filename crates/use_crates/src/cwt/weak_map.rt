// Values by weak keys: the weak table says in which slot a key is, and the row of that slot, which
// is one of a dependent handle, has the address of the key and that of the value.
ghost use Rattle.std.specs.Prelude.{◌≡◌, ◌↔◌, ◌+◌, ◌*◌, ◌<◌, ℕ, true, IfOk, IfSome, IsNone};
ghost use Rattle.hd_cwt.specs.WeakTable.{CanTake, HasKey};

use hd_cwt::Cwt;
use hd_model::limits::ROWS;
use hd_model::{Addr, Grown, Id, Kind, Memory, Refusal, Slot, Steps};
use hd_seg::{Extra, Row, Seg};
use std::alloc::Global;
use std::marker::Brand;
use std::sync::ledger::{Blank, Ledger};

// The blocks of a map: one of dependent handles, and its data block.
const TABLE: u32 = 2;

/// A map with room for 64 entries.
#[derive(Drop)]
pub(crate) struct WeakMap {
    keys: Cwt,
    handles: Seg,
    ghost keys_fit: { keys.blocks ≡ 2 },
    ghost handles_fit: { handles.blocks ≡ 2 },
}

impl WeakMap {
    /// A map without entries.
    pub(crate) fn open(alloc: Global) -> Result<WeakMap, Memory> {
        let keys = Cwt::open(alloc, TABLE)?;
        let mut handles = Seg::open(alloc, TABLE)?;
        let Ok(Grown::Two(_, _)) = handles.give_block(Kind::Dependent) else {
            return Err(Memory);
        };
        Ok(WeakMap { keys, handles })
    }

    /// The value of a key.
    pub(crate) fn value(&self, key: Id) -> Option<Addr> {
        let slot = find(&self.keys, key)?;
        match self.handles.row(slot)?.extra {
            Extra::Secondary(value) => value,
            Extra::Nothing | Extra::Strength(_) | Extra::Count(_) => None,
        }
    }

    /// Adds an entry for the object at `at`, whose identity is the key, and returns its slot.
    pub(crate) fn add(&mut self, key: Id, at: Addr, value: Addr) -> Result<Slot, Refusal> {
        if find(&self.keys, key).is_some() {
            return Err(Refusal::Present);
        }
        let given = self.handles.given();
        let Some(slot) = room(&self.keys) else {
            return Err(Refusal::TableFull { given });
        };
        if !put(&mut self.handles, slot, at, value) {
            return Err(Refusal::TableFull { given });
        }
        self.keys.add(key, slot);
        Ok(slot)
    }

    /// Takes out a key: whether it was there. Its slot stays held, and is idle.
    pub(crate) fn remove(&mut self, key: Id) -> bool {
        let Some(slot) = find(&self.keys, key) else {
            return false;
        };
        self.keys.remove(key);
        free(&mut self.handles, slot);
        true
    }

    /// What a collection does where the object of an entry is dead: the handle ends, and the sweep
    /// takes out the key.
    pub(crate) fn lose(&mut self, slot: Slot) {
        free(&mut self.handles, slot);
        self.keys.sweep(&self.handles);
    }
}

// The slot with a key.
fn find(keys: &Cwt, key: Id) -> Option<Slot>
    ensures found { IfSome result (λ slot. HasKey keys.now key slot.0) }
    ensures none { IsNone result ↔ ((slot : ℕ) → ¬ (HasKey keys.now key slot)) }
{
    find_on::<Brand>(keys, key, Blank::new(1))
}

// The same, with a counter of the entries that it looks at, which nothing reads.
fn find_on<L: Ledger>(keys: &Cwt, key: Id, blank: Blank) -> Option<Slot>
    requires { (L.name ≡ blank.name) × (L.parts ≡ blank.parts) × (0 < blank.parts) }
    ensures found { IfSome result (λ slot. HasKey keys.now key slot.0) }
    ensures none { IsNone result ↔ ((slot : ℕ) → ¬ (HasKey keys.now key slot)) }
{
    let mut steps = Steps::<L>::open(blank);
    keys.find(key, &mut steps)
}

// A slot for a new key: the least idle one, or the next of the block.
fn room(keys: &Cwt) -> Option<Slot>
    requires { keys.now.blocks ≡ TABLE }
    ensures { IfSome result (λ slot. CanTake keys.now slot.0) }
{
    if let Some(slot) = keys.idle() {
        return Some(slot);
    }
    let count = keys.held_count();
    if count >= ROWS {
        return None;
    }
    let slot = Slot(ROWS + count);
    if keys.held(slot) { None } else { Some(slot) }
}

// Puts a dependent handle into a slot of the first block of these: whether the slot was free there.
fn put(handles: &mut Seg, slot: Slot, at: Addr, value: Addr) -> bool
    ensures blocks { handles.new.blocks ≡ handles.old.blocks }
    ensures within { result ≡ true → slot.0 < ROWS * (handles.old.blocks + 1) }
{
    let Some(block) = handles.first(Kind::Dependent) else {
        return false;
    };
    if slot.0 / ROWS == block && handles.row(slot).is_none() {
        let target = Some(at);
        let extra = Extra::Secondary(Some(value));
        handles.put_row(slot, Row { target, extra });
        return true;
    }
    false
}

// Frees a slot, if it is live.
fn free(handles: &mut Seg, slot: Slot)
    ensures { handles.new.blocks ≡ handles.old.blocks }
{
    if handles.row(slot).is_some() {
        handles.take_row(slot);
    }
}
