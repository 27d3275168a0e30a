// The handles of a store and the entries of its weak table, by rising slot.
ghost use Rattle.std.specs.Prelude.{◌≡◌, ◌/◌, ◌≤◌, map, option_map, option_and_then, IfOk};
ghost use Rattle.std.specs.FinMap.{entries, get};
ghost use Rattle.hd_model.specs.declared.limits.TheConstants.{ROWS};
ghost use Rattle.hd_store.specs.declared.info.EntryInfo.{EntryInfo as EntryInfoValue};
ghost use Rattle.hd_model.specs.Handles.{extra_of};
ghost use Rattle.hd_seen.specs.Seen.{age_of, entry_seen, extra_seen, handle_seen};

use crate::growing::add;
use hd_model::limits::{CLUMP, CLUMPS, ROWS};
use hd_model::{Id, Slot};
use hd_seen::{SeenEntry, SeenExtra, SeenHandle};
use hd_store::{EntryInfo, ExtraInfo, HandleInfo, Store};
use std::alloc::{AllocError, Global};

/// The live handles.
pub(crate) fn handles(alloc: Global, store: &Store) -> Result<Vec<SeenHandle>, AllocError>
    ensures { let ages = store.now.ages in let handles = store.now.state.handles in
        IfOk result (λ seen. seen.items ≡ map (handle_seen ages) (entries handles)) }
{
    // It says for the proof too that the store is well formed.
    let contents = store.contents();
    let mut seen = Vec::new(alloc);
    for number in 0..ROWS * (contents.blocks() + 1) {
        let handle = handle_in(store, Slot(number));
        add(&mut seen, handle)?;
    }
    Ok(seen)
}

/// The slots that the weak table holds.
pub(crate) fn entries(alloc: Global, store: &Store) -> Result<Vec<SeenEntry>, AllocError>
    ensures { let ages = store.now.ages in let weak = store.now.state.weak in
        IfOk result (λ seen. seen.items ≡ map (entry_seen ages) (entries weak)) }
{
    // It says for the proof too that the store is well formed.
    let contents = store.contents();
    let mut seen = Vec::new(alloc);
    for number in 0..ROWS * (contents.blocks() + 1) {
        let entry = entry_in(store, Slot(number));
        add(&mut seen, entry)?;
    }
    Ok(seen)
}

// The handle in a slot, if the slot is live.
fn handle_in(store: &Store, slot: Slot) -> Option<SeenHandle>
    ensures { let ages = store.now.ages in let handles = store.now.state.handles in
        result ≡ option_map (λ h. handle_seen ages (slot.0, h)) (get handles slot.0) }
{
    // For the proof: a live handle is in a block of the table.
    let _contents = store.contents();
    let info = store.handle(slot)?;
    Some(seen_handle(slot, info, age(store, slot)))
}

// What the weak table has in a slot, if it holds the slot.
fn entry_in(store: &Store, slot: Slot) -> Option<SeenEntry>
    ensures { let ages = store.now.ages in let weak = store.now.state.weak in
        result ≡ option_map (λ e. entry_seen ages (slot.0, e)) (get weak slot.0) }
{
    // It says for the proof too that a slot that is held is in a block of the table.
    let contents = store.contents();
    let entry = contents.entry(slot)?;
    Some(seen_entry(slot, entry, age(store, slot)))
}

// The age of a slot's clump.
fn age(store: &Store, slot: Slot) -> u8
    requires low { 1 ≤ slot.0 / ROWS }
    requires high { slot.0 / ROWS ≤ store.now.numbers.blocks }
    ensures { result ≡ age_of store.now.ages slot.0 }
{
    store
        .contents()
        .ages()
        .age(slot.0 / ROWS, slot.0 / CLUMP % CLUMPS)
}

// A handle, as it is seen.
fn seen_handle(slot: Slot, info: HandleInfo<Id>, age: u8) -> SeenHandle
    ensures { result ≡ record {
      slot = slot;
      kind = info.kind;
      target = info.target;
      extra = extra_seen (extra_of info.extra);
      age = age;
    } }
{
    SeenHandle {
        slot,
        kind: info.kind,
        target: info.target,
        extra: seen_extra(info.extra),
        age,
    }
}

// What it has beside its target.
fn seen_extra(extra: ExtraInfo<Id>) -> SeenExtra
    ensures { result ≡ extra_seen (extra_of extra) }
{
    match extra {
        ExtraInfo::Nothing => SeenExtra::Nothing,
        ExtraInfo::Strength(strength) => SeenExtra::Strength(strength),
        ExtraInfo::Secondary(secondary) => SeenExtra::Secondary(secondary),
        ExtraInfo::Count(count) => SeenExtra::Count(count),
    }
}

// A slot that the weak table holds, as it is seen.
fn seen_entry(slot: Slot, entry: Option<EntryInfo>, age: u8) -> SeenEntry
    ensures { let key = option_map (λ (e : EntryInfoValue). e.key) entry in
        let value = option_and_then (λ (e : EntryInfoValue). e.value) entry in
        result ≡ record { slot = slot; key = key; value = value; age = age } }
{
    match entry {
        Some(told) => SeenEntry {
            slot,
            key: Some(told.key),
            value: told.value,
            age,
        },
        None => SeenEntry {
            slot,
            key: None,
            value: None,
            age,
        },
    }
}
