// Values by weak keys, after .NET's ConditionalWeakTable: entries are added and found, a key that is
// present is refused, and the slots of keys that are gone are used again.
mod weak_map;

use crate::cwt::weak_map::WeakMap;
use hd_model::{Addr, Id, Slot};
use std::alloc::{AllocError, Global};
use std::io;

// Adds an entry for the object at `at`, and prints what the call returns: its slot, if it has one.
fn add(
    rt: &impl Print,
    map: &mut WeakMap,
    words: &str,
    key: Id,
    at: Addr,
    value: Addr,
) -> io::Result<Option<Slot>> {
    let added = map.add(key, at, value);
    println!(rt; "{words}: {added:?}")?;
    Ok(added.ok())
}

fn print_value(rt: &impl Print, map: &WeakMap, words: &str, key: Id) -> io::Result<()> {
    let value = map.value(key);
    println!(rt; "{words}: {value:?}")
}

// Two entries, and a third that is refused, since its key is present.
fn add_keys(rt: &impl Print, map: &mut WeakMap) -> io::Result<()> {
    add(rt, map, "add 1", Id(1), Addr(256), Addr(512))?;
    add(rt, map, "add 2", Id(2), Addr(264), Addr(520))?;
    add(rt, map, "add 1 again", Id(1), Addr(256), Addr(528))?;
    print_value(rt, map, "value of 2", Id(2))
}

// A key is removed, and another gets its slot; the object of that one dies, and a third gets it.
fn use_slot_again(rt: &impl Print, map: &mut WeakMap) -> io::Result<()> {
    let removed = map.remove(Id(1));
    println!(rt; "remove 1: {removed}")?;
    if let Some(slot) = add(rt, map, "add 3", Id(3), Addr(272), Addr(536))? {
        map.lose(slot);
    }
    print_value(rt, map, "value of 3", Id(3))?;
    add(rt, map, "add 4", Id(4), Addr(280), Addr(544))?;
    Ok(())
}

/// Adds, finds and removes entries, and prints what each call returns.
pub(crate) fn run(rt: &impl Print, alloc: Global) -> io::Result<()> {
    let Ok(mut map) = WeakMap::open(alloc) else {
        return Err(AllocError.into());
    };
    add_keys(rt, &mut map)?;
    use_slot_again(rt, &mut map)
}
