use crate::data::{Kind, Make};

/// What a command does, as far as memory, slots, ages, addresses and collections are concerned.
#[derive(Clone, Copy)]
pub enum Class {
    /// It makes an object with this many fields.
    MakesObject(u8),
    /// It makes a handle in a slot, with its target in object register `t`.
    TakesSlot { make: Make, t: u8 },
    /// It stores the target of the handle in `h`, from object register `t`.
    StoresTarget { h: u8, t: u8 },
    /// It stores the secondary of the handle in `h`.
    StoresSecondary { h: u8 },
    /// It frees a handle, and with it its slot.
    Frees,
    /// It gives a block of a kind back.
    GivesBack(Kind),
    /// It collects a generation and all younger ones.
    Collects(u8),
    /// It returns the address of what the handle in `h` pins.
    RepliesAddress { h: u8 },
    /// It adds an entry to the weak table, with the key in object register `k` and the value in
    /// `v`. Where no slot of the table is idle, it takes one as a dependent handle does.
    AddsEntry { k: u8, v: u8 },
    /// It looks the key in object register `k` up in the weak table.
    LooksUp { k: u8 },
    /// It searches for a chain from an anchor to the object in object register `s`.
    Searches { s: u8 },
    /// It does none of these.
    Plain,
}
