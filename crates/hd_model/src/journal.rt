ghost use Rattle.std.specs.Prelude.{◌≡◌, ◌==◌, ◌+◌, ◌^◌, ◌<◌, ◌≤◌, [], ◌∷◌, ◌++◌, length, slice_get, Some, IfOk};

use crate::data::{Entry, Memory};
use std::alloc::Global;
use std::marker::Model;

/// What happened: the entries of all callers, in one order. Contracts see the entries and `spare`,
/// the number of further ones that there is room for.
#[derive(Drop)]
pub struct Journal {
    entries: Vec<Entry>,
    spare: u32,
}

impl Model for Journal {
    ghost use Rattle.std.specs.Prelude.{ℕ, ◌+◌, ◌<◌, ◌≤◌, ◌^◌, List, vec_len, vec_capacity};
    ghost use Rattle.hd_model.specs.Journal.{Recorded};

    ghost Value = { Recorded };

    ghost view = { λ j. record { entries = j.entries.items; spare = j.spare } };

    ghost invariant = { λ j. let length = vec_len j.entries + j.spare in
        (length ≤ vec_capacity j.entries) × (length < 2 ^ 32) };
}

impl Journal {
    /// An empty journal with room for `room` entries. All memory is taken here.
    pub fn open(alloc: Global, room: u32) -> Result<Journal, Memory>
        ensures empty { IfOk result (λ j. j.entries ≡ []) }
        ensures room { IfOk result (λ j. j.spare ≡ room) }
    {
        match Vec::with_capacity(alloc, room as usize) {
            Ok(entries) => Ok(Journal {
                entries,
                spare: room,
            }),
            Err(_) => Err(Memory),
        }
    }

    /// Appends an entry, for which there is room.
    pub fn push(&mut self, e: Entry)
        requires { 1 ≤ self.old.spare }
        ensures entries { self.new.entries ≡ self.old.entries ++ e ∷ [] }
        ensures spare { self.new.spare + 1 ≡ self.old.spare }
    {
        self.entries.push_reserved(e);
        self.spare -= 1;
    }

    /// The number of entries.
    pub fn len(&self) -> u32
        ensures value { result ≡ length self.now.entries }
        ensures small { result + self.now.spare < 2 ^ 32 }
    {
        self.entries.len() as u32
    }

    /// Whether there is no entry yet.
    pub fn is_empty(&self) -> bool
        ensures { result ≡ (length self.now.entries == 0) }
    {
        self.entries.is_empty()
    }

    /// The number of further entries that there is room for.
    pub fn spare(&self) -> u32
        ensures value { result ≡ self.now.spare }
        ensures small { length self.now.entries + result < 2 ^ 32 }
    {
        self.spare
    }

    /// The entry at an index, from 0.
    pub fn entry(&self, i: u32) -> Entry
        requires { i < length self.now.entries }
        ensures { slice_get self.now.entries i ≡ Some result }
    {
        self.entries[i as usize]
    }
}
