// The pinned addresses, by object and by address. No two of them overlap, so an address is free
// where its two neighbours leave room.
ghost use Rattle.std.specs.Prelude.{◌≡◌, ◌≢◌, ℕ, ◌+◌, ◌<◌, ◌≤◌, ◌↔◌, ◌++◌, length, Some, None, IsTrue, IfOk, IsSome, MatchResult, AllPairs, Contains};
ghost use Rattle.std.specs.FinMap as map;
ghost use Rattle.std.specs.FinMap.{get};
ghost use Rattle.std.specs.Option.{option_to_list};
ghost use Rattle.hd_model.specs.declared.limits.TheConstants.{FIELDS};
ghost use Rattle.hd_model.specs.PinnedAddresses.{Range};
ghost use Rattle.hd_maps.specs.PinnedObjects.{IsApart, AreApart, IsBelow};
ghost use Rattle.hd_maps.specs.StoredObjects.{object_in};
ghost use Rattle.hd_maps.specs.Inside.{EndBefore, BeginAfter};

use crate::numbered::Numbered;
use crate::store::Objects;
use hd_model::{Id, Memory};
use std::alloc::Global;
use std::marker::Model;

/// The pinned addresses.
#[derive(Drop)]
pub struct PinnedAddresses {
    by_id: Numbered<u32>,
    // The object at each address.
    by_address: Numbered<u64>,
}

impl Model for PinnedAddresses {
    ghost use Rattle.std.specs.Prelude.{ℕ};
    ghost use Rattle.std.specs.FinMap as map;
    ghost use Rattle.std.specs.FinMap.{FinMap};
    ghost use Rattle.std.specs.Ordering.{nat_cmp};
    ghost use Rattle.std.specs.Coded.{coded_ℕ};
    ghost use Rattle.hd_maps.specs.Inside.{AreInverse};

    ghost Value = { FinMap nat_cmp ℕ };

    ghost coded = { map.code coded_ℕ coded_ℕ };

    ghost view = { λ p. p.by_id };

    ghost invariant = { λ p. AreInverse p.by_id p.by_address };
}

impl PinnedAddresses {
    /// None yet.
    pub fn open(alloc: Global) -> PinnedAddresses
        ensures { result ≡ map.empty }
    {
        PinnedAddresses {
            by_id: Numbered::new(alloc),
            by_address: Numbered::new(alloc),
        }
    }

    /// The pinned address of an object.
    pub fn of(&self, id: Id) -> Option<u32>
        ensures { result ≡ get self.now id.0 }
    {
        self.by_id.at(id.0)
    }

    /// Whether `size` cells from an address on share none with an object that has a pinned one.
    pub fn is_free(&self, objects: &Objects, address: u32, size: u32) -> bool
        requires some { 0 < size }
        requires sizes { (id : ℕ) → length (object_in objects.now id).fields ≤ FIELDS }
        requires apart { AreApart objects.now self.now }
        ensures { let range : Range = record { first = address; end = address + size } in
            IsTrue result ↔ IsApart objects.now self.now range }
    {
        let before = self.leaves_before(objects, address);
        let after = self.leaves_after(address, size);
        before && after
    }

    // Whether the last pinned object that begins at or before an address ends before it.
    fn leaves_before(&self, objects: &Objects, address: u32) -> bool
        requires sizes { (id : ℕ) → length (object_in objects.now id).fields ≤ FIELDS }
        requires apart { AreApart objects.now self.now }
        ensures { IsTrue result ↔ EndBefore objects.now self.now address }
    {
        let Some(other) = self.by_address.greatest_to(u64::from(address)) else {
            return true;
        };
        let Some(id) = self.by_address.get(other) else {
            return true;
        };
        other + u64::from(objects.size_of(*id)) <= u64::from(address)
    }

    // Whether `size` cells from an address on end before the next pinned object.
    fn leaves_after(&self, address: u32, size: u32) -> bool
        ensures { IsTrue result ↔ BeginAfter self.now address (address + size) }
    {
        match self.by_address.least_from(u64::from(address)) {
            Some(other) => u64::from(address) + u64::from(size) <= other,
            None => true,
        }
    }

    /// An address that no object has becomes the pinned one of an object that has none. Without
    /// memory nothing is changed.
    pub fn put(&mut self, id: Id, address: u32) -> Result<(), Memory>
        requires none { get self.old id.0 ≡ None }
        requires free { (other : ℕ) → get self.old other ≢ Some address }
        ensures { MatchResult result (λ _. self.new ≡ map.insert self.old id.0 address)
            (λ _. self.new ≡ self.old) }
    {
        self.by_id.insert(id.0, address)?;
        match self.by_address.insert(u64::from(address), id.0) {
            Ok(()) => Ok(()),
            Err(Memory) => {
                let _ = self.by_id.remove(id.0);
                Err(Memory)
            }
        }
    }

    /// The objects that have one, by identity.
    pub fn ids(&self, alloc: Global) -> Result<Vec<u64>, Memory>
        ensures { IfOk result (λ ids. ids.items ≡ map.keys self.now) }
    {
        self.by_id.keys(alloc)
    }

    /// The objects that have one, in rising address.
    pub fn ids_by_address(&self, alloc: Global) -> Result<Vec<u64>, Memory>
        ensures all { IfOk result (λ ids. (id : ℕ)
            → Contains ids.items id ↔ IsSome (get self.now id)) }
        ensures rising { IfOk result (λ ids. AllPairs (IsBelow self.now) ids.items) }
    {
        let mut ids = Vec::new(alloc);
        let pinned = self.by_address.keys(alloc)?;
        for address in &pinned {
            push_owner(&self.by_address, *address, &mut ids)?;
        }
        Ok(ids)
    }

    /// Forgets that of an object.
    pub fn take(&mut self, id: u64)
        ensures { self.new ≡ map.remove self.old id }
    {
        if let Some(address) = self.by_id.remove(id) {
            let _ = self.by_address.remove(u64::from(address));
        }
    }
}

// Appends the object at an address, where there is one.
fn push_owner(by_address: &Numbered<u64>, address: u64, ids: &mut Vec<u64>) -> Result<(), Memory>
    ensures { IfOk result (λ _. ids.new.items
        ≡ ids.old.items ++ option_to_list (get by_address.now address)) }
{
    let Some(id) = by_address.get(address) else {
        return Ok(());
    };
    match ids.push(*id) {
        Ok(_) => Ok(()),
        Err(_) => Err(Memory),
    }
}
