// A map by number.
ghost use Rattle.std.specs.Prelude.{◌≡◌, ◌<◌, ◌^◌, map, option_copied, is_some, MatchResult, IfOk};
ghost use Rattle.std.specs.Option.{option_copied_mut};
ghost use Rattle.std.specs.Borrow.{sem};
ghost use Rattle.hd_maps.specs.LentValues.{lends_value, lent_entry};
ghost use Rattle.hd_maps.specs.NextKeys.{IsLeastFrom, IsGreatestTo};
ghost use Rattle.std.specs.FinMap as map;

use hd_model::Memory;
use std::alloc::Global;
use std::collections::BTreeMap;
use std::marker::Model;

/// A map from numbers, seen as the finite map of its entries.
#[derive(Drop)]
pub struct Numbered<V> {
    tree: BTreeMap<u64, V>,
}

impl<V> Model for Numbered<V> {
    ghost use Rattle.std.specs.Coded.{coded_ℕ};
    ghost use Rattle.std.specs.Ordering.{nat_cmp};
    ghost use Rattle.std.specs.BTreeMap.{IsOrdered};
    ghost use Rattle.std.specs.FinMap as map;

    ghost Value = { map.FinMap nat_cmp V };

    ghost coded = { map.code coded_ℕ V.code };

    ghost view = { λ n. map.from_sorted n.tree.entries };

    ghost invariant = { λ n. IsOrdered nat_cmp n.tree };
}

impl<V> Numbered<V> {
    /// No entries.
    pub fn new(alloc: Global) -> Numbered<V>
        ensures { result ≡ map.empty }
    {
        Numbered {
            tree: BTreeMap::new(alloc),
        }
    }

    /// The number of entries.
    pub fn len(&self) -> usize
        ensures value { result ≡ map.len self.now }
        ensures small { result < 2 ^ 63 }
    {
        self.tree.len()
    }

    /// The value at a key.
    pub fn get(&self, key: u64) -> Option<&V>
        ensures { option_copied result ≡ map.get self.now key }
    {
        self.tree.get(&key)
    }

    /// Whether it has a key.
    pub fn has(&self, key: u64) -> bool
        ensures { result ≡ is_some (map.get self.now key) }
    {
        self.tree.contains_key(&key)
    }
}

impl<V> Numbered<V> {
    /// The least key that is not below a number.
    pub fn least_from(&self, number: u64) -> Option<u64>
        ensures { IsLeastFrom self.now number result }
    {
        match self.tree.range(number..).next() {
            Some((key, _)) => Some(*key),
            None => None,
        }
    }

    /// The greatest key that is not above a number.
    pub fn greatest_to(&self, number: u64) -> Option<u64>
        ensures { IsGreatestTo self.now number result }
    {
        match self.tree.range(..=number).next_back() {
            Some((key, _)) => Some(*key),
            None => None,
        }
    }

    /// The keys, which rise.
    pub fn keys(&self, alloc: Global) -> Result<Vec<u64>, Memory>
        ensures { IfOk result (λ keys. keys.items ≡ map.keys self.now) }
    {
        let mut keys = Vec::new(alloc);
        for key in self.tree.keys() {
            let Ok(_) = keys.push(*key) else {
                return Err(Memory);
            };
        }
        Ok(keys)
    }

    /// The entries, by rising key.
    pub fn entries(&self, alloc: Global) -> Result<Vec<(u64, &V)>, Memory>
        ensures { IfOk result (λ listed. map lent_entry listed.items ≡ map.entries self.now) }
    {
        let mut entries = Vec::new(alloc);
        for (key, value) in self.tree.iter() {
            let Ok(_) = entries.push((*key, value)) else {
                return Err(Memory);
            };
        }
        Ok(entries)
    }

    /// The value at a key, to be written.
    pub fn get_mut(&mut self, key: u64) -> Option<&mut V>
        ensures* writes_back { sem 𝓛 (lends_value V.row self.entry key result) }
        ensures value { option_copied_mut result ≡ map.get self.old key }
    {
        self.tree.get_mut(&key)
    }
}

impl<V: Drop> Numbered<V> {
    /// A value at a key, in place of what is there.
    pub fn insert(&mut self, key: u64, value: V) -> Result<(), Memory>
        ensures { MatchResult result (λ _. self.new ≡ map.insert self.old key value)
            (λ _. self.new ≡ self.old) }
    {
        match self.tree.insert(key, value) {
            Ok(_) => Ok(()),
            Err(_) => Err(Memory),
        }
    }

    /// Takes a key out, and returns what it had.
    pub fn remove(&mut self, key: u64) -> Option<V>
        ensures { (self.new ≡ map.remove self.old key) × (result ≡ map.get self.old key) }
    {
        self.tree.remove(&key)
    }
}

impl<V: Copy + Drop> Numbered<V> {
    /// The value at a key, by itself.
    pub fn at(&self, key: u64) -> Option<V>
        ensures { result ≡ map.get self.now key }
    {
        match self.get(key) {
            Some(value) => Some(*value),
            None => None,
        }
    }

    /// The values, by rising key.
    pub fn values(&self, alloc: Global) -> Result<Vec<V>, Memory>
        ensures { IfOk result (λ values. values.items ≡ map.values self.now) }
    {
        let mut values = Vec::new(alloc);
        for value in self.tree.values() {
            let Ok(_) = values.push(*value) else {
                return Err(Memory);
            };
        }
        Ok(values)
    }
}

/// The same keys once more.
pub fn copied(keys: &Numbered<()>) -> Result<Numbered<()>, Memory>
    ensures { IfOk result (λ copy. copy ≡ keys.now) }
{
    match keys.tree.clone() {
        Ok(tree) => Ok(Numbered { tree }),
        Err(_) => Err(Memory),
    }
}
