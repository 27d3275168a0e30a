// The objects, and the cells that they take.
ghost use Rattle.std.specs.Prelude.{◌≡◌, ◌+◌, ◌<◌, ◌≤◌, ◌^◌, length, slice_set, None, Some, IsSome, IfOk, MatchResult, map, option_copied};
ghost use Rattle.std.specs.FinMap as map;
ghost use Rattle.std.specs.FinMap.{get, insert};
ghost use Rattle.hd_model.specs.State.{size_of};
ghost use Rattle.hd_maps.specs.LentValues.{lent_entry};
ghost use Rattle.hd_maps.specs.StoredObjects.{IsYoungest, object_in, cells_of, edited};

use crate::data::{Edit, Object};
use crate::numbered::Numbered;
use hd_model::limits::{HEADER, OLDEST};
use hd_model::{Id, Memory};
use std::alloc::Global;
use std::marker::Model;

/// The objects by the number of their identity.
#[derive(Drop)]
pub struct Objects {
    stored: Numbered<Object>,
    // The cells of all.
    used: u32,
    // No object is of a generation below this one.
    youngest: u8,
}

impl Model for Objects {
    ghost use Rattle.std.specs.Prelude.{◌≡◌};
    ghost use Rattle.std.specs.FinMap as map;
    ghost use Rattle.std.specs.FinMap.{FinMap};
    ghost use Rattle.std.specs.Ordering.{nat_cmp};
    ghost use Rattle.std.specs.Coded.{coded_ℕ};
    ghost use Rattle.hd_model.specs.State.{Object};
    ghost use Rattle.hd_model.specs.{declared.data.Id.Id, Code.object_code, Code.id_code};
    ghost use Rattle.hd_maps.specs.Inside.{IsCounted};
    ghost use Rattle.hd_maps.specs.StoredObjects.{IsYoungest};

    ghost Value = { FinMap nat_cmp (Object Id) };

    ghost coded = { map.code coded_ℕ (object_code id_code) };

    ghost view = { λ o. o.stored };

    ghost invariant = { λ o. IsCounted o.used o.stored × IsYoungest o.youngest o.stored };
}

impl Objects {
    /// No objects.
    pub fn open(alloc: Global) -> Objects
        ensures { result ≡ map.empty }
    {
        let stored = Numbered::new(alloc);
        Objects {
            stored,
            used: 0,
            youngest: OLDEST,
        }
    }

    /// The number of objects.
    pub fn len(&self) -> usize
        ensures { result ≡ map.len self.now }
    {
        self.stored.len()
    }

    /// The cells that all objects take together.
    pub fn used(&self) -> u32
        ensures { result ≡ cells_of self.now }
    {
        self.used
    }

    /// An object.
    pub fn get(&self, id: u64) -> Option<&Object>
        ensures { option_copied result ≡ get self.now id }
    {
        self.stored.get(id)
    }

    /// The numbers of all identities, which rise.
    pub fn ids(&self, alloc: Global) -> Result<Vec<u64>, Memory>
        ensures { IfOk result (λ ids. ids.items ≡ map.keys self.now) }
    {
        self.stored.keys(alloc)
    }

    /// The objects, by rising identity.
    pub fn entries(&self, alloc: Global) -> Result<Vec<(u64, &Object)>, Memory>
        ensures { IfOk result (λ listed. map lent_entry listed.items ≡ map.entries self.now) }
    {
        self.stored.entries(alloc)
    }

    /// The cells of an object.
    pub fn size_of(&self, id: u64) -> u32
        requires { length (object_in self.now id).fields + 3 < 2 ^ 32 }
        ensures { result ≡ size_of (object_in self.now id) }
    {
        match self.stored.get(id) {
            Some(object) => object.fields.len() as u32 + HEADER,
            None => HEADER,
        }
    }

    /// A new object. Without memory nothing is changed.
    pub fn add(&mut self, id: u64, object: Object) -> Result<(), Memory>
        requires fresh { get self.old id ≡ None }
        requires room { cells_of self.old + size_of object < 2 ^ 32 }
        ensures { MatchResult result (λ _. self.new ≡ insert self.old id object)
            (λ _. self.new ≡ self.old) }
    {
        let size = object.fields.len() as u32 + HEADER;
        let generation = object.generation;
        self.stored.insert(id, object)?;
        self.used += size;
        self.youngest = least(self.youngest, generation);
        Ok(())
    }

    /// A field of an object becomes another.
    pub fn set_field(&mut self, id: u64, i: usize, v: Option<Id>)
        requires known { IsSome (get self.old id) }
        requires field { i < length (object_in self.old id).fields }
        ensures { let object = object_in self.old id in
            let fields = slice_set object.fields i v in
            self.new ≡ insert self.old id (record object { fields = fields }) }
    {
        let Some(object) = self.stored.get_mut(id) else {
            return;
        };
        object.fields[i] = v;
    }

    /// Makes a change of an object.
    pub fn edit(&mut self, id: u64, edit: Edit)
        requires { IsSome (get self.old id) }
        ensures { self.new ≡ insert self.old id (edited edit (object_in self.old id)) }
    {
        let Some(object) = self.stored.get_mut(id) else {
            return;
        };
        object.edit(edit);
    }

    /// A generation that no object is below.
    pub fn youngest(&self) -> u8
        ensures { IsYoungest result self.now }
    {
        self.youngest
    }

    /// No object is below a generation, as `youngest` says from now on.
    pub fn raise_youngest(&mut self, generation: u8)
        requires { IsYoungest generation self.old }
        ensures { self.new ≡ self.old }
    {
        self.youngest = generation;
    }

    /// Takes an object out.
    pub fn remove(&mut self, id: u64)
        ensures { self.new ≡ map.remove self.old id }
    {
        let Some(object) = self.stored.remove(id) else {
            return;
        };
        let size = object.fields.len() as u32 + HEADER;
        self.used -= size;
    }
}

// The less of two generations.
fn least(a: u8, b: u8) -> u8
    ensures { (result ≤ a) × (result ≤ b) }
{
    if a < b { a } else { b }
}
