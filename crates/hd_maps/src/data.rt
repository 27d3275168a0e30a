// Objects, entries and uses of blocks as the plain machine has them.
ghost use Rattle.std.specs.Prelude.{◌≡◌};
ghost use Rattle.hd_model.specs.Ages.{raised};
ghost use Rattle.hd_model.specs.Kinds.{is_kind};
ghost use Rattle.hd_maps.specs.StoredObjects.{edited};

use hd_model::limits::OLDEST;
use hd_model::{Id, Kind};
use std::marker::Model;

/// An object: its fields, its value, its generation, and whether it is registered for finalization.
#[derive(Drop)]
pub struct Object {
    pub fields: Vec<Option<Id>>,
    pub value: u64,
    pub generation: u8,
    pub registered: bool,
}

impl Model for Object {
    ghost use Rattle.hd_model.specs.State.{Object};
    ghost use Rattle.hd_model.specs.{declared.data.Id.Id, Code.object_code, Code.id_code};

    ghost Value = { Object Id };

    ghost coded = { object_code id_code };

    ghost view = { λ o. record {
      fields = o.fields.items;
      value = o.value;
      generation = o.generation;
      registered = o.registered;
    } };
}

/// A change of an object.
#[derive(Clone, Copy)]
pub enum Edit {
    Value(u64),
    Registered(bool),
    /// A collection of a generation keeps it, and maybe resurrected it.
    Survives(u8, bool),
}

impl Object {
    /// Makes a change.
    pub fn edit(&mut self, edit: Edit)
        ensures { self.new ≡ edited edit self.old }
    {
        match edit {
            Edit::Value(value) => self.value = value,
            Edit::Registered(registered) => self.registered = registered,
            Edit::Survives(n, resurrected) => {
                self.generation = raised(n, self.generation);
                self.registered = self.registered && !resurrected;
            }
        }
    }
}

/// A handle, whose objects are referenced by identity.
pub type Handle = hd_model::Handle<Id>;

/// An entry of the weak table.
#[derive(Clone, Copy)]
pub struct WeakEntry {
    pub key: Id,
    pub value: Option<Id>,
}

/// What a block is used for.
#[derive(Clone, Copy)]
pub enum BlockUse {
    HandlesOf(Kind),
    ExtraData,
}

/// Whether two kinds are the same one.
pub fn is_kind(a: Kind, b: Kind) -> bool
    ensures { result ≡ is_kind a b }
{
    a.number() == b.number()
}

/// A generation after a collection of n.
pub fn raised(n: u8, generation: u8) -> u8
    ensures { result ≡ raised n generation }
{
    if generation > n {
        generation
    } else if generation < OLDEST {
        generation + 1
    } else {
        OLDEST
    }
}
