// The fields of one object, for a walk over them.
ghost use Rattle.std.specs.Prelude.{◌≡◌, ◌<◌, ◌≤◌, length, slice_index_or, None};
ghost use Rattle.hd_model.specs.declared.limits.TheConstants.{FIELDS};

use crate::heap::address_of;
use hd_cells::Region;
use hd_model::Addr;
use std::marker::Model;

/// The fields of an object of a heap: its region is found once for all of them.
#[derive(Drop)]
pub struct ObjectFields<'h> {
    pub(crate) region: &'h Region,
    pub(crate) at: u32,
}

impl<'h> Model for ObjectFields<'h> {
    ghost use Rattle.std.specs.Prelude.{List, Option, map};
    ghost use Rattle.hd_model.specs.declared.data.Addr.{Addr};
    ghost use Rattle.hd_heap.specs.Areas.{address};
    ghost use Rattle.hd_cells.specs.Region.{IsObject, fields_at};

    ghost Value = { List (Option Addr) };

    ghost view = { λ f. map address (fields_at f.region.now f.at) };

    ghost invariant = { λ f. IsObject f.region.now f.at };
}

impl<'h> ObjectFields<'h> {
    /// The number of fields.
    #[inline(always)]
    pub fn number(&self) -> u32
        ensures count { result ≡ length self.now }
        ensures few { result ≤ FIELDS }
    {
        self.region.fields(self.at)
    }

    /// Field `i`: an address, or `None` for null.
    #[inline(always)]
    pub fn load(&self, i: u32) -> Option<Addr>
        requires { i < length self.now }
        ensures { result ≡ slice_index_or self.now i None }
    {
        address_of(self.region.field(self.at, i))
    }
}
