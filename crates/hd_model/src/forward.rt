ghost use Rattle.std.specs.Prelude.{◌≡◌, Bool, true};
ghost use Rattle.hd_model.specs.Heap.{Basis, objects_of};
ghost use Rattle.hd_model.specs.Marking.{IsKeeping};

use crate::data::Addr;

/// The forwarding addresses of the objects that a collection keeps.
pub trait Forward {
    ghost use Rattle.hd_model.specs.declared.data.Addr.{Addr};

    /// The heap and the condemned generation.
    ghost basis: { Self → Basis };

    /// Whether the forwarding addresses are planned.
    ghost laid: { Self → Type 0 };

    /// Whether an object is kept. Every object of an older generation is.
    ghost kept: { Self → Addr → Bool };

    /// The forwarding address of a kept object. One of an older generation does not move.
    ghost forwarding: { Self → Addr → Addr };

    /// The forwarding address of a kept object.
    fn moved(&self, at: Addr) -> Addr
        requires laid { laid self.now }
        requires kept { kept self.now at ≡ true }
        ensures { result ≡ forwarding self.now at };

    /// Only objects are kept, all older ones are and do not move, and no two get one address.
    ghost keeps: { (f : Self) → laid f →
        IsKeeping (objects_of (basis f)) (basis f).condemned (kept f) (forwarding f) };
}
