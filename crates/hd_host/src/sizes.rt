// How much a host has of each generation, and which slots of its table are free. It changes nothing.
ghost use Rattle.std.specs.Prelude.{◌≡◌, ℕ, Some, None, slice_index};
ghost use Rattle.std.specs.FinMap.{get};
ghost use Rattle.hd_model.specs.{Counting.Counts, Kinds.kind_number, State.IsFree};
ghost use Rattle.hd_model.specs.declared.data.Kind.{Kind};
ghost use Rattle.hd_store.specs.Sizes.{HasSize, IsWhole};

use crate::host::Host;
use hd_model::Kind;
use hd_model::limits::KINDS;
use hd_store::HeapSizes;

/// How much a host has: it says which generation is worth a collection, and which kind of handle a
/// `trim`.
#[derive(Clone, Copy, Debug, PartialEq, Eq)]
pub struct Sizes {
    /// What there is of each generation.
    pub heap: HeapSizes,
    /// The free slots of each kind, by its number.
    pub free: [u32; KINDS as usize],
    /// The slots that the weak table holds without an entry.
    pub idle: u32,
}

impl Host {
    /// How much it has. Numbers of generations are kept; for free slots it looks at each block.
    pub fn sizes(&self) -> Sizes
        ensures youngest { HasSize self.now.machine 0 result.heap.youngest }
        ensures middle { HasSize self.now.machine 1 result.heap.middle }
        ensures oldest { HasSize self.now.machine 2 result.heap.oldest }
        ensures whole { IsWhole self.now.machine result.heap }
        ensures free { (kind : Kind) → Counts (IsFree self.now.machine.state kind)
            (slice_index result.free (kind_number kind)) }
        ensures idle { Counts (λ (slot : ℕ). get self.now.machine.state.weak slot ≡ Some None)
            result.idle }
    {
        let store = self.store.contents();
        Sizes {
            heap: store.sizes(),
            free: [
                store.free_slots(Kind::Short),
                store.free_slots(Kind::Long),
                store.free_slots(Kind::Strong),
                store.free_slots(Kind::Pinned),
                store.free_slots(Kind::Variable),
                store.free_slots(Kind::Counted),
                store.free_slots(Kind::Dependent),
            ],
            idle: store.idle_slots(),
        }
    }
}
