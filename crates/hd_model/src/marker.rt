ghost use Rattle.std.specs.Prelude.{◌≡◌, ◌||◌, ◌<◌, ℕ, Bool, true, false, List, Some, length, slice_get, take};
ghost use Rattle.hd_model.specs.Heap.{Basis, objects_of, region_of};
ghost use Rattle.hd_model.specs.Scene.{is_object, IsYoungField};
ghost use Rattle.hd_model.specs.Leads.{Grows};
ghost use Rattle.hd_model.specs.Marking.{IsSettled, IsPromotionLog, Gains};
ghost use Rattle.hd_model.specs.Collect.{is_lost};
ghost use Rattle.std.specs.Option.{ForSome};

use crate::data::Addr;

/// What a collection keeps of one heap and one condemned generation. What is promoted is kept, and
/// what is pinned does not move. No mark is ever removed.
pub trait Marker {
    ghost use Rattle.hd_model.specs.declared.data.Addr.{Addr};

    /// The heap and the condemned generation.
    ghost basis: { Self → Basis };

    /// Whether an object is promoted.
    ghost promoted: { Self → Addr → Bool };

    /// Whether an object is pinned.
    ghost pinned: { Self → Addr → Bool };

    /// Whether the promoted objects are closed under fields of condemned objects.
    ghost settled: { Self → Type 0 };

    /// Whether the object is promoted. Every object of an older generation is.
    fn promoted(&self, at: Addr) -> bool
        requires settled { settled self.now }
        requires object { is_object (objects_of (basis self.now)) at ≡ true }
        ensures { result ≡ promoted self.now at };

    /// Whether an object of a region may be promoted: where this is false, none is. It takes
    /// constant time.
    fn may_keep(&self, region: u32) -> bool
        ensures { result ≡ false → (a : Addr) → region_of a ≡ region →
            promoted self.now a ≡ false };

    /// Promotes the object, and all that fields of condemned objects lead to from it.
    fn promote(&mut self, at: Addr)
        requires settled { settled self.old }
        requires object { is_object (objects_of (basis self.old)) at ≡ true }
        ensures settled { settled self.new }
        ensures basis { basis self.new ≡ basis self.old }
        ensures grows { Grows
            (IsYoungField (objects_of (basis self.old)) (basis self.old).condemned)
            (λ x. x ≡ at) (promoted self.old) (promoted self.new) }
        ensures pinned { pinned self.new ≡ pinned self.old };

    /// Whether the object is pinned.
    fn pinned(&self, at: Addr) -> bool
        requires object { is_object (objects_of (basis self.now)) at ≡ true }
        ensures { result ≡ pinned self.now at };

    /// The object may not move.
    fn pin(&mut self, at: Addr)
        requires settled { settled self.old }
        requires object { is_object (objects_of (basis self.old)) at ≡ true }
        ensures settled { settled self.new }
        ensures basis { basis self.new ≡ basis self.old }
        ensures promoted { promoted self.new ≡ promoted self.old }
        ensures gains { Gains at (pinned self.old) (pinned self.new) };

    /// Where it is settled, only objects are promoted, all older ones are, and they are closed
    /// under these fields.
    ghost settles: { (m : Self) → settled m →
        IsSettled (objects_of (basis m)) (basis m).condemned (promoted m) };
}

/// A marker that also lists the condemned objects that it promoted, each once, in the order in
/// which it promoted them.
pub trait PromotionLog: Marker {
    ghost use Rattle.std.specs.Prelude.{List};
    ghost use Rattle.hd_model.specs.declared.data.Addr.{Addr};

    /// The condemned objects that were promoted, the first one first.
    ghost log: { Self → List Addr };

    /// The number of condemned objects that were promoted.
    fn logged(&self) -> usize
        ensures { result ≡ length (log self.now) };

    /// The condemned object that was promoted after `i` others.
    fn logged_at(&self, i: usize) -> Addr
        requires { i < length (log self.now) }
        ensures { slice_get (log self.now) i ≡ Some result };

    /// Promotes as `promote` does. What was not promoted before follows in the list.
    fn promote_logged(&mut self, at: Addr)
        requires settled { Self.settled self.old }
        requires object { is_object (objects_of (Self.basis self.old)) at ≡ true }
        ensures settled { Self.settled self.new }
        ensures basis { Self.basis self.new ≡ Self.basis self.old }
        ensures grows { let basis = Self.basis self.old in
            Grows (IsYoungField (objects_of basis) basis.condemned)
            (λ x. x ≡ at) (Self.promoted self.old) (Self.promoted self.new) }
        ensures pinned { Self.pinned self.new ≡ Self.pinned self.old }
        ensures log { take (length (log self.old)) (log self.new) ≡ log self.old };

    /// Where it is settled, the list has exactly the promoted objects that are condemned.
    ghost logs: { (m : Self) → Self.settled m →
        IsPromotionLog (objects_of (Self.basis m)) (Self.basis m).condemned (Self.promoted m)
        (log m) };
}

/// Whether a target is not promoted. Null is not lost.
pub fn is_lost<M: Marker>(target: Option<Addr>, marker: &M) -> bool
    requires settled { M.settled marker.now }
    requires object { ForSome target (λ x. is_object (objects_of (M.basis marker.now)) x ≡ true) }
    ensures { result ≡ is_lost (M.promoted marker.now) target }
{
    match target {
        Some(at) => !marker.promoted(at),
        None => false,
    }
}
