// The marks of one collection, as its phases see them.
ghost use Rattle.std.specs.Prelude.{◌≡◌, ◌∷◌, [], ℕ, Bool, true, false, IfOk, MatchOption, Contains, drop};
ghost use Rattle.hd_model.specs.{Leads.Grows, Heap.object_at, Heap.objects_of, Names.HasClosedFields};
ghost use Rattle.hd_model.specs.Scene.{fields_at, is_object, IsYoungField};
ghost use Rattle.hd_heap.specs.Calls.{IsExtent};
ghost use Rattle.hd_mark.specs.{Marks.first_marks, Marks.pushed, Marks.promoted_in, Marks.GoesOn, Inside.pinned_also};
ghost use Rattle.hd_mark.specs.Marks.{HasNoneYet, IsSettledMarks};
ghost use Rattle.hd_mark.specs.Inside.{scanned, advanced, IsTraced, IsNextDone, Marked};

use crate::bits::Bits;
use crate::indexes::Indexes;
use hd_heap::{Extent, Heap};
use hd_model::{Addr, Marker, Memory, PromotionLog};
use std::alloc::Global;
use std::marker::Model;

/// What a collection of a heap has promoted and pinned, and a log of what it promoted, which it
/// scans from first to last. It has bits for condemned regions alone: an older object is promoted
/// and pinned from the start, since no collection of younger generations takes or moves it.
///
/// `promote` and `drain` take time by what they promote and the fields of what they scan, the other
/// calls but `start` constant time.
#[derive(Drop)]
pub struct Marks<'h> {
    heap: &'h Heap,
    condemned: u8,
    indexes: Indexes,
    marks: Bits,
    pins: Bits,
    // What was marked, with room for each condemned object, and how many of these were scanned.
    log: Vec<Addr>,
    next: usize,
}

impl<'h> Model for Marks<'h> {
    ghost use Rattle.std.specs.Prelude.{vec_capacity};
    ghost use Rattle.hd_mark.specs.{Marks.MarksOf, Marks.marks_code, Fields.seen, Inside.AreMarks};

    ghost Value = { MarksOf };

    ghost coded = { marks_code };

    ghost view = { λ m. seen (record { heap = m.heap.now; condemned = m.condemned })
        m.indexes.indexes.items m.marks.words.items m.pins.words.items m.log.items m.next };

    ghost invariant = { λ m. AreMarks (record { heap = m.heap.now; condemned = m.condemned })
        m.indexes m.marks.words.items m.pins.words.items m.log.items m.next
        (vec_capacity m.log) };
}

impl<'h> Marks<'h> {
    /// The marks of a collection of generation `n` before its roots. All memory is taken here, in
    /// time by the condemned objects and the number of regions.
    pub fn start(alloc: Global, heap: &'h Heap, n: u8) -> Result<Marks<'h>, Memory>
        requires fields { HasClosedFields (object_at heap.now) }
        ensures marks { IfOk result (λ m. m ≡ first_marks heap.now n) }
        ensures settled { IfOk result IsSettledMarks }
        ensures none { IfOk result HasNoneYet }
    {
        Marks::over(alloc, heap, n, heap.extent(n))
    }

    /// The same where it is known how much is condemned.
    pub fn over(alloc: Global, heap: &'h Heap, n: u8, extent: Extent) -> Result<Marks<'h>, Memory>
        requires fields { HasClosedFields (object_at heap.now) }
        requires extent { IsExtent heap.now n extent }
        ensures marks { IfOk result (λ m. m ≡ first_marks heap.now n) }
        ensures settled { IfOk result IsSettledMarks }
        ensures none { IfOk result HasNoneYet }
    {
        let indexes = Indexes::of(alloc, heap, n, extent)?;
        let marks = Bits::open(alloc, indexes.regions)?;
        let pins = Bits::open(alloc, indexes.regions)?;
        let Ok(log) = Vec::with_capacity(alloc, extent.objects as usize) else {
            return Err(Memory);
        };
        Ok(Marks {
            heap,
            condemned: n,
            indexes,
            marks,
            pins,
            log,
            next: 0,
        })
    }

    /// Promotes an object, which is then to be scanned, unless it is promoted already.
    #[inline(always)]
    pub fn push(&mut self, at: Addr)
        requires { is_object (objects_of self.old.basis) at ≡ true }
        ensures { self.new ≡ pushed self.old at }
    {
        let _is_new = self.push_new(at);
    }

    // The same. Returns whether it was not promoted before.
    #[inline(always)]
    fn push_new(&mut self, at: Addr) -> bool
        requires { is_object (objects_of self.old.basis) at ≡ true }
        ensures after { self.new ≡ pushed self.old at }
        ensures is_new { result ≡ true → promoted_in self.old at ≡ false }
        ensures is_old { result ≡ false → promoted_in self.old at ≡ true }
    {
        let Some(bit) = self.indexes.bit(at) else {
            return false;
        };
        if self.marks.has(bit) {
            return false;
        }
        self.marks.insert(bit);
        self.log.push_reserved(at);
        true
    }

    /// Scans until nothing is left to scan.
    #[inline(always)]
    pub fn drain(&mut self)
        ensures settled { IsSettledMarks self.new }
        ensures basis { self.new.basis ≡ self.old.basis }
        ensures pins { self.new.pins ≡ self.old.pins }
        ensures grows { Grows (IsYoungField (objects_of self.old.basis) self.old.basis.condemned)
            (λ x. Contains self.old.unscanned x) (promoted_in self.old) (promoted_in self.new) }
        ensures log { GoesOn self.old self.new }
    {
        while let Some(at) = self.next_unscanned() {
            self.scan(at);
            self.advance();
        }
    }

    // The next object to scan.
    #[inline(always)]
    fn next_unscanned(&self) -> Option<Addr>
        ensures next { MatchOption result (self.now.unscanned ≡ [])
            (λ at. self.now.unscanned ≡ at ∷ drop 1 self.now.unscanned) }
        ensures traced { IsTraced self.now }
    {
        if self.next >= self.log.len() {
            return None;
        }
        Some(self.log[self.next])
    }

    // Promotes the objects that an object references in its fields.
    fn scan(&mut self, at: Addr)
        requires object { is_object (objects_of self.old.basis) at ≡ true }
        requires fields { HasClosedFields (objects_of self.old.basis) }
        ensures { self.new ≡ scanned self.old (fields_at (objects_of self.old.basis) at) }
    {
        let fields = self.heap.fields_of(at);
        for i in 0..fields.number() {
            if let Some(y) = fields.load(i) {
                self.push(y);
            }
        }
    }

    // The next object to scan counts as scanned.
    #[inline(always)]
    fn advance(&mut self)
        requires { IsNextDone self.old }
        ensures after { self.new ≡ advanced self.old }
        ensures traced { IsTraced self.new }
    {
        self.next += 1;
    }

    // The same of the only object to scan.
    #[inline(always)]
    fn pass_last(&mut self)
        requires next { IsNextDone self.old }
        requires last { drop 1 self.old.unscanned ≡ [] }
        ensures after { self.new ≡ advanced self.old }
        ensures traced { IsTraced self.new }
    {
        self.next = self.log.len();
    }

    // Promotes an object and what is reached from it, where nothing is left to scan. An object
    // without fields counts as scanned at once.
    #[inline(always)]
    fn mark(&mut self, at: Addr)
        requires settled { IsSettledMarks self.old }
        requires object { is_object (objects_of self.old.basis) at ≡ true }
        ensures { Marked at self.old self.new }
    {
        if self.push_new(at) {
            let bare = self.heap.fields(at) == 0;
            if bare {
                self.pass_last();
                return;
            }
            self.drain();
        }
    }

    // Pins an object.
    fn pin_also(&mut self, at: Addr)
        requires { is_object (objects_of self.old.basis) at ≡ true }
        ensures { self.new ≡ pinned_also self.old at }
    {
        if let Some(bit) = self.indexes.bit(at) {
            self.pins.insert(bit);
        }
    }
}

impl<'h> Marker for Marks<'h> {
    ghost use Rattle.hd_mark.specs.Marks.{promoted_in, pinned_in, IsSettledMarks};

    ghost basis = { λ m. m.basis };

    ghost promoted = { promoted_in };

    ghost pinned = { pinned_in };

    ghost settled = { IsSettledMarks };

    // All that has no bit is older.
    #[inline(always)]
    fn promoted(&self, at: Addr) -> bool {
        match self.indexes.bit(at) {
            Some(bit) => self.marks.has(bit),
            None => true,
        }
    }

    // Of a region that is not condemned nothing is known.
    #[inline(always)]
    fn may_keep(&self, region: u32) -> bool {
        let Some(index) = self.indexes.index(region) else {
            return true;
        };
        self.marks.has_some(index)
    }

    #[inline(always)]
    fn promote(&mut self, at: Addr) {
        self.mark(at);
    }

    #[inline(always)]
    fn pinned(&self, at: Addr) -> bool {
        if let Some(bit) = self.indexes.bit(at) {
            self.pins.has(bit)
        } else {
            true
        }
    }

    #[tactic(auto, using(crate::proofs::MarkDrain::pins_settled))]
    fn pin(&mut self, at: Addr) {
        self.pin_also(at);
    }

    ghost settles = { λ m s. s.settled };
}

impl<'h> PromotionLog for Marks<'h> {
    ghost use Rattle.hd_mark.specs.Marks.{log_of};

    ghost log = { log_of };

    fn logged(&self) -> usize {
        self.log.len()
    }

    fn logged_at(&self, i: usize) -> Addr {
        self.log[i]
    }

    #[inline(always)]
    fn promote_logged(&mut self, at: Addr) {
        self.mark(at);
    }

    ghost logs = { λ m s. s.log };
}
