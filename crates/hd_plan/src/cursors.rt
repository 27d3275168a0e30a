ghost use Rattle.std.specs.Prelude.{◌≡◌, ℕ, ◌+◌, ◌<◌, ◌≤◌, true};
ghost use Rattle.hd_heap.specs.{Sound.IsSound, Moves.is_moving};
ghost use Rattle.hd_plan.specs.{Inside.CanPutAt, Inside.with_cursor_at, declared.cursors.AllocCursors.AllocCursors as CursorsValue};
ghost use Rattle.hd_plan.specs.Layout.{cursor_of, with_cursor, put_cursors, Fits};
ghost use Rattle.hd_model.specs.declared.data.Addr.{Addr as AddrValue};

use crate::moves::Fate;
use hd_heap::Heap;
use hd_model::Addr;
use hd_model::limits::{FIELDS, REGION};

/// The region in which a generation allocates, 0 for none, and its allocation pointer: the first
/// cell after all of its objects.
#[derive(Clone, Copy)]
pub(crate) struct AllocCursor {
    pub(crate) region: u32,
    pub(crate) fill: u32,
}

/// Where the next object of generation 1 and of generation 2 goes, and how many free regions were
/// opened. No object is promoted to generation 0.
#[derive(Clone, Copy)]
pub(crate) struct AllocCursors {
    pub(crate) first: AllocCursor,
    pub(crate) second: AllocCursor,
    pub(crate) opened: u32,
}

impl AllocCursors {
    /// No generation has a region.
    pub(crate) fn new() -> AllocCursors
        ensures { result ≡ record {
          first = record { region = 0; fill = 0 };
          second = record { region = 0; fill = 0 };
          opened = 0;
        } }
    {
        let cursor = AllocCursor { region: 0, fill: 0 };
        AllocCursors {
            first: cursor,
            second: cursor,
            opened: 0,
        }
    }

    /// The cursor of a generation.
    pub(crate) fn cursor(&self, generation: u8) -> AllocCursor
        ensures { result ≡ cursor_of self.now generation }
    {
        if generation == 1 {
            self.first
        } else {
            self.second
        }
    }

    /// A generation allocates at this cursor from now on.
    pub(crate) fn set(&mut self, generation: u8, cursor: AllocCursor)
        ensures { self.new ≡ with_cursor self.old generation cursor }
    {
        if generation == 1 {
            self.first = cursor;
        } else {
            self.second = cursor;
        }
    }
}

impl AllocCursor {
    /// Allocates an object of `cells` cells after the one before of its generation, or at the start
    /// of a free region where it does not fit there.
    #[inline(always)]
    pub(crate) fn put(&mut self, heap: &Heap, opened: &mut u32, cells: u32) -> (Fate, Addr)
        requires sound { IsSound heap.now }
        requires cells { (0 < cells) × (cells ≤ FIELDS + 3) }
        requires can_put { CanPutAt heap.now self.old opened.old }
        ensures fits { (s : CursorsValue) (from : AddrValue) (g : ℕ) → cursor_of s g ≡ self.old
            → s.opened ≡ opened.old → Fits result.0 heap.now.free s from result.1 g cells }
        ensures cursors { (s : CursorsValue) (g : ℕ) → cursor_of s g ≡ self.old
            → s.opened ≡ opened.old → with_cursor_at s g self.new opened.new
            ≡ put_cursors result.0 heap.now.free s g cells }
        ensures moves { is_moving result.0 ≡ true }
    {
        if self.region != 0 && self.fill + cells <= REGION {
            let to = Addr(self.region * REGION + self.fill);
            self.fill += cells;
            return (Fate::Moves, to);
        }
        self.region = heap.spare_number(*opened);
        self.fill = cells;
        *opened += 1;
        (Fate::MovesToNewRegion, Addr(self.region * REGION))
    }
}
