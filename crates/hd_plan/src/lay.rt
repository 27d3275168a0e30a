ghost use Rattle.std.specs.Prelude.{◌≡◌, ◌+◌, ◌*◌, ◌<◌, ◌≤◌, [], true, length, vec_capacity};
ghost use Rattle.hd_model.specs.{Ages.raised, Counting.Counts, Leads.IsClosed, Scene.IsField, Scene.IsCondemned, Scene.generation_at, declared.limits.TheConstants.REGION, declared.limits.TheConstants.REGIONS};
ghost use Rattle.hd_model.specs.Heap.{object_at, objects_of, placed_at, region_generation, region_of};
ghost use Rattle.hd_heap.specs.{Calls.HasCondemned, Calls.is_condemned, Sound.IsSound};
ghost use Rattle.hd_plan.specs.{declared.cursors.AllocCursors.AllocCursors as CursorsValue, Layout.IsCondemnedRegion, Layout.cursor_of, Layout.room_at};
ghost use Rattle.hd_plan.specs.Inside.{AreLaidIn, CanPutAt, HasLayRoom, HasMoveRoom, HasForwards, IsLaidTo, IsLaying, IsMoveOf, with_cursor_at};
ghost use Rattle.hd_plan.specs.Plan.{IsTakenPlan, IsLaid, HasFreeRegions, HasNoEmptyCondemned, kept_in, forwarding_in, stays_in};

use crate::cursors::{AllocCursor, AllocCursors};
use crate::forwards::Forwards;
use crate::moves::{Condemned, Fate, Move};
use crate::plan::Plan;
use hd_heap::{Heap, ObjectHeader};
use hd_model::limits::{HEADER, OLDEST};
use hd_model::{Addr, Marker};

impl Plan {
    /// Gives each promoted object its new address: what is pinned stays, and all else is copied
    /// into fresh regions, one row of them for each generation, in rising address. A region is left
    /// only where the next object does not fit. Where no object of a region is promoted, none of it
    /// is looked at.
    pub fn lay<M: Marker>(&mut self, heap: &Heap, marker: &M)
        requires taken { IsTakenPlan self.old }
        requires heap { self.old.basis.heap ≡ heap.now }
        requires marker { M.basis marker.now ≡ self.old.basis }
        requires settled { M.settled marker.now }
        requires closed { IsClosed (IsField (objects_of self.old.basis)) (M.promoted marker.now) }
        requires full { HasNoEmptyCondemned heap.now self.old.basis.condemned }
        ensures laid { IsLaid self.new }
        ensures basis { self.new.basis ≡ self.old.basis }
        ensures kept { (a : Addr) → kept_in self.new a ≡ M.promoted marker.now a }
        ensures pinned { (a : Addr) → M.promoted marker.now a ≡ true
            → M.pinned marker.now a ≡ true → forwarding_in self.new a ≡ a }
        ensures stays { let of = self.old.basis in
            Counts (λ a. IsCondemned (objects_of of) of.condemned a
            × (M.promoted marker.now a ≡ true) × (M.pinned marker.now a ≡ true))
            (stays_in self.new) }
    {
        lay_regions(
            heap,
            marker,
            self.condemned,
            self.extent.regions,
            &mut self.moves,
            &mut self.regions,
            &mut self.forwards,
        );
    }
}

// Lists the condemned objects with their new addresses, region by region. So many regions are
// condemned.
fn lay_regions<M: Marker>(
    heap: &Heap,
    marker: &M,
    n: u8,
    condemned: u32,
    moves: &mut Vec<Move>,
    regions: &mut Vec<Condemned>,
    forwards: &mut Forwards,
)
    requires condemned { Counts (HasCondemned heap.now n) condemned }
    requires marker { M.basis marker.now ≡ record { heap = heap.now; condemned = n } }
    requires settled { M.settled marker.now }
    requires none { moves.old.items ≡ [] }
    requires unlisted { regions.old.items ≡ [] }
    requires forwards { HasForwards [] [] forwards.old.firsts.items forwards.old.cells.items }
    requires room { HasLayRoom heap.now n (vec_capacity moves.old) (vec_capacity regions.old)
        (length forwards.old.firsts.items) (length forwards.old.cells.items) }
    requires free { HasFreeRegions heap.now n }
    ensures sound { IsSound heap.now }
    ensures laid { IsLaidTo heap.now n (M.promoted marker.now) (M.pinned marker.now)
        moves.new.items regions.new.items forwards.new.firsts.items forwards.new.cells.items
        (room_at heap.now moves.new.items (length moves.new.items)).cursors REGIONS }
    ensures room { HasLayRoom heap.now n (vec_capacity moves.new) (vec_capacity regions.new)
        (length forwards.new.firsts.items) (length forwards.new.cells.items) }
{
    // The result is not used: the call states to the proof what every heap keeps.
    let _regions = heap.regions();
    if condemned == 0 {
        return;
    }
    let mut cursors = AllocCursors::new();
    let mut after = 0;
    while let Some(region) = heap.next_condemned_region(after, n) {
        lay_region(heap, marker, region, &mut cursors, moves, regions, forwards);
        after = region;
    }
}

// Lists a condemned region, and its objects with their new addresses.
fn lay_region<M: Marker>(
    heap: &Heap,
    marker: &M,
    region: u32,
    cursors: &mut AllocCursors,
    moves: &mut Vec<Move>,
    regions: &mut Vec<Condemned>,
    forwards: &mut Forwards,
)
    requires basis { (M.basis marker.now).heap ≡ heap.now }
    requires settled { M.settled marker.now }
    requires sound { IsSound heap.now }
    requires condemned { HasCondemned heap.now (M.basis marker.now).condemned region }
    requires room { HasLayRoom heap.now (M.basis marker.now).condemned (vec_capacity moves.old)
        (vec_capacity regions.old) (length forwards.old.firsts.items)
        (length forwards.old.cells.items) }
    requires free { HasFreeRegions heap.now (M.basis marker.now).condemned }
    requires so_far { IsLaidTo heap.now (M.basis marker.now).condemned (M.promoted marker.now)
        (M.pinned marker.now) moves.old.items regions.old.items forwards.old.firsts.items
        forwards.old.cells.items cursors.old region }
    ensures laid { IsLaidTo heap.now (M.basis marker.now).condemned (M.promoted marker.now)
        (M.pinned marker.now) moves.new.items regions.new.items forwards.new.firsts.items
        forwards.new.cells.items cursors.new (region + 1) }
    ensures room { HasLayRoom heap.now (M.basis marker.now).condemned (vec_capacity moves.new)
        (vec_capacity regions.new) (length forwards.new.firsts.items)
        (length forwards.new.cells.items) }
{
    let generation = (heap.region_generation(region) + 1).min(OLDEST);
    let k = regions.len() as u32;
    forwards.list(region, k);
    let pinned = lay_objects(
        heap, marker, region, generation, cursors, k, moves, forwards,
    );
    regions.push_reserved(Condemned {
        region,
        generation,
        pinned,
    });
}

// Lists the objects of a region with their new addresses, which all are of one generation, if one
// of them may be kept. Returns whether one stays.
fn lay_objects<M: Marker>(
    heap: &Heap,
    marker: &M,
    region: u32,
    generation: u8,
    cursors: &mut AllocCursors,
    k: u32,
    moves: &mut Vec<Move>,
    forwards: &mut Forwards,
) -> bool
    requires basis { (M.basis marker.now).heap ≡ heap.now }
    requires settled { M.settled marker.now }
    requires sound { IsSound heap.now }
    requires condemned { IsCondemnedRegion heap.now (M.basis marker.now).condemned region }
    requires generation { generation ≡ raised (M.basis marker.now).condemned
        (region_generation heap.now region) }
    requires room { HasMoveRoom heap.now (M.basis marker.now).condemned (vec_capacity moves.old) }
    requires table { REGION * (k + 1) ≤ length forwards.old.cells.items }
    requires free { HasFreeRegions heap.now (M.basis marker.now).condemned }
    requires so_far { IsLaying heap.now (M.basis marker.now).condemned (M.promoted marker.now)
        (M.pinned marker.now) moves.old.items cursors.old (region * REGION) }
    ensures laying { IsLaying heap.now (M.basis marker.now).condemned (M.promoted marker.now)
        (M.pinned marker.now) moves.new.items cursors.new ((region + 1) * REGION) }
    ensures these { AreLaidIn moves.old.items moves.new.items region k result
        forwards.old.cells.items forwards.new.cells.items }
    ensures firsts { forwards.new.firsts.items ≡ forwards.old.firsts.items }
    ensures capacity { vec_capacity moves.new ≡ vec_capacity moves.old }
{
    if !marker.may_keep(region) {
        return false;
    }
    let mut cursor = cursors.cursor(generation);
    let mut opened = cursors.opened;
    let mut pinned = false;
    let mut objects = heap.objects_of(region);
    while let Some(object) = objects.next() {
        let laid = lay_object(heap, marker, object, generation, &mut cursor, &mut opened);
        moves.push_reserved(laid);
        forwards.put(k, laid.from, laid.to);
        pinned |= laid.fate.stays();
    }
    cursors.opened = opened;
    cursors.set(generation, cursor);
    pinned
}

// Gives one condemned object its new address.
#[inline(always)]
fn lay_object<M: Marker>(
    heap: &Heap,
    marker: &M,
    object: ObjectHeader,
    generation: u8,
    cursor: &mut AllocCursor,
    opened: &mut u32,
) -> Move
    requires basis { (M.basis marker.now).heap ≡ heap.now }
    requires settled { M.settled marker.now }
    requires sound { IsSound heap.now }
    requires condemned { is_condemned heap.now (M.basis marker.now).condemned object.at ≡ true }
    requires fields { object.fields ≡ length (placed_at heap.now object.at).fields }
    requires generation { generation ≡ raised (M.basis marker.now).condemned
        (generation_at (object_at heap.now) object.at) }
    requires can_put { CanPutAt heap.now cursor.old opened.old }
    ensures from { result.from ≡ object.at }
    ensures generation { result.generation ≡ generation }
    ensures laid { (s : CursorsValue) → cursor_of s generation ≡ cursor.old → s.opened ≡ opened.old
        → IsMoveOf heap.now (M.basis marker.now).condemned (M.promoted marker.now result.from)
        (M.pinned marker.now result.from) s (with_cursor_at s generation cursor.new opened.new)
        result }
{
    let from = object.at;
    let (fate, to) = if !marker.promoted(from) {
        (Fate::Dead, from)
    } else if marker.pinned(from) {
        (Fate::Pinned, from)
    } else {
        cursor.put(heap, opened, object.fields + HEADER)
    };
    Move {
        from,
        to,
        fields: object.fields as u16,
        generation,
        fate,
    }
}
