// The fields of an object with forwarding addresses, in one region or from one to another.
ghost use Rattle.std.specs.Prelude.{◌≡◌, ◌≢◌, ◌≤◌, ◌+◌, true, length};
ghost use Rattle.hd_cells.specs.Object.{size_of};
ghost use Rattle.hd_cells.specs.Region.{IsLaidOut, IsObject, fields_at, object_at, with_object, with_put};
ghost use Rattle.hd_model.specs.Heap.{offset_of};
ghost use Rattle.hd_heap.specs.Inside.{stored_forwarding, region_forwarded, MayForward};
ghost use Rattle.hd_heap.specs.{Runs.goes_with, Inside.ArePut, Inside.MayPutRun};

use crate::moves::Move;
use hd_cells::Region;
use hd_model::limits::REGION;
use hd_model::{Addr, Forward};

/// The forwarding address in a field as it is stored.
fn stored_forwarding<F: Forward>(cell: u32, forward: &F) -> u32
    requires laid { F.laid forward.now }
    requires kept { cell ≢ 0 → F.kept forward.now (record { 0 = cell }) ≡ true }
    ensures { result ≡ stored_forwarding (F.forwarding forward.now) cell }
{
    if cell == 0 {
        0
    } else {
        forward.moved(Addr(cell)).0
    }
}

/// Gives the fields of an object, which are so many, their forwarding addresses.
#[inline(always)]
pub(crate) fn forward_fields<F: Forward>(region: &mut Region, at: u32, fields: u32, forward: &F)
    requires laid_out { IsLaidOut region.old }
    requires object { IsObject region.old at }
    requires number { fields ≡ length (fields_at region.old at) }
    requires laid { F.laid forward.now }
    requires kept { MayForward (F.kept forward.now) (object_at region.old at).fields }
    ensures written { let after =
        region_forwarded (F.forwarding forward.now) (object_at region.old at) in
        region.new ≡ with_object region.old at after }
    ensures laid_out { IsLaidOut region.new }
{
    for i in 0..fields {
        let field = region.field(at, i);
        region.set_field(at, i, stored_forwarding(field, forward));
    }
}

/// Puts copies of the objects of some moves after all others of a region, with forwarding addresses
/// in their fields: of the move at an index, and of those after it as far as they go with it from
/// the one region to the other. Returns the index after them.
pub(crate) fn copy_run<F: Forward>(
    region: &mut Region,
    source: &Region,
    moves: &[Move],
    first: usize,
    forward: &F,
) -> usize
    requires run { MayPutRun (F.kept forward.now) source.now region.old moves.now first }
    requires laid { F.laid forward.now }
    ensures { let forwarding = F.forwarding forward.now in
        ArePut forwarding source.now moves.now first result region.old region.new }
{
    copy_forwarded(region, source, moves[first].from, forward);
    let mut k = first + 1;
    while goes_with(moves, k, moves[first]) {
        copy_forwarded(region, source, moves[k].from, forward);
        k += 1;
    }
    k
}

// Whether the object of a move goes after the one before it, from the same region as another one
// and to the same.
#[inline(always)]
#[tactic(auto, unfolding(hd_model::specs::Heap::region_of))]
fn goes_with(moves: &[Move], k: usize, head: Move) -> bool
    ensures { result ≡ goes_with moves.now k head }
{
    if k >= moves.len() {
        return false;
    }
    let next = &moves[k];
    next.fate.follows()
        && next.from.0 / REGION == head.from.0 / REGION
        && next.to.0 / REGION == head.to.0 / REGION
}

// Puts a copy of the object at an address of another region after all others, with forwarding
// addresses in its fields.
#[inline(always)]
fn copy_forwarded<F: Forward>(region: &mut Region, source: &Region, from: Addr, forward: &F)
    requires object { IsObject source.now (offset_of from) }
    requires room { region.old.fill + size_of (object_at source.now (offset_of from)) ≤ REGION }
    requires laid { F.laid forward.now }
    requires kept { MayForward (F.kept forward.now)
        (object_at source.now (offset_of from)).fields }
    ensures put { let copy = object_at source.now (offset_of from) in
        region.new ≡ with_put region.old (region_forwarded (F.forwarding forward.now) copy) }
    ensures laid_out { IsLaidOut region.new }
{
    let fields = source.fields(from.0 % REGION);
    let at = region.put_copy(source, from.0 % REGION);
    forward_fields(region, at, fields, forward);
}
