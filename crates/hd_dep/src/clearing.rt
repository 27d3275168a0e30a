ghost use Rattle.std.specs.Prelude.{◌≡◌, ◌+◌, ◌*◌, ◌&&◌, ◌≤◌, IsSome, true};
ghost use Rattle.std.specs.{FinMap.get, Option.ForSome};
ghost use Rattle.hd_model.specs.declared.data.Kind.TheVariants as kind;
ghost use Rattle.hd_model.specs.{Heap.objects_of, Scene.is_object, Table.live_at, Table.row_at, Collect.is_lost, Counting.Counts};
ghost use Rattle.hd_model.specs.Visits.{IsSameTable, MayVisitDue, visits_of};
ghost use Rattle.hd_seg.specs.Rewriting.{Rewrites};
ghost use Rattle.hd_dep.specs.Clearing.{IsDetached, IsAllDetached, IsDetachedAt, IsLostAt, detached};

use hd_ages::{AgeMap, DueRows};
use hd_model::limits::{HOST_BLOCKS, ROWS};
use hd_model::{Kind, Marker, Slot, Steps, is_lost};
use hd_seg::{Extra, Row, Seg, rewrite_row};
use std::sync::ledger::Ledger;

/// Clears each dependent handle whose target is not promoted: it loses its target and its
/// secondary. A due clump is one step. Returns the number of handles that were cleared.
/// Out of line, since its loop is faster where its registers are its own.
#[inline(never)]
pub fn clear<M: Marker, L: Ledger>(
    seg: &mut Seg,
    ages: &AgeMap,
    marker: &M,
    n: u8,
    steps: &mut Steps<L>,
) -> u32
    requires settled { M.settled marker.now }
    requires due { MayVisitDue (M.basis marker.now) seg.old ages.now n }
    ensures detached { IsDetached ages.now n (M.promoted marker.now) (row_at seg.old)
        (row_at seg.new) }
    ensures table { IsSameTable seg.old seg.new }
    ensures count { Counts (IsDetachedAt (row_at seg.old) ages.now n (M.promoted marker.now))
        result }
    ensures few { result ≤ HOST_BLOCKS * ROWS }
    ensures steps { steps.new ≡ steps.old + visits_of seg.old ages.now n kind.Dependent }

    // The handles that are not visited would have stayed as they are.
    ensures whole { IsAllDetached (M.promoted marker.now) (row_at seg.old) (row_at seg.new) }
    ensures whole_count { Counts (IsLostAt (row_at seg.old) (M.promoted marker.now)) result }
{
    let mut cleared = 0;
    let mut rows = DueRows::start(seg, ages, Kind::Dependent, n);
    while let Some(slot) = rows.next(seg, ages, steps) {
        cleared += u32::from(clear_row(seg, slot, marker));
    }
    cleared
}

/// Clears a dependent handle, if its target is not promoted.
#[tactic(auto, using(crate::proofs::DependentClear::detached_rows))]
fn clear_row<M: Marker>(seg: &mut Seg, slot: Slot, marker: &M) -> bool
    requires live { IsSome (get seg.old.rows slot.0) }
    requires of_kind { (live_at seg.old slot.0).kind ≡ kind.Dependent }
    requires settled { M.settled marker.now }
    requires object { ForSome (live_at seg.old slot.0).target
        (λ x. is_object (objects_of (M.basis marker.now)) x ≡ true) }
    ensures row { let handle = live_at seg.old slot.0 in
        Rewrites slot.0 (detached true (M.promoted marker.now) handle) seg.old seg.new }
    ensures lost { let handle = live_at seg.old slot.0 in
        result ≡ is_lost (M.promoted marker.now) handle.target }
{
    let row = seg.row_by(slot, true);
    let lost = is_lost(row.target, marker);
    if lost {
        let cleared = Row {
            target: None,
            extra: Extra::Secondary(None),
        };
        rewrite_row(seg, slot, cleared);
    }
    lost
}
