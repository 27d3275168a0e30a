ghost use Rattle.std.specs.Prelude.{◌≡◌, ◌+◌, ◌*◌, ◌&&◌, not, true};
ghost use Rattle.std.specs.Prelude.{IsSome, IfSome, IfNone, MatchBool};
ghost use Rattle.std.specs.FinMap.{get};
ghost use Rattle.hd_model.specs.{declared.data.Addr.Addr, Heap.objects_of, Leads.IsClosed, Leads.IsClosure, Scene.IsField, Scene.is_object, Reach.IsEdge, Table.live_at, Table.row_at, Names.NamesObjects};
ghost use Rattle.hd_model.specs.declared.data.Kind.TheVariants as kind;
ghost use Rattle.hd_model.specs.Visits.{MayVisit, MayVisitDue, visits_of};
ghost use Rattle.hd_dep.specs.{Inside.HasParts, Inside.Spreads, Inside.Gained, Inside.IsSpread, Inside.IsSpreadRow, Rescan.RescanSteps};

use hd_ages::{AgeMap, DueRows};
use hd_model::{Addr, Kind, Marker, Slot, Steps};
use hd_seg::{Extra, Seg};
use std::sync::ledger::Ledger;

/// Promotes the secondary of each dependent handle whose target is promoted, and all that it leads
/// to, until nothing more is to be promoted: what is promoted is then closed under fields and under
/// dependent handles.
///
/// It goes over the due clumps again as long as that promoted something. Each visit is one step.
pub fn rescan<M: Marker, L: Ledger>(
    seg: &Seg,
    ages: &AgeMap,
    marker: &mut M,
    n: u8,
    steps: &mut Steps<L>,
)
    requires settled { M.settled marker.old }
    requires due { MayVisitDue (M.basis marker.old) seg.now ages.now n }
    requires fields { IsClosed (IsField (objects_of (M.basis marker.old))) (M.promoted marker.old) }
    ensures settled { M.settled marker.new }
    ensures basis { M.basis marker.new ≡ M.basis marker.old }
    ensures pinned { M.pinned marker.new ≡ M.pinned marker.old }
    ensures closure { IsClosure (IsEdge (objects_of (M.basis marker.old)) (row_at seg.now))
        (M.promoted marker.old) (M.promoted marker.new) }
    ensures steps { RescanSteps (visits_of seg.now ages.now n kind.Dependent)
        (M.promoted marker.old) (M.promoted marker.new) steps.old steps.new }
{
    let mut more = true;
    while more {
        more = spread(seg, ages, marker, n, steps);
    }
}

/// One pass over the due clumps. Returns whether it promoted something.
fn spread<M: Marker, L: Ledger>(
    seg: &Seg,
    ages: &AgeMap,
    marker: &mut M,
    n: u8,
    steps: &mut Steps<L>,
) -> bool
    requires settled { M.settled marker.old }
    requires visit { MayVisit (M.basis marker.old) seg.now ages.now n }
    ensures settled { M.settled marker.new }
    ensures basis { M.basis marker.new ≡ M.basis marker.old }
    ensures pinned { M.pinned marker.new ≡ M.pinned marker.old }
    ensures spreads { Spreads (IsEdge (objects_of (M.basis marker.old)) (row_at seg.now))
        (M.promoted marker.old) (M.promoted marker.new) }
    ensures more { MatchBool result (Gained (M.promoted marker.old) (M.promoted marker.new))
        (IsSpread (row_at seg.now) ages.now n (M.promoted marker.old) (M.promoted marker.new)) }
    ensures steps { steps.new ≡ steps.old + visits_of seg.now ages.now n kind.Dependent }
{
    let mut more = false;
    let mut rows = DueRows::start(seg, ages, Kind::Dependent, n);
    while let Some(slot) = rows.next(seg, ages, steps) {
        more |= spread_row(seg, slot, marker);
    }
    more
}

/// Promotes the secondary of a dependent handle, if its target is promoted and it is not. Returns
/// whether it did.
#[tactic(auto, using(crate::proofs::SecondarySpread::gained_by))]
fn spread_row<M: Marker>(seg: &Seg, slot: Slot, marker: &mut M) -> bool
    requires live { IsSome (get seg.now.rows slot.0) }
    requires of_kind { (live_at seg.now slot.0).kind ≡ kind.Dependent }
    requires settled { M.settled marker.old }
    requires names { NamesObjects (objects_of (M.basis marker.old)) (row_at seg.now) }
    ensures settled { M.settled marker.new }
    ensures basis { M.basis marker.new ≡ M.basis marker.old }
    ensures pinned { M.pinned marker.new ≡ M.pinned marker.old }
    ensures spreads { Spreads (IsEdge (objects_of (M.basis marker.old)) (row_at seg.now))
        (M.promoted marker.old) (M.promoted marker.new) }
    ensures more { MatchBool result (Gained (M.promoted marker.old) (M.promoted marker.new))
        (IsSpreadRow (live_at seg.now slot.0) (M.promoted marker.old) (M.promoted marker.new)) }
{
    let Some((target, secondary)) = parts(seg, slot) else {
        return false;
    };
    if !is_left_out(target, secondary, marker) {
        return false;
    }
    marker.promote(secondary);
    true
}

/// The target and the secondary of a live dependent handle that has both.
pub(crate) fn parts(seg: &Seg, slot: Slot) -> Option<(Addr, Addr)>
    requires live { IsSome (get seg.now.rows slot.0) }
    requires of_kind { (live_at seg.now slot.0).kind ≡ kind.Dependent }
    ensures both { IfSome result (λ parts. HasParts (live_at seg.now slot.0) parts.0 parts.1) }
    ensures none { IfNone result ((x y : Addr) → HasParts (live_at seg.now slot.0) x y → ⊥) }
{
    let row = seg.row_by(slot, true);
    let target = row.target?;
    match row.extra {
        Extra::Secondary(Some(secondary)) => Some((target, secondary)),
        Extra::Secondary(None) | Extra::Nothing | Extra::Strength(_) | Extra::Count(_) => None,
    }
}

/// Whether a target is promoted and its secondary is not.
fn is_left_out<M: Marker>(target: Addr, secondary: Addr, marker: &M) -> bool
    requires settled { M.settled marker.now }
    requires target { is_object (objects_of (M.basis marker.now)) target ≡ true }
    requires secondary { is_object (objects_of (M.basis marker.now)) secondary ≡ true }
    ensures { result ≡ (M.promoted marker.now target && not (M.promoted marker.now secondary)) }
{
    marker.promoted(target) && !marker.promoted(secondary)
}
