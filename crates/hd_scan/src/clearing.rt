ghost use Rattle.std.specs.Prelude.{◌≡◌, ◌+◌, ◌*◌, ◌&&◌, ◌≤◌, IsSome, true};
ghost use Rattle.std.specs.{Option.ForSome, FinMap.get};
ghost use Rattle.hd_model.specs.{Heap.objects_of, Kinds.is_paired, Scene.is_object, Table.live_at, Table.row_at, Visits.MayVisit, Visits.visits_of, Ages.HasSoundAges, Collect.is_lost};
ghost use Rattle.hd_seg.specs.Rewriting.{Rewrites};
ghost use Rattle.hd_scan.specs.Tasks.{task_kind, takes, swept};
ghost use Rattle.hd_scan.specs.{Passes.ClearPass, Passes.view_at, Whole.WholeClear};

use crate::task::Task;
use hd_ages::{AgeMap, DueRows};
use hd_model::limits::{HOST_BLOCKS, ROWS};
use hd_model::{Marker, Slot, Steps, is_lost};
use hd_seg::Seg;
use std::sync::ledger::Ledger;

/// Clears the handles that a clearing task takes, where their target is not promoted. Returns their
/// number.
/// Out of line, since its loops are faster where their registers are their own.
#[inline(never)]
pub fn clear<M: Marker, L: Ledger>(
    seg: &mut Seg,
    ages: &AgeMap,
    task: Task,
    marker: &M,
    n: u8,
    steps: &mut Steps<L>,
) -> u32
    requires settled { M.settled marker.now }
    requires visit { MayVisit (M.basis marker.now) seg.old ages.now n }
    ensures passed { ClearPass ages.now n task
        (view_at seg.old (M.promoted marker.now) (M.pinned marker.now))
        (view_at seg.new (M.promoted marker.now) (M.pinned marker.now)) result }
    ensures steps { steps.new ≡ steps.old + visits_of seg.old ages.now n (task_kind task) }
    ensures few { result ≤ HOST_BLOCKS * ROWS }
    ensures whole { HasSoundAges (objects_of (M.basis marker.now)) (row_at seg.old) ages.now →
        WholeClear (takes task) (view_at seg.old (M.promoted marker.now) (M.pinned marker.now))
        seg.new result }
{
    if task.kind().paired() {
        clear_rows(seg, ages, task, true, marker, n, steps)
    } else {
        clear_rows(seg, ages, task, false, marker, n, steps)
    }
}

/// The same for a kind that has extras, or has none: a loop for each, so that no row is asked.
#[inline(always)]
fn clear_rows<M: Marker, L: Ledger>(
    seg: &mut Seg,
    ages: &AgeMap,
    task: Task,
    paired: bool,
    marker: &M,
    n: u8,
    steps: &mut Steps<L>,
) -> u32
    requires settled { M.settled marker.now }
    requires visit { MayVisit (M.basis marker.now) seg.old ages.now n }
    requires paired { is_paired (task_kind task) ≡ paired }
    ensures passed { ClearPass ages.now n task
        (view_at seg.old (M.promoted marker.now) (M.pinned marker.now))
        (view_at seg.new (M.promoted marker.now) (M.pinned marker.now)) result }
    ensures steps { steps.new ≡ steps.old + visits_of seg.old ages.now n (task_kind task) }
    ensures few { result ≤ HOST_BLOCKS * ROWS }
    ensures whole { HasSoundAges (objects_of (M.basis marker.now)) (row_at seg.old) ages.now →
        WholeClear (takes task) (view_at seg.old (M.promoted marker.now) (M.pinned marker.now))
        seg.new result }
{
    let mut cleared = 0;
    let mut rows = DueRows::start(seg, ages, task.kind(), n);
    while let Some(slot) = rows.next(seg, ages, steps) {
        cleared += u32::from(clear_row(seg, slot, task, paired, marker));
    }
    cleared
}

/// Clears a handle of the task's kind, if the task takes it and its target is not promoted.
#[inline(always)]
fn clear_row<M: Marker>(seg: &mut Seg, slot: Slot, task: Task, paired: bool, marker: &M) -> bool
    requires live { IsSome (get seg.old.rows slot.0) }
    requires of_kind { (live_at seg.old slot.0).kind ≡ task_kind task }
    requires paired { is_paired (task_kind task) ≡ paired }
    requires settled { M.settled marker.now }
    requires object { ForSome (live_at seg.old slot.0).target
        (λ x. is_object (objects_of (M.basis marker.now)) x ≡ true) }
    ensures row { let handle = live_at seg.old slot.0 in
        Rewrites slot.0 (swept true (takes task) (M.promoted marker.now) handle) seg.old seg.new }
    ensures lost { let handle = live_at seg.old slot.0 in
        result ≡ (takes task handle && is_lost (M.promoted marker.now) handle.target) }
{
    let row = seg.row_by(slot, paired);
    let lost = task.takes_row(row, paired) && is_lost(row.target, marker);
    if lost {
        seg.set_row(slot, None);
    }
    lost
}
