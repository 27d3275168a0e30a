ghost use Rattle.std.specs.Prelude.{◌≡◌, ◌+◌, ◌*◌, ◌&&◌, ◌≤◌, is_some, IsSome};
ghost use Rattle.std.specs.FinMap.{get};
ghost use Rattle.hd_model.specs.{Heap.objects_of, Kinds.is_paired, Leads.Grows, Scene.IsYoungField, Table.live_at, Table.row_at, Names.NamesObjects, Visits.MayVisit, Visits.visits_of, Ages.HasSoundAges};
ghost use Rattle.hd_scan.specs.{Tasks.task_kind, Tasks.takes, Whole.WholeRoots};
ghost use Rattle.hd_scan.specs.{Inside.IsTargetBy, Inside.PinsBy, Passes.RootPass, Passes.view_at};

use crate::task::Task;
use hd_ages::{AgeMap, DueRows};
use hd_model::limits::{HOST_BLOCKS, ROWS};
use hd_model::{Marker, Slot, Steps, pins_by};
use hd_seg::Seg;
use std::sync::ledger::Ledger;

/// Promotes the targets of the handles that a root task takes, and pins those of the ones that pin.
/// Returns the number of these handles that have a target.
/// Out of line, since its loops are faster where their registers are their own.
#[inline(never)]
pub fn promote<M: Marker, L: Ledger>(
    seg: &Seg,
    ages: &AgeMap,
    task: Task,
    marker: &mut M,
    n: u8,
    steps: &mut Steps<L>,
) -> u32
    requires settled { M.settled marker.old }
    requires visit { MayVisit (M.basis marker.old) seg.now ages.now n }
    ensures settled { M.settled marker.new }
    ensures basis { M.basis marker.new ≡ M.basis marker.old }
    ensures passed { RootPass (objects_of (M.basis marker.old)) ages.now n task
        (view_at seg.now (M.promoted marker.old) (M.pinned marker.old))
        (view_at seg.now (M.promoted marker.new) (M.pinned marker.new)) result }
    ensures steps { steps.new ≡ steps.old + visits_of seg.now ages.now n (task_kind task) }
    ensures few { result ≤ HOST_BLOCKS * ROWS }
    ensures whole { HasSoundAges (objects_of (M.basis marker.old)) (row_at seg.now) ages.now →
        WholeRoots (objects_of (M.basis marker.old)) n (takes task)
        (view_at seg.now (M.promoted marker.old) (M.pinned marker.old))
        (view_at seg.now (M.promoted marker.new) (M.pinned marker.new)) }
{
    match task {
        Task::Strong => promote_rows(seg, ages, Task::Strong, false, marker, n, steps),
        Task::Pinned => promote_rows(seg, ages, Task::Pinned, false, marker, n, steps),
        Task::VariableRoots
        | Task::CountedRoots
        | Task::ClearShort
        | Task::ClearLong
        | Task::ClearVariableShort
        | Task::ClearVariableLong
        | Task::ClearCounted => {
            let paired = task.kind().paired();
            promote_rows(seg, ages, task, paired, marker, n, steps)
        }
    }
}

/// The same for a kind that has extras, or has none: a loop for each, so that no row is asked.
#[inline(always)]
fn promote_rows<M: Marker, L: Ledger>(
    seg: &Seg,
    ages: &AgeMap,
    task: Task,
    paired: bool,
    marker: &mut M,
    n: u8,
    steps: &mut Steps<L>,
) -> u32
    requires settled { M.settled marker.old }
    requires visit { MayVisit (M.basis marker.old) seg.now ages.now n }
    requires paired { is_paired (task_kind task) ≡ paired }
    ensures settled { M.settled marker.new }
    ensures basis { M.basis marker.new ≡ M.basis marker.old }
    ensures passed { RootPass (objects_of (M.basis marker.old)) ages.now n task
        (view_at seg.now (M.promoted marker.old) (M.pinned marker.old))
        (view_at seg.now (M.promoted marker.new) (M.pinned marker.new)) result }
    ensures steps { steps.new ≡ steps.old + visits_of seg.now ages.now n (task_kind task) }
    ensures few { result ≤ HOST_BLOCKS * ROWS }
    ensures whole { HasSoundAges (objects_of (M.basis marker.old)) (row_at seg.now) ages.now →
        WholeRoots (objects_of (M.basis marker.old)) n (takes task)
        (view_at seg.now (M.promoted marker.old) (M.pinned marker.old))
        (view_at seg.now (M.promoted marker.new) (M.pinned marker.new)) }
{
    let mut held = 0;
    let mut rows = DueRows::start(seg, ages, task.kind(), n);
    while let Some(slot) = rows.next(seg, ages, steps) {
        held += u32::from(promote_row(seg, slot, task, paired, marker));
    }
    held
}

/// Promotes the target of a handle of the task's kind, if the task takes it and it has one, and
/// pins it if the handle pins.
#[inline(always)]
fn promote_row<M: Marker>(seg: &Seg, slot: Slot, task: Task, paired: bool, marker: &mut M) -> bool
    requires live { IsSome (get seg.now.rows slot.0) }
    requires of_kind { (live_at seg.now slot.0).kind ≡ task_kind task }
    requires paired { is_paired (task_kind task) ≡ paired }
    requires settled { M.settled marker.old }
    requires names { NamesObjects (objects_of (M.basis marker.old)) (row_at seg.now) }
    ensures settled { M.settled marker.new }
    ensures basis { M.basis marker.new ≡ M.basis marker.old }
    ensures promotes { let basis = M.basis marker.old in
        Grows (IsYoungField (objects_of basis) basis.condemned)
        (IsTargetBy task (live_at seg.now slot.0)) (M.promoted marker.old) (M.promoted marker.new) }
    ensures pins { PinsBy task (live_at seg.now slot.0) (M.pinned marker.old)
        (M.pinned marker.new) }
    ensures answer { let handle = live_at seg.now slot.0 in
        result ≡ (takes task handle && is_some handle.target) }
{
    let row = seg.row_by(slot, paired);
    let Some(at) = row.target else {
        return false;
    };
    if !task.takes_row(row, paired) {
        return false;
    }
    marker.promote(at);
    if pins_by(task.kind(), row.extra) {
        marker.pin(at);
    }
    true
}
