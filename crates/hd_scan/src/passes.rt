ghost use Rattle.std.specs.Prelude.{◌≡◌, ◌+◌, ◌*◌, ◌≤◌};
ghost use Rattle.hd_model.specs.{Heap.objects_of, Table.row_at, Visits.MayVisit, Visits.visits_of, Ages.HasSoundAges};
ghost use Rattle.hd_scan.specs.{Tasks.task_kind, Passes.Passed, Passes.view_at, Whole.WholePass};

use crate::clearing::clear;
use crate::roots::promote;
use crate::task::Task;
use hd_ages::AgeMap;
use hd_model::limits::{HOST_BLOCKS, ROWS};
use hd_model::{Marker, Steps};
use hd_seg::Seg;
use std::sync::ledger::Ledger;

/// One task of a collection of generation `n`, over the due clumps of the task's kind. Each of them
/// is one step. Returns the number of visited handles from which it promoted, or which it cleared.
///
/// A handle that holds its target is a root, as a `GCHandle` of type `Normal` or `Pinned` is. A
/// weak one of type `Weak` is cleared by what is promoted before finalization, one of type
/// `WeakTrackResurrection` by what is promoted after it.
pub fn pass<M: Marker, L: Ledger>(
    seg: &mut Seg,
    ages: &AgeMap,
    task: Task,
    marker: &mut M,
    n: u8,
    steps: &mut Steps<L>,
) -> u32
    requires settled { M.settled marker.old }
    requires visit { MayVisit (M.basis marker.old) seg.old ages.now n }
    ensures settled { M.settled marker.new }
    ensures basis { M.basis marker.new ≡ M.basis marker.old }
    ensures passed { Passed (objects_of (M.basis marker.old)) ages.now n task
        (view_at seg.old (M.promoted marker.old) (M.pinned marker.old))
        (view_at seg.new (M.promoted marker.new) (M.pinned marker.new)) result }
    ensures steps { steps.new ≡ steps.old + visits_of seg.old ages.now n (task_kind task) }
    ensures few { result ≤ HOST_BLOCKS * ROWS }

    // Where the ages are sound, what it promotes, pins and clears, and the number of those it
    // clears, is as if it had looked at all rows. The number of a root task is of the visited ones
    // alone.
    ensures whole { HasSoundAges (objects_of (M.basis marker.old)) (row_at seg.old) ages.now →
        WholePass (objects_of (M.basis marker.old)) n task
        (view_at seg.old (M.promoted marker.old) (M.pinned marker.old))
        (view_at seg.new (M.promoted marker.new) (M.pinned marker.new)) result }
{
    if task.clears() {
        clear(seg, ages, task, marker, n, steps)
    } else {
        promote(seg, ages, task, marker, n, steps)
    }
}
