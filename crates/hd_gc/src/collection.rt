// A whole collection.
ghost use Rattle.std.specs.Prelude.{◌≡◌, ◌≤◌, true, length, take, MatchResult};
ghost use Rattle.hd_gc.specs.{Ready.IsReady, Ready.parts, Collected.Collected, Collected.HoldsRegions, Inside.Reports};
ghost use Rattle.hd_model.specs.{Counting.Counts, Heap.objects_of, Scene.IsCondemned};
ghost use Rattle.hd_plan.specs.Plan.{FreeAtMost, IsLaid, kept_in};

use crate::moving::{relocate_roots, relocate_rows};
use crate::phases::{ClearedCounts, Context};
use hd_ages::AgeMap;
use hd_final::Final;
use hd_heap::Heap;
use hd_model::limits::OLDEST;
use hd_model::{Addr, Memory, Report, Steps};
use hd_plan::{Plan, commit};
use hd_seg::Seg;
use std::alloc::Global;
use std::sync::ledger::Ledger;

/// Collects generation `n` and all younger ones, as `GC.Collect(n)` does with what no thread uses
/// meanwhile. `roots` is what registers and statics reference.
///
/// What is reached stays, and what it leads to; a registered object that is not reached is queued
/// for finalization and stays too, with what it leads to; what else is condemned dies. What stays
/// is promoted, up to the oldest generation, and moves unless a handle pins it. A step is one clump
/// of handles that a pass visits.
///
/// Where memory runs out, nothing is done, but free regions that were added stay.
#[tactic(auto, using(crate::proofs::FreeRegions::at_most))]
pub fn collect<L: Ledger>(
    alloc: Global,
    heap: &mut Heap,
    seg: &mut Seg,
    ages: &mut AgeMap,
    fin: &mut Final,
    roots: &mut [Option<Addr>],
    n: u8,
    steps: &mut Steps<L>,
) -> Result<Report, Memory>
    requires generation { n ≤ OLDEST }
    requires ready { IsReady (parts heap.old seg.old ages.old fin.old roots.old) }
    ensures collected { MatchResult result
        (λ report. Collected (parts heap.old seg.old ages.old fin.old roots.old)
        (parts heap.new seg.new ages.new fin.new roots.new) n report steps.old steps.new)
        (λ _. (heap.new ≡ record heap.old { free = heap.new.free }) × (seg.new ≡ seg.old)
        × (ages.new ≡ ages.old) × (fin.new ≡ fin.old) × (roots.new ≡ roots.old)
        × (steps.new ≡ steps.old)) }
    ensures regions { MatchResult result (λ _. HoldsRegions heap.old heap.new n)
        (λ _. (take (length heap.old.free) heap.new.free ≡ heap.old.free)
        × FreeAtMost heap.old heap.new n) }
{
    let mut plan = Plan::take(alloc, heap, n)?;
    let joined = fin.len();
    let context = Context {
        alloc,
        heap,
        ages,
        roots,
        condemned: n,
    };
    let found = context.mark_and_clear(seg, fin, &mut plan, steps)?;
    let report = report(&plan, found);

    // Those that joined the queue are no longer registered.
    fin.settle(heap, joined);
    relocate_rows(seg, ages, &plan, n, steps);
    fin.relocate(&plan);
    relocate_roots(roots, &plan);
    commit(heap, &mut plan);
    ages.grow_all(n);
    Ok(report)
}

// The report of what a plan keeps and does not, and of what was found.
fn report(plan: &Plan, found: ClearedCounts) -> Report
    requires laid { IsLaid plan.now }
    requires kept { let of = plan.now.basis in
        Counts (λ x. IsCondemned (objects_of of) of.condemned x × (kept_in plan.now x ≡ true))
        found.kept }
    ensures { Reports plan.now found result }
{
    Report {
        kept: found.kept,
        removed: plan.extent().objects - found.kept,
        short: found.short,
        long: found.long,
        dep: found.dep,
        revived: found.revived,
    }
}
