// The phases of a collection until objects move.
ghost use Rattle.std.specs.Prelude.{◌≡◌, ◌*◌, ◌<◌, ◌^◌, IfOk, OnErr};
ghost use Rattle.std.specs.FinMap.{len};
ghost use Rattle.hd_model.specs.{Heap.object_at, Names.HasClosedFields, Visits.MayVisitDue, Visits.visits_of};
ghost use Rattle.hd_model.specs.declared.data.Kind.TheVariants as kind;
ghost use Rattle.hd_model.specs.declared.limits.TheConstants.{CLUMP};
ghost use Rattle.hd_heap.specs.Calls.{IsExtent};
ghost use Rattle.hd_mark.specs.Marks.{first_marks};
ghost use Rattle.hd_plan.specs.Plan.{IsTakenPlan};
ghost use Rattle.hd_gc.specs.{Ready.IsReady, Inside.MarkedAndCleared, Inside.marked_steps};
ghost use Rattle.hd_gc.specs.Inside.{IsTracing, basis_in, parts_in};

use hd_ages::AgeMap;
use hd_dep::DependentIndex;
use hd_final::Final;
use hd_heap::{Extent, Heap};
use hd_mark::Marks;
use hd_model::{Addr, Memory, Steps};
use hd_plan::Plan;
use hd_seg::Seg;
use std::alloc::Global;
use std::sync::ledger::Ledger;

/// What a collection goes by until objects move, as by a `ScanContext` of CoreCLR's collector.
#[derive(Clone, Copy)]
pub(crate) struct Context<'c> {
    pub(crate) alloc: Global,
    pub(crate) heap: &'c Heap,
    /// The ages of clumps.
    pub(crate) ages: &'c AgeMap,
    /// What registers and statics reference.
    pub(crate) roots: &'c [Option<Addr>],
    /// The oldest generation that is collected.
    pub(crate) condemned: u8,
}

/// A collection before its marking: nothing is promoted yet.
#[derive(Drop)]
pub(crate) struct Tracer<'c> {
    pub(crate) context: Context<'c>,
    pub(crate) marks: Marks<'c>,
    /// Room for the dependent handles that wait for their target.
    pub(crate) index: DependentIndex,
}

/// A collection after its marking: what is reached is promoted.
#[derive(Drop)]
pub(crate) struct Marked<'c> {
    pub(crate) context: Context<'c>,
    pub(crate) marks: Marks<'c>,
    /// Room for the dependent handles that wait for a resurrected target.
    pub(crate) index: DependentIndex,
}

/// How many condemned objects are kept, how many handles lost their target, by what they are to a
/// collection, and how many objects are resurrected.
#[derive(Clone, Copy, Debug, PartialEq, Eq)]
pub(crate) struct ClearedCounts {
    pub(crate) kept: u32,
    pub(crate) short: u32,
    pub(crate) long: u32,
    pub(crate) dep: u32,
    pub(crate) revived: u32,
}

impl<'c> Context<'c> {
    /// Marks what is kept and clears the handles of all else, queues the resurrected objects, and
    /// gives what is kept its new addresses. Where memory runs out nothing is done.
    pub(crate) fn mark_and_clear<L: Ledger>(
        self,
        seg: &mut Seg,
        fin: &mut Final,
        plan: &mut Plan,
        steps: &mut Steps<L>,
    ) -> Result<ClearedCounts, Memory>
        requires ready { IsReady (parts_in self seg.old fin.old) }
        requires few { len self.heap.now.objects < 2 ^ 32 }
        requires taken { IsTakenPlan plan.old }
        requires basis { plan.old.basis ≡ basis_in self }
        ensures found { let c = self.entry in IfOk result (λ found. MarkedAndCleared
            (parts_in c seg.old fin.old) (parts_in c seg.new fin.new) c.condemned plan.new found) }
        ensures steps { let c = self.entry in IfOk result (λ _.
            steps.new ≡ marked_steps seg.old c.ages.now c.condemned steps.old) }
        ensures memory { OnErr result ((seg.new ≡ seg.old) × (fin.new ≡ fin.old)
            × (steps.new ≡ steps.old)) }
    {
        let tracer = Tracer::open(self, seg, plan.extent())?;
        let marked = tracer.trace(seg, fin, steps);
        Ok(marked.clear(seg, fin, plan, steps))
    }
}

impl<'c> Tracer<'c> {
    /// Takes all memory of the marking. `extent` is how much is condemned.
    fn open(context: Context<'c>, seg: &Seg, extent: Extent) -> Result<Tracer<'c>, Memory>
        requires fields { HasClosedFields (object_at context.heap.now) }
        requires due { MayVisitDue (basis_in context) seg.now context.ages.now context.condemned }
        requires extent { IsExtent context.heap.now context.condemned extent }
        ensures context { IfOk result (λ t. t.context ≡ context.entry) }
        ensures first { IfOk result (λ t.
            t.marks ≡ first_marks t.context.heap.now t.context.condemned) }
        ensures tracing { IfOk result (λ t.
            IsTracing (basis_in t.context) seg.now t.context.ages.now t.marks) }
        ensures room { IfOk result (λ t. t.index ≡ CLUMP * visits_of seg.now
            t.context.ages.now t.context.condemned kind.Dependent) }
    {
        let alloc = context.alloc;
        let marks = Marks::over(alloc, context.heap, context.condemned, extent)?;
        let index = DependentIndex::open(alloc, seg, context.ages, context.condemned)?;
        Ok(Tracer {
            context,
            marks,
            index,
        })
    }
}
