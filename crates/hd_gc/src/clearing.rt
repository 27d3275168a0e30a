// The clearing of what is not kept: the handles of what is not promoted lose their targets, and
// what is to be finalized is queued.
ghost use Rattle.std.specs.Prelude.{◌≡◌, ◌+◌, ◌*◌, ◌^◌, ◌<◌, ◌≤◌, length};
ghost use Rattle.std.specs.FinMap.{len};
ghost use Rattle.hd_model.specs.{Counting.Counts, Heap.object_at, Visits.visits_of};
ghost use Rattle.hd_model.specs.declared.data.Kind.TheVariants as kind;
ghost use Rattle.hd_model.specs.declared.limits.TheConstants.{CLUMP};
ghost use Rattle.hd_mark.specs.Marks.{promoted_in};
ghost use Rattle.hd_final.specs.Resurrection.{IsOut};
ghost use Rattle.hd_plan.specs.Plan.{IsTakenPlan};
ghost use Rattle.hd_scan.specs.Tasks.{takes_any};
ghost use Rattle.hd_gc.specs.{Inside.Clears, Inside.cleared_steps, Ready.IsReady, Steps.task_visits};
ghost use Rattle.hd_gc.specs.Inside.{MayRevive, Resurrected, Traced, MarkedAndCleared};
ghost use Rattle.hd_gc.specs.Inside.{IsTracing, basis_in, parts_in};

use crate::phases::{ClearedCounts, Context, Marked};
use hd_ages::pass_due;
use hd_dep::follow;
use hd_final::Final;
use hd_mark::Marks;
use hd_model::{Kind, PromotionLog, Steps};
use hd_plan::Plan;
use hd_scan::{Task, clear};
use hd_seg::Seg;
use std::sync::ledger::Ledger;

// Clears what some tasks take, where its target is not promoted, and returns how many.
fn clear_by<L: Ledger>(
    seg: &mut Seg,
    context: Context<'_>,
    tasks: &[Task],
    marks: &Marks,
    steps: &mut Steps<L>,
) -> u32
    requires tracing { IsTracing (basis_in context) seg.old context.ages.now marks.now }
    requires few { length tasks.now ≤ 9 }
    ensures tracing { let c = context.entry in
        IsTracing (basis_in c) seg.new c.ages.now marks.now }
    ensures clears { Clears (takes_any tasks.now) seg.old seg.new marks.now result }
    ensures steps { let c = context.entry in
        steps.new ≡ steps.old + task_visits seg.old c.ages.now c.condemned tasks.now }
{
    let mut cleared = 0;
    for task in tasks {
        cleared += clear(seg, context.ages, *task, marks, context.condemned, steps);
    }
    cleared
}

impl<'c> Marked<'c> {
    // Queues the registered objects that are not promoted for finalization, after those that
    // already are, and promotes them with all that they lead to. Returns how many they are.
    fn revive<L: Ledger>(&mut self, seg: &Seg, fin: &mut Final, steps: &mut Steps<L>) -> u32
        requires tracing { let c = self.old.context in
            IsTracing (basis_in c) seg.now c.ages.now self.old.marks }
        requires may { let c = self.old.context in
            MayRevive (parts_in c seg.now fin.old) self.old.marks }
        requires room { let c = self.old.context in
            CLUMP * visits_of seg.now c.ages.now c.condemned kind.Dependent ≤ self.old.index }
        ensures tracing { let c = self.old.context in
            IsTracing (basis_in c) seg.now c.ages.now self.new.marks }
        ensures room { fin.new.room ≡ fin.old.room }
        ensures resurrected { let c = self.old.context in
            Resurrected (parts_in c seg.now fin.old) c.condemned self.old.marks self.new.marks
            fin.new.queued }
        ensures count { let c = self.old.context in
            Counts (IsOut (object_at c.heap.now) c.condemned (promoted_in self.old.marks)) result }
        ensures steps { let c = self.old.context in
            steps.new ≡ steps.old + visits_of seg.now c.ages.now c.condemned kind.Dependent }
    {
        let context = self.context;
        let n = context.condemned;
        let revived = fin.revive(context.heap, &mut self.marks, n);
        let nobody = revived == 0;
        if nobody {
            // Nothing was promoted since the last pass, so this one looks at no row of its clumps.
            pass_due(seg, context.ages, Kind::Dependent, n, steps);
            return revived;
        }
        let ages = context.ages;
        follow(seg, ages, &mut self.index, &mut self.marks, n, steps);
        revived
    }

    /// Clears the handles of what is not kept, queues the resurrected objects, and gives what is
    /// kept its new addresses.
    pub(crate) fn clear<L: Ledger>(
        self,
        seg: &mut Seg,
        fin: &mut Final,
        plan: &mut Plan,
        steps: &mut Steps<L>,
    ) -> ClearedCounts
        requires ready { IsReady (parts_in self.context seg.old fin.old) }
        requires few { len self.context.heap.now.objects < 2 ^ 32 }
        requires tracing { IsTracing (basis_in self.context) seg.old self.context.ages.now
            self.marks }
        requires traced { Traced (parts_in self.context seg.old fin.old) self.context.condemned
            self.marks }
        requires room { CLUMP * visits_of seg.old self.context.ages.now self.context.condemned
            kind.Dependent ≤ self.index }
        requires taken { IsTakenPlan plan.old }
        requires basis { plan.old.basis ≡ basis_in self.context }
        ensures cleared { let c = self.entry.context in
            MarkedAndCleared (parts_in c seg.old fin.old) (parts_in c seg.new fin.new) c.condemned
            plan.new result }
        ensures steps { let c = self.entry.context in
            steps.new ≡ cleared_steps seg.old c.ages.now c.condemned steps.old }
    {
        let context = self.context;
        let mut marked = self;
        let short = clear_by(seg, context, &Task::CLEARS_SHORT, &marked.marks, steps);
        let revived = marked.revive(seg, fin, steps);
        let long = clear_by(seg, context, &Task::CLEARS_LONG, &marked.marks, steps);
        let dep = hd_dep::clear(seg, context.ages, &marked.marks, context.condemned, steps);
        let kept = marked.marks.logged() as u32;
        plan.lay(context.heap, &marked.marks);
        ClearedCounts {
            kept,
            short,
            long,
            dep,
            revived,
        }
    }
}
