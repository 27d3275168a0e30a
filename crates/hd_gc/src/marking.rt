// What is promoted and pinned: all that is reached.
ghost use Rattle.std.specs.Prelude.{◌≡◌, ◌+◌, ◌*◌, ◌≤◌, true, Some, Contains, length};
ghost use Rattle.hd_model.specs.declared.data.Kind.TheVariants as kind;
ghost use Rattle.hd_model.specs.declared.limits.TheConstants.{CLUMP};
ghost use Rattle.hd_model.specs.{Heap.has_object, Heap.object_at, Scene.IsField, Table.row_at, Visits.visits_of};
ghost use Rattle.hd_mark.specs.Marks.{first_marks};
ghost use Rattle.hd_scan.specs.Tasks.{root_tasks};
ghost use Rattle.hd_gc.specs.{Ready.IsReady, Steps.task_visits, Inside.Traced, Inside.traced_steps};
ghost use Rattle.hd_gc.specs.Inside.{MayPromote, Promotes, PromotesOn, IsOldField, Holds};
ghost use Rattle.hd_gc.specs.Inside.{IsTracing, basis_in, parts_in};

use crate::phases::{Context, Marked, Tracer};
use crate::roots::skip_null;
use hd_dep::follow;
use hd_final::Final;
use hd_heap::Heap;
use hd_mark::Marks;
use hd_model::{Addr, Marker, Steps};
use hd_scan::{Task, promote};
use hd_seg::Seg;
use std::sync::ledger::Ledger;

// Promotes what a reference names, if it is not null.
fn promote_named(at: Option<Addr>, marks: &mut Marks)
    requires { MayPromote (λ x. at ≡ Some x) marks.old }
    ensures { Promotes (λ x. at ≡ Some x) marks.old marks.new }
{
    if let Some(at) = at {
        marks.promote(at);
    }
}

// Promotes what the roots from one on and before another reference.
#[inline(always)]
fn promote_between(roots: &[Option<Addr>], from: usize, to: usize, marks: &mut Marks)
    requires order { from ≤ to }
    requires within { to ≤ length roots.now }
    requires may { MayPromote (λ x. Contains roots.now (Some x)) marks.old }
    ensures { PromotesOn roots.now from to marks.old marks.new }
{
    for i in from..to {
        promote_named(roots[i], marks);
    }
}

// Promotes what the roots reference. Null ones are passed four at once; where four are not all
// null, all of them are gone over before the next look, so that a root costs little more.
fn promote_roots(roots: &[Option<Addr>], marks: &mut Marks)
    requires { MayPromote (λ x. Contains roots.now (Some x)) marks.old }
    ensures { Promotes (λ x. Contains roots.now (Some x)) marks.old marks.new }
{
    let mut at = skip_null(roots, 0);
    while roots.len() - at >= 4 {
        promote_between(roots, at, at + 4, marks);
        at = skip_null(roots, at + 4);
    }
    promote_between(roots, at, roots.len(), marks);
}

// Promotes what is queued for finalization.
fn promote_queue(fin: &Final, marks: &mut Marks)
    requires { MayPromote (λ x. Contains fin.now.queued x) marks.old }
    ensures { Promotes (λ x. Contains fin.now.queued x) marks.old marks.new }
{
    for i in 0..fin.len() {
        marks.promote(fin.at(i));
    }
}

// Promotes the targets of the handles that hold them, and pins those of the handles that pin.
fn promote_held<L: Ledger>(seg: &Seg, context: Context<'_>, marks: &mut Marks, steps: &mut Steps<L>)
    requires { IsTracing (basis_in context) seg.now context.ages.now marks.old }
    ensures holds { Holds (row_at seg.now) marks.old marks.new }
    ensures steps { steps.new ≡ steps.old
        + task_visits seg.now context.entry.ages.now context.entry.condemned root_tasks }
{
    for task in Task::ROOTS {
        let _ = promote(seg, context.ages, task, marks, context.condemned, steps);
    }
}

// Promotes what an object references.
fn promote_fields(heap: &Heap, at: Addr, marks: &mut Marks)
    requires object { has_object heap.now at ≡ true }
    requires fields { MayPromote (λ y. IsField (object_at heap.now) at y) marks.old }
    ensures { Promotes (λ y. IsField (object_at heap.now) at y) marks.old marks.new }
{
    for i in 0..heap.fields(at) {
        promote_named(heap.load(at, i), marks);
    }
}

// Promotes what the older objects in set cards reference. No other one references a younger one.
fn promote_carded(heap: &Heap, marks: &mut Marks, n: u8)
    requires { MayPromote (IsOldField heap.now n) marks.old }
    ensures { Promotes (IsOldField heap.now n) marks.old marks.new }
{
    let mut after = None;
    while let Some(at) = heap.next_carded(after, n) {
        promote_fields(heap, at, marks);
        after = Some(at);
    }
}

impl<'c> Tracer<'c> {
    /// Promotes all that is reached.
    pub(crate) fn trace<L: Ledger>(self, seg: &Seg, fin: &Final, steps: &mut Steps<L>) -> Marked<'c>
        requires first { self.marks ≡ first_marks self.context.heap.now self.context.condemned }
        requires tracing { IsTracing (basis_in self.context) seg.now self.context.ages.now
            self.marks }
        requires ready { IsReady (parts_in self.context seg.now fin.now) }
        requires room { CLUMP * visits_of seg.now self.context.ages.now self.context.condemned
            kind.Dependent ≤ self.index }
        ensures context { result.context ≡ self.entry.context }
        ensures room { result.index ≡ self.entry.index }
        ensures tracing { let c = result.context in
            IsTracing (basis_in c) seg.now c.ages.now result.marks }
        ensures traced { let c = result.context in
            Traced (parts_in c seg.now fin.now) c.condemned result.marks }
        ensures steps { let c = self.entry.context in
            steps.new ≡ traced_steps seg.now c.ages.now c.condemned steps.old }
    {
        let Tracer {
            context,
            mut marks,
            mut index,
        } = self;
        promote_roots(context.roots, &mut marks);
        promote_queue(fin, &mut marks);
        promote_held(seg, context, &mut marks, steps);
        let n = context.condemned;
        promote_carded(context.heap, &mut marks, n);
        follow(seg, context.ages, &mut index, &mut marks, n, steps);
        Marked {
            context,
            marks,
            index,
        }
    }
}
