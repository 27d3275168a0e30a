// `collect`: a collection of a store, which leaves each pinned object at its address.
ghost use Rattle.std.specs.Prelude.{◌≡◌, ℕ, ◌<◌, ◌≤◌, MatchResult, option_map};
ghost use Rattle.std.specs.FinMap.{get};
ghost use Rattle.hd_cwt.specs.WeakTable.{kept_key};
ghost use Rattle.hd_model.specs.declared.command.Cmd.TheVariants as cmds;
ghost use Rattle.hd_model.specs.declared.data.Reply.TheVariants as reply;
ghost use Rattle.hd_commands.specs.Done.{entry_by, replied};
ghost use Rattle.hd_store.specs.{Inside.HasCollected, PinnedAddresses.KeepsPinned, Visited.CollectedSteps, Visited.TakesStepsIn};

use crate::contents::Contents;
use hd_cwt::Cwt;
use hd_gc::collect;
use hd_model::limits::OLDEST;
use hd_model::{Memory, Report, Steps};
use hd_seg::Seg;
use std::sync::ledger::Ledger;

impl Contents {
    /// Collects generation `n` and all younger ones. The entries of the weak table whose key is
    /// not kept leave it. Where there is too little memory, nothing is changed.
    #[inline(always)]
    pub(crate) fn collect<L: Ledger>(
        &mut self,
        n: u8,
        steps: &mut Steps<L>,
    ) -> Result<Report, Memory>
        requires { n ≤ OLDEST }
        ensures { MatchResult result
            (λ report. HasCollected self.old self.new n report ×
            CollectedSteps self.old.state self.old.ages n steps.old steps.new)
            (λ _. (self.new ≡ self.old) × (steps.new ≡ steps.old)) }
    {
        // Read for the proof alone: each chain has the blocks of its kind, each once.
        let _live = self.table.live();
        let report = collect(
            self.alloc,
            &mut self.heap,
            &mut self.table,
            &mut self.ages,
            &mut self.queue,
            &mut self.roots,
            n,
            steps,
        )?;
        sweep_lost(&mut self.weak, &self.table, report.dep);
        Ok(report)
    }
}

// The entries whose key a collection took leave the weak table. Where it cleared no dependent
// handle there is none.
fn sweep_lost(weak: &mut Cwt, table: &Seg, cleared: u32)
    requires { cleared ≡ 0 → (slot : ℕ) → get weak.old.held slot ≡
        option_map (kept_key table.now slot) (get weak.old.held slot) }
    ensures blocks { weak.new.blocks ≡ weak.old.blocks }
    ensures buckets { weak.new.buckets ≡ weak.old.buckets }
    ensures each { (slot : ℕ) → get weak.new.held slot ≡
        option_map (kept_key table.now slot) (get weak.old.held slot) }
{
    if cleared > 0 {
        weak.sweep(table);
    }
}

/// `collect N`.
#[inline(always)]
pub(crate) fn collect_up_to<L: Ledger>(
    store: &mut Contents,
    caller: u32,
    n: u8,
    steps: &mut Steps<L>,
) -> Result<Report, Memory>
    requires caller { caller < store.old.numbers.callers }
    requires generation { n ≤ OLDEST }
    ensures { let c = cmds.Collect n in MatchResult result
        (λ report. let e = entry_by caller c (replied (reply.Report report)) in
        KeepsPinned store.old e store.new
        × TakesStepsIn store.old.numbers store.old.state store.old.ages e steps.old steps.new)
        (λ _. (store.new ≡ store.old) × (steps.new ≡ steps.old)) }
{
    store.collect(n, steps)
}
