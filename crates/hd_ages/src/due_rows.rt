ghost use Rattle.std.specs.Prelude.{◌≡◌, ◌≢◌, ℕ, ◌+◌, ◌*◌, ◌<◌, ◌≤◌, ◌^◌, ◌∷◌, Some, length, map};
ghost use Rattle.std.specs.Prelude.{MatchOption, IfNone, IfSome};
ghost use Rattle.std.specs.FinMap.{get};
ghost use Rattle.hd_mask.specs.Mask.{set_bits};
ghost use Rattle.hd_model.specs.Ages.{due_clumps};
ghost use Rattle.hd_model.specs.Table.{IsTable, chain_of};
ghost use Rattle.hd_model.specs.Visits.{visits_of};
ghost use Rattle.hd_model.specs.State.{handles_of};
ghost use Rattle.hd_ages.specs.Clumps.{CoversTable};
ghost use Rattle.hd_ages.specs.{Walk.IsOn, Walk.Ends, Walk.Gives, Inside.Advances, Inside.IsOver};
ghost use Rattle.hd_ages.specs.Walk.{blocks_from, clumps_to_come, slots_to_come, due_slots};

use crate::age_map::AgeMap;
use crate::word::rows_of;
use hd_mask::{count, lowest, take_lowest};
use hd_model::limits::{CLUMPS, HOST_BLOCKS, ROWS};
use hd_model::{Kind, Slot, Steps};
use hd_seg::Seg;
use std::sync::ledger::Ledger;

/// A walk over the live rows of one kind in the clumps that a collection visits.
///
/// Rows may get other targets and extras while a walk is under way. None may come or go.
#[derive(Clone, Copy)]
pub struct DueRows {
    // The kind of the rows, and the generation that is collected.
    kind: Kind,
    n: u8,
    // The block that the walk comes to next.
    next: Option<u32>,
    // The first slot of the block that the walk is at.
    first: u32,
    // The live rows of its due clumps that are still to be visited, as a mask.
    rows: u64,
}

impl DueRows {
    /// A walk over the rows of a kind that a collection of generation `n` visits, in the order of
    /// their blocks in the chain.
    pub fn start(seg: &Seg, ages: &AgeMap, kind: Kind, n: u8) -> DueRows
        requires blocks { CoversTable ages.now seg.now }
        ensures on { IsOn seg.now result }
        ensures slots { slots_to_come seg.now ages.now result
            ≡ due_slots seg.now ages.now n kind }
        ensures clumps { clumps_to_come seg.now ages.now result
            ≡ due_clumps ages.now n (chain_of seg.now kind) }
        ensures table { IsTable seg.now }
    {
        DueRows {
            kind,
            n,
            next: first_due(seg, ages, kind, n),
            first: 0,
            rows: 0,
        }
    }

    /// The next row. The table may have other rows than when the walk began, but in the same slots.
    #[inline(always)]
    pub fn next<L: Ledger>(
        &mut self,
        seg: &Seg,
        ages: &AgeMap,
        steps: &mut Steps<L>,
    ) -> Option<Slot>
        requires on { IsOn seg.now self.old }
        requires blocks { CoversTable ages.now seg.now }
        ensures on { IsOn seg.now self.new }
        ensures row { MatchOption result (Ends seg.now ages.now self.old self.new)
            (λ slot. Gives seg.now ages.now self.old self.new slot) }
        ensures steps { steps.new + length (clumps_to_come seg.now ages.now self.new)
            ≡ steps.old + length (clumps_to_come seg.now ages.now self.old) }
    {
        while self.rows == 0 {
            self.advance(seg, ages, steps)?;
        }
        Some(self.take_row())
    }

    // Moves to the next block of the chain: each of its due clumps is a step.
    fn advance<L: Ledger>(&mut self, seg: &Seg, ages: &AgeMap, steps: &mut Steps<L>) -> Option<()>
        requires on { IsOn seg.now self.old }
        requires blocks { CoversTable ages.now seg.now }
        requires none { self.old.rows ≡ 0 }
        ensures on { IsOn seg.now self.new }
        ensures goes { MatchOption result (IsOver seg.now ages.now self.old)
            (λ _. Advances seg.now ages.now self.old self.new steps.old steps.new) }
        ensures kept { IfNone result (self.new ≡ self.old) }
        ensures unmoved { IfNone result (steps.new ≡ steps.old) }
    {
        let block = self.next?;
        self.next = seg.after(block);
        let due = ages.due(block, self.n);
        self.first = ROWS * block;
        self.rows = rows_of(due) & seg.live_rows(block);
        tick_each(due, steps);
        Some(())
    }

    // Takes the lowest row that is still to be visited.
    fn take_row(&mut self) -> Slot
        requires some { self.old.rows ≢ 0 }
        requires first { self.old.first ≤ ROWS * HOST_BLOCKS }
        ensures after { self.new ≡ record self.old { rows = self.new.rows } }
        ensures rows { map (λ row. self.old.first + row) (set_bits self.old.rows)
            ≡ result.0 ∷ map (λ row. self.old.first + row) (set_bits self.new.rows) }
    {
        let row = lowest(self.rows).unwrap();
        self.rows = take_lowest(self.rows, 1).1;
        Slot(self.first + row)
    }
}

// A step for each clump of a mask.
fn tick_each<L: Ledger>(clumps: u8, steps: &mut Steps<L>)
    ensures { steps.new ≡ steps.old + length (set_bits clumps) }
{
    for _clump in 0..count(u64::from(clumps)) {
        steps.tick();
    }
}

// The first block that a walk looks at: none where a collection of generation `n` has no clump to
// visit.
fn first_due(seg: &Seg, ages: &AgeMap, kind: Kind, n: u8) -> Option<u32>
    requires { CoversTable ages.now seg.now }
    ensures clumps { due_clumps ages.now n (blocks_from result (chain_of seg.now kind))
        ≡ due_clumps ages.now n (chain_of seg.now kind) }
    ensures of_kind { IfSome result (λ block. get seg.now.uses block ≡ Some (handles_of kind)) }
    ensures table { IsTable seg.now }
{
    // The read brings what holds of every table.
    let _given = seg.given();
    if ages.may_be_due(n) {
        seg.first(kind)
    } else {
        None
    }
}

/// The number of clumps that a walk over the rows of a kind visits. It looks at no row.
pub fn count_due(seg: &Seg, ages: &AgeMap, kind: Kind, n: u8) -> u32
    requires blocks { CoversTable ages.now seg.now }
    ensures value { result ≡ visits_of seg.now ages.now n kind }
    ensures few { result ≤ CLUMPS * HOST_BLOCKS }
{
    let mut clumps = 0;
    let mut next = first_due(seg, ages, kind, n);
    while let Some(block) = next {
        next = seg.after(block);
        clumps += count(u64::from(ages.due(block, n)));
    }
    clumps
}

/// Makes a step for each clump that a walk over the rows of a kind visits, and looks at no row.
pub fn pass_due<L: Ledger>(seg: &Seg, ages: &AgeMap, kind: Kind, n: u8, steps: &mut Steps<L>)
    requires blocks { CoversTable ages.now seg.now }
    ensures { steps.new ≡ steps.old + visits_of seg.now ages.now n kind }
{
    let mut next = first_due(seg, ages, kind, n);
    while let Some(block) = next {
        next = seg.after(block);
        tick_each(ages.due(block, n), steps);
    }
}
