ghost use Rattle.std.specs.Prelude.{◌≡◌, ◌+◌, ◌*◌, length, option_map, IsSome, true};
ghost use Rattle.std.specs.{Option.ForSome, FinMap.get};
ghost use Rattle.hd_model.specs.{Heap.objects_of, Kinds.is_paired, Table.live_at, Table.row_at, Visits.IsSameTable, Visits.visits_of, Ages.HasSoundAges};
ghost use Rattle.hd_seg.specs.Rewriting.{Rewrites};
ghost use Rattle.hd_ages.specs.Clumps.{CoversTable};
ghost use Rattle.hd_scan.specs.Relocation.{CanRelocate, KeepsNames, Relocates, RelocatesAll, relocated};

use hd_ages::{AgeMap, DueRows};
use hd_model::{Addr, Forward, Kind, Slot, Steps};
use hd_seg::{Extra, Row, Seg, rewrite_row};
use std::sync::ledger::Ledger;

/// Gives the rows of a kind the forwarding addresses of what they reference, in the clumps that a
/// collection of generation `n` visits. Each clump is one step.
/// Out of line, since its loops are faster where their registers are their own.
#[inline(never)]
pub fn relocate<F: Forward, L: Ledger>(
    seg: &mut Seg,
    ages: &AgeMap,
    kind: Kind,
    forward: &F,
    n: u8,
    steps: &mut Steps<L>,
)
    requires laid { F.laid forward.now }
    requires kept { CanRelocate (F.kept forward.now) ages.now n kind seg.old }
    requires blocks { CoversTable ages.now seg.old }
    ensures relocates { Relocates (F.forwarding forward.now) ages.now n kind seg.old seg.new }
    ensures table { IsSameTable seg.old seg.new }
    ensures steps { steps.new ≡ steps.old + visits_of seg.old ages.now n kind }

    // Where the ages are sound, no other row of the kind references what moves.
    ensures whole { (F.basis forward.now).condemned ≡ n →
        HasSoundAges (objects_of (F.basis forward.now)) (row_at seg.old) ages.now →
        RelocatesAll (F.forwarding forward.now) kind seg.old seg.new }
{
    if kind.paired() {
        relocate_rows(seg, ages, kind, true, forward, n, steps);
    } else {
        relocate_rows(seg, ages, kind, false, forward, n, steps);
    }
}

/// The same for a kind that has extras, or has none: a loop for each, so that no row is asked.
#[inline(always)]
fn relocate_rows<F: Forward, L: Ledger>(
    seg: &mut Seg,
    ages: &AgeMap,
    kind: Kind,
    paired: bool,
    forward: &F,
    n: u8,
    steps: &mut Steps<L>,
)
    requires laid { F.laid forward.now }
    requires kept { CanRelocate (F.kept forward.now) ages.now n kind seg.old }
    requires blocks { CoversTable ages.now seg.old }
    requires paired { is_paired kind ≡ paired }
    ensures relocates { Relocates (F.forwarding forward.now) ages.now n kind seg.old seg.new }
    ensures table { IsSameTable seg.old seg.new }
    ensures steps { steps.new ≡ steps.old + visits_of seg.old ages.now n kind }
    ensures whole { (F.basis forward.now).condemned ≡ n →
        HasSoundAges (objects_of (F.basis forward.now)) (row_at seg.old) ages.now →
        RelocatesAll (F.forwarding forward.now) kind seg.old seg.new }
{
    let mut rows = DueRows::start(seg, ages, kind, n);
    while let Some(slot) = rows.next(seg, ages, steps) {
        relocate_row(seg, slot, paired, forward);
    }
}

/// Gives a row the forwarding addresses of what it references.
#[inline(always)]
fn relocate_row<F: Forward>(seg: &mut Seg, slot: Slot, paired: bool, forward: &F)
    requires live { IsSome (get seg.old.rows slot.0) }
    requires paired { is_paired (live_at seg.old slot.0).kind ≡ paired }
    requires laid { F.laid forward.now }
    requires kept { KeepsNames (F.kept forward.now) (live_at seg.old slot.0) }
    ensures { let handle = live_at seg.old slot.0 in
        Rewrites slot.0 (relocated true (F.forwarding forward.now) handle) seg.old seg.new }
{
    let row = seg.row_by(slot, paired);
    match row.extra {
        Extra::Secondary(secondary) => {
            let target = moved_name(row.target, forward);
            let extra = Extra::Secondary(moved_name(secondary, forward));
            rewrite_row(seg, slot, Row { target, extra });
        }
        Extra::Nothing | Extra::Strength(_) | Extra::Count(_) => {
            if let Some(at) = row.target {
                seg.retarget(slot, forward.moved(at));
            }
        }
    }
}

/// The forwarding address of a reference, or null.
fn moved_name<F: Forward>(name: Option<Addr>, forward: &F) -> Option<Addr>
    requires laid { F.laid forward.now }
    requires kept { ForSome name (λ x. F.kept forward.now x ≡ true) }
    ensures { result ≡ option_map (F.forwarding forward.now) name }
{
    match name {
        Some(at) => Some(forward.moved(at)),
        None => None,
    }
}
