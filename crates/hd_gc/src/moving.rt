// The update of references to what moves.
ghost use Rattle.std.specs.Prelude.{◌≡◌, ◌+◌, ◌*◌, ◌≤◌, true, Some, length, map, option_map, Contains};
ghost use Rattle.std.specs.Option.{ForSome};
ghost use Rattle.hd_model.specs.{Table.row_at, Kinds.all_kinds, Visits.IsSameTable, Visits.visits_over};
ghost use Rattle.hd_plan.specs.Plan.{IsLaid, kept_in, forwarding_in};
ghost use Rattle.hd_gc.specs.Inside.{NamesKept, IsRenamed, WereKept, MovesOn};

use crate::roots::skip_null;
use hd_ages::AgeMap;
use hd_model::limits::CLUMPS;
use hd_model::{Addr, Forward, Kind, Steps};
use hd_plan::Plan;
use hd_scan::relocate;
use hd_seg::Seg;
use std::sync::ledger::Ledger;

/// Gives the rows of every kind the new addresses, in the clumps that are visited.
pub(crate) fn relocate_rows<L: Ledger>(
    seg: &mut Seg,
    ages: &AgeMap,
    plan: &Plan,
    n: u8,
    steps: &mut Steps<L>,
)
    requires laid { IsLaid plan.now }
    requires names { NamesKept (kept_in plan.now) (row_at seg.old) }
    requires clumps { length ages.now ≡ CLUMPS * seg.old.blocks }
    ensures rows { IsRenamed ages.now n (forwarding_in plan.now) (row_at seg.old) (row_at seg.new) }
    ensures table { IsSameTable seg.old seg.new }
    ensures steps { steps.new ≡ steps.old + visits_over seg.old ages.now n all_kinds }
{
    for kind in Kind::ALL {
        relocate(seg, ages, kind, plan, n, steps);
    }
}

// The new address of what a reference names, or null.
fn moved(root: Option<Addr>, plan: &Plan) -> Option<Addr>
    requires laid { IsLaid plan.now }
    requires kept { ForSome root (λ x. kept_in plan.now x ≡ true) }
    ensures { result ≡ option_map (forwarding_in plan.now) root }
{
    match root {
        Some(at) => Some(plan.moved(at)),
        None => None,
    }
}

// Gives the roots from one on and before another the new addresses, where those before them have
// theirs.
#[inline(always)]
fn relocate_between(roots: &mut [Option<Addr>], from: usize, to: usize, plan: &Plan)
    requires laid { IsLaid plan.now }
    requires order { from ≤ to }
    requires within { to ≤ length roots.old }
    requires kept { WereKept plan.now from roots.old }
    ensures { MovesOn plan.now from to roots.old roots.new }
{
    for i in from..to {
        roots[i] = moved(roots[i], plan);
    }
}

/// Gives the roots the new addresses. Null ones are passed four at once.
pub(crate) fn relocate_roots(roots: &mut [Option<Addr>], plan: &Plan)
    requires laid { IsLaid plan.now }
    requires kept { (x : Addr) → Contains roots.old (Some x) → kept_in plan.now x ≡ true }
    ensures { roots.new ≡ map (option_map (forwarding_in plan.now)) roots.old }
{
    let mut at = skip_null(roots, 0);
    while roots.len() - at >= 4 {
        relocate_between(roots, at, at + 4, plan);
        at = skip_null(roots, at + 4);
    }
    relocate_between(roots, at, roots.len(), plan);
}
