// What the callers do with slots, without the gate.
ghost use Rattle.std.specs.Prelude.{◌≡◌, false, []};

use crate::custody::one_block::OneBlock;
use hd_custody::{Custody, Seat};
use hd_model::Kind;
use std::thread::{Threads, join};

/// Takes up to `n` slots, one after the other, and gives all of them back: how many they were.
pub(crate) fn hold(custody: &Custody<OneBlock>, seat: &mut Seat<OneBlock>, n: u32) -> u32
    requires { seat.old.table ≡ custody.now.table }
    ensures seat { (seat.new.table ≡ seat.old.table)
        × (seat.new.view.has_gate ≡ seat.old.view.has_gate)
        × (seat.new.view.number ≡ seat.old.view.number) }
    ensures held { seat.new.view.held ≡ seat.old.view.held }
{
    if n == 0 {
        return 0;
    }
    let Some(slot) = custody.allocate(seat, Kind::Strong) else {
        return 0;
    };
    let more = hold(custody, seat, n - 1);
    custody.release(seat, Kind::Strong, slot);
    more.saturating_add(1)
}

// One caller, for many rounds.
fn churn(custody: &Custody<OneBlock>, mut seat: Seat<OneBlock>) -> Seat<OneBlock>
    requires { seat.table ≡ custody.now.table }
    ensures seat { (result.table ≡ seat.table) × (result.view.has_gate ≡ seat.view.has_gate)
        × (result.view.number ≡ seat.view.number) }
    ensures held { result.view.held ≡ seat.view.held }
{
    for _round in 0..100 {
        hold(custody, &mut seat, 8);
    }
    seat
}

/// Both callers at once, each in a thread of its own. The second one's seat ends.
pub(crate) fn churn_both<R: Threads + Sync>(
    rt: &R,
    custody: &Custody<OneBlock>,
    first: Seat<OneBlock>,
    second: Seat<OneBlock>,
) -> Seat<OneBlock>
    requires first { (first.table ≡ custody.now.table) × (first.view.number ≡ 0) }
    requires second { (second.table ≡ custody.now.table) × (second.view.has_gate ≡ false)
        × (second.view.held ≡ []) }
    ensures { result.table ≡ custody.now.table }
{
    let (mut first, second) = join(
        rt,
        || -> Seat<OneBlock>
            requires { first.table ≡ custody.now.table }
            ensures { (result.table ≡ first.table) × (result.view.number ≡ first.view.number) }
        { churn(custody, first) },
        || -> Seat<OneBlock>
            requires { second.table ≡ custody.now.table }
            ensures { (result.table ≡ second.table) × (result.view.held ≡ second.view.held)
                × (result.view.has_gate ≡ second.view.has_gate) }
        { churn(custody, second) },
    );
    custody.join(&mut first, second);
    first
}
