// Callers who leave the gate to others that look or sleep.
ghost use Rattle.std.specs.Prelude.{◌≡◌, ◌<◌, ◌≤◌, false};

use crate::blocks::{Blocks, open};
use hd_custody::{Custody, Seat};
use hd_model::Memory;
use std::hint::spin_loop;
use std::sync::Wait;
use std::sync::atomic::{AtomicU32, Ordering};
use std::thread::{Threads, join, yield_now};

// How often the gate changes hands in one test.
const TURNS: u32 = 10_000;

// How often a caller looks at the gate before it sleeps.
const LOOKS: u32 = 4000;

// Keeps the gate about as long as a caller looks that has no patience, some or twice as much, up to
// an eighth of its looks with a short pause less or more: so it leaves while others fall asleep.
fn keep(turns: &AtomicU32, turn: u32) {
    let jitter = (turn.wrapping_mul(2_654_435_761) >> 16) % (LOOKS / 4);
    let looks = LOOKS * (1 + turn % 3 * 2) - LOOKS / 8 + jitter;
    for _look in 0..looks {
        turns.load(Ordering::SeqCst);
        spin_loop();
    }
}

// Waits until another caller came in.
fn stay_away<R: Wait>(rt: &R, turns: &AtomicU32, seen: u32) {
    for _look in rt.forever() {
        if turns.load(Ordering::SeqCst) != seen {
            return;
        }
        yield_now();
    }
}

// Takes the gate, keeps it for a while and leaves it: how often the gate was taken so before.
fn take_turn<R: Wait>(
    rt: &R,
    custody: &Custody<Blocks>,
    seat: &mut Seat<Blocks>,
    turns: &AtomicU32,
) -> u32
    requires { (seat.old.table ≡ custody.now.table) × (seat.old.view.has_gate ≡ false) }
    ensures seat { (seat.new.table ≡ seat.old.table) × (seat.new.view.has_gate ≡ false) }
{
    let world = custody.enter(rt, seat);
    let turn = turns.fetch_add(1, Ordering::SeqCst);
    keep(turns, turn);
    custody.leave(seat, world);
    turn
}

// One caller, until no turn is left.
fn take_turns<R: Wait>(rt: &R, custody: &Custody<Blocks>, mut seat: Seat<Blocks>, turns: &AtomicU32)
    requires { (seat.table ≡ custody.now.table) × (seat.view.has_gate ≡ false) }
{
    for _turn in rt.forever() {
        let turn = take_turn(rt, custody, &mut seat, turns);
        if turn >= TURNS - 1 {
            return;
        }
        stay_away(rt, turns, turn + 1);
    }
}

// The given number of further callers do so in threads of their own, with the first.
fn all_take_turns<R: Threads + Wait + Sync>(
    rt: &R,
    custody: &Custody<Blocks>,
    mut first: Seat<Blocks>,
    turns: &AtomicU32,
    more: u32,
)
    requires { (first.table ≡ custody.now.table) × (first.view.number ≡ 0)
        × (first.view.has_gate ≡ false) }
{
    if more == 0 {
        take_turns(rt, custody, first, turns);
        return;
    }
    let other = custody.split(&mut first, 0);
    join(
        rt,
        || -> ()
            requires { (first.table ≡ custody.now.table) × (first.view.number ≡ 0)
                × (first.view.has_gate ≡ false) × (0 < more) }
        { all_take_turns(rt, custody, first, turns, more - 1) },
        || -> ()
            requires { (other.table ≡ custody.now.table) × (other.view.has_gate ≡ false) }
        { take_turns(rt, custody, other, turns) },
    );
}

// Callers leave the gate to others who look or sleep, and all come to their ends. Where a wake is
// lost, the one who stays away and those who sleep wait for ever.
fn all_end<R: Threads + Wait + Sync + AllocGlobal>(rt: &R, callers: u32) -> Result<(), Memory>
    requires { 2 ≤ callers }
{
    let (custody, seat) = open(rt.alloc(), 1)?;
    let turns = AtomicU32::new(0);
    all_take_turns(rt, &custody, seat, &turns, callers - 1);
    Ok(())
}

#[test]
fn three_callers_wake_each_other(rt: HostRuntime) -> Result<(), Memory> {
    all_end(&rt, 3)
}

#[test]
fn sixteen_callers_wake_each_other(rt: HostRuntime) -> Result<(), Memory> {
    all_end(&rt, 16)
}
