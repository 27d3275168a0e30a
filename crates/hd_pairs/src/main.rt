//! `hd_pairs T N B`: T callers over a table of 256 blocks each allocate and release a slot N times,
//! in batches of B. It prints how many pairs of these they made.
#![tactic(auto)]

ghost use Rattle.std.specs.Prelude.{◌≡◌, ◌<◌, ◌≤◌, false, IfOk};

mod pages;

use crate::pages::Pages;
use hd_custody::{Custody, Seat};
use hd_model::limits::BLOCKS;
use hd_model::{Grown, Kind, Memory};
use std::alloc::Global;
use std::env;
use std::process::ExitCode;
use std::sync::Wait;
use std::thread::{Threads, join};

// How many batches each caller takes, and how many slots a batch has.
#[derive(Clone, Copy)]
struct Plan {
    rounds: u32,
    batch: u32,
}

// Takes up to `n` slots, one after the other, and gives all of them back: how many they were.
fn hold(custody: &Custody<Pages>, seat: &mut Seat<Pages>, n: u32) -> u32
    requires { seat.old.table ≡ custody.now.table }
    ensures table { seat.new.table ≡ seat.old.table }
    ensures held { seat.new.view.held ≡ seat.old.view.held }
{
    if n == 0 {
        return 0;
    }
    let Some(slot) = custody.allocate(seat, Kind::Strong) else {
        return 0;
    };
    let more = hold(custody, seat, n - 1);
    custody.release(seat, Kind::Strong, slot);
    more.saturating_add(1)
}

fn churn(custody: &Custody<Pages>, mut seat: Seat<Pages>, plan: Plan) -> u64
    requires { seat.table ≡ custody.now.table }
{
    let mut made = 0u64;
    for _round in 0..plan.rounds {
        let pairs = hold(custody, &mut seat, plan.batch);
        made = made.saturating_add(pairs as u64);
    }
    made
}

// The given number of further callers do so, each in a thread of its own.
fn churn_all<R: Threads + Sync>(
    rt: &R,
    custody: &Custody<Pages>,
    mut first: Seat<Pages>,
    plan: Plan,
    more: u32,
) -> u64
    requires { (first.table ≡ custody.now.table) × (first.view.number ≡ 0) }
{
    if more == 0 {
        return churn(custody, first, plan);
    }
    let other = custody.split(&mut first, 0);
    let (rest, own) = join(
        rt,
        || -> u64
            requires { (first.table ≡ custody.now.table) × (first.view.number ≡ 0) × (0 < more) }
        { churn_all(rt, custody, first, plan, more - 1) },
        || -> u64
            requires { other.table ≡ custody.now.table }
        { churn(custody, other, plan) },
    );
    rest.saturating_add(own)
}

// Gives the next block strong handles, if one is left. Its row 0 stays held.
fn add<R: Wait>(rt: &R, custody: &Custody<Pages>, seat: &mut Seat<Pages>)
    requires seat { (seat.old.table ≡ custody.now.table) × (seat.old.view.has_gate ≡ false) }
    requires blocks { custody.now.blocks ≡ 256 }
    ensures seat { (seat.new.table ≡ seat.old.table) × (seat.new.view.has_gate ≡ false)
        × (seat.new.view.number ≡ seat.old.view.number) }
{
    let world = custody.enter(rt, seat);
    if world.granted >= BLOCKS {
        custody.leave(seat, world);
        return;
    }
    let block = world.granted + 1;
    if world.kind_word(block) != 0 {
        custody.leave(seat, world);
        return;
    }
    custody.grant(seat, Kind::Strong, Grown::One(block));
    custody.leave(seat, world.with_next());
}

fn add_all<R: Wait>(rt: &R, custody: &Custody<Pages>, mut seat: Seat<Pages>) -> Seat<Pages>
    requires seat { (seat.table ≡ custody.now.table) × (seat.view.has_gate ≡ false) }
    requires blocks { custody.now.blocks ≡ 256 }
    ensures { (result.table ≡ seat.table) × (result.view.number ≡ seat.view.number) }
{
    for _block in 0..BLOCKS {
        add(rt, custody, &mut seat);
    }
    seat
}

fn open(alloc: Global) -> Result<(Custody<Pages>, Seat<Pages>), Memory>
    ensures { IfOk result (λ r. (r.1.table ≡ r.0.table) × (r.0.blocks ≡ 256)
        × (r.1.view.number ≡ 0) × (r.1.view.has_gate ≡ false)) }
{
    Custody::open(alloc, BLOCKS, Pages { granted: 0 })
}

fn pairs<R: Threads + Wait + Sync>(
    rt: &R,
    alloc: Global,
    callers: u32,
    plan: Plan,
) -> Result<u64, Memory> {
    let (custody, seat) = open(alloc)?;
    let seat = add_all(rt, &custody, seat);
    Ok(churn_all(rt, &custody, seat, plan, callers.saturating_sub(1)))
}

fn number(words: &[String], index: usize) -> Option<u32> {
    words.get(index)?.parse::<u32>().ok()
}

fn main(rt: HostRuntime) -> ExitCode {
    let words: Vec<String> = match env::args(&rt) {
        Ok(args) => match args.collect(rt.alloc()) {
            Ok(words) => words,
            Err(_) => return ExitCode::from(6),
        },
        Err(_) => Vec::new(rt.alloc()),
    };
    let (Some(callers), Some(times), Some(batch)) = (
        number(&words, 1),
        number(&words, 2),
        number(&words, 3),
    ) else {
        return ExitCode::from(2);
    };
    if callers == 0 || callers > 64 || batch == 0 || batch > 256 {
        return ExitCode::from(2);
    }
    let plan = Plan {
        rounds: times / batch,
        batch,
    };
    match pairs(&rt, rt.alloc(), callers, plan) {
        Ok(made) => match println!(rt; "{made}") {
            Ok(()) => ExitCode::from(0),
            Err(_) => ExitCode::from(5),
        },
        Err(Memory) => ExitCode::from(6),
    }
}
