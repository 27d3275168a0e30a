// Two callers in threads take slots of strong handles and give them back, without a lock. It prints
// how many slots could be taken before and after that: none is lost.
ghost use Rattle.std.specs.Prelude.{◌≡◌, false, IfOk};

mod callers;
mod one_block;

use crate::custody::callers::{churn_both, hold};
use crate::custody::one_block::OneBlock;
use hd_custody::{Custody, Seat};
use hd_model::{Grown, Kind, Memory};
use std::alloc::{AllocError, Global};
use std::io;
use std::sync::Wait;
use std::thread::Threads;

fn open(alloc: Global) -> Result<(Custody<OneBlock>, Seat<OneBlock>), Memory>
    ensures { IfOk result (λ r. (r.1.table ≡ r.0.table) × (r.0.blocks ≡ 1)
        × (r.1.view.number ≡ 0) × (r.1.view.has_gate ≡ false)) }
{
    Custody::open(alloc, 1, OneBlock { word: 0 })
}

// Gives block 1 strong handles, at the gate, if it has no kind. Its row 0 stays held.
fn grant<R: Wait>(rt: &R, custody: &Custody<OneBlock>, seat: &mut Seat<OneBlock>)
    requires seat { (seat.old.table ≡ custody.now.table) × (seat.old.view.has_gate ≡ false) }
    requires blocks { custody.now.blocks ≡ 1 }
    ensures seat { (seat.new.table ≡ seat.old.table) × (seat.new.view.has_gate ≡ false)
        × (seat.new.view.number ≡ seat.old.view.number) }
{
    let world = custody.enter(rt, seat);
    if world.kind_word() != 0 {
        custody.leave(seat, world);
        return;
    }
    custody.grant(seat, Kind::Strong, Grown::One(1));
    custody.leave(seat, world.with_strong());
}

// How many slots could be taken before and after both callers ran.
struct Counts {
    before: u32,
    after: u32,
}

// Counts the slots, has both callers run, and counts them again.
fn count<R: Threads + Wait + Sync>(rt: &R, alloc: Global) -> Result<Counts, Memory> {
    let (custody, mut first) = open(alloc)?;
    let second = custody.split(&mut first, 0);
    grant(rt, &custody, &mut first);
    let before = hold(&custody, &mut first, 64);
    let mut first = churn_both(rt, &custody, first, second);
    let after = hold(&custody, &mut first, 64);
    Ok(Counts { before, after })
}

/// Prints how many slots there were before and after both callers ran.
pub(crate) fn run<R: Print + Threads + Wait + Sync>(rt: &R, alloc: Global) -> io::Result<()> {
    let Ok(Counts { before, after }) = count(rt, alloc) else {
        return Err(AllocError.into());
    };
    println!(rt; "{before} slots of strong handles")?;
    println!(rt; "{after} after two callers took and gave back 8 at a time")
}
