// Two ends of a counter, each in a thread of its own, add to it at their turns, and nobody waits. It
// prints whether the last sum is how often they added.
ghost use Rattle.std.specs.Prelude.{◌≡◌, false};

use hd_turns::{End, Turn};
use std::alloc::{AllocError, Global};
use std::io;
use std::thread::{Threads, join};

// What is counted.
#[derive(Drop)]
struct Counter {
    value: u64,
}

impl Turn for Counter {
    ghost use Rattle.std.specs.Prelude.{◌≡◌, ◌+◌, ◌%◌, ◌^◌};

    ghost turn = { λ number was now. now.value ≡ (was.value + 1) % 2 ^ 64 };
}

// Adds one at the end's turn. Where others had theirs it is none, and nothing was done.
fn add(end: &mut End<Counter>) -> Option<u64>
    requires { end.old.view.has_gate ≡ false }
    ensures { end.new.view.has_gate ≡ false }
{
    if !end.try_enter() {
        return None;
    }
    let counter = end.value();
    counter.value = counter.value.wrapping_add(1);
    let value = counter.value;
    end.leave();
    Some(value)
}

// One end, for many rounds: how often it added, and the last sum.
fn count(mut end: End<Counter>) -> (u64, u64)
    requires { end.view.has_gate ≡ false }
{
    let mut times = 0u64;
    let mut last = 0;
    for _round in 0..1000 {
        if let Some(sum) = add(&mut end) {
            times = times.wrapping_add(1);
            last = sum;
        }
    }
    (times, last)
}

/// Opens the counter, and has both ends add.
pub(crate) fn run<R: Print + Threads + Sync>(rt: &R, alloc: Global) -> io::Result<()> {
    let mut ends = End::open(alloc, Counter { value: 0 }, 2)?;
    let (Some(second), Some(first)) = (ends.pop(), ends.pop()) else {
        unreachable!()
    };
    let (one, other) = join(
        rt,
        || -> (u64, u64) { count(first) },
        || -> (u64, u64) { count(second) },
    );
    let sums = one.0.wrapping_add(other.0) == one.1.max(other.1);
    println!(rt; "the last sum is the number of turns: {sums}")
}
