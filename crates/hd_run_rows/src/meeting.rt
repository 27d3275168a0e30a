// Callers of `run` and `load` that are held until all have come.
use crate::audits::read;
use crate::row::{status, status_at, streams};
use crate::same::same;
use hd_io::{MemorySink, Pace};
use hd_model::Memory;
use hd_model::limits::{BLOCKS, HEAP};
use hd_run::run;
use hd_script::Scripts;
use std::alloc::Global;
use std::sync::Wait;
use std::sync::atomic::{AtomicU64, Ordering};
use std::thread::Threads;

// Holds each of some callers before its second command until all have come to their own.
#[derive(Drop)]
struct Meeting {
    callers: u64,
    came: AtomicU64,
    missed: AtomicU64,
}

// How often a caller looks for the others.
const TURNS: u64 = 1_000_000_000;

impl Meeting {
    fn of(callers: u64) -> Meeting {
        Meeting {
            callers,
            came: AtomicU64::new(0),
            missed: AtomicU64::new(0),
        }
    }

    // Whether all came, and none went on without the others.
    fn met(&self) -> bool {
        self.came.load(Ordering::SeqCst) == self.callers && self.missed.load(Ordering::SeqCst) == 0
    }
}

impl Pace for Meeting {
    fn at(&self, _caller: u32, step: u64) {
        if step != 2 {
            return;
        }
        self.came.fetch_add(1, Ordering::SeqCst);
        for _ in 0..TURNS {
            if self.came.load(Ordering::SeqCst) == self.callers {
                return;
            }
        }
        self.missed.store(1, Ordering::SeqCst);
    }
}

/// The status of `run`, without what it promises.
pub(crate) fn run_status<R: Threads + Wait + Sync, P: Pace>(
    rt: &R,
    alloc: Global,
    scripts: &Scripts,
    full: bool,
    sink: &mut MemorySink,
    pace: &P,
) -> u8 {
    status(run(rt, alloc, scripts, HEAP, BLOCKS, full, sink, pace))
}

#[test]
fn two_callers_meet(rt: HostRuntime) -> Result<(), Memory> {
    let alloc = rt.alloc();
    let mut ends = streams(alloc, &[], &[], &[])?;
    let scripts = read(
        &rt,
        alloc,
        b"new r0 0\nread r0\ncaller 1\nnew r0 0\nread r0\n",
    );
    let pace = Meeting::of(2);
    same(
        &rt,
        run_status(&rt, alloc, &scripts, false, &mut ends.sink, &pace),
        0,
    );
    assert!(rt; pace.met());
    Ok(())
}

static LOAD: [&str; 3] = ["load", "--rounds", "1"];

#[test]
fn the_callers_of_a_load_meet(rt: HostRuntime) -> Result<(), Memory> {
    let mut ends = streams(rt.alloc(), &[], &[], &[])?;
    let pace = Meeting::of(4);
    same(
        &rt,
        status_at(&rt, &LOAD, &mut ends.source, &mut ends.sink, &pace)?,
        0,
    );
    assert!(rt; pace.met());
    Ok(())
}
