// What callers in threads print of a host and of a load is judged.
use crate::meeting::run_status;
use crate::row::{lines, streams};
use crate::same::same;
use crate::streams::HOST;
use hd_audit::{Verdict, audit};
use hd_io::NoPace;
use hd_model::Memory;
use hd_model::limits::{BLOCKS, HEAP};
use hd_script::{Scripts, generate, parse};
use std::alloc::Global;
use std::process::Abort;
use std::sync::Wait;
use std::thread::Threads;

/// Reads a script. It has no clause, so that no test carries what `parse` promises.
pub(crate) fn read(rt: &impl Abort, alloc: Global, text: &[u8]) -> Scripts {
    assert!(rt; text.len() < 1_000_000);
    let Ok(scripts) = parse(alloc, text) else {
        panic!(rt; "no script");
    };
    scripts
}

// The script of the host.
fn host(rt: &impl Abort, alloc: Global) -> Result<Scripts, Memory> {
    let Ok(text) = lines(alloc, HOST.as_bytes()) else {
        return Err(Memory);
    };
    Ok(read(rt, alloc, &text))
}

// The script of a load. It has no clause.
fn load(alloc: Global) -> Result<Scripts, Memory> {
    generate(alloc, 16)
}

// The verdict on a text, without what it promises.
fn verdict(alloc: Global, scripts: &Scripts, text: &[u8]) -> Verdict {
    audit(alloc, scripts, text, HEAP, BLOCKS)
}

// What callers in threads print of a script is a run.
fn is_run<R>(rt: &R, alloc: Global, scripts: &Scripts) -> Result<(), Memory>
where
    R: Abort + Threads + Wait + Sync,
{
    let mut ends = streams(alloc, &[], &[], &[])?;
    same(
        rt,
        run_status(rt, alloc, scripts, true, &mut ends.sink, &NoPace),
        0,
    );
    let text = ends.sink.written().unwrap_or(&[]);
    same(rt, verdict(alloc, scripts, text), Verdict::Run);
    Ok(())
}

#[test]
fn what_callers_in_threads_print_is_a_run(rt: HostRuntime) -> Result<(), Memory> {
    let alloc = rt.alloc();
    is_run(&rt, alloc, &host(&rt, alloc)?)?;
    is_run(&rt, alloc, &load(alloc)?)
}
