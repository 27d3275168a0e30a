//! Eight small programs over single crates, one after another: what each of them shows is said at
//! the head of its module, and the pages of those crates quote them.
#![tactic(auto)]

mod audit;
mod custody;
mod cwt;
mod heap;
mod host;
mod script;
mod seg;
mod turns;

use anyhow::Result;
use hd_io::StdSink;

fn main(rt: HostRuntime) -> Result<()> {
    heap::run(&rt, rt.alloc())?;
    seg::run(&rt, rt.alloc())?;
    cwt::run(&rt, rt.alloc())?;
    host::run(&rt, rt.alloc())?;
    custody::run(&rt, rt.alloc())?;
    turns::run(&rt, rt.alloc())?;
    script::run(rt.alloc(), &mut StdSink::over(rt.stdout()))?;
    audit::run(&rt, rt.alloc())
}
