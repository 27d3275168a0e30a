// What two runtimes print of one script, judged: one clears a weak handle when its object is
// removed, the other leaves it dangling.
use hd_audit::{Verdict, audit};
use hd_script::parse;
use std::alloc::{AllocError, Global};

// A weak handle to an object that nothing else references, and a collection.
const SCRIPT: &[u8] = b"\
new r0 0
hnew h0 short r0
drop r0
collect 0
hget r1 h0
";

// A full text: with `hnew` block 1 came into use, and the handle is in its first slot.
const CLEARED: &[u8] = b"\
0 1 obj 0.1
0 2 ok @64 +1
0 3 ok
0 4 kept 0 removed 1 short 1 long 0 dep 0 revived 0
0 5 null
end handles 1 objects 0 collections 1
";

// The handle still has its object after the collection that removed it.
const DANGLING: &[u8] = b"\
0 1 obj 0.1
0 2 ok @64 +1
0 3 ok
0 4 kept 0 removed 1 short 1 long 0 dep 0 revived 0
0 5 obj 0.1
end handles 1 objects 0 collections 1
";

// The limits of the runs: the cells of the heap and the blocks of the table.
const HEAP: u32 = 1_000;

const BLOCKS: u32 = 4;

// Prints the verdict on a text.
fn print_verdict(rt: &impl Print, name: &str, verdict: Verdict) -> anyhow::Result<()> {
    match verdict {
        Verdict::Run => println!(rt; "{name}: run yes")?,
        Verdict::NotRun { line } => println!(rt; "{name}: run no, line {line}")?,
        Verdict::Memory => return Err(AllocError.into()),
    }
    Ok(())
}

/// Judges both texts, and prints the verdicts.
pub(crate) fn run(rt: &impl Print, alloc: Global) -> anyhow::Result<()> {
    let scripts = parse(alloc, SCRIPT)?;
    for (name, text) in [("cleared", CLEARED), ("dangling", DANGLING)] {
        print_verdict(rt, name, audit(alloc, &scripts, text, HEAP, BLOCKS))?;
    }
    Ok(())
}
