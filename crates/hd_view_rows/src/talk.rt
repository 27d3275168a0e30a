// Dialogues over streams in memory.
use hd_io::{MemorySink, MemorySource};
use hd_model::Memory;
use hd_talk::talk;
use std::alloc::Global;
use std::process::Abort;

// The room of a sink.
const ROOM: u32 = 4096;

// Lines, the numbers of the reads and writes that fail, from 1, and what the dialogue comes to.
#[derive(Clone, Copy)]
struct Case {
    lines: &'static str,
    unread: &'static [u32],
    unwritten: &'static [u32],
    is_prompting: bool,
    status: u8,
    text: &'static str,
    errors: &'static str,
}

const CASES: [Case; 4] = [
    Case {
        lines: "new r0 1\nhnew h3 strong r0\nslot 64\n# none\ncaller 4\nhneww h0 strong r0\nslot x\n\
            path 0.1\nread r1",
        unread: &[],
        unwritten: &[],
        is_prompting: false,
        status: 3,
        text: "0 1 obj 0.1\n0 2 ok\nslot 64 kind strong target obj 0.1 age 0\n\
            \x20 caller 0 h3\npath 0.1 edges 0\n  slot 64 strong -> 0.1\n\
            4 1 nullref\nend handles 1 objects 1 collections 0\n",
        errors: "line 6, column 1: no command \"hneww\"; did you mean hnew?\n\
            line 7: slot: the operand is no slot, as 70\n",
    },
    Case {
        lines: "\ngen r0\n",
        unread: &[],
        unwritten: &[],
        is_prompting: true,
        status: 0,
        text: "0 1 nullref\nend handles 0 objects 0 collections 0\n",
        errors: "hdv> hdv> hdv> ",
    },
    Case {
        lines: "gen r0\ngen r0\n",
        unread: &[2],
        unwritten: &[],
        is_prompting: false,
        status: 4,
        text: "0 1 nullref\n",
        errors: "a read failed\n",
    },
    Case {
        lines: "gen r0\ngen r0\n",
        unread: &[],
        unwritten: &[2],
        is_prompting: false,
        status: 5,
        text: "0 1 nullref\n",
        errors: "a write failed\n",
    },
];

// The streams of a case: its lines, where to write, and where to say why. A read gives at most
// seven bytes.
fn open(alloc: Global, case: &Case) -> Result<(MemorySource, MemorySink, MemorySink), Memory> {
    let mut source = MemorySource::open(alloc, case.lines.as_bytes(), case.unread)?;
    source.set_most(7);
    let out = MemorySink::open(alloc, ROOM, case.unwritten)?;
    let errors = MemorySink::open(alloc, ROOM, &[])?;
    Ok((source, out, errors))
}

// Calls `talk`. It has no clause, so that no test carries what `talk` promises.
fn status_of(
    alloc: Global,
    source: &mut MemorySource,
    out: &mut MemorySink,
    errors: &mut MemorySink,
    is_prompting: bool,
) -> u8 {
    talk(alloc, 1000, 8, source, out, errors, is_prompting)
}

// Whether a sink has this text.
fn has(sink: &MemorySink, text: &str) -> bool {
    match sink.written() {
        Some(bytes) => bytes == text.as_bytes(),
        None => text.is_empty(),
    }
}

// Has the dialogue of a case.
fn does(rt: &impl Abort, alloc: Global, case: &Case) -> Result<(), Memory> {
    let (mut source, mut out, mut errors) = open(alloc, case)?;
    let status = status_of(alloc, &mut source, &mut out, &mut errors, case.is_prompting);
    assert!(rt; status == case.status, "{}", case.lines);
    assert!(rt; has(&out, case.text), "{}", case.lines);
    assert!(rt; has(&errors, case.errors), "{}", case.lines);
    Ok(())
}

// Has some dialogues.
fn do_all(rt: &impl Abort, alloc: Global, cases: &[Case]) -> Result<(), Memory> {
    for case in cases {
        does(rt, alloc, case)?;
    }
    Ok(())
}

#[test]
fn lines_are_done_as_they_come(rt: HostRuntime) -> Result<(), Memory> {
    do_all(&rt, rt.alloc(), &CASES)
}
