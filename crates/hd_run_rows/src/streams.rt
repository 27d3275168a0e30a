// Reads and writes that fail or move few bytes, the limits of a script, and long runs.
use crate::row::{Ends, Row, SOLO, comes_to, fails, lines, status_of, streams, streams_of};
use crate::same::same;
use hd_io::{StillSink, StillSource};
use hd_model::Memory;
use std::alloc::{AllocError, Global};
use std::process::Abort;
use std::sync::Wait;
use std::thread::Threads;

/// A host that uses all kinds: a service in a static, a pinned buffer, a weak cache entry, and a
/// listener that is finalized, with data attached to it.
pub(crate) const HOST: &str =
    "# host;new r0 4;sput 0 r0;new r1 16;val r1 4096;hnew h0 pinned r1;new r2 0;set r0 0 r2;\
     hnew h1 short r2;new r3 1 fin;new r4 0;hnew h2 dep r3 r4;hnew h3 long r3;drop r0;\
     drop r1;drop r2;drop r3;drop r4;collect 0;final r5;hdep r6 h2;drop r5;drop r6;\
     sget r0 0;set r0 0 r15;collect 2;hget r7 h0;read r7;";

// What the host writes.
const HOST_TEXT: &str =
    "0 1 obj 0.1;0 2 ok;0 3 obj 0.2;0 4 ok;0 5 ok;0 6 obj 0.3;0 7 ok;0 8 ok;0 9 obj 0.4;\
     0 10 obj 0.5;0 11 ok;0 12 ok;0 13 ok;0 14 ok;0 15 ok;0 16 ok;0 17 ok;\
     0 18 kept 5 removed 0 short 0 long 0 dep 0 revived 1;0 19 obj 0.4;0 20 obj 0.5;0 21 ok;\
     0 22 ok;0 23 obj 0.1;0 24 ok;0 25 kept 2 removed 3 short 1 long 1 dep 1 revived 0;\
     0 26 obj 0.2;0 27 value 4096;end handles 4 objects 2 collections 2;";

// The host's lines, its last one among them: each is a write.
const HOST_LINES: u32 = 28;

// The room for the lines of the longest script, in bytes.
const LONG_ROOM: u32 = 2_000_000;

// The first lines of a text with `;` for a line end, or all where it has no more.
fn first_lines(text: &[u8], lines: u32) -> &[u8] {
    let mut left = lines;
    for (at, byte) in text.iter().enumerate() {
        if left == 0 {
            return &text[..at];
        }
        if *byte == b';' {
            left -= 1;
        }
    }
    text
}

// Runs the host, of which one write fails: the lines before it are written.
fn host_fails_at<R>(rt: &R, number: u32) -> Result<(), Memory>
where
    R: Abort + AllocGlobal + Threads + Wait + Sync,
{
    let mut ends = streams_of(rt.alloc(), HOST, &[], &[number])?;
    let written = first_lines(HOST_TEXT.as_bytes(), number.saturating_sub(1));
    comes_to(rt, &SOLO, &mut ends, 5, written)
}

#[test]
fn each_write_of_a_run_fails_in_turn(rt: HostRuntime) -> Result<(), Memory> {
    for number in 1..=HOST_LINES {
        host_fails_at(&rt, number)?;
    }
    Ok(())
}

// Has each read and each write move one byte.
fn move_single_bytes(ends: &mut Ends) {
    ends.source.set_most(1);
    ends.sink.set_most(1);
}

#[test]
fn a_host_runs_by_single_bytes(rt: HostRuntime) -> Result<(), Memory> {
    let mut ends = streams_of(rt.alloc(), HOST, &[], &[])?;
    move_single_bytes(&mut ends);
    comes_to(&rt, &SOLO, &mut ends, 0, HOST_TEXT.as_bytes())
}

// A row with the reads and the writes that fail.
type Failing = (Row, &'static [u32], &'static [u32]);

// Rows with the reads and the writes that fail.
static FAILING: [Failing; 7] = [
    ((&["solo"], HOST, 4, "fault read;"), &[1], &[]),
    (
        (
            &["solo"],
            "new r0 2;hnew h0 strong r0;drop r0;collect 2;hget r1 h0;",
            4,
            "fault read;",
        ),
        &[2],
        &[],
    ),
    ((&["solo"], "", 5, ""), &[], &[1]),
    (
        (&["solo"], "new r0 0;hnew h0 strong r0;hgett r0 h0;", 5, ""),
        &[],
        &[1],
    ),
    (
        (
            &["roots"],
            "new r0 0;hnew h0 strong r0;",
            5,
            "0 1 obj 0.1;0 2 ok;end handles 1 objects 1 collections 0;",
        ),
        &[],
        &[4],
    ),
    ((&["audit"], "=;", 4, "fault read;"), &[1], &[]),
    ((&["audit"], "=;", 5, ""), &[], &[1]),
];

// Does rows in which streams fail.
fn fail_all<R>(rt: &R, rows: &[Failing]) -> Result<(), Memory>
where
    R: Abort + AllocGlobal + Threads + Wait + Sync,
{
    for row in rows {
        let (row, unread, unwritten) = *row;
        fails(rt, row, unread, unwritten)?;
    }
    Ok(())
}

#[test]
fn reads_and_writes_fail(rt: HostRuntime) -> Result<(), Memory> {
    fail_all(&rt, &FAILING)
}

// What is written has this number of bytes, and this end.
fn ends_so(rt: &impl Abort, written: Option<&[u8]>, bytes: usize, end: &[u8]) {
    let written = written.unwrap_or(&[]);
    same(rt, written.len(), bytes);
    assert!(rt; written.ends_with(end));
}

// Ends that never fail.
struct StillEnds {
    source: StillSource,
    sink: StillSink,
}

impl Drop for StillEnds {
    fn drop(self) {
        let StillEnds {
            source: _source,
            sink: _sink,
        } = self;
    }
}

fn still_ends(alloc: Global, input: &[u8]) -> Result<StillEnds, Memory> {
    let source = StillSource::open(alloc, input)?;
    let sink = StillSink::open(alloc, LONG_ROOM)?;
    Ok(StillEnds { source, sink })
}

// Runs a script over ends that never fail: the status, how many bytes are written, and their end.
fn is_still<R>(
    rt: &R,
    words: &[&str],
    input: &[u8],
    status: u8,
    came: (usize, &[u8]),
) -> Result<(), Memory>
where
    R: Abort + AllocGlobal + Threads + Wait + Sync,
{
    let mut ends = still_ends(rt.alloc(), input)?;
    same(
        rt,
        status_of(rt, words, &mut ends.source, &mut ends.sink)?,
        status,
    );
    ends_so(rt, ends.sink.written(), came.0, came.1);
    Ok(())
}

// The host's bytes, and those that it writes.
fn host(alloc: Global) -> Result<(Vec<u8>, Vec<u8>), AllocError> {
    let input = lines(alloc, HOST.as_bytes())?;
    Ok((input, lines(alloc, HOST_TEXT.as_bytes())?))
}

#[test]
fn a_host_runs_over_ends_that_never_fail(rt: HostRuntime) -> Result<(), Memory> {
    let Ok((input, text)) = host(rt.alloc()) else {
        return Err(Memory);
    };
    is_still(&rt, &SOLO, &input, 0, (text.len(), &text))
}

// The end of a run that leaves nothing.
const NOTHING: &str = "end handles 0 objects 0 collections 0\n";

// A script of a piece again and again: words, the piece, how often, the status, how many bytes are
// written, and their end.
type Long = (
    &'static [&'static str],
    &'static str,
    usize,
    u8,
    usize,
    &'static str,
);

static RUN: [&str; 1] = ["run"];

// Commands of two callers.
const PAIR: &str = "caller 0\nhnew h0 strong r0\nhfree h0\ncaller 1\nhnew h0 strong r0\nhfree h0\n";

// Lines are numbered, so 100,000 of them have 1,088,895 bytes, and 64 have 503; those of two callers
// up to 2,000 each have 18,893.
static LONG: [Long; 6] = [
    (&["solo"], "drop r0\n", 100_000, 0, 1_088_933, NOTHING),
    (
        &["solo"],
        "drop r0\n",
        100_001,
        3,
        18,
        "fault line 100001\n",
    ),
    (&["solo"], "#", 8_388_608, 0, 38, NOTHING),
    (&["solo"], "#", 8_388_609, 3, 11, "fault size\n"),
    (
        &["solo", "--blocks", "1"],
        "hnew h0 strong r0\n",
        65,
        0,
        559,
        "0 65 tablefull 1\nend handles 64 objects 0 collections 0\n",
    ),
    (&["run"], PAIR, 1_000, 0, 37_824, NOTHING),
];

// Does a long script.
fn is_long<R>(rt: &R, long: Long) -> Result<(), Memory>
where
    R: Abort + AllocGlobal + Threads + Wait + Sync,
{
    let (words, piece, times, status, bytes, end) = long;
    let Ok(input) = piece.as_bytes().repeat(rt.alloc(), times) else {
        return Err(Memory);
    };
    is_still(rt, words, &input, status, (bytes, end.as_bytes()))
}

fn are_long<R>(rt: &R, all: &[Long]) -> Result<(), Memory>
where
    R: Abort + AllocGlobal + Threads + Wait + Sync,
{
    for long in all {
        is_long(rt, *long)?;
    }
    Ok(())
}

#[test]
fn the_largest_scripts_are_run(rt: HostRuntime) -> Result<(), Memory> {
    are_long(&rt, &LONG)
}

// Two callers run, and the second line is not written: the first one is that of either.
#[test]
fn a_write_fails_after_two_callers_ran(rt: HostRuntime) -> Result<(), Memory> {
    let mut ends = streams(rt.alloc(), PAIR.as_bytes(), &[], &[2])?;
    same(
        &rt,
        status_of(&rt, &RUN, &mut ends.source, &mut ends.sink)?,
        5,
    );
    ends_so(&rt, ends.sink.written(), 7, b" 1 ok\n");
    Ok(())
}
