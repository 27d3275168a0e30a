// Runs of the program over memory. None of these helpers has a clause, so that no test carries what
// the calls promise. Each returns `Memory`, since a `?` that makes another error of it is dear.
use crate::same::same;
use hd_io::{MemorySink, MemorySource, NoPace, Pace, Sink, Source};
use hd_model::Memory;
use hd_run::{Outcome, top};
use std::alloc::{AllocError, Global};
use std::process::Abort;
use std::sync::Wait;
use std::thread::Threads;

/// A run: the words after the program's name, the script and all that is written, each with `;` for
/// a line end, and the status.
pub(crate) type Row = (&'static [&'static str], &'static str, u8, &'static str);

/// The words of a run by one thread. A table with references is a static, since a constant is made
/// again, and proved, wherever it is named.
pub(crate) static SOLO: [&str; 1] = ["solo"];

/// Where a run reads and writes. What it has is dropped by one call, wherever a test ends.
pub(crate) struct Ends {
    pub(crate) source: MemorySource,
    pub(crate) sink: MemorySink,
}

impl Drop for Ends {
    fn drop(self) {
        let Ends {
            source: _source,
            sink: _sink,
        } = self;
    }
}

/// The room for what is written, in bytes.
pub(crate) const ROOM: u32 = 65_536;

/// The bytes of a text, with a line end in place of each `;`.
pub(crate) fn lines(alloc: Global, text: &[u8]) -> Result<Vec<u8>, AllocError> {
    let mut bytes = text.to_vec(alloc)?;
    for byte in &mut bytes {
        if *byte == b';' {
            *byte = b'\n';
        }
    }
    Ok(bytes)
}

// The words of a command line, the program's name first.
fn words_of(alloc: Global, words: &[&str]) -> Result<Vec<String>, AllocError> {
    let mut all = Vec::new(alloc);
    all.push(String::from_str(alloc, "hdt")?)?;
    for word in words {
        all.push(String::from_str(alloc, word)?)?;
    }
    Ok(all)
}

/// The status of a run. What the run keeps is dropped here alone.
pub(crate) fn status(outcome: Outcome) -> u8 {
    outcome.status
}

/// Runs the program at a pace, and returns its status.
pub(crate) fn status_at<R, S, K, P>(
    rt: &R,
    words: &[&str],
    source: &mut S,
    sink: &mut K,
    pace: &P,
) -> Result<u8, Memory>
where
    R: AllocGlobal + Threads + Wait + Sync,
    S: Source,
    K: Sink,
    P: Pace,
{
    let Ok(words) = words_of(rt.alloc(), words) else {
        return Err(Memory);
    };
    Ok(status(top(rt, rt.alloc(), &words, source, sink, pace)))
}

/// Runs the program, and returns its status.
pub(crate) fn status_of<R, S, K>(
    rt: &R,
    words: &[&str],
    source: &mut S,
    sink: &mut K,
) -> Result<u8, Memory>
where
    R: AllocGlobal + Threads + Wait + Sync,
    S: Source,
    K: Sink,
{
    status_at(rt, words, source, sink, &NoPace)
}

/// A source and a sink in memory, whose reads and writes of these numbers fail.
pub(crate) fn streams(
    alloc: Global,
    input: &[u8],
    unread: &[u32],
    unwritten: &[u32],
) -> Result<Ends, Memory> {
    let source = MemorySource::open(alloc, input, unread)?;
    let sink = MemorySink::open(alloc, ROOM, unwritten)?;
    Ok(Ends { source, sink })
}

/// The same for a script with `;` for a line end.
pub(crate) fn streams_of(
    alloc: Global,
    script: &str,
    unread: &[u32],
    unwritten: &[u32],
) -> Result<Ends, Memory> {
    let Ok(input) = lines(alloc, script.as_bytes()) else {
        return Err(Memory);
    };
    streams(alloc, &input, unread, unwritten)
}

// A sink has this text, which has `;` for a line end.
fn has_text<R: Abort + AllocGlobal>(rt: &R, sink: &MemorySink, text: &[u8]) -> Result<(), Memory> {
    let Ok(text) = lines(rt.alloc(), text) else {
        return Err(Memory);
    };
    same(rt, sink.written(), Some(text.as_slice()));
    Ok(())
}

/// Runs the program over a source and a sink: its status and what it writes must be these.
pub(crate) fn comes_to<R>(
    rt: &R,
    words: &[&str],
    ends: &mut Ends,
    status: u8,
    text: &[u8],
) -> Result<(), Memory>
where
    R: Abort + AllocGlobal + Threads + Wait + Sync,
{
    same(
        rt,
        status_of(rt, words, &mut ends.source, &mut ends.sink)?,
        status,
    );
    has_text(rt, &ends.sink, text)
}

/// Does a row, where reads and writes of these numbers fail.
pub(crate) fn fails<R>(rt: &R, row: Row, unread: &[u32], unwritten: &[u32]) -> Result<(), Memory>
where
    R: Abort + AllocGlobal + Threads + Wait + Sync,
{
    let (words, script, status, text) = row;
    let mut ends = streams_of(rt.alloc(), script, unread, unwritten)?;
    comes_to(rt, words, &mut ends, status, text.as_bytes())
}
