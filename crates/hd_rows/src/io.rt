// Calls of readers and writers that fail, of which no clause says how many there are.
use crate::same::{same, same_at};
use hd_io::{
    Failed, MemorySink, MemorySource, ReadFault, Sink, Source, StdSink, StdSource, read_all,
    write_all,
};
use std::alloc::Global;
use std::io;
use std::io::{Read, Write};
use std::process::Abort;
use std::test::Fail;

// Some bytes in memory, of which the reads and writes of these numbers fail. None of these helpers
// has a clause, so that no test carries what the calls promise.
fn source_of(alloc: Global, bytes: &[u8], fails: &[u32]) -> Result<MemorySource, Fail> {
    Ok(MemorySource::open(alloc, bytes, fails)?)
}

fn sink_of(alloc: Global, room: u32, fails: &[u32]) -> Result<MemorySink, Fail> {
    Ok(MemorySink::open(alloc, room, fails)?)
}

// Reads into four bytes, of which `len` are lent: what each read returns and leaves there.
fn reads<S: Source>(
    rt: &impl Abort,
    source: &mut S,
    table: &[(usize, Result<usize, Failed>, [u8; 4])],
) {
    for (len, want, left) in table {
        let mut four = [0; 4];
        assert!(rt; 0 < *len && *len <= 4);
        same(rt, source.read(&mut four[..*len]), *want);
        same(rt, four, *left);
    }
}

// Reads all of a source, of which at most `most` bytes are taken.
fn reads_all<S: Source>(
    rt: &impl Abort,
    alloc: Global,
    source: &mut S,
    most: u32,
    want: Result<&[u8], ReadFault>,
) {
    match read_all(alloc, source, most) {
        Ok(bytes) => same_at(rt, most, Ok(bytes.as_slice()), want),
        Err(fault) => same_at(rt, most, Err(fault), want),
    }
}

// Writes pieces, each once: what each write returns.
fn writes<K: Sink>(rt: &impl Abort, sink: &mut K, table: &[(&[u8], Result<usize, Failed>)]) {
    for (piece, want) in table {
        assert!(rt; !piece.is_empty());
        same(rt, sink.write(piece), *want);
    }
}

// Writes all of each piece.
fn writes_all<K: Sink>(rt: &impl Abort, sink: &mut K, table: &[(&[u8], Result<(), Failed>)]) {
    for (piece, want) in table {
        same(rt, write_all(sink, piece), *want);
    }
}

#[test]
fn a_read_fails_in_mid_stream(rt: HostRuntime) -> Result<(), Fail> {
    let alloc = rt.alloc();
    let bytes = vec![in alloc; 7u8; 5000]?;
    let mut source = source_of(alloc, &bytes, &[2, 4])?;
    // The first read took 4,096 bytes. The third takes the rest, and the fourth fails.
    let failed = Err(ReadFault::Failed);
    for want in [failed, failed, Ok([].as_slice())] {
        reads_all(&rt, alloc, &mut source, 9000, want);
    }
    Ok(())
}

#[test]
fn a_write_fails_in_mid_stream(rt: HostRuntime) -> Result<(), Fail> {
    let mut sink = sink_of(rt.alloc(), 6, &[2])?;
    let table: [(&[u8], Result<(), Failed>); 4] = [
        (b"ab", Ok(())),
        (b"cd", Err(Failed)),
        (b"ef", Ok(())),
        (b"", Ok(())),
    ];
    writes_all(&rt, &mut sink, &table);
    same(&rt, sink.written(), Some(b"abef".as_slice()));
    Ok(())
}

// A reader whose first call fails, and whose later ones give one byte. It counts its calls.
#[derive(Drop)]
struct FailsAtFirst {
    calls: u8,
}

impl Read for FailsAtFirst {
    fn read(&mut self, buf: &mut [u8]) -> io::Result<usize> {
        self.calls = self.calls.saturating_add(1);
        if self.calls == 1 {
            return Err(io::Error::from(io::ErrorKind::Interrupted));
        }
        Ok(buf.len().min(1))
    }
}

#[test]
fn a_failed_read_is_not_tried_again(rt: HostRuntime) {
    let mut reader = FailsAtFirst { calls: 0 };
    let mut source = StdSource::over(&mut reader);
    reads(
        &rt,
        &mut source,
        &[(2, Err(Failed), [0; 4]), (2, Ok(1), [0; 4])],
    );
    same(&rt, reader.calls, 2);
}

// A writer whose first call fails, whose second takes nothing, and whose later ones take all. It
// counts its calls.
#[derive(Drop)]
struct TakesAtThird {
    calls: u8,
}

impl Write for TakesAtThird {
    fn write(&mut self, piece: &[u8]) -> io::Result<usize> {
        self.calls = self.calls.saturating_add(1);
        match self.calls {
            1 => Err(io::Error::from(io::ErrorKind::Interrupted)),
            2 => Ok(0),
            _ => Ok(piece.len()),
        }
    }

    fn flush(&mut self) -> io::Result<()> {
        Ok(())
    }
}

#[test]
fn a_failed_write_is_not_tried_again(rt: HostRuntime) {
    let mut writer = TakesAtThird { calls: 0 };
    let mut sink = StdSink::over(&mut writer);
    let table: [(&[u8], Result<usize, Failed>); 3] = [
        (b"ab", Err(Failed)),
        (b"ab", Err(Failed)),
        (b"ab", Ok(2)),
    ];
    writes(&rt, &mut sink, &table);
    same(&rt, writer.calls, 3);
}
