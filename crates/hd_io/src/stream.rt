// Readers and writers of the standard library as a source and a sink: the edge of what is proved.
ghost use Rattle.std.specs.Prelude.{◌≡◌, ◌<◌, ◌≤◌, length, None, Ok, IsErr};
ghost use Rattle.std.specs.Prelude.{IfOk, OnOk, OnErr, MatchResult};
ghost use Rattle.std.specs.Io.KnownBytes.{ReadConsumes, WriteAppends};
ghost use Rattle.hd_io.specs.Counts.{Rose, count_up};
ghost use Rattle.hd_io.specs.Stream.{reader_of, source_view, writer_of, sink_view};

use crate::{Failed, Sink, Source};
use std::io;
use std::io::{Read, Write};

/// A reader as a source. It states no bytes, and each error of the reader is a fault, also an
/// interrupt.
#[derive(Drop)]
pub struct StdSource<R> {
    reader: R,
    given: u64,
    faults: u64,
}

impl<R: Read> StdSource<R> {
    pub fn over(reader: R) -> StdSource<R>
        ensures reader { reader_of result ≡ reader }
        ensures seen { source_view result ≡ record { left = None; given = 0; faults = 0 } }
    {
        StdSource {
            reader,
            given: 0,
            faults: 0,
        }
    }

    // What one call of the reader comes to: bytes that are given, or one fault.
    fn count_read(&mut self, answer: io::Result<usize>) -> Result<usize, Failed>
        ensures counted { MatchResult answer
            (λ n. (result ≡ Ok n)
            × (self.new ≡ record self.old { given = count_up self.old.given n }))
            (λ _. IsErr result
            × (self.new ≡ record self.old { faults = count_up self.old.faults 1 })) }
        ensures rose { OnErr result (Rose self.old.faults self.new.faults) }
    {
        match answer {
            Ok(count) => {
                self.given = self.given.saturating_add(count as u64);
                Ok(count)
            }
            Err(_) => {
                self.faults = self.faults.saturating_add(1);
                Err(Failed)
            }
        }
    }
}

impl<R: Read> Source for StdSource<R> {
    ghost seen = { source_view };

    fn read(&mut self, buf: &mut [u8]) -> Result<usize, Failed>
        ensures count { IfOk result (λ n. n ≤ length buf.new) }
        ensures gave { IfOk result (λ n. let old = source_view self.old in
            source_view self.new ≡ record old { given = count_up old.given n }) }
        ensures err { let old = source_view self.old in OnErr result
            (source_view self.new ≡ record old { faults = count_up old.faults 1 }) }
        ensures rose { OnErr result
            (Rose (source_view self.old).faults (source_view self.new).faults) }

        // Where it is known what the reader has left, these bytes are taken off it.
        ensures bytes { ReadConsumes (R.remaining (reader_of self.old))
            (R.remaining (reader_of self.new)) result buf.new }
    {
        let answer = self.reader.read(buf);
        self.count_read(answer)
    }
}

/// A writer as a sink. It states no bytes, and each error of the writer is a fault, as is a write
/// that takes nothing. There is no buffer between: each call is one write.
#[derive(Drop)]
pub struct StdSink<W> {
    writer: W,
    faults: u64,
}

impl<W: Write> StdSink<W> {
    pub fn over(writer: W) -> StdSink<W>
        ensures writer { writer_of result ≡ writer }
        ensures seen { sink_view result ≡ record { written = None; faults = 0 } }
    {
        StdSink { writer, faults: 0 }
    }

    // What one call of the writer comes to: bytes that are taken, or one fault. None taken is one.
    fn count_write(&mut self, answer: io::Result<usize>) -> Result<usize, Failed>
        ensures some { IfOk answer (λ n. 0 < n → (result ≡ Ok n) × (self.new ≡ self.old)) }
        ensures none { IfOk answer (λ n. n ≡ 0 → IsErr result
            × (self.new ≡ record self.old { faults = count_up self.old.faults 1 })) }
        ensures fault { OnErr answer (IsErr result
            × (self.new ≡ record self.old { faults = count_up self.old.faults 1 })) }
        ensures rose { OnErr result (Rose self.old.faults self.new.faults) }
    {
        match answer {
            Ok(count) if count > 0 => Ok(count),
            _ => {
                self.faults = self.faults.saturating_add(1);
                Err(Failed)
            }
        }
    }
}

impl<W: Write> Sink for StdSink<W> {
    ghost seen = { sink_view };

    fn write(&mut self, piece: &[u8]) -> Result<usize, Failed>
        ensures some { IfOk result (λ n. 0 < n) }
        ensures count { IfOk result (λ n. n ≤ length piece.now) }
        ensures took { OnOk result (sink_view self.new ≡ sink_view self.old) }
        ensures err { let old = sink_view self.old in OnErr result
            (sink_view self.new ≡ record old { faults = count_up old.faults 1 }) }
        ensures rose { OnErr result (Rose (sink_view self.old).faults (sink_view self.new).faults) }

        // Where it is known what the writer holds, these bytes are added to it.
        ensures bytes { WriteAppends (W.contents (writer_of self.old))
            (W.contents (writer_of self.new)) result piece.now }
    {
        let answer = self.writer.write(piece);
        self.count_write(answer)
    }
}
