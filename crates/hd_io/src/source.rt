// Where bytes come from.
ghost use Rattle.std.specs.Prelude.{◌≡◌, ◌+◌, ◌<◌, ◌≤◌, length, take, IfOk, OnErr, IsErrOf};
ghost use Rattle.std.specs.Io.KnownBytes.{IsAtEnd};
ghost use Rattle.hd_io.specs.Source.{SourceView, Gave, GaveAll, GaveCount, ReadFailed, ReadBrokeOff};

use crate::Failed;
use std::alloc::Global;
use thiserror::Error;

/// Gives bytes until it has none left. A read that failed has given nothing.
pub trait Source {
    /// What is left to read, where the source states it, how many bytes it has given, and how many
    /// reads have failed.
    ghost seen: { Self → SourceView };

    /// Puts the next bytes at the start of `buf`, and returns how many. None is the end.
    fn read(&mut self, buf: &mut [u8]) -> Result<usize, Failed>
        requires { 0 < length buf.old }

        ensures count { IfOk result (λ n. n ≤ length buf.new) }
        ensures gave { IfOk result (λ n. Gave (seen self.old) (seen self.new) (take n buf.new)) }
        ensures end { IfOk result (λ n. n ≡ 0 → IsAtEnd (seen self.new).left) }
        ensures err { OnErr result (ReadFailed (seen self.old) (seen self.new)) };
}

/// Why not all was read.
#[derive(Clone, Copy, Debug, PartialEq, Eq, Error)]
pub enum ReadFault {
    #[error("a read failed")]
    Failed,
    #[error("there is more to read than is taken")]
    TooLong,
    #[error("out of memory")]
    Memory,
}

// How many bytes one read asks for at most.
const CHUNK: usize = 4096;

/// Reads all that is left, up to `most` bytes. After one byte more it stops, and is `TooLong`. A
/// read that failed is its last.
pub fn read_all<S: Source>(alloc: Global, source: &mut S, most: u32) -> Result<Vec<u8>, ReadFault>
    ensures all { IfOk result (λ all. GaveAll (S.seen source.old) (S.seen source.new) all.items) }
    ensures within { IfOk result (λ all. length all.items ≤ most) }

    // Where not all was read, how many bytes were.
    ensures failed { IsErrOf result ReadFault.Failed →
        ReadBrokeOff (S.seen source.old) (S.seen source.new) most }
    ensures too_long { IsErrOf result ReadFault.TooLong →
        GaveCount (S.seen source.old) (S.seen source.new) (λ n. n ≡ most + 1) }
    ensures memory { IsErrOf result ReadFault.Memory →
        GaveCount (S.seen source.old) (S.seen source.new) (λ n. n ≤ most) }
{
    let limit = most as usize;
    let mut bytes = Vec::new(alloc);
    let mut chunk = [0; CHUNK];
    'reading: loop {
        let room = limit - bytes.len();
        let asked = CHUNK.min(room + 1);
        let Ok(count) = source.read(&mut chunk[..asked]) else {
            return Err(ReadFault::Failed);
        };
        if count == 0 {
            return Ok(bytes);
        }
        if count > room {
            return Err(ReadFault::TooLong);
        }
        if bytes.extend_from_slice(&chunk[..count]).is_err() {
            return Err(ReadFault::Memory);
        }
    }
}
