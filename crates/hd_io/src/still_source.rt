// A source in memory that never fails.
ghost use Rattle.std.specs.Prelude.{◌≡◌, ◌<◌, min, length, take, Ok, IfOk};
ghost use Rattle.hd_io.specs.Still.{StillReading, still_source_view, after_still_read};

use crate::{Failed, Source};
use hd_model::Memory;
use std::alloc::Global;
use std::marker::Model;

/// A source that gives the bytes which it was opened with, as many as fit into the buffer. No read
/// fails: its count of faults is the constant 0.
#[derive(Drop)]
pub struct StillSource {
    bytes: Vec<u8>,
    at: usize,
}

impl Model for StillSource {
    ghost use Rattle.std.specs.Prelude.{◌≤◌, length, drop};
    ghost use Rattle.hd_io.specs.Still.{StillReading};

    ghost Value = { StillReading };

    ghost view = { λ s. record { left = drop s.at s.bytes.items; given = s.at } };

    ghost invariant = { λ s. s.at ≤ length s.bytes.items };
}

impl StillSource {
    /// A source of these bytes.
    pub fn open(alloc: Global, bytes: &[u8]) -> Result<StillSource, Memory>
        ensures { IfOk result (λ source. source ≡ record { left = bytes.now; given = 0 }) }
    {
        let bytes = bytes.to_vec(alloc).map_err(|_| Memory)?;
        Ok(StillSource { bytes, at: 0 })
    }
}

impl Source for StillSource {
    ghost seen = { still_source_view };

    fn read(&mut self, buf: &mut [u8]) -> Result<usize, Failed>
        requires { 0 < length buf.old }
        ensures exact { result ≡ Ok (min (length self.old.left) (length buf.old)) }
        ensures bytes { IfOk result (λ n. take n buf.new ≡ take n self.old.left) }
        ensures rest { IfOk result (λ n. self.new ≡ after_still_read self.old n) }
    {
        let rest = &self.bytes[self.at..];
        let count = rest.len().min(buf.len());
        buf[..count].copy_from_slice(&rest[..count]);
        self.at += count;
        Ok(count)
    }
}
