// A source in memory. Each of its calls fails or succeeds as was set when it was opened.
ghost use Rattle.std.specs.Prelude.{◌≡◌, ◌<◌, min, length, take, IfOk, OnOk, OnErr};
ghost use Rattle.std.specs.Result.{is_err};
ghost use Rattle.hd_io.specs.Counts.{Rose};
ghost use Rattle.hd_io.specs.Calls.{no_calls, fails_next, after_call, bounded, with_most};
ghost use Rattle.hd_io.specs.Memory.{reading_view, after_read};

use crate::calls::CallCount;
use crate::{Failed, Source, StillSource};
use hd_model::Memory;
use std::alloc::Global;
use std::marker::Model;

/// A source that gives the bytes which it was opened with, as many as fit into the buffer, and by
/// one read at most as many as was set.
#[derive(Drop)]
pub struct MemorySource {
    source: StillSource,
    calls: CallCount,
}

impl Model for MemorySource {
    ghost use Rattle.hd_io.specs.Memory.{Reading};

    ghost Value = { Reading };

    ghost view = { λ s. record {
      left = s.source.left;
      given = s.source.given;
      calls = s.calls;
    } };
}

impl MemorySource {
    /// A source of these bytes. Its reads are counted from 1, and those whose numbers are in
    /// `fails` fail.
    pub fn open(alloc: Global, bytes: &[u8], fails: &[u32]) -> Result<MemorySource, Memory>
        ensures { IfOk result (λ source. source ≡ record {
          left = bytes.now;
          given = 0;
          calls = no_calls fails.now;
        }) }
    {
        let source = StillSource::open(alloc, bytes)?;
        let calls = CallCount::new(alloc, fails).map_err(|_| Memory)?;
        Ok(MemorySource { source, calls })
    }

    /// From now on a read gives at most `most` bytes.
    pub fn set_most(&mut self, most: u32)
        requires { 0 < most }
        ensures { self.new ≡ record self.old { calls = with_most self.old.calls most } }
    {
        self.calls.set_most(most);
    }
}

impl Source for MemorySource {
    ghost seen = { reading_view };

    fn read(&mut self, buf: &mut [u8]) -> Result<usize, Failed>
        requires { 0 < length buf.old }
        ensures fails { is_err result ≡ fails_next self.old.calls }
        ensures exact { IfOk result (λ n. n ≡
            min (length self.old.left) (bounded self.old.calls.most (length buf.old))) }
        ensures some { IfOk result (λ n. 0 < length self.old.left → 0 < n) }
        ensures bytes { IfOk result (λ n. take n buf.new ≡ take n self.old.left) }
        ensures ok { IfOk result (λ n. self.new ≡ after_read self.old n) }
        ensures err { OnErr result
            (self.new ≡ record self.old { calls = after_call self.old.calls }) }
        ensures unfailed { OnOk result (self.new.calls.faults ≡ self.old.calls.faults) }
        ensures failed { OnErr result (Rose self.old.calls.faults self.new.calls.faults) }
    {
        self.calls.count_one()?;
        let most = self.calls.bound(buf.len());
        self.source.read(&mut buf[..most])
    }
}
