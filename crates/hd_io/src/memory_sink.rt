// A sink in memory. Each of its calls fails or succeeds as was set when it was opened.
ghost use Rattle.std.specs.Prelude.{◌≡◌, [], ◌<◌, length, take, Some, IfOk, OnErr, option_copied};
ghost use Rattle.std.specs.Prelude.{OnOk};
ghost use Rattle.std.specs.Result.{is_err};
ghost use Rattle.hd_io.specs.Counts.{Rose};
ghost use Rattle.hd_io.specs.Calls.{no_calls, fails_next, after_call, bounded, with_most};
ghost use Rattle.hd_io.specs.Memory.{writing_view, after_write};

use crate::calls::CallCount;
use crate::{Failed, Sink, StillSink};
use hd_model::Memory;
use std::alloc::Global;
use std::marker::Model;

/// A sink that takes whole pieces, or by one write at most as many bytes as was set, and keeps them
/// in the room that it takes when it is opened. Bytes that don't fit are returned as taken, none of
/// them is kept, and from then on the sink states no bytes.
#[derive(Drop)]
pub struct MemorySink {
    sink: StillSink,
    calls: CallCount,
}

impl Model for MemorySink {
    ghost use Rattle.hd_io.specs.Memory.{Writing};

    ghost Value = { Writing };

    ghost view = { λ s. record {
      written = s.sink.written;
      room = s.sink.room;
      calls = s.calls;
    } };
}

impl MemorySink {
    /// A sink with room for `room` bytes. Its writes are counted from 1, and those whose numbers
    /// are in `fails` fail.
    pub fn open(alloc: Global, room: u32, fails: &[u32]) -> Result<MemorySink, Memory>
        ensures { IfOk result (λ sink. sink ≡ record {
          written = Some [];
          room = room;
          calls = no_calls fails.now;
        }) }
    {
        let sink = StillSink::open(alloc, room)?;
        let calls = CallCount::new(alloc, fails).map_err(|_| Memory)?;
        Ok(MemorySink { sink, calls })
    }

    /// From now on a write takes at most `most` bytes, whatever room is left.
    pub fn set_most(&mut self, most: u32)
        requires { 0 < most }
        ensures { self.new ≡ record self.old { calls = with_most self.old.calls most } }
    {
        self.calls.set_most(most);
    }

    /// What is written, where all of it had room.
    pub fn written(&self) -> Option<&[u8]>
        ensures { option_copied result ≡ self.now.written }
    {
        self.sink.written()
    }
}

impl Sink for MemorySink {
    ghost seen = { writing_view };

    fn write(&mut self, piece: &[u8]) -> Result<usize, Failed>
        requires { 0 < length piece.now }
        ensures fails { is_err result ≡ fails_next self.old.calls }
        ensures exact { IfOk result (λ n. n ≡ bounded self.old.calls.most (length piece.now)) }
        ensures some { IfOk result (λ n. 0 < n) }
        ensures ok { IfOk result (λ n. self.new ≡ after_write self.old (take n piece.now)) }
        ensures err { OnErr result
            (self.new ≡ record self.old { calls = after_call self.old.calls }) }
        ensures unfailed { OnOk result (self.new.calls.faults ≡ self.old.calls.faults) }
        ensures failed { OnErr result (Rose self.old.calls.faults self.new.calls.faults) }
    {
        self.calls.count_one()?;
        let most = self.calls.bound(piece.len());
        self.sink.write(&piece[..most])
    }
}
