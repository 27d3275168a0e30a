// A sink in memory that never fails.
ghost use Rattle.std.specs.Prelude.{◌≡◌, [], ◌<◌, length, Ok, Some, IfOk, option_copied};
ghost use Rattle.hd_io.specs.Still.{StillWriting, still_sink_view, after_still_write};

use crate::{Failed, Sink};
use hd_model::Memory;
use std::alloc::Global;
use std::marker::Model;

/// A sink that takes whole pieces, and keeps them in the room that it takes when it is opened. No
/// write fails: its count of faults is the constant 0. A piece that doesn't fit is returned as
/// taken, none of it is kept, and from then on the sink states no bytes.
#[derive(Drop)]
pub struct StillSink {
    bytes: Vec<u8>,
    room: usize,
    is_overrun: bool,
}

impl Model for StillSink {
    ghost use Rattle.std.specs.Prelude.{◌≤◌, length, vec_capacity, None, Some, if◌then◌else◌};
    ghost use Rattle.hd_io.specs.Still.{StillWriting};

    ghost Value = { StillWriting };

    ghost view = { λ s. record {
      written = if s.is_overrun then None else Some s.bytes.items;
      room = s.room;
    } };

    ghost invariant = { λ s. (length s.bytes.items ≤ s.room) × (s.room ≤ vec_capacity s.bytes) };
}

impl StillSink {
    /// A sink with room for `room` bytes.
    pub fn open(alloc: Global, room: u32) -> Result<StillSink, Memory>
        ensures { IfOk result (λ sink. sink ≡ record { written = Some []; room = room }) }
    {
        let room = room as usize;
        let bytes = Vec::with_capacity(alloc, room).map_err(|_| Memory)?;
        Ok(StillSink {
            bytes,
            room,
            is_overrun: false,
        })
    }

    /// What is written, where all of it had room.
    pub fn written(&self) -> Option<&[u8]>
        ensures { option_copied result ≡ self.now.written }
    {
        if self.is_overrun {
            None
        } else {
            Some(&self.bytes)
        }
    }
}

impl Sink for StillSink {
    ghost seen = { still_sink_view };

    fn write(&mut self, piece: &[u8]) -> Result<usize, Failed>
        requires { 0 < length piece.now }
        ensures whole { result ≡ Ok (length piece.now) }
        ensures kept { self.new ≡ after_still_write self.old piece.now }
    {
        if piece.len() > self.room - self.bytes.len() {
            self.is_overrun = true;
        }
        if !self.is_overrun {
            self.bytes.extend_from_slice(piece).unwrap();
        }
        Ok(piece.len())
    }
}
