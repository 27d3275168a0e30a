// A dialogue over a world of its own, from its first line to its status.
ghost use Rattle.std.specs.Prelude.{◌≡◌, ◌≤◌, if◌then◌else◌};
ghost use Rattle.hd_model.specs.declared.limits.TheConstants.{BLOCKS, HEAP};
ghost use Rattle.hd_step.specs.Machine.{IsNew};
ghost use Rattle.hd_talk.specs.Machine.{machine_view, numbers_with};
ghost use Rattle.hd_talk.specs.Talked.{Talked, stop_status};

use crate::answers::Debugger;
use crate::played::Played;
use hd_io::{Sink, Source, write_all};
use hd_model::limits::{BLOCKS, HEAP};
use hd_step::{Stop, converse};
use std::alloc::Global;

// The status where a line was bad, and where memory ran out.
const BAD_LINE: u8 = 3;

const NO_MEMORY: u8 = 6;

/// Does each line of the source over an empty world of sixteen callers, and writes its reply before
/// it reads the next; at the end comes the end line. Why a line is left out goes to `errors`, as
/// does a prompt before each line where one is asked for, and why a dialogue ends early; a write
/// that fails there changes nothing. Returns the status: 0; 3 where a line or an operand was bad or
/// there are too many bytes; 4 where a read and 5 where a write to `out` failed; and 6 where memory
/// ran out.
pub fn talk<S: Source, K: Sink, E: Sink>(
    alloc: Global,
    heap: u32,
    blocks: u32,
    source: &mut S,
    out: &mut K,
    errors: &mut E,
    is_prompting: bool,
) -> u8
    requires heap { (3 ≤ heap) × (heap ≤ HEAP) }
    requires blocks { (1 ≤ blocks) × (blocks ≤ BLOCKS) }
    ensures { Talked (numbers_with heap blocks) (S.seen source.old) (S.seen source.new)
        (K.seen out.old) (K.seen out.new) result }
{
    let Ok(mut machine) = Played::open(alloc, heap, blocks) else {
        say(alloc, Stop::Memory, errors);
        return NO_MEMORY;
    };
    talk_over(alloc, &mut machine, source, out, errors, is_prompting)
}

// The same over a new machine.
#[inline(always)]
fn talk_over<S: Source, K: Sink, E: Sink>(
    alloc: Global,
    machine: &mut Played,
    source: &mut S,
    out: &mut K,
    errors: &mut E,
    is_prompting: bool,
) -> u8
    requires { IsNew (machine_view machine.old) }
    ensures { Talked machine.old.numbers (S.seen source.old) (S.seen source.new)
        (K.seen out.old) (K.seen out.new) result }
{
    match converse(alloc, machine, &Debugger, source, out, errors, is_prompting) {
        Ok(is_bad) => { if is_bad { BAD_LINE } else { 0 } }
        Err(stop) => {
            say(alloc, stop, errors);
            status_of(stop)
        }
    }
}

// The status of an early end.
fn status_of(stop: Stop) -> u8
    ensures { result ≡ stop_status stop }
{
    match stop {
        Stop::TooLong => BAD_LINE,
        Stop::Unread => 4,
        Stop::Unwritten => 5,
        Stop::Memory => NO_MEMORY,
    }
}

// Writes why a dialogue ended early. What becomes of it changes nothing.
fn say<E: Sink>(alloc: Global, stop: Stop, errors: &mut E) {
    if let Ok(text) = format!(in alloc; "{stop}\n") {
        let _ = write_all(errors, text.as_bytes());
    }
}
