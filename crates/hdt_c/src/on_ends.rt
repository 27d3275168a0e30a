// The export that opens a host with several ends.
ghost use Rattle.std.specs.Prelude.{◌≡◌, ◌<◌, ℕ, None, Some, false, is_some, length, map, replicate, MatchResult};
ghost use Rattle.std.specs.List.{Contains};
ghost use Rattle.std.specs.Bool.{OnFalse, OnTrue};
ghost use Rattle.atomic_table.specs.Seated.{TableId};
ghost use Rattle.hd_host.specs.View.{HostView};
ghost use Rattle.hd_ends.specs.Ends.{ends_up};
ghost use Rattle.hd_ends.specs.declared.end.End.{End};
ghost use Rattle.hd_ends.specs.declared.end.End.TheVariants.{Shared as shared};
ghost use Rattle.hdt_c.specs.Outs.{AreOfEnds, IsOpened, OpensShared, RefusesShared, values_of};

use crate::held::{Held, put, take};
use crate::on_host::new_host;
use crate::parts::Limits;
use crate::status::{ARGUMENT, IS_OPEN, NO_MEMORY, OK};
use hd_ends::{End, share};
use std::alloc::Global;

// The most ends of a host.
const ENDS: usize = 16;

/// `hdt_open_shared`.
#[unsafe(no_mangle)]
pub extern "C" fn hdt_open_shared(alloc: Global, ends: &mut [Held], limits: &Limits) -> u32
    ensures { OpensShared limits.now (values_of ends.old) (values_of ends.new) result }
{
    if any_open(alloc, ends) {
        return IS_OPEN;
    }
    match open_ends(alloc, limits, ends.len()) {
        Ok(opened) => {
            put_all(ends, opened);
            OK
        }
        Err(status) => status,
    }
}

// Whether it is open.
fn is_open(alloc: Global, held: &mut Held) -> bool
    ensures same { held.new.value ≡ held.old.value }
    ensures value { result ≡ is_some held.old.value }
{
    match take(alloc, held) {
        Some(end) => {
            put(held, end);
            true
        }
        None => false,
    }
}

// Whether one of them is open.
fn any_open(alloc: Global, ends: &mut [Held]) -> bool
    ensures same { values_of ends.new ≡ values_of ends.old }
    ensures some { OnTrue result ((end : End) × Contains (values_of ends.old) (Some end)) }
    ensures none { OnFalse result (values_of ends.old ≡ replicate (length ends.old) None) }
{
    for i in 0..ends.len() {
        if is_open(alloc, &mut ends[i]) {
            return true;
        }
    }
    false
}

// So many ends of one host, in boxes, by their numbers.
fn open_ends(alloc: Global, limits: &Limits, count: usize) -> Result<Vec<Box<End>>, u32>
    ensures { MatchResult result (λ opened. (each : ℕ) × (table : TableId) × (v : HostView)
        × AreOfEnds limits.now count each × IsOpened limits.now v
        × (map (λ end. end.value) opened.items ≡ map shared (ends_up table each v count)))
        (RefusesShared limits.now count) }
{
    if count < 1 || count > ENDS {
        return Err(ARGUMENT);
    }
    let count = count as u32;
    if limits.contexts % count != 0 {
        return Err(ARGUMENT);
    }
    let host = new_host(alloc, limits)?;
    match share(alloc, host, count, limits.contexts / count) {
        Ok(opened) => Ok(opened),
        Err(_) => Err(NO_MEMORY),
    }
}

// Puts each end where it belongs.
fn put_all(ends: &mut [Held], mut opened: Vec<Box<End>>)
    requires closed { values_of ends.old ≡ replicate (length opened.items) None }
    ensures { values_of ends.new ≡ map (λ end. Some end.value) opened.items }
{
    while let Some(end) = opened.pop() {
        put(&mut ends[opened.len()], end);
    }
}
