// How the ends of a shared host are opened.
ghost use Rattle.std.specs.Prelude.{◌≡◌, ◌*◌, ◌<◌, ◌^◌, map, IfOk};
ghost use Rattle.std.specs.List.{All};
ghost use Rattle.atomic_table.specs.Seated.{TableId};
ghost use Rattle.hd_ends.specs.declared.end.End.TheVariants.{Shared as shared};
ghost use Rattle.hd_ends.specs.{Ends.ends_up, Views.IsNewEnd, Views.end_of};

use crate::behind::Behind;
use crate::end::{End, Shared};
use crate::sharer::Sharer;
use hd_host::{Change, Host};
use hd_model::Memory;
use std::alloc::Global;
use std::boxed::Box;

/// So many ends of one host, each with so many of its contexts and in a box, by their numbers. Out
/// of memory, the host was dropped.
pub fn share(alloc: Global, host: Host, count: u32, each: u32) -> Result<Vec<Box<End>>, Memory>
    requires contexts { count * each ≡ host.machine.numbers.callers }
    requires few { host.machine.numbers.callers < 2 ^ 32 }
    ensures { IfOk result (λ ends. (table : TableId)
        × (map (λ end. end.value) ends.items ≡ map shared (ends_up table each host count))) }
{
    let last = host.last();
    let Ok(ends) = hd_turns::End::open(alloc, Behind::of(each, host), count) else {
        return Err(Memory);
    };
    in_boxes(alloc, ends, each, last)
}

// Ends of a gate as ends of the host behind it, in boxes.
fn in_boxes(
    alloc: Global,
    ends: Vec<hd_turns::End<Behind>>,
    each: u32,
    last: Change,
) -> Result<Vec<Box<End>>, Memory>
    requires { All (λ k. IsNewEnd k each) ends.items }
    ensures { IfOk result (λ made. map (λ end. end.value) made.items
        ≡ map (λ k. shared (end_of k each last)) ends.items) }
{
    let Ok(mut made) = Vec::with_capacity(alloc, ends.len()) else {
        return Err(Memory);
    };
    for end in ends {
        let end = in_box(alloc, end, each, last)?;
        if made.push(end).is_err() {
            return Err(Memory);
        }
    }
    Ok(made)
}

// An end of a gate as an end of the host behind it, in a box.
fn in_box(
    alloc: Global,
    end: hd_turns::End<Behind>,
    each: u32,
    last: Change,
) -> Result<Box<End>, Memory>
    requires { IsNewEnd end each }
    ensures { IfOk result (λ made. made.value ≡ shared (end_of end each last)) }
{
    let sharer = Sharer::of(end, each, last);
    match Box::new(alloc, End::Shared(Shared { sharer })) {
        Ok(made) => Ok(made),
        Err(_) => Err(Memory),
    }
}
