// The export of how much a host has of each generation, and of what its table has free.
ghost use Rattle.std.specs.Prelude.{◌≡◌};
ghost use Rattle.hdt_c.specs.{Exports.AlwaysRight, Exports.Comes, Exports.NeverFails, Exports.Runs, Sizes.TellsSizes};

use crate::held::{Held, on_open};
use crate::parts::Sizes;
use crate::status::OK;
use hd_host::Host;
use std::alloc::Global;

fn sizes(host: &mut Host, out: &mut Sizes) -> u32
    ensures { Runs NeverFails (λ v w s. (w ≡ v) × (s ≡ OK) × TellsSizes v out.new)
        (out.new ≡ out.old) host.old host.new result }
{
    let sizes = host.sizes();
    let heap = sizes.heap;
    let (young, middle, old) = (heap.youngest, heap.middle, heap.oldest);
    let free_slots = sizes.free;
    *out = Sizes {
        objects: [young.objects, middle.objects, old.objects],
        cells: [young.cells, middle.cells, old.cells],
        regions: [young.regions, middle.regions, old.regions],
        free_slots,
        idle_slots: sizes.idle,
    };
    OK
}

/// `hdt_sizes`.
#[unsafe(no_mangle)]
pub extern "C" fn hdt_sizes(alloc: Global, host: &mut Held, out: &mut Sizes) -> u32
    ensures { Comes AlwaysRight (λ at. NeverFails)
        (λ at v w s. (w ≡ v) × (s ≡ OK) × TellsSizes v out.new) (out.new ≡ out.old) host.old.value
        host.new.value result }
{
    on_open!(alloc, host, sizes(out))
}
