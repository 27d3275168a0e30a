// The exports that list handles and locals.
ghost use Rattle.std.specs.Prelude.{◌≡◌, [], length};
ghost use Rattle.hd_host.specs.Kinds.{HasNoneOf, IsListedOf};
ghost use Rattle.hdt_c.specs.Exports.{Comes, Runs, NeverFails, AlwaysRight};
ghost use Rattle.hdt_c.specs.Outs.{AreListed, Lists, ListsFrom, ListsOf};
ghost use Rattle.hdt_c.specs.Wide.{AreKinds, HasAll, TellsLocals};

use crate::arguments::{ALL_KINDS, are_kinds, has_all, number_of, number_of_extra, number_of_kind};
use crate::held::{Held, on_open};
use crate::parts::Info;
use crate::status::OK;
use hd_host::Host;
use std::alloc::Global;

// Lists the live handles of some kinds from a slot on, and returns where to go on.
fn list(
    host: &Host,
    kinds: u32,
    cleared: bool,
    from: u32,
    out: &mut [Info],
    count: &mut usize,
) -> u32
    ensures { let s = host.now.machine.state in
        AreListed (IsListedOf host.now kinds cleared) (HasNoneOf s kinds cleared) from out.old
        out.new count.new result }
{
    let mut at = from;
    for i in 0..out.len() {
        let Some(listed) = host.next_of(kinds, cleared, at) else {
            *count = i;
            return 0;
        };
        out[i] = Info {
            handle: listed.handle.0,
            target: number_of(listed.info.target),
            kind: number_of_kind(listed.info.kind),
            extra: number_of_extra(listed.info.extra),
        };
        at = listed.slot.0 + 1;
    }
    *count = out.len();
    slot_after(host, kinds, cleared, at)
}

// The slot of the next such handle from one on, 0 where there is none.
fn slot_after(host: &Host, kinds: u32, cleared: bool, at: u32) -> u32
    ensures { let s = host.now.machine.state in
        ListsFrom (IsListedOf host.now kinds cleared) (HasNoneOf s kinds cleared) at [] result }
{
    match host.next_of(kinds, cleared, at) {
        Some(listed) => listed.slot.0,
        None => 0,
    }
}

// Lists the live handles from a slot on.
fn handles(host: &mut Host, from: u32, out: &mut [Info], count: &mut usize, next: &mut u32) -> u32
    ensures { Runs NeverFails (Lists from out.old out.new count.new next.new) ((out.new ≡ out.old) ×
        (count.new ≡ count.old) × (next.new ≡ next.old)) host.old host.new result }
{
    *next = list(host, ALL_KINDS, false, from, out, count);
    OK
}

/// `hdt_handles`.
#[unsafe(no_mangle)]
pub extern "C" fn hdt_handles(
    alloc: Global,
    host: &mut Held,
    from: u32,
    out: &mut [Info],
    count: &mut usize,
    next: &mut u32,
) -> u32
    ensures { Comes AlwaysRight (λ at. NeverFails)
        (λ at. Lists from out.old out.new count.new next.new) ((out.new ≡ out.old) ×
        (count.new ≡ count.old) × (next.new ≡ next.old)) host.old.value host.new.value result }
{
    on_open!(alloc, host, handles(from, out, count, next))
}

// Lists those of some kinds.
fn handles_of(
    host: &mut Host,
    kinds: u32,
    cleared: u32,
    from: u32,
    out: &mut [Info],
    count: &mut usize,
    next: &mut u32,
) -> u32
    ensures { Runs NeverFails (ListsOf kinds cleared from out.old out.new count.new next.new)
        ((out.new ≡ out.old) × (count.new ≡ count.old) × (next.new ≡ next.old)) host.old host.new
        result }
{
    *next = list(host, kinds, cleared == 1, from, out, count);
    OK
}

/// `hdt_handles_of`.
#[unsafe(no_mangle)]
pub extern "C" fn hdt_handles_of(
    alloc: Global,
    host: &mut Held,
    kinds: u32,
    cleared: u32,
    from: u32,
    out: &mut [Info],
    count: &mut usize,
    next: &mut u32,
) -> u32
    ensures { Comes (λ contexts. AreKinds kinds cleared) (λ at. NeverFails)
        (λ at. ListsOf kinds cleared from out.old out.new count.new next.new)
        ((out.new ≡ out.old) × (count.new ≡ count.old) × (next.new ≡ next.old)) host.old.value
        host.new.value result }
{
    on_open!(alloc, host, handles_of(kinds, cleared, from, out, count, next)
        if are_kinds(kinds, cleared))
}

// What each local of a context references.
fn locals(host: &mut Host, c: u32, out: &mut [u64]) -> u32
    requires { HasAll c (length out.old) host.old.machine.numbers.callers }
    ensures { Runs NeverFails (TellsLocals c out.new) (out.new ≡ out.old) host.old host.new result }
{
    host.locals(c, out);
    OK
}

/// `hdt_locals`.
#[unsafe(no_mangle)]
pub extern "C" fn hdt_locals(alloc: Global, host: &mut Held, c: u32, out: &mut [u64]) -> u32
    ensures { Comes (HasAll c (length out.old)) (λ at. NeverFails)
        (λ at. TellsLocals (at c) out.new) (out.new ≡ out.old) host.old.value host.new.value
        result }
{
    let room = out.len();
    on_open!(alloc, host, in c, locals(out) if has_all(room))
}
