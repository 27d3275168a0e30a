// A host makes an object with a weak long handle, and finds it by the handle after a collection
// that queued it for finalization.
ghost use Rattle.std.specs.Prelude.{◌≡◌, IfOk};

use hd_host::{Fault, Handle, Host, Limits};
use hd_model::{Id, Make, Memory};
use std::alloc::{AllocError, Global};
use std::io;

// Makes an object, which local 0 references.
fn object(host: &mut Host) -> Result<Id, Fault>
    requires { host.old.machine.numbers.callers ≡ 1 }
    ensures { host.new.machine.numbers.callers ≡ 1 }
{
    host.object_new(0, 0, 2, true)
}

// Makes a weak long handle of it.
fn weak(host: &mut Host) -> Result<Handle, Fault>
    requires { host.old.machine.numbers.callers ≡ 1 }
    ensures { host.new.machine.numbers.callers ≡ 1 }
{
    host.handle_new(0, Make::Long, 0)
}

// Drops the reference to it, and collects.
fn collect(host: &mut Host) -> Result<(), Fault>
    requires { host.old.machine.numbers.callers ≡ 1 }
    ensures { host.new.machine.numbers.callers ≡ 1 }
{
    host.local_clear(0, 0);
    host.collect(0)?;
    Ok(())
}

// Whether the handle has the object as its target after the collection.
fn outlives(host: &mut Host) -> Result<bool, Fault>
    requires { host.old.machine.numbers.callers ≡ 1 }
{
    let made = object(host)?;
    let handle = weak(host)?;
    collect(host)?;
    let found = host.handle_get(0, handle, 1)?;
    Ok(found == Some(made))
}

// A host of one context.
fn open(alloc: Global) -> Result<Host, Memory>
    ensures { IfOk result (λ host. host.machine.numbers.callers ≡ 1) }
{
    let limits = Limits {
        cells: 100_000,
        blocks: 64,
        contexts: 1,
    };
    Host::open(alloc, limits)
}

// The same, for a new host.
fn try_host(alloc: Global) -> Result<bool, Fault> {
    let Ok(mut host) = open(alloc) else {
        return Err(Fault::Memory);
    };
    outlives(&mut host)
}

/// Prints whether the handle has its target.
pub(crate) fn run(rt: &impl Print, alloc: Global) -> io::Result<()> {
    let Ok(found) = try_host(alloc) else {
        return Err(AllocError.into());
    };
    println!(rt; "the handle has its target: {found}")
}
