// The exports of calls that are more than one command, or none, and of what an object is.
ghost use Rattle.std.specs.Prelude.{◌≡◌, ◌==◌, None, Some, length};
ghost use Rattle.hd_model.specs.declared.command.Cmd.TheVariants as cmd;
ghost use Rattle.hdt_c.specs.Arguments.{field_number};
ghost use Rattle.hd_ends.specs.Ends.{EndView};
ghost use Rattle.hd_ends.specs.declared.end.End.TheVariants.{Shared};
ghost use Rattle.hdt_c.specs.Exports.{Comes, Runs, KeepsNothing, NeverFails, AlwaysRight, HasLocal, HasLocals, FailsIn, FailsAt};
ghost use Rattle.hdt_c.specs.Wide.{object_out, ClearsLocals, FailsStale, FailsToSet, HasBoth, HasContext, HasLeft, HasRange, IsFilled, LoadsValue, LoadsValueAt, Makes, Passes, Sets, TellsObject, TellsTarget};

use crate::arguments::{
    FINALIZABLE, field, has_both, has_context, has_local, has_locals, has_range, is_filled,
    number_of,
};
use crate::held::{Held, on_open};
use crate::own::{on_own, on_shared};
use crate::parts::Object;
use crate::status::{NULL, OK, status_of};
use hd_ends::End;
use hd_host::{Handle, Host, ObjectInfo};
use std::alloc::Global;

// Loads a field, with its value.
fn field_load(
    host: &mut Host,
    c: u32,
    dst: u32,
    object: u32,
    i: u32,
    id: &mut u64,
    value: &mut u64,
) -> u32
    requires { HasLocals c dst object host.old.machine.numbers.callers }
    ensures { let command = cmd.Get dst object (field_number i) in
        Runs (FailsIn c command) (LoadsValue c command dst id.new value.new)
        ((id.new ≡ id.old) × (value.new ≡ value.old)) host.old host.new result }
{
    match host.field_load(c, dst as u8, object as u8, field(i)) {
        Ok(loaded) => {
            *id = number_of(loaded.id);
            *value = loaded.value;
            OK
        }
        Err(fault) => status_of(fault),
    }
}

/// `hdt_field_load`.
#[unsafe(no_mangle)]
pub extern "C" fn hdt_field_load(
    alloc: Global,
    host: &mut Held,
    c: u32,
    dst: u32,
    object: u32,
    i: u32,
    id: &mut u64,
    value: &mut u64,
) -> u32
    ensures { let command = cmd.Get dst object (field_number i) in
        Comes (HasLocals c dst object) (λ at. FailsIn (at c) command)
        (λ at. LoadsValue (at c) command dst id.new value.new)
        ((id.new ≡ id.old) × (value.new ≡ value.old)) host.old.value host.new.value result }
{
    on_own!(alloc, host, in c, field_load(dst, object, i, id, value) if has_locals(dst, object), else field_load_shared)
}

// The same, at an end of a shared host.
#[inline(never)]
fn field_load_shared(
    alloc: Global,
    host: &mut Held,
    c: u32,
    dst: u32,
    object: u32,
    i: u32,
    id: &mut u64,
    value: &mut u64,
) -> u32
    ensures { let command = cmd.Get dst object (field_number i) in
        Comes (HasLocals c dst object) (λ at. FailsIn (at c) command)
        (λ at. LoadsValue (at c) command dst id.new value.new)
        ((id.new ≡ id.old) × (value.new ≡ value.old)) host.old.value host.new.value result }
{
    on_open!(alloc, host, in c, field_load(dst, object, i, id, value) if has_locals(dst, object))
}

// Loads the target of a handle, with its value.
fn handle_load(host: &mut Host, c: u32, handle: u64, dst: u32, id: &mut u64, value: &mut u64) -> u32
    requires { HasLocal c dst host.old.machine.numbers.callers }
    ensures { let command = cmd.HGet dst 0 in
        Runs (FailsAt c handle command) (LoadsValueAt c handle command dst id.new value.new)
        ((id.new ≡ id.old) × (value.new ≡ value.old)) host.old host.new result }
{
    match host.handle_load(c, Handle(handle), dst as u8) {
        Ok(loaded) => {
            *id = number_of(loaded.id);
            *value = loaded.value;
            OK
        }
        Err(fault) => status_of(fault),
    }
}

/// `hdt_handle_load`.
#[unsafe(no_mangle)]
pub extern "C" fn hdt_handle_load(
    alloc: Global,
    host: &mut Held,
    c: u32,
    handle: u64,
    dst: u32,
    id: &mut u64,
    value: &mut u64,
) -> u32
    ensures { let command = cmd.HGet dst 0 in
        Comes (HasLocal c dst) (λ at. FailsAt (at c) handle command)
        (λ at. LoadsValueAt (at c) handle command dst id.new value.new)
        ((id.new ≡ id.old) × (value.new ≡ value.old)) host.old.value host.new.value result }
{
    on_own!(alloc, host, in c, handle_load(handle, dst, id, value) if has_local(dst), else handle_load_shared)
}

// The same, at an end of a shared host.
#[inline(never)]
fn handle_load_shared(
    alloc: Global,
    host: &mut Held,
    c: u32,
    handle: u64,
    dst: u32,
    id: &mut u64,
    value: &mut u64,
) -> u32
    ensures { let command = cmd.HGet dst 0 in
        Comes (HasLocal c dst) (λ at. FailsAt (at c) handle command)
        (λ at. LoadsValueAt (at c) handle command dst id.new value.new)
        ((id.new ≡ id.old) × (value.new ≡ value.old)) host.old.value host.new.value result }
{
    on_open!(alloc, host, in c, handle_load(handle, dst, id, value) if has_local(dst))
}

// Makes an object with its value and its fields.
#[inline(always)]
fn object_make(
    host: &mut Host,
    c: u32,
    dst: u32,
    flags: u32,
    value: u64,
    src: &[u32],
    id: &mut u64,
) -> u32
    requires { IsFilled c dst flags src.now host.old.machine.numbers.callers }
    ensures { let command = cmd.New dst (length src.now) (flags == 1) in
        Runs (FailsIn c command) (Makes c dst flags value src.now id.new) (id.new ≡ id.old) host.old
        host.new result }
{
    match host.object_make(c, dst as u8, value, flags == FINALIZABLE, src) {
        Ok(made) => {
            *id = made.0;
            OK
        }
        Err(fault) => status_of(fault),
    }
}

/// `hdt_object_make`.
#[unsafe(no_mangle)]
pub extern "C" fn hdt_object_make(
    alloc: Global,
    host: &mut Held,
    c: u32,
    dst: u32,
    flags: u32,
    value: u64,
    src: &[u32],
    id: &mut u64,
) -> u32
    ensures { let command = cmd.New dst (length src.now) (flags == 1) in
        Comes (IsFilled c dst flags src.now) (λ at. FailsIn (at c) command)
        (λ at. Makes (at c) dst flags value src.now id.new) (id.new ≡ id.old) host.old.value
        host.new.value result }
{
    on_own!(alloc, host, in c, object_make(dst, flags, value, src, id) if is_filled(dst, flags, src), else object_make_shared with end)
}

// The same, at an end of a shared host.
#[inline(never)]
fn object_make_shared(
    host: &mut Held,
    c: u32,
    dst: u32,
    flags: u32,
    value: u64,
    src: &[u32],
    id: &mut u64,
    mut end: Box<End>,
) -> u32
    requires closed { host.old.value ≡ None }
    requires shared { (e : EndView) × (end.value ≡ Shared e) }
    ensures { let command = cmd.New dst (length src.now) (flags == 1) in
        Comes (IsFilled c dst flags src.now) (λ at. FailsIn (at c) command)
        (λ at. Makes (at c) dst flags value src.now id.new) (id.new ≡ id.old) (Some end.value)
        host.new.value result }
{
    on_shared!(host, end, in c, object_make(dst, flags, value, src, id) if is_filled(dst, flags, src))
}

// Passes a reference to a context.
fn local_pass(host: &mut Host, to: u32, from: u32, dst: u32, src: u32, id: &mut u64) -> u32
    requires { HasBoth to from dst src host.old.machine.numbers.callers }
    ensures { Runs NeverFails (Passes to from dst src id.new) (id.new ≡ id.old) host.old host.new
        result }
{
    *id = number_of(host.local_pass(to, dst as u8, from, src as u8));
    OK
}

/// `hdt_local_pass`.
#[unsafe(no_mangle)]
pub extern "C" fn hdt_local_pass(
    alloc: Global,
    host: &mut Held,
    to: u32,
    dst: u32,
    from: u32,
    src: u32,
    id: &mut u64,
) -> u32
    ensures { Comes (HasBoth to from dst src) (λ at. NeverFails)
        (λ at. Passes (at to) (at from) dst src id.new) (id.new ≡ id.old) host.old.value
        host.new.value result }
{
    on_own!(alloc, host, in to and from, local_pass(dst, src, id) if has_both(dst, src), else local_pass_shared)
}

// The same, at an end of a shared host.
#[inline(never)]
fn local_pass_shared(
    alloc: Global,
    host: &mut Held,
    to: u32,
    from: u32,
    dst: u32,
    src: u32,
    id: &mut u64,
) -> u32
    ensures { Comes (HasBoth to from dst src) (λ at. NeverFails)
        (λ at. Passes (at to) (at from) dst src id.new) (id.new ≡ id.old) host.old.value
        host.new.value result }
{
    on_open!(alloc, host, in to and from, local_pass(dst, src, id) if has_both(dst, src))
}

// Clears locals of a context.
fn locals_clear(host: &mut Host, c: u32, first: u32, n: u32) -> u32
    requires { HasRange c first n host.old.machine.numbers.callers }
    ensures { Runs NeverFails (ClearsLocals c first n) KeepsNothing host.old host.new result }
{
    host.locals_clear(c, first as u8, n as u8);
    OK
}

/// `hdt_locals_clear`.
#[unsafe(no_mangle)]
pub extern "C" fn hdt_locals_clear(
    alloc: Global,
    host: &mut Held,
    c: u32,
    first: u32,
    n: u32,
) -> u32
    ensures { Comes (HasRange c first n) (λ at. NeverFails) (λ at. ClearsLocals (at c) first n)
        KeepsNothing host.old.value host.new.value result }
{
    on_own!(alloc, host, in c, locals_clear(first, n) if has_range(first, n), else locals_clear_shared)
}

// The same, at an end of a shared host.
#[inline(never)]
fn locals_clear_shared(alloc: Global, host: &mut Held, c: u32, first: u32, n: u32) -> u32
    ensures { Comes (HasRange c first n) (λ at. NeverFails) (λ at. ClearsLocals (at c) first n)
        KeepsNothing host.old.value host.new.value result }
{
    on_open!(alloc, host, in c, locals_clear(first, n) if has_range(first, n))
}

// How many objects a context may still make.
fn context_left(host: &mut Host, c: u32, objects: &mut u32) -> u32
    requires { HasContext c host.old.machine.numbers.callers }
    ensures { Runs NeverFails (HasLeft c objects.new) (objects.new ≡ objects.old) host.old host.new
        result }
{
    *objects = host.context_left(c);
    OK
}

/// `hdt_context_left`.
#[unsafe(no_mangle)]
pub extern "C" fn hdt_context_left(alloc: Global, host: &mut Held, c: u32, objects: &mut u32) -> u32
    ensures { Comes (HasContext c) (λ at. NeverFails) (λ at. HasLeft (at c) objects.new)
        (objects.new ≡ objects.old) host.old.value host.new.value result }
{
    on_open!(alloc, host, in c, context_left(objects) if has_context())
}

// Sets the entry of a key.
fn table_set(host: &mut Host, c: u32, key: u32, value: u32) -> u32
    requires { HasLocals c key value host.old.machine.numbers.callers }
    ensures { Runs (FailsToSet c key value) (Sets c key value) KeepsNothing host.old host.new
        result }
{
    match host.table_set(c, key as u8, value as u8) {
        Ok(_) => OK,
        Err(fault) => status_of(fault),
    }
}

/// `hdt_table_set`.
#[unsafe(no_mangle)]
pub extern "C" fn hdt_table_set(alloc: Global, host: &mut Held, c: u32, key: u32, value: u32) -> u32
    ensures { Comes (HasLocals c key value) (λ at. FailsToSet (at c) key value)
        (λ at. Sets (at c) key value) KeepsNothing host.old.value host.new.value result }
{
    on_open!(alloc, host, in c, table_set(key, value) if has_locals(key, value))
}

// An object as C gets it.
fn object(info: ObjectInfo) -> Object
    ensures { result ≡ object_out info }
{
    Object {
        id: info.id.0,
        value: info.value,
        fields: info.fields,
        generation: u32::from(info.generation),
        finalizable: if info.registered { 1 } else { 0 },
    }
}

// What a local references.
fn object_info(host: &mut Host, c: u32, local: u32, out: &mut Object) -> u32
    requires { HasLocal c local host.old.machine.numbers.callers }
    ensures { Runs NeverFails (TellsObject c local out.old out.new) (out.new ≡ out.old) host.old
        host.new result }
{
    match host.object_info(c, local as u8) {
        Some(info) => {
            *out = object(info);
            OK
        }
        None => NULL,
    }
}

/// `hdt_object_info`.
#[unsafe(no_mangle)]
pub extern "C" fn hdt_object_info(
    alloc: Global,
    host: &mut Held,
    c: u32,
    local: u32,
    out: &mut Object,
) -> u32
    ensures { Comes (HasLocal c local) (λ at. NeverFails)
        (λ at. TellsObject (at c) local out.old out.new) (out.new ≡ out.old) host.old.value
        host.new.value result }
{
    on_open!(alloc, host, in c, object_info(local, out) if has_local(local))
}

// What the target of a handle is.
fn handle_id(host: &mut Host, handle: u64, id: &mut u64) -> u32
    ensures { Runs (FailsStale handle) (TellsTarget handle id.new) (id.new ≡ id.old) host.old
        host.new result }
{
    match host.handle_id(Handle(handle)) {
        Ok(target) => {
            *id = number_of(target);
            OK
        }
        Err(fault) => status_of(fault),
    }
}

/// `hdt_handle_id`.
#[unsafe(no_mangle)]
pub extern "C" fn hdt_handle_id(alloc: Global, host: &mut Held, handle: u64, id: &mut u64) -> u32
    ensures { Comes AlwaysRight (λ at. FailsStale handle) (λ at. TellsTarget handle id.new)
        (id.new ≡ id.old) host.old.value host.new.value result }
{
    on_open!(alloc, host, handle_id(handle, id))
}
