// The exports on objects.
ghost use Rattle.std.specs.Prelude.{◌≡◌, ◌==◌, ◌<◌, None, Option, Some};
ghost use Rattle.hd_model.specs.declared.command.Cmd.TheVariants as cmd;
ghost use Rattle.hd_model.specs.declared.data.Reply.TheVariants as reply;
ghost use Rattle.hd_store.specs.Replies.{root_reply};
ghost use Rattle.hdt_c.specs.Arguments.{field_number, number_of};
ghost use Rattle.hd_ends.specs.Ends.{EndView};
ghost use Rattle.hd_ends.specs.declared.end.End.TheVariants.{Shared};
ghost use Rattle.hdt_c.specs.Exports.{Comes, Runs, KeepsNothing, IsObject, HasLocal, HasLocals, FailsIn, Replies, Returns, Loads};
ghost use Rattle.hdt_c.specs.Outs.{IsRoot};

use crate::arguments::{FINALIZABLE, field, has_local, has_locals, is_object, number_of};
use crate::held::{Held, on_open};
use crate::own::{on_own, on_shared};
use crate::parts::Root;
use crate::status::{NONE, OK, status, status_of};
use hd_ends::End;
use hd_host::Host;
use std::alloc::Global;

#[inline(always)]
fn object_new(host: &mut Host, c: u32, dst: u32, fields: u32, flags: u32, id: &mut u64) -> u32
    requires { IsObject c dst fields flags host.old.machine.numbers.callers }
    ensures { let command = cmd.New dst fields (flags == 1) in
        Runs (FailsIn c command)
        (Returns c command reply.Object (λ made s. (id.new ≡ made.0) × (s ≡ OK))) (id.new ≡ id.old)
        host.old host.new result }
{
    match host.object_new(c, dst as u8, fields as u8, flags == FINALIZABLE) {
        Ok(made) => {
            *id = made.0;
            OK
        }
        Err(fault) => status_of(fault),
    }
}

/// `hdt_object_new`.
#[unsafe(no_mangle)]
pub extern "C" fn hdt_object_new(
    alloc: Global,
    host: &mut Held,
    c: u32,
    dst: u32,
    fields: u32,
    flags: u32,
    id: &mut u64,
) -> u32
    ensures { let command = cmd.New dst fields (flags == 1) in
        Comes (IsObject c dst fields flags) (λ at. FailsIn (at c) command)
        (λ at. Returns (at c) command reply.Object (λ made s. (id.new ≡ made.0) × (s ≡ OK)))
        (id.new ≡ id.old) host.old.value host.new.value result }
{
    on_open!(alloc, host, in c, object_new(dst, fields, flags, id) if is_object(dst, fields, flags))
}

fn field_get(host: &mut Host, c: u32, dst: u32, object: u32, i: u32, id: &mut u64) -> u32
    requires { HasLocals c dst object host.old.machine.numbers.callers }
    ensures { let command = cmd.Get dst object (field_number i) in
        Runs (FailsIn c command) (Loads c command id.new) (id.new ≡ id.old) host.old host.new
        result }
{
    match host.field_get(c, dst as u8, object as u8, field(i)) {
        Ok(load_reply) => {
            *id = number_of(load_reply);
            OK
        }
        Err(fault) => status_of(fault),
    }
}

/// `hdt_field_get`.
#[unsafe(no_mangle)]
pub extern "C" fn hdt_field_get(
    alloc: Global,
    host: &mut Held,
    c: u32,
    dst: u32,
    object: u32,
    i: u32,
    id: &mut u64,
) -> u32
    ensures { let command = cmd.Get dst object (field_number i) in
        Comes (HasLocals c dst object) (λ at. FailsIn (at c) command)
        (λ at. Loads (at c) command id.new) (id.new ≡ id.old) host.old.value host.new.value result }
{
    on_own!(alloc, host, in c, field_get(dst, object, i, id) if has_locals(dst, object), else field_get_shared)
}

// The same, at an end of a shared host.
#[inline(never)]
fn field_get_shared(
    alloc: Global,
    host: &mut Held,
    c: u32,
    dst: u32,
    object: u32,
    i: u32,
    id: &mut u64,
) -> u32
    ensures { let command = cmd.Get dst object (field_number i) in
        Comes (HasLocals c dst object) (λ at. FailsIn (at c) command)
        (λ at. Loads (at c) command id.new) (id.new ≡ id.old) host.old.value host.new.value result }
{
    on_open!(alloc, host, in c, field_get(dst, object, i, id) if has_locals(dst, object))
}

fn field_set(host: &mut Host, c: u32, object: u32, i: u32, src: u32) -> u32
    requires { HasLocals c object src host.old.machine.numbers.callers }
    ensures { let command = cmd.Set object (field_number i) src in
        Runs (FailsIn c command) (Replies c command reply.Done) KeepsNothing host.old host.new
        result }
{
    status(host.field_set(c, object as u8, field(i), src as u8))
}

/// `hdt_field_set`.
#[unsafe(no_mangle)]
pub extern "C" fn hdt_field_set(
    alloc: Global,
    host: &mut Held,
    c: u32,
    object: u32,
    i: u32,
    src: u32,
) -> u32
    ensures { let command = cmd.Set object (field_number i) src in
        Comes (HasLocals c object src) (λ at. FailsIn (at c) command)
        (λ at. Replies (at c) command reply.Done) KeepsNothing host.old.value host.new.value
        result }
{
    on_own!(alloc, host, in c, field_set(object, i, src) if has_locals(object, src), else field_set_shared with end)
}

// The same, at an end of a shared host.
#[inline(never)]
fn field_set_shared(
    host: &mut Held,
    c: u32,
    object: u32,
    i: u32,
    src: u32,
    mut end: Box<End>,
) -> u32
    requires closed { host.old.value ≡ None }
    requires shared { (e : EndView) × (end.value ≡ Shared e) }
    ensures { let command = cmd.Set object (field_number i) src in
        Comes (HasLocals c object src) (λ at. FailsIn (at c) command)
        (λ at. Replies (at c) command reply.Done) KeepsNothing (Some end.value) host.new.value
        result }
{
    on_shared!(host, end, in c, field_set(object, i, src) if has_locals(object, src))
}

fn value_get(host: &mut Host, c: u32, object: u32, value: &mut u64) -> u32
    requires { HasLocal c object host.old.machine.numbers.callers }
    ensures { let command = cmd.Read object in
        Runs (FailsIn c command) (Replies c command (reply.Value value.new)) (value.new ≡ value.old)
        host.old host.new result }
{
    match host.value_get(c, object as u8) {
        Ok(read) => {
            *value = read;
            OK
        }
        Err(fault) => status_of(fault),
    }
}

/// `hdt_value_get`.
#[unsafe(no_mangle)]
pub extern "C" fn hdt_value_get(
    alloc: Global,
    host: &mut Held,
    c: u32,
    object: u32,
    value: &mut u64,
) -> u32
    ensures { let command = cmd.Read object in
        Comes (HasLocal c object) (λ at. FailsIn (at c) command)
        (λ at. Replies (at c) command (reply.Value value.new)) (value.new ≡ value.old)
        host.old.value host.new.value result }
{
    on_own!(alloc, host, in c, value_get(object, value) if has_local(object), else value_get_shared with end)
}

// The same, at an end of a shared host.
#[inline(never)]
fn value_get_shared(host: &mut Held, c: u32, object: u32, value: &mut u64, mut end: Box<End>) -> u32
    requires closed { host.old.value ≡ None }
    requires shared { (e : EndView) × (end.value ≡ Shared e) }
    ensures { let command = cmd.Read object in
        Comes (HasLocal c object) (λ at. FailsIn (at c) command)
        (λ at. Replies (at c) command (reply.Value value.new)) (value.new ≡ value.old)
        (Some end.value) host.new.value result }
{
    on_shared!(host, end, in c, value_get(object, value) if has_local(object))
}

fn value_set(host: &mut Host, c: u32, object: u32, value: u64) -> u32
    requires { HasLocal c object host.old.machine.numbers.callers }
    ensures { let command = cmd.Val object value in
        Runs (FailsIn c command) (Replies c command reply.Done) KeepsNothing host.old host.new
        result }
{
    status(host.value_set(c, object as u8, value))
}

/// `hdt_value_set`.
#[unsafe(no_mangle)]
pub extern "C" fn hdt_value_set(
    alloc: Global,
    host: &mut Held,
    c: u32,
    object: u32,
    value: u64,
) -> u32
    ensures { let command = cmd.Val object value in
        Comes (HasLocal c object) (λ at. FailsIn (at c) command)
        (λ at. Replies (at c) command reply.Done) KeepsNothing host.old.value host.new.value
        result }
{
    on_own!(alloc, host, in c, value_set(object, value) if has_local(object), else value_set_shared with end)
}

// The same, at an end of a shared host.
#[inline(never)]
fn value_set_shared(host: &mut Held, c: u32, object: u32, value: u64, mut end: Box<End>) -> u32
    requires closed { host.old.value ≡ None }
    requires shared { (e : EndView) × (end.value ≡ Shared e) }
    ensures { let command = cmd.Val object value in
        Comes (HasLocal c object) (λ at. FailsIn (at c) command)
        (λ at. Replies (at c) command reply.Done) KeepsNothing (Some end.value) host.new.value
        result }
{
    on_shared!(host, end, in c, value_set(object, value) if has_local(object))
}

fn read_generation(host: &mut Host, c: u32, object: u32, generation: &mut u32) -> u32
    requires { HasLocal c object host.old.machine.numbers.callers }
    ensures { let command = cmd.Gen object in
        Runs (FailsIn c command) (Replies c command (reply.Generation generation.new))
        (generation.new ≡ generation.old) host.old host.new result }
{
    match host.generation(c, object as u8) {
        Ok(read) => {
            *generation = u32::from(read);
            OK
        }
        Err(fault) => status_of(fault),
    }
}

/// `hdt_generation`.
#[unsafe(no_mangle)]
pub extern "C" fn hdt_generation(
    alloc: Global,
    host: &mut Held,
    c: u32,
    object: u32,
    generation: &mut u32,
) -> u32
    ensures { let command = cmd.Gen object in
        Comes (HasLocal c object) (λ at. FailsIn (at c) command)
        (λ at. Replies (at c) command (reply.Generation generation.new))
        (generation.new ≡ generation.old) host.old.value host.new.value result }
{
    on_open!(alloc, host, in c, read_generation(object, generation) if has_local(object))
}

fn suppress(host: &mut Host, c: u32, object: u32) -> u32
    requires { HasLocal c object host.old.machine.numbers.callers }
    ensures { let command = cmd.Suppress object in
        Runs (FailsIn c command) (Replies c command reply.Done) KeepsNothing host.old host.new
        result }
{
    status(host.suppress(c, object as u8))
}

/// `hdt_suppress`.
#[unsafe(no_mangle)]
pub extern "C" fn hdt_suppress(alloc: Global, host: &mut Held, c: u32, object: u32) -> u32
    ensures { let command = cmd.Suppress object in
        Comes (HasLocal c object) (λ at. FailsIn (at c) command)
        (λ at. Replies (at c) command reply.Done) KeepsNothing host.old.value host.new.value
        result }
{
    on_open!(alloc, host, in c, suppress(object) if has_local(object))
}

fn reregister(host: &mut Host, c: u32, object: u32) -> u32
    requires { HasLocal c object host.old.machine.numbers.callers }
    ensures { let command = cmd.Reregister object in
        Runs (FailsIn c command) (Replies c command reply.Done) KeepsNothing host.old host.new
        result }
{
    status(host.reregister(c, object as u8))
}

/// `hdt_reregister`.
#[unsafe(no_mangle)]
pub extern "C" fn hdt_reregister(alloc: Global, host: &mut Held, c: u32, object: u32) -> u32
    ensures { let command = cmd.Reregister object in
        Comes (HasLocal c object) (λ at. FailsIn (at c) command)
        (λ at. Replies (at c) command reply.Done) KeepsNothing host.old.value host.new.value
        result }
{
    on_open!(alloc, host, in c, reregister(object) if has_local(object))
}

// Where a shortest chain to an object begins.
fn root_of(host: &mut Host, c: u32, object: u32, root: &mut Root) -> u32
    requires { HasLocal c object host.old.machine.numbers.callers }
    ensures { let command = cmd.GcRoot object in
        Runs (FailsIn c command)
        (Returns c command root_reply (λ found. IsRoot found root.old root.new))
        (root.new ≡ root.old) host.old host.new result }
{
    match host.root_of(c, object as u8) {
        Ok(found) => write_root(found, root),
        Err(fault) => status_of(fault),
    }
}

// Writes where a chain begins, if there is one.
fn write_root(found: Option<hd_host::Root>, root: &mut Root) -> u32
    ensures { IsRoot found root.old root.new result }
{
    match found {
        Some(found) => {
            *root = Root {
                from: found.from.0,
                arrows: found.arrows,
            };
            OK
        }
        None => NONE,
    }
}

/// `hdt_root_of`.
#[unsafe(no_mangle)]
pub extern "C" fn hdt_root_of(
    alloc: Global,
    host: &mut Held,
    c: u32,
    object: u32,
    root: &mut Root,
) -> u32
    ensures { let command = cmd.GcRoot object in
        Comes (HasLocal c object) (λ at. FailsIn (at c) command)
        (λ at. Returns (at c) command root_reply (λ found. IsRoot found root.old root.new))
        (root.new ≡ root.old) host.old.value host.new.value result }
{
    on_open!(alloc, host, in c, root_of(object, root) if has_local(object))
}
