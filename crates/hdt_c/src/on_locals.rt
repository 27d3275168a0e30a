// The exports on locals and statics.
ghost use Rattle.std.specs.Prelude.{◌≡◌, None, Some};
ghost use Rattle.hd_model.specs.{State.register_of};
ghost use Rattle.hd_model.specs.declared.command.Cmd.TheVariants as cmd;
ghost use Rattle.hd_model.specs.declared.data.Reply.TheVariants as reply;
ghost use Rattle.hdt_c.specs.Arguments.{number_of};
ghost use Rattle.hd_ends.specs.Ends.{EndView};
ghost use Rattle.hd_ends.specs.declared.end.End.TheVariants.{Shared};
ghost use Rattle.hdt_c.specs.Exports.{Comes, Runs, KeepsNothing, NeverFails, HasLocal, HasLocals, Replies, Loads};

use crate::arguments::{has_local, has_locals, number_of};
use crate::held::{Held, on_open};
use crate::own::{on_own, on_shared};
use crate::status::OK;
use hd_ends::End;
use hd_host::Host;
use std::alloc::Global;

// What a local references.
fn local_id(host: &mut Host, c: u32, src: u32, id: &mut u64) -> u32
    requires { HasLocal c src host.old.machine.numbers.callers }
    ensures { Runs NeverFails (λ v w s. (w ≡ v) ×
        (id.new ≡ number_of (register_of v.machine.state c src)) × (s ≡ OK)) (id.new ≡ id.old)
        host.old host.new result }
{
    *id = number_of(host.local_id(c, src as u8));
    OK
}

/// `hdt_local_id`.
#[unsafe(no_mangle)]
pub extern "C" fn hdt_local_id(
    alloc: Global,
    host: &mut Held,
    c: u32,
    src: u32,
    id: &mut u64,
) -> u32
    ensures { Comes (HasLocal c src) (λ at. NeverFails) (λ at v w s. (w ≡ v) ×
        (id.new ≡ number_of (register_of v.machine.state (at c) src)) × (s ≡ OK)) (id.new ≡ id.old)
        host.old.value host.new.value result }
{
    on_open!(alloc, host, in c, local_id(src, id) if has_local(src))
}

fn local_copy(host: &mut Host, c: u32, dst: u32, src: u32) -> u32
    requires { HasLocals c dst src host.old.machine.numbers.callers }
    ensures { let command = cmd.Copy dst src in
        Runs NeverFails (Replies c command reply.Done) KeepsNothing host.old host.new result }
{
    host.local_copy(c, dst as u8, src as u8);
    OK
}

/// `hdt_local_copy`.
#[unsafe(no_mangle)]
pub extern "C" fn hdt_local_copy(alloc: Global, host: &mut Held, c: u32, dst: u32, src: u32) -> u32
    ensures { let command = cmd.Copy dst src in
        Comes (HasLocals c dst src) (λ at. NeverFails) (λ at. Replies (at c) command reply.Done)
        KeepsNothing host.old.value host.new.value result }
{
    on_own!(alloc, host, in c, local_copy(dst, src) if has_locals(dst, src), else local_copy_shared with end)
}

// The same, at an end of a shared host.
#[inline(never)]
fn local_copy_shared(host: &mut Held, c: u32, dst: u32, src: u32, mut end: Box<End>) -> u32
    requires closed { host.old.value ≡ None }
    requires shared { (e : EndView) × (end.value ≡ Shared e) }
    ensures { let command = cmd.Copy dst src in
        Comes (HasLocals c dst src) (λ at. NeverFails) (λ at. Replies (at c) command reply.Done)
        KeepsNothing (Some end.value) host.new.value result }
{
    on_shared!(host, end, in c, local_copy(dst, src) if has_locals(dst, src))
}

fn local_clear(host: &mut Host, c: u32, dst: u32) -> u32
    requires { HasLocal c dst host.old.machine.numbers.callers }
    ensures { let command = cmd.Clear dst in
        Runs NeverFails (Replies c command reply.Done) KeepsNothing host.old host.new result }
{
    host.local_clear(c, dst as u8);
    OK
}

/// `hdt_local_clear`.
#[unsafe(no_mangle)]
pub extern "C" fn hdt_local_clear(alloc: Global, host: &mut Held, c: u32, dst: u32) -> u32
    ensures { let command = cmd.Clear dst in
        Comes (HasLocal c dst) (λ at. NeverFails) (λ at. Replies (at c) command reply.Done)
        KeepsNothing host.old.value host.new.value result }
{
    on_own!(alloc, host, in c, local_clear(dst) if has_local(dst), else local_clear_shared with end)
}

// The same, at an end of a shared host.
#[inline(never)]
fn local_clear_shared(host: &mut Held, c: u32, dst: u32, mut end: Box<End>) -> u32
    requires closed { host.old.value ≡ None }
    requires shared { (e : EndView) × (end.value ≡ Shared e) }
    ensures { let command = cmd.Clear dst in
        Comes (HasLocal c dst) (λ at. NeverFails) (λ at. Replies (at c) command reply.Done)
        KeepsNothing (Some end.value) host.new.value result }
{
    on_shared!(host, end, in c, local_clear(dst) if has_local(dst))
}

fn static_get(host: &mut Host, c: u32, dst: u32, k: u32, id: &mut u64) -> u32
    requires { HasLocals c dst k host.old.machine.numbers.callers }
    ensures { let command = cmd.SGet dst k in
        Runs NeverFails (Loads c command id.new) (id.new ≡ id.old) host.old host.new result }
{
    *id = number_of(host.static_get(c, dst as u8, k as u8));
    OK
}

/// `hdt_static_get`.
#[unsafe(no_mangle)]
pub extern "C" fn hdt_static_get(
    alloc: Global,
    host: &mut Held,
    c: u32,
    dst: u32,
    k: u32,
    id: &mut u64,
) -> u32
    ensures { let command = cmd.SGet dst k in
        Comes (HasLocals c dst k) (λ at. NeverFails) (λ at. Loads (at c) command id.new)
        (id.new ≡ id.old) host.old.value host.new.value result }
{
    on_own!(alloc, host, in c, static_get(dst, k, id) if has_locals(dst, k), else static_get_shared with end)
}

// The same, at an end of a shared host.
#[inline(never)]
fn static_get_shared(
    host: &mut Held,
    c: u32,
    dst: u32,
    k: u32,
    id: &mut u64,
    mut end: Box<End>,
) -> u32
    requires closed { host.old.value ≡ None }
    requires shared { (e : EndView) × (end.value ≡ Shared e) }
    ensures { let command = cmd.SGet dst k in
        Comes (HasLocals c dst k) (λ at. NeverFails) (λ at. Loads (at c) command id.new)
        (id.new ≡ id.old) (Some end.value) host.new.value result }
{
    on_shared!(host, end, in c, static_get(dst, k, id) if has_locals(dst, k))
}

fn static_set(host: &mut Host, c: u32, k: u32, src: u32) -> u32
    requires { HasLocals c k src host.old.machine.numbers.callers }
    ensures { let command = cmd.SPut k src in
        Runs NeverFails (Replies c command reply.Done) KeepsNothing host.old host.new result }
{
    host.static_set(c, k as u8, src as u8);
    OK
}

/// `hdt_static_set`.
#[unsafe(no_mangle)]
pub extern "C" fn hdt_static_set(alloc: Global, host: &mut Held, c: u32, k: u32, src: u32) -> u32
    ensures { let command = cmd.SPut k src in
        Comes (HasLocals c k src) (λ at. NeverFails) (λ at. Replies (at c) command reply.Done)
        KeepsNothing host.old.value host.new.value result }
{
    on_own!(alloc, host, in c, static_set(k, src) if has_locals(k, src), else static_set_shared with end)
}

// The same, at an end of a shared host.
#[inline(never)]
fn static_set_shared(host: &mut Held, c: u32, k: u32, src: u32, mut end: Box<End>) -> u32
    requires closed { host.old.value ≡ None }
    requires shared { (e : EndView) × (end.value ≡ Shared e) }
    ensures { let command = cmd.SPut k src in
        Comes (HasLocals c k src) (λ at. NeverFails) (λ at. Replies (at c) command reply.Done)
        KeepsNothing (Some end.value) host.new.value result }
{
    on_shared!(host, end, in c, static_set(k, src) if has_locals(k, src))
}
