// The exports on handles.
ghost use Rattle.std.specs.Prelude.{◌≡◌, None, Some, option_map};
ghost use Rattle.hd_model.specs.{declared.data.Make.Make, declared.data.Slot.Slot, declared.data.Strength.Strength, Kinds.kind_number, State.handle_at};
ghost use Rattle.hd_model.specs.declared.command.Cmd.TheVariants as cmd;
ghost use Rattle.hd_model.specs.declared.data.Reply.TheVariants as reply;
ghost use Rattle.hd_host.specs.declared.fault.Fault.TheVariants.{Stale};
ghost use Rattle.hd_host.specs.Handles.{IsOf, IsStale};
ghost use Rattle.hd_host.specs.Calls.{FreesHandle, MakesHandle};
ghost use Rattle.hdt_c.specs.Arguments.{IsMake, number_of, strength_number};
ghost use Rattle.hd_ends.specs.Ends.{EndView};
ghost use Rattle.hd_ends.specs.declared.end.End.TheVariants.{Shared};
ghost use Rattle.hdt_c.specs.Exports.{Comes, Runs, KeepsNothing, AlwaysRight, IsNewHandle, IsStrength, HasLocal, FailsIn, FailsAt, RepliesAt, LoadsAt};

use crate::arguments::{
    has_local, is_new_handle, is_strength, make, number_of, number_of_kind, strength_of,
};
use crate::held::{Held, on_open};
use crate::own::{on_own, on_shared};
use crate::status::{OK, status, status_of};
use hd_ends::End;
use hd_host::{Handle, Host};
use std::alloc::Global;

#[inline(always)]
fn handle_new(host: &mut Host, c: u32, kind: u32, target: u32, extra: u32, out: &mut u64) -> u32
    requires { IsNewHandle c kind target extra host.old.machine.numbers.callers }
    ensures { Runs (λ v f. (made : Make) × IsMake made kind extra ×
        FailsIn c (cmd.HNew 0 made target) v f) (λ v w s. (made : Make) × IsMake made kind extra ×
        MakesHandle v c made target w (record { 0 = out.new }) × (s ≡ OK)) (out.new ≡ out.old)
        host.old host.new result }
{
    let Some(made) = make(kind, extra) else {
        unreachable!()
    };
    match host.handle_new(c, made, target as u8) {
        Ok(handle) => {
            *out = handle.0;
            OK
        }
        Err(fault) => status_of(fault),
    }
}

/// `hdt_handle_new`.
#[unsafe(no_mangle)]
pub extern "C" fn hdt_handle_new(
    alloc: Global,
    host: &mut Held,
    c: u32,
    kind: u32,
    target: u32,
    extra: u32,
    out: &mut u64,
) -> u32
    ensures { Comes (IsNewHandle c kind target extra) (λ at v f. (made : Make) ×
        IsMake made kind extra × FailsIn (at c) (cmd.HNew 0 made target) v f)
        (λ at v w s. (made : Make) × IsMake made kind extra ×
        MakesHandle v (at c) made target w (record { 0 = out.new }) × (s ≡ OK)) (out.new ≡ out.old)
        host.old.value host.new.value result }
{
    on_open!(alloc, host, in c, handle_new(kind, target, extra, out)
        if is_new_handle(kind, target, extra))
}

#[inline(always)]
fn handle_free(host: &mut Host, handle: u64) -> u32
    ensures { let command = cmd.HFree 0 in
        Runs (FailsAt 0 handle command)
        (λ v w s. FreesHandle v (record { 0 = handle }) w × (s ≡ OK)) KeepsNothing host.old host.new
        result }
{
    status(host.handle_free(Handle(handle)))
}

/// `hdt_handle_free`.
#[unsafe(no_mangle)]
pub extern "C" fn hdt_handle_free(alloc: Global, host: &mut Held, handle: u64) -> u32
    ensures { let command = cmd.HFree 0 in
        Comes AlwaysRight (λ at. FailsAt 0 handle command)
        (λ at v w s. FreesHandle v (record { 0 = handle }) w × (s ≡ OK)) KeepsNothing host.old.value
        host.new.value result }
{
    on_own!(alloc, host, handle_free(handle), else handle_free_shared with end)
}

// The same, at an end of a shared host.
#[inline(never)]
fn handle_free_shared(host: &mut Held, handle: u64, mut end: Box<End>) -> u32
    requires closed { host.old.value ≡ None }
    requires shared { (e : EndView) × (end.value ≡ Shared e) }
    ensures { let command = cmd.HFree 0 in
        Comes AlwaysRight (λ at. FailsAt 0 handle command)
        (λ at v w s. FreesHandle v (record { 0 = handle }) w × (s ≡ OK)) KeepsNothing (Some end.value)
        host.new.value result }
{
    on_shared!(host, end, handle_free(handle))
}

#[inline(always)]
fn handle_get(host: &mut Host, c: u32, handle: u64, dst: u32, id: &mut u64) -> u32
    requires { HasLocal c dst host.old.machine.numbers.callers }
    ensures { let command = cmd.HGet dst 0 in
        Runs (FailsAt c handle command) (LoadsAt c handle command id.new) (id.new ≡ id.old) host.old
        host.new result }
{
    match host.handle_get(c, Handle(handle), dst as u8) {
        Ok(load_reply) => {
            *id = number_of(load_reply);
            OK
        }
        Err(fault) => status_of(fault),
    }
}

/// `hdt_handle_get`.
#[unsafe(no_mangle)]
pub extern "C" fn hdt_handle_get(
    alloc: Global,
    host: &mut Held,
    c: u32,
    handle: u64,
    dst: u32,
    id: &mut u64,
) -> u32
    ensures { let command = cmd.HGet dst 0 in
        Comes (HasLocal c dst) (λ at. FailsAt (at c) handle command)
        (λ at. LoadsAt (at c) handle command id.new) (id.new ≡ id.old) host.old.value host.new.value
        result }
{
    on_own!(alloc, host, in c, handle_get(handle, dst, id) if has_local(dst), else get_shared with end)
}

// The same, at an end of a shared host.
#[inline(never)]
fn get_shared(
    host: &mut Held,
    c: u32,
    handle: u64,
    dst: u32,
    id: &mut u64,
    mut end: Box<End>,
) -> u32
    requires closed { host.old.value ≡ None }
    requires shared { (e : EndView) × (end.value ≡ Shared e) }
    ensures { let command = cmd.HGet dst 0 in
        Comes (HasLocal c dst) (λ at. FailsAt (at c) handle command)
        (λ at. LoadsAt (at c) handle command id.new) (id.new ≡ id.old) (Some end.value) host.new.value
        result }
{
    on_shared!(host, end, in c, handle_get(handle, dst, id) if has_local(dst))
}

#[inline(always)]
fn handle_set(host: &mut Host, c: u32, handle: u64, src: u32) -> u32
    requires { HasLocal c src host.old.machine.numbers.callers }
    ensures { let command = cmd.HSet 0 src in
        Runs (FailsAt c handle command) (RepliesAt c handle command reply.Done) KeepsNothing
        host.old host.new result }
{
    status(host.handle_set(c, Handle(handle), src as u8))
}

/// `hdt_handle_set`.
#[unsafe(no_mangle)]
pub extern "C" fn hdt_handle_set(
    alloc: Global,
    host: &mut Held,
    c: u32,
    handle: u64,
    src: u32,
) -> u32
    ensures { let command = cmd.HSet 0 src in
        Comes (HasLocal c src) (λ at. FailsAt (at c) handle command)
        (λ at. RepliesAt (at c) handle command reply.Done) KeepsNothing host.old.value
        host.new.value result }
{
    on_own!(alloc, host, in c, handle_set(handle, src) if has_local(src), else handle_set_shared with end)
}

// The same, at an end of a shared host.
#[inline(never)]
fn handle_set_shared(host: &mut Held, c: u32, handle: u64, src: u32, mut end: Box<End>) -> u32
    requires closed { host.old.value ≡ None }
    requires shared { (e : EndView) × (end.value ≡ Shared e) }
    ensures { let command = cmd.HSet 0 src in
        Comes (HasLocal c src) (λ at. FailsAt (at c) handle command)
        (λ at. RepliesAt (at c) handle command reply.Done) KeepsNothing (Some end.value)
        host.new.value result }
{
    on_shared!(host, end, in c, handle_set(handle, src) if has_local(src))
}

// What kind a handle is of.
fn handle_kind(host: &mut Host, handle: u64, kind: &mut u32) -> u32
    ensures { Runs (λ v f. (f ≡ Stale) × IsStale v (record { 0 = handle })) (λ v w s. (w ≡ v) ×
        (s ≡ OK) ×
        ((slot : Slot) × IsOf v (record { 0 = handle }) slot ×
        (option_map (λ h. kind_number h.kind) (handle_at v.machine.state slot) ≡ Some kind.new)))
        (kind.new ≡ kind.old) host.old host.new result }
{
    match host.handle_kind(Handle(handle)) {
        Ok(found) => {
            *kind = number_of_kind(found);
            OK
        }
        Err(fault) => status_of(fault),
    }
}

/// `hdt_handle_kind`.
#[unsafe(no_mangle)]
pub extern "C" fn hdt_handle_kind(
    alloc: Global,
    host: &mut Held,
    handle: u64,
    kind: &mut u32,
) -> u32
    ensures { Comes AlwaysRight (λ at v f. (f ≡ Stale) × IsStale v (record { 0 = handle }))
        (λ at v w s. (w ≡ v) × (s ≡ OK) ×
        ((slot : Slot) × IsOf v (record { 0 = handle }) slot ×
        (option_map (λ h. kind_number h.kind) (handle_at v.machine.state slot) ≡ Some kind.new)))
        (kind.new ≡ kind.old) host.old.value host.new.value result }
{
    on_open!(alloc, host, handle_kind(handle, kind))
}

fn secondary_get(host: &mut Host, c: u32, handle: u64, dst: u32, id: &mut u64) -> u32
    requires { HasLocal c dst host.old.machine.numbers.callers }
    ensures { let command = cmd.HDep dst 0 in
        Runs (FailsAt c handle command) (LoadsAt c handle command id.new) (id.new ≡ id.old) host.old
        host.new result }
{
    match host.secondary_get(c, Handle(handle), dst as u8) {
        Ok(load_reply) => {
            *id = number_of(load_reply);
            OK
        }
        Err(fault) => status_of(fault),
    }
}

/// `hdt_secondary_get`.
#[unsafe(no_mangle)]
pub extern "C" fn hdt_secondary_get(
    alloc: Global,
    host: &mut Held,
    c: u32,
    handle: u64,
    dst: u32,
    id: &mut u64,
) -> u32
    ensures { let command = cmd.HDep dst 0 in
        Comes (HasLocal c dst) (λ at. FailsAt (at c) handle command)
        (λ at. LoadsAt (at c) handle command id.new) (id.new ≡ id.old) host.old.value host.new.value
        result }
{
    on_open!(alloc, host, in c, secondary_get(handle, dst, id) if has_local(dst))
}

fn secondary_set(host: &mut Host, c: u32, handle: u64, src: u32) -> u32
    requires { HasLocal c src host.old.machine.numbers.callers }
    ensures { let command = cmd.HSec 0 src in
        Runs (FailsAt c handle command) (RepliesAt c handle command reply.Done) KeepsNothing
        host.old host.new result }
{
    status(host.secondary_set(c, Handle(handle), src as u8))
}

/// `hdt_secondary_set`.
#[unsafe(no_mangle)]
pub extern "C" fn hdt_secondary_set(
    alloc: Global,
    host: &mut Held,
    c: u32,
    handle: u64,
    src: u32,
) -> u32
    ensures { let command = cmd.HSec 0 src in
        Comes (HasLocal c src) (λ at. FailsAt (at c) handle command)
        (λ at. RepliesAt (at c) handle command reply.Done) KeepsNothing host.old.value
        host.new.value result }
{
    on_open!(alloc, host, in c, secondary_set(handle, src) if has_local(src))
}

fn strength_set(host: &mut Host, handle: u64, strength: u32) -> u32
    requires { IsStrength strength }
    ensures { Runs (λ v f. (given : Strength) × (strength_number given ≡ strength) ×
        FailsAt 0 handle (cmd.HVar 0 given) v f) (λ v w s. (given : Strength) ×
        (strength_number given ≡ strength) × RepliesAt 0 handle (cmd.HVar 0 given) reply.Done v w s)
        KeepsNothing host.old host.new result }
{
    let Some(given) = strength_of(strength) else {
        unreachable!()
    };
    status(host.strength_set(Handle(handle), given))
}

/// `hdt_strength_set`.
#[unsafe(no_mangle)]
pub extern "C" fn hdt_strength_set(
    alloc: Global,
    host: &mut Held,
    handle: u64,
    strength: u32,
) -> u32
    ensures { Comes (λ contexts. IsStrength strength) (λ at v f. (given : Strength) ×
        (strength_number given ≡ strength) × FailsAt 0 handle (cmd.HVar 0 given) v f)
        (λ at v w s. (given : Strength) × (strength_number given ≡ strength) ×
        RepliesAt 0 handle (cmd.HVar 0 given) reply.Done v w s) KeepsNothing host.old.value
        host.new.value result }
{
    on_open!(alloc, host, strength_set(handle, strength) if is_strength(strength))
}

fn count_up(host: &mut Host, handle: u64, count: &mut u64) -> u32
    ensures { let command = cmd.HUp 0 in
        Runs (FailsAt 0 handle command) (RepliesAt 0 handle command (reply.Value count.new))
        (count.new ≡ count.old) host.old host.new result }
{
    match host.count_up(Handle(handle)) {
        Ok(risen) => {
            *count = risen;
            OK
        }
        Err(fault) => status_of(fault),
    }
}

/// `hdt_count_up`.
#[unsafe(no_mangle)]
pub extern "C" fn hdt_count_up(alloc: Global, host: &mut Held, handle: u64, count: &mut u64) -> u32
    ensures { let command = cmd.HUp 0 in
        Comes AlwaysRight (λ at. FailsAt 0 handle command)
        (λ at. RepliesAt 0 handle command (reply.Value count.new)) (count.new ≡ count.old)
        host.old.value host.new.value result }
{
    on_open!(alloc, host, count_up(handle, count))
}

fn count_down(host: &mut Host, handle: u64, count: &mut u64) -> u32
    ensures { let command = cmd.HDown 0 in
        Runs (FailsAt 0 handle command) (RepliesAt 0 handle command (reply.Value count.new))
        (count.new ≡ count.old) host.old host.new result }
{
    match host.count_down(Handle(handle)) {
        Ok(fallen) => {
            *count = fallen;
            OK
        }
        Err(fault) => status_of(fault),
    }
}

/// `hdt_count_down`.
#[unsafe(no_mangle)]
pub extern "C" fn hdt_count_down(
    alloc: Global,
    host: &mut Held,
    handle: u64,
    count: &mut u64,
) -> u32
    ensures { let command = cmd.HDown 0 in
        Comes AlwaysRight (λ at. FailsAt 0 handle command)
        (λ at. RepliesAt 0 handle command (reply.Value count.new)) (count.new ≡ count.old)
        host.old.value host.new.value result }
{
    on_open!(alloc, host, count_down(handle, count))
}

// Where a pinned object is.
fn address(host: &mut Host, handle: u64, cell: &mut u32) -> u32
    ensures { let command = cmd.AddrOf 0 in
        Runs (FailsAt 0 handle command) (RepliesAt 0 handle command (reply.Place cell.new))
        (cell.new ≡ cell.old) host.old host.new result }
{
    match host.address(Handle(handle)) {
        Ok(address) => {
            *cell = address;
            OK
        }
        Err(fault) => status_of(fault),
    }
}

/// `hdt_address`.
#[unsafe(no_mangle)]
pub extern "C" fn hdt_address(alloc: Global, host: &mut Held, handle: u64, cell: &mut u32) -> u32
    ensures { let command = cmd.AddrOf 0 in
        Comes AlwaysRight (λ at. FailsAt 0 handle command)
        (λ at. RepliesAt 0 handle command (reply.Place cell.new)) (cell.new ≡ cell.old)
        host.old.value host.new.value result }
{
    on_open!(alloc, host, address(handle, cell))
}
