// The exports on the weak table.
ghost use Rattle.std.specs.Prelude.{◌≡◌, if◌then◌else◌};
ghost use Rattle.hd_model.specs.declared.command.Cmd.TheVariants as cmd;
ghost use Rattle.hd_host.specs.Calls.{AddsEntry};
ghost use Rattle.hd_store.specs.Replies.{found_reply, removed_reply};
ghost use Rattle.hdt_c.specs.Arguments.{number_of};
ghost use Rattle.hdt_c.specs.Exports.{Comes, Runs, KeepsNothing, HasLocal, HasLocals, FailsIn, Returns};
ghost use Rattle.hdt_c.specs.Outs.{IsFound};

use crate::arguments::{has_local, has_locals, number_of};
use crate::held::{Held, on_open};
use crate::status::{NONE, OK, status, status_of};
use hd_host::{Host, Lookup};
use std::alloc::Global;

fn table_add(host: &mut Host, c: u32, key: u32, value: u32) -> u32
    requires { HasLocals c key value host.old.machine.numbers.callers }
    ensures { let command = cmd.CAdd key value in
        Runs (FailsIn c command) (λ v w s. AddsEntry v c key value w × (s ≡ OK)) KeepsNothing
        host.old host.new result }
{
    status(host.table_add(c, key as u8, value as u8))
}

/// `hdt_table_add`.
#[unsafe(no_mangle)]
pub extern "C" fn hdt_table_add(alloc: Global, host: &mut Held, c: u32, key: u32, value: u32) -> u32
    ensures { let command = cmd.CAdd key value in
        Comes (HasLocals c key value) (λ at. FailsIn (at c) command)
        (λ at v w s. AddsEntry v (at c) key value w × (s ≡ OK)) KeepsNothing host.old.value
        host.new.value result }
{
    on_open!(alloc, host, in c, table_add(key, value) if has_locals(key, value))
}

fn table_find(host: &mut Host, c: u32, dst: u32, key: u32, id: &mut u64) -> u32
    requires { HasLocals c dst key host.old.machine.numbers.callers }
    ensures { let command = cmd.CFind dst key in
        Runs (FailsIn c command)
        (Returns c command found_reply (λ found. IsFound found id.old id.new)) (id.new ≡ id.old)
        host.old host.new result }
{
    match host.table_find(c, dst as u8, key as u8) {
        Ok(found) => write_found(found, id),
        Err(fault) => status_of(fault),
    }
}

// Writes what was found, if it was.
fn write_found(found: Lookup, id: &mut u64) -> u32
    ensures { IsFound found id.old id.new result }
{
    match found {
        Lookup::Value(value) => {
            *id = number_of(value);
            OK
        }
        Lookup::Absent => NONE,
    }
}

/// `hdt_table_find`.
#[unsafe(no_mangle)]
pub extern "C" fn hdt_table_find(
    alloc: Global,
    host: &mut Held,
    c: u32,
    dst: u32,
    key: u32,
    id: &mut u64,
) -> u32
    ensures { let command = cmd.CFind dst key in
        Comes (HasLocals c dst key) (λ at. FailsIn (at c) command)
        (λ at. Returns (at c) command found_reply (λ found. IsFound found id.old id.new))
        (id.new ≡ id.old) host.old.value host.new.value result }
{
    on_open!(alloc, host, in c, table_find(dst, key, id) if has_locals(dst, key))
}

fn table_remove(host: &mut Host, c: u32, key: u32) -> u32
    requires { HasLocal c key host.old.machine.numbers.callers }
    ensures { let command = cmd.CRemove key in
        Runs (FailsIn c command)
        (Returns c command removed_reply (λ removed s. s ≡ (if removed then OK else NONE)))
        KeepsNothing host.old host.new result }
{
    match host.table_remove(c, key as u8) {
        Ok(removed) => status_of_removed(removed),
        Err(fault) => status_of(fault),
    }
}

// Whether an entry was taken out.
fn status_of_removed(removed: bool) -> u32
    ensures { result ≡ (if removed then OK else NONE) }
{
    if removed { OK } else { NONE }
}

/// `hdt_table_remove`.
#[unsafe(no_mangle)]
pub extern "C" fn hdt_table_remove(alloc: Global, host: &mut Held, c: u32, key: u32) -> u32
    ensures { let command = cmd.CRemove key in
        Comes (HasLocal c key) (λ at. FailsIn (at c) command)
        (λ at. Returns (at c) command removed_reply (λ removed s. s ≡ (if removed then OK else NONE)))
        KeepsNothing host.old.value host.new.value result }
{
    on_open!(alloc, host, in c, table_remove(key) if has_local(key))
}
