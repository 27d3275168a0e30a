// `addr`: the address of a pinned object, which no collection changes.
ghost use Rattle.std.specs.Prelude.{◌≡◌, ◌<◌, Ok, Err, IsSome, MatchResult};
ghost use Rattle.hd_model.specs.declared.data.Addr.{Addr};
ghost use Rattle.hd_model.specs.declared.data.Reply.TheVariants as reply;
ghost use Rattle.hd_commands.specs.Handles.{pinned_of};
ghost use Rattle.hd_commands.specs.Handles.{handle_named};
ghost use Rattle.hd_store.specs.{Reading.name_in, Reading.IsNamed, Store.seen_by};
ghost use Rattle.std.specs.{FinMap.get};
ghost use Rattle.hd_model.specs.WellFormed.{HasHandles};
ghost use Rattle.hd_model.specs.declared.command.Cmd.TheVariants as cmds;
ghost use Rattle.hd_store.specs.{Inside.HasAddress, PinnedAddresses.KeepsPinned};
ghost use Rattle.hd_commands.specs.Done.{done_of, done_with, entry_by};

use crate::contents::Contents;
use hd_commands::on_handles::{pinned_by, pinned_in};
use hd_model::limits::REGISTERS;
use hd_model::{Addr, Handle, Refusal};

impl Contents {
    /// The address of an object, as `addr` returns it.
    fn address(&self, at: Addr) -> u32
        requires { IsSome (get self.now.names at.0) }
        ensures value { result ≡ at.0 }
        ensures address { HasAddress self.now at }
    {
        // Read for the proof alone: objects lie apart, below 2^32.
        let _objects = self.heap.count();
        at.0
    }
}

/// The address of what a handle pins.
#[inline(always)]
pub(crate) fn address_by(store: &Contents, handle: Handle<Addr>) -> Result<u32, Refusal>
    requires { IsNamed store.now.names handle.target }
    ensures { let pinned = pinned_of (handle_named (seen_by store.now) handle) in
        MatchResult result (λ a. let at : Addr = record { 0 = a } in
        (pinned ≡ Ok (name_in store.now.names at)) × HasAddress store.now at)
        (λ refused. pinned ≡ Err refused) }
{
    match pinned_by(store, handle) {
        Ok(at) => Ok(store.address(at)),
        Err(refusal) => Err(refusal),
    }
}

/// `addr hS`.
pub(crate) fn reply_address(store: &Contents, caller: u32, h: u8) -> Result<u32, Refusal>
    requires handles { HasHandles store.now.numbers store.now.state }
    requires caller { caller < store.now.numbers.callers }
    requires register { h < REGISTERS }
    ensures { let e = entry_by caller (cmds.AddrOf h) (done_of (done_with reply.Place result)) in
        KeepsPinned store.now e store.now }
{
    match pinned_in(store, caller, h) {
        Ok(at) => Ok(store.address(at)),
        Err(refusal) => Err(refusal),
    }
}
