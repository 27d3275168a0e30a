// What a host shows of itself. These calls change nothing.
ghost use Rattle.std.specs.Prelude.{◌≡◌, ◌<◌, ◌^◌, length, IfSome, MatchResult, MatchOption, Some, option_map};
ghost use Rattle.std.specs.FinMap.{len};
ghost use Rattle.hd_model.specs.declared.data.Slot.{Slot};
ghost use Rattle.hd_model.specs.State.{given_of, handle_at, register_of, total_size};
ghost use Rattle.hd_model.specs.Handles.{handle_of};
ghost use Rattle.hd_host.specs.declared.fault.Fault.TheVariants.{Stale};
ghost use Rattle.hd_host.specs.Handles.{IsOf, IsStale, IsNextFrom, HasNoneFrom};

use crate::fault::Fault;
use crate::handle::Handle;
use crate::host::Host;
use hd_model::limits::REGISTERS;
use hd_model::{Id, Kind, Slot};
use hd_store::HandleInfo;

/// The numbers of a host.
#[derive(Clone, Copy, Debug, PartialEq, Eq)]
pub struct Stats {
    /// The objects, reachable or not.
    pub objects: u32,
    /// The cells that they take together.
    pub cells: u32,
    /// The live handles.
    pub handles: u32,
    /// The blocks in use.
    pub blocks: u32,
    /// The objects that are queued for finalization.
    pub queued: u32,
}

/// A live handle with its slot.
#[derive(Clone, Copy, Debug, PartialEq, Eq)]
pub struct Listed {
    pub slot: Slot,
    pub handle: Handle,
    pub info: HandleInfo<Id>,
}

impl Host {
    /// Its numbers.
    pub fn stats(&self) -> Stats
        ensures objects { result.objects ≡ len self.now.machine.state.objects }
        ensures cells { result.cells ≡ total_size self.now.machine.state }
        ensures handles { result.handles ≡ len self.now.machine.state.handles }
        ensures blocks { result.blocks ≡ given_of self.now.machine.state }
        ensures queued { result.queued ≡ length self.now.machine.state.queue }
    {
        let store = self.store.contents();
        Stats {
            objects: store.objects(),
            cells: store.cells(),
            handles: store.live(),
            blocks: store.given(),
            queued: store.queued(),
        }
    }

    /// What a local references.
    pub fn local_id(&self, context: u32, src: u8) -> Option<Id>
        requires context { context < self.now.machine.numbers.callers }
        requires local { src < REGISTERS }
        ensures { result ≡ register_of self.now.machine.state context src }
    {
        self.store.register(context, src)
    }

    /// What a handle is.
    #[inline(always)]
    pub fn handle_info(&self, handle: Handle) -> Result<HandleInfo<Id>, Fault>
        ensures { MatchResult result
            (λ info. (slot : Slot) × IsOf self.now handle slot
            × (handle_at self.now.machine.state slot ≡ Some (handle_of info)))
            (λ fault. (fault ≡ Stale) × IsStale self.now handle) }
    {
        let Some(slot) = self.live_slot(handle) else {
            return Err(Fault::Stale);
        };
        match self.store.handle(slot) {
            Some(info) => Ok(info),
            None => Err(Fault::Stale),
        }
    }

    /// The kind of a handle.
    pub fn handle_kind(&self, handle: Handle) -> Result<Kind, Fault>
        ensures { MatchResult result
            (λ kind. (slot : Slot) × IsOf self.now handle slot
            × (option_map (λ h. h.kind) (handle_at self.now.machine.state slot) ≡ Some kind))
            (λ fault. (fault ≡ Stale) × IsStale self.now handle) }
    {
        match self.handle_info(handle) {
            Ok(info) => Ok(info.kind),
            Err(fault) => Err(fault),
        }
    }

    /// The live handle with the least slot from a number on.
    pub fn next_handle(&self, from: u32) -> Option<Listed>
        ensures next { MatchOption result (HasNoneFrom self.now from) (IsNextFrom self.now from) }
        ensures few { IfSome result (λ l. l.slot.0 < 2 ^ 24) }
    {
        self.next_of(u32::MAX, false, from)
    }
}
