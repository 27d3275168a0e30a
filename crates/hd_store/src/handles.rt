// What a store does with handles and blocks.
ghost use Rattle.std.specs.Prelude.{◌≡◌, ◌+◌, ◌/◌, ◌<◌, ◌≤◌, false, Some, None, IfOk, IfErr, OnOk, OnErr, IsSome, option_map};
ghost use Rattle.hd_commands.specs.Handles.{handle_named, IsWithin, MayBeStored};
ghost use Rattle.hd_model.specs.Handles.{extra_of, handle_of};
ghost use Rattle.hd_store.specs.{Reading.name_in, Reading.named_in, Reading.IsNamed, Store.seen_by};
ghost use Rattle.hd_model.specs.declared.data.Id.{Id};
ghost use Rattle.hd_model.specs.State.{Handle as Held, rename_extra, secondary_of, handle_at, use_of, given_of, without_use, with_handle, block_of, IsFree, IsAllFree};
ghost use Rattle.hd_model.specs.{WellFormed.HasHandles, Kinds.is_paired, Step.blocks_needed, Step.with_growth};
ghost use Rattle.hd_store.specs.{Inside.GrowsBy, Growth.kind_in_use};

use crate::contents::Contents;
use hd_commands::Parts;
use hd_model::limits::{HOST_BLOCKS, ROWS};
use hd_model::{Addr, Extra, Grown, Handle, Id, Kind, Slot};
use hd_seg::{BlockKind, Full, Row};

impl Contents {
    /// The kind of the block of a slot, if it has handles. The slot may be any number.
    pub fn kind_of(&self, slot: Slot) -> Option<Kind>
        ensures { result ≡ kind_in_use (use_of self.now.state (block_of slot)) }
    {
        let block = slot.0 / ROWS;
        if block == 0 || block > self.ages.blocks() {
            return None;
        }
        match self.table.block_kind(block) {
            BlockKind::Rows(kind) => Some(kind),
            BlockKind::Unused | BlockKind::Extras => None,
        }
    }

    /// The target of the handle in a live slot.
    #[inline(always)]
    pub(crate) fn live_target(&self, slot: Slot) -> Option<Addr>
        requires { IsSome (handle_at self.now.state slot) }
        ensures value { option_map (λ (h : Held Id). h.target) (handle_at self.now.state slot)
            ≡ Some (named_in self.now.names result) }
        ensures named { IsNamed self.now.names result }
    {
        self.table.target(slot)
    }

    /// The handle in a live slot.
    #[inline(always)]
    pub(crate) fn live_handle(&self, slot: Slot) -> Handle<Addr>
        requires handles { HasHandles self.now.numbers self.now.state }
        requires live { IsSome (handle_at self.now.state slot) }
        ensures is { handle_at self.now.state slot ≡ Some (handle_named (seen_by self.now) result) }
        ensures may { MayBeStored (seen_by self.now) slot (handle_of result) }
        ensures within { IsWithin (seen_by self.now) slot }
    {
        let kind = self.table.live_kind(slot);
        let row = self.table.row_by(slot, kind.paired());
        Handle {
            kind,
            target: row.target,
            extra: row.extra,
        }
    }

    /// A handle with what it references by identity.
    pub(crate) fn info(&self, handle: Handle<Addr>) -> Handle<Id>
        requires target { IsNamed self.now.names handle.target }
        requires secondary { IsNamed self.now.names (secondary_of (extra_of handle.extra)) }
        ensures { handle_of result ≡ handle_named (seen_by self.now) handle }
    {
        Handle {
            kind: handle.kind,
            target: self.named(handle.target),
            extra: self.extra_info(handle.extra),
        }
    }

    // What it has beside its target, with its secondary by identity.
    fn extra_info(&self, extra: Extra<Addr>) -> Extra<Id>
        requires { IsNamed self.now.names (secondary_of (extra_of extra)) }
        ensures { extra_of result ≡ rename_extra (name_in self.now.names) (extra_of extra) }
    {
        match extra {
            Extra::Nothing => Extra::Nothing,
            Extra::Strength(strength) => Extra::Strength(strength),
            Extra::Secondary(secondary) => Extra::Secondary(self.named(secondary)),
            Extra::Count(count) => Extra::Count(count),
        }
    }

    /// The identity of an object, or null.
    pub(crate) fn named(&self, referenced: Option<Addr>) -> Option<Id>
        requires { IsNamed self.now.names referenced }
        ensures { result ≡ named_in self.now.names referenced }
    {
        match referenced {
            Some(at) => Some(self.id(at)),
            None => None,
        }
    }

    /// Puts a handle into a free slot.
    #[inline(always)]
    pub(crate) fn put_handle(&mut self, slot: Slot, handle: Handle<Addr>)
        requires free { IsFree self.old.state handle.kind slot }
        requires may { MayBeStored (seen_by self.old) slot (handle_of handle) }
        ensures { let named = handle_named (seen_by self.old) handle in
            let after = with_handle self.old.state slot named in
            self.new ≡ record self.old { state = after; table = self.new.table } }
    {
        let row = Row {
            target: handle.target,
            extra: handle.extra,
        };
        self.table.put_row(slot, row);
    }

    /// Brings the least unused block into use for a kind, with the next one for its extra data
    /// where it has some. After a refusal nothing is changed.
    pub(crate) fn give_blocks(&mut self, kind: Kind) -> Result<Grown, Full>
        ensures grown { IfOk result (GrowsBy self.old.numbers self.old.state kind) }
        ensures after { IfOk result (λ grown. let after = with_growth self.old.state kind grown in
            self.new ≡ record self.old { state = after; table = self.new.table }) }
        ensures room { OnOk result
            (given_of self.old.state + blocks_needed kind ≤ self.old.numbers.blocks) }
        ensures full { OnErr result
            (self.old.numbers.blocks < given_of self.old.state + blocks_needed kind) }
        ensures given { IfErr result (λ full. full.given ≡ given_of self.old.state) }
        ensures kept { OnErr result (self.new ≡ self.old) }
        ensures few { self.old.numbers.blocks ≤ HOST_BLOCKS }
    {
        self.table.give_block(kind)
    }

    /// Takes a block without live slots out of use.
    pub(crate) fn take_back(&mut self, kind: Kind, block: u32)
        requires single { is_paired kind ≡ false }
        requires free { IsAllFree self.old.state kind block }
        ensures { let after = without_use self.old.state block in
            self.new ≡ record self.old { state = after; table = self.new.table } }
    {
        self.table.take_back(block);
    }
}
