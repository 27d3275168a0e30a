// Blocks of kinds with extra data that a host has given back: no command does it.
ghost use Rattle.std.specs.Prelude.{◌≡◌, ◌≢◌, ◌≤◌, true, false, None, Some, IfSome, IfNone, IsSome};
ghost use Rattle.std.specs.FinMap.{get, remove};
ghost use Rattle.hd_model.specs.{declared.data.Id.Id, Kinds.is_paired, WellFormed.HasHandles};
ghost use Rattle.hd_model.specs.State.{WeakEntry, extra_data, handles_of, use_of, without_use, IsAllFree};
ghost use Rattle.hd_store.specs.Spare.{GivesBackPair, HasNoSpare, HasNothing, IsLeastSpare, IsSpare, IsVacant, without_slots};

use crate::contents::Contents;
use crate::store::Store;
use hd_model::limits::{HOST_BLOCKS, ROWS};
use hd_model::{Kind, Slot};

impl Store {
    /// Whether a block is a spare one of a kind: each of its slots is free, or idle in the weak
    /// table.
    pub fn is_spare(&self, kind: Kind, block: u32) -> bool
        requires { block ≤ HOST_BLOCKS }
        ensures spare { result ≡ true → IsSpare self.now.state kind block }
        ensures other { result ≡ false → ¬ (IsSpare self.now.state kind block) }
    {
        self.contents.is_spare(kind, block)
    }

    /// The least spare block of a kind. It looks at the blocks with a use up to it.
    pub fn spare_block(&self, kind: Kind) -> Option<u32>
        ensures least { IfSome result (IsLeastSpare self.now.state kind) }
        ensures none { IfNone result (HasNoSpare self.now.state kind) }
    {
        self.contents.spare_block(kind)
    }

    /// Gives a spare block of a kind with extra data back, and the data block that it has, which is
    /// returned. The weak table holds its slots no more.
    pub fn give_back_pair(&mut self, kind: Kind, block: u32) -> u32
        requires paired { is_paired kind ≡ true }
        requires spare { IsSpare self.old.state kind block }
        ensures { GivesBackPair self.old block result self.new }
    {
        self.contents.release_slots(block);
        self.contents.take_back_pair(kind, block)
    }
}

impl Contents {
    /// Whether the weak table holds a slot, which may be any number.
    #[inline(always)]
    pub fn is_held(&self, slot: Slot) -> bool
        ensures held { result ≡ true → IsSome (get self.now.state.weak slot.0) }
        ensures other { result ≡ false → get self.now.state.weak slot.0 ≡ None }
    {
        self.weak.held(slot)
    }

    // Whether a slot, which may be any number, has a handle or an entry of the weak table. An idle
    // one has a row without a target.
    fn is_taken(&self, slot: Slot) -> bool
        ensures taken { result ≡ true → ¬ (HasNothing self.now.state slot) }
        ensures nothing { result ≡ false → HasNothing self.now.state slot }
    {
        if !self.table.is_live(slot) {
            return false;
        }
        if !self.weak.held(slot) {
            return true;
        }
        self.table.target(slot).is_some()
    }

    // Whether no slot of a block has a handle or an entry of the weak table.
    fn is_vacant(&self, block: u32) -> bool
        requires { block ≤ HOST_BLOCKS }
        ensures vacant { result ≡ true → IsVacant self.now.state block }
        ensures taken { result ≡ false → ¬ (IsVacant self.now.state block) }
    {
        for row in 0..ROWS {
            if self.is_taken(Slot(block * ROWS + row)) {
                return false;
            }
        }
        true
    }

    // Whether the handles of a block, if it has any, are of a kind.
    fn is_of_kind(&self, kind: Kind, block: u32) -> bool
        requires { block ≤ HOST_BLOCKS }
        ensures of_kind { result ≡ true → use_of self.now.state block ≡ Some (handles_of kind) }
        ensures other { result ≡ false → use_of self.now.state block ≢ Some (handles_of kind) }
    {
        match self.kind_of(Slot(block * ROWS)) {
            Some(of) => of.number() == kind.number(),
            None => false,
        }
    }

    pub(crate) fn is_spare(&self, kind: Kind, block: u32) -> bool
        requires { block ≤ HOST_BLOCKS }
        ensures spare { result ≡ true → IsSpare self.now.state kind block }
        ensures other { result ≡ false → ¬ (IsSpare self.now.state kind block) }
    {
        self.is_of_kind(kind, block) && self.is_vacant(block)
    }

    pub(crate) fn spare_block(&self, kind: Kind) -> Option<u32>
        requires handles { HasHandles self.now.numbers self.now.state }
        requires few { self.now.numbers.blocks ≤ HOST_BLOCKS }
        ensures least { IfSome result (IsLeastSpare self.now.state kind) }
        ensures none { IfNone result (HasNoSpare self.now.state kind) }
    {
        let mut before = 0;
        while let Some(block) = self.next_given(before + 1) {
            if self.is_spare(kind, block) {
                return Some(block);
            }
            before = block;
        }
        None
    }

    // Has the weak table hold a slot no more, which is idle where it does.
    fn release(&mut self, slot: Slot)
        requires { (e : WeakEntry Id) → get self.old.state.weak slot.0 ≢ Some (Some e) }
        ensures { let weak = remove self.old.state.weak slot.0 in
            let after = record self.old.state { weak = weak } in
            self.new ≡ record self.old { state = after; table = self.new.table } }
    {
        if self.weak.held(slot) {
            self.table.take_row(slot);
            self.weak.release(slot);
        }
    }

    /// Has the weak table hold the slots of a block no more.
    pub(crate) fn release_slots(&mut self, block: u32)
        requires block { block ≤ HOST_BLOCKS }
        requires vacant { IsVacant self.old.state block }
        ensures { let after = without_slots self.old.state block in
            self.new ≡ record self.old { state = after; table = self.new.table } }
    {
        for row in 0..ROWS {
            self.release(Slot(block * ROWS + row));
        }
    }

    /// Takes a block of a kind with extra data whose slots are free out of use, and its data block,
    /// which is returned.
    pub(crate) fn take_back_pair(&mut self, kind: Kind, block: u32) -> u32
        requires paired { is_paired kind ≡ true }
        requires free { IsAllFree self.old.state kind block }
        ensures extra { use_of self.old.state result ≡ Some extra_data }
        ensures after { let after = without_use (without_use self.old.state result) block in
            self.new ≡ record self.old { state = after; table = self.new.table } }
    {
        self.table.take_back_pair(block)
    }
}
