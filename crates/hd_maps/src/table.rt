// The handles by slot, and the use of each block.
ghost use Rattle.std.specs.Prelude.{◌≡◌, ℕ, ◌+◌, ◌*◌, ◌<◌, ◌≤◌, ◌↔◌, length, Some, None, IsSome, IsTrue, IfOk, IfSome, IfNone, map, option_map};
ghost use Rattle.std.specs.FinMap as map;
ghost use Rattle.std.specs.FinMap.{get, insert, keys, len, values};
ghost use Rattle.hd_model.specs.State.{handles_of};
ghost use Rattle.hd_model.specs.declared.limits.TheConstants.{BLOCKS, ROWS};
ghost use Rattle.hd_model.specs.Handles.{handle_of};
ghost use Rattle.hd_maps.specs.View.{use_of};
ghost use Rattle.hd_maps.specs.TableViews.{slots_of, IsLeast};

use crate::data::{BlockUse, Handle, is_kind};
use crate::numbered::Numbered;
use hd_model::{Kind, Memory};
use std::alloc::Global;
use std::marker::Model;

/// The handles by slot and the use of each block that has one.
#[derive(Drop)]
pub struct Table {
    // The blocks that there may be.
    blocks: u32,
    handles: Numbered<Handle>,
    uses: Numbered<BlockUse>,
}

impl Model for Table {
    ghost use Rattle.hd_model.specs.Handles.{handle_of};
    ghost use Rattle.hd_maps.specs.View.{use_of};
    ghost use Rattle.hd_maps.specs.TableViews.{TableView, table_view_code};
    ghost use Rattle.hd_maps.specs.Fields.{seen_as};
    ghost use Rattle.hd_maps.specs.Inside.{IsTable};

    ghost Value = { TableView };

    ghost coded = { table_view_code };

    ghost view = { λ t. record {
      blocks = t.blocks;
      handles = seen_as handle_of t.handles;
      uses = seen_as use_of t.uses;
    } };

    ghost invariant = { λ t. IsTable t.blocks t.handles t.uses };
}

impl Table {
    /// No handles, and no block has a use.
    pub fn open(alloc: Global, blocks: u32) -> Table
        requires { blocks ≤ BLOCKS }
        ensures { result ≡ record { blocks = blocks; handles = map.empty; uses = map.empty } }
    {
        let handles = Numbered::new(alloc);
        let uses = Numbered::new(alloc);
        Table {
            blocks,
            handles,
            uses,
        }
    }

    /// The number of live handles.
    pub fn len(&self) -> u32
        ensures { result ≡ len self.now.handles }
    {
        self.handles.len() as u32
    }

    /// The number of blocks that there may be.
    pub fn blocks(&self) -> u32
        ensures value { result ≡ self.now.blocks }
        ensures limit { result ≤ BLOCKS }
    {
        self.blocks
    }

    /// The handle in a slot, which may be any number.
    pub fn handle(&self, slot: u64) -> Option<Handle>
        ensures { option_map handle_of result ≡ get self.now.handles slot }
    {
        self.handles.at(slot)
    }

    /// The slots that have handles, in rising order.
    pub fn slots(&self, alloc: Global) -> Result<Vec<u64>, Memory>
        ensures each { IfOk result (λ slots. slots.items ≡ keys self.now.handles) }
        ensures few { IfOk result (λ slots. length slots.items ≤ ROWS * (BLOCKS + 1)) }
    {
        self.handles.keys(alloc)
    }

    /// The handles, in the order of their slots.
    pub fn handles(&self, alloc: Global) -> Result<Vec<Handle>, Memory>
        ensures { IfOk result (λ handles. map handle_of handles.items ≡ values self.now.handles) }
    {
        self.handles.values(alloc)
    }

    /// Another handle in a live slot.
    pub fn replace(&mut self, slot: u64, handle: Handle)
        requires { IsSome (get self.old.handles slot) }
        ensures { let handles = insert self.old.handles slot (handle_of handle) in
            self.new ≡ record self.old { handles = handles } }
    {
        let Some(old) = self.handles.get_mut(slot) else {
            return;
        };
        *old = handle;
    }

    /// A handle in a slot that has none.
    pub fn put(&mut self, slot: u64, handle: Handle) -> Result<(), Memory>
        requires { slot < slots_of self.old.blocks }
        ensures { let handles = insert self.old.handles slot (handle_of handle) in
            IfOk result (λ _. self.new ≡ record self.old { handles = handles }) }
    {
        self.handles.insert(slot, handle)?;
        Ok(())
    }

    /// Takes the handle out of a slot.
    pub fn take(&mut self, slot: u64)
        ensures { let handles = map.remove self.old.handles slot in
            self.new ≡ record self.old { handles = handles } }
    {
        let _ = self.handles.remove(slot);
    }

    /// The number of blocks that have a use.
    pub fn given(&self) -> u32
        ensures value { result ≡ len self.now.uses }
        ensures few { result ≤ self.now.blocks + 1 }
        ensures limit { self.now.blocks ≤ BLOCKS }
    {
        self.uses.len() as u32
    }

    /// The use of a block, which may be any number.
    pub fn use_of(&self, block: u32) -> Option<BlockUse>
        ensures { option_map use_of result ≡ get self.now.uses block }
    {
        self.uses.at(u64::from(block))
    }

    /// Whether a block has handles of a kind.
    pub fn is_of(&self, kind: Kind, block: u32) -> bool
        ensures { IsTrue result ↔ (get self.now.uses block ≡ Some (handles_of kind)) }
    {
        match self.use_of(block) {
            Some(BlockUse::HandlesOf(given)) => is_kind(given, kind),
            Some(BlockUse::ExtraData) | None => false,
        }
    }

    /// The least block from a number on that has no use.
    pub fn least_unused(&self, from: u32) -> Option<u32>
        ensures found { IfSome result (IsLeast self.now from) }
        ensures none { IfNone result ((block : ℕ) → from ≤ block → block ≤ self.now.blocks
            → IsSome (get self.now.uses block)) }
    {
        for block in from..self.blocks() + 1 {
            if self.use_of(block).is_none() {
                return Some(block);
            }
        }
        None
    }

    /// Gives a block a use.
    pub fn give(&mut self, block: u32, given: BlockUse) -> Result<(), Memory>
        requires { block ≤ self.old.blocks }
        ensures { let uses = insert self.old.uses block (use_of given) in
            IfOk result (λ _. self.new ≡ record self.old { uses = uses }) }
    {
        self.uses.insert(u64::from(block), given)?;
        Ok(())
    }

    /// Takes the use of a block away.
    pub fn take_back(&mut self, block: u32)
        ensures { self.new ≡ record self.old { uses = map.remove self.old.uses block } }
    {
        let _ = self.uses.remove(u64::from(block));
    }
}
