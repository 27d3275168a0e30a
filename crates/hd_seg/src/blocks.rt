// Which blocks are in use, and in which order those of a kind follow one another.

ghost use Rattle.std.specs.Prelude.{◌≡◌, ℕ, ◌+◌, ◌<◌, ◌≤◌, ◌++◌, ◌∷◌, List, Some, None, true, IsSome};
ghost use Rattle.std.specs.Prelude.{slice_get};
ghost use Rattle.std.specs.Prelude.{IfOk, IfSome, MatchOption};
ghost use Rattle.std.specs.FinMap.{get, insert, len, empty, remove};
ghost use Rattle.hd_model.specs.Table.{empty_table, chain_of, has_handles, IsLeastWithout, kind_at};
ghost use Rattle.hd_model.specs.Table.{with_block, with_data, without_block};
ghost use Rattle.std.specs.Prelude.{MatchResult, max};
ghost use Rattle.hd_model.specs.Table.{IsTable};
ghost use Rattle.hd_model.specs.State.{extra_data};
ghost use Rattle.hd_seg.specs.Row.{block_kind_of};
ghost use Rattle.hd_seg.specs.Pairs.{without_data};
ghost use Rattle.hd_seg.specs.Given.{HasNoneGiven, IsNextGiven};

use crate::block::{Block, UNUSED};
use crate::chains::Chains;
use crate::lists::lengthen;
use crate::row::BlockKind;
use crate::unused::{add_numbers, numbers_to, take_from};
use hd_mask::BITS;
use hd_model::limits::HOST_BLOCKS;
use hd_model::{Kind, Memory, filled};
use hd_tiers::{Masks, Numbers, Tier};
use std::alloc::Global;
use std::marker::Model;

/// The blocks of a table. Their numbers are from 1.
#[derive(Drop)]
pub(crate) struct Blocks {
    number: u32,
    given: u32,
    table: Vec<Block>,
    chains: Chains,
    // The numbers of the blocks that are not in use.
    unused: Tier<Masks>,
}

impl Model for Blocks {
    ghost use Rattle.std.specs.Prelude.{◌≤◌};
    ghost use Rattle.hd_seg.specs.{Blocks.Uses, Blocks.uses_code, Blocks.uses_in, Inside.IsBlocks};
    ghost use Rattle.hd_seg.specs.{Inside.ListsUnused};

    ghost Value = { Uses };

    ghost coded = { uses_code };

    ghost view = { λ b. uses_in b.number b.table.items b.chains.lists };

    ghost invariant = { λ b. IsBlocks b.number b.given b.table.items b.chains.lists
        × (b.number ≤ b.chains.room) × ListsUnused b.number b.table.items b.unused };
}

impl Blocks {
    /// `number` unused blocks.
    pub(crate) fn open(alloc: Global, number: u32) -> Result<Blocks, Memory>
        requires { number ≤ HOST_BLOCKS }
        ensures none { IfOk result (λ uses.
            uses ≡ record { table = empty_table number; extras = empty }) }
        ensures table { IfOk result (λ uses. IsTable uses.table) }
    {
        let table = filled(alloc, UNUSED, number + 1)?;
        let unused = numbers_to(alloc, number)?;
        let chains = Chains::open(alloc, number)?;
        Ok(Blocks {
            number,
            given: 0,
            table,
            chains,
            unused,
        })
    }

    /// Makes them `number` blocks at least.
    pub(crate) fn reserve(&mut self, number: u32) -> Result<(), Memory>
        requires { number ≤ HOST_BLOCKS }
        ensures after { MatchResult result
            (λ _. self.new ≡ record self.old {
              table =
                  record self.old.table { blocks = max self.old.table.blocks number };
            })
            (λ _. self.new ≡ self.old) }
        ensures table { IsTable self.new.table }
    {
        if number <= self.number {
            return Ok(());
        }
        self.unused.reserve(number / BITS + 1)?;
        self.chains.reserve(number)?;
        lengthen(&mut self.table, UNUSED, number + 1)?;
        add_numbers(&mut self.unused, self.number, number);
        self.number = number;
        Ok(())
    }

    /// The number of unused blocks.
    pub(crate) fn unused(&self) -> u32
        ensures value { result + len self.now.table.uses ≡ self.now.table.blocks }
    {
        self.number - self.given
    }

    /// The number of blocks in use.
    pub(crate) fn given(&self) -> u32
        ensures value { result ≡ len self.now.table.uses }
        ensures table { IsTable self.now.table }
    {
        self.given
    }

    /// What a block is used for.
    pub(crate) fn kind(&self, block: u32) -> BlockKind
        requires low { 1 ≤ block }
        requires high { block ≤ self.now.table.blocks }
        ensures { result ≡ block_kind_of (get self.now.table.uses block) }
    {
        self.table[block as usize].kind
    }

    /// The least block from one on that has a use, if there is one.
    #[inline(always)]
    pub(crate) fn next_given(&self, from: u32) -> Option<u32>
        requires { 1 ≤ from }
        ensures next { let uses = self.now.table.uses in
            MatchOption result (HasNoneGiven uses from) (IsNextGiven uses from) }
        ensures within { IfSome result (λ block. block ≤ self.now.table.blocks) }
    {
        let last = self.number;
        if from > last {
            return None;
        }
        match self.kind(from) {
            BlockKind::Rows(_kind) => Some(from),
            BlockKind::Extras => Some(from),
            BlockKind::Unused => self.given_beyond(from),
        }
    }

    // The same, by the set of unused blocks. It is out of line, so that blocks in a row cost no
    // more than a look at what each is used for.
    #[inline(never)]
    fn given_beyond(&self, from: u32) -> Option<u32>
        requires { 1 ≤ from }
        ensures next { let uses = self.now.table.uses in
            MatchOption result (HasNoneGiven uses from) (IsNextGiven uses from) }
        ensures within { IfSome result (λ block. block ≤ self.now.table.blocks) }
    {
        let last = self.number;
        let block = self.unused.gap_from(from);
        if block <= last { Some(block) } else { None }
    }

    /// The block with the extras of a block's rows, if they have any.
    pub(crate) fn extras(&self, block: u32) -> Option<u32>
        requires low { 1 ≤ block }
        requires high { block ≤ self.now.table.blocks }
        ensures value { result ≡ get self.now.extras block }
    {
        self.table[block as usize].extras
    }

    /// Gives the lowest unused block to a kind, at the end of its chain.
    pub(crate) fn add(&mut self, kind: Kind) -> u32
        requires { len self.old.table.uses < self.old.table.blocks }
        ensures least { IsLeastWithout self.old.table 1 result }
        ensures plain { get self.old.extras result ≡ None }
        ensures after { let table = with_block self.old.table kind result in
            self.new ≡ record self.old { table = table } }
        ensures table { IsTable self.new.table }
    {
        let block = take_from(&mut self.unused, 1);
        self.chains.push(kind, block);
        self.table[block as usize] = Block {
            kind: BlockKind::Rows(kind),
            extras: None,
        };
        self.given += 1;
        block
    }

    /// Makes the lowest unused block after `block` the data block for the extras of its rows.
    pub(crate) fn add_data(&mut self, block: u32) -> u32
        requires room { len self.old.table.uses < self.old.table.blocks }
        requires used { (b : ℕ) → 1 ≤ b → b ≤ block → IsSome (get self.old.table.uses b) }
        requires handles { has_handles (get self.old.table.uses block) ≡ true }
        requires low { 1 ≤ block }
        requires high { block ≤ self.old.table.blocks }
        ensures least { IsLeastWithout self.old.table (block + 1) result }
        ensures after { self.new ≡ record {
          table = with_data self.old.table result;
          extras = insert self.old.extras block result;
        } }
        ensures table { IsTable self.new.table }
    {
        let data = take_from(&mut self.unused, block + 1);
        let of = &mut self.table[block as usize];
        of.extras = Some(data);
        let extras = &mut self.table[data as usize];
        extras.kind = BlockKind::Extras;
        self.given += 1;
        data
    }

    /// Takes the data block of a block of handles, which has one, out of use.
    pub(crate) fn remove_data(&mut self, block: u32) -> u32
        requires some { IsSome (get self.old.extras block) }
        requires used { (d : ℕ) → get self.old.extras block ≡ Some d →
            get self.old.table.uses d ≡ Some extra_data }
        ensures was { get self.old.extras block ≡ Some result }
        ensures after { self.new ≡ record {
          table = without_data self.old.table result;
          extras = remove self.old.extras block;
        } }
        ensures table { IsTable self.new.table }
    {
        let of = &mut self.table[block as usize];
        let data = of.extras.unwrap();
        of.extras = None;
        self.table[data as usize] = UNUSED;
        self.given -= 1;
        self.unused.insert(data);
        data
    }

    /// Takes a block of handles from its kind.
    pub(crate) fn remove(&mut self, block: u32)
        requires handles { has_handles (get self.old.table.uses block) ≡ true }
        requires plain { get self.old.extras block ≡ None }
        ensures after { let kind = kind_at self.old.table block in
            self.new ≡ record self.old { table = without_block self.old.table kind block } }
        ensures table { IsTable self.new.table }
    {
        self.table[block as usize] = UNUSED;
        self.chains.remove(block);
        self.given -= 1;
        self.unused.insert(block);
    }

    /// The first block of the chain of a kind, if it has one.
    pub(crate) fn first(&self, kind: Kind) -> Option<u32>
        ensures { result ≡ slice_get (chain_of self.now.table kind) 0 }
    {
        self.chains.first(kind)
    }

    /// The block after a block of handles in its chain.
    pub(crate) fn after(&self, block: u32) -> Option<u32>
        requires { has_handles (get self.now.table.uses block) ≡ true }
        ensures { let kind = kind_at self.now.table block in
            (before after : List ℕ) → chain_of self.now.table kind ≡ before ++ block ∷ after →
            result ≡ slice_get after 0 }
    {
        self.chains.after(block)
    }
}
