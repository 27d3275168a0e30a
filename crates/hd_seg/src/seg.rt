ghost use Rattle.std.specs.Prelude.{◌≡◌, ℕ, ◌+◌, ◌*◌, ◌/◌, ◌<◌, ◌≤◌, ◌++◌, ◌∷◌, List, Bool, true, cond, Some, None};
ghost use Rattle.std.specs.Prelude.{option_map, slice_get, IfOk, IfErr, OnOk, OnErr, IfSome, IsSome, MatchOption};
ghost use Rattle.std.specs.FinMap.{get, len, contains_key};
ghost use Rattle.std.specs.Int.{bit_at};
ghost use Rattle.std.specs.Prelude.{MatchResult, max};
ghost use Rattle.hd_model.specs.{Kinds.is_paired, State.block_of, State.extra_data, State.handles_of, State.nothing};
ghost use Rattle.hd_model.specs.Step.{blocks_needed};
ghost use Rattle.hd_model.specs.Table.{IsTable, IsGrowth, chain_of, empty_table, fits, fits_in, grown_by};
ghost use Rattle.hd_model.specs.Table.{has_handles, is_single, kind_at, live_at, with_row, without_row};
ghost use Rattle.hd_model.specs.Table.{without_block};
ghost use Rattle.hd_model.specs.Handles.{extra_of};
ghost use Rattle.hd_seg.specs.Row.{handle_of, row_of, block_kind_of};
ghost use Rattle.hd_seg.specs.Given.{HasNoneGiven, IsNextGiven};
ghost use Rattle.hd_seg.specs.Pairs.{is_pair, without_data};

use crate::blocks::Blocks;
use crate::lists::lengthen;
use crate::row::{BlockKind, Full, Row};
use crate::writes::{extra_in, extra_index, is_marked, write_extra};
use hd_mask::bit;
use hd_model::limits::{CLUMP, CLUMPS, HOST_BLOCKS, ROWS};
use hd_model::{Addr, Extra, Grown, Kind, Memory, Slot, filled};
use std::alloc::Global;
use std::marker::Model;

// The lowest rows, as many as a clump has.
const CLUMP_MASK: u64 = 0xffff;

/// The table of handles.
///
/// A mask has a set bit for each live row of its block. What the other vectors have where a row is
/// not live says nothing. Block 0 is not used.
#[derive(Drop)]
pub struct Seg {
    blocks: Blocks,
    // By slot.
    targets: Vec<Option<Addr>>,
    // By data block and row.
    extras: Vec<Extra<Addr>>,
    // By block.
    masks: Vec<u64>,
    live: u32,
}

impl Model for Seg {
    ghost use Rattle.hd_model.specs.Table.{Table};
    ghost use Rattle.hd_model.specs.Code.{table_code};
    ghost use Rattle.hd_seg.specs.{Rows.table_in, Inside.IsSeg};

    ghost Value = { Table };

    ghost coded = { table_code };

    ghost view = { λ s. table_in s.blocks
        (record { targets = s.targets.items; extras = s.extras.items; masks = s.masks.items }) };

    ghost invariant = { λ s. IsSeg s.blocks
        (record { targets = s.targets.items; extras = s.extras.items; masks = s.masks.items })
        s.live };
}

impl Seg {
    /// A table of `blocks` unused blocks. All memory is taken here.
    pub fn open(alloc: Global, blocks: u32) -> Result<Seg, Memory>
        requires { blocks ≤ HOST_BLOCKS }
        ensures { IfOk result (λ table. table ≡ empty_table blocks) }
    {
        let targets = filled(alloc, None, ROWS * (blocks + 1))?;
        let extras = filled(alloc, Extra::Nothing, ROWS * (blocks + 1))?;
        let masks = filled(alloc, 0, blocks + 1)?;
        let blocks = Blocks::open(alloc, blocks)?;
        Ok(Seg {
            blocks,
            targets,
            extras,
            masks,
            live: 0,
        })
    }

    /// Makes the table one of at least `blocks` blocks. Those that come are unused.
    pub fn reserve(&mut self, blocks: u32) -> Result<(), Memory>
        requires { blocks ≤ HOST_BLOCKS }
        ensures after { MatchResult result
            (λ _. self.new ≡ record self.old { blocks = max self.old.blocks blocks })
            (λ _. self.new ≡ self.old) }
        ensures table { IsTable self.new }
    {
        lengthen(&mut self.targets, None, ROWS * (blocks + 1))?;
        lengthen(&mut self.extras, Extra::Nothing, ROWS * (blocks + 1))?;
        lengthen(&mut self.masks, 0, blocks + 1)?;
        self.blocks.reserve(blocks)
    }

    /// Gives a block to a kind, at the end of its chain, and a data block for it where the kind has
    /// extra data. A refusal changes nothing.
    pub fn give_block(&mut self, kind: Kind) -> Result<Grown, Full>
        ensures grown { IfOk result (IsGrowth self.old kind) }
        ensures after { IfOk result (λ grown. self.new ≡ grown_by self.old kind grown) }
        ensures room { OnOk result (len self.old.uses + blocks_needed kind ≤ self.old.blocks) }
        ensures full { OnErr result (self.old.blocks < len self.old.uses + blocks_needed kind) }
        ensures given { IfErr result (λ full. full.given ≡ len self.old.uses) }
        ensures kept { OnErr result (self.new ≡ self.old) }
        ensures table { IsTable self.new }
    {
        let needed = if kind.paired() { 2 } else { 1 };
        if self.blocks.unused() < needed {
            let given = self.blocks.given();
            return Err(Full { given });
        }
        let block = self.blocks.add(kind);
        if !kind.paired() {
            return Ok(Grown::One(block));
        }
        let data = self.blocks.add_data(block);
        Ok(Grown::Two(block, data))
    }

    /// Takes a block without live rows from a kind without extra data. Other blocks of the chain
    /// keep their order.
    pub fn take_back(&mut self, block: u32)
        requires single { is_single (get self.old.uses block) ≡ true }
        requires vacant { (slot : ℕ) → slot / ROWS ≡ block → get self.old.rows slot ≡ None }
        ensures { self.new ≡ without_block self.old (kind_at self.old block) block }
    {
        self.blocks.remove(block);
    }

    /// Takes a block without live rows from a kind with extra data, and its data block, which is
    /// returned. Other blocks of the chain keep their order.
    pub fn take_back_pair(&mut self, block: u32) -> u32
        requires pair { is_pair (get self.old.uses block) ≡ true }
        requires vacant { (slot : ℕ) → slot / ROWS ≡ block → get self.old.rows slot ≡ None }
        ensures extra { get self.old.uses result ≡ Some extra_data }
        ensures after { let kind = kind_at self.old block in
            self.new ≡ without_block (without_data self.old result) kind block }
    {
        let data = self.blocks.remove_data(block);
        self.blocks.remove(block);
        data
    }

    /// What a block is used for.
    pub fn block_kind(&self, block: u32) -> BlockKind
        requires low { 1 ≤ block }
        requires high { block ≤ self.now.blocks }
        ensures value { result ≡ block_kind_of (get self.now.uses block) }
        ensures table { IsTable self.now }
    {
        self.blocks.kind(block)
    }

    /// The least block from one on that has a use, if there is one. It passes over blocks without
    /// a use by the masks of these, 64 at once.
    #[inline(always)]
    pub fn next_given(&self, from: u32) -> Option<u32>
        requires { 1 ≤ from }
        ensures next { let uses = self.now.uses in
            MatchOption result (HasNoneGiven uses from) (IsNextGiven uses from) }
        ensures within { IfSome result (λ block. block ≤ self.now.blocks) }
        ensures table { IsTable self.now }
    {
        self.blocks.next_given(from)
    }

    /// The number of blocks in use.
    pub fn given(&self) -> u32
        ensures value { result ≡ len self.now.uses }
        ensures table { IsTable self.now }
    {
        self.blocks.given()
    }

    /// The number of live rows.
    pub fn live(&self) -> u32
        ensures value { result ≡ len self.now.rows }
        ensures table { IsTable self.now }
    {
        self.live
    }

    /// Whether a slot, which may be any number, is live.
    #[inline(always)]
    pub fn is_live(&self, slot: Slot) -> bool
        ensures value { result ≡ contains_key self.now.rows slot.0 }
        ensures table { IsTable self.now }
    {
        is_marked(&self.masks, slot)
    }

    /// The kind of a live row.
    #[inline(always)]
    pub fn live_kind(&self, slot: Slot) -> Kind
        requires { IsSome (get self.now.rows slot.0) }
        ensures value { result ≡ (live_at self.now slot.0).kind }
        ensures table { IsTable self.now }
    {
        match self.blocks.kind(slot.0 / ROWS) {
            BlockKind::Rows(kind) => kind,
            BlockKind::Unused | BlockKind::Extras => unreachable!(),
        }
    }

    /// The row of a slot, if the slot is live. The slot may be any number.
    pub fn row(&self, slot: Slot) -> Option<Row>
        ensures value { result ≡ option_map row_of (get self.now.rows slot.0) }
        ensures table { IsTable self.now }
    {
        if !self.is_live(slot) {
            return None;
        }
        Some(self.live_row(slot))
    }

    /// The row of a live slot, where it is known whether its kind has extra data: where it has
    /// none, the target alone is read.
    #[inline(always)]
    pub fn row_by(&self, slot: Slot, paired: bool) -> Row
        requires live { IsSome (get self.now.rows slot.0) }
        requires paired { is_paired (live_at self.now slot.0).kind ≡ paired }
        ensures value { result ≡ row_of (live_at self.now slot.0) }
        ensures table { IsTable self.now }
    {
        if paired {
            return self.live_row(slot);
        }
        let target = self.target(slot);
        let extra = Extra::Nothing;
        Row { target, extra }
    }

    // The row of a live slot.
    #[inline(always)]
    fn live_row(&self, slot: Slot) -> Row
        requires { IsSome (get self.now.rows slot.0) }
        ensures value { result ≡ row_of (live_at self.now slot.0) }
        ensures table { IsTable self.now }
    {
        let target = self.target(slot);
        let index = extra_index(&self.blocks, slot);
        let extra = extra_in(&self.extras, index);
        Row { target, extra }
    }

    /// The target of a live row.
    #[inline(always)]
    pub fn target(&self, slot: Slot) -> Option<Addr>
        requires { IsSome (get self.now.rows slot.0) }
        ensures value { result ≡ (live_at self.now slot.0).target }
        ensures table { IsTable self.now }
    {
        self.targets[slot.0 as usize]
    }

    /// Puts a row into a slot that is not live.
    #[inline(always)]
    pub fn put_row(&mut self, slot: Slot, row: Row)
        requires vacant { get self.old.rows slot.0 ≡ None }
        requires fitting { fits_in (get self.old.uses (block_of slot)) (extra_of row.extra) ≡ true }
        ensures { let kind = kind_at self.old (block_of slot) in
            self.new ≡ with_row self.old slot.0 (handle_of kind row) }
    {
        let index = extra_index(&self.blocks, slot);
        write_extra(&mut self.extras, index, row.extra);
        self.targets[slot.0 as usize] = row.target;
        self.masks[(slot.0 / ROWS) as usize] |= bit(slot.0 % ROWS);
        self.live += 1;
    }

    /// Puts a row without an extra into a slot that is not live.
    #[inline(always)]
    pub fn put_plain_row(&mut self, slot: Slot, target: Option<Addr>)
        requires vacant { get self.old.rows slot.0 ≡ None }
        requires single { is_single (get self.old.uses (block_of slot)) ≡ true }
        ensures { let kind = kind_at self.old (block_of slot) in
            self.new ≡ with_row self.old slot.0
            (record { kind = kind; target = target; extra = nothing }) }
    {
        self.targets[slot.0 as usize] = target;
        self.masks[(slot.0 / ROWS) as usize] |= bit(slot.0 % ROWS);
        self.live += 1;
    }

    /// Frees a live slot. Nothing of its row stays.
    #[inline(always)]
    pub fn take_row(&mut self, slot: Slot)
        requires { IsSome (get self.old.rows slot.0) }
        ensures { self.new ≡ without_row self.old slot.0 }
    {
        self.masks[(slot.0 / ROWS) as usize] ^= bit(slot.0 % ROWS);
        self.live -= 1;
    }

    /// Gives a live row another target.
    #[inline(always)]
    pub fn set_row(&mut self, slot: Slot, target: Option<Addr>)
        requires { IsSome (get self.old.rows slot.0) }
        ensures { let handle = live_at self.old slot.0 in
            self.new ≡ with_row self.old slot.0 (record handle { target = target }) }
    {
        self.targets[slot.0 as usize] = target;
    }

    /// Gives a live row that has a target another one.
    pub fn retarget(&mut self, slot: Slot, to: Addr)
        requires live { IsSome (get self.old.rows slot.0) }
        requires some { IsSome (live_at self.old slot.0).target }
        ensures { let handle = live_at self.old slot.0 in
            self.new ≡ with_row self.old slot.0 (record handle { target = Some to }) }
    {
        self.targets[slot.0 as usize] = Some(to);
    }

    /// Gives a live row another extra.
    #[inline(always)]
    pub fn set_extra(&mut self, slot: Slot, extra: Extra<Addr>)
        requires live { IsSome (get self.old.rows slot.0) }
        requires fitting { fits (live_at self.old slot.0).kind (extra_of extra) ≡ true }
        ensures { let handle = live_at self.old slot.0 in
            self.new ≡ with_row self.old slot.0 (record handle { extra = extra_of extra }) }
    {
        let index = extra_index(&self.blocks, slot);
        write_extra(&mut self.extras, index, extra);
    }

    /// The first block of the chain of a kind, if it has one.
    pub fn first(&self, kind: Kind) -> Option<u32>
        ensures value { result ≡ slice_get (chain_of self.now kind) 0 }
        ensures within { IfSome result (λ block. (1 ≤ block) × (block ≤ self.now.blocks)) }
        ensures of_kind { IfSome result (λ block.
            get self.now.uses block ≡ Some (handles_of kind)) }
        ensures table { IsTable self.now }
    {
        self.blocks.first(kind)
    }

    /// The block after a block of handles in its chain, if there is one.
    pub fn after(&self, block: u32) -> Option<u32>
        requires { has_handles (get self.now.uses block) ≡ true }
        ensures value { let kind = kind_at self.now block in
            (before after : List ℕ) → chain_of self.now kind ≡ before ++ block ∷ after →
            result ≡ slice_get after 0 }
        ensures within { IfSome result (λ next. (1 ≤ next) × (next ≤ self.now.blocks)) }
        ensures of_kind { let kind = kind_at self.now block in
            IfSome result (λ next. get self.now.uses next ≡ Some (handles_of kind)) }
        ensures table { IsTable self.now }
    {
        self.blocks.after(block)
    }

    /// The live rows of a block, as a mask: bit `i` is the block's row `i`.
    pub fn live_rows(&self, block: u32) -> u64
        requires low { 1 ≤ block }
        requires high { block ≤ self.now.blocks }
        ensures bits { (i : ℕ) → i < ROWS →
            bit_at result i ≡ cond (contains_key self.now.rows (ROWS * block + i)) 1 0 }
        ensures table { IsTable self.now }
    {
        self.masks[block as usize]
    }

    /// The live rows of clump 0 to 3 of a block, as a mask: bit `i` is the clump's row `i`.
    pub fn clump(&self, block: u32, clump: u32) -> u16
        requires low { 1 ≤ block }
        requires high { block ≤ self.now.blocks }
        requires clump { clump < CLUMPS }
        ensures bits { let first = ROWS * block + CLUMP * clump in
            (i : ℕ) → i < CLUMP →
            bit_at result i ≡ cond (contains_key self.now.rows (first + i)) 1 0 }
        ensures table { IsTable self.now }
    {
        (self.live_rows(block) >> (CLUMP * clump) & CLUMP_MASK) as u16
    }
}
