// The live handles of some kinds, by the masks of their blocks.
ghost use Rattle.std.specs.Prelude.{◌≡◌, ◌+◌, ◌*◌, ◌/◌, ◌<◌, ◌≤◌, ◌^◌, ◌↔◌, true, false, None, IsSome, IfErr, IfSome, MatchOption, MatchResult};
ghost use Rattle.hd_model.specs.Table.{live_at};
ghost use Rattle.std.specs.{FinMap.get, Int.bit_at};
ghost use Rattle.hd_model.specs.Kinds.{kind_number};
ghost use Rattle.hd_model.specs.declared.data.Slot.{Slot};
ghost use Rattle.hd_model.specs.State.{use_of};
ghost use Rattle.hd_store.specs.{Calls.IsSound, Growth.kind_in_use, Store.IsOverHeap};
ghost use Rattle.hd_host.specs.Kinds.{HasHandle, HasNoneBefore, HasNoneOf, IsFirstRow, IsListedOf, IsNextOf};

use crate::host::Host;
use crate::observing::Listed;
use hd_mask::lowest;
use hd_model::limits::{HOST_BLOCKS, ROWS};
use hd_model::{Kind, Slot};
use hd_seg::BlockKind;
use hd_store::Contents;

// Whether a kind is one of some.
fn is_one_of(kinds: u32, kind: Kind) -> bool
    ensures { (result ≡ true) ↔ (bit_at kinds (kind_number kind) ≡ 1) }
{
    kinds >> kind.number() & 1 == 1
}

// Whether a live row may be wanted by its target, which is null where those alone are.
#[inline(always)]
fn may_be_wanted(store: &Contents, slot: Slot, cleared: bool) -> bool
    requires live { IsSome (get store.now.table.rows slot.0) }
    ensures yes { result ≡ true → cleared ≡ true → (live_at store.now.table slot.0).target ≡ None }
    ensures no { result ≡ false →
        (cleared ≡ true) × IsSome (live_at store.now.table slot.0).target }
{
    !cleared || store.table().target(slot).is_none()
}

// Whether a live row is that of a handle, whose target is null where those alone are wanted.
#[inline(always)]
fn is_wanted(store: &Contents, slot: Slot, cleared: bool) -> bool
    requires over { IsOverHeap store.now }
    requires sound { IsSound store.now }
    requires live { IsSome (get store.now.table.rows slot.0) }
    ensures yes { result ≡ true → HasHandle store.now.state cleared slot }
    ensures no { result ≡ false → HasHandle store.now.state cleared slot → ⊥ }
{
    if !may_be_wanted(store, slot, cleared) {
        return false;
    }
    !store.is_held(slot)
}

// The first row of a block from one on that is wanted.
#[inline(always)]
fn first_row(store: &Contents, block: u32, first: u32, cleared: bool) -> Option<u32>
    requires over { IsOverHeap store.now }
    requires sound { IsSound store.now }
    requires low { 1 ≤ block }
    requires high { block ≤ store.now.table.blocks }
    requires few { block ≤ HOST_BLOCKS }
    requires first { first < ROWS }
    ensures { IsFirstRow store.now.state cleared block first result }
{
    let live = store.table().live_rows(block);
    let mut rows = live >> first;
    while let Some(step) = lowest(rows) {
        let row = first + step;
        if is_wanted(store, Slot(ROWS * block + row), cleared) {
            return Some(row);
        }
        rows &= rows - 1;
    }
    None
}

// The kind of a block, if it has handles.
fn kind_in(store: &Contents, block: u32) -> Option<Kind>
    requires over { IsOverHeap store.now }
    requires low { 1 ≤ block }
    requires high { block ≤ store.now.table.blocks }
    ensures { result ≡ kind_in_use (use_of store.now.state block) }
{
    match store.table().block_kind(block) {
        BlockKind::Rows(kind) => Some(kind),
        BlockKind::Unused => None,
        BlockKind::Extras => None,
    }
}

// The least slot of a block from a row on with a handle of one of some kinds.
#[inline(always)]
fn first_in(store: &Contents, kinds: u32, cleared: bool, block: u32, first: u32) -> Option<Slot>
    requires over { IsOverHeap store.now }
    requires sound { IsSound store.now }
    requires low { 1 ≤ block }
    requires high { block ≤ store.now.table.blocks }
    requires first { first < ROWS }
    ensures { let s = store.now.state in let from = ROWS * block + first in
        MatchOption result (HasNoneBefore s kinds cleared from (ROWS * (block + 1)))
        (IsNextOf s kinds cleared from) }
{
    let Some(kind) = kind_in(store, block) else {
        return None;
    };
    if !is_one_of(kinds, kind) {
        return None;
    }
    match first_row(store, block, first, cleared) {
        Some(row) => Some(Slot(ROWS * block + row)),
        None => None,
    }
}

// The least slot from a number on, in the block of that number, which may be none of the table's.
fn first_beside(store: &Contents, kinds: u32, cleared: bool, from: u32) -> Option<Slot>
    requires over { IsOverHeap store.now }
    requires sound { IsSound store.now }
    ensures { let s = store.now.state in
        MatchOption result (HasNoneBefore s kinds cleared from (ROWS * (from / ROWS + 1)))
        (IsNextOf s kinds cleared from) }
{
    let block = from / ROWS;
    if block == 0 {
        return None;
    }
    if block > store.blocks() {
        return None;
    }
    first_in(store, kinds, cleared, block, from % ROWS)
}

// Whether a block has no use.
fn is_unused(store: &Contents, block: u32) -> bool
    requires over { IsOverHeap store.now }
    requires low { 1 ≤ block }
    requires high { block ≤ store.now.table.blocks }
    ensures { result ≡ true → None ≡ kind_in_use (use_of store.now.state block) }
{
    match store.table().block_kind(block) {
        BlockKind::Unused => true,
        BlockKind::Rows(_kind) => false,
        BlockKind::Extras => false,
    }
}

// The least slot of the blocks from one on up to the next without a use, or the last of these.
fn first_in_run(store: &Contents, kinds: u32, cleared: bool, first: u32) -> Result<Slot, u32>
    requires over { IsOverHeap store.now }
    requires sound { IsSound store.now }
    requires low { 1 ≤ first }
    requires high { first ≤ store.now.numbers.blocks }
    ensures next { let s = store.now.state in
        MatchResult result (IsNextOf s kinds cleared (ROWS * first))
        (λ last. HasNoneBefore s kinds cleared (ROWS * first) (ROWS * (last + 1))) }
    ensures on { IfErr result (λ last. (first ≤ last) × (last ≤ store.now.numbers.blocks)) }
{
    let last = store.blocks();
    for block in first..last + 1 {
        if is_unused(store, block) {
            return Err(block);
        }
        if let Some(slot) = first_in(store, kinds, cleared, block, 0) {
            return Ok(slot);
        }
    }
    Err(last)
}

// The least slot of the blocks after one. It is out of line: a list mostly goes on in a block.
#[inline(never)]
fn first_beyond(store: &Contents, kinds: u32, cleared: bool, before: u32) -> Option<Slot>
    requires over { IsOverHeap store.now }
    requires sound { IsSound store.now }
    requires few { before < 2 ^ 26 }
    ensures { let s = store.now.state in let from = ROWS * (before + 1) in
        MatchOption result (HasNoneOf s kinds cleared from) (IsNextOf s kinds cleared from) }
{
    let mut last = before;
    while let Some(first) = store.next_given(last + 1) {
        match first_in_run(store, kinds, cleared, first) {
            Ok(slot) => return Some(slot),
            Err(seen) => last = seen,
        }
    }
    None
}

// The least slot from a number on with a handle of one of some kinds.
fn first_of(store: &Contents, kinds: u32, cleared: bool, from: u32) -> Option<Slot>
    requires over { IsOverHeap store.now }
    requires sound { IsSound store.now }
    ensures { let s = store.now.state in
        MatchOption result (HasNoneOf s kinds cleared from) (IsNextOf s kinds cleared from) }
{
    match first_beside(store, kinds, cleared, from) {
        Some(slot) => Some(slot),
        None => first_beyond(store, kinds, cleared, from / ROWS),
    }
}

impl Host {
    /// The live handle with the least slot from a number on that is of one of some kinds: bit `k`
    /// of `kinds` stands for the kind of number `k`. Where `cleared`, one whose target is null.
    pub fn next_of(&self, kinds: u32, cleared: bool, from: u32) -> Option<Listed>
        ensures next { MatchOption result (HasNoneOf self.now.machine.state kinds cleared from)
            (IsListedOf self.now kinds cleared from) }
        ensures few { IfSome result (λ l. l.slot.0 < 2 ^ 24) }
    {
        let Some(slot) = first_of(self.store.contents(), kinds, cleared, from) else {
            return None;
        };
        match self.store.handle(slot) {
            Some(info) => {
                let handle = self.handle_in(slot);
                Some(Listed { slot, handle, info })
            }
            None => unreachable!(),
        }
    }
}
