// The lines that may come for a command that is due, as a set.
ghost use Rattle.std.specs.Prelude.{◌≡◌, ℕ, ◌+◌, ◌<◌, ◌≤◌, ◌^◌, ◌↔◌, ◌⊎◌, true, drop, IfOk, IfSome, IsTrue};
ghost use Rattle.hd_model.specs.declared.data.Slot.{Slot as SlotValue};
ghost use Rattle.hd_model.specs.declared.limits.TheConstants.{BLOCKS, ROWS};
ghost use Rattle.hd_model.specs.{RunTexts.cut_lines, PinnedAddresses.IsFreeAddress, Valid.IsValid};
ghost use Rattle.hd_model.specs.State.{IsAllFree, IsFree};
ghost use Rattle.hd_model.specs.Step.{blocks_needed};
ghost use Rattle.hd_plain.specs.OneEntry.{HasExactly, HasOne, has_one_step};
ghost use Rattle.hd_view.specs.{Inside.grown_by, Inside.meets, Inside.AreDueTo, Inside.AreValid, Inside.CoversTo, Accepted.AreDue, Accepted.IsFullOf};
ghost use Rattle.hd_view.specs.{Accepted.IsEntryOf, Accepted.IsNamed, Accepted.IsSetOf, Inside.IsGrownOf, Inside.IsKnownOf, Inside.IsFreeAs};
ghost use Rattle.hd_view.specs.Inside.{Adds, Between, IsTextOf};
ghost use Rattle.hd_view.specs.{Inside.Has, Sets.IsIn};

use crate::sets::{NumberSet, Range, Test, add_each, add_range, first_of, push};
use hd_audit::{Before, Entries, PinnedCells, state_after};
use hd_model::limits::ROWS;
use hd_model::{Cmd, Entry, Grown, Id, Kind, Memory, Refusal, Reply, Slot};
use hd_script::Scripts;
use std::alloc::Global;

/// The lines that may come for a command.
#[derive(Drop)]
pub(crate) enum Accepted {
    /// That of this entry.
    One(Entry),
    /// Those with a free slot of a kind, that with the slot and the blocks of a growth, and that of
    /// a full table.
    Slots {
        kind: Kind,
        free: NumberSet,
        grown: Option<Entry>,
        full: Option<Entry>,
    },
    /// Those with one of these addresses of an object.
    Addresses {
        id: Id,
        free: NumberSet,
    },
    /// That of no block of a kind, and those with one of these.
    Blocks {
        kind: Kind,
        free: NumberSet,
    },
}

/// A command that is due, with its number among its caller's, and the lines that may come for it.
#[derive(Drop)]
pub(crate) struct Due {
    pub(crate) caller: u32,
    pub(crate) number: u32,
    pub(crate) cmd: Cmd,
    pub(crate) accepted: Accepted,
}

/// A text with what it is judged by, and the number of its lines that are right.
#[derive(Clone, Copy)]
pub(crate) struct Judgement<'a> {
    pub(crate) alloc: Global,
    pub(crate) scripts: &'a Scripts,
    pub(crate) text: &'a [u8],
    pub(crate) heap: u32,
    pub(crate) blocks: u32,
    pub(crate) count: u32,
}

impl<'a> Judgement<'a> {
    /// What is known after the lines that are right.
    pub(crate) fn before(&self) -> Result<Before<'a>, Memory>
        requires { IsTextOf self.now }
        ensures known { IfOk result (IsKnownOf self.now) }
        ensures rest { IfOk result
            (λ k. cut_lines k.rest ≡ drop self.now.count (cut_lines self.now.text.now)) }
    {
        state_after(
            self.alloc,
            self.scripts,
            self.text,
            self.heap,
            self.blocks,
            self.count,
        )
    }
}

/// Each caller's command that is due, with the lines that may come for it.
pub(crate) fn all_due(judgement: &Judgement, before: &Before) -> Result<Vec<Due>, Memory>
    requires text { IsTextOf judgement.now }
    requires before { IsKnownOf judgement.now before.now }
    ensures due { IfOk result (λ dues. AreDue before.now dues.items) }
    ensures valid { IfOk result (λ dues. AreValid dues.items) }
{
    let mut dues = Vec::new(judgement.alloc);
    for caller in 0..before.callers() {
        add_due(judgement, before, caller, &mut dues)?;
    }
    Ok(dues)
}

// Adds a caller's command that is due, if it has one.
fn add_due(
    judgement: &Judgement,
    before: &Before,
    caller: u32,
    dues: &mut Vec<Due>,
) -> Result<(), Memory>
    requires text { IsTextOf judgement.now }
    requires known { IsKnownOf judgement.now before.now }
    requires caller { caller < before.now.numbers.callers }
    requires below { AreDueTo before.now caller dues.old.items }
    ensures { IfOk result (λ _. AreDueTo before.now (caller + 1) dues.new.items) }
{
    let Some(cmd) = before.due(caller) else {
        return Ok(());
    };
    let number = before.number(caller);
    let accepted = lines_for(judgement, before, caller, cmd)?;
    let due = Due {
        caller,
        number,
        cmd,
        accepted,
    };
    push(dues, due)
}

// The lines that may come for a command of a caller.
fn lines_for(
    judgement: &Judgement,
    before: &Before,
    caller: u32,
    cmd: Cmd,
) -> Result<Accepted, Memory>
    requires text { IsTextOf judgement.now }
    requires before { IsKnownOf judgement.now before.now }
    requires caller { caller < before.now.numbers.callers }
    requires valid { IsValid cmd }
    ensures entries { let k = before.now in
        IfOk result (λ set. HasExactly k.numbers k.state caller cmd (IsNamed set)) }
    ensures own { IfOk result (IsSetOf before.now caller cmd) }
{
    let alloc = judgement.alloc;
    match before.entries(caller, cmd) {
        Entries::OfTheStep => Ok(Accepted::One(stepped(judgement, before, caller, cmd)?)),
        Entries::One(entry) => Ok(Accepted::One(entry)),
        Entries::InSlot(kind) => Ok(Accepted::Slots {
            kind,
            free: free_slots(alloc, before, kind)?,
            grown: growth_entry(before, kind, caller, cmd),
            full: full_entry(before, kind, caller, cmd),
        }),
        Entries::AtAddress(id) => Ok(Accepted::Addresses {
            id,
            free: free_addresses(alloc, before, id)?,
        }),
        Entries::OfBlock(kind) => Ok(Accepted::Blocks {
            kind,
            free: free_blocks(alloc, before, kind)?,
        }),
    }
}

// The one entry of a command, by its step from a state that is made once more.
fn stepped(judgement: &Judgement, before: &Before, caller: u32, cmd: Cmd) -> Result<Entry, Memory>
    requires text { IsTextOf judgement.now }
    requires before { IsKnownOf judgement.now before.now }
    requires caller { caller < before.now.numbers.callers }
    requires valid { IsValid cmd }
    requires one { has_one_step cmd ≡ true }
    ensures { IfOk result (HasOne before.now.numbers before.now.state caller cmd) }
{
    let again = judgement.before()?;
    again.entry(caller, cmd)
}

// The entry of a command by which the table grows.
fn growth_entry(before: &Before, kind: Kind, caller: u32, cmd: Cmd) -> Option<Entry>
    ensures { IsGrownOf before.now kind caller cmd result }
{
    // Read for the proof: blocks have small numbers.
    let _blocks = before.blocks();
    match before.growth(kind) {
        Grown::One(block) => Some(grown_entry(caller, cmd, block, Grown::One(block))),
        Grown::Two(block, other) => {
            Some(grown_entry(caller, cmd, block, Grown::Two(block, other)))
        }
        Grown::Zero => None,
        Grown::Back(_) => None,
    }
}

// The entry of a command that gets the first slot of a new block.
fn grown_entry(caller: u32, cmd: Cmd, block: u32, grown: Grown) -> Entry
    requires { block ≤ BLOCKS }
    ensures { result ≡ grown_by caller cmd block grown }
{
    Entry {
        caller,
        cmd,
        slot: Some(Slot(block * ROWS)),
        grown,
        reply: Reply::Done,
    }
}

// The entry of a command that is refused for a full table.
fn full_entry(before: &Before, kind: Kind, caller: u32, cmd: Cmd) -> Option<Entry>
    ensures full { IsFullOf before.now kind caller cmd result }
    ensures own { IfSome result (IsEntryOf caller cmd) }
{
    let given = before.given();
    let needed = given + needed_blocks(kind);
    if needed <= before.blocks() {
        return None;
    }
    Some(Entry {
        caller,
        cmd,
        slot: None,
        grown: Grown::Zero,
        reply: Reply::Refused(Refusal::TableFull { given }),
    })
}

/// The number of blocks by which the table grows for a kind.
pub(crate) fn needed_blocks(kind: Kind) -> u32
    ensures value { result ≡ blocks_needed kind }
    ensures few { result ≤ 2 }
{
    if kind.paired() { 2 } else { 1 }
}

// The free slots of a kind.
fn free_slots(alloc: Global, before: &Before, kind: Kind) -> Result<NumberSet, Memory>
    ensures { IfOk result
        (λ set. Has set (λ x. IsFree before.now.state kind (record { 0 = x }))) }
{
    let mut set = NumberSet::open(alloc);
    for block in 0..before.blocks() + 1 {
        add_block(before, kind, block, &mut set)?;
    }
    Ok(set)
}

// Adds the free slots of a block: where most are free, all its slots, but those that are not free.
fn add_block(before: &Before, kind: Kind, block: u32, set: &mut NumberSet) -> Result<(), Memory>
    requires few { block ≤ BLOCKS }
    requires below { CoversTo before.now.state kind block set.old }
    ensures { IfOk result (λ _. CoversTo before.now.state kind (block + 1) set.new) }
{
    let first = block * ROWS;
    if count_free(before, kind, first) > ROWS / 2 {
        add_range(&mut set.within, first, first + ROWS - 1)?;
        add_slots(before, kind, first, false, &mut set.but)
    } else {
        add_slots(before, kind, first, true, &mut set.within)
    }
}

// The number of free slots of a block.
fn count_free(before: &Before, kind: Kind, first: u32) -> u32
    requires { first + ROWS ≤ 2 ^ 32 }
    ensures { result ≤ ROWS }
{
    let mut count = 0;
    for row in 0..ROWS {
        if before.is_free(kind, Slot(first + row)) {
            count += 1;
        }
    }
    count
}

// Adds the slots of a block that are free, or those that are not.
fn add_slots<'a>(
    before: &'a Before<'a>,
    kind: Kind,
    first: u32,
    is_free: bool,
    ranges: &mut Vec<Range>,
) -> Result<(), Memory>
    requires { first + ROWS < 2 ^ 32 }
    ensures { let free = IsFreeAs before.now.state kind is_free in IfOk result
        (λ _. Adds ranges.old.items ranges.new.items (Between first (first + ROWS) free)) }
{
    let slots = SlotTest {
        before,
        kind,
        is_free,
    };
    add_each(&slots, first, first + ROWS, ranges)
}

/// Whether a slot is a free one of a kind.
pub(crate) fn any_free<'a>(before: &'a Before<'a>, kind: Kind) -> bool
    ensures { IsTrue result ↔ ((slot : SlotValue) × IsFree before.now.state kind slot) }
{
    let slots = SlotTest {
        before,
        kind,
        is_free: true,
    };
    first_of(&slots, (before.blocks() + 1) * ROWS).is_some()
}

/// Whether all slots of a block are free ones of a kind.
pub(crate) fn any_whole<'a>(before: &'a Before<'a>, kind: Kind) -> bool
    ensures { IsTrue result ↔ ((block : ℕ) × IsAllFree before.now.state kind block) }
{
    first_of(&BlockTest { before, kind }, before.blocks() + 1).is_some()
}

// Whether slots are free, or whether they are not.
#[derive(Clone, Copy)]
struct SlotTest<'a> {
    before: &'a Before<'a>,
    kind: Kind,
    is_free: bool,
}

impl<'a> Test for SlotTest<'a> {
    ghost use Rattle.hd_view.specs.Inside.{IsFreeAs};

    ghost tells = { λ test. IsFreeAs test.before.now.state test.kind test.is_free };

    fn has(&self, number: u32) -> bool {
        is_free_as(self.before, self.kind, self.is_free, number)
    }
}

// Whether a slot is free, or whether it is not.
fn is_free_as(before: &Before, kind: Kind, is_free: bool, number: u32) -> bool
    ensures { IsTrue result ↔ IsFreeAs before.now.state kind is_free number }
{
    before.is_free(kind, Slot(number)) == is_free
}

// The blocks of a kind all of whose slots are free.
fn free_blocks<'a>(alloc: Global, before: &'a Before<'a>, kind: Kind) -> Result<NumberSet, Memory>
    ensures { IfOk result (λ set. Has set (IsAllFree before.now.state kind)) }
{
    let mut set = NumberSet::open(alloc);
    let blocks = before.blocks();
    add_each(&BlockTest { before, kind }, 0, blocks + 1, &mut set.within)?;
    Ok(set)
}

// Whether all slots of blocks are free.
#[derive(Clone, Copy)]
struct BlockTest<'a> {
    before: &'a Before<'a>,
    kind: Kind,
}

impl<'a> Test for BlockTest<'a> {
    ghost use Rattle.hd_model.specs.State.{IsAllFree};

    ghost tells = { λ test. IsAllFree test.before.now.state test.kind };

    fn has(&self, number: u32) -> bool {
        self.before.is_all_free(self.kind, number)
    }
}

// The addresses at which an object shares no cell with one that has a pinned address.
fn free_addresses(alloc: Global, before: &Before, id: Id) -> Result<NumberSet, Memory>
    ensures { IfOk result (λ set. Has set (IsFreeAddress before.now.state id)) }
{
    let mut set = NumberSet::open(alloc);
    add_range(&mut set.within, 0, u32::MAX)?;
    let size = before.size(id);
    let pinned = before.pinned_cells(alloc)?;
    for cells in &pinned {
        add_meeting(*cells, size, &mut set.but)?;
    }
    Ok(set)
}

// Adds the addresses from which `size` cells meet these.
fn add_meeting(cells: PinnedCells, size: u32, ranges: &mut Vec<Range>) -> Result<(), Memory>
    requires some { 0 < cells.count }
    requires size { 0 < size }
    ensures { IfOk result (λ _. (x : ℕ) → x < 2 ^ 32 →
        IsIn ranges.new.items x ↔ (IsIn ranges.old.items x ⊎ meets cells size x)) }
{
    let begin = (u64::from(cells.first) + 1).saturating_sub(u64::from(size));
    let last = u64::from(cells.first) + u64::from(cells.count) - 1;
    add_range(ranges, begin as u32, last.min(u64::from(u32::MAX)) as u32)
}
