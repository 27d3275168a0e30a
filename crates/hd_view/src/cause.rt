// Why a line is not right: the first cause that is found.
ghost use Rattle.std.specs.Prelude.{◌≡◌, ◌≢◌, ◌↔◌, ◌≤◌, ◌<◌, ◌-◌, ℕ, List, Some, None, false, true, Contains, is_some};
ghost use Rattle.std.specs.Prelude.{IfSome, IfNone, IsTrue};
ghost use Rattle.hd_model.specs.declared.limits.TheConstants.{BLOCKS};
ghost use Rattle.hd_model.specs.declared.data.Entry.{Entry as EntryValue};
ghost use Rattle.hd_model.specs.declared.data.Grown.TheVariants.{Back, One, Two, Zero};
ghost use Rattle.hd_model.specs.declared.data.Id.{Id as IdValue};
ghost use Rattle.hd_model.specs.declared.data.Reply.TheVariants.{Value};
ghost use Rattle.hd_model.specs.{State.IsAllFree, State.first_slot, State.given_of, Step.IsLeastUnused};
ghost use Rattle.hd_print.specs.VerdictLaws.{HasEnd};
ghost use Rattle.hd_audit.specs.{Before.MayCome, Known.Known};
ghost use Rattle.hd_view.specs.Accepted.{AreDue, IsDue};
ghost use Rattle.hd_view.specs.Cause.{DueTakes, EachLike, Holds, IsCause, IsGrown, IsLike, IsNotGiven};
ghost use Rattle.hd_view.specs.Cause.{IsReplied, NoneLike, first_stated, is_end};
ghost use Rattle.hd_view.specs.Inside.{Explains, ExplainsFirst, IsAddressNext, IsBlockNext, IsDoneNext};
ghost use Rattle.hd_view.specs.Inside.{IsDueOf, IsGrowing, IsOnly, IsOnlyLike, IsSlotNext, IsWrong};
ghost use Rattle.hd_view.specs.Inside.{MayGiveSome, parts_in};
ghost use Rattle.hd_view.specs.Stated.{Parts};

use crate::accepted::{Accepted, Due, any_free, any_whole, needed_blocks};
use crate::sets::NumberSet;
use crate::stated::{Stated, begins, has_reply, parts_of};
use hd_audit::{Before, cut_line};
use hd_model::limits::ROWS;
use hd_model::{Entry, Grown, Kind, Reply, Slot};

/// Why a line is not right.
#[derive(Clone, Copy)]
pub(crate) enum Cause {
    /// The text ends before it.
    Missing,
    /// The end line came before it.
    AfterEnd,
    /// It has no byte 10 at its end.
    NoEnd,
    /// It begins as no line does.
    NoLine,
    /// It begins as the end line, and commands are left, this many.
    EndTooEarly(u32),
    /// It begins as the end line, and has other counts.
    EndCounts,
    /// No command is left.
    OnlyEnd,
    NoCaller(u32),
    /// The list of this caller is at its end.
    ListEnd(u32),
    /// The command has this number.
    Number(u32),
    Reply,
    /// The object has this pinned address.
    Pinned(u32),
    /// An object that has a pinned address is there.
    AddressTaken(u32),
    /// So many blocks are without a use, and a new row of the kind needs more.
    TooFew(u32, Kind),
    /// By its blocks.
    Blocks(BlockCause),
    /// By its slot.
    Slot(SlotCause),
    /// It reads as a line that may come, but has other bytes.
    Spelled,
}

/// Why a line with this slot, or without one, is not right.
#[derive(Clone, Copy)]
pub(crate) enum SlotCause {
    Missing,
    Needless,
    /// The command frees this slot.
    Freed(Slot),
    /// This is the least idle slot of the weak table.
    Idle(Slot),
    /// The slot has a handle, or the weak table holds it.
    InUse(Slot),
    /// The slot is in no block of the kind.
    OtherKind(Slot, Kind),
    /// The slot is not the first of the new block.
    NotFirst(u32),
}

/// Why a line with these blocks, or without any, is not right.
#[derive(Clone, Copy)]
pub(crate) enum BlockCause {
    Missing,
    Needless,
    Other,
    InUse(u32),
    /// The table grows by this block.
    NotLeast(Growth, u32),
    /// The block has no handles of the kind.
    OtherKind(u32, Kind),
    /// Some slot of the block, which has handles of the kind, is not free.
    NotFree(u32, Kind),
}

/// Which block of a growth is meant: the only one, or one of two.
#[derive(Clone, Copy)]
pub(crate) enum Growth {
    Only,
    First,
    Second,
}

// With what an end line begins.
const END: &str = "end handles ";

/// Why the first of the lines that are left may not come, or why there is none.
pub(crate) fn cause_of(before: &Before, dues: &[Due]) -> Cause
    requires dues { AreDue before.now dues.now }
    requires wrong { IsWrong before.now }
    ensures { Holds before.now result }
{
    let rest = before.rest();
    if rest.is_empty() {
        return Cause::Missing;
    }
    let (line, _after) = cut_line(rest);
    first_cause(before, dues, line)
}

// Why the first of the lines that are left may not come.
fn first_cause(before: &Before, dues: &[Due], line: &[u8]) -> Cause
    requires dues { AreDue before.now dues.now }
    requires wrong { MayCome before.now line.now → ⊥ }
    ensures { IsCause before.now line.now result }
{
    if before.is_ended() {
        Cause::AfterEnd
    } else if !has_end(line) {
        Cause::NoEnd
    } else if begins(line, END.as_bytes()) {
        end_cause(before)
    } else {
        line_cause(before, dues, line)
    }
}

// Whether a line has its end.
fn has_end(line: &[u8]) -> bool
    ensures { IsTrue result ↔ HasEnd line.now }
{
    match line.split_last() {
        Some((last, _)) => *last == b'\n',
        None => false,
    }
}

// Why a line that begins as the end line may not come.
fn end_cause(before: &Before) -> Cause
    requires { before.now.ended ≡ false }
    ensures { (line : List ℕ) → HasEnd line → is_end line ≡ true → (MayCome before.now line → ⊥)
        → IsCause before.now line result }
{
    let left = before.left();
    if left > 0 {
        Cause::EndTooEarly(left)
    } else {
        Cause::EndCounts
    }
}

// Why a line that does not may not come.
fn line_cause(before: &Before, dues: &[Due], line: &[u8]) -> Cause
    requires dues { AreDue before.now dues.now }
    requires wrong { MayCome before.now line.now → ⊥ }
    requires going { before.now.ended ≡ false }
    requires end { HasEnd line.now }
    requires begins { is_end line.now ≡ false }
    ensures { IsCause before.now line.now result }
{
    let Some(stated) = parts_of(line) else {
        return Cause::NoLine;
    };
    if before.left() == 0 {
        return Cause::OnlyEnd;
    }
    if stated.caller >= before.callers() {
        return Cause::NoCaller(stated.caller);
    }
    match find_due(dues, stated.caller) {
        None => Cause::ListEnd(stated.caller),
        Some(due) => number_cause(before, due, stated),
    }
}

// The command of a caller among those that are due.
fn find_due(dues: &[Due], caller: u32) -> Option<&Due>
    ensures some { IfSome result
        (λ due. Contains dues.now due.now × (due.now.caller ≡ caller)) }
    ensures none { IfNone result
        ((due : Due) → Contains dues.now due → due.caller ≢ caller) }
{
    for due in dues {
        if due.caller == caller {
            return Some(due);
        }
    }
    None
}

// Why a line of the caller of what is due may not come.
fn number_cause(before: &Before, due: &Due, stated: Stated) -> Cause
    requires left { before.now.left ≢ 0 }
    requires known { stated.caller < before.now.numbers.callers }
    requires is_due { IsDue before.now due.now }
    requires caller { due.now.caller ≡ stated.caller }
    ensures { ExplainsFirst before.now (parts_in stated.entry) result }
{
    if stated.number != due.number {
        return Cause::Number(due.number);
    }
    due_cause(before, due, stated)
}

// Why a line of the caller and with the number of what is due may not come.
fn due_cause(before: &Before, due: &Due, stated: Stated) -> Cause
    requires { IsDueOf before.now (parts_in stated) due.now }
    ensures { Explains before.now (parts_in stated.entry) result }
{
    match &due.accepted {
        Accepted::One(entry) => entry_cause(before, *entry, stated),
        Accepted::Slots {
            kind,
            free: _,
            grown: _,
            full,
        } => row_cause(before, *kind, *full, stated),
        Accepted::Addresses { id: _, free } => address_cause(free, stated),
        Accepted::Blocks { kind, free: _ } => block_cause(before, *kind, stated),
    }
}

// Whether a reply is that of a line.
fn is_like(stated: Stated, reply: Reply) -> bool
    ensures { IsTrue result ↔ IsLike (parts_in stated.entry) reply }
{
    if !has_reply(stated.tail, reply) {
        return false;
    }
    if let Reply::Place(address) = reply {
        address == stated.address
    } else {
        true
    }
}

// Why a line is not that of the one entry that may come.
fn entry_cause(before: &Before, entry: Entry, stated: Stated) -> Cause
    requires { IsOnly before.now (parts_in stated) entry }
    ensures { Explains before.now (parts_in stated.entry) result }
{
    if is_like(stated, entry.reply) {
        return marks_cause(before, entry, stated);
    }
    if let Reply::Place(own) = entry.reply {
        Cause::Pinned(own)
    } else {
        Cause::Reply
    }
}

// The same where the line has its reply.
fn marks_cause(before: &Before, entry: Entry, stated: Stated) -> Cause
    requires { IsOnlyLike before.now (parts_in stated) entry }
    ensures { Explains before.now (parts_in stated.entry) result }
{
    if !same_blocks(entry.grown, stated.grown) {
        return blocks_cause(entry.grown, stated);
    }
    match (entry.slot, stated.slot) {
        (None, None) => Cause::Spelled,
        (None, Some(_)) => Cause::Slot(SlotCause::Needless),
        (Some(_), None) => Cause::Slot(SlotCause::Missing),
        (Some(own), Some(slot)) => {
            if slot.0 == own.0 {
                Cause::Spelled
            } else {
                other_slot(before, own, stated)
            }
        }
    }
}

// Another slot than that of each entry that may come: the freed one, or the least idle one of the
// weak table.
fn other_slot(before: &Before, own: Slot, stated: Stated) -> Cause
    requires { (parts_in stated).slot ≢ Some own }
    ensures { let p = parts_in stated.entry in IsGrown before.now p →
        EachLike before.now p (λ e. e.slot ≡ Some own) → Explains before.now p result }
{
    if let Some(idle) = before.idle() {
        if idle.0 == own.0 {
            return Cause::Slot(SlotCause::Idle(own));
        }
    }
    Cause::Slot(SlotCause::Freed(own))
}

// Other blocks than those of each entry that may come.
fn blocks_cause(wanted: Grown, stated: Stated) -> Cause
    requires { wanted ≢ stated.grown }
    ensures { let p = parts_in stated.entry in (k : Known) → IsReplied k p
        → EachLike k p (λ e. e.grown ≡ wanted) → Explains k p result }
{
    if same_blocks(stated.grown, Grown::Zero) {
        Cause::Blocks(BlockCause::Missing)
    } else if same_blocks(wanted, Grown::Zero) {
        Cause::Blocks(BlockCause::Needless)
    } else {
        Cause::Blocks(BlockCause::Other)
    }
}

// Whether the blocks in use changed in the same way.
fn same_blocks(one: Grown, other: Grown) -> bool
    ensures { IsTrue result ↔ (one ≡ other) }
{
    one == other
}

// Why a line is not that of a new row, or of a full table.
fn row_cause(before: &Before, kind: Kind, full: Option<Entry>, stated: Stated) -> Cause
    requires like { (entry : EntryValue) → full ≡ Some entry
        → IsLike (parts_in stated) entry.reply → IsOnlyLike before.now (parts_in stated) entry }
    requires other { ((entry : EntryValue) → full ≡ Some entry
        → IsLike (parts_in stated) entry.reply → ⊥) → IsSlotNext before.now (parts_in stated) kind }
    ensures { Explains before.now (parts_in stated.entry) result }
{
    let Some(entry) = full else {
        return slot_cause(before, kind, stated);
    };
    if is_like(stated, entry.reply) {
        marks_cause(before, entry, stated)
    } else {
        slot_cause(before, kind, stated)
    }
}

// Why a line gives no slot that a new row may get.
fn slot_cause(before: &Before, kind: Kind, stated: Stated) -> Cause
    requires { IsSlotNext before.now (parts_in stated) kind }
    ensures { Explains before.now (parts_in stated.entry) result }
{
    if !is_like(stated, Reply::Done) {
        Cause::Reply
    } else if may_give(before, kind) {
        done_cause(before, kind, stated)
    } else {
        full_cause(before, kind, stated)
    }
}

// Whether a new row of a kind may get a slot.
fn may_give(before: &Before, kind: Kind) -> bool
    ensures { IsTrue result ↔ MayGiveSome before.now kind }
{
    let grown = before.growth(kind);
    if same_blocks(grown, Grown::Zero) {
        any_free(before, kind)
    } else {
        true
    }
}

// Why a line does not give a slot, where none may be given.
fn full_cause(before: &Before, kind: Kind, stated: Stated) -> Cause
    ensures { let p = parts_in stated.entry in NoneLike before.now p → DueTakes before.now p kind
        → Explains before.now p result }
{
    let unused = unused_blocks(before);
    let needed = needed_blocks(kind);
    if !grows(stated.grown) {
        Cause::Reply
    } else if unused < needed {
        Cause::TooFew(unused, kind)
    } else {
        Cause::Reply
    }
}

// The number of blocks without a use.
fn unused_blocks(before: &Before) -> u32
    ensures { result ≡ before.now.numbers.blocks - given_of before.now.state }
{
    before.blocks().saturating_sub(before.given())
}

// Whether blocks came into use.
fn grows(grown: Grown) -> bool
    ensures { result ≡ is_some (first_stated grown) }
{
    match grown {
        Grown::One(_) => true,
        Grown::Two(..) => true,
        Grown::Zero => false,
        Grown::Back(_) => false,
    }
}

// Why a line gives another slot or other blocks than a new row may get.
fn done_cause(before: &Before, kind: Kind, stated: Stated) -> Cause
    ensures { let p = parts_in stated.entry in IsDoneNext before.now p kind
        → Explains before.now p result }
{
    match stated.grown {
        Grown::Zero => free_cause(before, kind, stated.slot),
        Grown::Back(_) => Cause::Blocks(BlockCause::Other),
        Grown::One(block) => one_cause(before, kind, stated.slot, block),
        Grown::Two(block, other) => two_cause(before, kind, stated.slot, block, other),
    }
}

// Why a slot is no free one of a kind.
fn free_cause(before: &Before, kind: Kind, slot: Option<Slot>) -> Cause
    ensures { (p : Parts) → IsDoneNext before.now p kind → p.slot ≡ slot → p.grown ≡ Zero
        → Explains before.now p result }
{
    if !any_free(before, kind) {
        return Cause::Blocks(BlockCause::Missing);
    }
    let Some(slot) = slot else {
        return Cause::Slot(SlotCause::Missing);
    };
    if before.is_free(kind, slot) {
        Cause::Spelled
    } else if before.is_taken(slot) {
        Cause::Slot(SlotCause::InUse(slot))
    } else {
        Cause::Slot(SlotCause::OtherKind(slot, kind))
    }
}

// Why the table does not grow by one block for a kind, or why the slot is not in that block.
fn one_cause(before: &Before, kind: Kind, slot: Option<Slot>, block: u32) -> Cause
    ensures { (p : Parts) → IsDoneNext before.now p kind → p.slot ≡ slot → p.grown ≡ One block
        → Explains before.now p result }
{
    if kind.paired() {
        Cause::Blocks(BlockCause::Other)
    } else if before.has_use(block) {
        Cause::Blocks(BlockCause::InUse(block))
    } else {
        least_cause(before, Growth::Only, 1, block, slot, block)
    }
}

// The same of two blocks.
fn two_cause(before: &Before, kind: Kind, slot: Option<Slot>, block: u32, other: u32) -> Cause
    ensures { (p : Parts) → IsDoneNext before.now p kind → p.slot ≡ slot
        → p.grown ≡ Two block other → Explains before.now p result }
{
    if !kind.paired() {
        Cause::Blocks(BlockCause::Other)
    } else if before.has_use(block) {
        Cause::Blocks(BlockCause::InUse(block))
    } else if before.has_use(other) {
        Cause::Blocks(BlockCause::InUse(other))
    } else if is_least(before, block) {
        least_cause(before, Growth::Second, block + 1, other, slot, block)
    } else {
        least_cause(before, Growth::First, 1, block, slot, block)
    }
}

// Whether a block is the least one without a use.
fn is_least(before: &Before, block: u32) -> bool
    ensures least { IsTrue result ↔ IsLeastUnused before.now.numbers before.now.state 1 block }
    ensures few { IsTrue result → block ≤ BLOCKS }
{
    match before.least_unused(1) {
        Some(least) => least == block,
        None => false,
    }
}

// Why a block is not the least one without a use from a number on; or, where it is, why the slot is
// not the first of the new block.
fn least_cause(
    before: &Before,
    growth: Growth,
    from: u32,
    block: u32,
    slot: Option<Slot>,
    new: u32,
) -> Cause
    ensures { (p : Parts) (kind : Kind) → IsGrowing before.now p kind growth block from new
        → p.slot ≡ slot → Explains before.now p result }
{
    let Some(least) = before.least_unused(from) else {
        return Cause::Blocks(BlockCause::Other);
    };
    if least != block {
        return Cause::Blocks(BlockCause::NotLeast(growth, least));
    }
    let Some(slot) = slot else {
        return Cause::Slot(SlotCause::Missing);
    };
    if is_first(slot, new) {
        Cause::Spelled
    } else {
        Cause::Slot(SlotCause::NotFirst(new))
    }
}

// Whether a slot is the first of a block.
fn is_first(slot: Slot, block: u32) -> bool
    ensures { IsTrue result ↔ (slot ≡ first_slot block) }
{
    slot.0 / ROWS == block && slot.0 % ROWS == 0
}

// Why a line returns no address that is free.
fn address_cause(free: &NumberSet, stated: Stated) -> Cause
    ensures { let p = parts_in stated.entry in
        (k : Known) (id : IdValue) → IsAddressNext k p id free.now → Explains k p result }
{
    if !begins(stated.tail, "addr ".as_bytes()) {
        Cause::Reply
    } else if !free.has(stated.address) {
        Cause::AddressTaken(stated.address)
    } else if !is_like(stated, Reply::Place(stated.address)) {
        Cause::Reply
    } else if !same_blocks(Grown::Zero, stated.grown) {
        blocks_cause(Grown::Zero, stated)
    } else if stated.slot.is_some() {
        Cause::Slot(SlotCause::Needless)
    } else {
        Cause::Spelled
    }
}

// Why a line gives no block back that may be given back.
fn block_cause(before: &Before, kind: Kind, stated: Stated) -> Cause
    requires { IsBlockNext before.now (parts_in stated) kind }
    ensures { Explains before.now (parts_in stated.entry) result }
{
    if is_like(stated, Reply::Value(0)) {
        none_cause(stated)
    } else if is_like(stated, Reply::Value(1)) {
        back_cause(before, kind, stated)
    } else {
        Cause::Reply
    }
}

// Why a line that gives back none is not right.
fn none_cause(stated: Stated) -> Cause
    ensures { let p = parts_in stated.entry in IsLike p (Value 0)
        → (k : Known) (kind : Kind) → IsBlockNext k p kind → Explains k p result }
{
    if !same_blocks(Grown::Zero, stated.grown) {
        blocks_cause(Grown::Zero, stated)
    } else if stated.slot.is_some() {
        Cause::Slot(SlotCause::Needless)
    } else {
        Cause::Spelled
    }
}

// Why a line that gives back a block is not right.
fn back_cause(before: &Before, kind: Kind, stated: Stated) -> Cause
    requires next { IsBlockNext before.now (parts_in stated) kind }
    requires like { IsLike (parts_in stated) (Value 1) }
    ensures { Explains before.now (parts_in stated.entry) result }
{
    if !any_whole(before, kind) {
        return Cause::Reply;
    }
    match stated.grown {
        Grown::Zero => Cause::Blocks(BlockCause::Missing),
        Grown::One(_) | Grown::Two(..) => Cause::Blocks(BlockCause::Other),
        Grown::Back(block) => given_cause(before, kind, block, stated.slot),
    }
}

// Why a block of a kind is not given back.
fn given_cause(before: &Before, kind: Kind, block: u32, slot: Option<Slot>) -> Cause
    ensures { (p : Parts) → IsBlockNext before.now p kind → IsLike p (Value 1) → IsReplied before.now p
        → p.slot ≡ slot → p.grown ≡ Back block → Explains before.now p result }
{
    if !before.is_all_free(kind, block) {
        other_block(before, kind, block)
    } else if slot.is_some() {
        Cause::Slot(SlotCause::Needless)
    } else {
        Cause::Spelled
    }
}

// The same of a block that may not be.
fn other_block(before: &Before, kind: Kind, block: u32) -> Cause
    requires { IsAllFree before.now.state kind block → ⊥ }
    ensures { (p : Parts) → IsReplied before.now p → IsNotGiven before.now p block kind
        → Explains before.now p result }
{
    if before.is_of(kind, block) {
        Cause::Blocks(BlockCause::NotFree(block, kind))
    } else {
        Cause::Blocks(BlockCause::OtherKind(block, kind))
    }
}
