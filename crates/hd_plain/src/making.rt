// The commands whose slot, blocks or address the line states: `hnew`, `trim` and `addr`.
ghost use Rattle.std.specs.Prelude.{◌≡◌, ℕ, ◌+◌, ◌<◌, ◌≤◌, ◌↔◌, Err, false, IsTrue, IfOk, MatchOption, Some, None};
ghost use Rattle.hd_model.specs.declared.data.Refusal.TheVariants as refusal;
ghost use Rattle.hd_model.specs.State.{register_of, given_of, first_slot, IsFree, IsAllFree};
ghost use Rattle.hd_model.specs.Command.{extra_by};
ghost use Rattle.hd_model.specs.Step.{MayGive, IsLeastUnused, blocks_needed, with_growth, makes_handle, gives_back, replies_address};
ghost use Rattle.hd_model.specs.{WellFormed.IsWellFormed, Valid.IsValidMake, UserLaws.HasPinnedApart};
ghost use Rattle.hd_model.specs.Handles.{extra_of};
ghost use Rattle.hd_plain.specs.Inside.{Grows};
ghost use Rattle.hd_plain.specs.ChosenSteps.{WayComesTo};

use crate::choice::Choice;
use crate::machine::Machine;
use hd_commands::on_handles::pinned_in;
use hd_commands::{Done, Parts};
use hd_maps::BlockUse;
use hd_model::limits::{BLOCKS, REGISTERS, ROWS};
use hd_model::{Extra, Grown, Handle, Id, Kind, Make, Memory, Refusal, Reply, Slot};

// The extra of a handle with a target. Without one a dependent handle has no secondary either.
fn extra_by(machine: &Machine, caller: u32, make: Make, target: Option<Id>) -> Extra<Id>
    requires caller { caller < machine.now.numbers.callers }
    requires make { IsValidMake make }
    ensures { extra_of result ≡ extra_by (register_of machine.now.state caller) make target }
{
    match make {
        Make::Short | Make::Long | Make::Strong | Make::Pinned => Extra::Nothing,
        Make::Variable(strength) => Extra::Strength(strength),
        Make::Counted => Extra::Count(1),
        Make::Dependent(s) => match target {
            Some(_) => Extra::Secondary(machine.register(caller, s)),
            None => Extra::Secondary(None),
        },
    }
}

/// Whether a slot is a free one of a kind.
pub fn is_free(machine: &Machine, kind: Kind, slot: Slot) -> bool
    ensures { IsTrue result ↔ IsFree machine.now.state kind slot }
{
    machine.handle(slot).is_none()
        && machine.weak.at(u64::from(slot.0)).is_none()
        && machine.table.is_of(kind, slot.0 / ROWS)
}

// Whether a block is the least unused one from a number on.
fn is_least(machine: &Machine, from: u32, block: u32) -> bool
    ensures least { IsTrue result
        ↔ IsLeastUnused machine.now.numbers machine.now.state from block }
    ensures few { IsTrue result → block ≤ BLOCKS }
{
    // A read for the proof: no table has more blocks than this.
    let _limit = machine.table.blocks();
    match machine.table.least_unused(from) {
        Some(least) => least == block,
        None => false,
    }
}

// Whether a slot is the first of a block.
fn is_first(block: u32, slot: Slot) -> bool
    ensures { IsTrue result ↔ (slot ≡ first_slot block) }
{
    slot.0 / ROWS == block && slot.0 % ROWS == 0
}

/// Whether a new row of a kind may get a slot with a growth.
pub fn may_give(machine: &Machine, kind: Kind, grown: Grown, slot: Slot) -> bool
    ensures { IsTrue result ↔ MayGive machine.now.numbers machine.now.state kind grown slot }
{
    match grown {
        Grown::Zero => is_free(machine, kind, slot),
        Grown::One(block) => {
            !kind.paired() && is_least(machine, 1, block) && is_first(block, slot)
        }
        Grown::Two(block, other) => {
            kind.paired()
                && is_least(machine, 1, block)
                && is_least(machine, block + 1, other)
                && is_first(block, slot)
        }
        Grown::Back(_) => false,
    }
}

/// Uses the blocks by which the table grows.
pub(crate) fn use_blocks(machine: &mut Machine, kind: Kind, grown: Grown) -> Result<(), Memory>
    requires { Grows machine.old kind grown }
    ensures { let after = with_growth machine.old.state kind grown in
        IfOk result (λ _. machine.new ≡ record machine.old { state = after }) }
{
    match grown {
        Grown::Zero | Grown::Back(_) => Ok(()),
        Grown::One(block) => machine.table.give(block, BlockUse::HandlesOf(kind)),
        Grown::Two(block, other) => {
            machine.table.give(block, BlockUse::HandlesOf(kind))?;
            machine.table.give(other, BlockUse::ExtraData)
        }
    }
}

/// The refusal of a full table, where too few blocks are without a use.
pub(crate) fn table_full(machine: &Machine, kind: Kind) -> Option<Result<Done, Refusal>>
    ensures { let s = machine.now.state in let few = given_of s + blocks_needed kind in
        MatchOption result (few ≤ machine.now.numbers.blocks)
        (λ made. (machine.now.numbers.blocks < few)
        × (made ≡ Err (refusal.TableFull (given_of s)))) }
{
    let needed = if kind.paired() { 2 } else { 1 };
    let given = machine.table.given();
    if machine.table.blocks() < given + needed {
        Some(Err(Refusal::TableFull { given }))
    } else {
        None
    }
}

/// `hnew hD KIND rT`.
pub fn make_handle(
    machine: &mut Machine,
    caller: u32,
    d: u8,
    make: Make,
    t: u8,
    choice: &Choice,
) -> Result<Option<Result<Done, Refusal>>, Memory>
    requires caller { caller < machine.old.numbers.callers }
    requires registers { (d < REGISTERS) × (t < REGISTERS) }
    requires make { IsValidMake make }
    requires formed { IsWellFormed machine.old.numbers machine.old.state }
    ensures { let way = makes_handle d make t in
        IfOk result (WayComesTo caller way choice.now machine.old machine.new) }
{
    let kind = make.kind();
    let Some(slot) = choice.slot else {
        return Ok(table_full(machine, kind));
    };
    if !may_give(machine, kind, choice.grown, slot) {
        return Ok(None);
    }
    let target = machine.register(caller, t);
    let extra = extra_by(machine, caller, make, target);
    use_blocks(machine, kind, choice.grown)?;
    let handle = Handle {
        kind,
        target,
        extra,
    };
    machine.table.put(u64::from(slot.0), handle)?;
    machine.set_handle_register(caller, d, Some(slot));
    Ok(Some(Ok(Done::in_slot(slot, choice.grown))))
}

/// Whether all slots of a block are free slots of a kind.
pub fn is_all_free(machine: &Machine, kind: Kind, block: u32) -> bool
    requires { IsWellFormed machine.now.numbers machine.now.state }
    ensures { IsTrue result ↔ IsAllFree machine.now.state kind block }
{
    let limit = machine.table.blocks();
    if block > limit {
        return false;
    }
    if !machine.table.is_of(kind, block) {
        return false;
    }
    for row in 0..ROWS {
        if !is_free(machine, kind, Slot(block * ROWS + row)) {
            return false;
        }
    }
    true
}

/// `trim KIND`.
pub fn trim(machine: &mut Machine, kind: Kind, choice: &Choice) -> Option<Result<Done, Refusal>>
    requires { IsWellFormed machine.old.numbers machine.old.state }
    ensures { let way = gives_back kind in
        (caller : ℕ) → WayComesTo caller way choice.now machine.old machine.new result }
{
    let Grown::Back(block) = choice.grown else {
        return Some(Ok(Done::of(Reply::Value(0))));
    };
    if !is_all_free(machine, kind, block) {
        return None;
    }
    machine.table.take_back(block);
    Some(Ok(Done {
        reply: Reply::Value(1),
        slot: None,
        grown: choice.grown,
    }))
}

/// `addr hS`.
pub fn reply_address(
    machine: &mut Machine,
    caller: u32,
    h: u8,
    choice: &Choice,
) -> Result<Option<Result<Done, Refusal>>, Memory>
    requires caller { caller < machine.old.numbers.callers }
    requires register { h < REGISTERS }
    requires formed { IsWellFormed machine.old.numbers machine.old.state }
    requires apart { HasPinnedApart machine.old.state }
    ensures { let way = replies_address h in
        IfOk result (WayComesTo caller way choice.now machine.old machine.new) }
{
    let id = match pinned_in(machine, caller, h) {
        Ok(id) => id,
        Err(refusal) => return Ok(Some(Err(refusal))),
    };
    if let Some(own) = machine.pinned.of(id) {
        return Ok(Some(Ok(Done::of(Reply::Place(own)))));
    }
    if !machine.is_free_address(id, choice.address) {
        return Ok(None);
    }
    machine.put_address(id, choice.address)?;
    Ok(Some(Ok(Done::of(Reply::Place(choice.address)))))
}
