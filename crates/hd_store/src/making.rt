// `new`, `hnew` and `trim`: objects and handles are made, and blocks come into use and go out of
// it.
ghost use Rattle.std.specs.Prelude.{◌≡◌, ℕ, ◌+◌, ◌*◌, ◌<◌, ◌≤◌, ◌^◌, Some, None, false, IfOk, IfErr, IfSome, OnErr, OnSome};
ghost use Rattle.hd_model.specs.declared.command.Cmd.TheVariants as cmds;
ghost use Rattle.hd_model.specs.{Kinds.kind_of, Kinds.is_paired, Step.blocks_needed, Valid.IsValidMake, WellFormed.HasHandles, WellFormed.HasWeakTable, Aging.lowered_by_new, Aging.lowered_to};
ghost use Rattle.std.specs.FinMap.{get};
ghost use Rattle.hd_model.specs.Command.{new_object};
ghost use Rattle.hd_model.specs.State.{given_of, block_of, first_slot, identity_of, last_serial, total_size, IsFree, IsAllFree};
ghost use Rattle.hd_store.specs.{Reading.named_in, Reading.IsNamed, Store.seen_by, Offers.IsOffer, Inside.KeepsNames, Inside.IsSlotGiven, Inside.IsMadeHandle};
ghost use Rattle.hd_model.specs.declared.data.Reply.TheVariants as reply;
ghost use Rattle.hd_commands.specs.Done.{done_making, done_of, done_with, entry_by, ComesTo};
ghost use Rattle.hd_store.specs.{Calls.pointed_made, Replies.done_trimming};
ghost use Rattle.hd_store.specs.Inside.{HasRun, IsPlainStep};

use crate::contents::Contents;
use hd_commands::Parts;
use hd_heap::NewFault;
use hd_model::limits::{FIELDS, HOST_BLOCKS, REGISTERS, ROWS};
use hd_model::{Addr, Extra, Grown, Handle, Id, Kind, Make, Memory, Refusal, Slot};
use hd_seg::Full;

/// `new rD F`. A full heap is reported before memory is taken.
#[inline(always)]
pub(crate) fn new_object(
    store: &mut Contents,
    caller: u32,
    d: u8,
    fields: u8,
    fin: bool,
) -> Result<Result<Id, Refusal>, Memory>
    requires caller { caller < store.old.numbers.callers }
    requires register { d < REGISTERS }
    requires fields { fields ≤ FIELDS }
    requires serial { last_serial store.old.state caller + 1 < 2 ^ 32 }
    requires fresh { let serial = last_serial store.old.state caller + 1 in
        get store.old.state.objects (identity_of caller serial).0 ≡ None }
    ensures done { let n = store.old.numbers in
        let wanted = new_object n store.old.state caller d fields fin in
        let before = record store.old { names = store.new.names } in
        IfOk result (λ came. ComesTo wanted (seen_by before) (seen_by store.new)
        (done_with reply.Object came)) }
    ensures names { KeepsNames store.old.names store.new.names }
    ensures fits { OnErr result
        (total_size store.old.state + (fields + 3) ≤ store.old.numbers.heap) }
    ensures unchanged { OnErr result (store.new ≡ store.old) }
{
    match store.add_object(caller, fields, fin) {
        Ok(at) => {
            store.set_register(caller, d, Some(at));
            Ok(Ok(store.id(at)))
        }
        Err(NewFault::Full { used, size }) => Ok(Err(Refusal::HeapFull { used, size })),
        Err(NewFault::Memory) => Err(Memory),
    }
}

// The first slot of a block.
fn first_slot(block: u32) -> Slot
    requires { block ≤ HOST_BLOCKS }
    ensures { result ≡ first_slot block }
{
    Slot(block * ROWS)
}

// The first slot of a new block. Where there is no block left, nothing is changed.
fn slot_of_new_block(store: &mut Contents, kind: Kind) -> Result<(Slot, Grown), Full>
    requires handles { HasHandles store.old.numbers store.old.state }
    requires weak { HasWeakTable store.old.state }
    ensures slot_given { IfOk result
        (λ slot_given. IsSlotGiven store.old store.new kind None slot_given.0 slot_given.1) }
    ensures given { IfErr result (λ full. full.given ≡ given_of store.old.state) }
    ensures full { OnErr result
        (store.old.numbers.blocks < given_of store.old.state + blocks_needed kind) }
    ensures kept { OnErr result (store.new ≡ store.old) }
{
    match store.give_blocks(kind) {
        Ok(Grown::One(block)) => Ok((first_slot(block), Grown::One(block))),
        Ok(Grown::Two(block, extras)) => Ok((first_slot(block), Grown::Two(block, extras))),
        Ok(Grown::Zero | Grown::Back(_)) => unreachable!(),
        Err(full) => Err(full),
    }
}

/// The slot of a new handle: the offered one or, without one, the first of a new block.
#[inline(always)]
pub(crate) fn slot_given(
    store: &mut Contents,
    kind: Kind,
    offer: Option<Slot>,
) -> Result<(Slot, Grown), Full>
    requires handles { HasHandles store.old.numbers store.old.state }
    requires weak { HasWeakTable store.old.state }
    requires offer { IfSome offer (IsFree store.old.state kind) }
    ensures slot_given { IfOk result (λ slot_given.
        IsSlotGiven store.old store.new kind offer slot_given.0 slot_given.1) }
    ensures given { IfErr result (λ full. full.given ≡ given_of store.old.state) }
    ensures full { OnErr result
        (store.old.numbers.blocks < given_of store.old.state + blocks_needed kind) }
    ensures unoffered { OnErr result (offer ≡ None) }
    ensures kept { OnErr result (store.new ≡ store.old) }
{
    match offer {
        Some(slot) => Ok((slot, Grown::Zero)),
        None => slot_of_new_block(store, kind),
    }
}

// A new handle. Without a target a dependent one has no secondary either.
#[inline(always)]
fn made(store: &Contents, caller: u32, make: Make, t: u8) -> Handle<Addr>
    requires caller { caller < store.now.numbers.callers }
    requires register { t < REGISTERS }
    requires make { IsValidMake make }
    ensures { IsMadeHandle store.now caller make t result }
{
    let target = store.register(caller, t);
    let extra = match make {
        Make::Short | Make::Long | Make::Strong | Make::Pinned => Extra::Nothing,
        Make::Variable(strength) => Extra::Strength(strength),
        Make::Counted => Extra::Count(1),
        Make::Dependent(r) => {
            let secondary = store.register(caller, r);
            Extra::Secondary(target.and(secondary))
        }
    };
    Handle {
        kind: make.kind(),
        target,
        extra,
    }
}

// Lowers the age of a slot's clump to the generation of what is stored there. Null lowers none.
#[inline(always)]
fn lower_to(store: &mut Contents, slot: Slot, target: Option<Addr>)
    requires low { 1 ≤ block_of slot }
    requires high { block_of slot ≤ store.old.numbers.blocks }
    requires named { IsNamed store.old.names target }
    ensures { let named = named_in store.old.names target in
        let ages = lowered_to store.old.state store.old.ages (Some slot) named in
        store.new ≡ record store.old { ages = ages } }
{
    let Some(at) = target else {
        return;
    };
    let generation = store.generation(at);
    store.lower_age(slot, generation);
}

// Lowers the age of a slot's clump for a handle that is made there. A dependent one, which may get
// any secondary, makes it 0.
#[inline(always)]
fn lower_for(store: &mut Contents, slot: Slot, make: Make, target: Option<Addr>)
    requires low { 1 ≤ block_of slot }
    requires high { block_of slot ≤ store.old.numbers.blocks }
    requires named { IsNamed store.old.names target }
    ensures { let named = named_in store.old.names target in
        let ages = lowered_by_new store.old.state store.old.ages (Some slot) make named in
        store.new ≡ record store.old { ages = ages } }
{
    match make.secondary() {
        Some(_) => store.lower_age(slot, 0),
        None => lower_to(store, slot, target),
    }
}

/// An `hnew` but for the handle register: takes the offered slot or, without one, the first slot of
/// a new block.
#[inline(always)]
pub(crate) fn make_handle(
    store: &mut Contents,
    caller: u32,
    make: Make,
    t: u8,
    offer: Option<Slot>,
) -> Result<(Slot, Grown), Refusal>
    requires handles { HasHandles store.old.numbers store.old.state }
    requires weak { HasWeakTable store.old.state }
    requires caller { caller < store.old.numbers.callers }
    requires register { t < REGISTERS }
    requires make { IsValidMake make }
    requires offer { IfSome offer (IsFree store.old.state (kind_of make)) }
    ensures { (d : ℕ) → let c = cmds.HNew d make t in
        let e = entry_by caller c (done_of (done_making result)) in
        let after = pointed_made store.new caller d result in
        HasRun store.old caller c offer e (IsPlainStep store.old c after e) }
{
    if offer.is_some() {
        make_in_slot(store, caller, make, t, offer)
    } else {
        make_in_block(store, caller, make, t, offer)
    }
}

// The same, out of line: the table rarely grows.
#[inline(never)]
fn make_in_block(
    store: &mut Contents,
    caller: u32,
    make: Make,
    t: u8,
    offer: Option<Slot>,
) -> Result<(Slot, Grown), Refusal>
    requires handles { HasHandles store.old.numbers store.old.state }
    requires weak { HasWeakTable store.old.state }
    requires caller { caller < store.old.numbers.callers }
    requires register { t < REGISTERS }
    requires make { IsValidMake make }
    requires offer { IfSome offer (IsFree store.old.state (kind_of make)) }
    ensures { (d : ℕ) → let c = cmds.HNew d make t in
        let e = entry_by caller c (done_of (done_making result)) in
        let after = pointed_made store.new caller d result in
        HasRun store.old caller c offer e (IsPlainStep store.old c after e) }
{
    make_in_slot(store, caller, make, t, offer)
}

// The same, wherever the slot is.
#[inline(always)]
fn make_in_slot(
    store: &mut Contents,
    caller: u32,
    make: Make,
    t: u8,
    offer: Option<Slot>,
) -> Result<(Slot, Grown), Refusal>
    requires handles { HasHandles store.old.numbers store.old.state }
    requires weak { HasWeakTable store.old.state }
    requires caller { caller < store.old.numbers.callers }
    requires register { t < REGISTERS }
    requires make { IsValidMake make }
    requires offer { IfSome offer (IsFree store.old.state (kind_of make)) }
    ensures { (d : ℕ) → let c = cmds.HNew d make t in
        let e = entry_by caller c (done_of (done_making result)) in
        let after = pointed_made store.new caller d result in
        HasRun store.old caller c offer e (IsPlainStep store.old c after e) }
{
    let handle = made(store, caller, make, t);
    let (slot, grown) = match slot_given(store, handle.kind, offer) {
        Ok(slot_given) => slot_given,
        Err(full) => return Err(Refusal::TableFull { given: full.given }),
    };
    lower_for(store, slot, make, handle.target);
    store.put_handle(slot, handle);
    Ok((slot, grown))
}

/// `hnew hD KIND rT ..`.
#[inline(always)]
pub(crate) fn new_handle(
    store: &mut Contents,
    caller: u32,
    d: u8,
    make: Make,
    t: u8,
    offer: Option<Slot>,
) -> Result<(Slot, Grown), Refusal>
    requires handles { HasHandles store.old.numbers store.old.state }
    requires weak { HasWeakTable store.old.state }
    requires caller { caller < store.old.numbers.callers }
    requires registers { (d < REGISTERS) × (t < REGISTERS) }
    requires make { IsValidMake make }
    requires offer { IfSome offer (IsFree store.old.state (kind_of make)) }
    ensures { let c = cmds.HNew d make t in
        let e = entry_by caller c (done_of (done_making result)) in
        HasRun store.old caller c offer e (IsPlainStep store.old c store.new e) }
{
    match make_handle(store, caller, make, t, offer) {
        Ok((slot, grown)) => {
            store.set_handle_register(caller, d, Some(slot));
            Ok((slot, grown))
        }
        Err(refusal) => Err(refusal),
    }
}

/// `trim KIND`: gives back the block of the offered slot or, without one, none.
pub(crate) fn trim(store: &mut Contents, caller: u32, kind: Kind, offer: Option<Slot>) -> Grown
    requires single { is_paired kind ≡ false }
    requires offer { IsOffer store.old.state caller (cmds.Trim kind) offer }
    ensures { let c = cmds.Trim kind in let e = entry_by caller c (done_trimming result) in
        HasRun store.old caller c offer e (IsPlainStep store.old c store.new e) }
{
    let Some(slot) = offer else {
        return Grown::Zero;
    };
    let block = slot.0 / ROWS;
    store.take_back(kind, block);
    Grown::Back(block)
}
