// The commands on handles and the board.
ghost use Rattle.std.specs.Prelude.{◌≡◌, ◌&&◌, ◌+◌, ◌<◌, ◌^◌, None, Ok, Some, true, false, cond, is_some, IfOk, IsSome, MatchResult, option_map};
ghost use Rattle.hd_model.specs.declared.data.Kind.TheVariants as kind;
ghost use Rattle.hd_model.specs.declared.data.Refusal.TheVariants as refusal;
ghost use Rattle.hd_model.specs.declared.data.Reply.TheVariants as reply;
ghost use Rattle.hd_model.specs.declared.data.Slot.{Slot};
ghost use Rattle.hd_model.specs.State.{register_of, count_of, handle_at, handle_register_of, secondary as with_secondary, secondary_of, with_handle, without_secondary};
ghost use Rattle.hd_model.specs.Ages.{lowered};
ghost use Rattle.hd_model.specs.Aging.{is_refused, lowered_at, lowered_to};
ghost use Rattle.hd_model.specs.Table.{fits, is_secondary};
ghost use Rattle.hd_model.specs.WellFormed.{HasHandles};
ghost use Rattle.hd_model.specs.Command.{get_target, set_target, set_secondary, get_secondary, set_strength, raise_count, lower_count, free_handle, with_count, put_board, pick_board};
ghost use Rattle.hd_model.specs.Command.{load_reply, set_target_of, set_secondary_of, get_secondary_of, set_strength_of, raise_count_of, lower_count_of};
ghost use Rattle.hd_commands.specs.Counts.{MayCountUp};
ghost use Rattle.hd_commands.specs.Seen.{named_in, IsNamed, MayUse, MayUseBoth};
ghost use Rattle.hd_commands.specs.Done.{done_freeing, done_with, replied, ComesTo, ComesToAged};
ghost use Rattle.hd_commands.specs.Handles.{as_found, as_pinned, handle_named, live_in, pinned_in, pinned_of, IsWithin, MayBeStored};
ghost use Rattle.hd_model.specs.Handles.{extra_of, handle_of};

use crate::on_objects::load;
use crate::parts::Parts;
use hd_model::{Extra, Handle, Id, Refusal, Slot, Strength};

/// The slot in a handle register with its handle, which is refused where the register is empty and
/// where the slot is not live.
pub fn live_in<P: Parts>(parts: &P, caller: u32, h: u8) -> Result<(Slot, Handle<P::Name>), Refusal>
    requires register { MayUse (P.seen parts.now) caller h }
    requires handles { HasHandles (P.seen parts.now).numbers (P.seen parts.now).state }
    ensures value { let p = P.seen parts.now in as_found p result ≡ live_in p.state caller h }
    ensures may { IfOk result (λ found. MayBeStored (P.seen parts.now) found.0 (handle_of found.1)) }
    ensures within { IfOk result (λ found. IsWithin (P.seen parts.now) found.0) }
    ensures found { let s = (P.seen parts.now).state in
        IfOk result (λ found. (handle_register_of s caller h ≡ Some found.0)
        × (handle_at s found.0 ≡ Some (handle_named (P.seen parts.now) found.1))) }
{
    let Some(slot) = parts.handle_register(caller, h) else {
        return Err(Refusal::EmptyRegister);
    };
    match parts.handle(slot) {
        Some(handle) => Ok((slot, handle)),
        None => Err(Refusal::NotLive),
    }
}

/// `hget rD hS`.
pub fn get_target<P: Parts>(parts: &mut P, caller: u32, d: u8, s: u8) -> Result<Option<Id>, Refusal>
    requires registers { MayUseBoth (P.seen parts.old) caller d s }
    requires handles { HasHandles (P.seen parts.old).numbers (P.seen parts.old).state }
    ensures { let p = P.seen parts.old in
        let wanted = get_target p.state caller d s in
        ComesTo wanted p (P.seen parts.new) (done_with load_reply result) }
{
    let (_, handle) = live_in(parts, caller, s)?;
    Ok(load(parts, caller, d, handle.target))
}

/// An `hdep` of a handle: rD gets its secondary.
#[inline(always)]
pub fn get_secondary_of<P: Parts>(
    parts: &mut P,
    caller: u32,
    d: u8,
    handle: Handle<P::Name>,
) -> Result<Option<Id>, Refusal>
    requires register { MayUse (P.seen parts.old) caller d }
    requires fits { fits handle.kind (extra_of handle.extra) ≡ true }
    requires named { IsNamed (P.seen parts.old) (secondary_of (extra_of handle.extra)) }
    ensures { (slot : Slot) → let p = P.seen parts.old in
        let wanted = get_secondary_of p.state caller d slot (handle_named p handle) in
        ComesTo wanted p (P.seen parts.new) (done_with load_reply result) }
{
    let Extra::Secondary(secondary) = handle.extra else {
        return Err(Refusal::WrongKind);
    };
    Ok(load(parts, caller, d, secondary))
}

/// `hdep rD hS`.
pub fn get_secondary<P: Parts>(
    parts: &mut P,
    caller: u32,
    d: u8,
    s: u8,
) -> Result<Option<Id>, Refusal>
    requires registers { MayUseBoth (P.seen parts.old) caller d s }
    requires handles { HasHandles (P.seen parts.old).numbers (P.seen parts.old).state }
    ensures { let p = P.seen parts.old in
        let wanted = get_secondary p.state caller d s in
        ComesTo wanted p (P.seen parts.new) (done_with load_reply result) }
{
    let (_, handle) = live_in(parts, caller, s)?;
    get_secondary_of(parts, caller, d, handle)
}

/// An `hvar` of the handle in a live slot.
#[inline(always)]
pub fn set_strength_of<P: Parts>(
    parts: &mut P,
    slot: Slot,
    handle: Handle<P::Name>,
    to: Strength,
) -> Result<(), Refusal>
    requires live { let p = P.seen parts.old in
        handle_at p.state slot ≡ Some (handle_named p handle) }
    requires may { MayBeStored (P.seen parts.old) slot (handle_of handle) }
    ensures { let p = P.seen parts.old in
        let wanted = set_strength_of p.state to slot (handle_named p handle) in
        ComesTo wanted p (P.seen parts.new) (done_with (λ _. reply.Done) result) }
{
    let Extra::Strength(_) = handle.extra else {
        return Err(Refusal::WrongKind);
    };
    let extra = Extra::Strength(to);
    parts.replace_handle(slot, Handle { extra, ..handle });
    Ok(())
}

/// `hvar hS STRENGTH`.
pub fn set_strength<P: Parts>(
    parts: &mut P,
    caller: u32,
    s: u8,
    to: Strength,
) -> Result<(), Refusal>
    requires register { MayUse (P.seen parts.old) caller s }
    requires handles { HasHandles (P.seen parts.old).numbers (P.seen parts.old).state }
    ensures { let p = P.seen parts.old in
        let wanted = set_strength p.state caller s to in
        ComesTo wanted p (P.seen parts.new) (done_with (λ _. reply.Done) result) }
{
    let (slot, handle) = live_in(parts, caller, s)?;
    set_strength_of(parts, slot, handle, to)
}

/// `hfree hS`, which returns the slot that is freed.
pub fn free_handle<P: Parts>(parts: &mut P, caller: u32, s: u8) -> Result<Slot, Refusal>
    requires register { MayUse (P.seen parts.old) caller s }
    requires handles { HasHandles (P.seen parts.old).numbers (P.seen parts.old).state }
    ensures { let p = P.seen parts.old in
        ComesTo (free_handle p.state caller s) p (P.seen parts.new) (done_freeing result) }
{
    let (slot, _) = live_in(parts, caller, s)?;
    parts.take_handle(slot);
    parts.set_handle_register(caller, s, None);
    Ok(slot)
}

/// `hput k hS`.
pub fn put_board<P: Parts>(parts: &mut P, caller: u32, k: u8, s: u8)
    requires { MayUseBoth (P.seen parts.old) caller k s }
    ensures { let p = P.seen parts.old in
        ComesTo (put_board p.state caller k s) p (P.seen parts.new) (Ok (replied reply.Done)) }
{
    let slot = parts.handle_register(caller, s);
    parts.set_board(k, slot);
}

/// `hpick hD k`.
pub fn pick_board<P: Parts>(parts: &mut P, caller: u32, d: u8, k: u8)
    requires { MayUseBoth (P.seen parts.old) caller d k }
    ensures { let p = P.seen parts.old in
        ComesTo (pick_board p.state caller d k) p (P.seen parts.new) (Ok (replied reply.Done)) }
{
    let slot = parts.board_at(k);
    parts.set_handle_register(caller, d, slot);
}

/// Lowers the age of a slot's clump to the generation of what is stored there. Null lowers
/// none.
#[inline(always)]
pub fn lower_to<P: Parts>(parts: &mut P, slot: Slot, target: Option<P::Name>)
    requires within { IsWithin (P.seen parts.old) slot }
    requires named { IsNamed (P.seen parts.old) target }
    ensures { let p = P.seen parts.old in
        let ages = lowered_to p.state p.ages (Some slot) (named_in p target) in
        P.seen parts.new ≡ record p { ages = ages } }
{
    let Some(at) = target else {
        return;
    };
    let generation = parts.generation(at);
    parts.lower_age(slot, generation);
}

// What a handle has beside its target once that is another one: a dependent handle may get null
// alone, and then its secondary is null too.
#[inline(always)]
fn extra_beside<N: Copy + Drop>(extra: Extra<N>, target: Option<N>) -> Result<Extra<N>, Refusal>
    ensures { let names = is_some target in
        MatchResult result
        (λ e. (extra_of e ≡ without_secondary (extra_of extra))
        × ((is_secondary (extra_of extra) && names) ≡ false))
        (λ refused. (refused ≡ refusal.WrongKind)
        × ((is_secondary (extra_of extra) && names) ≡ true)) }
{
    match (extra, target) {
        (Extra::Secondary(_), Some(_)) => Err(Refusal::WrongKind),
        (Extra::Secondary(_), None) => Ok(Extra::Secondary(None)),
        (Extra::Nothing | Extra::Strength(_) | Extra::Count(_), _) => Ok(extra),
    }
}

// A handle with another target and no secondary is stored in its slot, with the age of the slot's
// clump lowered.
#[inline(always)]
fn store_target<P: Parts>(parts: &mut P, slot: Slot, handle: Handle<P::Name>)
    requires live { option_map (λ h. h.kind) (handle_at (P.seen parts.old).state slot)
        ≡ Some handle.kind }
    requires within { IsWithin (P.seen parts.old) slot }
    requires fits { fits handle.kind (extra_of handle.extra) ≡ true }
    requires named { IsNamed (P.seen parts.old) handle.target }
    requires alone { secondary_of (extra_of handle.extra) ≡ None }
    ensures { let p = P.seen parts.old in
        let state = with_handle p.state slot (handle_named p handle) in
        let target = named_in p handle.target in
        let ages = lowered_to p.state p.ages (Some slot) target in
        P.seen parts.new ≡ record p { state = state; ages = ages } }
{
    lower_to(parts, slot, handle.target);
    parts.replace_handle(slot, handle);
}

/// An `hset` of the handle in a live slot.
#[inline(always)]
pub fn set_target_of<P: Parts>(
    parts: &mut P,
    caller: u32,
    slot: Slot,
    handle: Handle<P::Name>,
    t: u8,
) -> Result<(), Refusal>
    requires register { MayUse (P.seen parts.old) caller t }
    requires live { let p = P.seen parts.old in
        handle_at p.state slot ≡ Some (handle_named p handle) }
    requires may { MayBeStored (P.seen parts.old) slot (handle_of handle) }
    requires within { IsWithin (P.seen parts.old) slot }
    ensures { let p = P.seen parts.old in
        let wanted = set_target_of p.state caller t slot (handle_named p handle) in
        let lowered = lowered_to p.state p.ages (Some slot) (register_of p.state caller t) in
        let ages = cond (is_refused wanted.reply) p.ages lowered in
        ComesToAged wanted ages p (P.seen parts.new) (done_with (λ _. reply.Done) result) }
{
    let target = parts.register(caller, t);
    let extra = extra_beside(handle.extra, target)?;
    let kind = handle.kind;
    store_target(
        parts,
        slot,
        Handle {
            kind,
            target,
            extra,
        },
    );
    Ok(())
}

/// `hset hS rT`.
pub fn set_target<P: Parts>(parts: &mut P, caller: u32, s: u8, t: u8) -> Result<(), Refusal>
    requires registers { MayUseBoth (P.seen parts.old) caller s t }
    requires handles { HasHandles (P.seen parts.old).numbers (P.seen parts.old).state }
    ensures { let p = P.seen parts.old in
        let wanted = set_target p.state caller s t in
        let slot = handle_register_of p.state caller s in
        let lowered = lowered_to p.state p.ages slot (register_of p.state caller t) in
        let ages = cond (is_refused wanted.reply) p.ages lowered in
        ComesToAged wanted ages p (P.seen parts.new) (done_with (λ _. reply.Done) result) }
{
    let (slot, handle) = live_in(parts, caller, s)?;
    set_target_of(parts, caller, slot, handle, t)
}

// A dependent handle with a target gets another secondary, with the age of its clump lowered.
#[inline(always)]
fn store_secondary<P: Parts>(
    parts: &mut P,
    slot: Slot,
    handle: Handle<P::Name>,
    secondary: Option<P::Name>,
)
    requires live { let p = P.seen parts.old in
        handle_at p.state slot ≡ Some (handle_named p handle) }
    requires within { IsWithin (P.seen parts.old) slot }
    requires may { MayBeStored (P.seen parts.old) slot (handle_of handle) }
    requires dependent { is_secondary (extra_of handle.extra) ≡ true }
    requires paired { IsSome handle.target }
    requires named { IsNamed (P.seen parts.old) secondary }
    ensures { let p = P.seen parts.old in
        let extra = with_secondary (named_in p secondary) in
        let after = record (handle_named p handle) { extra = extra } in
        let state = with_handle p.state slot after in
        P.seen parts.new ≡ record p { state = state; ages = lowered p.ages slot.0 0 } }
{
    let extra = Extra::Secondary(secondary);
    parts.lower_age(slot, 0);
    parts.replace_handle(slot, Handle { extra, ..handle });
}

/// An `hsec` of the handle in a live slot.
#[inline(always)]
pub fn set_secondary_of<P: Parts>(
    parts: &mut P,
    caller: u32,
    slot: Slot,
    handle: Handle<P::Name>,
    s: u8,
) -> Result<(), Refusal>
    requires register { MayUse (P.seen parts.old) caller s }
    requires live { let p = P.seen parts.old in
        handle_at p.state slot ≡ Some (handle_named p handle) }
    requires may { MayBeStored (P.seen parts.old) slot (handle_of handle) }
    requires within { IsWithin (P.seen parts.old) slot }
    ensures { let p = P.seen parts.old in
        let wanted = set_secondary_of p.state caller s slot (handle_named p handle) in
        let ages = cond (is_refused wanted.reply) p.ages (lowered_at p.ages (Some slot) 0) in
        ComesToAged wanted ages p (P.seen parts.new) (done_with (λ _. reply.Done) result) }
{
    let Extra::Secondary(_) = handle.extra else {
        return Err(Refusal::WrongKind);
    };
    if handle.target.is_none() {
        return Err(Refusal::Null);
    }
    let secondary = parts.register(caller, s);
    store_secondary(parts, slot, handle, secondary);
    Ok(())
}

/// `hsec hS rS`.
pub fn set_secondary<P: Parts>(parts: &mut P, caller: u32, h: u8, s: u8) -> Result<(), Refusal>
    requires registers { MayUseBoth (P.seen parts.old) caller h s }
    requires handles { HasHandles (P.seen parts.old).numbers (P.seen parts.old).state }
    ensures { let p = P.seen parts.old in
        let wanted = set_secondary p.state caller h s in
        let lowered = lowered_at p.ages (handle_register_of p.state caller h) 0 in
        let ages = cond (is_refused wanted.reply) p.ages lowered in
        ComesToAged wanted ages p (P.seen parts.new) (done_with (λ _. reply.Done) result) }
{
    let (slot, handle) = live_in(parts, caller, h)?;
    set_secondary_of(parts, caller, slot, handle, s)
}

// A ref-counted handle gets a count, which is returned.
fn set_count<P: Parts>(parts: &mut P, slot: Slot, handle: Handle<P::Name>, count: u32) -> u32
    requires live { let p = P.seen parts.old in
        handle_at p.state slot ≡ Some (handle_named p handle) }
    requires may { MayBeStored (P.seen parts.old) slot (handle_of handle) }
    requires counted { handle.kind ≡ kind.Counted }
    ensures { let p = P.seen parts.old in
        let wanted = with_count p.state slot (handle_named p handle) count in
        ComesTo wanted p (P.seen parts.new) (Ok (replied (reply.Value result))) }
{
    let extra = Extra::Count(count);
    parts.replace_handle(slot, Handle { extra, ..handle });
    count
}

/// An `hup` of the handle in a live slot, which returns the count.
#[inline(always)]
pub fn raise_count_of<P: Parts>(
    parts: &mut P,
    slot: Slot,
    handle: Handle<P::Name>,
) -> Result<u32, Refusal>
    requires live { let p = P.seen parts.old in
        handle_at p.state slot ≡ Some (handle_named p handle) }
    requires may { MayBeStored (P.seen parts.old) slot (handle_of handle) }
    requires small { let p = P.seen parts.old in
        count_of (handle_named p handle).extra + 1 < 2 ^ 32 }
    ensures { let p = P.seen parts.old in
        let wanted = raise_count_of p.state slot (handle_named p handle) in
        ComesTo wanted p (P.seen parts.new) (done_with reply.Value result) }
{
    let Extra::Count(count) = handle.extra else {
        return Err(Refusal::WrongKind);
    };
    Ok(set_count(parts, slot, handle, count + 1))
}

/// `hup hS`, which returns the count.
pub fn raise_count<P: Parts>(parts: &mut P, caller: u32, s: u8) -> Result<u32, Refusal>
    requires register { MayUse (P.seen parts.old) caller s }
    requires handles { HasHandles (P.seen parts.old).numbers (P.seen parts.old).state }
    requires small { MayCountUp (P.seen parts.old).state caller s }
    ensures { let p = P.seen parts.old in
        let wanted = raise_count p.state caller s in
        ComesTo wanted p (P.seen parts.new) (done_with reply.Value result) }
{
    let (slot, handle) = live_in(parts, caller, s)?;
    raise_count_of(parts, slot, handle)
}

/// An `hdown` of the handle in a live slot, which returns the count.
#[inline(always)]
pub fn lower_count_of<P: Parts>(
    parts: &mut P,
    slot: Slot,
    handle: Handle<P::Name>,
) -> Result<u32, Refusal>
    requires live { let p = P.seen parts.old in
        handle_at p.state slot ≡ Some (handle_named p handle) }
    requires may { MayBeStored (P.seen parts.old) slot (handle_of handle) }
    ensures { let p = P.seen parts.old in
        let wanted = lower_count_of p.state slot (handle_named p handle) in
        ComesTo wanted p (P.seen parts.new) (done_with reply.Value result) }
{
    let Extra::Count(count) = handle.extra else {
        return Err(Refusal::WrongKind);
    };
    if count == 0 {
        return Err(Refusal::CountZero);
    }
    Ok(set_count(parts, slot, handle, count - 1))
}

/// `hdown hS`, which returns the count.
pub fn lower_count<P: Parts>(parts: &mut P, caller: u32, s: u8) -> Result<u32, Refusal>
    requires register { MayUse (P.seen parts.old) caller s }
    requires handles { HasHandles (P.seen parts.old).numbers (P.seen parts.old).state }
    ensures { let p = P.seen parts.old in
        let wanted = lower_count p.state caller s in
        ComesTo wanted p (P.seen parts.new) (done_with reply.Value result) }
{
    let (slot, handle) = live_in(parts, caller, s)?;
    lower_count_of(parts, slot, handle)
}

/// The object that a handle pins, or why it pins none.
#[inline(always)]
pub fn pinned_by<P: Parts>(parts: &P, handle: Handle<P::Name>) -> Result<P::Name, Refusal>
    requires { IsNamed (P.seen parts.now) handle.target }
    ensures value { let p = P.seen parts.now in
        as_pinned p result ≡ pinned_of (handle_named p handle) }
    ensures known { IfOk result (λ at. IsSome ((P.seen parts.now).names at)) }
{
    if !handle.pins() {
        return Err(Refusal::WrongKind);
    }
    match handle.target {
        Some(at) => Ok(at),
        None => Err(Refusal::Null),
    }
}

/// The object that the handle in hS pins, or why it pins none.
pub fn pinned_in<P: Parts>(parts: &P, caller: u32, h: u8) -> Result<P::Name, Refusal>
    requires register { MayUse (P.seen parts.now) caller h }
    requires handles { HasHandles (P.seen parts.now).numbers (P.seen parts.now).state }
    ensures value { let p = P.seen parts.now in as_pinned p result ≡ pinned_in p.state caller h }
    ensures known { IfOk result (λ at. IsSome ((P.seen parts.now).names at)) }
{
    let (_, handle) = live_in(parts, caller, h)?;
    pinned_by(parts, handle)
}
