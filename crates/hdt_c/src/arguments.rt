// What C passes, as a host takes it, and what a host returns, as C gets it.
ghost use Rattle.std.specs.Prelude.{◌≡◌, ◌<◌, ◌≤◌, MatchOption, IfSome};
ghost use Rattle.std.specs.Bool.{OnFalse, OnTrue};
ghost use Rattle.hd_model.specs.declared.data.Make.{Make};
ghost use Rattle.hd_model.specs.Kinds.{kind_number};
ghost use Rattle.hd_model.specs.Valid.{IsValidMake};
ghost use Rattle.hdt_c.specs.Exports.{HasLocal, HasLocals, IsNewHandle, IsObject, IsStrength, IsKind};
ghost use Rattle.hdt_c.specs.Wide.{AreKinds, AreLocals, HasAll, HasBoth, HasContext, HasRange, IsFilled};
ghost use Rattle.hdt_c.specs.Arguments.{IsMake, block_number, change_out, extra_number, field_number, number_of, strength_number};

use crate::parts::Change;
use hd_host::ExtraInfo;
use hd_model::limits::{FIELDS, OLDEST, REGISTERS};
use hd_model::{Id, Kind, Make, Strength};

/// The flag of an object that is registered for finalization.
pub(crate) const FINALIZABLE: u32 = 1;

// The kinds without extra data have the numbers below this one.
const PLAIN: u32 = 4;

// The number of a register of a secondary.
#[inline(always)]
fn local(number: u32) -> Option<u8>
    ensures { MatchOption result (REGISTERS ≤ number) (λ d. (d ≡ number) × (d < REGISTERS)) }
{
    if number < REGISTERS {
        Some(number as u8)
    } else {
        None
    }
}

/// Whether a context of so many has a local.
#[inline(always)]
pub(crate) fn has_local(contexts: u32, c: u32, number: u32) -> bool
    ensures yes { OnTrue result (HasLocal c number contexts) }
    ensures no { OnFalse result (HasLocal c number contexts → ⊥) }
{
    c < contexts && number < REGISTERS
}

/// Whether it has two, or a local and there is a static.
#[inline(always)]
pub(crate) fn has_locals(contexts: u32, c: u32, one: u32, other: u32) -> bool
    ensures yes { OnTrue result (HasLocals c one other contexts) }
    ensures no { OnFalse result (HasLocals c one other contexts → ⊥) }
{
    has_local(contexts, c, one) && other < REGISTERS
}

/// Whether an object may be made: a context has the local, and the numbers are in range.
#[inline(always)]
pub(crate) fn is_object(contexts: u32, c: u32, dst: u32, fields: u32, flags: u32) -> bool
    ensures yes { OnTrue result (IsObject c dst fields flags contexts) }
    ensures no { OnFalse result (IsObject c dst fields flags contexts → ⊥) }
{
    has_local(contexts, c, dst) && fields <= FIELDS && flags <= FINALIZABLE
}

/// The mask of all kinds.
pub(crate) const ALL_KINDS: u32 = 127;

/// Whether a mask is one of kinds, and whether a number says yes or no.
pub(crate) fn are_kinds(kinds: u32, cleared: u32) -> bool
    ensures yes { OnTrue result (AreKinds kinds cleared) }
    ensures no { OnFalse result (AreKinds kinds cleared → ⊥) }
{
    1 <= kinds && kinds <= ALL_KINDS && cleared <= 1
}

/// Whether there is a context, and room for all its locals.
pub(crate) fn has_all(contexts: u32, c: u32, room: usize) -> bool
    ensures yes { OnTrue result (HasAll c room contexts) }
    ensures no { OnFalse result (HasAll c room contexts → ⊥) }
{
    c < contexts && room == REGISTERS as usize
}

/// Whether there is a context.
pub(crate) fn has_context(contexts: u32, c: u32) -> bool
    ensures yes { OnTrue result (HasContext c contexts) }
    ensures no { OnFalse result (HasContext c contexts → ⊥) }
{
    c < contexts
}

/// Whether each of two contexts has a local.
#[inline(always)]
pub(crate) fn has_both(contexts: u32, to: u32, from: u32, dst: u32, src: u32) -> bool
    ensures yes { OnTrue result (HasBoth to from dst src contexts) }
    ensures no { OnFalse result (HasBoth to from dst src contexts → ⊥) }
{
    has_local(contexts, to, dst) && has_local(contexts, from, src)
}

/// Whether a context has so many locals from one on.
#[inline(always)]
pub(crate) fn has_range(contexts: u32, c: u32, first: u32, n: u32) -> bool
    ensures yes { OnTrue result (HasRange c first n contexts) }
    ensures no { OnFalse result (HasRange c first n contexts → ⊥) }
{
    c < contexts && first <= REGISTERS && n <= REGISTERS - first
}

// Whether each is the number of a local.
fn are_locals(src: &[u32]) -> bool
    ensures yes { OnTrue result (AreLocals src.now) }
    ensures no { OnFalse result (AreLocals src.now → ⊥) }
{
    for i in 0..src.len() {
        if src[i] >= REGISTERS {
            return false;
        }
    }
    true
}

/// Whether an object may be made with its fields: each of them is a local too.
pub(crate) fn is_filled(contexts: u32, c: u32, dst: u32, flags: u32, src: &[u32]) -> bool
    ensures yes { OnTrue result (IsFilled c dst flags src.now contexts) }
    ensures no { OnFalse result (IsFilled c dst flags src.now contexts → ⊥) }
{
    has_local(contexts, c, dst)
        && flags <= FINALIZABLE
        && src.len() <= FIELDS as usize
        && are_locals(src)
}

/// Whether a handle may be made: a context has the local, and the kind takes the extra.
#[inline(always)]
pub(crate) fn is_new_handle(contexts: u32, c: u32, kind: u32, target: u32, extra: u32) -> bool
    ensures yes { OnTrue result (IsNewHandle c kind target extra contexts) }
    ensures no { OnFalse result (IsNewHandle c kind target extra contexts → ⊥) }
{
    has_local(contexts, c, target) && make(kind, extra).is_some()
}

/// The number of a field. No object has one of a number above 255, so each of these serves for all.
pub(crate) fn field(number: u32) -> u8
    ensures { result ≡ field_number number }
{
    if number < 256 { number as u8 } else { 255 }
}

/// Whether there is such a generation.
pub(crate) fn is_generation(number: u32) -> bool
    ensures yes { OnTrue result (number ≤ 2) }
    ensures no { OnFalse result (number ≤ 2 → ⊥) }
{
    number <= u32::from(OLDEST)
}

/// A kind.
#[inline(always)]
pub(crate) fn kind_of(number: u32) -> Option<Kind>
    ensures { MatchOption result (6 < number) (λ k. kind_number k ≡ number) }
{
    match number {
        0 => Some(Kind::Short),
        1 => Some(Kind::Long),
        2 => Some(Kind::Strong),
        3 => Some(Kind::Pinned),
        4 => Some(Kind::Variable),
        5 => Some(Kind::Counted),
        6 => Some(Kind::Dependent),
        _ => None,
    }
}

/// The number of a kind.
pub(crate) fn number_of_kind(kind: Kind) -> u32
    ensures { result ≡ kind_number kind }
{
    kind.number()
}

/// Whether it is the number of a kind.
pub(crate) fn is_kind(number: u32) -> bool
    ensures yes { OnTrue result (IsKind number) }
    ensures no { OnFalse result (IsKind number → ⊥) }
{
    kind_of(number).is_some()
}

/// A strength.
#[inline(always)]
pub(crate) fn strength_of(number: u32) -> Option<Strength>
    ensures { MatchOption result (3 < number) (λ s. strength_number s ≡ number) }
{
    match number {
        0 => Some(Strength::Short),
        1 => Some(Strength::Long),
        2 => Some(Strength::Strong),
        3 => Some(Strength::Pinned),
        _ => None,
    }
}

/// Whether it is the number of a strength.
pub(crate) fn is_strength(number: u32) -> bool
    ensures yes { OnTrue result (IsStrength number) }
    ensures no { OnFalse result (IsStrength number → ⊥) }
{
    strength_of(number).is_some()
}

// The number of a strength.
fn number_of_strength(strength: Strength) -> u32
    ensures { result ≡ strength_number strength }
{
    match strength {
        Strength::Short => 0,
        Strength::Long => 1,
        Strength::Strong => 2,
        Strength::Pinned => 3,
    }
}

/// What is made of a kind with an extra.
#[inline(always)]
pub(crate) fn make(number: u32, extra: u32) -> Option<Make>
    ensures made { MatchOption result ((made : Make) → IsMake made number extra → ⊥)
        (λ made. IsMake made number extra) }
    ensures valid { IfSome result IsValidMake }
{
    // First what is made most, without a table of jumps.
    if extra == 0 && number < PLAIN {
        return Some(plain(number));
    }
    match kind_of(number)? {
        Kind::Variable => Some(Make::Variable(strength_of(extra)?)),
        Kind::Dependent => Some(Make::Dependent(local(extra)?)),
        Kind::Short => without_extra(Make::Short, extra),
        Kind::Long => without_extra(Make::Long, extra),
        Kind::Strong => without_extra(Make::Strong, extra),
        Kind::Pinned => without_extra(Make::Pinned, extra),
        Kind::Counted => without_extra(Make::Counted, extra),
    }
}

// What is made of the number of a kind without extra data.
#[inline(always)]
fn plain(number: u32) -> Make
    requires { number < PLAIN }
    ensures made { IsMake result number 0 }
    ensures valid { IsValidMake result }
{
    match number {
        0 => Make::Short,
        1 => Make::Long,
        2 => Make::Strong,
        _ => Make::Pinned,
    }
}

// What is made where the extra is 0.
#[inline(always)]
fn without_extra(make: Make, extra: u32) -> Option<Make>
    ensures { MatchOption result (extra ≡ 0 → ⊥) (λ made. (made ≡ make) × (extra ≡ 0)) }
{
    if extra == 0 { Some(make) } else { None }
}

/// An identity as C gets it, 0 for null.
pub(crate) fn number_of(id: Option<Id>) -> u64
    ensures { result ≡ number_of id }
{
    match id {
        Some(id) => id.0,
        None => 0,
    }
}

/// An extra as C gets it: a strength, or a count.
pub(crate) fn number_of_extra(extra: ExtraInfo<Id>) -> u32
    ensures { result ≡ extra_number extra }
{
    match extra {
        ExtraInfo::Strength(strength) => number_of_strength(strength),
        ExtraInfo::Count(count) => count,
        ExtraInfo::Nothing | ExtraInfo::Secondary(_) => 0,
    }
}

/// A change as C gets it, 0 for nothing, with the number of a turn.
pub(crate) fn change(change: hd_host::Change, turn: u64) -> Change
    ensures { result ≡ change_out turn change }
{
    Change {
        slot: match change.slot {
            Some(slot) => slot.0,
            None => 0,
        },
        block: block_number(change.block),
        data_block: match change.data_block {
            Some(block) => block,
            None => block_number(change.data_given_back),
        },
        given_back: block_number(change.given_back),
        turn,
    }
}

// The number of a block, 0 for none.
fn block_number(block: Option<u32>) -> u32
    ensures { result ≡ block_number block }
{
    match block {
        Some(block) => block,
        None => 0,
    }
}
