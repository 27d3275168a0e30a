// The commands on objects, registers and statics.
ghost use Rattle.std.specs.Prelude.{◌≡◌, ◌<◌, Ok, Some, None, IsSome, IfOk, MatchResult};
ghost use Rattle.hd_model.specs.declared.data.Refusal.TheVariants as refusal;
ghost use Rattle.hd_model.specs.State.{register_of, with_register};
ghost use Rattle.hd_model.specs.declared.data.Reply.TheVariants as reply;
ghost use Rattle.hd_model.specs.Command.{load_reply, set_field, get_field, set_value, read_value, copy_register, clear_register, put_static, get_static, read_generation, set_registered, take_queued};
ghost use Rattle.hd_commands.specs.Seen.{name_in, named_in, HasObject, IsNamed, MayUse, MayUseBoth};
ghost use Rattle.hd_commands.specs.Done.{done_with, queued_reply, replied, ComesTo};

use crate::parts::Parts;
use hd_model::{Id, Refusal};

// The identity of an object, or null.
fn id_in<P: Parts>(parts: &P, v: Option<P::Name>) -> Option<Id>
    requires { IsNamed (P.seen parts.now) v }
    ensures { result ≡ named_in (P.seen parts.now) v }
{
    match v {
        Some(at) => Some(parts.id(at)),
        None => None,
    }
}

/// A load into rD, of an object or null.
pub fn load<P: Parts>(parts: &mut P, caller: u32, d: u8, v: Option<P::Name>) -> Option<Id>
    requires register { MayUse (P.seen parts.old) caller d }
    requires named { IsNamed (P.seen parts.old) v }
    ensures { let p = P.seen parts.old in
        let id = named_in p v in
        (result ≡ id) × (P.seen parts.new ≡ record p { state = with_register p.state caller d id }) }
{
    let id = id_in(parts, v);
    parts.set_register(caller, d, v);
    id
}

/// The object in an object register, which is refused where it is null.
pub fn object_in<P: Parts>(parts: &P, caller: u32, o: u8) -> Result<P::Name, Refusal>
    requires { MayUse (P.seen parts.now) caller o }
    ensures value { let p = P.seen parts.now in
        MatchResult result (λ at. register_of p.state caller o ≡ Some (name_in p at))
        (λ why. (register_of p.state caller o ≡ None) × (why ≡ refusal.Null)) }
    ensures known { IfOk result (λ at. IsSome ((P.seen parts.now).names at)) }
{
    match parts.register(caller, o) {
        Some(at) => Ok(at),
        None => Err(Refusal::Null),
    }
}

/// `set rO i rV`.
pub fn set_field<P: Parts>(parts: &mut P, caller: u32, o: u8, i: u8, v: u8) -> Result<(), Refusal>
    requires registers { MayUseBoth (P.seen parts.old) caller o v }
    requires object { HasObject (P.seen parts.old) caller o }
    ensures { let p = P.seen parts.old in
        let wanted = set_field p.state caller o i v in
        ComesTo wanted p (P.seen parts.new) (done_with (λ _. reply.Done) result) }
{
    let at = object_in(parts, caller, o)?;
    if i as usize >= parts.fields(at) {
        return Err(Refusal::BadField);
    }
    let target = parts.register(caller, v);
    parts.set_field(at, i, target);
    Ok(())
}

/// `get rD rO i`.
pub fn get_field<P: Parts>(
    parts: &mut P,
    caller: u32,
    d: u8,
    o: u8,
    i: u8,
) -> Result<Option<Id>, Refusal>
    requires { MayUseBoth (P.seen parts.old) caller d o }
    ensures { let p = P.seen parts.old in
        ComesTo (get_field p.state caller d o i) p (P.seen parts.new) (done_with load_reply result) }
{
    let at = object_in(parts, caller, o)?;
    if i as usize >= parts.fields(at) {
        return Err(Refusal::BadField);
    }
    let target = parts.field(at, i);
    Ok(load(parts, caller, d, target))
}

/// `val rO n`.
pub fn set_value<P: Parts>(parts: &mut P, caller: u32, o: u8, value: u64) -> Result<(), Refusal>
    requires register { MayUse (P.seen parts.old) caller o }
    requires object { HasObject (P.seen parts.old) caller o }
    ensures { let p = P.seen parts.old in
        let wanted = set_value p.state caller o value in
        ComesTo wanted p (P.seen parts.new) (done_with (λ _. reply.Done) result) }
{
    let at = object_in(parts, caller, o)?;
    parts.set_value(at, value);
    Ok(())
}

/// `read rO`.
pub fn read_value<P: Parts>(parts: &P, caller: u32, o: u8) -> Result<u64, Refusal>
    requires { MayUse (P.seen parts.now) caller o }
    ensures { let p = P.seen parts.now in
        ComesTo (read_value p.state caller o) p p (done_with reply.Value result) }
{
    let at = object_in(parts, caller, o)?;
    Ok(parts.value(at))
}

/// `gen rS`.
pub fn read_generation<P: Parts>(parts: &P, caller: u32, o: u8) -> Result<u8, Refusal>
    requires { MayUse (P.seen parts.now) caller o }
    ensures { let p = P.seen parts.now in
        ComesTo (read_generation p.state caller o) p p (done_with reply.Generation result) }
{
    let at = object_in(parts, caller, o)?;
    Ok(parts.generation(at))
}

/// `suppress rS` and `reregister rS`.
pub fn set_registered<P: Parts>(parts: &mut P, caller: u32, o: u8, on: bool) -> Result<(), Refusal>
    requires register { MayUse (P.seen parts.old) caller o }
    requires object { HasObject (P.seen parts.old) caller o }
    ensures { let p = P.seen parts.old in
        let wanted = set_registered p.state caller o on in
        ComesTo wanted p (P.seen parts.new) (done_with (λ _. reply.Done) result) }
{
    let at = object_in(parts, caller, o)?;
    parts.set_registered(at, on);
    Ok(())
}

/// `copy rD rS`.
pub fn copy_register<P: Parts>(parts: &mut P, caller: u32, d: u8, s: u8)
    requires { MayUseBoth (P.seen parts.old) caller d s }
    ensures { let p = P.seen parts.old in
        ComesTo (copy_register p.state caller d s) p (P.seen parts.new) (Ok (replied reply.Done)) }
{
    let source = parts.register(caller, s);
    parts.set_register(caller, d, source);
}

/// `drop rD`.
pub fn clear_register<P: Parts>(parts: &mut P, caller: u32, d: u8)
    requires { MayUse (P.seen parts.old) caller d }
    ensures { let p = P.seen parts.old in
        ComesTo (clear_register p.state caller d) p (P.seen parts.new) (Ok (replied reply.Done)) }
{
    parts.set_register(caller, d, None);
}

/// `sput k rS`.
pub fn put_static<P: Parts>(parts: &mut P, caller: u32, k: u8, s: u8)
    requires { MayUseBoth (P.seen parts.old) caller k s }
    ensures { let p = P.seen parts.old in
        ComesTo (put_static p.state caller k s) p (P.seen parts.new) (Ok (replied reply.Done)) }
{
    let target = parts.register(caller, s);
    parts.set_static(k, target);
}

/// `sget rD k`.
pub fn get_static<P: Parts>(parts: &mut P, caller: u32, d: u8, k: u8) -> Option<Id>
    requires { MayUseBoth (P.seen parts.old) caller d k }
    ensures { let p = P.seen parts.old in
        let wanted = get_static p.state caller d k in
        ComesTo wanted p (P.seen parts.new) (Ok (replied (load_reply result))) }
{
    let target = parts.static_at(k);
    load(parts, caller, d, target)
}

/// `final rD`.
pub fn take_queued<P: Parts>(parts: &mut P, caller: u32, d: u8) -> Option<Id>
    requires { MayUse (P.seen parts.old) caller d }
    ensures { let p = P.seen parts.old in
        let wanted = take_queued p.state caller d in
        ComesTo wanted p (P.seen parts.new) (Ok (replied (queued_reply result))) }
{
    match parts.next_queued() {
        Some(at) => load(parts, caller, d, Some(at)),
        None => {
            parts.set_register(caller, d, None);
            None
        }
    }
}
