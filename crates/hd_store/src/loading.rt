// Loads that return the value of what they find too, over the parts of a machine.
ghost use Rattle.std.specs.Prelude.{◌≡◌, IfOk};
ghost use Rattle.hd_model.specs.{Command.get_field, Command.load_reply, State.with_register};
ghost use Rattle.hd_commands.specs.Done.{done_with, ComesTo};
ghost use Rattle.hd_commands.specs.Seen.{named_in, IsNamed, MayUse, MayUseBoth};
ghost use Rattle.hd_store.specs.{Hosted.value_of, Hosted.HasLoaded, declared.hosted.Loaded.Loaded};

use crate::hosted::Loaded;
use hd_commands::Parts;
use hd_commands::on_objects::object_in;
use hd_model::Refusal;

/// What is found, by its identity, with its value.
pub(crate) fn found<P: Parts>(parts: &P, v: Option<P::Name>) -> Loaded
    requires { IsNamed (P.seen parts.now) v }
    ensures { let p = P.seen parts.now in
        (result.id ≡ named_in p v) × (result.value ≡ value_of p.state (named_in p v)) }
{
    match v {
        Some(at) => Loaded {
            id: Some(parts.id(at)),
            value: parts.value(at),
        },
        None => Loaded { id: None, value: 0 },
    }
}

// A load into rD, of an object or null.
fn load<P: Parts>(parts: &mut P, caller: u32, d: u8, v: Option<P::Name>) -> Loaded
    requires register { MayUse (P.seen parts.old) caller d }
    requires named { IsNamed (P.seen parts.old) v }
    ensures is { result.id ≡ named_in (P.seen parts.old) v }
    ensures after { let p = P.seen parts.old in
        let state = with_register p.state caller d (named_in p v) in
        P.seen parts.new ≡ record p { state = state } }
    ensures loaded { HasLoaded (P.seen parts.old) (P.seen parts.new) caller d result }
{
    let loaded = found(parts, v);
    parts.set_register(caller, d, v);
    loaded
}

/// `get rD rO i`, with the value of what is loaded.
pub(crate) fn load_field<P: Parts>(
    parts: &mut P,
    caller: u32,
    d: u8,
    o: u8,
    i: u8,
) -> Result<Loaded, Refusal>
    requires { MayUseBoth (P.seen parts.old) caller d o }
    ensures came { let p = P.seen parts.old in
        let wanted = get_field p.state caller d o i in
        ComesTo wanted p (P.seen parts.new) (done_with (λ (l : Loaded). load_reply l.id) result) }
    ensures loaded { IfOk result
        (λ l. HasLoaded (P.seen parts.old) (P.seen parts.new) caller d l) }
{
    let at = object_in(parts, caller, o)?;
    if i as usize >= parts.fields(at) {
        return Err(Refusal::BadField);
    }
    let target = parts.field(at, i);
    Ok(load(parts, caller, d, target))
}
