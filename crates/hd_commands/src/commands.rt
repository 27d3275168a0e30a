// One command of a caller.
ghost use Rattle.std.specs.Prelude.{◌≡◌, true};
ghost use Rattle.hd_model.specs.{Class.class_of, Step.way_of};
ghost use Rattle.hd_commands.specs.Decided.{needs_parts_alone, DecidedBy, MayDo};

use crate::done::{
    CommandResult, Done, aging, counting, freeing, loading, plainly, queued_reply, reading,
};
use crate::parts::Parts;
use crate::{on_handles, on_objects};
use hd_model::Cmd;

/// Does a command that needs the parts of a machine alone, and returns what it comes to.
pub fn carry_out<P: Parts>(parts: &mut P, caller: u32, cmd: Cmd) -> CommandResult
    requires alone { needs_parts_alone (class_of cmd) ≡ true }
    requires may { MayDo (P.seen parts.old) caller cmd }
    ensures decided { let p = P.seen parts.old in
        DecidedBy (way_of p.state caller cmd) p caller cmd (P.seen parts.new) result }
    // What was required, for the proof of the call.
    ensures alone { needs_parts_alone (class_of cmd) ≡ true }
{
    match cmd {
        Cmd::Set { o, i, v } => plainly(on_objects::set_field(parts, caller, o, i, v)),
        Cmd::Get { d, o, i } => loading(on_objects::get_field(parts, caller, d, o, i)),
        Cmd::Val { o, n } => plainly(on_objects::set_value(parts, caller, o, n)),
        Cmd::Read { o } => reading(on_objects::read_value(parts, caller, o)),
        Cmd::Copy { d, s } => plainly(Ok(on_objects::copy_register(parts, caller, d, s))),
        Cmd::Clear { d } => plainly(Ok(on_objects::clear_register(parts, caller, d))),
        Cmd::SPut { k, s } => plainly(Ok(on_objects::put_static(parts, caller, k, s))),
        Cmd::SGet { d, k } => loading(Ok(on_objects::get_static(parts, caller, d, k))),
        Cmd::Gen { s } => aging(on_objects::read_generation(parts, caller, s)),
        Cmd::Suppress { s } => plainly(on_objects::set_registered(parts, caller, s, false)),
        Cmd::Reregister { s } => plainly(on_objects::set_registered(parts, caller, s, true)),
        Cmd::Final { d } => Ok(Done::of(queued_reply(on_objects::take_queued(parts, caller, d)))),
        Cmd::HGet { d, s } => loading(on_handles::get_target(parts, caller, d, s)),
        Cmd::HSet { s, t } => plainly(on_handles::set_target(parts, caller, s, t)),
        Cmd::HSec { h, s } => plainly(on_handles::set_secondary(parts, caller, h, s)),
        Cmd::HDep { d, s } => loading(on_handles::get_secondary(parts, caller, d, s)),
        Cmd::HVar { s, strength } => plainly(on_handles::set_strength(parts, caller, s, strength)),
        Cmd::HFree { s } => freeing(on_handles::free_handle(parts, caller, s)),
        Cmd::HPut { k, s } => plainly(Ok(on_handles::put_board(parts, caller, k, s))),
        Cmd::HPick { d, k } => plainly(Ok(on_handles::pick_board(parts, caller, d, k))),
        Cmd::HUp { s } => counting(on_handles::raise_count(parts, caller, s)),
        Cmd::HDown { s } => counting(on_handles::lower_count(parts, caller, s)),
        // These need more: memory, a slot, a block, an address or the weak table.
        Cmd::New { .. }
        | Cmd::Collect { .. }
        | Cmd::HNew { .. }
        | Cmd::AddrOf { .. }
        | Cmd::Trim { .. }
        | Cmd::CAdd { .. }
        | Cmd::CFind { .. }
        | Cmd::CRemove { .. }
        | Cmd::GcRoot { .. } => unreachable!(),
    }
}
