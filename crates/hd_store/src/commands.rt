// One command of a caller, as a step of the machine.
ghost use Rattle.std.specs.Prelude.{◌≡◌, MatchResult};
ghost use Rattle.hd_commands.specs.Done.{done_of, entry_by};
ghost use Rattle.hd_store.specs.Inside.{MayRun, HasRun};
ghost use Rattle.hd_store.specs.{PinnedAddresses.KeepsPinned, Visited.TakesStepsIn, Offers.RanOutOf};

use crate::contents::Contents;
use crate::replies::{finding, removing, rooting, trimming};
use crate::{collection, making as makes, on_entries, pinned_addresses, rooting as roots};
use hd_commands::{CommandResult, Done, addressing, made, making};
use hd_model::{Cmd, Memory, Reply, Slot, Steps};
use std::sync::ledger::Ledger;

/// Does a command of a caller, and returns what it comes to. From any pinned addresses that are
/// those of their objects, its entry is a step of the machine to others that are. An offered slot or
/// block is taken. Without one a new handle makes the table grow, or finds it full.
#[inline(always)]
pub(crate) fn carry_out<L: Ledger>(
    store: &mut Contents,
    caller: u32,
    cmd: Cmd,
    offer: Option<Slot>,
    steps: &mut Steps<L>,
) -> Result<CommandResult, Memory>
    requires { MayRun store.old caller cmd offer }
    ensures { let m = store.old in let k = store.new in
        MatchResult result (λ came. let e = entry_by caller cmd (done_of came) in
        HasRun m caller cmd offer e (KeepsPinned m e k)
        × TakesStepsIn m.numbers m.state m.ages e steps.old steps.new)
        (λ _. RanOutOf m.numbers m.state caller cmd offer m k × (steps.new ≡ steps.old)) }
{
    match cmd {
        Cmd::New { d, fields, fin } => Ok(made(makes::new_object(store, caller, d, fields, fin)?)),
        Cmd::HNew { d, make, t } => Ok(making(makes::new_handle(store, caller, d, make, t, offer))),
        Cmd::AddrOf { s } => Ok(addressing(pinned_addresses::reply_address(store, caller, s))),
        Cmd::Collect { n } => {
            let report = collection::collect_up_to(store, caller, n, steps)?;
            Ok(Ok(Done::of(Reply::Report(report))))
        }
        Cmd::Trim { kind } => Ok(Ok(trimming(makes::trim(store, caller, kind, offer)))),
        Cmd::CAdd { k, v } => {
            Ok(making(on_entries::add_entry(store, caller, k, v, offer, steps)?))
        }
        Cmd::CFind { d, k } => Ok(finding(on_entries::find_entry(store, caller, d, k, steps))),
        Cmd::CRemove { k } => Ok(removing(on_entries::remove_entry(store, caller, k, steps))),
        Cmd::GcRoot { s } => Ok(rooting(roots::return_root(store, caller, s)?)),
        // All others need the parts of a machine alone.
        Cmd::Set { .. }
        | Cmd::Get { .. }
        | Cmd::Val { .. }
        | Cmd::Read { .. }
        | Cmd::Copy { .. }
        | Cmd::Clear { .. }
        | Cmd::SPut { .. }
        | Cmd::SGet { .. }
        | Cmd::Gen { .. }
        | Cmd::Suppress { .. }
        | Cmd::Reregister { .. }
        | Cmd::Final { .. }
        | Cmd::HGet { .. }
        | Cmd::HSet { .. }
        | Cmd::HSec { .. }
        | Cmd::HDep { .. }
        | Cmd::HVar { .. }
        | Cmd::HFree { .. }
        | Cmd::HPut { .. }
        | Cmd::HPick { .. }
        | Cmd::HUp { .. }
        | Cmd::HDown { .. } => Ok(hd_commands::carry_out(store, caller, cmd)),
    }
}
