// One step of the machine by the choice that a line states.
ghost use Rattle.std.specs.Prelude.{◌≡◌, true, Some, IfOk};
ghost use Rattle.hd_model.specs.{Class.class_of, Step.way_of};
ghost use Rattle.hd_commands.specs.Decided.{needs_parts_alone};
ghost use Rattle.hd_plain.specs.declared.choice.Choice.{Choice};
ghost use Rattle.hd_plain.specs.OneEntry.{has_one_step, HasOne};
ghost use Rattle.hd_plain.specs.Commands.{MayStep};
ghost use Rattle.hd_plain.specs.ChosenSteps.{StepsBy, WayComesTo};

use crate::choice::Choice;
use crate::machine::Machine;
use crate::{entries, making};
use hd_commands::{Done, carry_out, entry_of};
use hd_model::{Cmd, Entry, Memory, Refusal, Reply};

impl Machine {
    /// Takes the step of a caller's command with the choice that a line states, and returns its
    /// entry; none where no step of the command has that choice.
    pub fn step(&mut self, cmd: Cmd, choice: &Choice) -> Result<Option<Entry>, Memory>
        requires { MayStep self.old choice.now.caller cmd }
        ensures { IfOk result (StepsBy self.old cmd choice.now self.new) }
    {
        match make(self, choice.caller, cmd, choice)? {
            Some(made) => Ok(Some(entry_of(choice.caller, cmd, made))),
            None => Ok(None),
        }
    }

    /// Takes the step of a caller's command that has one entry, and returns it.
    pub fn settle(&mut self, caller: u32, cmd: Cmd) -> Result<Entry, Memory>
        requires may { MayStep self.old caller cmd }
        requires one { has_one_step cmd ≡ true }
        ensures { IfOk result (HasOne self.old.numbers self.old.state caller cmd) }
    {
        Ok(entry_of(caller, cmd, settled(self, caller, cmd)?))
    }
}

// Whether a command has one entry, which is found by making the step.
fn has_one_step(cmd: Cmd) -> bool
    ensures { result ≡ has_one_step cmd }
{
    !matches!(
        cmd,
        Cmd::HNew { .. } | Cmd::AddrOf { .. } | Cmd::Trim { .. } | Cmd::CAdd { .. }
    )
}

// What a command that has one entry comes to, whatever a line states.
fn settled(machine: &mut Machine, caller: u32, cmd: Cmd) -> Result<Result<Done, Refusal>, Memory>
    requires may { MayStep machine.old caller cmd }
    requires one { has_one_step cmd ≡ true }
    ensures { let way = way_of machine.old.state caller cmd in
        IfOk result (λ made. (choice : Choice)
        → WayComesTo caller way choice machine.old machine.new (Some made)) }
{
    if needs_parts_alone(cmd) {
        return Ok(decide(machine, caller, cmd));
    }
    match cmd {
        Cmd::Collect { n } => {
            let report = machine.collect(n)?;
            Ok(Ok(Done::of(Reply::Report(report))))
        }
        Cmd::GcRoot { s } => Ok(machine.reply_root(caller, s)?),
        Cmd::New { d, fields, fin } => Ok(machine.make_object(caller, d, fields, fin)?),
        Cmd::CFind { d, k } => Ok(machine.find_entry(caller, d, k)),
        Cmd::CRemove { k } => Ok(machine.remove_entry(caller, k)?),
        _ => unreachable!(),
    }
}

// Whether a command needs the machine's parts alone.
fn needs_parts_alone(cmd: Cmd) -> bool
    ensures { result ≡ needs_parts_alone (class_of cmd) }
{
    !matches!(
        cmd,
        Cmd::New { .. }
            | Cmd::Collect { .. }
            | Cmd::HNew { .. }
            | Cmd::AddrOf { .. }
            | Cmd::Trim { .. }
            | Cmd::CAdd { .. }
            | Cmd::CFind { .. }
            | Cmd::CRemove { .. }
            | Cmd::GcRoot { .. }
    )
}

// What a command of a caller comes to, with the choice that a line states.
fn make(
    machine: &mut Machine,
    caller: u32,
    cmd: Cmd,
    choice: &Choice,
) -> Result<Option<Result<Done, Refusal>>, Memory>
    requires { MayStep machine.old caller cmd }
    ensures { let way = way_of machine.old.state caller cmd in
        IfOk result (WayComesTo caller way choice.now machine.old machine.new) }
{
    if has_one_step(cmd) {
        return Ok(Some(settled(machine, caller, cmd)?));
    }
    match cmd {
        Cmd::HNew { d, make, t } => making::make_handle(machine, caller, d, make, t, choice),
        Cmd::CAdd { k, v } => entries::add_entry(machine, caller, k, v, choice),
        Cmd::Trim { kind } => Ok(making::trim(machine, kind, choice)),
        Cmd::AddrOf { s } => making::reply_address(machine, caller, s, choice),
        _ => unreachable!(),
    }
}

// The same of a command that needs the machine's parts alone.
fn decide(machine: &mut Machine, caller: u32, cmd: Cmd) -> Result<Done, Refusal>
    requires may { MayStep machine.old caller cmd }
    requires alone { needs_parts_alone (class_of cmd) ≡ true }
    ensures { let way = way_of machine.old.state caller cmd in
        (choice : Choice) → WayComesTo caller way choice machine.old machine.new (Some result) }
{
    carry_out(machine, caller, cmd)
}
