// Collections, the finalization queue, blocks that are given back, and why an object lives.
ghost use Rattle.std.specs.Prelude.{◌≡◌, ◌<◌, ◌≤◌, false, None};
ghost use Rattle.hd_model.specs.{Kinds.is_paired};
ghost use Rattle.hd_model.specs.declared.command.Cmd.TheVariants as cmd;
ghost use Rattle.hd_model.specs.declared.data.Reply.TheVariants as reply;
ghost use Rattle.hd_host.specs.Calls.{HasReplied, Trims, Tries};
ghost use Rattle.hd_commands.specs.Done.{queued_reply};
ghost use Rattle.hd_store.specs.Replies.{given_back, root_reply};

use crate::fault::Fault;
use crate::host::Host;
use crate::last::settle;
use hd_model::limits::{OLDEST, REGISTERS};
use hd_model::{Grown, Id, Kind, Memory, Report};
use hd_slots::{Change as Slots, note_slot, offer};
use hd_store::Root;

impl Host {
    /// Collects generation `n` and all younger ones. Nothing else collects.
    pub fn collect(&mut self, n: u8) -> Result<Report, Fault>
        requires { n ≤ OLDEST }
        ensures does { Tries self.old 0 (cmd.Collect n) reply.Report self.new result }
        ensures contexts { self.new.machine.numbers.callers ≡ self.old.machine.numbers.callers }
    {
        // Read for the proof alone: there is a context 0.
        let _contexts = self.contexts();
        match self.store.collect(0, n) {
            Ok(report) => {
                self.last.clear();
                Ok(report)
            }
            Err(Memory) => Err(Fault::Memory),
        }
    }

    /// Local `dst` gets the first object of the finalization queue, which leaves it, or becomes
    /// null where the queue is empty.
    pub fn final_next(&mut self, context: u32, dst: u8) -> Option<Id>
        requires context { context < self.old.machine.numbers.callers }
        requires local { dst < REGISTERS }
        ensures does { HasReplied self.old context None (cmd.Final dst) (queued_reply result)
            self.new }
        ensures contexts { self.new.machine.numbers.callers ≡ self.old.machine.numbers.callers }
    {
        let taken = self.store.take_queued(context, dst);
        self.last.clear();
        taken
    }

    /// Gives back the least block of the kind all of whose slots are free, and returns the number
    /// of blocks that were given back.
    pub fn trim(&mut self, kind: Kind) -> u32
        requires { is_paired kind ≡ false }
        ensures does { Trims self.old kind result self.new }
        ensures contexts { self.new.machine.numbers.callers ≡ self.old.machine.numbers.callers }
    {
        // Read for the proof alone: there is a context 0, and no register has a slot.
        let _contexts = self.contexts();
        let _last = &self.last;
        let change = Slots::GivesBack(kind);
        let offered = offer(&mut self.pool, change);
        let grown = self.store.trim(0, kind, offered);
        note_slot(&mut self.pool, change, None, grown);
        self.last.set(None, grown);
        given_back(grown)
    }

    /// Where a shortest chain to the object begins, or nothing where no chain leads to it. That the
    /// local is null is reported before memory is taken.
    pub fn root_of(&mut self, context: u32, object: u8) -> Result<Option<Root>, Fault>
        requires context { context < self.old.machine.numbers.callers }
        requires local { object < REGISTERS }
        ensures does { Tries self.old context (cmd.GcRoot object) root_reply self.new result }
        ensures contexts { self.new.machine.numbers.callers ≡ self.old.machine.numbers.callers }
    {
        let Some(_goal) = self.local_id(context, object) else {
            return Err(Fault::Null);
        };
        match self.store.root_of(context, object) {
            Ok(came) => settle(&mut self.last, came),
            Err(Memory) => Err(Fault::Memory),
        }
    }
}

// The number of blocks that were given back.
fn given_back(grown: Grown) -> u32
    ensures { result ≡ given_back grown }
{
    match grown {
        Grown::Back(_) => 1,
        Grown::Zero | Grown::One(_) | Grown::Two(..) => 0,
    }
}
