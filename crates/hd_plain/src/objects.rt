// New objects.
ghost use Rattle.std.specs.Prelude.{◌≡◌, replicate, None, IfOk};
ghost use Rattle.hd_model.specs.State.{identity_of, with_register};
ghost use Rattle.hd_model.specs.Command.{reply_with, new_object};
ghost use Rattle.hd_plain.specs.Commands.{ComesTo, MayMake, MayUse};
ghost use Rattle.hd_plain.specs.Inside.{Does};

use crate::machine::Machine;
use hd_commands::{Done, Parts};
use hd_maps::Object;
use hd_model::limits::HEADER;
use hd_model::{Id, Memory, Refusal, Reply, filled};
use std::alloc::Global;

// The identity of a caller's object with a serial.
fn identity(caller: u32, serial: u32) -> Id
    ensures { result ≡ identity_of caller serial }
{
    Id(u64::from(caller) * (1 << 32) + u64::from(serial))
}

// A new object: its fields are null.
fn fresh_object(alloc: Global, fields: u8, fin: bool) -> Result<Object, Memory>
    ensures { IfOk result (λ object. object ≡ record {
      fields = replicate fields None;
      value = 0;
      generation = 0;
      registered = fin;
    }) }
{
    Ok(Object {
        fields: filled(alloc, None, u32::from(fields))?,
        value: 0,
        generation: 0,
        registered: fin,
    })
}

impl Machine {
    /// rD gets `v`, and the command returns a reply.
    pub(crate) fn assign(&mut self, caller: u32, d: u8, v: Option<Id>, reply: Reply) -> Done
        requires { MayUse self.old caller d }
        ensures { let after = with_register self.old.state caller d v in
            Does (reply_with reply after) self.old self.new result }
    {
        self.set_register(caller, d, v);
        Done::of(reply)
    }

    /// `new rD F`.
    pub fn make_object(
        &mut self,
        caller: u32,
        d: u8,
        fields: u8,
        fin: bool,
    ) -> Result<Result<Done, Refusal>, Memory>
        requires { MayMake self.old caller d fields }
        ensures { let wanted = new_object self.old.numbers self.old.state caller d fields fin in
            IfOk result (ComesTo wanted self.old self.new) }
    {
        let size = u32::from(fields) + HEADER;
        let used = self.used();
        if size > self.heap() || used > self.heap() - size {
            return Ok(Err(Refusal::HeapFull { used, size }));
        }
        let serial = self.serial(caller) + 1;
        let id = identity(caller, serial);
        let object = fresh_object(self.alloc, fields, fin)?;
        self.add_object(id, object)?;
        self.set_serial(caller, serial);
        Ok(Ok(self.assign(caller, d, Some(id), Reply::Object(id))))
    }
}
