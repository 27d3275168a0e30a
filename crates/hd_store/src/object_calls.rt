// The commands on objects, locals, statics and the queue, each as a call by value.
// What reads the number of objects before and after does so for the proof alone: the state is then
// one over the heap.
ghost use Rattle.std.specs.Prelude.{◌≡◌, ◌+◌, ◌<◌, ◌≤◌, ◌^◌, Ok, MatchResult};
ghost use Rattle.hd_model.specs.declared.command.Cmd.TheVariants as cmd;
ghost use Rattle.hd_model.specs.declared.data.Reply.TheVariants as reply;
ghost use Rattle.hd_model.specs.{Command.load_reply, State.last_serial};
ghost use Rattle.hd_commands.specs.Done.{queued_reply};
ghost use Rattle.hd_store.specs.{Calls.HasReturned, Offers.RanOut};

use crate::making;
use crate::store::Store;
use hd_commands::on_objects;
use hd_model::limits::{FIELDS, REGISTERS};
use hd_model::{Id, Memory, Refusal};

impl Store {
    /// `new rD F`: makes an object, which rD references. A full heap is reported before memory is
    /// taken, and out of memory changes nothing.
    #[inline(always)]
    pub fn new_object(
        &mut self,
        caller: u32,
        d: u8,
        fields: u8,
        fin: bool,
    ) -> Result<Result<Id, Refusal>, Memory>
        requires caller { caller < self.old.numbers.callers }
        requires register { d < REGISTERS }
        requires fields { fields ≤ FIELDS }
        requires serial { last_serial self.old.state caller + 1 < 2 ^ 32 }
        ensures { let m = self.old in let c = cmd.New d fields fin in
            MatchResult result (HasReturned m caller c reply.Object self.new)
            (λ _. RanOut m.numbers m.state c m self.new) }
    {
        let _before = self.contents.objects();
        let came = making::new_object(&mut self.contents, caller, d, fields, fin)?;
        let _after = self.contents.objects();
        Ok(came)
    }

    /// `set rO i rV`: field `i` of rO gets what rV references.
    #[inline(always)]
    pub fn set_field(&mut self, caller: u32, o: u8, i: u8, v: u8) -> Result<(), Refusal>
        requires caller { caller < self.old.numbers.callers }
        requires registers { (o < REGISTERS) × (v < REGISTERS) }
        ensures { HasReturned self.old caller (cmd.Set o i v) (λ _. reply.Done) self.new result }
    {
        let _before = self.contents.objects();
        let came = on_objects::set_field(&mut self.contents, caller, o, i, v);
        let _after = self.contents.objects();
        came
    }

    /// `get rD rO i`: rD gets what field `i` of rO references, which is returned.
    #[inline(always)]
    pub fn get_field(&mut self, caller: u32, d: u8, o: u8, i: u8) -> Result<Option<Id>, Refusal>
        requires caller { caller < self.old.numbers.callers }
        requires registers { (d < REGISTERS) × (o < REGISTERS) }
        ensures { HasReturned self.old caller (cmd.Get d o i) load_reply self.new result }
    {
        let _before = self.contents.objects();
        let came = on_objects::get_field(&mut self.contents, caller, d, o, i);
        let _after = self.contents.objects();
        came
    }

    /// `val rO n`: the value of rO becomes `n`.
    #[inline(always)]
    pub fn set_value(&mut self, caller: u32, o: u8, n: u64) -> Result<(), Refusal>
        requires caller { caller < self.old.numbers.callers }
        requires register { o < REGISTERS }
        ensures { HasReturned self.old caller (cmd.Val o n) (λ _. reply.Done) self.new result }
    {
        let _before = self.contents.objects();
        let came = on_objects::set_value(&mut self.contents, caller, o, n);
        let _after = self.contents.objects();
        came
    }

    /// `read rO`: the value of rO.
    #[inline(always)]
    pub fn read_value(&self, caller: u32, o: u8) -> Result<u64, Refusal>
        requires caller { caller < self.now.numbers.callers }
        requires register { o < REGISTERS }
        ensures { HasReturned self.now caller (cmd.Read o) reply.Value self.now result }
    {
        let _before = self.contents.objects();
        on_objects::read_value(&self.contents, caller, o)
    }

    /// `gen rS`: the generation of rS.
    #[inline(always)]
    pub fn read_generation(&self, caller: u32, o: u8) -> Result<u8, Refusal>
        requires caller { caller < self.now.numbers.callers }
        requires register { o < REGISTERS }
        ensures { HasReturned self.now caller (cmd.Gen o) reply.Generation self.now result }
    {
        let _before = self.contents.objects();
        on_objects::read_generation(&self.contents, caller, o)
    }

    /// `suppress rS`: rS is no longer registered for finalization.
    #[inline(always)]
    pub fn suppress(&mut self, caller: u32, o: u8) -> Result<(), Refusal>
        requires caller { caller < self.old.numbers.callers }
        requires register { o < REGISTERS }
        ensures { HasReturned self.old caller (cmd.Suppress o) (λ _. reply.Done) self.new result }
    {
        let _before = self.contents.objects();
        let came = on_objects::set_registered(&mut self.contents, caller, o, false);
        let _after = self.contents.objects();
        came
    }

    /// `reregister rS`: rS is registered for finalization again.
    #[inline(always)]
    pub fn reregister(&mut self, caller: u32, o: u8) -> Result<(), Refusal>
        requires caller { caller < self.old.numbers.callers }
        requires register { o < REGISTERS }
        ensures { HasReturned self.old caller (cmd.Reregister o) (λ _. reply.Done) self.new result }
    {
        let _before = self.contents.objects();
        let came = on_objects::set_registered(&mut self.contents, caller, o, true);
        let _after = self.contents.objects();
        came
    }

    /// `copy rD rS`: rD gets what rS references.
    #[inline(always)]
    pub fn copy_register(&mut self, caller: u32, d: u8, s: u8)
        requires caller { caller < self.old.numbers.callers }
        requires registers { (d < REGISTERS) × (s < REGISTERS) }
        ensures { HasReturned self.old caller (cmd.Copy d s) (λ _. reply.Done) self.new (Ok (tt {0})) }
    {
        let _before = self.contents.objects();
        on_objects::copy_register(&mut self.contents, caller, d, s);
        let _after = self.contents.objects();
    }

    /// `drop rD`: rD is null.
    #[inline(always)]
    pub fn clear_register(&mut self, caller: u32, d: u8)
        requires caller { caller < self.old.numbers.callers }
        requires register { d < REGISTERS }
        ensures { HasReturned self.old caller (cmd.Clear d) (λ _. reply.Done) self.new (Ok (tt {0})) }
    {
        let _before = self.contents.objects();
        on_objects::clear_register(&mut self.contents, caller, d);
        let _after = self.contents.objects();
    }

    /// `sput k rS`: static `k` gets what rS references.
    #[inline(always)]
    pub fn put_static(&mut self, caller: u32, k: u8, s: u8)
        requires caller { caller < self.old.numbers.callers }
        requires registers { (k < REGISTERS) × (s < REGISTERS) }
        ensures { HasReturned self.old caller (cmd.SPut k s) (λ _. reply.Done) self.new (Ok (tt {0})) }
    {
        let _before = self.contents.objects();
        on_objects::put_static(&mut self.contents, caller, k, s);
        let _after = self.contents.objects();
    }

    /// `sget rD k`: rD gets what static `k` references, which is returned.
    #[inline(always)]
    pub fn get_static(&mut self, caller: u32, d: u8, k: u8) -> Option<Id>
        requires caller { caller < self.old.numbers.callers }
        requires registers { (d < REGISTERS) × (k < REGISTERS) }
        ensures { HasReturned self.old caller (cmd.SGet d k) load_reply self.new (Ok result) }
    {
        let _before = self.contents.objects();
        let came = on_objects::get_static(&mut self.contents, caller, d, k);
        let _after = self.contents.objects();
        came
    }

    /// `final rD`: rD gets the first object of the queue, which leaves it and is returned, or null
    /// where the queue is empty.
    #[inline(always)]
    pub fn take_queued(&mut self, caller: u32, d: u8) -> Option<Id>
        requires caller { caller < self.old.numbers.callers }
        requires register { d < REGISTERS }
        ensures { HasReturned self.old caller (cmd.Final d) queued_reply self.new (Ok result) }
    {
        let _before = self.contents.objects();
        let came = on_objects::take_queued(&mut self.contents, caller, d);
        let _after = self.contents.objects();
        came
    }
}
