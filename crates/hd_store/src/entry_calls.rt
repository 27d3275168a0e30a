// The commands on the weak table, each as a call by value. Nobody asks for the steps of a search.
// What reads the number of objects before and after does so for the proof alone: the state is then
// one over the heap.
ghost use Rattle.std.specs.Prelude.{◌≡◌, ◌<◌, MatchResult};
ghost use Rattle.hd_model.specs.declared.command.Cmd.TheVariants as cmd;
ghost use Rattle.hd_commands.specs.Done.{done_making, done_of, entry_by};
ghost use Rattle.hd_store.specs.{Calls.HasCalled, Calls.HasReturned, Offers.IsOffer, Offers.TakesTable};
ghost use Rattle.hd_store.specs.Replies.{found_reply, removed_reply};

use crate::on_entries;
use crate::store::Store;
use hd_model::limits::REGISTERS;
use hd_model::{Grown, Id, Memory, Refusal, Slot, Steps};
use std::marker::Brand;
use std::sync::ledger::{Blank, Ledger};

/// What the weak table has for a key: the value of its entry, or null, or no entry.
#[derive(Clone, Copy, Debug, PartialEq, Eq)]
pub enum Lookup {
    Value(Option<Id>),
    Absent,
}

impl Store {
    /// `cadd rK rV`: adds the entry of a key with a value, and returns its slot and the blocks by
    /// which the table grew. An offered slot is taken where no slot of the weak table is idle. With
    /// its first entry the weak table of a large store takes its memory, after all refusals.
    pub fn add_entry(
        &mut self,
        caller: u32,
        k: u8,
        v: u8,
        offer: Option<Slot>,
    ) -> Result<Result<(Slot, Grown), Refusal>, Memory>
        requires caller { caller < self.old.numbers.callers }
        requires registers { (k < REGISTERS) × (v < REGISTERS) }
        requires offer { IsOffer self.old.state caller (cmd.CAdd k v) offer }
        ensures { let m = self.old in let c = cmd.CAdd k v in MatchResult result
            (λ came. let e = entry_by caller c (done_of (done_making came)) in
            HasCalled m caller c offer self.new e)
            (λ _. TakesTable m.numbers m.state caller c offer × (self.new ≡ m)) }
    {
        self.add_entry_on::<Brand>(caller, k, v, offer, Blank::new(1))
    }

    // The same, with a counter that nothing reads.
    fn add_entry_on<L: Ledger>(
        &mut self,
        caller: u32,
        k: u8,
        v: u8,
        offer: Option<Slot>,
        blank: Blank,
    ) -> Result<Result<(Slot, Grown), Refusal>, Memory>
        requires caller { caller < self.old.numbers.callers }
        requires registers { (k < REGISTERS) × (v < REGISTERS) }
        requires offer { IsOffer self.old.state caller (cmd.CAdd k v) offer }
        requires blank { (L.name ≡ blank.name) × (L.parts ≡ blank.parts) × (0 < blank.parts) }
        ensures { let m = self.old in let c = cmd.CAdd k v in MatchResult result
            (λ came. let e = entry_by caller c (done_of (done_making came)) in
            HasCalled m caller c offer self.new e)
            (λ _. TakesTable m.numbers m.state caller c offer × (self.new ≡ m)) }
    {
        let mut steps = Steps::<L>::open(blank);
        let _before = self.contents.objects();
        let came = on_entries::add_entry(&mut self.contents, caller, k, v, offer, &mut steps);
        let _after = self.contents.objects();
        came
    }

    /// `cfind rD rK`: rD gets the value of the entry of a key, and is null where there is none.
    pub fn find_entry(&mut self, caller: u32, d: u8, k: u8) -> Result<Lookup, Refusal>
        requires caller { caller < self.old.numbers.callers }
        requires registers { (d < REGISTERS) × (k < REGISTERS) }
        ensures { HasReturned self.old caller (cmd.CFind d k) found_reply self.new result }
    {
        self.find_entry_on::<Brand>(caller, d, k, Blank::new(1))
    }

    // The same, with a counter that nothing reads.
    fn find_entry_on<L: Ledger>(
        &mut self,
        caller: u32,
        d: u8,
        k: u8,
        blank: Blank,
    ) -> Result<Lookup, Refusal>
        requires caller { caller < self.old.numbers.callers }
        requires registers { (d < REGISTERS) × (k < REGISTERS) }
        requires blank { (L.name ≡ blank.name) × (L.parts ≡ blank.parts) × (0 < blank.parts) }
        ensures { HasReturned self.old caller (cmd.CFind d k) found_reply self.new result }
    {
        let mut steps = Steps::<L>::open(blank);
        let _before = self.contents.objects();
        let came = on_entries::find_entry(&mut self.contents, caller, d, k, &mut steps);
        let _after = self.contents.objects();
        came
    }

    /// `cremove rK`: takes the entry of a key out, and returns whether there was one.
    pub fn remove_entry(&mut self, caller: u32, k: u8) -> Result<bool, Refusal>
        requires caller { caller < self.old.numbers.callers }
        requires register { k < REGISTERS }
        ensures { HasReturned self.old caller (cmd.CRemove k) removed_reply self.new result }
    {
        self.remove_entry_on::<Brand>(caller, k, Blank::new(1))
    }

    // The same, with a counter that nothing reads.
    fn remove_entry_on<L: Ledger>(
        &mut self,
        caller: u32,
        k: u8,
        blank: Blank,
    ) -> Result<bool, Refusal>
        requires caller { caller < self.old.numbers.callers }
        requires register { k < REGISTERS }
        requires blank { (L.name ≡ blank.name) × (L.parts ≡ blank.parts) × (0 < blank.parts) }
        ensures { HasReturned self.old caller (cmd.CRemove k) removed_reply self.new result }
    {
        let mut steps = Steps::<L>::open(blank);
        let _before = self.contents.objects();
        let came = on_entries::remove_entry(&mut self.contents, caller, k, &mut steps);
        let _after = self.contents.objects();
        came
    }
}
