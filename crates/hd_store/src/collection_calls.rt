// `collect`, `trim` and `gcroot`, each as a call by value. Nobody asks for the steps of a collection.
// What reads the number of objects before and after does so for the proof alone: the state is then
// one over the heap.
ghost use Rattle.std.specs.Prelude.{◌≡◌, ◌<◌, ◌≤◌, false, Ok, MatchResult};
ghost use Rattle.hd_model.specs.declared.command.Cmd.TheVariants as cmd;
ghost use Rattle.hd_model.specs.declared.data.Reply.TheVariants as reply;
ghost use Rattle.hd_model.specs.Kinds.{is_paired};
ghost use Rattle.hd_commands.specs.Done.{entry_by};
ghost use Rattle.hd_store.specs.Calls.{HasCalled, HasReturned};
ghost use Rattle.hd_store.specs.{Offers.IsOffer, Offers.RanOut};
ghost use Rattle.hd_store.specs.Replies.{done_trimming, root_reply};

use crate::store::Store;
use crate::{collection, making, rooting};
use hd_model::limits::{OLDEST, REGISTERS};
use hd_model::{Grown, Id, Kind, Memory, Refusal, Report, Slot, Steps};
use std::marker::Brand;
use std::sync::ledger::{Blank, Ledger};

/// Where a shortest chain to an object begins, and its number of edges.
#[derive(Clone, Copy, Debug, PartialEq, Eq)]
pub struct Root {
    pub from: Id,
    pub arrows: u32,
}

impl Store {
    /// `collect N`: collects generation `n` and all younger ones. Out of memory changes nothing.
    pub fn collect(&mut self, caller: u32, n: u8) -> Result<Report, Memory>
        requires caller { caller < self.old.numbers.callers }
        requires generation { n ≤ OLDEST }
        ensures { let m = self.old in let c = cmd.Collect n in MatchResult result
            (λ report. HasReturned m caller c reply.Report self.new (Ok report))
            (λ _. RanOut m.numbers m.state c m self.new) }
    {
        self.collect_on::<Brand>(caller, n, Blank::new(1))
    }

    // The same, with a counter that nothing reads.
    fn collect_on<L: Ledger>(&mut self, caller: u32, n: u8, blank: Blank) -> Result<Report, Memory>
        requires caller { caller < self.old.numbers.callers }
        requires generation { n ≤ OLDEST }
        requires blank { (L.name ≡ blank.name) × (L.parts ≡ blank.parts) × (0 < blank.parts) }
        ensures { let m = self.old in let c = cmd.Collect n in MatchResult result
            (λ report. HasReturned m caller c reply.Report self.new (Ok report))
            (λ _. RanOut m.numbers m.state c m self.new) }
    {
        let mut steps = Steps::<L>::open(blank);
        let _before = self.contents.objects();
        let report = collection::collect_up_to(&mut self.contents, caller, n, &mut steps)?;
        let _after = self.contents.objects();
        Ok(report)
    }

    /// `trim KIND`: gives back the block of the offered slot or, without one, none.
    pub fn trim(&mut self, caller: u32, kind: Kind, offer: Option<Slot>) -> Grown
        requires caller { caller < self.old.numbers.callers }
        requires single { is_paired kind ≡ false }
        requires offer { IsOffer self.old.state caller (cmd.Trim kind) offer }
        ensures { let c = cmd.Trim kind in
            HasCalled self.old caller c offer self.new (entry_by caller c (done_trimming result)) }
    {
        let _before = self.contents.objects();
        let grown = making::trim(&mut self.contents, caller, kind, offer);
        let _after = self.contents.objects();
        grown
    }

    /// `gcroot rS`: where a shortest chain to what rS references begins. It changes nothing.
    pub fn root_of(&self, caller: u32, s: u8) -> Result<Result<Option<Root>, Refusal>, Memory>
        requires caller { caller < self.now.numbers.callers }
        requires register { s < REGISTERS }
        ensures { let m = self.now in let c = cmd.GcRoot s in MatchResult result
            (HasReturned m caller c root_reply m) (λ _. RanOut m.numbers m.state c m m) }
    {
        let _before = self.contents.objects();
        rooting::return_root(&self.contents, caller, s)
    }
}
