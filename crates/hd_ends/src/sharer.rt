ghost use Rattle.std.specs.Prelude.{◌≡◌, ◌+◌, ◌<◌, ◌^◌, true, false, Some};
ghost use Rattle.std.specs.Bool.{OnTrue, OnFalse};
ghost use Rattle.std.specs.Borrow.{Lends, sem};
ghost use Rattle.hd_host.specs.View.{HostView};
ghost use Rattle.hd_host.specs.contracts.host.Host as host_contract;
ghost use Rattle.hd_ends.specs.contracts.sharer.Sharer.{the_row};
ghost use Rattle.hd_ends.specs.Ends.{Leaves, MayLeave, Takes, busied, first_of, turn_of, with_host};
ghost use Rattle.hd_ends.specs.Views.{IsNewEnd, sharer_of};

use crate::behind::Behind;
use hd_host::{Change, Host, Last};
use std::marker::Model;

/// An end of a shared host, which has its turn or has not. Contracts see what it knows, and whether
/// it has the gate. An end that is dropped while it has its turn leaves the gate taken for ever.
#[derive(Drop)]
pub struct Sharer {
    end: hd_turns::End<Behind>,
    // The first of the host's contexts that is its own, and how many are.
    first: u32,
    each: u32,
    // What its own last call that was done did.
    last: Last,
}

impl Model for Sharer {
    ghost use Rattle.hd_ends.specs.{Ends.SharerView, Ends.sharer_view_code, Views.IsSharer, Views.sharer_of};

    ghost Value = { SharerView };

    ghost coded = { sharer_view_code };

    ghost view = { λ s. sharer_of s.end s.each s.last };

    ghost invariant = { λ s. IsSharer s.end s.first s.each };
}

impl Sharer {
    // The end of a gate to which nothing was done.
    pub(crate) fn of(end: hd_turns::End<Behind>, each: u32, last: Change) -> Sharer
        requires { IsNewEnd end each }
        ensures { result ≡ sharer_of end each last }
    {
        let first = end.number() * each;
        Sharer {
            end,
            first,
            each,
            last: Last::of(last),
        }
    }

    /// How many contexts it has, which are numbered from 0 there.
    #[inline(always)]
    pub fn contexts(&self) -> u32
        ensures { result ≡ self.now.end.each }
    {
        self.each
    }

    /// Which of the host's contexts is the first of its own.
    #[inline(always)]
    pub fn first(&self) -> u32
        ensures value { result ≡ first_of self.now.end }
        ensures fits { result + self.now.end.each < 2 ^ 32 }
    {
        self.first
    }

    /// What its own last call that was done did to slots and blocks.
    pub fn last(&self) -> Change
        ensures { result ≡ self.now.end.last }
    {
        self.last.get()
    }

    /// The number of its last turn, in one order for all ends, or 0 before the first.
    pub fn turn(&self) -> u64
        requires { self.now.has_gate ≡ false }
        ensures { result ≡ turn_of self.now.end }
    {
        self.end.turn()
    }

    /// Takes the gate, and has the host as the last turn of all left it, but with the end's own
    /// `last`; or it does not, where another end had its turn or came first at each of `LOOKS` looks
    /// (hd_turns), and after 2^64 - 2 turns. It makes no call of the system. No end is promised a
    /// turn.
    #[inline(always)]
    pub fn enter(&mut self) -> bool
        requires { self.old.has_gate ≡ false }
        ensures busy { OnFalse result (self.new ≡ record self.old { end = busied self.old.end }) }
        ensures taken { OnTrue result (Takes self.old self.new) }
    {
        if !self.end.try_enter() {
            return false;
        }
        let behind = self.end.value();
        behind.host_mut().recall(&self.last);
        true
    }

    /// The host, while it has its turn.
    #[inline(always)]
    pub fn host(&mut self) -> &mut Host
        requires { self.old.has_gate ≡ true }
        ensures* lends { sem 𝓛 (Lends the_row host_contract.the_row self.entry result
            (with_host self.old)) }
        ensures value { self.old.host ≡ Some result.now }
    {
        let behind = self.end.value();
        behind.host_mut()
    }

    /// Gives the gate back with the host as its turn leaves it.
    #[inline(always)]
    pub fn leave(&mut self)
        requires gate { self.old.has_gate ≡ true }
        requires turn { (leaves : HostView) × (self.old.host ≡ Some leaves)
            × MayLeave self.old.end leaves }
        ensures { (leaves : HostView) × Leaves self.old self.new leaves }
    {
        let behind = self.end.value();
        behind.host_mut().note(&mut self.last);
        self.end.leave();
    }
}
