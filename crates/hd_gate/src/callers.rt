//! Callers in threads, each with its seat.
ghost use Rattle.std.specs.Prelude.{◌≡◌};
ghost use Rattle.std.specs.Borrow.{sem};
ghost use Rattle.hd_gate.specs.Lending.{lends_all};

use crate::boxed::Boxed;
use crossbeam_utils::CachePadded;
use hd_custody::Seat;
use std::marker::Model;

/// One caller of a world that threads share. It may be handed to a thread; it is made by
/// `Shared::open` alone.
#[derive(Drop)]
pub struct Caller {
    pub(crate) seat: Seat<Boxed>,
    pub(crate) number: u32,
    // How many more entries it may add. It is on cache lines of its own, since each call writes
    // it.
    pub(crate) room: CachePadded<u32>,
}

impl Model for Caller {
    ghost use Rattle.std.specs.Prelude.{◌≤◌};
    ghost use Rattle.crossbeam_utils.specs.Padded.{padded_value};
    ghost use Rattle.hd_gate.specs.{Shared.CallerView, Turns.caller_view_of, Inside.IsIdle};

    ghost Value = { CallerView };

    ghost view = { λ c. caller_view_of c.seat c.number (padded_value c.room) };

    ghost invariant = { λ c. IsIdle c.seat.view c.number
        × (padded_value c.room ≤ c.seat.view.room) };
}

impl Caller {
    /// How many more commands it may do.
    pub fn room(&self) -> u32
        ensures { result ≡ self.now.room }
    {
        *self.room
    }

    /// Its number among the callers, from 0.
    pub fn number(&self) -> u32
        ensures { result ≡ self.now.number }
    {
        self.number
    }
}

/// The callers of a shared world, in the order of their numbers.
#[derive(Drop)]
pub struct Callers {
    pub(crate) list: Vec<Caller>,
}

impl Model for Callers {
    ghost use Rattle.std.specs.Prelude.{List};
    ghost use Rattle.hd_gate.specs.Shared.{CallerView};

    ghost Value = { List CallerView };

    ghost view = { λ c. c.list.items };
}

impl Callers {
    /// All of them, to be handed to threads.
    pub fn all(&mut self) -> &mut [Caller]
        ensures* lends { sem 𝓛 (lends_all self.entry result) }
        ensures value { result.now ≡ self.old }
    {
        self.list.as_mut_slice()
    }
}
