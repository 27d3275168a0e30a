//! What each kind of step shows. These types are for the proofs alone.
ghost use Rattle.std.specs.Prelude.{ℕ};
ghost use Rattle.hd_custody.specs.Views.{begun, shared_out, given, joined, spent};
ghost use Rattle.hd_custody.specs.Rule.{entered, left, exchanged, stored, seen, drawn, returned, settled, assigned, cleared};

use crate::view::View;
use atomic_table::{Join, Play, Split};
use hd_model::Held;
use std::marker::{Brand, PhantomData};

pub(crate) struct Enter;

impl<W: Held> Play<Option<W>, View<W>> for Enter {
    ghost then = { entered W.Held };
}

pub(crate) struct Leave;

impl<W: Held> Play<Option<W>, View<W>> for Leave {
    ghost then = { left W.Held };
}

// The first step of a call.
pub(crate) struct Begin;

impl<W: Held> Play<Option<W>, View<W>> for Begin {
    ghost then = { exchanged W.Held begun };
}

pub(crate) struct Exchange;

impl<W: Held> Play<Option<W>, View<W>> for Exchange {
    ghost then = { exchanged W.Held (λ v. v) };
}

pub(crate) struct Bank;

impl<W: Held> Play<Option<W>, View<W>> for Bank {
    ghost then = { stored W.Held };
}

pub(crate) struct Look;

impl<W: Held> Play<Option<W>, View<W>> for Look {
    ghost then = { seen W.Held };
}

pub(crate) struct Drain;

impl<W: Held> Play<Option<W>, View<W>> for Drain {
    ghost then = { drawn W.Held };
}

pub(crate) struct Return;

impl<W: Held> Play<Option<W>, View<W>> for Return {
    ghost then = { returned W.Held };
}

pub(crate) struct PutIn;

impl<W: Held> Play<Option<W>, View<W>> for PutIn {
    ghost then = { settled W.Held };
}

pub(crate) struct Assign;

impl<W: Held> Play<Option<W>, View<W>> for Assign {
    ghost then = { assigned W.Held };
}

pub(crate) struct Clear;

impl<W: Held> Play<Option<W>, View<W>> for Clear {
    ghost then = { cleared W.Held };
}

// How many entries the new seat may add, which the call of a split picks.
pub(crate) trait Share {
    ghost share: { ℕ };
}

impl Share for Brand {
    ghost share = { 0 };
}

pub(crate) struct Cut<N: Share> {
    share: PhantomData<N>,
}

impl<W, N: Share> Split<View<W>> for Cut<N> {
    ghost left = { shared_out N.share };

    ghost right = { given N.share };
}

pub(crate) struct Ends;

impl<W> Join<View<W>> for Ends {
    ghost both = { joined };

    ghost spent = { spent };
}
