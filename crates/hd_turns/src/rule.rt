// The rule of the table, and the steps that keep it.
ghost use Rattle.std.specs.Prelude.{ℕ, true};
ghost use Rattle.hd_turns.specs.Views.{next_of, passed_on, starting};
ghost use Rattle.hd_turns.specs.Rule.{Kept, entered, left, looked_at};

use atomic_table::{Play, Split, TableRule};
use std::collections::LinkedList;
use std::snapshot::Snapshot;

/// What ends take in turn.
pub trait Turn: Drop {
    /// A turn of the end with this number may lead from the one value to the other.
    ghost turn: { ℕ → Self → Self → Type 0 };
}

/// What an end knows. It exists in proofs alone.
pub struct View<W> {
    pub number: u64,
    /// The history as at its last turn, the last turn first: whose turn it was, and what it left.
    /// The opening is the first of it, and counts as number 0's.
    pub seen: LinkedList<(u64, W)>,
    pub has_gate: bool,
    /// How often it looked at the gate and had no turn by that, since another end had its own.
    pub misses: u64,
    /// Whether the next end is made from it. That is so of no end that is handed out.
    pub is_last: bool,
}

// What holds between any two steps. No value of it is made.
pub(crate) struct Law;

impl<W: Turn> TableRule<W, View<W>, Snapshot<W>> for Law {
    ghost holds = { λ about s. Kept W.turn s };

    ghost first = { λ about. starting about.value 0 true };
}

pub(crate) struct Look;

impl<W> Play<W, View<W>> for Look {
    ghost then = { looked_at };
}

pub(crate) struct Enter;

impl<W: Turn> Play<W, View<W>> for Enter {
    ghost then = { entered W.turn };
}

pub(crate) struct Leave;

impl<W: Turn> Play<W, View<W>> for Leave {
    ghost then = { left };
}

pub(crate) struct Cut;

impl<W> Split<View<W>> for Cut {
    ghost left = { passed_on };

    ghost right = { next_of };
}
