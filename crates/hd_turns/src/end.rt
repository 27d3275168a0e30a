ghost use Rattle.std.specs.Prelude.{◌≡◌, ℕ, false, true, length, IfOk, IfSome, Some};
ghost use Rattle.std.specs.Bool.{OnTrue, OnFalse};
ghost use Rattle.std.specs.Borrow.{Lends, sem};
ghost use Rattle.std.specs.Arc.{arc_value};
ghost use Rattle.atomic_table.specs.Seated.{TableId};
ghost use Rattle.hd_turns.specs.Views.{MayLeave, TakesTurn, ends_of, entries, gave_all_back, handed_out, missed, with_value};
ghost use Rattle.hd_turns.specs.contracts.end.End.{the_row};

use crate::gate::{Gate, LOOKS, Seat};
use crate::rule::Turn;
use std::alloc::{AllocError, Global};
use std::marker::Model;
use std::mem::replace;
use std::sync::Arc;

/// One end of a value that ends take in turn. It is one thread's at a time, and may be handed on.
/// Contracts see its table and what it knows. The last end that is dropped drops the value; an end
/// that is dropped while it has its turn leaves the gate taken for ever.
#[derive(Drop)]
pub struct End<W: Turn> {
    gate: Arc<Gate<W>, Global>,
    seat: Seat<W>,
    number: u32,
    // The number of its last turn, or of the one that it has.
    turn: u64,
}

impl<W: Turn> Model for End<W> {
    ghost use Rattle.std.specs.Arc.{arc_value};
    ghost use Rattle.hd_turns.specs.{Views.Known, Views.handed_out, Views.IsEnd};

    ghost Value = { Known W };

    ghost view = { λ e. record {
      table = e.seat.table;
      view = handed_out e.seat.view;
      value = e.seat.value;
    } };

    ghost invariant = { λ e. IsEnd (arc_value e.gate) e.seat e.number e.turn };
}

// An end of a gate, with the number of its seat. Out of memory, the seat was dropped.
fn numbered<W: Turn>(
    gate: &Arc<Gate<W>, Global>,
    seat: Seat<W>,
    number: u32,
) -> Result<End<W>, AllocError>
    requires table { seat.table ≡ arc_value gate.now }
    requires number { seat.view.number ≡ number }
    requires opened { (seat.view.has_gate ≡ false) × (length seat.view.seen ≡ 1) }
    ensures { IfOk result (λ e. e ≡ record seat { view = handed_out seat.view }) }
{
    let gate = Arc::try_clone(gate)?;
    Ok(End {
        gate,
        seat,
        number,
        turn: 0,
    })
}

impl<W: Turn> End<W> {
    /// So many ends of one value, numbered from 0, with an open gate. Out of memory, the value was
    /// dropped.
    pub fn open(alloc: Global, value: W, count: u32) -> Result<Vec<End<W>>, AllocError>
        ensures { IfOk result (λ ends. (table : TableId)
            × (ends.items ≡ ends_of table value count)) }
    {
        let (gate, mut last) = Gate::open(alloc, value)?;
        let gate = Arc::new(alloc, gate)?;
        let mut ends = Vec::with_capacity(alloc, count as usize)?;
        for number in 0..count {
            let next = gate.split(&mut last);
            let end = numbered(&gate, replace(&mut last, next), number)?;
            if ends.push(end).is_err() {
                return Err(AllocError);
            }
        }
        Ok(ends)
    }

    /// Its number: no two ends of a value have one.
    pub fn number(&self) -> u32
        ensures { result ≡ self.now.view.number }
    {
        self.number
    }

    /// The number of its last turn, or of the one that it has: how many turns there were before,
    /// with the opening, which is number 0.
    pub fn turn(&self) -> u64
        ensures { length self.now.view.seen ≡ entries self.now.view.has_gate result }
    {
        self.turn
    }

    /// Takes the gate, and with it the value as the last turn of all left it; or it does not, where
    /// at each of `LOOKS` looks another end had its turn or came first, and after 2^64 - 2 turns. It
    /// makes no call of the system. No end is promised a turn.
    #[inline(always)]
    pub fn try_enter(&mut self) -> bool
        requires gate { self.old.view.has_gate ≡ false }
        ensures busy { OnFalse result
            (self.new ≡ record self.old { view = missed LOOKS self.old.view }) }
        ensures turned { OnTrue result ((number : ℕ)
            × TakesTurn W.turn LOOKS number self.old self.new) }
    {
        let gate: &Gate<W> = &self.gate;
        match gate.try_enter(&mut self.seat) {
            Some(turn) => {
                self.turn = turn;
                true
            }
            None => false,
        }
    }

    /// The value, while it has its turn.
    #[inline(always)]
    pub fn value(&mut self) -> &mut W
        requires gate { self.old.view.has_gate ≡ true }
        ensures* lends { sem 𝓛 (Lends (the_row W.row W.Turn) W.row self.entry result (with_value self.old)) }
        ensures value { self.old.value ≡ Some result.now }
    {
        let gate: &Gate<W> = &self.gate;
        self.seat.value(gate)
    }

    /// Gives the gate back with the value as it is.
    #[inline(always)]
    pub fn leave(&mut self)
        requires gate { self.old.view.has_gate ≡ true }
        requires turn { IfSome self.old.value (λ value. MayLeave W.turn value self.old.view) }
        ensures { self.new ≡ gave_all_back self.old }
    {
        let gate: &Gate<W> = &self.gate;
        gate.leave(&mut self.seat, self.turn);
    }
}
