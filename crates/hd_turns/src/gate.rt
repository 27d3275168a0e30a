// The gate: one word of the table, and one slot with the value.
ghost use Rattle.std.specs.Prelude.{◌≡◌, ◌<◌, ◌+◌, true, false, [], ◌∷◌, length, IfOk, IfSome, IfNone, MatchOption, Some, None};
ghost use Rattle.std.specs.Bool.{OnTrue, OnFalse};
ghost use Rattle.hd_turns.specs.Rule.{Entered, HasFreed, IsFree, MayFree};
ghost use Rattle.hd_turns.specs.declared.gate.TheConstants.{FULL, LOOKS};
ghost use Rattle.hd_turns.specs.Views.{MayLeave, TakesTurn, gave_all_back, missed, next_of, passed_on, starting, with_value};
ghost use Rattle.std.specs.Borrow.{Lends, sem};
ghost use Rattle.hd_turns.specs.contracts.gate.Seat.{the_row};

use crate::pauses::pause_after;
use crate::rule::{Cut, Enter, Law, Leave, Look, Turn, View};
use atomic_table::{Seat as Place, Table};
use std::alloc::{AllocError, Global};
use std::marker::Model;
use std::snapshot::Snapshot;

/// How often a call looks at the gate before it says that another end has its turn.
pub const LOOKS: u32 = 16;

// The word of the gate, and the slot of the value.
const GATE: usize = 0;

const VALUE: usize = 0;

// The gate while an end has its turn.
const TAKEN: u64 = 0;

/// The gate after so many turns that none may follow.
pub(crate) const FULL: u64 = u64::MAX;

/// The gate, and the value under it. Seen as the table.
#[derive(Drop)]
pub(crate) struct Gate<W: Turn> {
    table: Table<W, View<W>, Snapshot<W>, Law, Global>,
}

impl<W: Turn> Model for Gate<W> {
    ghost use Rattle.std.specs.Prelude.{◌≡◌};
    ghost use Rattle.atomic_table.specs.Seated.{TableId, table_id_coded};

    ghost Value = { TableId };

    ghost coded = { table_id_coded };

    ghost view = { λ g. g.table.shared.table_id };

    ghost invariant = { λ g. (g.table.shared.table_id.words ≡ 1)
        × (g.table.shared.table_id.slots ≡ 1) };
}

/// An end's token. It has no bytes. Seen as its table and what the end knows.
#[derive(Drop)]
pub(crate) struct Seat<W: Turn> {
    place: Place<W, View<W>>,
}

impl<W: Turn> Model for Seat<W> {
    ghost use Rattle.hd_turns.specs.{Views.Known, Rule.IsSeated, Rule.carried_value};

    ghost Value = { Known W };

    ghost view = { λ s. record {
      table = s.place.table_id;
      view = s.place.me.0;
      value = carried_value s.place.me.1;
    } };

    ghost invariant = { λ s. IsSeated s.place.me };
}

impl<W: Turn> Seat<W> {
    /// The value, while an end has its turn.
    #[inline(always)]
    pub(crate) fn value<'a>(&'a mut self, gate: &'a Gate<W>) -> &'a mut W
        requires table { self.old.table ≡ gate.now }
        requires gate { self.old.view.has_gate ≡ true }
        ensures* lends { sem 𝓛
            (Lends (the_row W.row W.Turn) W.row self.entry result (with_value self.old)) }
        ensures value { self.old.value ≡ Some result.now }
    {
        self.place.slot_mut(&gate.table.shared, VALUE)
    }
}

fn single<W: Turn>(alloc: Global, value: W) -> Result<Vec<W>, AllocError>
    ensures { IfOk result (λ v. v.items ≡ value ∷ []) }
{
    let mut slots = Vec::with_capacity(alloc, 1)?;
    slots.push_reserved(value);
    Ok(slots)
}

// Whether a gate is free, and a turn may follow.
fn is_free(gate: u64) -> bool
    ensures yes { OnTrue result (IsFree gate) }
    ensures no { OnFalse result (IsFree gate → ⊥) }
{
    TAKEN < gate && gate < FULL
}

impl<W: Turn> Gate<W> {
    /// A free gate over a value, and the first seat, from which the next is made.
    pub(crate) fn open(alloc: Global, value: W) -> Result<(Gate<W>, Seat<W>), AllocError>
        ensures { IfOk result (λ r. r.1 ≡ record { table = r.0; view = starting value 0 true; value = None }) }
    {
        let about = Snapshot::of(&value);
        let slots = single(alloc, value)?;
        let Ok((table, place)) = Table::new(alloc, &[1], slots, &about) else {
            return Err(AllocError);
        };
        Ok((Gate { table }, Seat { place }))
    }

    /// A seat with the next number.
    pub(crate) fn split(&self, last: &mut Seat<W>) -> Seat<W>
        requires seat { last.old.table ≡ self.now }
        requires last { last.old.view.is_last ≡ true }
        ensures last { last.new ≡ record last.old { view = passed_on last.old.view } }
        ensures new { result ≡ record {
          table = last.old.table;
          view = next_of last.old.view;
          value = None;
        } }
    {
        Seat {
            place: self.table.shared.split_seat::<Cut>(&mut last.place),
        }
    }

    // The gate at a look, where it is free.
    #[inline(always)]
    fn look_at(&self, place: &mut Place<W, View<W>>) -> Option<u64>
        requires { place.old.table_id ≡ self.now }
        ensures table { place.new.table_id ≡ place.old.table_id }
        ensures looked { MatchOption result
            (place.new.me ≡ (missed 1 place.old.me.0, place.old.me.1))
            (λ found. IsFree found × (place.new.me ≡ place.old.me)) }
    {
        let found = self.table.shared.load::<Look>(place, GATE);
        if is_free(found) { Some(found) } else { None }
    }

    // Whether the gate was what was found, and is taken by this end now.
    #[inline(always)]
    fn win(&self, place: &mut Place<W, View<W>>, found: u64) -> bool
        requires table { place.old.table_id ≡ self.now }
        requires free { 0 < found }
        ensures table { place.new.table_id ≡ place.old.table_id }
        ensures won { OnTrue result (Entered W.turn found place.old.me place.new.me) }
        ensures lost { OnFalse result
            (place.new.me ≡ (missed 1 place.old.me.0, place.old.me.1)) }
    {
        let before = self
            .table
            .shared
            .compare_exchange::<Enter>(place, GATE, found, TAKEN);
        before == found
    }

    // One look, and a try where the gate is free. The number is that of the turn.
    #[inline(always)]
    fn look(&self, seat: &mut Seat<W>) -> Option<u64>
        requires seat { seat.old.table ≡ self.now }
        requires gate { seat.old.view.has_gate ≡ false }
        ensures lost { IfNone result
            (seat.new ≡ record seat.old { view = missed 1 seat.old.view }) }
        ensures won { IfSome result (λ number. (number < FULL)
            × TakesTurn W.turn 1 number seat.old seat.new) }
    {
        let found = self.look_at(&mut seat.place)?;
        if self.win(&mut seat.place, found) {
            Some(found)
        } else {
            None
        }
    }

    /// The number of the turn, where the gate was free at one of the looks.
    #[inline(always)]
    pub(crate) fn try_enter(&self, seat: &mut Seat<W>) -> Option<u64>
        requires seat { seat.old.table ≡ self.now }
        requires gate { seat.old.view.has_gate ≡ false }
        ensures lost { IfNone result
            (seat.new ≡ record seat.old { view = missed LOOKS seat.old.view }) }
        ensures won { IfSome result (λ number. (number < FULL)
            × TakesTurn W.turn LOOKS number seat.old seat.new) }
    {
        for look in 0..LOOKS {
            if let Some(number) = self.look(seat) {
                return Some(number);
            }
            pause_after(look);
        }
        None
    }

    // The gate is free, and the turn with this number is the newest of the history.
    #[inline(always)]
    fn set_free(&self, place: &mut Place<W, View<W>>, turn: u64)
        requires table { place.old.table_id ≡ self.now }
        requires number { (length place.old.me.0.seen ≡ turn) × (turn < FULL) }
        requires may { MayFree W.turn place.old.me }
        ensures table { place.new.table_id ≡ place.old.table_id }
        ensures freed { HasFreed place.old.me place.new.me }
    {
        self.table.shared.store::<Leave>(place, GATE, turn + 1);
    }

    /// Gives the gate back with the value, as the turn with this number leaves it.
    #[inline(always)]
    pub(crate) fn leave(&self, seat: &mut Seat<W>, turn: u64)
        requires seat { seat.old.table ≡ self.now }
        requires gate { seat.old.view.has_gate ≡ true }
        requires number { (length seat.old.view.seen ≡ turn) × (turn < FULL) }
        requires turn { IfSome seat.old.value (λ value. MayLeave W.turn value seat.old.view) }
        ensures { seat.new ≡ gave_all_back seat.old }
    {
        self.set_free(&mut seat.place, turn);
    }
}
