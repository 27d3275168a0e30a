//! Opening and closing, seats, the gate, and what its holder may do.
ghost use Rattle.std.specs.Prelude.{◌≡◌, ◌≢◌, ℕ, ◌+◌, ◌*◌, ◌<◌, ◌≤◌, true, false, [], ◌∷◌, length, replicate};
ghost use Rattle.std.specs.Prelude.{IfOk, IfSome, OnSome, IfNone, Some};
ghost use Rattle.std.specs.Bool.{OnTrue, OnFalse};
ghost use Rattle.hd_model.specs.Kinds.{kind_number, is_paired};
ghost use Rattle.hd_custody.specs.Counts.{held_times, changed, Has};
ghost use Rattle.hd_custody.specs.Views.{starting, shared_out, given, joined, took, opened, closed, granted, gave_back};
ghost use Rattle.hd_custody.specs.Inside.{IsBlock, with_view, carrying, storing_data};
ghost use Rattle.hd_custody.specs.Views.{Follows, MayGrant, GrowsByBlocks, handle_block, extra_block};
ghost use Rattle.hd_custody.specs.Rule.{Entered, Divided, IsUnused};

use crate::plays::{Assign, Clear, Cut, Ends, Enter, Leave, Share};
use crate::rule::Board;
use crate::types::{ActingSeat, Custody, Seat};
use crate::waiting::{WaitWords, Waiter};
use crate::words::{EXTRA_DATA, FREE, GATE, ROWS_AFTER_FIRST, TAKEN, WORDS, WORLD};
use atomic_table::{Refused, Table};
use hd_model::limits::{BLOCKS, KINDS, ROWS};
use hd_model::{Grown, Held, Kind, Memory};
use std::alloc::{AllocError, Global};
use std::marker::Brand;
use std::snapshot::Snapshot;
use std::sync::Wait;

fn zeros(alloc: Global) -> Result<Vec<u64>, AllocError>
    ensures { IfOk result (λ v. v.items ≡ replicate WORDS 0) }
{
    Vec::from_elem(alloc, 0, WORDS)
}

fn single<W: Held>(alloc: Global, world: W) -> Result<Vec<Option<W>>, AllocError>
    ensures { IfOk result (λ v. v.items ≡ Some world ∷ []) }
{
    let mut slots = Vec::with_capacity(alloc, 1)?;
    slots.push_reserved(Some(world));
    Ok(slots)
}

impl<W: Held> Custody<W> {
    /// A table over a world in which nothing is live or done yet. It has `blocks` blocks, none with
    /// a kind, and this first seat, number 0, which may add as many entries as the world has room
    /// for. After `Memory` the world was dropped.
    pub fn open(alloc: Global, blocks: u32, world: W) -> Result<(Custody<W>, Seat<W>), Memory>
        requires blocks { (1 ≤ blocks) × (blocks ≤ BLOCKS) }
        requires unused { IsUnused W.Held world }
        ensures table { IfOk result (λ r. (r.0.blocks ≡ blocks) × (r.0.numbers ≡ W.numbers world)) }
        ensures seat { IfOk result (λ r. (r.1.table ≡ r.0.table)
            × (r.1.view ≡ starting (W.spare world) (W.numbers world))) }
    {
        let about = Snapshot::of(&world);
        let Ok(words) = zeros(alloc) else {
            return Err(Memory);
        };
        let Ok(slots) = single(alloc, world) else {
            return Err(Memory);
        };
        match Table::new(alloc, words.as_slice(), slots, &about) {
            Ok((table, inner)) => {
                let waits = WaitWords::new();
                let custody = Custody {
                    table,
                    blocks,
                    waits,
                };
                let caller = ActingSeat { inner };
                Ok((custody, Seat { caller }))
            }
            Err(Refused { slots: _ }) => Err(Memory),
        }
    }

    /// A seat for one caller more, with the next number and no slot held. Of the entries
    /// that seat 0 may still add, it gets `share`.
    pub fn split(&self, first: &mut Seat<W>, share: u32) -> Seat<W>
        requires seat { first.old.table ≡ self.now.table }
        requires first { first.old.view.number ≡ 0 }
        requires share { share ≤ first.old.view.room }
        ensures first { first.new ≡ record first.old { view = shared_out share first.old.view } }
        ensures new { result ≡ record {
          table = self.now.table;
          view =
              given share first.old.view;
        } }
    {
        self.cut::<Brand>(first, share)
    }

    fn cut<N: Share>(&self, first: &mut Seat<W>, _share: u32) -> Seat<W>
        requires picked { N.share ≡ _share }
        requires seat { first.old.table ≡ self.now.table }
        requires first { first.old.view.number ≡ 0 }
        requires share { _share ≤ first.old.view.room }
        ensures first { first.new ≡ record first.old { view = shared_out _share first.old.view } }
        ensures new { result ≡ record {
          table = self.now.table;
          view =
              given _share first.old.view;
        } }
    {
        let caller = &mut first.caller;
        let inner = self.table.shared.split_seat::<Cut<N>>(&mut caller.inner);
        let other = ActingSeat { inner };
        Seat { caller: other }
    }

    /// Ends a seat that holds no slot and has not got the gate. Its part is kept with seat
    /// 0, which also gets the entries that it might still have added.
    pub fn join(&self, first: &mut Seat<W>, ended: Seat<W>)
        requires seat { first.old.table ≡ self.now.table }
        requires other { ended.table ≡ self.now.table }
        requires first { first.old.view.number ≡ 0 }
        requires empty { ended.view.held ≡ [] }
        requires gate { ended.view.has_gate ≡ false }
        ensures first { first.new ≡ record first.old { view = joined first.old.view ended.view } }
    {
        let Seat { caller: other } = ended;
        let ActingSeat { inner } = other;
        let caller = &mut first.caller;
        self.table
            .shared
            .join_seat::<Ends>(&mut caller.inner, inner);
    }

    /// The world, once all other seats were joined to seat 0. Its journal has of each caller
    /// exactly that caller's part, and begins with what each has seen.
    pub fn close(self, first: Seat<W>) -> W
        requires seat { first.table ≡ self.table }
        requires first { first.view.number ≡ 0 }
        requires gate { first.view.has_gate ≡ false }
        requires all { length first.view.ended + 1 ≡ first.view.made }
        ensures world { Divided W.Held first.view result }
    {
        let Custody {
            table,
            blocks: _,
            waits: _,
        } = self;
        let Seat { caller } = first;
        stored_world(table, caller)
    }

    // An exchange of the gate word with 1: whether the gate was free, and is this seat's now.
    fn win(&self, caller: &mut ActingSeat<W>) -> bool
        requires seat { caller.old.table ≡ self.now.table }
        ensures won { OnTrue result ((w : W) × (caller.new ≡ carrying W.Held w caller.old)
            × Entered W.Held caller.old.view w) }
        ensures lost { OnFalse result (caller.new ≡ caller.old) }
    {
        let shared = &self.table.shared;
        shared.swap::<Enter>(&mut caller.inner, GATE, TAKEN) == FREE
    }

    // The world, where the gate was free.
    fn try_enter(&self, seat: &mut Seat<W>) -> Option<W>
        requires seat { seat.old.table ≡ self.now.table }
        ensures lost { IfNone result (seat.new ≡ seat.old) }
        ensures won { IfSome result (λ w. seat.new ≡ record seat.old {
          view =
              took W.Held w seat.old.view;
        }) }
        ensures entered { IfSome result (Entered W.Held seat.old.view) }
    {
        let caller = &mut seat.caller;
        if !self.win(caller) {
            return None;
        }
        self.table.shared.exchange(&mut caller.inner, WORLD, None)
    }

    /// Takes the gate, and with it the world. It may wait for whoever has it, and counts one step
    /// on the gate: a try that fails changes nothing. No slot held is live in that world, each that
    /// has a kind is there in a block of that kind, its journal has of this caller exactly the
    /// seat's part and begins with all that the seat has seen, and it has room for the entries that
    /// the seat may still add. It is sound.
    pub fn enter<R: Wait>(&self, rt: &R, seat: &mut Seat<W>) -> W
        requires seat { seat.old.table ≡ self.now.table }
        requires gate { seat.old.view.has_gate ≡ false }
        ensures view { seat.new ≡ record seat.old { view = took W.Held result seat.old.view } }
        ensures entered { Entered W.Held seat.old.view result }
    {
        self.give_way();
        let mut waiter = Waiter::new();
        for _try in rt.forever() {
            if let Some(world) = self.try_enter(seat) {
                self.end_wait(&waiter);
                return world;
            }
            self.wait(rt, &mut waiter);
        }
        unreachable!()
    }

    /// Gives the gate back with the world, and wakes a caller if any may sleep at it. Slots that
    /// became live are held no more, and slots that are live no more are held, each with its
    /// block's kind. The world has to be sound again.
    pub fn leave(&self, seat: &mut Seat<W>, world: W)
        requires seat { seat.old.table ≡ self.now.table }
        requires gate { seat.old.view.has_gate ≡ true }
        requires follows { (u : W) × (seat.old.view.taken ≡ Some u)
            × Follows W.Held u world seat.old.view }
        ensures view { (u : W) → seat.old.view.taken ≡ Some u
            → seat.new ≡ record seat.old { view = gave_back W.Held u world seat.old.view } }
    {
        let shared = &self.table.shared;
        let caller = &mut seat.caller;
        shared.exchange(&mut caller.inner, WORLD, Some(world));
        shared.store::<Leave>(&mut caller.inner, GATE, FREE);
        self.wake();
    }

    // Stores the kind word of a block that has no kind.
    fn assign(&self, caller: &mut ActingSeat<W>, block: u32, kind: u64)
        requires seat { caller.old.table ≡ self.now.table }
        requires gate { caller.old.view.has_gate ≡ true }
        requires block { IsBlock block × (0 < kind) }
        requires no_kind { (u : W) × (caller.old.view.taken ≡ Some u)
            × (changed caller.old.view.changes (W.kind u) block ≡ 0) }
        ensures view { caller.new ≡ with_view (opened block kind caller.old.view) caller.old }
        ensures apart { (r : ℕ) → r < ROWS
            → held_times (ROWS * block + r) caller.old.view.held ≡ 0 }
    {
        self.table
            .shared
            .store::<Assign>(&mut caller.inner, block as usize, kind);
    }

    /// Gives a kind to a block without one, and for a paired kind makes another its data block. Row
    /// 0 of the block stays held, and the others go into its mask.
    pub fn grant(&self, seat: &mut Seat<W>, kind: Kind, grown: Grown)
        requires seat { seat.old.table ≡ self.now.table }
        requires gate { seat.old.view.has_gate ≡ true }
        requires grows { GrowsByBlocks (is_paired kind) grown }
        requires blocks { MayGrant W.Held self.now.blocks (handle_block grown) (extra_block grown)
            seat.old.view }
        ensures view { seat.new ≡ record seat.old {
          view = granted (kind_number kind) (handle_block grown) (extra_block grown) seat.old.view;
        } }
    {
        // Read for the proof alone: it states how many blocks there are at most.
        let _blocks = self.blocks;
        match grown {
            Grown::Zero => unreachable!(),
            Grown::One(block) => self.give(&mut seat.caller, kind.number(), block, 0),
            Grown::Two(block, extra) => self.give(&mut seat.caller, kind.number(), block, extra),
            Grown::Back(_) => unreachable!(),
        }
    }

    // Makes a block without a kind a data block. Block 0 is none.
    fn assign_data(&self, caller: &mut ActingSeat<W>, block: u32)
        requires seat { caller.old.table ≡ self.now.table }
        requires gate { caller.old.view.has_gate ≡ true }
        requires block { block < BLOCKS + 1 }
        requires no_kind { (u : W) × (caller.old.view.taken ≡ Some u)
            × (block ≢ 0 → changed caller.old.view.changes (W.kind u) block ≡ 0) }
        ensures view { caller.new ≡ with_view (storing_data block caller.old.view) caller.old }
    {
        if block != 0 {
            self.assign(caller, block, EXTRA_DATA);
        }
    }

    // The stores of a grant, by the number of the kind. Block 0 is no data block.
    fn give(&self, caller: &mut ActingSeat<W>, kind: u32, block: u32, extra: u32)
        requires seat { caller.old.table ≡ self.now.table }
        requires gate { caller.old.view.has_gate ≡ true }
        requires kind { kind < KINDS }
        requires blocks { MayGrant W.Held self.now.blocks block extra caller.old.view }
        ensures view { caller.new
            ≡ with_view (granted kind block extra caller.old.view) caller.old }
    {
        // Read for the proof alone: it states how many blocks there are at most.
        let _blocks = self.blocks;
        self.assign(caller, block, kind as u64 + 1);
        self.assign_data(caller, extra);
        self.fill(caller, block, ROWS_AFTER_FIRST);
    }

    /// Takes the kind of a block whose slots are all held, and then are held no more.
    pub fn withdraw(&self, seat: &mut Seat<W>, block: u32)
        requires seat { seat.old.table ≡ self.now.table }
        requires gate { seat.old.view.has_gate ≡ true }
        requires all { (r : ℕ) → r < ROWS → Has (ROWS * block + r) seat.old.view.held }
        ensures view { seat.new ≡ record seat.old { view = closed block seat.old.view } }
    {
        let caller = &mut seat.caller;
        self.table
            .shared
            .store::<Clear>(&mut caller.inner, block as usize, 0);
    }
}

// What the slot of a table has at its end.
fn stored_world<W: Held>(table: Board<W>, caller: ActingSeat<W>) -> W
    requires seat { caller.table ≡ table.shared.table_id }
    requires slots { table.shared.table_id.slots ≡ 1 }
    requires first { (caller.view.number ≡ 0) × (caller.view.has_gate ≡ false) }
    requires all { length caller.view.ended + 1 ≡ caller.view.made }
    ensures { Divided W.Held caller.view result }
{
    let ActingSeat { inner } = caller;
    let mut closed = table.close_with(inner);
    let world = closed.take(WORLD);
    closed.free();
    match world {
        Some(world) => world,
        None => unreachable!(),
    }
}
