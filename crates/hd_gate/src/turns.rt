//! What a caller does at its turn, by what its command does to the free slots.
ghost use Rattle.std.specs.Prelude.{◌≡◌, ◌≢◌, ◌<◌, ◌≤◌, ◌+◌, ◌*◌, true, false, ℕ, IfSome, MatchResult, option_map};
ghost use Rattle.hd_model.specs.{Kinds.kind_number, Kinds.is_paired, State.first_slot, Valid.takes_memory};
ghost use Rattle.hd_custody.specs.Counts.{Has, HasAs};
ghost use Rattle.hd_custody.specs.Views.{GrowsByBlocks, MayGrant, handle_block, extra_block};
ghost use Rattle.hd_slots.specs.Change.{change_of};
ghost use Rattle.hd_slots.specs.declared.change.Change.TheVariants.{Takes, Adds, Frees, GivesBack, Keeps};
ghost use Rattle.hd_gate.specs.Inside.{MayTurn, Turned, Stayed, Looked, LooksWhere, with_grown, without_gathered, freed_in, ReleasesFreed};
ghost use Rattle.hd_world.specs.{Stepped.Stepped, World.MayApply};

use crate::boxed::Boxed;
use hd_custody::{Custody, Seat};
use hd_model::limits::{BLOCKS, ROWS};
use hd_model::{Cmd, Entry, Grown, Held, Kind, Memory, Reply, Slot};
use hd_slots::{Change, change_of};
use std::sync::Wait;

/// Does a command of the caller with this number, whose seat holds no slot before and after it.
pub(crate) fn turn<R: Wait>(
    custody: &Custody<Boxed>,
    rt: &R,
    seat: &mut Seat<Boxed>,
    number: u32,
    cmd: Cmd,
) -> Result<Reply, Memory>
    requires { MayTurn custody.now seat.old number cmd }
    ensures { MatchResult result (Turned seat.old seat.new number cmd)
        (λ _. Stayed seat.old seat.new number cmd) }
{
    match change_of(cmd) {
        Change::Takes(kind) => Ok(make(custody, rt, seat, number, cmd, kind)),
        Change::Adds => Ok(add(custody, rt, seat, number, cmd)),
        Change::Frees => Ok(free(custody, rt, seat, number, cmd)),
        Change::GivesBack(kind) => Ok(trim(custody, rt, seat, number, cmd, kind)),
        Change::Keeps => plainly(custody, rt, seat, number, cmd),
    }
}

// A command that leaves the slots as they are.
fn plainly<R: Wait>(
    custody: &Custody<Boxed>,
    rt: &R,
    seat: &mut Seat<Boxed>,
    number: u32,
    cmd: Cmd,
) -> Result<Reply, Memory>
    requires turn { MayTurn custody.now seat.old number cmd }
    requires keeps { change_of cmd ≡ Keeps }
    ensures { MatchResult result (Turned seat.old seat.new number cmd)
        (λ _. Stayed seat.old seat.new number cmd) }
{
    let mut world = custody.enter(rt, seat);
    let done = world.step(number, cmd, None);
    custody.leave(seat, world);
    match done {
        Ok(entry) => Ok(entry.reply),
        Err(Memory) => Err(Memory),
    }
}

// `hnew`: a slot is looked for before the gate; where none was found, the table may grow.
fn make<R: Wait>(
    custody: &Custody<Boxed>,
    rt: &R,
    seat: &mut Seat<Boxed>,
    number: u32,
    cmd: Cmd,
    kind: Kind,
) -> Reply
    requires turn { MayTurn custody.now seat.old number cmd }
    requires takes { change_of cmd ≡ Takes kind }
    ensures { Turned seat.old seat.new number cmd result }
{
    let offer = look_before(custody, seat, kind);
    let mut found = custody.enter(rt, seat);
    let entry = step_surely(&mut found, number, cmd, offer);
    grant_blocks(custody, seat, kind, entry.grown);
    custody.leave(seat, found);
    entry.reply
}

// Looks for a slot of a kind before the gate is taken.
fn look_before(custody: &Custody<Boxed>, seat: &mut Seat<Boxed>, kind: Kind) -> Option<Slot>
    requires seat { seat.old.table ≡ custody.now.table }
    requires gate { seat.old.view.has_gate ≡ false }
    ensures table { seat.new.table ≡ seat.old.table }
    ensures looked { let held = ⟦<Boxed as Held>⟧ in let blocks = custody.now.blocks in
        Looked held kind blocks result seat.old.view seat.new.view }
{
    custody.allocate(seat, kind)
}

// `cadd`: whether it needs a slot is asked with the gate. Where it does, one is looked for then;
// where none was found, the table may grow.
fn add<R: Wait>(
    custody: &Custody<Boxed>,
    rt: &R,
    seat: &mut Seat<Boxed>,
    number: u32,
    cmd: Cmd,
) -> Reply
    requires turn { MayTurn custody.now seat.old number cmd }
    requires adds { change_of cmd ≡ Adds }
    ensures { Turned seat.old seat.new number cmd result }
{
    let mut world = custody.enter(rt, seat);
    let needs = world.needs_slot(number, cmd);
    let offer = look(custody, seat, needs);
    let entry = step_surely(&mut world, number, cmd, offer);
    grant_blocks(custody, seat, Kind::Dependent, entry.grown);
    custody.leave(seat, world);
    entry.reply
}

// Looks for a slot of kind dependent, where one is needed.
fn look(custody: &Custody<Boxed>, seat: &mut Seat<Boxed>, needs: bool) -> Option<Slot>
    requires seat { seat.old.table ≡ custody.now.table }
    ensures table { seat.new.table ≡ seat.old.table }
    ensures looked { let held = ⟦<Boxed as Held>⟧ in let blocks = custody.now.blocks in
        LooksWhere held needs blocks result seat.old.view seat.new.view }
{
    if needs {
        custody.allocate(seat, Kind::Dependent)
    } else {
        None
    }
}

// `hfree`: the slot is released after the gate.
fn free<R: Wait>(
    custody: &Custody<Boxed>,
    rt: &R,
    seat: &mut Seat<Boxed>,
    number: u32,
    cmd: Cmd,
) -> Reply
    requires turn { MayTurn custody.now seat.old number cmd }
    requires frees { change_of cmd ≡ Frees }
    ensures { Turned seat.old seat.new number cmd result }
{
    let mut world = custody.enter(rt, seat);
    let entry = step_surely(&mut world, number, cmd, None);
    let freed = freed(&world, entry.slot);
    custody.leave(seat, world);
    release_freed(custody, seat, freed);
    entry.reply
}

// `trim`: a block whose slots are all free is looked for before the gate.
fn trim<R: Wait>(
    custody: &Custody<Boxed>,
    rt: &R,
    seat: &mut Seat<Boxed>,
    number: u32,
    cmd: Cmd,
    kind: Kind,
) -> Reply
    requires turn { MayTurn custody.now seat.old number cmd }
    requires gives_back { change_of cmd ≡ GivesBack kind }
    ensures { Turned seat.old seat.new number cmd result }
{
    let block = custody.gather(seat, kind);
    let mut world = custody.enter(rt, seat);
    let first = first_slot(block);
    let entry = step_surely(&mut world, number, cmd, first);
    withdraw(custody, seat, block);
    custody.leave(seat, world);
    entry.reply
}

// Returns the words by which blocks the table grew for a kind, if it grew.
fn grant_blocks(custody: &Custody<Boxed>, seat: &mut Seat<Boxed>, kind: Kind, grown: Grown)
    requires seat { seat.old.table ≡ custody.now.table }
    requires gate { seat.old.view.has_gate ≡ true }
    requires grows { grown ≢ Grown.Zero → GrowsByBlocks (is_paired kind) grown }
    requires blocks { grown ≢ Grown.Zero → MayGrant ⟦<Boxed as Held>⟧ custody.now.blocks
        (handle_block grown) (extra_block grown) seat.old.view }
    ensures { seat.new ≡ record seat.old {
      view = with_grown (kind_number kind) grown seat.old.view;
    } }
{
    match grown {
        Grown::Zero => {}
        Grown::One(_) | Grown::Two(..) | Grown::Back(_) => custody.grant(seat, kind, grown),
    }
}

// What is offered where a block was gathered: its first slot.
fn first_slot(block: Option<u32>) -> Option<Slot>
    requires { IfSome block (λ b. b ≤ BLOCKS) }
    ensures { result ≡ option_map first_slot block }
{
    let block = block?;
    Some(Slot(block * ROWS))
}

// Takes the kind of a block that was gathered, if one was.
fn withdraw(custody: &Custody<Boxed>, seat: &mut Seat<Boxed>, block: Option<u32>)
    requires seat { seat.old.table ≡ custody.now.table }
    requires gate { seat.old.view.has_gate ≡ true }
    requires all { IfSome block (λ b. (r : ℕ) → r < ROWS
        → Has (ROWS * b + r) seat.old.view.held) }
    ensures { seat.new ≡ record seat.old { view = without_gathered block seat.old.view } }
{
    if let Some(block) = block {
        custody.withdraw(seat, block);
    }
}

// The slot that an entry freed, if it freed one, with the kind of its block.
fn freed(world: &Boxed, slot: Option<Slot>) -> Option<(Slot, Kind)>
    ensures { result ≡ freed_in world.now.state slot }
{
    let slot = slot?;
    let kind = world.inside.kind_of(slot)?;
    Some((slot, kind))
}

// Releases the slot that was freed, if one was.
fn release_freed(custody: &Custody<Boxed>, seat: &mut Seat<Boxed>, freed: Option<(Slot, Kind)>)
    requires seat { seat.old.table ≡ custody.now.table }
    requires slot { IfSome freed (λ f. HasAs (f.0.0, kind_number f.1 + 1) seat.old.view.held) }
    ensures table { seat.new.table ≡ seat.old.table }
    ensures gone { ReleasesFreed custody.now.blocks freed seat.old.view seat.new.view }
{
    if let Some((slot, kind)) = freed {
        custody.release(seat, kind, slot);
    }
}

// A step of a command that takes no memory.
fn step_surely(world: &mut Boxed, number: u32, cmd: Cmd, offer: Option<Slot>) -> Entry
    requires step { MayApply world.old number cmd offer }
    requires memory { takes_memory cmd ≡ false }
    ensures { Stepped world.old world.new number cmd offer result }
{
    match world.step(number, cmd, offer) {
        Ok(entry) => entry,
        Err(Memory) => unreachable!(),
    }
}
