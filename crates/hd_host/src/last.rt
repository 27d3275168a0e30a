// What the last call did, as a host keeps it.
ghost use Rattle.std.specs.Prelude.{◌≡◌, ◌<◌, ◌+◌, ◌^◌};
ghost use Rattle.hd_host.specs.{Changes.change_by, Changes.no_change, Changes.short_of, Inside.Settled};

use crate::change::Change;
use crate::fault::Fault;
use hd_model::{Grown, Refusal, Slot};
use std::marker::Model;

/// What the last call that was done did to slots and blocks, as who keeps it has it. Most calls
/// change nothing, and write one word.
#[derive(Drop)]
pub struct Last {
    // A change in short, as a word, which is copied by one move.
    short: u64,
    // The last change of blocks.
    blocks: Change,
}

/// A change in short.
pub(crate) enum Short {
    Nothing,
    /// Blocks changed, as they last did.
    Blocks,
    /// A slot was given or freed.
    Slot(Slot),
}

// The words of the first two. That of a slot is the slot's number and 2.
const NOTHING: u64 = 0;

const BLOCKS: u64 = 1;

impl Short {
    // Its word.
    #[inline(always)]
    fn word(self) -> u64
        ensures { short_of result ≡ self }
    {
        match self {
            Short::Nothing => NOTHING,
            Short::Blocks => BLOCKS,
            Short::Slot(slot) => slot.0 as u64 + 2,
        }
    }

    // That of a word.
    #[inline(always)]
    fn of(word: u64) -> Short
        requires { word < 2 ^ 32 + 2 }
        ensures { result ≡ short_of word }
    {
        if word == NOTHING {
            Short::Nothing
        } else if word == BLOCKS {
            Short::Blocks
        } else {
            Short::Slot(Slot((word - 2) as u32))
        }
    }
}

impl Model for Last {
    ghost use Rattle.hd_host.specs.declared.change.Change.{Change};
    ghost use Rattle.std.specs.Prelude.{◌<◌, ◌+◌, ◌^◌};
    ghost use Rattle.hd_host.specs.{Changes.change_code, Changes.in_full, Changes.short_of};

    ghost Value = { Change };

    ghost coded = { change_code };

    ghost view = { λ l. in_full (short_of l.short) l.blocks };

    ghost invariant = { λ l. l.short < 2 ^ 32 + 2 };
}

impl Last {
    /// That of a call with a change.
    pub fn of(change: Change) -> Last
        ensures { result ≡ change }
    {
        Last {
            short: Short::Blocks.word(),
            blocks: change,
        }
    }

    /// That of a host in which nothing was done.
    pub(crate) fn none() -> Last
        ensures { result ≡ no_change }
    {
        Last {
            short: Short::Nothing.word(),
            blocks: Change::by(None, Grown::Zero),
        }
    }

    /// A call was done that neither gives nor frees a slot.
    #[inline(always)]
    pub(crate) fn clear(&mut self)
        ensures { self.new ≡ no_change }
    {
        self.short = Short::Nothing.word();
    }

    /// A call was done that gave or freed a slot, if any, and took or gave back blocks.
    #[inline(always)]
    pub(crate) fn set(&mut self, slot: Option<Slot>, grown: Grown)
        ensures { self.new ≡ change_by slot grown }
    {
        match (slot, grown) {
            (None, Grown::Zero) => self.clear(),
            (Some(slot), Grown::Zero) => self.short = Short::Slot(slot).word(),
            (_, Grown::One(_) | Grown::Two(..) | Grown::Back(_)) => self.put_blocks(slot, grown),
        }
    }

    // A call was done that took or gave back blocks: out of line, since few do.
    #[inline(never)]
    fn put_blocks(&mut self, slot: Option<Slot>, grown: Grown)
        ensures { self.new ≡ change_by slot grown }
    {
        self.put(Change::by(slot, grown));
    }

    /// A call was done with a change.
    pub(crate) fn put(&mut self, change: Change)
        ensures { self.new ≡ change }
    {
        self.blocks = change;
        self.short = Short::Blocks.word();
    }

    /// The same as another.
    #[inline(always)]
    pub(crate) fn set_as(&mut self, other: &Last)
        ensures { self.new ≡ other.now }
    {
        self.short = other.short;
        if other.short == BLOCKS {
            self.blocks = other.blocks;
        }
    }

    /// The change.
    pub fn get(&self) -> Change
        ensures { result ≡ self.now }
    {
        match Short::of(self.short) {
            Short::Nothing => Change::by(None, Grown::Zero),
            Short::Slot(slot) => Change::by(Some(slot), Grown::Zero),
            Short::Blocks => self.blocks,
        }
    }
}

// What a call returns that neither gives nor frees a slot: its value, and then it is the last call
// that was done; or the fault of the refusal.
#[inline(always)]
pub(crate) fn settle<T>(last: &mut Last, came: Result<T, Refusal>) -> Result<T, Fault>
    ensures { Settled last.old came last.new result }
{
    match came {
        Ok(value) => {
            last.clear();
            Ok(value)
        }
        Err(refusal) => Err(Fault::of(refusal)),
    }
}
