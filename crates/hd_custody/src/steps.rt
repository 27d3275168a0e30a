//! The single steps on the words, each by a seat whose view says what it may do.
ghost use Rattle.std.specs.Prelude.{◌≡◌, ◌≢◌, ℕ, ◌+◌, ◌*◌, ◌<◌};
ghost use Rattle.std.specs.Bool.{OnTrue, OnFalse};
ghost use Rattle.std.specs.Int.{bit_at};
ghost use Rattle.hd_custody.specs.Counts.{mask_word, cell_kind, IsCell, HasAs};
ghost use Rattle.hd_custody.specs.Views.{begun, swapped, banked, looked, drained, restored, put_in, Fresh, KindIs};
ghost use Rattle.hd_custody.specs.Inside.{IsBlock, HasRows, with_view, Offers};

use crate::plays::{Bank, Begin, Drain, Exchange, Look, PutIn, Return};
use crate::types::{ActingSeat, Custody};
use crate::words::mask_word;
use hd_model::Held;
use hd_model::limits::ROWS;

impl<W: Held> Custody<W> {
    // The first step of a call: an exchange of a quick word or cell.
    pub(crate) fn begin(&self, caller: &mut ActingSeat<W>, word: usize, new: u64) -> u64
        requires seat { caller.old.table ≡ self.now.table }
        requires cell { IsCell word }
        requires slot { new ≢ 0 → HasAs (new, cell_kind word + 1) caller.old.view.held }
        ensures view { caller.new
            ≡ with_view (swapped word result new (begun caller.old.view)) caller.old }
        ensures offers { Offers W.Held (cell_kind word) caller.old.view result }
    {
        self.table
            .shared
            .swap::<Begin>(&mut caller.inner, word, new)
    }

    // An exchange of a quick word or cell.
    pub(crate) fn exchange(&self, caller: &mut ActingSeat<W>, word: usize, new: u64) -> u64
        requires seat { caller.old.table ≡ self.now.table }
        requires cell { IsCell word }
        requires slot { new ≢ 0 → HasAs (new, cell_kind word + 1) caller.old.view.held }
        ensures view { caller.new ≡ with_view (swapped word result new caller.old.view) caller.old }
        ensures offers { Offers W.Held (cell_kind word) caller.old.view result }
    {
        self.table
            .shared
            .swap::<Exchange>(&mut caller.inner, word, new)
    }

    // A compare-exchange of a cell from 0 to a slot: whether the cell has it now.
    pub(crate) fn bank(&self, caller: &mut ActingSeat<W>, word: usize, new: u64) -> bool
        requires seat { caller.old.table ≡ self.now.table }
        requires cell { IsCell word }
        requires slot { new ≢ 0 → HasAs (new, cell_kind word + 1) caller.old.view.held }
        ensures won { OnTrue result
            (caller.new ≡ with_view (banked word 0 new caller.old.view) caller.old) }
        ensures lost { OnFalse result ((there : ℕ) × (there ≢ 0)
            × (caller.new ≡ with_view (banked word there new caller.old.view) caller.old)) }
    {
        let shared = &self.table.shared;
        shared.compare_exchange::<Bank>(&mut caller.inner, word, 0, new) == 0
    }

    // A load of the kind word of a block, whose slots held then have that kind.
    pub(crate) fn look(&self, caller: &mut ActingSeat<W>, block: u32) -> u64
        requires seat { caller.old.table ≡ self.now.table }
        requires block { IsBlock block }
        ensures view { caller.new ≡ with_view (looked block result caller.old.view) caller.old }
        ensures kind { KindIs W.Held caller.old.view block result }
    {
        self.table
            .shared
            .load::<Look>(&mut caller.inner, block as usize)
    }

    // An exchange of a block's mask with 0, whose slots then are held without a kind.
    pub(crate) fn drain(&self, caller: &mut ActingSeat<W>, block: u32) -> u64
        requires seat { caller.old.table ≡ self.now.table }
        requires block { IsBlock block }
        ensures view { caller.new
            ≡ with_view (drained (mask_word block) result caller.old.view) caller.old }
        ensures fresh { (r : ℕ) → r < ROWS → bit_at result r ≡ 1
            → Fresh W.Held caller.old.view (ROWS * block + r) }
    {
        self.table
            .shared
            .swap::<Drain>(&mut caller.inner, mask_word(block), 0)
    }

    // A fetch-or of rows into the mask of their block.
    pub(crate) fn put_back(&self, caller: &mut ActingSeat<W>, block: u32, rows: u64) -> u64
        requires seat { caller.old.table ≡ self.now.table }
        requires block { IsBlock block }
        requires slots { HasRows block rows caller.old.view.held }
        ensures view { caller.new
            ≡ with_view (restored (mask_word block) rows result caller.old.view) caller.old }
    {
        self.table
            .shared
            .fetch_or::<Return>(&mut caller.inner, mask_word(block), rows)
    }

    // The same without a trace.
    pub(crate) fn fill(&self, caller: &mut ActingSeat<W>, block: u32, rows: u64)
        requires seat { caller.old.table ≡ self.now.table }
        requires block { IsBlock block }
        requires slots { HasRows block rows caller.old.view.held }
        ensures view { caller.new
            ≡ with_view (put_in (mask_word block) rows caller.old.view) caller.old }
    {
        self.table
            .shared
            .fetch_or::<PutIn>(&mut caller.inner, mask_word(block), rows);
    }
}
