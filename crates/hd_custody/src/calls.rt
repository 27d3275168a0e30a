//! Slots by the cache and the masks: the calls that take neither the gate nor memory.
ghost use Rattle.std.specs.Prelude.{◌≡◌, ◌≢◌, ◌↔◌, ℕ, zero, ◌+◌, ◌*◌, ◌/◌, ◌%◌, ◌<◌, ◌≤◌, true, false, ◌==◌, cond};
ghost use Rattle.std.specs.Prelude.{List, [], ◌∷◌, ◌++◌, IfSome, IsNone, Some, None};
ghost use Rattle.std.specs.Int.{bit_at};
ghost use Rattle.hd_model.specs.Kinds.{kind_number};
ghost use Rattle.hd_custody.specs.Counts.{slot_block, IsSlot, held_times, HasAs, Has, with_slot, put_out, without, without_rows, rows};
ghost use Rattle.hd_custody.specs.{Inside.Kinded, Views.Fresh, Views.KindIs};
ghost use Rattle.hd_custody.specs.Traces.{probe, look, again, sweep, push, found, missed, to_look, to_bank, to_sweep, to_look_whole};
ghost use Rattle.hd_custody.specs.Traces.{every_row, look_whole, back_part};
ghost use Rattle.hd_custody.specs.Misses.{WholeMiss};
ghost use Rattle.hd_custody.specs.Calls.{slot_number, Allocates, Releases, Gathers};
ghost use Rattle.hd_custody.specs.Inside.{IsBlock, HasRowsAs, found_or, with_block, pushed_to, swept_to, drained_to, into_mask, calling, went, Made, Banked, Offers};

use crate::types::{ActingSeat, Custody, Seat};
use crate::words::{BANK, CACHE, probed, pushed, reserved, slot_block, slot_row, swept};
use hd_mask::{bit, lowest};
use hd_model::limits::{BLOCKS, KINDS, ROWS};
use hd_model::{Held, Kind, Slot};

// The mask of all rows of a block.
const ALL_ROWS: u64 = u64::MAX;

impl<W: Held> Custody<W> {
    /// A slot of the kind that no seat held, and that this one holds now: from the kind's quick
    /// word, its cells, or the mask of a block, which then fills the reserve cells. `None` comes
    /// where all of these gave none, also while others carry slots between them. It takes at most
    /// 1,214 steps, and no gate.
    pub fn allocate(&self, seat: &mut Seat<W>, kind: Kind) -> Option<Slot>
        requires seat { seat.old.table ≡ self.now.table }
        ensures table { seat.new.table ≡ seat.old.table }
        ensures done { Allocates (kind_number kind) self.now.blocks (slot_number result)
            seat.old.view seat.new.view }
        ensures none { IsNone result ↔ WholeMiss (kind_number kind) self.now.blocks
            seat.new.view.trace }
        ensures fresh { IfSome result (λ slot. Fresh W.Held seat.old.view slot.0) }
        ensures kind { IfSome result (λ slot. KindIs W.Held seat.old.view (slot_block slot.0)
            (kind_number kind + 1)) }
    {
        // Read for the proof alone: it states the number of blocks.
        let _blocks = self.blocks;
        let slot = self.find(&mut seat.caller, kind.number());
        if slot == 0 {
            None
        } else {
            Some(Slot(slot as u32))
        }
    }

    fn find(&self, caller: &mut ActingSeat<W>, kind: u32) -> u64
        requires seat { caller.old.table ≡ self.now.table }
        requires kind { kind < KINDS }
        requires kinded { Kinded caller.old.view.held }
        ensures made { Made kind self.now.blocks (probe 0) (found_or missed result)
            (with_slot result (kind + 1) caller.old.view.held) (calling caller.old) caller.new }
        ensures offers { Offers W.Held kind caller.old.view result }
    {
        let slot = self.probe(caller, kind);
        if slot != 0 {
            return slot;
        }
        self.search(caller, kind)
    }

    // The quick word and the cells, one after another.
    fn probe(&self, caller: &mut ActingSeat<W>, kind: u32) -> u64
        requires seat { caller.old.table ≡ self.now.table }
        requires kind { kind < KINDS }
        ensures made { Made kind self.now.blocks (probe 0)
            (found_or (to_look self.now.blocks 1) result)
            (with_slot result (kind + 1) caller.old.view.held) (calling caller.old) caller.new }
        ensures offers { Offers W.Held kind caller.old.view result }
    {
        let first = self.begin(caller, probed(kind, 0), 0);
        if first != 0 {
            return first;
        }
        for n in 1..CACHE {
            let slot = self.exchange(caller, probed(kind, n), 0);
            if slot != 0 {
                return slot;
            }
        }
        0
    }

    // The masks of the blocks, one after another.
    fn search(&self, caller: &mut ActingSeat<W>, kind: u32) -> u64
        requires seat { caller.old.table ≡ self.now.table }
        requires kind { kind < KINDS }
        requires kinded { Kinded caller.old.view.held }
        ensures made { Made kind self.now.blocks (to_look self.now.blocks 1)
            (found_or missed result)
            (with_slot result (kind + 1) caller.old.view.held) caller.old caller.new }
        ensures offers { Offers W.Held kind caller.old.view result }
    {
        for block in 1..self.blocks + 1 {
            let slot = self.take_from(caller, kind, block);
            if slot != 0 {
                return slot;
            }
        }
        0
    }

    // One block: where it is of the kind and its mask gives something, the least row is returned.
    fn take_from(&self, caller: &mut ActingSeat<W>, kind: u32, block: u32) -> u64
        requires seat { caller.old.table ≡ self.now.table }
        requires kind { kind < KINDS }
        requires block { IsBlock block }
        requires kinded { Kinded caller.old.view.held }
        ensures made { Made kind self.now.blocks (look block)
            (found_or (to_look self.now.blocks (block + 1)) result)
            (with_slot result (kind + 1) caller.old.view.held) caller.old caller.new }
        ensures offers { Offers W.Held kind caller.old.view result }
    {
        let mask = self.take_rows(caller, kind, block);
        let Some(row) = lowest(mask) else {
            return 0;
        };
        let again = self.look(caller, block);
        if again != kind as u64 + 1 {
            // The block lost its kind, or got another, between the two loads.
            self.put_back(caller, block, mask);
            return 0;
        }
        self.share_out(caller, kind, block, mask ^ bit(row));
        ROWS as u64 * block as u64 + row as u64
    }

    // What the mask of a block gave, where the block is of the kind: its slots have no kind yet.
    fn take_rows(&self, caller: &mut ActingSeat<W>, kind: u32, block: u32) -> u64
        requires seat { caller.old.table ≡ self.now.table }
        requires block { IsBlock block }
        requires kinded { Kinded caller.old.view.held }
        ensures fresh { (r : ℕ) → r < ROWS → bit_at result r ≡ 1
            → Fresh W.Held caller.old.view (ROWS * block + r) }
        ensures probed { Made kind self.now.blocks (look block)
            (cond (result == 0) (to_look self.now.blocks (block + 1)) (again block result))
            (rows block result 0 ++ caller.old.view.held) caller.old caller.new }
        ensures gathered { Made kind self.now.blocks (look_whole block)
            (cond (result == 0) (to_look_whole self.now.blocks (block + 1))
            (drained_to block result))
            (rows block result 0 ++ caller.old.view.held) caller.old caller.new }
    {
        if self.look(caller, block) != kind as u64 + 1 {
            return 0;
        }
        self.drain(caller, block)
    }

    // The rows of a block go into the reserve cells, and what is left after the last cell goes back
    // into the mask.
    fn share_out(&self, caller: &mut ActingSeat<W>, kind: u32, block: u32, mask: u64)
        requires seat { caller.old.table ≡ self.now.table }
        requires kind { kind < KINDS }
        requires block { IsBlock block }
        requires rows { HasRowsAs block mask (kind + 1) caller.old.view.held }
        ensures made { (slot : ℕ) → Made kind self.now.blocks (to_bank block slot 0 mask)
            (found slot) (without_rows block mask caller.old.view.held) caller.old caller.new }
    {
        let left = self.fill_cells(caller, kind, block, mask);
        if left != 0 {
            self.put_back(caller, block, left);
        }
    }

    // Offers the rows to the reserve cells, one to each, and returns those that are left.
    fn fill_cells(&self, caller: &mut ActingSeat<W>, kind: u32, block: u32, mask: u64) -> u64
        requires seat { caller.old.table ≡ self.now.table }
        requires kind { kind < KINDS }
        requires block { IsBlock block }
        requires rows { HasRowsAs block mask (kind + 1) caller.old.view.held }
        ensures banked { Banked kind self.now.blocks block (0, mask) (BANK, result) caller.old
            caller.new }
    {
        let mut left = mask;
        for i in 0..BANK {
            left = self.offer(caller, kind, block, i, left);
        }
        left
    }

    // Offers the least row that is left, if there is one, to one reserve cell.
    fn offer(&self, caller: &mut ActingSeat<W>, kind: u32, block: u32, i: u32, left: u64) -> u64
        requires seat { caller.old.table ≡ self.now.table }
        requires kind { (kind < KINDS) × (i < BANK) }
        requires block { IsBlock block }
        requires rows { HasRowsAs block left (kind + 1) caller.old.view.held }
        ensures banked { Banked kind self.now.blocks block (i, left) (i + 1, result) caller.old
            caller.new }
    {
        let Some(next) = lowest(left) else {
            return left;
        };
        let slot = ROWS as u64 * block as u64 + next as u64;
        if !self.bank(caller, reserved(kind, i), slot) {
            return left;
        }
        left ^ bit(next)
    }

    /// Puts a slot held, of this kind, where others can take it: into the kind's quick word,
    /// whose slot goes into a free cell, whose slot goes into the next, and the last into the mask
    /// of its block. It takes at most 65 steps, and no gate.
    pub fn release(&self, seat: &mut Seat<W>, kind: Kind, slot: Slot)
        requires seat { seat.old.table ≡ self.now.table }
        requires slot { HasAs (slot.0, kind_number kind + 1) seat.old.view.held }
        ensures table { seat.new.table ≡ seat.old.table }
        ensures done { Releases (kind_number kind) self.now.blocks slot.0 seat.old.view
            seat.new.view }
    {
        // Read for the proof alone: it states the number of blocks.
        let _blocks = self.blocks;
        self.release_of_kind(&mut seat.caller, kind.number(), slot.0 as u64);
    }

    fn release_of_kind(&self, caller: &mut ActingSeat<W>, kind: u32, slot: u64)
        requires seat { caller.old.table ≡ self.now.table }
        requires kind { kind < KINDS }
        requires slot { (ROWS ≤ slot) × HasAs (slot, kind + 1) caller.old.view.held }
        ensures made { Made kind self.now.blocks (push 0 slot) (found 0)
            (without slot caller.old.view.held) (calling caller.old) caller.new }
    {
        let left = self.push(caller, kind, slot);
        if left != 0 {
            self.put_slot_back(caller, left);
        }
    }

    // A slot goes into the mask of its block.
    fn put_slot_back(&self, caller: &mut ActingSeat<W>, slot: u64)
        requires seat { caller.old.table ≡ self.now.table }
        requires slot { IsSlot slot × Has slot caller.old.view.held }
        ensures view { (there : ℕ) × (caller.new ≡ went (without slot caller.old.view.held)
            (into_mask slot there ∷ []) caller.old) }
    {
        self.put_back(caller, slot_block(slot), bit(slot_row(slot)));
    }

    // The slot goes into the quick word, what was there into a free cell, and so on: what is left.
    fn push(&self, caller: &mut ActingSeat<W>, kind: u32, slot: u64) -> u64
        requires seat { caller.old.table ≡ self.now.table }
        requires kind { kind < KINDS }
        requires slot { (ROWS ≤ slot) × HasAs (slot, kind + 1) caller.old.view.held }
        ensures left { result ≢ 0 → IsSlot result
            × (held_times result (without slot caller.old.view.held) ≡ 0) }
        ensures made { Made kind self.now.blocks (push 0 slot) (pushed_to ROWS result)
            (with_slot result (kind + 1) (without slot caller.old.view.held)) (calling caller.old)
            caller.new }
    {
        let mut left = self.begin(caller, pushed(kind, 0), slot);
        for n in 1..ROWS {
            if left == 0 {
                return left;
            }
            left = self.exchange(caller, pushed(kind, n), left);
        }
        left
    }

    /// A block of the kind, all of whose slots now are held: all that the kind's cache has
    /// goes into the masks, and a mask of all rows is taken. `None` comes where no block's was so.
    /// It takes at most 1,278 steps, and no gate.
    pub fn gather(&self, seat: &mut Seat<W>, kind: Kind) -> Option<u32>
        requires seat { seat.old.table ≡ self.now.table }
        ensures table { seat.new.table ≡ seat.old.table }
        ensures done { Gathers (kind_number kind) self.now.blocks result seat.old.view
            seat.new.view }
        ensures block { IfSome result (λ b. (0 < b) × (b ≤ self.now.blocks) × (b < BLOCKS + 1)) }
    {
        // Read for the proof alone: it states the number of blocks.
        let _blocks = self.blocks;
        let block = self.collect(&mut seat.caller, kind.number());
        if block == 0 { None } else { Some(block) }
    }

    fn collect(&self, caller: &mut ActingSeat<W>, kind: u32) -> u32
        requires seat { caller.old.table ≡ self.now.table }
        requires kind { kind < KINDS }
        requires kinded { Kinded caller.old.view.held }
        ensures block { result ≤ self.now.blocks }
        ensures made { Made kind self.now.blocks (sweep 0) (found_or missed result)
            (with_block result (kind + 1) caller.old.view.held) (calling caller.old) caller.new }
    {
        self.empty_cache(caller, kind);
        for block in 1..1 + self.blocks {
            if self.take_whole(caller, kind, block) {
                return block;
            }
        }
        0
    }

    // All that the cache has goes into the masks.
    fn empty_cache(&self, caller: &mut ActingSeat<W>, kind: u32)
        requires seat { caller.old.table ≡ self.now.table }
        requires kind { kind < KINDS }
        ensures made { Made kind self.now.blocks (sweep 0) (to_look_whole self.now.blocks 1)
            caller.old.view.held (calling caller.old) caller.new }
    {
        let first = self.begin(caller, swept(kind, 0), 0);
        self.settle(caller, first);
        for n in 1..CACHE {
            let slot = self.exchange(caller, swept(kind, n), 0);
            self.settle(caller, slot);
        }
    }

    // A slot that came from the cache goes into its mask.
    fn settle(&self, caller: &mut ActingSeat<W>, slot: u64)
        requires seat { caller.old.table ≡ self.now.table }
        requires slot { slot ≢ 0 → IsSlot slot × Has slot caller.old.view.held }
        ensures made { (k n : ℕ) → Made k self.now.blocks (swept_to self.now.blocks n slot)
            (to_sweep self.now.blocks (n + 1)) (put_out slot caller.old.view.held) caller.old
            caller.new }
    {
        if slot != 0 {
            self.put_slot_back(caller, slot);
        }
    }

    // One block: whether it is of the kind and all its slots came.
    fn take_whole(&self, caller: &mut ActingSeat<W>, kind: u32, block: u32) -> bool
        requires seat { caller.old.table ≡ self.now.table }
        requires block { IsBlock block }
        requires kinded { Kinded caller.old.view.held }
        ensures whole { result ≡ true → Made kind self.now.blocks (look_whole block) (found block)
            (rows block every_row (kind + 1) ++ caller.old.view.held) caller.old caller.new }
        ensures part { result ≡ false → Made kind self.now.blocks (look_whole block)
            (to_look_whole self.now.blocks (block + 1)) caller.old.view.held caller.old caller.new }
    {
        let mask = self.take_rows(caller, kind, block);
        if mask == 0 {
            return false;
        }
        if self.stays_whole(caller, kind, block, mask) {
            return true;
        }
        self.put_back(caller, block, mask);
        false
    }

    // Whether all rows came, and the block still is of the kind.
    fn stays_whole(&self, caller: &mut ActingSeat<W>, kind: u32, block: u32, mask: u64) -> bool
        requires seat { caller.old.table ≡ self.now.table }
        requires block { IsBlock block }
        ensures whole { (h : List (ℕ × ℕ)) → caller.old.view.held ≡ rows block mask 0 ++ h
            → Kinded h → result ≡ true → Made kind self.now.blocks (drained_to block mask)
            (found block) (rows block every_row (kind + 1) ++ h) caller.old caller.new }
        ensures part { (h : List (ℕ × ℕ)) → caller.old.view.held ≡ rows block mask 0 ++ h
            → Kinded h → result ≡ false → (y : ℕ) × Made kind self.now.blocks
            (drained_to block mask) (back_part block mask) (rows block mask y ++ h) caller.old
            caller.new }
    {
        if mask != ALL_ROWS {
            return false;
        }
        self.look(caller, block) == kind as u64 + 1
    }
}
