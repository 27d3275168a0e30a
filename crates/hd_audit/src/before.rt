// What is known before a line of a text, and what is due there.
ghost use Rattle.std.specs.Prelude.{◌≡◌, ℕ, ◌+◌, ◌<◌, ◌≤◌, ◌↔◌, ◌⊎◌, ◌++◌, true, length, take, drop, Some, None, IfOk, IfSome, IfNone, IsTrue, IsSome};
ghost use Rattle.std.specs.FinMap.{get};
ghost use Rattle.std.specs.Option.{option_to_list};
ghost use Rattle.hd_model.specs.declared.limits.TheConstants.{BLOCKS, FIELDS, HEADER};
ghost use Rattle.hd_model.specs.declared.command.Cmd.TheVariants.{AddrOf, CAdd};
ghost use Rattle.hd_model.specs.Command.{idle_slot};
ghost use Rattle.hd_model.specs.RunTexts.{AreRight, cut_lines};
ghost use Rattle.hd_model.specs.State.{IsFree, IsAllFree, handles_of, given_of, handle_at, object_by_id, size_of, use_of};
ghost use Rattle.hd_model.specs.Step.{IsLeastUnused};
ghost use Rattle.hd_model.specs.Valid.{IsValid};
ghost use Rattle.hd_audit.specs.RightVerdicts.{numbers_of};
ghost use Rattle.hd_audit.specs.Before.{due_of, end_after, number_of, pinned_cells, AreTaken, IsBefore, IsGrowthFor, MayHave};
ghost use Rattle.hd_plain.specs.OneEntry.{has_one_step, HasOne};

use crate::entry_choice::{Entries, PinnedCells};
use crate::lines::{Progress, cut_line};
use hd_commands::on_handles::pinned_in;
use hd_commands::{Done, Parts, entry_of};
use hd_model::limits::HEADER;
use hd_model::{Cmd, Entry, Grown, Id, Kind, Memory, Refusal, Reply, Slot};
use hd_plain::{is_all_free, is_free};
use hd_print::{Line, end_line};
use hd_script::Scripts;
use std::alloc::Global;
use std::marker::Model;

/// What is known after some lines of a text: the state that they lead to, which commands are left,
/// and whether the end line was among them.
#[derive(Drop)]
pub struct Before<'a> {
    scripts: &'a Scripts,
    judged: Progress,
    is_ended: bool,
    rest: &'a [u8],
}

impl<'a> Model for Before<'a> {
    ghost use Rattle.hd_audit.specs.Known.{Known, known_code, known_of};
    ghost use Rattle.hd_audit.specs.Inside.{HasLines};

    ghost Value = { Known };

    ghost coded = { known_code };

    ghost view = { λ b. known_of b.scripts.now b.judged b.is_ended b.rest.now };

    ghost invariant = { λ b. HasLines b.scripts.now b.judged };
}

/// What is known after the first `count` lines of a text, which are right. It fails for memory
/// alone, and no clause says when.
pub fn state_after<'a>(
    alloc: Global,
    scripts: &'a Scripts,
    text: &'a [u8],
    heap: u32,
    blocks: u32,
    count: u32,
) -> Result<Before<'a>, Memory>
    requires blocks { blocks ≤ BLOCKS }
    requires within { count ≤ length (cut_lines text.now) }
    requires right { AreRight (numbers_of scripts.now heap blocks) scripts.now
        (take count (cut_lines text.now)) }
    ensures known { let n = numbers_of scripts.now heap blocks in
        IfOk result (IsBefore n scripts.now (take count (cut_lines text.now))) }
    ensures rest { IfOk result (λ k. cut_lines k.rest ≡ drop count (cut_lines text.now)) }
{
    let mut judged = Progress::open(alloc, scripts, heap, blocks)?;
    let mut rest = text;
    let mut number = 0;
    'lines: while number < count && judged.left > 0 {
        let (line, after) = cut_line(rest);
        judged.take_line(scripts, line)?;
        rest = after;
        number += 1;
    }
    if number == count {
        return Ok(Before {
            scripts,
            judged,
            is_ended: false,
            rest,
        });
    }
    let (_end, after) = cut_line(rest);
    Ok(Before {
        scripts,
        judged,
        is_ended: true,
        rest: after,
    })
}

impl<'a> Before<'a> {
    /// The bytes after the lines.
    pub fn rest(&self) -> &[u8]
        ensures { result.now ≡ self.now.rest }
    {
        self.rest
    }

    /// Whether the end line was among the lines.
    pub fn is_ended(&self) -> bool
        ensures { result ≡ self.now.ended }
    {
        self.is_ended
    }

    /// The number of commands that all callers have left.
    pub fn left(&self) -> u32
        ensures { result ≡ self.now.left }
    {
        self.judged.left
    }

    /// The number of callers.
    pub fn callers(&self) -> u32
        ensures value { result ≡ self.now.numbers.callers }
        ensures lists { result ≡ length self.now.lists }
    {
        self.scripts.callers()
    }

    /// The command of a caller that is due, if it has one left. The caller may be any number.
    pub fn due(&self, caller: u32) -> Option<Cmd>
        ensures command { result ≡ due_of self.now caller }
        ensures valid { IfSome result IsValid }
        ensures known { IsSome result → caller < self.now.numbers.callers }
    {
        self.judged.next(self.scripts, caller)
    }

    /// The number that the next entry of a caller has among that caller's.
    pub fn number(&self, caller: u32) -> u32
        requires { caller < self.now.numbers.callers }
        ensures { result ≡ number_of self.now caller }
    {
        self.judged.done[caller as usize] + 1
    }

    /// The end line of a run that ends here.
    pub fn end_line(&self) -> Line
        ensures { result ≡ end_after self.now }
    {
        let machine = &self.judged.machine;
        let objects = machine.objects.len() as u32;
        end_line(machine.table.len(), objects, self.judged.collections)
    }

    /// The entries that a command of a caller may have.
    pub fn entries(&self, caller: u32, cmd: Cmd) -> Entries
        requires caller { caller < self.now.numbers.callers }
        requires valid { IsValid cmd }
        ensures { MayHave self.now.numbers self.now.state caller cmd result }
    {
        match cmd {
            Cmd::HNew { d: _, make, t: _ } => Entries::InSlot(make.kind()),
            Cmd::Trim { kind } => Entries::OfBlock(kind),
            Cmd::CAdd { k, v } => self.adding_entries(caller, k, v),
            Cmd::AddrOf { s } => self.address_entries(caller, s),
            Cmd::New { .. }
            | Cmd::Set { .. }
            | Cmd::Get { .. }
            | Cmd::Val { .. }
            | Cmd::Read { .. }
            | Cmd::Copy { .. }
            | Cmd::Clear { .. }
            | Cmd::SPut { .. }
            | Cmd::SGet { .. }
            | Cmd::Gen { .. }
            | Cmd::Suppress { .. }
            | Cmd::Reregister { .. }
            | Cmd::Final { .. }
            | Cmd::Collect { .. }
            | Cmd::HGet { .. }
            | Cmd::HSet { .. }
            | Cmd::HSec { .. }
            | Cmd::HDep { .. }
            | Cmd::HVar { .. }
            | Cmd::HFree { .. }
            | Cmd::HPut { .. }
            | Cmd::HPick { .. }
            | Cmd::HUp { .. }
            | Cmd::HDown { .. }
            | Cmd::CFind { .. }
            | Cmd::CRemove { .. }
            | Cmd::GcRoot { .. } => Entries::OfTheStep,
        }
    }

    // Those of a `cadd`: it is refused, or an idle slot gets the entry, or a new one.
    fn adding_entries(&self, caller: u32, k: u8, v: u8) -> Entries
        requires caller { caller < self.now.numbers.callers }
        requires valid { IsValid (CAdd k v) }
        ensures { MayHave self.now.numbers self.now.state caller (CAdd k v) result }
    {
        let machine = &self.judged.machine;
        let cmd = Cmd::CAdd { k, v };
        let Some(key) = machine.register(caller, k) else {
            return Entries::One(entry_of(caller, cmd, Err(Refusal::Null)));
        };
        if machine.slot_of(key).is_some() {
            return Entries::One(entry_of(caller, cmd, Err(Refusal::Present)));
        }
        match machine.idle() {
            Some(slot) => {
                let done = Done::in_slot(slot, Grown::Zero);
                Entries::One(entry_of(caller, cmd, Ok(done)))
            }
            None => Entries::InSlot(Kind::Dependent),
        }
    }

    // Those of an `addr`: it is refused, or returns the pinned address of an object, or a free one.
    fn address_entries(&self, caller: u32, s: u8) -> Entries
        requires caller { caller < self.now.numbers.callers }
        requires valid { IsValid (AddrOf s) }
        ensures { MayHave self.now.numbers self.now.state caller (AddrOf s) result }
    {
        let machine = &self.judged.machine;
        let cmd = Cmd::AddrOf { s };
        let id = match pinned_in(machine, caller, s) {
            Ok(id) => id,
            Err(refusal) => return Entries::One(entry_of(caller, cmd, Err(refusal))),
        };
        match machine.pinned.of(id) {
            Some(own) => {
                let done = Done::of(Reply::Place(own));
                Entries::One(entry_of(caller, cmd, Ok(done)))
            }
            None => Entries::AtAddress(id),
        }
    }

    /// The one entry of a command that is found by making the step. What was known is gone then. It
    /// fails for memory alone, and no clause says when.
    pub fn entry(self, caller: u32, cmd: Cmd) -> Result<Entry, Memory>
        requires caller { caller < self.numbers.callers }
        requires valid { IsValid cmd }
        requires one { has_one_step cmd ≡ true }
        ensures { IfOk result (HasOne self.entry.numbers self.entry.state caller cmd) }
    {
        let mut judged = self.judged;
        judged.machine.settle(caller, cmd)
    }

    /// The number of blocks that there may be.
    pub fn blocks(&self) -> u32
        ensures value { result ≡ self.now.numbers.blocks }
        ensures limit { result ≤ BLOCKS }
        ensures used { (block : ℕ) → IsSome (use_of self.now.state block) → block ≤ result }
    {
        self.judged.machine.table.blocks()
    }

    /// The number of blocks that have a use.
    pub fn given(&self) -> u32
        ensures value { result ≡ given_of self.now.state }
        ensures few { result ≤ BLOCKS + 1 }
    {
        self.judged.machine.table.given()
    }

    /// Whether a block, which may be any number, has handles of a kind.
    pub fn is_of(&self, kind: Kind, block: u32) -> bool
        ensures { IsTrue result ↔ (use_of self.now.state block ≡ Some (handles_of kind)) }
    {
        self.judged.machine.table.is_of(kind, block)
    }

    /// Whether a block, which may be any number, has a use.
    pub fn has_use(&self, block: u32) -> bool
        ensures { IsTrue result ↔ IsSome (use_of self.now.state block) }
    {
        self.judged.machine.table.use_of(block).is_some()
    }

    /// Whether a slot, which may be any number, has a handle, or the weak table holds it.
    pub fn is_taken(&self, slot: Slot) -> bool
        ensures { IsTrue result
            ↔ (IsSome (handle_at self.now.state slot) ⊎ IsSome (get self.now.state.weak slot.0)) }
    {
        let machine = &self.judged.machine;
        machine.handle(slot).is_some() || machine.weak.at(u64::from(slot.0)).is_some()
    }

    /// Whether a slot, which may be any number, is a free one of a kind.
    pub fn is_free(&self, kind: Kind, slot: Slot) -> bool
        ensures { IsTrue result ↔ IsFree self.now.state kind slot }
    {
        is_free(&self.judged.machine, kind, slot)
    }

    /// The least idle slot of the weak table.
    pub fn idle(&self) -> Option<Slot>
        ensures { result ≡ idle_slot self.now.state }
    {
        self.judged.machine.weak.idle()
    }

    /// Whether all slots of a block, which may be any number, are free ones of a kind.
    pub fn is_all_free(&self, kind: Kind, block: u32) -> bool
        ensures { IsTrue result ↔ IsAllFree self.now.state kind block }
    {
        is_all_free(&self.judged.machine, kind, block)
    }

    /// The least block from a number on that has no use.
    pub fn least_unused(&self, from: u32) -> Option<u32>
        ensures found { IfSome result (IsLeastUnused self.now.numbers self.now.state from) }
        ensures none { IfNone result ((block : ℕ) → from ≤ block
            → block ≤ self.now.numbers.blocks → IsSome (use_of self.now.state block)) }
        ensures few { IfSome result (λ block. block ≤ BLOCKS) }
    {
        self.judged.machine.table.least_unused(from)
    }

    /// The blocks by which the table grows for a kind: none where too few have no use.
    pub fn growth(&self, kind: Kind) -> Grown
        ensures { IsGrowthFor self.now.numbers self.now.state kind result }
    {
        let Some(block) = self.least_unused(1) else {
            return Grown::Zero;
        };
        if !kind.paired() {
            return Grown::One(block);
        }
        match self.least_unused(block + 1) {
            Some(other) => Grown::Two(block, other),
            None => Grown::Zero,
        }
    }

    /// The cells of an object: of an identity that none has, those of one without fields.
    pub fn size(&self, id: Id) -> u32
        ensures value { result ≡ size_of (object_by_id self.now.state id) }
        ensures few { result ≤ FIELDS + HEADER }
    {
        self.judged.machine.fields(id) as u32 + HEADER
    }

    /// The cells of all objects that have pinned addresses, in rising address. It fails for memory
    /// alone.
    pub fn pinned_cells(&self, alloc: Global) -> Result<Vec<PinnedCells>, Memory>
        ensures { IfOk result (λ cells. AreTaken self.now.state cells.items) }
    {
        let mut cells = Vec::new(alloc);
        let ids = self.judged.machine.pinned.ids_by_address(alloc)?;
        for id in &ids {
            self.push_cells(Id(*id), &mut cells)?;
        }
        Ok(cells)
    }

    // Appends the cells of an object, where it has a pinned address.
    fn push_cells(&self, id: Id, cells: &mut Vec<PinnedCells>) -> Result<(), Memory>
        ensures { IfOk result (λ _. cells.new.items
            ≡ cells.old.items ++ option_to_list (pinned_cells self.now.state id)) }
    {
        let Some(first) = self.judged.machine.pinned.of(id) else {
            return Ok(());
        };
        let count = self.size(id);
        match cells.push(PinnedCells { first, count }) {
            Ok(_) => Ok(()),
            Err(_) => Err(Memory),
        }
    }
}
