// The parts of a store, as the commands use them.
ghost use Rattle.std.specs.Prelude.{◌≡◌, ◌<◌, ◌≤◌, length, slice_set, Some, IsSome, option_map};
ghost use Rattle.std.specs.FinMap.{get};
ghost use Rattle.hd_model.specs.{Ages.lowered, State.block_of, State.handle_at, State.with_handle, State.with_handle_register, State.with_object, State.with_register, State.with_static};
ghost use Rattle.hd_commands.specs.Handles.{handle_named, MayBeStored};
ghost use Rattle.hd_model.specs.Handles.{handle_of};
ghost use Rattle.hd_store.specs.{Objects.object_named, Reading.IsNamed, Reading.name_in, Reading.named_in, Store.seen_by};

use crate::contents::{Contents, INDEXES};
use hd_commands::Parts;
use hd_model::limits::{CLUMP, CLUMPS, REGISTERS, ROWS};
use hd_model::{Addr, Handle, Id, Slot};

impl Parts for Contents {
    ghost use Rattle.std.specs.FinMap.{FinMap};
    ghost use Rattle.std.specs.Ordering.{nat_cmp};
    ghost use Rattle.hd_model.specs.declared.data.Id.{Id};
    ghost use Rattle.hd_store.specs.Store.{seen_by};

    type Name = Addr;

    ghost Rest = { FinMap nat_cmp Id };

    ghost seen = { seen_by };

    fn register(&self, caller: u32, d: u8) -> Option<Addr> {
        self.roots[INDEXES * caller as usize + d as usize]
    }

    fn set_register(&mut self, caller: u32, d: u8, v: Option<Addr>)
        requires caller { caller < self.old.numbers.callers }
        requires register { d < REGISTERS }
        requires named { IsNamed self.old.names v }
        ensures { let after = with_register self.old.state caller d (named_in self.old.names v) in
            self.new ≡ record self.old { state = after } }
    {
        self.roots[INDEXES * caller as usize + d as usize] = v;
    }

    fn handle_register(&self, caller: u32, d: u8) -> Option<Slot> {
        let row = &self.handle_registers[caller as usize];
        row[d as usize]
    }

    fn set_handle_register(&mut self, caller: u32, d: u8, v: Option<Slot>)
        requires caller { caller < self.old.numbers.callers }
        requires register { d < REGISTERS }
        ensures { let after = with_handle_register self.old.state caller d v in
            self.new ≡ record self.old { state = after } }
    {
        let row = &mut self.handle_registers[caller as usize];
        row[d as usize] = v;
    }

    fn static_at(&self, k: u8) -> Option<Addr> {
        self.roots[INDEXES * self.handle_registers.len() + k as usize]
    }

    fn set_static(&mut self, k: u8, v: Option<Addr>)
        requires known { k < REGISTERS }
        requires named { IsNamed self.old.names v }
        ensures { let after = with_static self.old.state k (named_in self.old.names v) in
            self.new ≡ record self.old { state = after } }
    {
        let index = INDEXES * self.handle_registers.len() + k as usize;
        self.roots[index] = v;
    }

    fn board_at(&self, k: u8) -> Option<Slot> {
        self.board[k as usize]
    }

    fn set_board(&mut self, k: u8, v: Option<Slot>) {
        self.board[k as usize] = v;
    }

    #[tactic(auto, using(crate::proofs::HeapCallReadings::object_reads))]
    fn id(&self, at: Addr) -> Id {
        self.heap.id(at)
    }

    #[tactic(auto, using(crate::proofs::HeapCallReadings::object_reads))]
    fn fields(&self, at: Addr) -> usize {
        self.heap.fields(at) as usize
    }

    fn field(&self, at: Addr, i: u8) -> Option<Addr> {
        self.heap.load(at, u32::from(i))
    }

    fn set_field(&mut self, at: Addr, i: u8, v: Option<Addr>)
        requires known { IsSome (get self.old.names at.0) }
        requires field { i < length (object_named self.old at).fields }
        requires named { IsNamed self.old.names v }
        ensures { let object = object_named self.old at in
            let fields = slice_set object.fields i (named_in self.old.names v) in
            let after = record object { fields = fields } in
            let state = with_object self.old.state (name_in self.old.names at) after in
            self.new ≡ record self.old { state = state; heap = self.new.heap } }
    {
        self.heap.store(at, u32::from(i), v);
    }

    #[tactic(auto, using(crate::proofs::HeapCallReadings::object_reads))]
    fn value(&self, at: Addr) -> u64 {
        self.heap.value(at)
    }

    fn set_value(&mut self, at: Addr, v: u64) {
        self.heap.set_value(at, v);
    }

    #[tactic(auto, using(crate::proofs::HeapCallReadings::object_reads))]
    fn generation(&self, at: Addr) -> u8 {
        self.heap.generation(at)
    }

    fn set_registered(&mut self, at: Addr, on: bool) {
        self.heap.set_registered(at, on);
    }

    fn next_queued(&mut self) -> Option<Addr> {
        self.queue.pop()
    }

    fn handle(&self, slot: Slot) -> Option<Handle<Addr>> {
        if self.weak.held(slot) {
            return None;
        }
        let row = self.table.row(slot)?;
        let kind = self.table.live_kind(slot);
        Some(Handle {
            kind,
            target: row.target,
            extra: row.extra,
        })
    }

    #[inline(always)]
    fn replace_handle(&mut self, slot: Slot, handle: Handle<Addr>)
        requires live { option_map (λ h. h.kind) (handle_at self.old.state slot)
            ≡ Some handle.kind }
        requires may { MayBeStored (seen_by self.old) slot (handle_of handle) }
        ensures { let named = handle_named (seen_by self.old) handle in
            let after = with_handle self.old.state slot named in
            self.new ≡ record self.old { state = after; table = self.new.table } }
    {
        // In this order the index of the extra is found once where a caller has read it before.
        self.table.set_extra(slot, handle.extra);
        self.table.set_row(slot, handle.target);
    }

    #[inline(always)]
    fn take_handle(&mut self, slot: Slot) {
        self.table.take_row(slot);
    }

    #[inline(always)]
    fn lower_age(&mut self, slot: Slot, g: u8)
        requires low { 1 ≤ block_of slot }
        requires high { block_of slot ≤ self.old.numbers.blocks }
        ensures { self.new ≡ record self.old { ages = lowered self.old.ages slot.0 g } }
    {
        self.ages.lower(slot.0 / ROWS, slot.0 / CLUMP % CLUMPS, g);
    }
}
