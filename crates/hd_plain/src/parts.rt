// The machine's parts, as the commands use them.
ghost use Rattle.std.specs.Prelude.{◌≡◌, ◌<◌, length, slice_set, Some, IsSome, option_map};
ghost use Rattle.std.specs.FinMap.{get};
ghost use Rattle.hd_model.specs.declared.limits.TheConstants.{REGISTERS};
ghost use Rattle.hd_model.specs.State.{handle_at, object_by_id, register_of, with_handle, with_handle_register, with_object, with_register, with_static};
ghost use Rattle.hd_model.specs.Handles.{handle_of};
ghost use Rattle.hd_plain.specs.MachineViews.{Becomes};
ghost use Rattle.hd_plain.specs.Commands.{MayUse};

use crate::machine::Machine;
use hd_commands::Parts;
use hd_maps::{Edit, Handle};
use hd_model::{Id, Slot};

impl Parts for Machine {
    ghost use Rattle.hd_plain.specs.MachineViews.{seen_by};

    type Name = Id;

    ghost Rest = { Unit {0} };

    ghost seen = { seen_by };

    #[tactic(auto, using(crate::proofs::OwnNames::named_self))]
    fn register(&self, caller: u32, d: u8) -> Option<Id>
        requires { MayUse self.now caller d }
        ensures { result ≡ register_of self.now.state caller d }
    {
        let row = &self.registers[caller as usize];
        row[d as usize]
    }

    #[tactic(auto, using(crate::proofs::OwnNames::named_self))]
    fn set_register(&mut self, caller: u32, d: u8, v: Option<Id>)
        requires { MayUse self.old caller d }
        ensures { Becomes self.old (with_register self.old.state caller d v) self.new }
    {
        let row = &mut self.registers[caller as usize];
        row[d as usize] = v;
    }

    fn handle_register(&self, caller: u32, d: u8) -> Option<Slot> {
        let row = &self.handle_registers[caller as usize];
        row[d as usize]
    }

    fn set_handle_register(&mut self, caller: u32, d: u8, v: Option<Slot>)
        requires { MayUse self.old caller d }
        ensures { Becomes self.old (with_handle_register self.old.state caller d v) self.new }
    {
        let row = &mut self.handle_registers[caller as usize];
        row[d as usize] = v;
    }

    #[tactic(auto, using(crate::proofs::OwnNames::named_self))]
    fn static_at(&self, k: u8) -> Option<Id> {
        self.statics[k as usize]
    }

    #[tactic(auto, using(crate::proofs::OwnNames::named_self))]
    fn set_static(&mut self, k: u8, v: Option<Id>)
        requires { k < REGISTERS }
        ensures { Becomes self.old (with_static self.old.state k v) self.new }
    {
        self.statics[k as usize] = v;
    }

    fn board_at(&self, k: u8) -> Option<Slot> {
        self.board[k as usize]
    }

    fn set_board(&mut self, k: u8, v: Option<Slot>) {
        self.board[k as usize] = v;
    }

    fn id(&self, at: Id) -> Id {
        at
    }

    fn fields(&self, at: Id) -> usize {
        match self.object(at.0) {
            Some(object) => object.fields.len(),
            None => 0,
        }
    }

    #[tactic(auto, using(crate::proofs::OwnNames::named_self))]
    fn field(&self, at: Id, i: u8) -> Option<Id> {
        match self.object(at.0) {
            Some(object) => object.fields[i as usize],
            None => None,
        }
    }

    #[tactic(auto, using(crate::proofs::OwnNames::named_self))]
    fn set_field(&mut self, at: Id, i: u8, v: Option<Id>)
        requires known { IsSome (get self.old.state.objects at.0) }
        requires field { i < length (object_by_id self.old.state at).fields }
        ensures { let object = object_by_id self.old.state at in
            let fields = slice_set object.fields i v in
            let after = with_object self.old.state at (record object { fields = fields }) in
            self.new ≡ record self.old { state = after } }
    {
        self.objects.set_field(at.0, i as usize, v);
    }

    fn value(&self, at: Id) -> u64 {
        match self.object(at.0) {
            Some(object) => object.value,
            None => 0,
        }
    }

    fn set_value(&mut self, at: Id, v: u64) {
        self.edit(at, Edit::Value(v));
    }

    fn generation(&self, at: Id) -> u8 {
        match self.object(at.0) {
            Some(object) => object.generation,
            None => 0,
        }
    }

    fn set_registered(&mut self, at: Id, on: bool) {
        self.edit(at, Edit::Registered(on));
    }

    fn next_queued(&mut self) -> Option<Id> {
        self.queue.pop_front()
    }

    #[tactic(auto, using(crate::proofs::OwnNames::same_handle))]
    fn handle(&self, slot: Slot) -> Option<Handle>
        ensures { option_map handle_of result ≡ handle_at self.now.state slot }
    {
        self.table.handle(u64::from(slot.0))
    }

    #[tactic(auto, using(crate::proofs::OwnNames::same_handle))]
    fn replace_handle(&mut self, slot: Slot, handle: Handle)
        requires { IsSome (handle_at self.old.state slot) }
        ensures { let after = with_handle self.old.state slot (handle_of handle) in
            self.new ≡ record self.old { state = after } }
    {
        self.table.replace(u64::from(slot.0), handle);
    }

    fn take_handle(&mut self, slot: Slot) {
        self.table.take(u64::from(slot.0));
    }

    fn lower_age(&mut self, slot: Slot, g: u8) {}
}
