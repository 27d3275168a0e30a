ghost use Rattle.std.specs.Prelude.{◌≡◌, ◌∷◌, [], ◌<◌, ◌≤◌, Some, IsSome, IfSome, OnSome, MatchOption, length, option_map, slice_set};
ghost use Rattle.std.specs.FinMap.{get};
ghost use Rattle.hd_model.specs.declared.limits.TheConstants.{REGISTERS};
ghost use Rattle.hd_model.specs.State.{register_of, handle_register_of, static_of, board_of, field_of, handle_at, with_register, with_handle_register, with_static, with_board, with_object, with_queue, with_handle, without_handle};
ghost use Rattle.hd_model.specs.{Ages.lowered, WellFormed.HasHandles};
ghost use Rattle.hd_commands.specs.Seen.{name_in, named_in, IsNamed, IsThere, MayUse, object_named};
ghost use Rattle.hd_commands.specs.Handles.{handle_named, IsWithin, MayBeStored};
ghost use Rattle.hd_model.specs.Handles.{handle_of};

use hd_model::{Handle, Id, Slot};

/// The parts of a machine, whatever its objects are referenced by. A write changes what commands
/// see of it in the one part that it names.
pub trait Parts {
    ghost use Rattle.hd_commands.specs.Seen.{Seen};

    /// What an object is referenced by.
    type Name: Copy + Drop;

    /// What else it promises to keep.
    ghost Rest: { Type 0 };

    /// What commands see of it.
    ghost seen: { Self → Seen Self.Name Rest };

    /// What an object register references.
    fn register(&self, caller: u32, d: u8) -> Option<Self::Name>
        requires { MayUse (seen self.now) caller d }
        ensures value { let p = seen self.now in named_in p result ≡ register_of p.state caller d }
        ensures named { IsNamed (seen self.now) result };

    /// An object register gets `v`.
    fn set_register(&mut self, caller: u32, d: u8, v: Option<Self::Name>)
        requires register { MayUse (seen self.old) caller d }
        requires named { IsNamed (seen self.old) v }
        ensures { let p = seen self.old in
            let after = with_register p.state caller d (named_in p v) in
            seen self.new ≡ record p { state = after } };

    /// The slot in a handle register.
    fn handle_register(&self, caller: u32, d: u8) -> Option<Slot>
        requires { MayUse (seen self.now) caller d }
        ensures { result ≡ handle_register_of (seen self.now).state caller d };

    /// A handle register gets `v`.
    fn set_handle_register(&mut self, caller: u32, d: u8, v: Option<Slot>)
        requires { MayUse (seen self.old) caller d }
        ensures { let p = seen self.old in
            let after = with_handle_register p.state caller d v in
            seen self.new ≡ record p { state = after } };

    /// What a static references.
    fn static_at(&self, k: u8) -> Option<Self::Name>
        requires { k < REGISTERS }
        ensures value { let p = seen self.now in named_in p result ≡ static_of p.state k }
        ensures named { IsNamed (seen self.now) result };

    /// A static gets `v`.
    fn set_static(&mut self, k: u8, v: Option<Self::Name>)
        requires index { k < REGISTERS }
        requires named { IsNamed (seen self.old) v }
        ensures { let p = seen self.old in
            seen self.new ≡ record p { state = with_static p.state k (named_in p v) } };

    /// The slot at a board index.
    fn board_at(&self, k: u8) -> Option<Slot>
        requires { k < REGISTERS }
        ensures { result ≡ board_of (seen self.now).state k };

    /// A board index gets `v`.
    fn set_board(&mut self, k: u8, v: Option<Slot>)
        requires { k < REGISTERS }
        ensures { let p = seen self.old in
            seen self.new ≡ record p { state = with_board p.state k v } };

    /// The identity of an object.
    fn id(&self, at: Self::Name) -> Id
        requires { IsSome ((seen self.now).names at) }
        ensures { result ≡ name_in (seen self.now) at };

    /// The number of its fields.
    fn fields(&self, at: Self::Name) -> usize
        requires { IsSome ((seen self.now).names at) }
        ensures { result ≡ length (object_named (seen self.now) at).fields };

    /// Field `i` of it.
    fn field(&self, at: Self::Name, i: u8) -> Option<Self::Name>
        requires known { IsSome ((seen self.now).names at) }
        requires field { i < length (object_named (seen self.now) at).fields }
        ensures value { let p = seen self.now in
            named_in p result ≡ field_of (object_named p at) i }
        ensures named { IsNamed (seen self.now) result };

    /// Field `i` of it becomes `v`.
    fn set_field(&mut self, at: Self::Name, i: u8, v: Option<Self::Name>)
        requires there { IsThere (seen self.old) at }
        requires field { i < length (object_named (seen self.old) at).fields }
        requires named { IsNamed (seen self.old) v }
        ensures { let p = seen self.old in
            let object = object_named p at in
            let fields = slice_set object.fields i (named_in p v) in
            let after = with_object p.state (name_in p at) (record object { fields = fields }) in
            seen self.new ≡ record p { state = after } };

    /// Its value.
    fn value(&self, at: Self::Name) -> u64
        requires { IsSome ((seen self.now).names at) }
        ensures { result ≡ (object_named (seen self.now) at).value };

    /// Its value becomes `v`.
    fn set_value(&mut self, at: Self::Name, v: u64)
        requires { IsThere (seen self.old) at }
        ensures { let p = seen self.old in
            let object = record (object_named p at) { value = v } in
            seen self.new ≡ record p { state = with_object p.state (name_in p at) object } };

    /// Its generation.
    fn generation(&self, at: Self::Name) -> u8
        requires { IsSome ((seen self.now).names at) }
        ensures { result ≡ (object_named (seen self.now) at).generation };

    /// It is registered for finalization from now on, or not.
    fn set_registered(&mut self, at: Self::Name, on: bool)
        requires { IsThere (seen self.old) at }
        ensures { let p = seen self.old in
            let object = record (object_named p at) { registered = on } in
            seen self.new ≡ record p { state = with_object p.state (name_in p at) object } };

    /// Takes the first object out of the finalization queue.
    fn next_queued(&mut self) -> Option<Self::Name>
        ensures queue { let p = seen self.old in
            let rest = (seen self.new).state.queue in
            MatchOption result ((p.state.queue ≡ []) × (seen self.new ≡ p))
            (λ at. (p.state.queue ≡ name_in p at ∷ rest)
            × (seen self.new ≡ record p { state = with_queue p.state rest })) }
        ensures named { IsNamed (seen self.new) result };

    /// The handle in a slot, if the slot is live. The slot may be any number.
    fn handle(&self, slot: Slot) -> Option<Handle<Self::Name>>
        requires { HasHandles (seen self.now).numbers (seen self.now).state }
        ensures value { let p = seen self.now in
            handle_at p.state slot ≡ option_map (handle_named p) result }
        ensures may { IfSome result (λ h. MayBeStored (seen self.now) slot (handle_of h)) }
        ensures within { OnSome result (IsWithin (seen self.now) slot) };

    /// Another handle of the same kind in a live slot.
    fn replace_handle(&mut self, slot: Slot, handle: Handle<Self::Name>)
        requires live { option_map (λ h. h.kind) (handle_at (seen self.old).state slot)
            ≡ Some handle.kind }
        requires may { MayBeStored (seen self.old) slot (handle_of handle) }
        ensures { let p = seen self.old in
            let after = with_handle p.state slot (handle_named p handle) in
            seen self.new ≡ record p { state = after } };

    /// Takes the handle out of a live slot.
    fn take_handle(&mut self, slot: Slot)
        requires { IsSome (handle_at (seen self.old).state slot) }
        ensures { let p = seen self.old in
            seen self.new ≡ record p { state = without_handle p.state slot } };

    /// Lowers the age of a slot's clump to `g`, where it was above. A machine without ages
    /// does nothing.
    fn lower_age(&mut self, slot: Slot, g: u8)
        requires { IsWithin (seen self.old) slot }
        ensures { let p = seen self.old in
            seen self.new ≡ record p { ages = lowered p.ages slot.0 g } };
}
