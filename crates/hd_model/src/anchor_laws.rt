ghost use Rattle.hd_model.specs.AnchorLaws.{RootIsOne, OtherRegistersPlayNoPart};

/// What `gcroot` returns of an object is decided by the state.
pub fn root_is_one()
    ensures { RootIsOne }
{}

/// The reply of `gcroot` is the same in two states with the same objects, handles, entries of the
/// weak table, statics and queue, whatever registers and callers reference the object.
pub fn other_registers_play_no_part()
    ensures { OtherRegistersPlayNoPart }
{}
