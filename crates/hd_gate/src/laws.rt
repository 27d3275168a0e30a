ghost use Rattle.hd_gate.specs.Laws.{AFreeGateHasTheWorldOfItsJournal};

use crate::boxed::Boxed;
use hd_model::Held;

/// Between any two steps of the callers of a shared world at which the gate is free, the table has
/// one world: its kinds are the kind words, its journal has each caller's part, begins with what
/// each has seen, leads to its state and leaves its ages, and heap and table are those of that
/// state.
pub fn a_free_gate_has_the_world_of_its_journal()
    ensures { AFreeGateHasTheWorldOfItsJournal ⟦<Boxed as Held>⟧ }
{}
