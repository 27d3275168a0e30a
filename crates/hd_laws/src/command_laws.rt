ghost use Rattle.hd_laws.specs.RangeLaws.{RangesAreThese};
ghost use Rattle.hd_laws.specs.CommandLaws.{WorkedCommands};
ghost use Rattle.hd_laws.specs.ChoiceLaws.{AddressesAreThese, NewHandlesAreHere};
ghost use Rattle.hd_laws.specs.ChoiceLaws.{BlocksAreGivenBack, EntriesAreAdded};
ghost use Rattle.hd_laws.specs.ChoiceLaws.{OneThreadTakesTheLeast};
ghost use Rattle.hd_laws.specs.TableLaws.{CommandsTouchThese, HandlesHaveTheseRoles};

/// Registers, statics and board indexes are below 16, an object has at most 61 fields, the number
/// of a field is below 256, a value below 2^64, a generation at most 2, and a `trim` is of a kind
/// without extra data: so for each command, and nothing else is asked of its operands.
#[tactic(auto, using(crate::proofs::OperandRanges::ranges_are_these))]
pub fn ranges_are_these()
    ensures { RangesAreThese }
{}

/// In one worked state each command that the state decides is done once, with its reply, its slot
/// and the state that it leaves; and each refusal of each command comes once, with its reply, and
/// leaves the state as it was. Where two causes hold, the first is returned.
#[tactic(auto, using(crate::proofs::WorkedCommands::commands_come_so))]
pub fn commands_come_so()
    ensures { WorkedCommands }
{}

/// Of one of each command: which part of the state, which register, static and board index it may
/// change, which handle it is about, whether it may take memory, and whether it collects.
#[tactic(auto, using(crate::proofs::WorkedTables::commands_touch_these))]
pub fn commands_touch_these()
    ensures { CommandsTouchThese }
{}

/// Of a handle of each kind, strength and count: whether it holds its target, loses it before or
/// after finalization, or attaches to it, and whether it keeps it from moving.
#[tactic(auto, using(crate::proofs::WorkedTables::handles_have_these_roles))]
pub fn handles_have_these_roles()
    ensures { HandlesHaveTheseRoles }
{}

/// In a worked state `addr` returns each number below 2^32 from which the object's cells are apart
/// from those of the one object that has a pinned address, and no other.
pub fn addresses_are_these()
    ensures { AddressesAreThese }
{}

/// In a worked table a new handle gets any slot of its kind's one block, or the first slot of the
/// least unused block, with the next such block for its extra data.
#[tactic(auto, using(crate::proofs::WorkedChoices::new_handles_are_here))]
pub fn new_handles_are_here()
    ensures { NewHandlesAreHere }
{}

/// In a worked table `trim` gives back the one block that it may, and replies 1, or gives back none
/// and replies 0.
#[tactic(auto, using(crate::proofs::WorkedChoices::blocks_are_given_back))]
pub fn blocks_are_given_back()
    ensures { BlocksAreGivenBack }
{}

/// In the worked state a `cadd` that needs a slot gets a free one of dependent handles, or the first
/// of the least unused block, and attaches its value to its key there.
#[tactic(auto, using(crate::proofs::WorkedChoices::entries_are_added))]
pub fn entries_are_added()
    ensures { EntriesAreAdded }
{}

/// Of one thread alone, `hnew` takes the least free slot while there is one, `trim` gives back the
/// least block that it may, and callers come in rising number.
#[tactic(auto, using(crate::proofs::WorkedChoices::one_thread_takes_the_least))]
pub fn one_thread_takes_the_least()
    ensures { OneThreadTakesTheLeast }
{}
