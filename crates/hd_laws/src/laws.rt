ghost use Rattle.hd_model.specs.Laws.{OneStateAfter, StepsKeepWellFormed, RunsAreWellFormed};
ghost use Rattle.hd_model.specs.Laws.{UntouchedStays, AgedRunsAreRuns, RunsHaveAges};
ghost use Rattle.hd_model.specs.Laws.{HandlesAreMadeLessFreed, ObjectsAreMadeLessRemoved};
ghost use Rattle.hd_model.specs.Laws.{FieldIsReadBack, ValueIsReadBack, NewFieldIsNull};
ghost use Rattle.hd_model.specs.Laws.{NewValueIsZero, StaticIsReadBack, BoardIsReadBack};
ghost use Rattle.hd_model.specs.Laws.{RegisterIsReadBack, HandleRegisterIsReadBack};
ghost use Rattle.hd_model.specs.Laws.{TargetIsReadBack, SecondaryIsReadBack, StrengthIsKept};
ghost use Rattle.hd_model.specs.Laws.{CountIsReadBack, FreedIsNotLive, SoloTextIsOne};
ghost use Rattle.hd_laws.specs.Constants.{NumbersAreThese};
ghost use Rattle.hd_laws.specs.UserLaws.{AddressIsReturnedAgain, PinnedAddressIsReadBack};
ghost use Rattle.hd_laws.specs.UserLaws.{GenerationIsReadBack, GenReturnsTheGeneration};
ghost use Rattle.hd_laws.specs.UserLaws.{RegistrationIsKept, JoinsOnce, HeapIsWithinItsLimit};
ghost use Rattle.hd_laws.specs.UserLaws.{NewIsRefusedWhereFull, EveryCommandHasAStep};
ghost use Rattle.hd_laws.specs.UserLaws.{RunsAreNeverStuck};
ghost use Rattle.hd_model.specs.UserLaws.{PinnedObjectsDoNotOverlap, QueueIsLeft, QueueGoesInTurn};

/// From one state, an entry leaves at most one state.
pub fn one_state_after()
    ensures { OneStateAfter }
{}

/// A step leads from a well formed state to a well formed one.
pub fn steps_keep_well_formed()
    ensures { StepsKeepWellFormed }
{}

/// Every state that a run reaches is well formed.
pub fn runs_are_well_formed()
    ensures { RunsAreWellFormed }
{}

/// A step changes no part of the state that its command does not touch.
pub fn untouched_stays()
    ensures { UntouchedStays }
{}

/// A run with the ages of the clumps is a run.
pub fn aged_runs_are_runs()
    ensures { AgedRunsAreRuns }
{}

/// Every run has its ages.
pub fn runs_have_ages()
    ensures { RunsHaveAges }
{}

/// The live handles are the handles that were made, less those that were freed.
pub fn handles_are_made_less_freed()
    ensures { HandlesAreMadeLessFreed }
{}

/// The objects are those that were made, less those that collections removed.
#[tactic(auto, using(hd_model::proofs::RunCounts::objects_are_made_less_removed))]
pub fn objects_are_made_less_removed()
    ensures { ObjectsAreMadeLessRemoved }
{}

/// What a done `set` stores in a field, `get` returns until another done `set` of that field. No
/// collection changes a field.
pub fn field_is_read_back()
    ensures { FieldIsReadBack }
{}

/// The number that a done `val` stores, `read` returns until another done `val` of that object.
pub fn value_is_read_back()
    ensures { ValueIsReadBack }
{}

/// A field of a new object is null until a done `set` writes it.
pub fn new_field_is_null()
    ensures { NewFieldIsNull }
{}

/// The value of a new object is 0 until a done `val` writes it.
pub fn new_value_is_zero()
    ensures { NewValueIsZero }
{}

/// What `sput` stores in a static, `sget` returns until another `sput` of that static, by whatever
/// caller.
pub fn static_is_read_back()
    ensures { StaticIsReadBack }
{}

/// What `hput` stores at a board index is got from it until another `hput` at that index, by
/// whatever caller.
pub fn board_is_read_back()
    ensures { BoardIsReadBack }
{}

/// An object register references what the last command of its caller that wrote it stored there.
pub fn register_is_read_back()
    ensures { RegisterIsReadBack }
{}

/// A handle register has the slot that the last command of its caller that wrote it stored there.
pub fn handle_register_is_read_back()
    ensures { HandleRegisterIsReadBack }
{}

/// The target that a done `hset` or `hnew` gives a handle, `hget` returns until a done `hset` or
/// `hfree` of it, or a collection that clears it.
pub fn target_is_read_back()
    ensures { TargetIsReadBack }
{}

/// The secondary that a done `hsec` or `hnew` gives a handle, `hdep` returns until a done `hsec`,
/// `hset` or `hfree` of it, or a collection that clears it.
pub fn secondary_is_read_back()
    ensures { SecondaryIsReadBack }
{}

/// A variable handle has the strength that a done `hvar` or `hnew` gave it until another done
/// `hvar` or an `hfree` of it.
pub fn strength_is_kept()
    ensures { StrengthIsKept }
{}

/// `hup` returns one more than the last count that `hup`, `hdown` or `hnew` gave the handle.
pub fn count_is_read_back()
    ensures { CountIsReadBack }
{}

/// After a done `hfree` each command on the slot is refused as not live, until a done `hnew` takes
/// the slot.
pub fn freed_is_not_live()
    ensures { FreedIsNotLive }
{}

/// The text of a run of one caller after another, without addresses, is a function of the lists
/// of commands.
pub fn solo_text_is_one()
    ensures { SoloTextIsOne }
{}

/// Every limit, bound and number of this crate equals the numeral that it is meant to be.
pub fn numbers_are_these()
    ensures { NumbersAreThese }
{}

/// `addr` of an object that has a pinned address returns that address.
pub fn address_is_returned_again()
    ensures { AddressIsReturnedAgain }
{}

/// In every state of a run, two objects that have pinned addresses share no cell.
pub fn pinned_objects_do_not_overlap()
    ensures { PinnedObjectsDoNotOverlap }
{}

/// `addr` returns the same number as long as the object is pinned, by this handle or another,
/// whatever is collected meanwhile.
pub fn pinned_address_is_read_back()
    ensures { PinnedAddressIsReadBack }
{}

/// Nothing but `final` and a collection changes the queue.
pub fn queue_is_left()
    ensures { QueueIsLeft }
{}

/// First in, first out: what `final` returns and then what is still queued is what was queued and
/// then what joined.
#[tactic(auto, using(hd_model::proofs::QueueTurns::queue_goes_in_turn))]
pub fn queue_goes_in_turn()
    ensures { QueueGoesInTurn }
{}

/// `gen` returns 0 of a new object, and what it returned before, until a collection.
pub fn generation_is_read_back()
    ensures { GenerationIsReadBack }
{}

/// `gen` returns the generation of the object.
#[tactic(auto, using(crate::proofs::ObjectReadBack::gen_returns_the_generation))]
pub fn gen_returns_the_generation()
    ensures { GenReturnsTheGeneration }
{}

/// An object is registered for finalization as `new`, `suppress` or `reregister` left it, until the
/// next of these or until a collection resurrects it, after which it is not.
pub fn registration_is_kept()
    ensures { RegistrationIsKept }
{}

/// An object that joined the queue joins it again only after a `reregister` of it.
pub fn joins_once()
    ensures { JoinsOnce }
{}

/// In every state of a run the sizes of all objects are together at most the limit of the heap.
pub fn heap_is_within_its_limit()
    ensures { HeapIsWithinItsLimit }
{}

/// `new` is refused for a full heap exactly where the heap would pass its limit.
pub fn new_is_refused_where_full()
    ensures { NewIsRefusedWhereFull }
{}

/// From a well formed state every valid command of a known caller has a step: a `new` while the
/// caller has serials left, and an `addr` of an object without a pinned address where a free one
/// exists.
#[tactic(auto, using(crate::proofs::StepExistence::every_command_has_a_step))]
pub fn every_command_has_a_step()
    ensures { EveryCommandHasAStep }
{}

/// No caller is ever stuck: in every state of a run, with a heap limit of at most 1,000,000 cells,
/// every valid command of a known caller has a step, but for a `new` whose caller has no serial
/// left.
pub fn runs_are_never_stuck()
    ensures { RunsAreNeverStuck }
{}
