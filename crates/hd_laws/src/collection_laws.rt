//! The laws of collections and ages.

ghost use Rattle.hd_laws.specs.CollectionLaws.{OneCollection};
ghost use Rattle.hd_model.specs.CollectionLaws.{CollectionsKeepWellFormed};
ghost use Rattle.hd_model.specs.CollectionLaws.{UsedObjectsStay};
ghost use Rattle.hd_model.specs.CollectionLaws.{OlderObjectsStay};
ghost use Rattle.hd_laws.specs.CollectionLaws.{ReportsAddUp};
ghost use Rattle.hd_model.specs.CollectionLaws.{SecondCollectionIsIdle, ReadingsKeepWhatIsKept};
ghost use Rattle.hd_model.specs.CollectionLaws.{LoweredAgesAreSound, GrownAgesAreSound};
ghost use Rattle.hd_model.specs.CollectionLaws.{AgesOfRunsAreSound};
ghost use Rattle.hd_model.specs.CollectionLaws.{InUseIsLeftAlone, InUseIsReached};
ghost use Rattle.hd_model.specs.CollectionLaws.{ObjectsAreResurrectedOnce, QueueGrowsInTurn};
ghost use Rattle.hd_model.specs.CollectionLaws.{GenerationsRiseOnce};
ghost use Rattle.hd_laws.specs.CollectionLaws.{WeakHandlesFareAlike};
ghost use Rattle.hd_laws.specs.CollectionLaws.{FinalizationPartsWeakHandles};
ghost use Rattle.hd_model.specs.CollectionLaws.{DependentsUseNoTarget};
ghost use Rattle.hd_model.specs.CollectionLaws.{DependentsKeepNoTarget};
ghost use Rattle.hd_laws.specs.CollectionLaws.{AgesHideNothing};
ghost use Rattle.hd_laws.specs.CollectionLaws.{CollectionsExist};
ghost use Rattle.hd_model.specs.CollectionLaws.{RescuedObjectsStay};
ghost use Rattle.hd_laws.specs.CollectionSamples.{PremisesAreMet};
ghost use Rattle.hd_laws.specs.ChoiceLaws.{AddressesGoWithPins, CompactHeapsHaveFewRegions};
ghost use Rattle.hd_laws.specs.TableLaws.{AgesMoveSo};

/// From a state, a collection leads to at most one state, with one report.
pub fn one_collection()
    ensures { OneCollection }
{}

/// A collection leads from a well formed state to a well formed one.
pub fn collections_keep_well_formed()
    ensures { CollectionsKeepWellFormed }
{}

/// No collection removes an object that a register or static references, that is queued for
/// finalization, or that a handle holds.
pub fn used_objects_stay()
    ensures { UsedObjectsStay }
{}

/// A collection of n leaves each object of a generation above n as it was.
pub fn older_objects_stay()
    ensures { OlderObjectsStay }
{}

/// The numbers of a report are those that the states before and after show.
pub fn reports_add_up()
    ensures { ReportsAddUp }
{}

/// Of two collections of the same n, one right after the other, the second removes, clears and
/// resurrects nothing.
pub fn second_collection_is_idle()
    ensures { SecondCollectionIsIdle }
{}

/// What is reached, resurrected and kept does not depend on whether objects are identified by
/// address or by identity.
pub fn readings_keep_what_is_kept()
    ensures { ReadingsKeepWhatIsKept }
{}

/// Ages stay sound where a store in a slot lowers the age of its clump.
#[tactic(auto, using(hd_model::proofs::CollectionLaws::lowered_ages_are_sound))]
pub fn lowered_ages_are_sound()
    ensures { LoweredAgesAreSound }
{}

/// Ages stay sound where a collection raises them with the generations.
pub fn grown_ages_are_sound()
    ensures { GrownAgesAreSound }
{}

/// The ages that a run leaves are sound.
pub fn ages_of_runs_are_sound()
    ensures { AgesOfRunsAreSound }
{}

/// What a chain of edges leads to from a register, a static, the queue, a handle that holds, or an
/// older object, a collection leaves alone: the object and its handles are as they were.
pub fn in_use_is_left_alone()
    ensures { InUseIsLeftAlone }
{}

/// What a collection reaches is exactly what is in use: what a chain of edges leads to from a
/// register, a static, the queue, a handle that holds, or an older object.
#[tactic(auto, using(hd_model::proofs::Fates::in_use_is_reached))]
pub fn in_use_is_reached()
    ensures { InUseIsReached }
{}

/// What is kept for finalization alone, which is what is resurrected and what chains of edges lead
/// to from there, stays with its fields and its value.
pub fn rescued_objects_stay()
    ensures { RescuedObjectsStay }
{}

/// A collection queues exactly the condemned objects that are registered and out of use, and they
/// are no longer registered.
pub fn objects_are_resurrected_once()
    ensures { ObjectsAreResurrectedOnce }
{}

/// A collection leaves what was queued in its order, and appends in rising identity.
#[tactic(auto, using(hd_model::proofs::Fates::queue_grows_in_turn))]
pub fn queue_grows_in_turn()
    ensures { QueueGrowsInTurn }
{}

/// A condemned object that stays gets the next generation, at most 2, and an older one keeps its.
pub fn generations_rise_once()
    ensures { GenerationsRiseOnce }
{}

/// Over a collection that resurrects nothing, a weak short handle and a weak long one with one
/// target both keep it or are both null.
pub fn weak_handles_fare_alike()
    ensures { WeakHandlesFareAlike }
{}

/// Where the target is kept for finalization alone, a weak short handle is null after the
/// collection and a weak long one still has the target.
pub fn finalization_parts_weak_handles()
    ensures { FinalizationPartsWeakHandles }
{}

/// A dependent handle never brings its target into use.
#[tactic(auto, using(hd_model::proofs::DependentTargets::dependents_use_no_target))]
pub fn dependents_use_no_target()
    ensures { DependentsUseNoTarget }
{}

/// A dependent handle never keeps its target: whether that stays is the same without the handle.
pub fn dependents_keep_no_target()
    ensures { DependentsKeepNoTarget }
{}

/// A collection that visits the clumps of age at most n alone finds what one of all clumps finds,
/// and the handles that it does not visit are those that it would not change.
pub fn ages_hide_nothing()
    ensures { AgesHideNothing }
{}

/// From every well formed state, for each n, a collection leads to a state, with a report.
#[tactic(auto, using(crate::proofs::NextState::collections_exist))]
pub fn collections_exist()
    ensures { CollectionsExist }
{}

/// The premises of the laws of what is in use, what is removed and what is resurrected, of weak and
/// dependent handles and of due clumps are met in well formed states.
#[tactic(auto, using(crate::proofs::CollectionSamples::premises_are_met))]
pub fn premises_are_met()
    ensures { PremisesAreMet }
{}

/// In a worked state each store lowers the age of its clump to what it needs and no further, other
/// commands lower none, and a collection raises each by one, at most to 2.
#[tactic(auto, using(crate::proofs::WorkedTables::ages_move_so))]
pub fn ages_move_so()
    ensures { AgesMoveSo }
{}

/// A compact heap of which 1,000 cells are taken, with two pinned objects, has at most 10 regions
/// in use.
pub fn compact_heaps_have_few_regions()
    ensures { CompactHeapsHaveFewRegions }
{}

/// A collection keeps the address of each object that some handle pins, and forgets that of each
/// other object.
pub fn addresses_go_with_pins()
    ensures { AddressesGoWithPins }
{}
