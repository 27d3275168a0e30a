//! The laws of collections and ages.

ghost use Rattle.hd_model.specs.CollectionLaws.{NoneDanglesAfter};
ghost use Rattle.hd_model.specs.CollectionLaws.{GarbageGoes};
ghost use Rattle.hd_model.specs.CollectionLaws.{SecondariesFollowTargets};

/// After a collection no register and no static references an object that is gone.
pub fn none_dangles_after()
    ensures { NoneDanglesAfter }
{}

/// An object out of use, to which no registered object out of use leads, is gone after a collection
/// that condemns it, and each handle to it is null.
pub fn garbage_goes()
    ensures { GarbageGoes }
{}

/// A dependent handle keeps its secondary exactly as long as its target is kept.
pub fn secondaries_follow_targets()
    ensures { SecondariesFollowTargets }
{}
