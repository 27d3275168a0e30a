ghost use Rattle.hd_model.specs.AnchorLaws.{GcRootReturnsTheRoot, AnchorsAreTheirRoots};
ghost use Rattle.hd_model.specs.AnchorLaws.{RootsFollowEdges, RootedObjectsStay, RootedObjectsLast};
ghost use Rattle.hd_model.specs.AnchorLaws.{UnrootedObjectsGo, DroppedObjectsGo};
ghost use Rattle.hd_laws.specs.AnchorSamples.{RootPremisesAreMet};

/// `gcroot` is refused as `Null` where its register is null. Else it returns where a shortest chain
/// of edges from an anchor to the object begins, and by how many edges it leads there, or that
/// none leads there. It changes nothing.
#[tactic(auto, using(hd_model::proofs::AnchorLaws::gcroot_returns_the_root))]
pub fn gcroot_returns_the_root()
    ensures { GcRootReturnsTheRoot }
{}

/// What a static references, what is queued and what a handle holds is its own root, by 0 edges.
#[tactic(auto, using(hd_model::proofs::RootChains::anchors_are_their_roots))]
pub fn anchors_are_their_roots()
    ensures { AnchorsAreTheirRoots }
{}

/// An object to which an edge leads from a rooted one is rooted, by at most one edge more. Where it
/// is one more, its root has no greater identity.
pub fn roots_follow_edges()
    ensures { RootsFollowEdges }
{}

/// An object to which `gcroot` returns a chain stays through a collection of whatever generation.
pub fn rooted_objects_stay()
    ensures { RootedObjectsStay }
{}

/// Over entries in a run, an object to which `gcroot` would return a chain in the state before each
/// `collect` exists after the last.
#[tactic(auto, using(hd_model::proofs::RootChains::rooted_objects_last))]
pub fn rooted_objects_last()
    ensures { RootedObjectsLast }
{}

/// An object that `gcroot` reports unrooted is removed by a collection, or a chain leads to it from
/// what is resurrected, unless one leads to it from a register or an object of an older generation.
pub fn unrooted_objects_go()
    ensures { UnrootedObjectsGo }
{}

/// An object that `gcroot` reports unrooted, and whose register is dropped then, is removed by the
/// collection that comes next, or a chain leads to it from what is resurrected, unless one leads to
/// it from another register or an object of an older generation. In the state in which `gcroot`
/// replied the register itself referenced it.
pub fn dropped_objects_go()
    ensures { DroppedObjectsGo }
{}

/// The premises of the laws of `gcroot`, and of the law of an entry whose key goes, are met in well
/// formed states.
#[tactic(auto, using(crate::proofs::AnchorSamples::root_premises_are_met))]
pub fn root_premises_are_met()
    ensures { RootPremisesAreMet }
{}
