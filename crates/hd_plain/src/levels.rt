// The objects from which chains of a few edges lead to an object, level by level. What is close to
// an anchor is found in a few passes over objects and handles, without a walk from all anchors.
ghost use Rattle.std.specs.Prelude.{◌≡◌, ◌<◌, ◌^◌, map, IfOk, IfSome, Decides};
ghost use Rattle.std.specs.List.{list_any};
ghost use Rattle.hd_model.specs.Anchors.{AnchorOf, EdgeOf, IsShortest};
ghost use Rattle.hd_model.specs.WellFormed.{IsWellFormed};
ghost use Rattle.hd_model.specs.declared.data.Id.{Id as Name};
ghost use Rattle.hd_plain.specs.Inside.{is_marked, referenced, with_targets};
ghost use Rattle.hd_plain.specs.Levels.{AreHandles, IsFirst, LeadsTo, among, attacher_at, attacher_in, held_among, holder_in, is_in};

use crate::machine::Machine;
use crate::marks::{Marks, held_by};
use hd_maps::{Handle, Object, Weak};
use hd_model::{Id, Memory, Role};
use std::collections::VecDeque;

// How many levels are looked at. Each is a pass over objects and handles, so a long chain is left
// to the walk from all anchors.
const LEVELS: u64 = 3;

/// Where a chain to an object begins, and its number of edges.
#[derive(Clone, Copy)]
pub(crate) struct Origin {
    pub(crate) from: Id,
    pub(crate) edges: u64,
}

/// Where a shortest chain to an object begins, if one has fewer edges than there are levels.
pub(crate) fn near(
    machine: &Machine,
    handles: &[Handle],
    goal: Id,
) -> Result<Option<Origin>, Memory>
    requires formed { IsWellFormed machine.now.numbers machine.now.state }
    requires handles { AreHandles machine.now.state handles.now }
    ensures shortest { let edge = EdgeOf machine.now.state in
        let anchor = AnchorOf machine.now.state in
        IfOk result (λ found. IfSome found
        (λ o. IsShortest edge anchor (λ (x : Name). x.0) goal o.from o.edges)) }
    ensures few { IfOk result (λ found. IfSome found (λ o. o.edges < 2 ^ 32)) }
{
    let mut level = Marks::open(machine.alloc);
    level.mark(goal.0)?;
    for edges in 0..LEVELS {
        if let Some(from) = first_anchor(machine, handles, &level)? {
            let from = Id(from);
            return Ok(Some(Origin { from, edges }));
        }
        level = before(machine, handles, &level)?;
    }
    Ok(None)
}

// The least anchor of a set.
fn first_anchor(machine: &Machine, handles: &[Handle], set: &Marks) -> Result<Option<u64>, Memory>
    requires { AreHandles machine.now.state handles.now }
    ensures { IfOk result (IsFirst machine.now.state (is_marked set.now)) }
{
    let mut anchors = Marks::open(machine.alloc);
    mark_statics(&machine.statics, set, &mut anchors)?;
    mark_queued(&machine.queue, set, &mut anchors)?;
    mark_held(handles, set, &mut anchors)?;
    Ok(anchors.least())
}

// The objects from which an edge leads to one of a set.
fn before(machine: &Machine, handles: &[Handle], set: &Marks) -> Result<Marks, Memory>
    requires formed { IsWellFormed machine.now.numbers machine.now.state }
    requires handles { AreHandles machine.now.state handles.now }
    ensures { let leads = LeadsTo machine.now.state (is_marked set.now) in
        IfOk result (λ found. (x : Name) → Decides (is_marked found x) (leads x)) }
{
    let objects = machine.objects.entries(machine.alloc)?;
    let entries = machine.weak.slots(machine.alloc)?;
    let mut found = Marks::open(machine.alloc);
    mark_holders(&objects, set, &mut found)?;
    mark_targets(handles, set, &mut found)?;
    mark_keys(&machine.weak, &entries, set, &mut found)?;
    Ok(found)
}

// Marks what statics reference of a set.
fn mark_statics(statics: &[Option<Id>], set: &Marks, marks: &mut Marks) -> Result<(), Memory>
    ensures { let those = map (among (is_marked set.now)) statics.now in
        IfOk result (λ _. marks.new ≡ with_targets marks.old those) }
{
    for target in statics {
        marks.mark_some(among(set, *target))?;
    }
    Ok(())
}

// Marks what is queued of a set.
fn mark_queued(queue: &VecDeque<Id>, set: &Marks, marks: &mut Marks) -> Result<(), Memory>
    ensures { let those = map (among (is_marked set.now)) (referenced queue.now.items) in
        IfOk result (λ _. marks.new ≡ with_targets marks.old those) }
{
    for id in queue {
        marks.mark_some(among(set, Some(*id)))?;
    }
    Ok(())
}

// Marks what handles hold of a set.
fn mark_held(handles: &[Handle], set: &Marks, marks: &mut Marks) -> Result<(), Memory>
    ensures { let those = map (held_among (is_marked set.now)) handles.now in
        IfOk result (λ _. marks.new ≡ with_targets marks.old those) }
{
    for handle in handles {
        marks.mark_some(among(set, held_by(*handle)))?;
    }
    Ok(())
}

// Marks the objects of which a field references one of a set.
fn mark_holders(objects: &[(u64, &Object)], set: &Marks, marks: &mut Marks) -> Result<(), Memory>
    ensures { let those = map (holder_in (is_marked set.now)) objects.now in
        IfOk result (λ _. marks.new ≡ with_targets marks.old those) }
{
    for entry in objects {
        marks.mark_some(holder_in(entry, set))?;
    }
    Ok(())
}

// Marks the targets of the handles that attach one of a set to them.
fn mark_targets(handles: &[Handle], set: &Marks, marks: &mut Marks) -> Result<(), Memory>
    ensures { let those = map (attacher_in (is_marked set.now)) handles.now in
        IfOk result (λ _. marks.new ≡ with_targets marks.old those) }
{
    for handle in handles {
        marks.mark_some(attacher(*handle, set))?;
    }
    Ok(())
}

// Marks the keys of the entries whose values are in a set.
fn mark_keys(weak: &Weak, entries: &[u64], set: &Marks, marks: &mut Marks) -> Result<(), Memory>
    ensures { let those = map (attacher_at (is_marked set.now) weak.now) entries.now in
        IfOk result (λ _. marks.new ≡ with_targets marks.old those) }
{
    for slot in entries {
        marks.mark_some(key_at(weak, *slot, set))?;
    }
    Ok(())
}

// What is referenced, where it is in a set.
fn among(set: &Marks, target: Option<Id>) -> Option<Id>
    ensures { result ≡ among (is_marked set.now) target }
{
    if is_in(set, target) { target } else { None }
}

// Whether what is referenced is in a set.
fn is_in(set: &Marks, target: Option<Id>) -> bool
    ensures { result ≡ is_in (is_marked set.now) target }
{
    match target {
        Some(id) => set.has(id.0),
        None => false,
    }
}

// An object, where a field of it references one of a set.
fn holder_in(entry: &(u64, &Object), set: &Marks) -> Option<Id>
    ensures { result ≡ holder_in (is_marked set.now) entry.now }
{
    let (id, object) = *entry;
    if has_any(&object.fields, set) {
        Some(Id(id))
    } else {
        None
    }
}

// Whether one of a list of fields references one of a set.
fn has_any(fields: &[Option<Id>], set: &Marks) -> bool
    ensures { result ≡ list_any (is_in (is_marked set.now)) fields.now }
{
    for field in fields {
        if is_in(set, *field) {
            return true;
        }
    }
    false
}

// The target of a handle that attaches one of a set to it.
fn attacher(handle: Handle, set: &Marks) -> Option<Id>
    ensures { result ≡ attacher_in (is_marked set.now) handle }
{
    match handle.role() {
        Role::Attaches => {
            if is_in(set, handle.secondary()) {
                handle.target
            } else {
                None
            }
        }
        Role::Holds | Role::Short | Role::Long => None,
    }
}

// The key of an entry whose value is in a set.
fn key_at(weak: &Weak, slot: u64, set: &Marks) -> Option<Id>
    ensures { result ≡ attacher_at (is_marked set.now) weak.now slot }
{
    match weak.entry(slot) {
        Some(entry) => {
            if is_in(set, entry.value) {
                Some(entry.key)
            } else {
                None
            }
        }
        None => None,
    }
}
