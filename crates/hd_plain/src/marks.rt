// The objects that are marked, the ones whose edges are still to be followed, and the secondaries
// by target.
ghost use Rattle.std.specs.Prelude.{◌≡◌, ℕ, map, option_map, unwrap_or, IfOk, MatchOption, ◌<◌, ◌^◌, [], ◌∷◌, ◌++◌};
ghost use Rattle.std.specs.FinMap as map;
ghost use Rattle.std.specs.FinMap.{get};
ghost use Rattle.hd_model.specs.{Collect.is_lost, Scene.fields_in, WellFormed.IsWellFormed};
ghost use Rattle.hd_plain.specs.Inside.{HasGenerations, IsYoungAnchor, YoungEdge, is_older, is_seen, young, young_at, young_held, referenced, Adds, pair_in, pair_of, pairs_in, attaching_at, held_by, Gains, is_marked, with_mark, with_target, with_targets, Awaits, Closes};
ghost use Rattle.hd_model.specs.Handles.{handle_of};
ghost use Rattle.hd_maps.specs.NextKeys.{IsLeastFrom};
ghost use Rattle.hd_plain.specs.Attaching.{ListsAttached, secondaries};

use crate::machine::Machine;
use hd_maps::{Handle, Numbered, Objects, Table, Weak, copied};
use hd_model::limits::OLDEST;
use hd_model::{Id, Memory, Role};
use std::alloc::Global;
use std::collections::VecDeque;
use std::marker::Model;

/// Secondaries by their target.
pub(crate) struct Attached {
    lists: Numbered<Vec<u64>>,
}

// Not derived, as that of a machine.
impl Drop for Attached {
    fn drop(self) {
        let Attached { lists: _lists } = self;
    }
}

// The list that was found, or an empty one.
fn or_empty(alloc: Global, found: Option<Vec<u64>>) -> Vec<u64>
    ensures { result.items ≡ unwrap_or (option_map (λ list. list.items) found) [] }
{
    match found {
        Some(list) => list,
        None => Vec::new(alloc),
    }
}

impl Attached {
    /// None.
    pub(crate) fn none(alloc: Global) -> Attached
        ensures { (x : ℕ) → secondaries result x ≡ [] }
    {
        Attached {
            lists: Numbered::new(alloc),
        }
    }

    /// What is attached to an object.
    pub(crate) fn list(&self, target: u64) -> Option<&Vec<u64>>
        ensures { secondaries self.now target
            ≡ unwrap_or (option_map (λ list. list.now.items) result) [] }
    {
        self.lists.get(target)
    }

    // Adds a target and a secondary, where both are there.
    fn add(
        &mut self,
        alloc: Global,
        target: Option<Id>,
        secondary: Option<Id>,
    ) -> Result<(), Memory>
        ensures { IfOk result (λ _. Adds self.old self.new (pair_of target secondary)) }
    {
        let Some(from) = target else {
            return Ok(());
        };
        let Some(to) = secondary else {
            return Ok(());
        };
        let mut list = or_empty(alloc, self.lists.remove(from.0));
        match list.push(to.0) {
            Ok(_) => self.lists.insert(from.0, list),
            Err(_) => Err(Memory),
        }
    }

    // Adds the pair of a slot of the weak table, if it has an entry that has a value.
    fn add_slot(&mut self, alloc: Global, weak: &Weak, slot: u64) -> Result<(), Memory>
        ensures { let pairs = pair_in (attaching_at weak.now slot) in
            IfOk result (λ _. Adds self.old self.new pairs) }
    {
        match weak.entry(slot) {
            Some(entry) => self.add(alloc, Some(entry.key), entry.value),
            None => Ok(()),
        }
    }

    // Adds the pairs of slots of the weak table.
    fn add_slots(&mut self, alloc: Global, weak: &Weak, slots: &[u64]) -> Result<(), Memory>
        ensures { let pairs = pairs_in (map (attaching_at weak.now) slots.now) in
            IfOk result (λ _. Adds self.old self.new pairs) }
    {
        for slot in slots {
            self.add_slot(alloc, weak, *slot)?;
        }
        Ok(())
    }
}

/// A set of objects, and those of them whose edges are still to be followed.
pub(crate) struct Marks {
    marked: Numbered<()>,
    left: Vec<u64>,
}

impl Model for Marks {
    ghost use Rattle.hd_plain.specs.Marked.{Marked, marked_code};

    ghost Value = { Marked };

    ghost coded = { marked_code };

    ghost view = { λ m. record { marked = m.marked; left = m.left.items } };
}

// Not derived, as that of a machine.
impl Drop for Marks {
    fn drop(self) {
        let Marks {
            marked: _marked,
            left: _left,
        } = self;
    }
}

impl Marks {
    /// None.
    pub(crate) fn open(alloc: Global) -> Marks
        ensures { result ≡ record { marked = map.empty; left = [] } }
    {
        Marks {
            marked: Numbered::new(alloc),
            left: Vec::new(alloc),
        }
    }

    /// Whether an object is marked.
    pub(crate) fn has(&self, id: u64) -> bool
        ensures { result ≡ map.contains_key self.now.marked id }
    {
        self.marked.has(id)
    }

    /// The least object that is marked.
    pub(crate) fn least(&self) -> Option<u64>
        ensures { IsLeastFrom self.now.marked 0 result }
    {
        self.marked.least_from(0)
    }

    /// Marks an object.
    pub(crate) fn mark(&mut self, id: u64) -> Result<(), Memory>
        ensures { IfOk result (λ _. self.new ≡ with_mark self.old id) }
    {
        if self.marked.has(id) {
            return Ok(());
        }
        self.marked.insert(id, ())?;
        match self.left.push(id) {
            Ok(_) => Ok(()),
            Err(_) => Err(Memory),
        }
    }

    /// Marks what is referenced, if anything.
    pub(crate) fn mark_some(&mut self, target: Option<Id>) -> Result<(), Memory>
        ensures { IfOk result (λ _. self.new ≡ with_target self.old target) }
    {
        match target {
            Some(id) => self.mark(id.0),
            None => Ok(()),
        }
    }

    /// Follows edges to objects of no generation above n until no marked object has one to such an
    /// object that is not marked.
    pub(crate) fn close(
        &mut self,
        machine: &Machine,
        n: u8,
        attached: &Attached,
    ) -> Result<(), Memory>
        requires generations { HasGenerations machine.now.state.objects }
        requires attached { ListsAttached machine.now.state attached.now }
        requires awaits { Awaits (YoungEdge n machine.now.state) self.old }
        ensures { IfOk result (λ _. Closes (YoungEdge n machine.now.state) self.old self.new) }
    {
        let sight = Sight {
            objects: &machine.objects,
            n,
        };
        'objects: while let Some(id) = self.take() {
            self.mark_fields(&sight, id)?;
            self.mark_secondaries(&sight, attached, id)?;
        }
        Ok(())
    }

    // Takes an object whose edges are to be followed.
    fn take(&mut self) -> Option<u64>
        ensures few { map.len self.old.marked < 2 ^ 63 }
        ensures taken { MatchOption result ((self.old.left ≡ []) × (self.new ≡ self.old))
            (λ id. self.old ≡ record self.new { left = self.new.left ++ id ∷ [] }) }
    {
        // Read for the proof: a map has fewer than 2^63 entries.
        let _count = self.marked.len();
        self.left.pop()
    }

    // Marks what the fields of an object reference.
    fn mark_fields(&mut self, sight: &Sight<'_>, id: u64) -> Result<(), Memory>
        requires { HasGenerations sight.now.objects.now }
        ensures { let objects = sight.now.objects.now in
            let fields = map (young sight.now.n objects) (fields_in (map.get objects id)) in
            IfOk result (λ _. self.new ≡ with_targets self.old fields) }
    {
        match sight.objects.get(id) {
            Some(object) => self.mark_young(sight, &object.fields),
            None => Ok(()),
        }
    }

    /// Marks what is attached to an object.
    pub(crate) fn mark_secondaries(
        &mut self,
        sight: &Sight<'_>,
        attached: &Attached,
        id: u64,
    ) -> Result<(), Memory>
        requires { HasGenerations sight.now.objects.now }
        ensures { let those = map (young_at sight.now.n sight.now.objects.now) (secondaries attached.now id) in
            IfOk result (λ _. self.new ≡ with_targets self.old those) }
    {
        let Some(list) = attached.list(id) else {
            return Ok(());
        };
        for secondary in list {
            self.mark_some(sight.young(Some(Id(*secondary))))?;
        }
        Ok(())
    }

    /// The objects that are marked, by identity.
    pub(crate) fn ids(&self, alloc: Global) -> Result<Vec<u64>, Memory>
        ensures { IfOk result (λ ids. ids.items ≡ map.keys self.now.marked) }
    {
        self.marked.keys(alloc)
    }

    /// The same objects once more.
    pub(crate) fn copy(&self, alloc: Global) -> Result<Marks, Memory>
        requires { self.now.left ≡ [] }
        ensures { IfOk result (λ copy. copy ≡ self.now) }
    {
        Ok(Marks {
            marked: copied(&self.marked)?,
            left: Vec::new(alloc),
        })
    }

    /// Marks all that are referenced and of no generation above n.
    pub(crate) fn mark_young(
        &mut self,
        sight: &Sight<'_>,
        targets: &[Option<Id>],
    ) -> Result<(), Memory>
        requires { HasGenerations sight.now.objects.now }
        ensures { let those = map (young sight.now.n sight.now.objects.now) targets.now in
            IfOk result (λ _. self.new ≡ with_targets self.old those) }
    {
        for target in targets {
            self.mark_some(sight.young(*target))?;
        }
        Ok(())
    }

    // Marks what is queued and of no generation above n.
    fn mark_queue(&mut self, sight: &Sight<'_>, queue: &VecDeque<Id>) -> Result<(), Memory>
        requires { HasGenerations sight.now.objects.now }
        ensures { let those = map (young sight.now.n sight.now.objects.now) (referenced queue.now.items) in
            IfOk result (λ _. self.new ≡ with_targets self.old those) }
    {
        for id in queue {
            self.mark_some(sight.young(Some(*id)))?;
        }
        Ok(())
    }
}

/// The objects, and a generation above which they need no mark.
#[derive(Clone, Copy)]
pub(crate) struct Sight<'a> {
    pub(crate) objects: &'a Objects,
    pub(crate) n: u8,
}

impl<'a> Sight<'a> {
    /// Whether an object is of a generation above n.
    pub(crate) fn is_older(&self, id: u64) -> bool
        requires { HasGenerations self.now.objects.now }
        ensures { result ≡ is_older self.now.n self.now.objects.now (record { 0 = id }) }
    {
        // None is of a generation above the oldest, so nothing is looked up there.
        if self.n >= OLDEST {
            return false;
        }
        match self.objects.get(id) {
            Some(object) => object.generation > self.n,
            None => false,
        }
    }

    /// What is referenced, where it is of no generation above n.
    pub(crate) fn young(&self, target: Option<Id>) -> Option<Id>
        requires { HasGenerations self.now.objects.now }
        ensures { result ≡ young self.now.n self.now.objects.now target }
    {
        match target {
            Some(id) => { if self.is_older(id.0) { None } else { target } }
            None => None,
        }
    }

    /// Whether an object is of a generation above n, or marked.
    pub(crate) fn has(&self, marks: &Marks, id: Id) -> bool
        requires { HasGenerations self.now.objects.now }
        ensures { result ≡ is_seen self.now marks.now id }
    {
        self.is_older(id.0) || marks.has(id.0)
    }

    /// Whether a target is neither; null is neither.
    pub(crate) fn lacks(&self, marks: &Marks, target: Option<Id>) -> bool
        requires { HasGenerations self.now.objects.now }
        ensures { result ≡ is_lost (is_seen self.now marks.now) target }
    {
        match target {
            Some(id) => !self.has(marks, id),
            None => false,
        }
    }
}

/// What a handle holds, if anything.
pub(crate) fn held_by(handle: Handle) -> Option<Id>
    ensures { result ≡ held_by (Some (handle_of handle)) }
{
    match handle.role() {
        Role::Holds => handle.target,
        Role::Short | Role::Long | Role::Attaches => None,
    }
}

// Marks what the handle in a slot holds and is of no generation above n, or adds what it attaches.
fn note_handle(
    alloc: Global,
    table: &Table,
    sight: &Sight<'_>,
    slot: u64,
    marks: &mut Marks,
    attached: &mut Attached,
) -> Result<(), Memory>
    requires { HasGenerations sight.now.objects.now }
    ensures held { let at = young_held sight.now.n sight.now.objects.now table.now.handles in
        IfOk result (λ _. marks.new ≡ with_target marks.old (at slot)) }
    ensures pairs { IfOk result (λ _.
        Adds attached.old attached.new (pair_in (get table.now.handles slot))) }
{
    let Some(handle) = table.handle(slot) else {
        return Ok(());
    };
    match handle.role() {
        Role::Holds => marks.mark_some(sight.young(handle.target)),
        Role::Attaches => attached.add(alloc, handle.target, handle.secondary()),
        Role::Short | Role::Long => Ok(()),
    }
}

// Marks what the handles in slots hold and is of no generation above n, and adds what they attach.
fn note_handles(
    alloc: Global,
    table: &Table,
    sight: &Sight<'_>,
    slots: &[u64],
    marks: &mut Marks,
    attached: &mut Attached,
) -> Result<(), Memory>
    requires { HasGenerations sight.now.objects.now }
    ensures held { let at = young_held sight.now.n sight.now.objects.now table.now.handles in
        IfOk result (λ _. marks.new ≡ with_targets marks.old (map at slots.now)) }
    ensures pairs { IfOk result (λ _.
        Adds attached.old attached.new (pairs_in (map (get table.now.handles) slots.now))) }
{
    for slot in slots {
        note_handle(alloc, table, sight, *slot, marks, attached)?;
    }
    Ok(())
}

/// Marks what statics reference, what is queued, and what handles hold, where it is of no generation
/// above n, and returns what is attached. Each handle is read once.
pub(crate) fn mark_anchors(
    machine: &Machine,
    n: u8,
    slots: &[u64],
    entries: &[u64],
    marks: &mut Marks,
) -> Result<Attached, Memory>
    requires formed { IsWellFormed machine.now.numbers machine.now.state }
    requires slots { slots.now ≡ map.keys machine.now.state.handles }
    requires entries { entries.now ≡ map.keys machine.now.state.weak }
    ensures gains { IfOk result (λ _.
        Gains (IsYoungAnchor n machine.now.state) marks.old marks.new) }
    ensures listed { IfOk result (ListsAttached machine.now.state) }
{
    let alloc = machine.alloc;
    let sight = Sight {
        objects: &machine.objects,
        n,
    };
    let mut attached = Attached::none(alloc);
    marks.mark_young(&sight, &machine.statics)?;
    marks.mark_queue(&sight, &machine.queue)?;
    note_handles(alloc, &machine.table, &sight, slots, marks, &mut attached)?;
    attached.add_slots(alloc, &machine.weak, entries)?;
    Ok(attached)
}
