// A collection: what is reached and what is kept is marked, and then handles, entries and objects
// are changed, each in one pass. A machine that runs out of memory in between is dropped.
ghost use Rattle.std.specs.Prelude.{◌≡◌, ℕ, ◌+◌, ◌<◌, ◌≤◌, ◌^◌, [], ◌∷◌, ◌++◌, cond, map, None, IfOk, Decides, flat_map};
ghost use Rattle.std.specs.FinMap.{get};
ghost use Rattle.hd_model.specs.declared.data.Id.{Id as Name};
ghost use Rattle.hd_model.specs.declared.limits.TheConstants.{OLDEST};
ghost use Rattle.hd_model.specs.{Collect.CollectsState, Collect.loses, PinnedAddresses.is_pinned};
ghost use Rattle.hd_model.specs.{Reach.IsKept, Reach.IsReached, Scene.scene_of, WellFormed.IsWellFormed};
ghost use Rattle.hd_plain.specs.Attaching.{ListsAttached};
ghost use Rattle.hd_plain.specs.Inside.{Gains, HasGenerations, HasReached, IsFromOlder, IsYoungRoot};
ghost use Rattle.hd_plain.specs.Inside.{edges_from, is_above, is_seen, young, young_ids, young_in};
ghost use Rattle.hd_plain.specs.Inside.{is_marked, with_rows, with_targets, no_marks, pinned_at, resurrected_at, AreFew, HavePassed, IsWalk, report_of, cleared_one, cleared_to, counted, emptied, no_fates, no_losses, one_if, pass, settled_one, settled_to, swept_one, swept_to, wakes, without_one};
ghost use Rattle.hd_maps.specs.StoredObjects.{IsYoungest};
ghost use Rattle.hd_model.specs.Handles.{handle_of, role_as};

use crate::machine::Machine;
use crate::marks::{Attached, Marks, Sight, mark_anchors};
use hd_maps::{Edit, Handle, Object, Objects, PinnedAddresses, Table, Weak, raised};
use hd_model::limits::OLDEST;
use hd_model::{Extra, Id, Memory, Report, Role};
use std::alloc::Global;
use std::collections::VecDeque;

// What a collection of n goes over: the identities of objects of no generation above n, the slots
// that have handles, and those that the weak table holds, each rising.
#[derive(Drop)]
struct Walk {
    ids: Vec<u64>,
    slots: Vec<u64>,
    entries: Vec<u64>,
}

// What is reached, and what is kept, beside all objects of generations above n.
#[derive(Drop)]
struct Decided {
    reached: Marks,
    kept: Marks,
}

// How many handles lost their targets, by role.
#[derive(Clone, Copy)]
struct Losses {
    short: usize,
    long: usize,
    dep: usize,
}

// How many condemned objects stay, how many objects are removed, and how many are resurrected.
#[derive(Clone, Copy)]
struct Fates {
    kept: usize,
    removed: usize,
    revived: usize,
}

// How many handles lost their targets, how many entries left the weak table, and what became of
// objects.
#[derive(Clone, Copy)]
struct Changes {
    losses: Losses,
    swept: usize,
    fates: Fates,
}

// The report of a collection that condemns nothing.
const NOTHING: Report = Report {
    kept: 0,
    removed: 0,
    short: 0,
    long: 0,
    dep: 0,
    revived: 0,
};

const NO_LOSSES: Losses = Losses {
    short: 0,
    long: 0,
    dep: 0,
};

const NO_FATES: Fates = Fates {
    kept: 0,
    removed: 0,
    revived: 0,
};

impl Losses {
    // One more of a role.
    fn with(self, role: Role) -> Losses
        requires { (self.short < 2 ^ 63) × (self.long < 2 ^ 63) × (self.dep < 2 ^ 63) }
        ensures { result ≡ counted (role_as role) self }
    {
        match role {
            Role::Holds => self,
            Role::Short => Losses {
                short: self.short + 1,
                ..self
            },
            Role::Long => Losses {
                long: self.long + 1,
                ..self
            },
            Role::Attaches => Losses {
                dep: self.dep + 1,
                ..self
            },
        }
    }
}

impl Changes {
    // The report of the collection.
    fn report(&self) -> Report
        requires { AreFew self.now }
        ensures { result ≡ report_of self.now }
    {
        Report {
            kept: self.fates.kept as u32,
            removed: self.fates.removed as u32,
            short: self.losses.short as u32,
            long: self.losses.long as u32,
            dep: (self.losses.dep + self.swept) as u32,
            revived: self.fates.revived as u32,
        }
    }
}

impl Machine {
    /// `collect n`.
    pub fn collect(&mut self, n: u8) -> Result<Report, Memory>
        requires generation { n ≤ OLDEST }
        requires formed { IsWellFormed self.old.numbers self.old.state }
        ensures collects { IfOk result (CollectsState n self.old.state self.new.state) }
        ensures numbers { IfOk result (λ _. self.new.numbers ≡ self.old.numbers) }
    {
        let youngest = self.youngest();
        if youngest > n {
            self.forget()?;
            return Ok(NOTHING);
        }
        let walk = self.walk(n)?;
        let decided = self.decide(n, &walk)?;
        self.forget()?;
        let changes = self.change(n, &walk, &decided)?;
        self.raise_youngest(raised(n, youngest));
        Ok(changes.report())
    }

    // A generation that no object is below.
    fn youngest(&self) -> u8
        ensures { IsYoungest result self.now.state.objects }
    {
        self.objects.youngest()
    }

    // No object is below a generation any more.
    fn raise_youngest(&mut self, generation: u8)
        requires { IsYoungest generation self.old.state.objects }
        ensures { self.new ≡ self.old }
    {
        self.objects.raise_youngest(generation);
    }

    // What there is to go over.
    fn walk(&self, n: u8) -> Result<Walk, Memory>
        requires { IsWellFormed self.now.numbers self.now.state }
        ensures { IfOk result (IsWalk n self.now.state) }
    {
        // For the proof: each object takes some of the cells, and there are few blocks.
        let _used = self.objects.used();
        let _blocks = self.table.blocks();
        let ids = young_ids(self.alloc, &self.objects, n)?;
        let slots = self.table.slots(self.alloc)?;
        let entries = self.weak.slots(self.alloc)?;
        Ok(Walk {
            ids,
            slots,
            entries,
        })
    }

    // What a collection of n reaches and keeps.
    fn decide(&self, n: u8, walk: &Walk) -> Result<Decided, Memory>
        requires formed { IsWellFormed self.now.numbers self.now.state }
        requires walk { IsWalk n self.now.state walk.now }
        ensures reached { IfOk result (λ d. (x : Name)
            → Decides (is_above n self.now.state.objects d.reached x)
            (IsReached (scene_of self.now.state) n x)) }
        ensures kept { IfOk result (λ d. (x : Name)
            → Decides (is_above n self.now.state.objects d.kept x)
            (IsKept (scene_of self.now.state) n x)) }
    {
        let mut reached = Marks::open(self.alloc);
        let attached = self.mark_reached(n, walk, &mut reached)?;
        let kept = self.kept_beside(n, walk, &reached, &attached)?;
        Ok(Decided { reached, kept })
    }

    // Marks what a collection of n reaches, and returns what is attached.
    #[inline(always)]
    fn mark_reached(&self, n: u8, walk: &Walk, reached: &mut Marks) -> Result<Attached, Memory>
        requires formed { IsWellFormed self.now.numbers self.now.state }
        requires walk { IsWalk n self.now.state walk.now }
        requires none { reached.old ≡ no_marks }
        ensures reached { IfOk result (λ _. HasReached n self.now.state reached.new) }
        ensures listed { IfOk result (ListsAttached self.now.state) }
    {
        let attached = self.mark_roots(n, walk, reached)?;
        reached.close(self, n, &attached)?;
        Ok(attached)
    }

    // Marks the roots of a collection of n, and returns what is attached.
    #[inline(always)]
    fn mark_roots(&self, n: u8, walk: &Walk, marks: &mut Marks) -> Result<Attached, Memory>
        requires formed { IsWellFormed self.now.numbers self.now.state }
        requires walk { IsWalk n self.now.state walk.now }
        ensures gains { IfOk result (λ _.
            Gains (IsYoungRoot n self.now.state) marks.old marks.new) }
        ensures listed { IfOk result (ListsAttached self.now.state) }
    {
        self.mark_registers(n, marks)?;
        let attached = mark_anchors(self, n, &walk.slots, &walk.entries, marks)?;
        self.mark_from_older(n, &attached, marks)?;
        Ok(attached)
    }

    // What a collection of n keeps: what it reaches, and what is resurrected.
    #[inline(always)]
    fn kept_beside(
        &self,
        n: u8,
        walk: &Walk,
        reached: &Marks,
        attached: &Attached,
    ) -> Result<Marks, Memory>
        requires formed { IsWellFormed self.now.numbers self.now.state }
        requires walk { IsWalk n self.now.state walk.now }
        requires reached { HasReached n self.now.state reached.now }
        requires listed { ListsAttached self.now.state attached.now }
        ensures { IfOk result (λ kept. (x : Name)
            → Decides (is_above n self.now.state.objects kept x)
            (IsKept (scene_of self.now.state) n x)) }
    {
        let mut kept = reached.copy(self.alloc)?;
        self.mark_resurrected(n, &walk.ids, reached, &mut kept)?;
        kept.close(self, n, attached)?;
        Ok(kept)
    }

    // Changes handles, entries and objects, each in one pass.
    fn change(&mut self, n: u8, walk: &Walk, decided: &Decided) -> Result<Changes, Memory>
        requires { HasGenerations self.old.state.objects }
        ensures passes { IfOk result (HavePassed n walk.now decided.now self.old.state
            self.new.state) }
        ensures numbers { IfOk result (λ _. self.new.numbers ≡ self.old.numbers) }
    {
        let sight = Sight {
            objects: &self.objects,
            n,
        };
        let losses = clear_handles(&mut self.table, &walk.slots, &sight, decided);
        let swept = sweep(&mut self.weak, &walk.entries, &sight, &decided.kept)?;
        let fates = settle(&mut self.objects, &mut self.queue, n, &walk.ids, decided)?;
        Ok(Changes {
            losses,
            swept,
            fates,
        })
    }

    // Marks what object registers reference and is of no generation above n.
    fn mark_registers(&self, n: u8, marks: &mut Marks) -> Result<(), Memory>
        requires { HasGenerations self.now.state.objects }
        ensures { let those = map (map (young n self.now.state.objects)) self.now.state.registers in
            IfOk result (λ _. marks.new ≡ with_rows marks.old those) }
    {
        let sight = Sight {
            objects: &self.objects,
            n,
        };
        for row in &self.registers {
            marks.mark_young(&sight, row)?;
        }
        Ok(())
    }

    // Marks what edges lead to from objects of generations above n and is of none such.
    fn mark_from_older(&self, n: u8, attached: &Attached, marks: &mut Marks) -> Result<(), Memory>
        requires formed { IsWellFormed self.now.numbers self.now.state }
        requires listed { ListsAttached self.now.state attached.now }
        ensures { IfOk result (λ _. Gains (IsFromOlder n self.now.state) marks.old marks.new) }
    {
        // None is of a generation above the oldest.
        if n >= OLDEST {
            return Ok(());
        }
        let entries = self.objects.entries(self.alloc)?;
        let sight = Sight {
            objects: &self.objects,
            n,
        };
        mark_from_all(&sight, &entries, attached, marks)
    }

    // Marks the objects that are to be resurrected.
    fn mark_resurrected(
        &self,
        n: u8,
        ids: &[u64],
        reached: &Marks,
        marks: &mut Marks,
    ) -> Result<(), Memory>
        ensures { let at = resurrected_at n (is_marked reached.now) self.now.state.objects in
            IfOk result (λ _. marks.new ≡ with_targets marks.old (map at ids.now)) }
    {
        for id in ids {
            marks.mark_some(self.resurrected_at(n, *id, reached))?;
        }
        Ok(())
    }

    // An object, where it is to be resurrected.
    fn resurrected_at(&self, n: u8, id: u64, reached: &Marks) -> Option<Id>
        ensures { let at = resurrected_at n (is_marked reached.now) self.now.state.objects in
            result ≡ at id }
    {
        match self.objects.get(id) {
            Some(object) => {
                if wakes(object, n, id, reached) {
                    Some(Id(id))
                } else {
                    None
                }
            }
            None => None,
        }
    }

    // Forgets the pinned addresses of objects that no handle pins.
    fn forget(&mut self) -> Result<(), Memory>
        requires { IsWellFormed self.old.numbers self.old.state }
        ensures each { IfOk result (λ _. (x : ℕ) → get self.new.state.pinned x
            ≡ cond (is_pinned self.old.state.handles x) (get self.old.state.pinned x) None) }
        ensures rest { let pinned = self.new.state.pinned in IfOk result (λ _.
            self.new ≡ record self.old { state = record self.old.state { pinned = pinned } }) }
    {
        let ids = self.pinned.ids(self.alloc)?;
        if ids.is_empty() {
            return Ok(());
        }
        let slots = self.table.slots(self.alloc)?;
        let pinned = pinned(self.alloc, &self.table, &slots)?;
        unpin(&mut self.pinned, &ids, &pinned);
        Ok(())
    }
}

// The objects of no generation above n, by identity.
fn young_ids(alloc: Global, objects: &Objects, n: u8) -> Result<Vec<u64>, Memory>
    ensures { IfOk result (λ ids. ids.items ≡ young_ids n objects.now) }
{
    let entries = objects.entries(alloc)?;
    let mut ids = Vec::new(alloc);
    push_all_young(&entries, n, &mut ids)?;
    Ok(ids)
}

// Appends the objects of a list that are of no generation above n.
fn push_all_young(entries: &[(u64, &Object)], n: u8, ids: &mut Vec<u64>) -> Result<(), Memory>
    ensures { IfOk result (λ _. ids.new.items
        ≡ ids.old.items ++ flat_map (young_in n) entries.now) }
{
    for entry in entries {
        push_young(entry, n, ids)?;
    }
    Ok(())
}

// Appends an object, where it is of no generation above n.
fn push_young(entry: &(u64, &Object), n: u8, ids: &mut Vec<u64>) -> Result<(), Memory>
    ensures { IfOk result (λ _. ids.new.items ≡ ids.old.items ++ young_in n entry.now) }
{
    let (id, object) = *entry;
    if object.generation > n {
        return Ok(());
    }
    match ids.push(id) {
        Ok(_) => Ok(()),
        Err(_) => Err(Memory),
    }
}

// Marks what edges lead to from objects of a list that are of generations above n.
fn mark_from_all(
    sight: &Sight<'_>,
    entries: &[(u64, &Object)],
    attached: &Attached,
    marks: &mut Marks,
) -> Result<(), Memory>
    requires { HasGenerations sight.now.objects.now }
    ensures { let rows = map (edges_from sight.now.n sight.now.objects.now attached.now) entries.now in
        IfOk result (λ _. marks.new ≡ with_rows marks.old rows) }
{
    for entry in entries {
        mark_from(sight, entry, attached, marks)?;
    }
    Ok(())
}

// Marks what edges lead to from an object that is of a generation above n.
fn mark_from(
    sight: &Sight<'_>,
    entry: &(u64, &Object),
    attached: &Attached,
    marks: &mut Marks,
) -> Result<(), Memory>
    requires { HasGenerations sight.now.objects.now }
    ensures { let row = edges_from sight.now.n sight.now.objects.now attached.now entry.now in
        IfOk result (λ _. marks.new ≡ with_targets marks.old row) }
{
    let (id, object) = *entry;
    if object.generation <= sight.n {
        return Ok(());
    }
    marks.mark_young(sight, &object.fields)?;
    marks.mark_secondaries(sight, attached, id)
}

// What handles pin.
fn pinned(alloc: Global, table: &Table, slots: &[u64]) -> Result<Marks, Memory>
    ensures { IfOk result (λ marks. marks
        ≡ with_targets no_marks (map (pinned_at table.now.handles) slots.now)) }
{
    let mut marks = Marks::open(alloc);
    for slot in slots {
        marks.mark_some(pinned_at(table, *slot))?;
    }
    Ok(marks)
}

// What the handle in a slot pins.
fn pinned_at(table: &Table, slot: u64) -> Option<Id>
    ensures { result ≡ pinned_at table.now.handles slot }
{
    match table.handle(slot) {
        Some(handle) => { if handle.pins() { handle.target } else { None } }
        None => None,
    }
}

// Forgets the pinned addresses of the objects of a list that are not marked.
fn unpin(addresses: &mut PinnedAddresses, ids: &[u64], pinned: &Marks)
    ensures { addresses.new ≡ pass (without_one (is_marked pinned.now)) addresses.old ids.now }
{
    for id in ids {
        unpin_one(addresses, *id, pinned);
    }
}

// Forgets the pinned address of an object that is not marked.
fn unpin_one(addresses: &mut PinnedAddresses, id: u64, pinned: &Marks)
    ensures { addresses.new ≡ without_one (is_marked pinned.now) addresses.old id }
{
    if !pinned.has(id) {
        addresses.take(id);
    }
}

// Empties the handles that lose their targets.
fn clear_handles(table: &mut Table, slots: &[u64], sight: &Sight<'_>, decided: &Decided) -> Losses
    requires { HasGenerations sight.now.objects.now }
    ensures each { cleared_to table.new.handles result
        ≡ pass (cleared_one (is_seen sight.now decided.now.reached) (is_seen sight.now decided.now.kept))
        (cleared_to table.old.handles no_losses) slots.now }
    ensures rest { table.new ≡ record table.old { handles = table.new.handles } }
{
    let mut losses = NO_LOSSES;
    for slot in slots {
        losses = clear_one(table, *slot, sight, decided, losses);
    }
    losses
}

// Empties the handle in a slot where it loses its target.
fn clear_one(
    table: &mut Table,
    slot: u64,
    sight: &Sight<'_>,
    decided: &Decided,
    losses: Losses,
) -> Losses
    requires few { (losses.short < 2 ^ 63) × (losses.long < 2 ^ 63) × (losses.dep < 2 ^ 63) }
    requires generations { HasGenerations sight.now.objects.now }
    ensures each { cleared_to table.new.handles result
        ≡ cleared_one (is_seen sight.now decided.now.reached) (is_seen sight.now decided.now.kept)
        (cleared_to table.old.handles losses) slot }
    ensures rest { table.new ≡ record table.old { handles = table.new.handles } }
{
    let Some(handle) = table.handle(slot) else {
        return losses;
    };
    if !loses(handle, sight, decided) {
        return losses;
    }
    table.replace(slot, emptied(handle));
    losses.with(handle.role())
}

// Whether a handle loses its target.
fn loses(handle: Handle, sight: &Sight<'_>, decided: &Decided) -> bool
    requires { HasGenerations sight.now.objects.now }
    ensures { result ≡ loses (is_seen sight.now decided.now.reached) (is_seen sight.now decided.now.kept)
        (handle_of handle) }
{
    match handle.role() {
        Role::Holds => false,
        Role::Short => sight.lacks(&decided.reached, handle.target),
        Role::Long | Role::Attaches => sight.lacks(&decided.kept, handle.target),
    }
}

// A handle without its target, and without its secondary.
fn emptied(handle: Handle) -> Handle
    ensures { handle_of result ≡ emptied (handle_of handle) }
{
    match handle.role() {
        Role::Attaches => Handle {
            kind: handle.kind,
            target: None,
            extra: Extra::Secondary(None),
        },
        Role::Holds | Role::Short | Role::Long => Handle {
            kind: handle.kind,
            target: None,
            extra: handle.extra,
        },
    }
}

// Takes out the entries whose keys are not kept, and returns how many.
fn sweep(weak: &mut Weak, slots: &[u64], sight: &Sight<'_>, kept: &Marks) -> Result<usize, Memory>
    requires { HasGenerations sight.now.objects.now }
    ensures { IfOk result (λ count. swept_to weak.new count
        ≡ pass (swept_one (is_seen sight.now kept.now)) (swept_to weak.old 0) slots.now) }
{
    let mut count = 0;
    for slot in slots {
        let more = sweep_one(weak, *slot, sight, kept, count)?;
        count = more;
    }
    Ok(count)
}

// Takes the entry out of a slot where its key is not kept, and counts it.
fn sweep_one(
    weak: &mut Weak,
    slot: u64,
    sight: &Sight<'_>,
    kept: &Marks,
    count: usize,
) -> Result<usize, Memory>
    requires few { count < 2 ^ 63 }
    requires generations { HasGenerations sight.now.objects.now }
    ensures { IfOk result (λ more. swept_to weak.new more
        ≡ swept_one (is_seen sight.now kept.now) (swept_to weak.old count) slot) }
{
    let Some(entry) = weak.entry(slot) else {
        return Ok(count);
    };
    if sight.has(kept, entry.key) {
        return Ok(count);
    }
    weak.clear(slot, entry.key)?;
    Ok(count + 1)
}

// Leaves objects as a collection of n does.
fn settle(
    objects: &mut Objects,
    queue: &mut VecDeque<Id>,
    n: u8,
    ids: &[u64],
    decided: &Decided,
) -> Result<Fates, Memory>
    ensures { IfOk result (λ fates.
        settled_to objects.new queue.new.items fates
        ≡ pass (settled_one n (is_marked decided.now.reached) (is_marked decided.now.kept))
        (settled_to objects.old queue.old.items no_fates) ids.now) }
{
    let mut fates = NO_FATES;
    for id in ids {
        let after = settle_one(objects, queue, n, *id, decided, fates)?;
        fates = after;
    }
    Ok(fates)
}

// Leaves an object as a collection of n does, if there is one.
fn settle_one(
    objects: &mut Objects,
    queue: &mut VecDeque<Id>,
    n: u8,
    id: u64,
    decided: &Decided,
    fates: Fates,
) -> Result<Fates, Memory>
    requires { (fates.kept < 2 ^ 63) × (fates.removed < 2 ^ 63) × (fates.revived < 2 ^ 63) }
    ensures { IfOk result (λ after.
        settled_to objects.new queue.new.items after
        ≡ settled_one n (is_marked decided.now.reached) (is_marked decided.now.kept)
        (settled_to objects.old queue.old.items fates) id) }
{
    let Some(object) = objects.get(id) else {
        return Ok(fates);
    };
    if !decided.kept.has(id) {
        objects.remove(id);
        return Ok(Fates {
            removed: fates.removed + 1,
            ..fates
        });
    }
    let young = object.generation <= n;
    let resurrected = wakes(object, n, id, &decided.reached);
    if resurrected {
        push_queued(queue, Id(id))?;
    }
    objects.edit(id, Edit::Survives(n, resurrected));
    Ok(Fates {
        kept: fates.kept + one_if(young),
        removed: fates.removed,
        revived: fates.revived + one_if(resurrected),
    })
}

// Whether an object is to be resurrected by a collection of n.
fn wakes(object: &Object, n: u8, id: u64, reached: &Marks) -> bool
    ensures { result ≡ wakes n (is_marked reached.now (record { 0 = id })) object.now }
{
    object.registered && (object.generation <= n && !reached.has(id))
}

// 1 for what is so, and 0 for what is not.
fn one_if(is_so: bool) -> usize
    ensures { result ≡ one_if is_so }
{
    if is_so { 1 } else { 0 }
}

// Appends an object to the queue.
fn push_queued(queue: &mut VecDeque<Id>, id: Id) -> Result<(), Memory>
    ensures { IfOk result (λ _. queue.new.items ≡ queue.old.items ++ id ∷ []) }
{
    match queue.push_back(id) {
        Ok(_) => Ok(()),
        Err(_) => Err(Memory),
    }
}
