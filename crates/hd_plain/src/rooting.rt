// The search for why an object lives: where no anchor is close to it, a walk breadth first from the
// anchors, which are taken by identity. So an object is first found along a shortest chain, and
// along one from the least anchor that has one.
ghost use Rattle.std.specs.Prelude.{◌≡◌, ℕ, ◌+◌, ◌<◌, ◌↔◌, ◌^◌, ◌++◌, [], length, slice_get, None, Some, IfOk, IfSome, IsTrue, flat_map, MatchOption, AllPairs, Contains};
ghost use Rattle.std.specs.FinMap.{get, len};
ghost use Rattle.hd_model.specs.Scene.{fields_in};
ghost use Rattle.hd_model.specs.Anchors.{AnchorOf, EdgeOf, IsShortest, IsUnrooted};
ghost use Rattle.hd_model.specs.WellFormed.{IsWellFormed};
ghost use Rattle.hd_model.specs.declared.data.Id.{Id as Name};
ghost use Rattle.hd_plain.specs.Attaching.{ListsAttached, secondaries};
ghost use Rattle.hd_plain.specs.Commands.{ComesToRoot};
ghost use Rattle.hd_plain.specs.Edges.{IsNode, in_any_order, leads_in};
ghost use Rattle.hd_plain.specs.Inside.{Gains, IsAnchorId, nodes_in, held_by};
ghost use Rattle.hd_walk.specs.{Trail.with_all, Walk.HasEnded};
ghost use Rattle.hd_model.specs.Handles.{handle_of};
ghost use Rattle.hd_maps.specs.TableViews.{Row};

use crate::levels::{Origin, near};
use crate::machine::Machine;
use crate::marks::{Attached, Marks, held_by, mark_anchors};
use hd_commands::{Done, Parts};
use hd_maps::Handle;
use hd_model::limits::{OLDEST, REGISTERS};
use hd_model::{Id, Memory, Refusal, Reply};
use hd_walk::{Edges, Trail, read_back, walk};
use std::alloc::{AllocError, Global};

// The edges of a state: what fields reference, and what is attached.
#[derive(Drop)]
struct Graph<'a> {
    machine: &'a Machine,
    attached: &'a Attached,
}

impl<'a> Edges for Graph<'a> {
    ghost use Rattle.hd_plain.specs.Edges.{IsNode, in_any_order, leads_in};

    ghost node = { λ g. IsNode g.machine.now g.attached.now };

    ghost edge = { λ g. leads_in g.machine.now.state };

    ghost order = { in_any_order };

    fn list(&self, at: u64, targets: &mut Vec<u64>) -> Result<(), AllocError> {
        push_fields(self.machine, at, targets)?;
        push_attached(self.attached, at, targets)
    }
}

// Appends what the fields of an object reference.
fn push_fields(machine: &Machine, at: u64, targets: &mut Vec<u64>) -> Result<(), AllocError>
    ensures { let fields = fields_in (get machine.now.state.objects at) in
        IfOk result (λ _. targets.new.items ≡ targets.old.items ++ flat_map nodes_in fields) }
{
    match machine.objects.get(at) {
        Some(object) => push_targets(&object.fields, targets),
        None => Ok(()),
    }
}

// Appends what is attached to an object.
fn push_attached(attached: &Attached, at: u64, targets: &mut Vec<u64>) -> Result<(), AllocError>
    ensures { IfOk result (λ _. targets.new.items
        ≡ targets.old.items ++ secondaries attached.now at) }
{
    match attached.list(at) {
        Some(list) => push_all(list, targets),
        None => Ok(()),
    }
}

// Appends what fields reference.
fn push_targets(fields: &[Option<Id>], targets: &mut Vec<u64>) -> Result<(), AllocError>
    ensures { IfOk result (λ _. targets.new.items ≡ targets.old.items
        ++ flat_map nodes_in fields.now) }
{
    for field in fields {
        push_target(*field, targets)?;
    }
    Ok(())
}

// Appends what is referenced, if anything.
fn push_target(field: Option<Id>, targets: &mut Vec<u64>) -> Result<(), AllocError>
    ensures { IfOk result (λ _. targets.new.items ≡ targets.old.items ++ nodes_in field) }
{
    if let Some(id) = field {
        targets.push(id.0)?;
    }
    Ok(())
}

// Appends a list.
fn push_all(list: &[u64], targets: &mut Vec<u64>) -> Result<(), AllocError>
    ensures { IfOk result (λ _. targets.new.items ≡ targets.old.items ++ list.now) }
{
    for id in list {
        targets.push(*id)?;
    }
    Ok(())
}

// Whether one of a list of handles holds an object.
fn is_held(handles: &[Handle], goal: Id) -> bool
    ensures { IsTrue result → (h : Row) × (Contains handles.now h
        × (held_by (Some (handle_of h)) ≡ Some goal)) }
{
    for handle in handles {
        if holds(*handle, goal) {
            return true;
        }
    }
    false
}

// Whether a handle holds an object.
fn holds(handle: Handle, goal: Id) -> bool
    ensures { IsTrue result → held_by (Some (handle_of handle)) ≡ Some goal }
{
    match held_by(handle) {
        Some(id) => id.0 == goal.0,
        None => false,
    }
}

// Where a chain begins, and its number of edges.
fn origin_of(chain: &[u64]) -> Origin
    requires { 0 < length chain.now }
    ensures from { slice_get chain.now 0 ≡ Some result.from.0 }
    ensures edges { result.edges + 1 ≡ length chain.now }
{
    Origin {
        from: Id(chain[0]),
        edges: chain.len() as u64 - 1,
    }
}

// Walks from the anchors until an object is found, and returns the index at which it is.
#[inline(always)]
fn walk_to(
    alloc: Global,
    graph: &Graph<'_>,
    anchors: &[u64],
    goal: Id,
    trail: &mut Trail,
) -> Result<Option<usize>, AllocError>
    requires formed { IsWellFormed graph.now.machine.now.numbers graph.now.machine.now.state }
    requires listed { ListsAttached graph.now.machine.now.state graph.now.attached.now }
    requires rising { AllPairs (λ x y. x < y) anchors.now }
    requires all { (x : Name)
        → Contains anchors.now x.0 ↔ AnchorOf graph.now.machine.now.state x }
    requires none { trail.old ≡ [] }
    ensures { let j = graph.now.machine.now in let a = graph.now.attached.now in
        let starts = with_all [] anchors.now None in
        IfOk result (HasEnded (IsNode j a) (leads_in j.state) in_any_order (Some goal.0) starts 0
        trail.new) }
{
    trail.add_all(anchors, None)?;
    walk(alloc, graph, trail, 0, Some(goal.0))
}

// Where a shortest chain to an object begins, from the anchors on, if there is one.
fn chain_to(
    alloc: Global,
    graph: &Graph<'_>,
    anchors: &[u64],
    goal: Id,
) -> Result<Option<Origin>, AllocError>
    requires formed { IsWellFormed graph.now.machine.now.numbers graph.now.machine.now.state }
    requires listed { ListsAttached graph.now.machine.now.state graph.now.attached.now }
    requires rising { AllPairs (λ x y. x < y) anchors.now }
    requires all { (x : Name)
        → Contains anchors.now x.0 ↔ AnchorOf graph.now.machine.now.state x }
    ensures shortest { let edge = EdgeOf graph.now.machine.now.state in
        let anchor = AnchorOf graph.now.machine.now.state in
        IfOk result (λ found. MatchOption found (IsUnrooted edge anchor goal)
        (λ o. IsShortest edge anchor (λ (x : Name). x.0) goal o.from o.edges)) }
    ensures few { IfOk result (λ found.
        IfSome found (λ o. o.edges < len graph.now.machine.now.state.objects)) }
{
    let mut trail = Trail::open(alloc);
    let end = walk_to(alloc, graph, anchors, goal, &mut trail)?;
    // For the proof: each is found once.
    let _count = trail.len();
    let Some(last) = end else {
        return Ok(None);
    };
    let chain = read_back(alloc, &trail, last)?;
    Ok(Some(origin_of(&chain)))
}

// The same of the anchors of a state.
fn root_of(machine: &Machine, goal: Id) -> Result<Option<Origin>, Memory>
    requires { IsWellFormed machine.now.numbers machine.now.state }
    ensures shortest { let edge = EdgeOf machine.now.state in
        let anchor = AnchorOf machine.now.state in
        IfOk result (λ found. MatchOption found (IsUnrooted edge anchor goal)
        (λ o. IsShortest edge anchor (λ (x : Name). x.0) goal o.from o.edges)) }
    ensures few { IfOk result (λ found. IfSome found (λ o. o.edges < 2 ^ 32)) }
{
    let handles = machine.table.handles(machine.alloc)?;
    if is_held(&handles, goal) {
        return Ok(Some(Origin {
            from: goal,
            edges: 0,
        }));
    }
    if let Some(found) = near(machine, &handles, goal)? {
        return Ok(Some(found));
    }
    searched(machine, goal)
}

// The same, by a walk from all anchors.
#[inline(always)]
fn searched(machine: &Machine, goal: Id) -> Result<Option<Origin>, Memory>
    requires { IsWellFormed machine.now.numbers machine.now.state }
    ensures shortest { let edge = EdgeOf machine.now.state in
        let anchor = AnchorOf machine.now.state in
        IfOk result (λ found. MatchOption found (IsUnrooted edge anchor goal)
        (λ o. IsShortest edge anchor (λ (x : Name). x.0) goal o.from o.edges)) }
    ensures few { IfOk result (λ found. IfSome found (λ o. o.edges < 2 ^ 32)) }
{
    // For the proof: each object takes some of the cells.
    let _used = machine.objects.used();
    let mut marks = Marks::open(machine.alloc);
    let attached = mark_all_anchors(machine, &mut marks)?;
    let anchors = marks.ids(machine.alloc)?;
    let graph = Graph {
        machine,
        attached: &attached,
    };
    match chain_to(machine.alloc, &graph, &anchors, goal) {
        Ok(found) => Ok(found),
        Err(_) => Err(Memory),
    }
}

// Marks all anchors, and returns what is attached.
#[inline(always)]
fn mark_all_anchors(machine: &Machine, marks: &mut Marks) -> Result<Attached, Memory>
    requires { IsWellFormed machine.now.numbers machine.now.state }
    ensures gains { IfOk result (λ _. Gains (IsAnchorId machine.now.state) marks.old marks.new) }
    ensures listed { IfOk result (ListsAttached machine.now.state) }
{
    let slots = machine.table.slots(machine.alloc)?;
    let entries = machine.weak.slots(machine.alloc)?;
    mark_anchors(machine, OLDEST, &slots, &entries, marks)
}

impl Machine {
    /// `gcroot rS`.
    pub fn reply_root(&self, caller: u32, s: u8) -> Result<Result<Done, Refusal>, Memory>
        requires caller { caller < self.now.numbers.callers }
        requires register { s < REGISTERS }
        requires formed { IsWellFormed self.now.numbers self.now.state }
        ensures { IfOk result (ComesToRoot self.now caller s) }
    {
        let Some(goal) = self.register(caller, s) else {
            return Ok(Err(Refusal::Null));
        };
        let found = root_of(self, goal)?;
        match found {
            Some(Origin { from, edges }) => {
                let arrows = edges as u32;
                Ok(Ok(Done::of(Reply::Chain { from, arrows })))
            }
            None => Ok(Ok(Done::of(Reply::Unrooted))),
        }
    }
}
