// The walk: what is found is visited in the order in which it was found.
ghost use Rattle.std.specs.Prelude.{◌≡◌, ◌+◌, ◌<◌, ◌≤◌, ◌^◌, length, IfOk};
ghost use Rattle.hd_walk.specs.Walk.{AreNodes, HasEnded, Visits, is_goal};

use crate::edges::Edges;
use crate::trail::Trail;
use std::alloc::{AllocError, Global};

/// Visits the found nodes from number `next` on, until the goal is one of them or none is left.
/// Returns the index of the goal. It takes memory by what it finds.
pub fn walk<E: Edges>(
    alloc: Global,
    edges: &E,
    trail: &mut Trail,
    next: usize,
    goal: Option<u64>,
) -> Result<Option<usize>, AllocError>
    requires nodes { AreNodes (E.node edges.now) trail.old }
    requires next { next ≤ length trail.old }
    ensures { IfOk result (HasEnded (E.node edges.now) (E.edge edges.now) E.order goal trail.old
        next trail.new) }
{
    let mut targets = Vec::new(alloc);
    let mut turn = next;
    'turns: while turn < trail.len() {
        let at = trail.get(turn).at;
        if is_goal(goal, at) {
            return Ok(Some(turn));
        }
        visit(edges, trail, at, turn, &mut targets)?;
        turn += 1;
    }
    Ok(None)
}

// Whether a node is the goal.
fn is_goal(goal: Option<u64>, at: u64) -> bool
    ensures { result ≡ is_goal goal at }
{
    match goal {
        Some(to) => to == at,
        None => false,
    }
}

// Finds what edges lead to from a node.
fn visit<E: Edges>(
    edges: &E,
    trail: &mut Trail,
    at: u64,
    turn: usize,
    targets: &mut Vec<u64>,
) -> Result<(), AllocError>
    requires node { E.node edges.now at }
    requires turn { turn + 1 < 2 ^ 64 }
    ensures { IfOk result (λ _. Visits (E.node edges.now) (E.edge edges.now at) E.order turn
        trail.old trail.new) }
{
    targets.clear();
    edges.list(at, targets)?;
    trail.add_all(targets, Some(turn))
}
