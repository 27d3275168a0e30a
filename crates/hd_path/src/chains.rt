// The least of the shortest chains from an anchor to an object.
ghost use Rattle.std.specs.Prelude.{◌<◌, Contains, length, IfOk};
ghost use Rattle.hd_links.specs.Graph.{leads_in};
ghost use Rattle.hd_path.specs.Inside.{IsChainOf, IsFoundChain, IsSearchOf, IsSound};
ghost use Rattle.hd_walk.specs.Trail.{IsFalling};

use hd_links::{Graph, anchors_of, graph_of, sort};
use hd_seen::Snapshot;
use hd_walk::{Trail, read_back, walk};
use std::alloc::{AllocError, Global};

/// The graph of a snapshot, its anchors in rising order, and what is found from them.
#[derive(Drop)]
pub(crate) struct Search<'s> {
    pub(crate) graph: Graph<'s>,
    pub(crate) starts: Vec<u64>,
    pub(crate) trail: Trail,
}

/// A chain: a start, and the objects after it.
#[derive(Drop)]
pub(crate) struct Chain {
    pub(crate) first: u64,
    pub(crate) rest: Vec<u64>,
}

/// All that is found in a snapshot.
pub(crate) fn search_of<'s>(alloc: Global, seen: &'s Snapshot) -> Result<Search<'s>, AllocError>
    ensures { IfOk result (IsSearchOf seen.now) }
{
    let graph = graph_of(alloc, seen)?;
    let mut starts = anchors_of(alloc, seen, &graph.links)?;
    sort(&mut starts);
    let mut trail = Trail::open(alloc);
    trail.reserve(seen.objects.len())?;
    trail.add_all(&starts, None)?;
    let _none = walk(alloc, &graph, &mut trail, 0, None)?;
    Ok(Search {
        graph,
        starts,
        trail,
    })
}

/// The least of the shortest chains to a goal, if there is one.
pub(crate) fn chain_to(
    alloc: Global,
    search: &Search<'_>,
    goal: u64,
) -> Result<Option<Chain>, AllocError>
    requires { IsSound search.now }
    ensures { IfOk result (λ found. IsFoundChain (leads_in search.now.graph)
        (Contains search.now.starts.items) goal found) }
{
    match search.trail.index_of(goal) {
        Some(last) => Ok(Some(chain_of(alloc, &search.trail, last)?)),
        None => Ok(None),
    }
}

// The chain by which an object was found.
fn chain_of(alloc: Global, trail: &Trail, last: usize) -> Result<Chain, AllocError>
    requires last { last < length trail.now }
    requires falling { IsFalling trail.now }
    ensures { IfOk result (IsChainOf trail.now last) }
{
    let mut rest = read_back(alloc, trail, last)?;
    let first = rest.remove(0);
    Ok(Chain { first, rest })
}
