// Why objects live: for each a chain from an anchor, with all that is on it.
ghost use Rattle.std.specs.Prelude.{◌≡◌, ◌++◌, is_some, true, IfOk};
ghost use Rattle.std.specs.List.Sorted.{IsNonDecreasingBy};
ghost use Rattle.hd_model.specs.State.{State};
ghost use Rattle.hd_seen.specs.Seen.{view_seen};
ghost use Rattle.hd_links.specs.Graph.{object_at};
ghost use Rattle.hd_links.specs.Shown.{IsPictureOf};
ghost use Rattle.hd_links.specs.Sources.{source_number};
ghost use Rattle.hd_path.specs.Lines.{path_line};
ghost use Rattle.hd_path.specs.{Inside.WritesPath, Paths.WritesPaths};
ghost use Rattle.hd_path.specs.Inside.{IsSearchOf, WritesChain, WritesEdge, WritesEdges};
ghost use Rattle.hd_path.specs.Inside.{made_in, missing_word};

use crate::chains::{Chain, Search, chain_to, search_of};
use crate::names::{anchor_of, edge_of};
use crate::text::{push_anchor, push_edge, push_length, push_outcome};
use hd_links::{Graph, fields_at, has};
use hd_model::{Id, Memory};
use hd_seen::Snapshot;
use std::alloc::{AllocError, Global};

/// Appends for each object the least of the shortest chains to it, by identities, first to last; or
/// that none leads to it, that it is gone, or that it was never made. Where memory runs out, the
/// text is not to be used.
pub fn push_paths(
    alloc: Global,
    text: &mut Vec<u8>,
    seen: &Snapshot,
    ids: &[Id],
) -> Result<(), Memory>
    ensures { IfOk result (λ _. (s : State) → IsPictureOf (view_seen seen.now) s
        → WritesPaths s ids.now text.old.items text.new.items) }
{
    match push_all(alloc, text, seen, ids) {
        Ok(()) => Ok(()),
        Err(_) => Err(Memory),
    }
}

// Appends them all, by one search.
fn push_all(
    alloc: Global,
    text: &mut Vec<u8>,
    seen: &Snapshot,
    ids: &[Id],
) -> Result<(), AllocError>
    ensures { IfOk result (λ _. (s : State) → IsPictureOf (view_seen seen.now) s
        → WritesPaths s ids.now text.old.items text.new.items) }
{
    let search = search_of(alloc, seen)?;
    for id in ids {
        push_path(alloc, text, seen, &search, *id)?;
    }
    Ok(())
}

// Appends what is found of an object.
fn push_path(
    alloc: Global,
    text: &mut Vec<u8>,
    seen: &Snapshot,
    search: &Search<'_>,
    id: Id,
) -> Result<(), AllocError>
    requires { IsSearchOf seen.now search.now }
    ensures { IfOk result (λ _. (s : State) → IsPictureOf (view_seen seen.now) s
        → WritesPath s id text.old.items text.new.items) }
{
    if has(&search.graph, id.0) {
        push_found(alloc, text, seen, search, id)
    } else {
        push_missing(text, &seen.serials, id)
    }
}

// Appends the chain to an object that is there, or that there is none.
fn push_found(
    alloc: Global,
    text: &mut Vec<u8>,
    seen: &Snapshot,
    search: &Search<'_>,
    id: Id,
) -> Result<(), AllocError>
    requires search { IsSearchOf seen.now search.now }
    requires there { is_some (object_at search.now.graph id.0) ≡ true }
    ensures { IfOk result (λ _. (s : State) → IsPictureOf (view_seen seen.now) s
        → WritesPath s id text.old.items text.new.items) }
{
    match chain_to(alloc, search, id.0)? {
        Some(chain) => push_chain(text, seen, &search.graph, id, &chain),
        None => push_outcome(text, id, "unrooted"),
    }
}

// Appends that there is no such object: it is gone, or was never made.
fn push_missing(text: &mut Vec<u8>, serials: &[u32], id: Id) -> Result<(), AllocError>
    ensures { IfOk result (λ _. text.new.items
        ≡ text.old.items ++ path_line id (missing_word (made_in serials.now id))) }
{
    if was_made(serials, id) {
        push_outcome(text, id, "gone")
    } else {
        push_outcome(text, id, "unknown")
    }
}

// Whether a caller gave an identity to an object.
fn was_made(serials: &[u32], id: Id) -> bool
    ensures { result ≡ made_in serials.now id }
{
    let caller = (id.0 >> 32) as usize;
    let serial = id.0 & 0xffff_ffff;
    if caller >= serials.len() {
        return false;
    }
    serial >= 1 && serial <= u64::from(serials[caller])
}

// Appends a chain: its length, what makes its first object an anchor, and its edges.
fn push_chain(
    text: &mut Vec<u8>,
    seen: &Snapshot,
    graph: &Graph<'_>,
    id: Id,
    chain: &Chain,
) -> Result<(), AllocError>
    requires { IsNonDecreasingBy source_number graph.now.attaching.items }
    ensures { IfOk result (λ _. WritesChain seen.now graph.now id chain.now text.old.items
        text.new.items) }
{
    push_length(text, id, chain.rest.len())?;
    let first = Id(chain.first);
    push_anchor(text, anchor_of(&seen.statics, &graph.links, first), first)?;
    push_edges(text, graph, chain)
}

// Appends the edges of a chain.
fn push_edges(text: &mut Vec<u8>, graph: &Graph<'_>, chain: &Chain) -> Result<(), AllocError>
    requires { IsNonDecreasingBy source_number graph.now.attaching.items }
    ensures { IfOk result (λ _. WritesEdges graph.now chain.now.first chain.now.rest.items
        text.old.items text.new.items) }
{
    let mut from = chain.first;
    let rest = chain.rest.as_slice();
    for i in 0..rest.len() {
        push_step(text, graph, from, rest[i])?;
        from = rest[i];
    }
    Ok(())
}

// Appends an edge.
fn push_step(text: &mut Vec<u8>, graph: &Graph<'_>, from: u64, to: u64) -> Result<(), AllocError>
    requires { IsNonDecreasingBy source_number graph.now.attaching.items }
    ensures { IfOk result (λ _. WritesEdge graph.now from to text.old.items text.new.items) }
{
    match edge_of(fields_at(graph, from), &graph.attaching, Id(from), Id(to)) {
        Some(edge) => push_edge(text, Id(from), edge, Id(to)),
        None => Ok(()),
    }
}
