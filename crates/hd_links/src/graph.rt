// The objects of a snapshot as a graph.
ghost use Rattle.std.specs.Prelude.{◌≡◌, ◌++◌, nat_eq, flat_map, is_some, length, option_copied, IfOk};
ghost use Rattle.std.specs.HashMap.{get};
ghost use Rattle.std.specs.List.Sorted.{IsPermutation, IsNonDecreasingBy};
ghost use Rattle.hd_links.specs.{Graph.AreIndexes, Graph.IsGraphOf, Graph.fields_at, Graph.itself, Inside.attached_to};
ghost use Rattle.hd_links.specs.Graph.{object_at};

use crate::anchors::{push, push_all};
use crate::links::{Link, is, links_of};
use crate::sources::{attaching_of, links_from};
use hd_model::Id;
use hd_seen::{SeenObject, Snapshot};
use hd_walk::Edges;
use std::alloc::{AllocError, Global};
use std::collections::HashMap;

/// The objects of a snapshot, the index of each identity, all links, and those that attach
/// something in the order of their sources.
#[derive(Drop)]
pub struct Graph<'s> {
    pub objects: &'s [SeenObject],
    pub indexes: HashMap<u64, usize>,
    pub links: Vec<Link>,
    pub attaching: Vec<Link>,
}

/// The graph of a snapshot.
pub fn graph_of<'s>(alloc: Global, seen: &'s Snapshot) -> Result<Graph<'s>, AllocError>
    ensures { IfOk result (IsGraphOf seen.now) }
{
    let indexes = indexes_of(alloc, &seen.objects)?;
    let links = links_of(alloc, &seen.handles, &seen.entries)?;
    let attaching = attaching_of(alloc, &links)?;
    Ok(Graph {
        objects: &seen.objects,
        indexes,
        links,
        attaching,
    })
}

// The index of each identity.
fn indexes_of(alloc: Global, objects: &[SeenObject]) -> Result<HashMap<u64, usize>, AllocError>
    ensures { IfOk result (λ indexes. AreIndexes objects.now (get nat_eq indexes)
        (length objects.now)) }
{
    let mut indexes = HashMap::with_capacity(alloc, objects.len())?;
    for i in 0..objects.len() {
        indexes.insert(objects[i].id.0, i)?;
    }
    Ok(indexes)
}

// The object with an identity, if there is one.
fn object_at<'s>(graph: &Graph<'s>, id: u64) -> Option<&'s SeenObject>
    ensures { option_copied result ≡ object_at graph.now id }
{
    let objects = graph.objects;
    match graph.indexes.get(&id) {
        Some(index) => objects.get(*index),
        None => None,
    }
}

/// Whether there is an object with an identity.
pub fn has(graph: &Graph<'_>, id: u64) -> bool
    ensures { result ≡ is_some (object_at graph.now id) }
{
    match object_at(graph, id) {
        Some(_) => true,
        None => false,
    }
}

/// The fields of the object with an identity, none where there is no such object.
pub fn fields_at<'s>(graph: &Graph<'s>, id: u64) -> &'s [Option<Id>]
    ensures { result.now ≡ fields_at graph.now id }
{
    match object_at(graph, id) {
        Some(object) => &object.fields,
        None => &[],
    }
}

impl<'s> Edges for Graph<'s> {
    ghost use Rattle.hd_links.specs.Graph.{IsNode, in_order, leads_in};

    ghost node = { IsNode };

    ghost edge = { leads_in };

    ghost order = { in_order };

    fn list(&self, at: u64, targets: &mut Vec<u64>) -> Result<(), AllocError> {
        push_all(fields_at(self, at), targets)?;
        push_attached(links_from(&self.attaching, Id(at)), Id(at), targets)?;
        sort(targets);
        Ok(())
    }
}

// Appends what links attach to an object.
fn push_attached(links: &[Link], to: Id, targets: &mut Vec<u64>) -> Result<(), AllocError>
    ensures { IfOk result (λ _. targets.new.items
        ≡ targets.old.items ++ flat_map (attached_to to) links.now) }
{
    for link in links {
        push_link(*link, to, targets)?;
    }
    Ok(())
}

// Appends what a link attaches to an object, if it does.
fn push_link(link: Link, to: Id, targets: &mut Vec<u64>) -> Result<(), AllocError>
    ensures { IfOk result (λ _. targets.new.items ≡ targets.old.items ++ attached_to to link) }
{
    if is(link.source, to) {
        push(link.attached, targets)
    } else {
        Ok(())
    }
}

/// Puts numbers in order.
pub fn sort(numbers: &mut Vec<u64>)
    ensures permutation { IsPermutation numbers.old.items numbers.new.items }
    ensures rising { IsNonDecreasingBy itself numbers.new.items }
{
    numbers.sort_unstable_by_key(|number| *number);
}
