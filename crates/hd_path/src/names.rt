// What makes an object an anchor, and by what it leads to another.
ghost use Rattle.std.specs.Prelude.{◌≡◌, MatchOption, Some};
ghost use Rattle.std.specs.List.Sorted.{IsNonDecreasingBy};
ghost use Rattle.hd_path.specs.Inside.{AnchorIn, EdgeIn, IsFirstIndex, LeastOf, LinksToNone};
ghost use Rattle.hd_path.specs.Inside.{NoIndex, link_edge, links_to, lower_link};
ghost use Rattle.hd_links.specs.Sources.{source_number};

use hd_links::{Link, is, links_from};
use hd_model::{Id, Kind, Slot};

/// What makes an object an anchor.
#[derive(Clone, Copy)]
pub(crate) enum Anchor {
    Static(usize),
    Handle(Slot, Kind),
    Queue,
}

/// By what an object leads to another: a field, a dependent handle, or an entry of the weak table.
#[derive(Clone, Copy)]
pub(crate) enum Edge {
    Field(usize),
    Dependent(Slot),
    Entry(Slot),
}

/// What makes an object an anchor: the least static, else the least slot, else the queue.
pub(crate) fn anchor_of(statics: &[Option<Id>], links: &[Link], id: Id) -> Anchor
    ensures { AnchorIn statics.now links.now id result }
{
    if let Some(k) = first_index(statics, id) {
        return Anchor::Static(k);
    }
    match least_link(links, id, None) {
        Some(link) => Anchor::Handle(link.slot, link.kind),
        None => Anchor::Queue,
    }
}

/// By what an object leads to another: the least field, else the least slot; or by nothing. The
/// links are in the order of their sources.
pub(crate) fn edge_of(fields: &[Option<Id>], links: &[Link], from: Id, to: Id) -> Option<Edge>
    requires { IsNonDecreasingBy source_number links.now }
    ensures { MatchOption result (NoIndex fields.now to × LinksToNone links.now from (Some to))
        (EdgeIn fields.now links.now from to) }
{
    if let Some(i) = first_index(fields, to) {
        return Some(Edge::Field(i));
    }
    match least_from(links, from, to) {
        Some(link) => Some(by_link(link)),
        None => None,
    }
}

// The link of least slot that attaches an object to another, among the links of the first.
fn least_from(links: &[Link], from: Id, to: Id) -> Option<Link>
    requires { IsNonDecreasingBy source_number links.now }
    ensures { LeastOf links.now from (Some to) result }
{
    least_link(links_from(links, from), from, Some(to))
}

// The edge of a link.
fn by_link(link: Link) -> Edge
    ensures { result ≡ link_edge link }
{
    if link.is_entry {
        Edge::Entry(link.slot)
    } else {
        Edge::Dependent(link.slot)
    }
}

// The first field or static that references an object.
fn first_index(targets: &[Option<Id>], id: Id) -> Option<usize>
    ensures { MatchOption result (NoIndex targets.now id) (IsFirstIndex targets.now id) }
{
    for i in 0..targets.len() {
        if is(targets[i], id) {
            return Some(i);
        }
    }
    None
}

// The link of least slot that holds an object, or that attaches one to it.
fn least_link(links: &[Link], id: Id, to: Option<Id>) -> Option<Link>
    ensures { LeastOf links.now id to result }
{
    let mut least = None;
    for link in links {
        least = lower(least, *link, id, to);
    }
    least
}

// The one of lower slot, if it does that.
fn lower(least: Option<Link>, link: Link, id: Id, to: Option<Id>) -> Option<Link>
    ensures { result ≡ lower_link least link id to }
{
    if !does(link, id, to) {
        return least;
    }
    match least {
        Some(other) => {
            if other.slot.0 <= link.slot.0 {
                Some(other)
            } else {
                Some(link)
            }
        }
        None => Some(link),
    }
}

// Whether a link holds an object, or attaches another to it.
fn does(link: Link, id: Id, to: Option<Id>) -> bool
    ensures { result ≡ links_to link id to }
{
    match to {
        Some(to) => is(link.source, id) && is(link.attached, to),
        None => is(link.held, id),
    }
}
