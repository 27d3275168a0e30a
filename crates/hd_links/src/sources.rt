// Links in the order of their sources: those of one source are found without the others.
ghost use Rattle.std.specs.Prelude.{◌≡◌, ◌+◌, ◌++◌, flat_map, IfOk};
ghost use Rattle.std.specs.List.Sorted.{IsPermutation, IsNonDecreasingBy};
ghost use Rattle.hd_links.specs.{Sources.AreAttaching, Sources.IsPartFrom, Inside.IsCut, Inside.attaching_link};
ghost use Rattle.hd_links.specs.Sources.{source_number};

use crate::links::Link;
use hd_model::Id;
use std::alloc::{AllocError, Global};

/// The links that have a source, in the order of their sources.
pub(crate) fn attaching_of(alloc: Global, links: &[Link]) -> Result<Vec<Link>, AllocError>
    ensures { IfOk result (λ attaching. AreAttaching links.now attaching.items) }
{
    let mut attaching = Vec::new(alloc);
    add_attaching(links, &mut attaching)?;
    sort_links(&mut attaching);
    Ok(attaching)
}

// Adds the links that have a source.
fn add_attaching(links: &[Link], attaching: &mut Vec<Link>) -> Result<(), AllocError>
    ensures { IfOk result (λ _. attaching.new.items
        ≡ attaching.old.items ++ flat_map attaching_link links.now) }
{
    for link in links {
        add(*link, attaching)?;
    }
    Ok(())
}

// Adds a link, if it has a source.
fn add(link: Link, attaching: &mut Vec<Link>) -> Result<(), AllocError>
    ensures { IfOk result (λ _. attaching.new.items
        ≡ attaching.old.items ++ attaching_link link) }
{
    if link.source.is_some() {
        attaching.push(link)?;
    }
    Ok(())
}

// Puts links in the order of their sources.
fn sort_links(links: &mut Vec<Link>)
    ensures permutation { IsPermutation links.old.items links.new.items }
    ensures rising { IsNonDecreasingBy source_number links.new.items }
{
    links.sort_unstable_by_key(|link| number_of(link));
}

/// The links of a source, and others of none.
pub fn links_from(links: &[Link], from: Id) -> &[Link]
    requires { IsNonDecreasingBy source_number links.now }
    ensures { IsPartFrom links.now from result.now }
{
    let low = lower_than(links, from);
    let high = up_to(links, from);
    &links[low..high]
}

// How many links are those of lower sources.
fn lower_than(links: &[Link], from: Id) -> usize
    requires { IsNonDecreasingBy source_number links.now }
    ensures { IsCut links.now from.0 result }
{
    links.partition_point(|link| number_of(link) < from.0)
}

// How many links are those of a source and of lower ones.
fn up_to(links: &[Link], from: Id) -> usize
    requires { IsNonDecreasingBy source_number links.now }
    ensures { IsCut links.now (from.0 + 1) result }
{
    links.partition_point(|link| number_of(link) <= from.0)
}

// The number of the source of a link, and 0 where it has none.
fn number_of(link: &Link) -> u64
    ensures { result ≡ source_number link.now }
{
    match link.source {
        Some(id) => id.0,
        None => 0,
    }
}
