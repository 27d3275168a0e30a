// Objects and clusters of a graph.
ghost use Rattle.std.specs.Prelude.{◌≡◌, ◌++◌, [], codes, cond, decimal, flat_map, nat_eq, IfOk};
ghost use Rattle.std.specs.HashSet.{contains};
ghost use Rattle.std.specs.List.{enumerate_from};
ghost use Rattle.hd_seen.specs.Seen.{object_shown};
ghost use Rattle.hd_graph.specs.Graph.{cluster_begin, cluster_end, fields_text, generation_label};
ghost use Rattle.hd_graph.specs.Graph.{label_text};
ghost use Rattle.hd_graph.specs.Graph.{field_edge, labels_text, object_node, object_text};
ghost use Rattle.hd_graph.specs.{Graph.region_label, Inside.tested_text};
ghost use Rattle.hd_graph.specs.Marks.{cells_of};
ghost use Rattle.hd_walk.specs.Trail.{is_found};

use crate::Clusters;
use crate::dot::{Node, Reason, push_edge_to, push_name};
use crate::text::{push, push_identity, push_number, push_small, push_tiny};
use hd_model::limits::{HEADER, REGION};
use hd_model::{Id, Memory};
use hd_seen::{SeenObject, SeenRegion};
use hd_walk::Trail;
use std::collections::HashSet;

// Appends the label of the cluster of a generation.
fn push_generation(text: &mut Vec<u8>, generation: u64) -> Result<(), Memory>
    ensures { IfOk result (λ _. text.new.items ≡ text.old.items ++ generation_label generation) }
{
    push(text, "  subgraph cluster_")?;
    push_number(text, generation)?;
    push(text, " { label=\"generation ")?;
    push_number(text, generation)?;
    push(text, "\"; }\n")
}

// Appends the labels of the clusters of all generations.
fn push_generations(text: &mut Vec<u8>) -> Result<(), Memory>
    ensures { IfOk result (λ _. text.new.items ≡ text.old.items
        ++ labels_text Clusters.Generation []) }
{
    push_generation(text, 0)?;
    push_generation(text, 1)?;
    push_generation(text, 2)
}

// Appends the label of the cluster of a region.
fn push_region(text: &mut Vec<u8>, region: &SeenRegion) -> Result<(), Memory>
    ensures { IfOk result (λ _. text.new.items ≡ text.old.items ++ region_label region.now) }
{
    push(text, "  subgraph cluster_")?;
    push_small(text, region.number)?;
    push(text, " { label=\"region ")?;
    push_small(text, region.number)?;
    push(text, ", generation ")?;
    push_tiny(text, region.generation)?;
    push(text, "\"; }\n")
}

// Appends the labels of the clusters of regions.
fn push_regions(text: &mut Vec<u8>, regions: &[SeenRegion]) -> Result<(), Memory>
    ensures { IfOk result (λ _. text.new.items ≡ text.old.items
        ++ labels_text Clusters.Region regions.now) }
{
    for region in regions {
        push_region(text, region)?;
    }
    Ok(())
}

/// Appends the labels of clusters.
pub(crate) fn push_labels(
    text: &mut Vec<u8>,
    clusters: Clusters,
    regions: &[SeenRegion],
) -> Result<(), Memory>
    ensures { IfOk result (λ _. text.new.items ≡ text.old.items
        ++ labels_text clusters regions.now) }
{
    match clusters {
        Clusters::Nothing => Ok(()),
        Clusters::Generation => push_generations(text),
        Clusters::Region => push_regions(text, regions),
    }
}

// Appends the beginning of a cluster by its number.
fn push_begin(text: &mut Vec<u8>, number: u64) -> Result<(), Memory>
    ensures { IfOk result (λ _. text.new.items ≡ text.old.items
        ++ codes "  subgraph cluster_" ++ decimal number ++ codes " { ") }
{
    push(text, "  subgraph cluster_")?;
    push_number(text, number)?;
    push(text, " { ")
}

// Appends the beginning of the cluster of an object, if it has one.
fn push_cluster(text: &mut Vec<u8>, clusters: Clusters, object: &SeenObject) -> Result<(), Memory>
    ensures { IfOk result (λ _. text.new.items ≡ text.old.items
        ++ cluster_begin clusters (object_shown object.now)) }
{
    match clusters {
        Clusters::Nothing => push(text, "  "),
        Clusters::Generation => push_begin(text, u64::from(object.generation)),
        Clusters::Region => push_begin(text, u64::from(object.at.0 / REGION)),
    }
}

// Appends the end of the cluster of an object, if it has one.
fn push_end(text: &mut Vec<u8>, clusters: Clusters) -> Result<(), Memory>
    ensures { IfOk result (λ _. text.new.items ≡ text.old.items ++ cluster_end clusters) }
{
    match clusters {
        Clusters::Nothing => push(text, "\n"),
        Clusters::Generation | Clusters::Region => push(text, " }\n"),
    }
}

// Appends words, if they are to be there.
fn push_if(text: &mut Vec<u8>, there: bool, words: &str) -> Result<(), Memory>
    ensures { IfOk result (λ _. text.new.items ≡ text.old.items ++ cond there words.now []) }
{
    if there { push(text, words) } else { Ok(()) }
}

// Appends the generation of an object.
fn push_age(text: &mut Vec<u8>, object: &SeenObject) -> Result<(), Memory>
    ensures { IfOk result (λ _. text.new.items ≡ text.old.items
        ++ codes "\\ngeneration " ++ decimal object.now.generation) }
{
    push(text, "\\ngeneration ")?;
    push_number(text, u64::from(object.generation))
}

// Appends the cells of an object.
fn push_cells(text: &mut Vec<u8>, object: &SeenObject) -> Result<(), Memory>
    ensures { IfOk result (λ _. text.new.items ≡ text.old.items
        ++ codes "\\ncells " ++ decimal (cells_of (object_shown object.now))) }
{
    push(text, "\\ncells ")?;
    let cells = object.fields.len() as u64 + u64::from(HEADER);
    push_number(text, cells)
}

// Appends the label of an object.
fn push_label(text: &mut Vec<u8>, pinned: bool, object: &SeenObject) -> Result<(), Memory>
    ensures { IfOk result (λ _. text.new.items ≡ text.old.items
        ++ label_text pinned (object_shown object.now)) }
{
    push_identity(text, object.id)?;
    push_age(text, object)?;
    push_cells(text, object)?;
    push_if(text, pinned, "\\npinned")
}

// Appends the node of an object.
fn push_node(
    text: &mut Vec<u8>,
    pinned: bool,
    kept: bool,
    object: &SeenObject,
) -> Result<(), Memory>
    ensures { IfOk result (λ _. text.new.items ≡ text.old.items
        ++ object_node pinned kept (object_shown object.now)) }
{
    push_name(text, Node::Object(object.id))?;
    push(text, " [label=\"")?;
    push_label(text, pinned, object)?;
    push(text, "\"")?;
    push_if(text, !kept, " color=grey fontcolor=grey")?;
    push(text, "];")
}

// Appends the edges of fields.
fn push_fields(text: &mut Vec<u8>, from: Id, fields: &[Option<Id>]) -> Result<(), Memory>
    ensures { IfOk result (λ _. text.new.items ≡ text.old.items
        ++ flat_map (field_edge from) (enumerate_from 0 fields.now)) }
{
    for i in 0..fields.len() {
        push_edge_to(text, Node::Object(from), Reason::Field(i), fields[i])?;
    }
    Ok(())
}

// Appends an object with the edges of its fields.
fn push_object(
    text: &mut Vec<u8>,
    clusters: Clusters,
    pinned: bool,
    kept: bool,
    object: &SeenObject,
) -> Result<(), Memory>
    ensures { IfOk result (λ _. text.new.items ≡ text.old.items
        ++ object_text clusters pinned kept (object_shown object.now)) }
{
    push_cluster(text, clusters, object)?;
    push_node(text, pinned, kept, object)?;
    push_end(text, clusters)?;
    push_fields(text, object.id, &object.fields)
}

/// Appends all objects, where sets say which are pinned and which are kept.
pub(crate) fn push_objects(
    text: &mut Vec<u8>,
    clusters: Clusters,
    pinned: &HashSet<u64>,
    kept: &Trail,
    objects: &[SeenObject],
) -> Result<(), Memory>
    ensures { IfOk result (λ _. text.new.items ≡ text.old.items ++ flat_map (tested_text clusters
        (contains nat_eq pinned.now) (is_found kept.now)) objects.now) }
{
    for object in objects {
        push_looked(text, clusters, pinned, kept, object)?;
    }
    Ok(())
}

// Appends an object.
fn push_looked(
    text: &mut Vec<u8>,
    clusters: Clusters,
    pinned: &HashSet<u64>,
    kept: &Trail,
    object: &SeenObject,
) -> Result<(), Memory>
    ensures { IfOk result (λ _. text.new.items ≡ text.old.items ++ tested_text clusters
        (contains nat_eq pinned.now) (is_found kept.now) object.now) }
{
    let id = object.id.0;
    push_object(text, clusters, pinned.contains(&id), kept.has(id), object)
}
