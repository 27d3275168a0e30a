//! The objects and handles of a state as a graph, in the language of Graphviz.
#![tactic(auto)]

ghost use Rattle.std.specs.Prelude.{◌≡◌, ◌++◌, ℕ, Bool, codes, flat_map, nat_eq, IfOk};
ghost use Rattle.std.specs.HashSet.{contains};
ghost use Rattle.hd_seen.specs.Seen.{view_seen};
ghost use Rattle.hd_links.specs.Graph.{Rises, ids_of};
ghost use Rattle.hd_links.specs.Pins.{is_pinned_by};
ghost use Rattle.hd_graph.specs.Graph.{entry_text, graph_head, graph_text, handle_text};
ghost use Rattle.hd_graph.specs.{Graph.labels_text, Graph.roots_text, Inside.tested_text};
ghost use Rattle.hd_graph.specs.Kept.{AreKept};
ghost use Rattle.hd_walk.specs.Trail.{is_found};

mod dot;
mod kept;
mod laws;
mod objects;
mod roles;
mod rows;
mod text;

use crate::kept::kept_of;
pub use crate::laws::{grey_is_removed, pictures_rise};
use crate::objects::{push_labels, push_objects};
use crate::rows::{push_entries, push_handles, push_queue, push_registers, push_statics};
use crate::text::push;
use hd_links::pinned_objects;
use hd_model::Memory;
use hd_seen::Snapshot;
use hd_walk::Trail;
use std::alloc::Global;
use std::collections::HashSet;

/// By what the objects of a graph stand together.
#[derive(Clone, Copy, Debug, PartialEq, Eq)]
pub enum Clusters {
    Nothing,
    Generation,
    Region,
}

// What is asked of each object: whether a handle pins it, and whether a collection would keep it.
#[derive(Drop)]
struct Looks {
    pinned: HashSet<u64>,
    kept: Trail,
}

// What is asked of the objects of a snapshot.
fn looks_of(alloc: Global, seen: &Snapshot) -> Result<Looks, Memory>
    requires { Rises (ids_of seen.now) }
    ensures pinned { IfOk result (λ looks. (x : ℕ) → contains nat_eq looks.pinned x
        ≡ is_pinned_by seen.now.handles.items x) }
    ensures kept { IfOk result (λ looks. AreKept seen.now (is_found looks.kept)) }
{
    let pinned = pinned_objects(alloc, &seen.handles)?;
    match kept_of(alloc, seen) {
        Ok(kept) => Ok(Looks { pinned, kept }),
        Err(_) => Err(Memory),
    }
}

// Appends the roots.
fn push_roots(text: &mut Vec<u8>, seen: &Snapshot) -> Result<(), Memory>
    ensures { IfOk result (λ _. text.new.items ≡ text.old.items
        ++ roots_text (view_seen seen.now)) }
{
    push_statics(text, &seen.statics)?;
    push_queue(text, &seen.queue)?;
    push_registers(text, &seen.registers)
}

// Appends handles, entries and roots, and the end.
fn push_others(text: &mut Vec<u8>, seen: &Snapshot) -> Result<(), Memory>
    ensures { IfOk result (λ _. text.new.items ≡ text.old.items
        ++ flat_map handle_text seen.now.handles.items ++ flat_map entry_text seen.now.entries.items
        ++ roots_text (view_seen seen.now) ++ codes "}\n") }
{
    push_handles(text, &seen.handles)?;
    push_entries(text, &seen.entries)?;
    push_roots(text, seen)?;
    push(text, "}\n")
}

// Appends the graph, where objects look like this.
fn push_looked(
    text: &mut Vec<u8>,
    seen: &Snapshot,
    clusters: Clusters,
    looks: &Looks,
) -> Result<(), Memory>
    ensures { IfOk result (λ _. text.new.items ≡ text.old.items
        ++ graph_head ++ labels_text clusters seen.now.regions.items
        ++ flat_map (tested_text clusters (contains nat_eq looks.now.pinned)
        (is_found looks.now.kept)) seen.now.objects.items
        ++ flat_map handle_text seen.now.handles.items ++ flat_map entry_text seen.now.entries.items
        ++ roots_text (view_seen seen.now) ++ codes "}\n") }
{
    push(text, "digraph heap {\n  rankdir=LR;\n  node [shape=box];\n")?;
    push_labels(text, clusters, &seen.regions)?;
    push_objects(text, clusters, &looks.pinned, &looks.kept, &seen.objects)?;
    push_others(text, seen)
}

/// Appends the graph of a state: a box for each object, in grey where a collection of all
/// generations
/// would remove it, an ellipse for each handle and each slot of the weak table, and what roots
/// reference. The objects come by rising identity. Where memory runs out, the text is not to be
/// used.
pub fn push_graph(
    alloc: Global,
    text: &mut Vec<u8>,
    seen: &Snapshot,
    clusters: Clusters,
) -> Result<(), Memory>
    requires { Rises (ids_of seen.now) }
    ensures { IfOk result (λ _. (kept : ℕ → Bool) × AreKept seen.now kept
        × (text.new.items ≡ text.old.items ++ graph_text clusters (view_seen seen.now) kept)) }
{
    let looks = looks_of(alloc, seen)?;
    push_looked(text, seen, clusters, &looks)
}
