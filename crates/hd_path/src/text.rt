// Lines about chains, made in memory.
ghost use Rattle.std.specs.Prelude.{◌≡◌, ◌++◌, ◌+◌, ◌≤◌, codes, decimal, length, IfOk};
ghost use Rattle.hd_model.specs.Text.{identity_text};
ghost use Rattle.hd_path.specs.Lines.{anchor_line, anchor_word, edge_line, edge_word};
ghost use Rattle.hd_path.specs.Lines.{path_head, path_line};

use crate::names::{Anchor, Edge};
use hd_model::Id;
use hd_print::{Line, kind_name};
use std::alloc::AllocError;

// The bytes of the longest identity, and of the longest names of an anchor and of an edge.
const LONGEST_IDENTITY: usize = 21;

const LONGEST_ANCHOR: usize = 27;

const LONGEST_EDGE: usize = 27;

// Appends words.
fn push(text: &mut Vec<u8>, words: &str) -> Result<(), AllocError>
    ensures { IfOk result (λ _. text.new.items ≡ text.old.items ++ words.now) }
{
    text.extend_from_slice(words.as_bytes())
}

// Appends a line.
fn push_line(text: &mut Vec<u8>, line: &Line) -> Result<(), AllocError>
    ensures { IfOk result (λ _. text.new.items ≡ text.old.items ++ line.now) }
{
    text.extend_from_slice(line.as_bytes())
}

/// Appends an identity as its caller and its serial.
pub(crate) fn push_identity(line: &mut Line, id: Id)
    requires { length line.old + LONGEST_IDENTITY ≤ Line.CAPACITY }
    ensures text { line.new ≡ line.old ++ identity_text id }
    ensures short { length line.new ≤ length line.old + LONGEST_IDENTITY }
{
    let caller = (id.0 >> 32) as u32;
    let serial = (id.0 & 0xffff_ffff) as u32;
    line.push_number(caller);
    line.push_str(".");
    line.push_number(serial);
}

// Begins the line of an object.
fn head_line(goal: Id) -> Line
    ensures text { result ≡ path_head goal }
    ensures short { length result ≤ 27 }
{
    let mut line = Line::new();
    line.push_str("path ");
    push_identity(&mut line, goal);
    line.push_str(" ");
    line
}

/// Appends what became of the search for an object.
pub(crate) fn push_outcome(text: &mut Vec<u8>, goal: Id, outcome: &str) -> Result<(), AllocError>
    ensures { IfOk result (λ _. text.new.items ≡ text.old.items ++ path_line goal outcome.now) }
{
    push_line(text, &head_line(goal))?;
    push(text, outcome)?;
    push(text, "\n")
}

/// Appends the number of edges of a chain to an object.
pub(crate) fn push_length(text: &mut Vec<u8>, goal: Id, edges: usize) -> Result<(), AllocError>
    ensures { IfOk result (λ _. text.new.items
        ≡ text.old.items ++ path_line goal (codes "edges " ++ decimal edges)) }
{
    let mut line = head_line(goal);
    line.push_str("edges ");
    line.push_number(edges);
    line.push_str("\n");
    push_line(text, &line)
}

/// Appends what makes an object an anchor.
pub(crate) fn push_anchor(text: &mut Vec<u8>, anchor: Anchor, id: Id) -> Result<(), AllocError>
    ensures { IfOk result (λ _. text.new.items ≡ text.old.items ++ anchor_line anchor id) }
{
    let mut line = Line::new();
    line.push_str("  ");
    push_anchor_word(&mut line, anchor);
    line.push_str(" -> ");
    push_identity(&mut line, id);
    line.push_str("\n");
    push_line(text, &line)
}

// Appends the name of an anchor.
fn push_anchor_word(line: &mut Line, anchor: Anchor)
    requires { length line.old + LONGEST_ANCHOR ≤ Line.CAPACITY }
    ensures text { line.new ≡ line.old ++ anchor_word anchor }
    ensures short { length line.new ≤ length line.old + LONGEST_ANCHOR }
{
    match anchor {
        Anchor::Static(k) => {
            line.push_str("static ");
            line.push_number(k);
        }
        Anchor::Handle(slot, kind) => {
            line.push_str("slot ");
            line.push_number(slot.0);
            line.push_str(" ");
            line.push_str(kind_name(kind));
        }
        Anchor::Queue => line.push_str("queue"),
    }
}

/// Appends by what an object leads to another.
pub(crate) fn push_edge(text: &mut Vec<u8>, from: Id, edge: Edge, to: Id) -> Result<(), AllocError>
    ensures { IfOk result (λ _. text.new.items ≡ text.old.items ++ edge_line from edge to) }
{
    let mut line = Line::new();
    line.push_str("  ");
    push_identity(&mut line, from);
    push_edge_word(&mut line, edge);
    line.push_str(" -> ");
    push_identity(&mut line, to);
    line.push_str("\n");
    push_line(text, &line)
}

// Appends the name of an edge.
fn push_edge_word(line: &mut Line, edge: Edge)
    requires { length line.old + LONGEST_EDGE ≤ Line.CAPACITY }
    ensures text { line.new ≡ line.old ++ edge_word edge }
    ensures short { length line.new ≤ length line.old + LONGEST_EDGE }
{
    match edge {
        Edge::Field(i) => {
            line.push_str(" field ");
            line.push_number(i);
        }
        Edge::Dependent(slot) => {
            line.push_str(" dep ");
            line.push_number(slot.0);
        }
        Edge::Entry(slot) => {
            line.push_str(" entry ");
            line.push_number(slot.0);
        }
    }
}
