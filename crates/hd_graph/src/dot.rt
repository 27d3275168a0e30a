// Names of nodes, and edges, in the language of Graphviz.
ghost use Rattle.std.specs.Prelude.{◌≡◌, ◌++◌, codes, decimal, IfOk};
ghost use Rattle.hd_graph.specs.Graph.{attached_edge, edge_text, edge_to, look_text, node_name};
ghost use Rattle.hd_graph.specs.Graph.{root_text};
ghost use Rattle.hd_graph.specs.Graph.{slot_label, slot_text, style_word};

use crate::text::{push, push_identity, push_number, push_small};
use hd_model::{Id, Memory, Slot};

/// A node: an object, a slot, or a static, a position in the queue from 1 on, or a register of a
/// caller,
/// each by its number.
#[derive(Clone, Copy)]
pub(crate) enum Node {
    Object(Id),
    Slot(Slot),
    Static(usize),
    Queued(usize),
    Register(usize, usize),
}

/// How a line from a handle to its target looks.
#[derive(Clone, Copy)]
pub(crate) enum Style {
    Solid,
    Dashed,
    Dotted,
}

/// What makes an edge: a field by its number, a handle whose target is referenced, a dependent
/// handle
/// or an entry that attaches something, or a root.
#[derive(Clone, Copy)]
pub(crate) enum Reason {
    Field(usize),
    Target(Style),
    Dependent(Slot),
    Entry(Slot),
    Root,
}

// Appends words, a number, and words.
fn push_around(text: &mut Vec<u8>, before: &str, number: u64, after: &str) -> Result<(), Memory>
    ensures { IfOk result (λ _. text.new.items ≡ text.old.items ++ before.now ++ decimal number ++
        after.now) }
{
    push(text, before)?;
    push_number(text, number)?;
    push(text, after)
}

// Appends the name of an object's node.
fn push_object_name(text: &mut Vec<u8>, id: Id) -> Result<(), Memory>
    ensures { IfOk result (λ _. text.new.items ≡ text.old.items ++ node_name (Node.Object id)) }
{
    push(text, "\"")?;
    push_identity(text, id)?;
    push(text, "\"")
}

// Appends the name of a register's node.
fn push_register_name(text: &mut Vec<u8>, caller: usize, number: usize) -> Result<(), Memory>
    ensures { IfOk result (λ _. text.new.items ≡ text.old.items ++ node_name (Node.Register caller
        number)) }
{
    push(text, "\"")?;
    push_number(text, caller as u64)?;
    push_around(text, " r", number as u64, "\"")
}

/// Appends the name of a node.
pub(crate) fn push_name(text: &mut Vec<u8>, node: Node) -> Result<(), Memory>
    ensures { IfOk result (λ _. text.new.items ≡ text.old.items ++ node_name node) }
{
    match node {
        Node::Object(id) => push_object_name(text, id),
        Node::Slot(slot) => push_around(text, "\"slot ", u64::from(slot.0), "\""),
        Node::Static(k) => push_around(text, "\"static ", k as u64, "\""),
        Node::Queued(index) => push_around(text, "\"queue ", index as u64, "\""),
        Node::Register(caller, number) => push_register_name(text, caller, number),
    }
}

// The word for a style.
fn style_name(style: Style) -> &'static str
    ensures { result.now ≡ style_word style }
{
    match style {
        Style::Solid => "solid",
        Style::Dashed => "dashed",
        Style::Dotted => "dotted",
    }
}

// Appends the look of a line from a handle to its target.
fn push_style(text: &mut Vec<u8>, style: Style) -> Result<(), Memory>
    ensures { IfOk result (λ _. text.new.items ≡ text.old.items
        ++ look_text (Reason.Target style)) }
{
    push(text, " [style=")?;
    push(text, style_name(style))?;
    push(text, "]")
}

// Appends words, the number of a slot, and the end of a look.
fn push_slot_end(text: &mut Vec<u8>, before: &str, slot: Slot) -> Result<(), Memory>
    ensures { IfOk result (λ _. text.new.items ≡ text.old.items
        ++ (before.now ++ decimal slot.0 ++ codes "\"]")) }
{
    push(text, before)?;
    push_number(text, u64::from(slot.0))?;
    push(text, "\"]")
}

// Appends the look of an edge that a dependent handle makes.
fn push_dependent(text: &mut Vec<u8>, slot: Slot) -> Result<(), Memory>
    ensures { IfOk result (λ _. text.new.items ≡ text.old.items ++ look_text (Reason.Dependent
        slot)) }
{
    push(text, " [style=dotted ")?;
    push_slot_end(text, "label=\"dep ", slot)
}

// Appends the look of an edge that an entry makes.
fn push_entry(text: &mut Vec<u8>, slot: Slot) -> Result<(), Memory>
    ensures { IfOk result (λ _. text.new.items ≡ text.old.items ++ look_text (Reason.Entry slot)) }
{
    push(text, " [style=dotted ")?;
    push_slot_end(text, "label=\"entry ", slot)
}

// Appends how an edge looks.
fn push_look(text: &mut Vec<u8>, reason: Reason) -> Result<(), Memory>
    ensures { IfOk result (λ _. text.new.items ≡ text.old.items ++ look_text reason) }
{
    match reason {
        Reason::Field(i) => push_around(text, " [label=\"", i as u64, "\"]"),
        Reason::Target(style) => push_style(text, style),
        Reason::Dependent(slot) => push_dependent(text, slot),
        Reason::Entry(slot) => push_entry(text, slot),
        Reason::Root => Ok(()),
    }
}

// Appends an edge.
fn push_edge(text: &mut Vec<u8>, from: Node, reason: Reason, to: Id) -> Result<(), Memory>
    ensures { IfOk result (λ _. text.new.items ≡ text.old.items ++ edge_text from reason to) }
{
    push(text, "  ")?;
    push_name(text, from)?;
    push(text, " -> ")?;
    push_object_name(text, to)?;
    push_look(text, reason)?;
    push(text, ";\n")
}

/// Appends an edge to what is not null.
pub(crate) fn push_edge_to(
    text: &mut Vec<u8>,
    from: Node,
    reason: Reason,
    to: Option<Id>,
) -> Result<(), Memory>
    ensures { IfOk result (λ _. text.new.items ≡ text.old.items ++ edge_to from reason to) }
{
    match to {
        Some(id) => push_edge(text, from, reason, id),
        None => Ok(()),
    }
}

/// Appends an edge from what attaches something, to that.
pub(crate) fn push_attached(
    text: &mut Vec<u8>,
    reason: Reason,
    from: Option<Id>,
    to: Option<Id>,
) -> Result<(), Memory>
    ensures { IfOk result (λ _. text.new.items ≡ text.old.items ++ attached_edge reason from to) }
{
    match from {
        Some(id) => push_edge_to(text, Node::Object(id), reason, to),
        None => Ok(()),
    }
}

// Appends the label of a slot.
fn push_slot_label(text: &mut Vec<u8>, slot: Slot, word: &str) -> Result<(), Memory>
    ensures { IfOk result (λ _. text.new.items ≡ text.old.items ++ slot_label slot word.now) }
{
    push(text, " [shape=ellipse label=\"")?;
    push_small(text, slot.0)?;
    push(text, " ")?;
    push(text, word)?;
    push(text, "\"];\n")
}

/// Appends the node of a slot, with a word.
pub(crate) fn push_slot(text: &mut Vec<u8>, slot: Slot, word: &str) -> Result<(), Memory>
    ensures { IfOk result (λ _. text.new.items ≡ text.old.items ++ slot_text slot word.now) }
{
    push(text, "  ")?;
    push_name(text, Node::Slot(slot))?;
    push_slot_label(text, slot, word)
}

/// Appends a root that references an object, with what it references.
pub(crate) fn push_root(text: &mut Vec<u8>, node: Node, to: Option<Id>) -> Result<(), Memory>
    ensures { IfOk result (λ _. text.new.items ≡ text.old.items ++ root_text node to) }
{
    let Some(id) = to else {
        return Ok(());
    };
    push(text, "  ")?;
    push_name(text, node)?;
    push(text, " [shape=plaintext];\n")?;
    push_edge(text, node, Reason::Root, id)
}
