// What dependent handles attach, by the target: the rows of a target are a list, from the last that
// was put to the first.

ghost use Rattle.std.specs.Prelude.{◌≡◌, ◌+◌, ◌*◌, ◌<◌, ◌≤◌, [], length, slice_get, Some, IfOk, OnOk};
ghost use Rattle.std.specs.FinMap.{get};
ghost use Rattle.hd_root.specs.{Links.AreLinks, Inside.HasGathered, Inside.IsLast, Inside.IsPut, Inside.attached_in};

use hd_model::limits::ROWS;
use hd_model::{Addr, Kind, Slot};
use hd_seg::{Extra, Seg};
use std::alloc::{AllocError, Global};
use std::collections::HashMap;
use std::marker::Model;

/// A row that attaches its secondary to its target, and the index of the one before it with the
/// same target.
#[derive(Clone, Copy)]
pub(crate) struct Link {
    pub(crate) target: Addr,
    pub(crate) secondary: Addr,
    pub(crate) before: Option<usize>,
}

/// The rows that attach something.
#[derive(Drop)]
pub(crate) struct Dependents {
    links: Vec<Link>,
    // By target, the index of its last row.
    last: HashMap<u32, usize>,
}

impl Model for Dependents {
    ghost use Rattle.std.specs.Prelude.{List, nat_eq};
    ghost use Rattle.std.specs.HashMap.{get};
    ghost use Rattle.hd_root.specs.declared.dependents.Link.{Link};
    ghost use Rattle.hd_root.specs.Inside.{AreChained};

    ghost Value = { List Link };

    ghost view = { λ d. d.links.items };

    ghost invariant = { λ d. AreChained d.links.items (get nat_eq d.last) };
}

impl Dependents {
    // No row.
    fn empty(alloc: Global) -> Dependents
        ensures { result ≡ [] }
    {
        Dependents {
            links: Vec::new(alloc),
            last: HashMap::new(alloc),
        }
    }

    /// Row `i`.
    pub(crate) fn get(&self, i: usize) -> Link
        requires { i < length self.now }
        ensures item { slice_get self.now i ≡ Some result }
        ensures before { IsLast self.now result.target i result.before }
    {
        self.links[i]
    }

    /// The index of the last row with a target.
    pub(crate) fn last(&self, target: Addr) -> Option<usize>
        ensures { IsLast self.now target (length self.now) result }
    {
        self.last.get(&target.0).copied()
    }

    // Puts a row after the others.
    fn put(&mut self, target: Addr, secondary: Addr) -> Result<(), AllocError>
        ensures { OnOk result (IsPut target secondary self.old self.new) }
    {
        self.links.reserve(1)?;
        let before = self.last.insert(target.0, self.links.len())?;
        self.links.push_reserved(Link {
            target,
            secondary,
            before,
        });
        Ok(())
    }
}

/// The rows of a table that attach something.
pub(crate) fn dependents_of(alloc: Global, seg: &Seg) -> Result<Dependents, AllocError>
    ensures { IfOk result (AreLinks seg.now) }
{
    let mut dependents = Dependents::empty(alloc);
    let mut block = seg.first(Kind::Dependent);
    while let Some(at) = block {
        add_links_of_block(seg, at, &mut dependents)?;
        block = seg.after(at);
    }
    Ok(dependents)
}

// Puts the rows of a block.
fn add_links_of_block(seg: &Seg, block: u32, dependents: &mut Dependents) -> Result<(), AllocError>
    requires low { 1 ≤ block }
    requires high { block ≤ seg.now.blocks }
    ensures { let first = block * ROWS in
        OnOk result (HasGathered seg.now first (first + ROWS) dependents.old dependents.new) }
{
    // This read gives the proof the table's invariant.
    let _live = seg.live();
    for row in 0..ROWS {
        if let Some((target, secondary)) = attached(seg, Slot(block * ROWS + row)) {
            dependents.put(target, secondary)?;
        }
    }
    Ok(())
}

// The target and the secondary of a slot, where it has both.
fn attached(seg: &Seg, slot: Slot) -> Option<(Addr, Addr)>
    ensures { result ≡ attached_in (get seg.now.rows slot.0) }
{
    let row = seg.row(slot)?;
    let target = row.target?;
    match row.extra {
        Extra::Secondary(Some(secondary)) => Some((target, secondary)),
        Extra::Secondary(None) | Extra::Nothing | Extra::Strength(_) | Extra::Count(_) => None,
    }
}
