// The list of roots, gathered block by block, in as many threads as there are processors.
ghost use Rattle.std.specs.Prelude.{false, None, ◌≡◌, ◌*◌, ◌≤◌, ◌++◌, flat_map, IfOk, OnOk, Some};
ghost use Rattle.std.specs.Option.{option_to_list};
ghost use Rattle.hd_model.specs.{declared.data.Addr.Addr, RootText.held_of, State.Handle, State.handles_of, Table.row_at};
ghost use Rattle.hd_scan.specs.{Gathering.roots_of, Inside.roots_of_block, Inside.root_at};

use hd_model::limits::ROWS;
use hd_model::{Addr, Kind, Memory, Role, Slot, role_by};
use hd_seg::{BlockKind, Seg};
use rayon::prelude::*;
use std::alloc::{AllocError, Global};
use std::thread::Threads;

/// A handle that holds its target: its slot, its kind, and the address of the target.
#[derive(Clone, Copy, Debug, PartialEq, Eq)]
pub struct Root {
    pub slot: Slot,
    pub kind: Kind,
    pub at: Addr,
}

/// The roots of a table of `blocks` blocks, in rising slot.
pub fn gather(
    rt: &(impl Threads + Sync),
    alloc: Global,
    seg: &Seg,
    blocks: u32,
) -> Result<Vec<Root>, Memory>
    requires { blocks ≡ seg.now.blocks }
    ensures { IfOk result (λ roots. roots.items ≡ roots_of seg.now) }
{
    match gather_blocks(rt, alloc, seg, blocks) {
        Ok(roots) => Ok(roots),
        Err(AllocError) => Err(Memory),
    }
}

// Gathers the roots of each block, and then joins their lists.
fn gather_blocks(
    rt: &(impl Threads + Sync),
    alloc: Global,
    seg: &Seg,
    blocks: u32,
) -> Result<Vec<Root>, AllocError>
    requires { blocks ≡ seg.now.blocks }
    ensures { IfOk result (λ roots. roots.items ≡ roots_of seg.now) }
{
    // The read brings the limit of the number of blocks.
    let _given = seg.given();
    let parts = (1..blocks + 1)
        .into_par_iter()
        .with_min_len(1)
        .map(
            |block: u32| -> Result<Vec<Root>, AllocError>
                requires { (1 ≤ block) × (block ≤ seg.now.blocks) }
                ensures { IfOk result (λ roots. roots.items ≡ roots_of_block seg.entry.now block) }
            { roots_of_block(alloc, seg, block) },
        )
        .collect::<Result<Vec<Vec<Root>>, AllocError>>(rt, alloc)??;
    joined(alloc, &parts)
}

/// The same in the calling thread.
pub fn gather_alone(alloc: Global, seg: &Seg, blocks: u32) -> Result<Vec<Root>, Memory>
    requires { blocks ≡ seg.now.blocks }
    ensures { IfOk result (λ roots. roots.items ≡ roots_of seg.now) }
{
    match gather_in_turn(alloc, seg, blocks) {
        Ok(roots) => Ok(roots),
        Err(AllocError) => Err(Memory),
    }
}

// Gathers the roots of one block after another.
fn gather_in_turn(alloc: Global, seg: &Seg, blocks: u32) -> Result<Vec<Root>, AllocError>
    requires { blocks ≡ seg.now.blocks }
    ensures { IfOk result (λ roots. roots.items ≡ roots_of seg.now) }
{
    // The read brings the limit of the number of blocks.
    let _given = seg.given();
    let mut roots = Vec::new(alloc);
    for i in 0..blocks {
        let part = roots_of_block(alloc, seg, i + 1)?;
        roots.extend_from_slice(&part)?;
    }
    Ok(roots)
}

// The lists one after another.
fn joined(alloc: Global, parts: &[Vec<Root>]) -> Result<Vec<Root>, AllocError>
    ensures { IfOk result (λ roots. roots.items ≡ flat_map (λ v. v.items) parts.now) }
{
    let mut roots = Vec::new(alloc);
    for part in parts {
        roots.extend_from_slice(part)?;
    }
    Ok(roots)
}

// The roots of one block.
fn roots_of_block(alloc: Global, seg: &Seg, block: u32) -> Result<Vec<Root>, AllocError>
    requires low { 1 ≤ block }
    requires high { block ≤ seg.now.blocks }
    ensures { IfOk result (λ roots. roots.items ≡ roots_of_block seg.now block) }
{
    let mut roots = Vec::new(alloc);
    let BlockKind::Rows(kind) = seg.block_kind(block) else {
        return Ok(roots);
    };
    if !may_hold(kind) {
        return Ok(roots);
    }
    for row in 0..ROWS {
        let root = root_at(seg, Slot(ROWS * block + row), kind);
        add(&mut roots, root)?;
    }
    Ok(roots)
}

// Whether handles of a kind may hold their target.
fn may_hold(kind: Kind) -> bool
    ensures { result ≡ false → (h : Handle Addr) → h.kind ≡ kind → held_of h ≡ None }
{
    match kind {
        Kind::Short | Kind::Long | Kind::Dependent => false,
        Kind::Strong | Kind::Pinned | Kind::Variable | Kind::Counted => true,
    }
}

// Adds a root to a list, if there is one.
fn add(roots: &mut Vec<Root>, root: Option<Root>) -> Result<(), AllocError>
    ensures { OnOk result (roots.new.items ≡ roots.old.items ++ option_to_list root) }
{
    if let Some(root) = root {
        roots.push(root)?;
    }
    Ok(())
}

// The root in a slot of a block of a kind, if its handle is one.
fn root_at(seg: &Seg, slot: Slot, kind: Kind) -> Option<Root>
    requires { (h : Handle Addr) → row_at seg.now slot.0 ≡ Some h → h.kind ≡ kind }
    ensures { result ≡ root_at seg.now slot }
{
    let row = seg.row(slot)?;
    let at = row.target?;
    match role_by(kind, row.extra) {
        Role::Holds => Some(Root { slot, kind, at }),
        Role::Short | Role::Long | Role::Attaches => None,
    }
}
