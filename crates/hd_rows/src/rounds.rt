ghost use Rattle.std.specs.Prelude.{◌≡◌, ◌*◌, length, IfOk};
ghost use Rattle.hd_plan.specs.Plan.{HasNoEmptyRegion};

use crate::same::same;
use crate::state::{State, collected, due, first_root, handle, new, open, set};
use hd_model::limits::{CLUMPS, FIELDS};
use hd_model::{Kind, Memory, Slot};
use std::alloc::Global;
use std::process::Abort;
use std::test::Fail;

// Eighty objects of the most fields, of which every fourth is a root.
fn eighty(rt: &impl Abort, alloc: Global) -> Result<State, Memory>
    ensures full { IfOk result (λ s. HasNoEmptyRegion s.heap) }
    ensures clumps { IfOk result (λ s. length s.ages ≡ CLUMPS * s.seg.blocks) }
{
    let mut s = open(alloc)?;
    for k in 0..80 {
        let _ = new(rt, &mut s, k + 1, FIELDS, k % 4 == 0);
    }
    Ok(s)
}

#[test]
fn a_full_collection_leaves_few_regions(rt: HostRuntime) -> Result<(), Fail> {
    let mut s = eighty(&rt, rt.alloc())?;
    same(&rt, s.heap.regions(), 20);
    let report = collected(&rt, rt.alloc(), &mut s, 2)?;
    same(&rt, report.kept, 20);
    same(&rt, report.removed, 60);
    assert!(rt; s.heap.regions() <= 9);
    Ok(())
}

// Collects, after looking at how many steps that takes: each due clump of strong handles is visited
// by their task and by the relocation.
fn steps_of(rt: &impl Abort, alloc: Global, s: &mut State, n: u8) -> Result<u32, Memory>
    requires full { HasNoEmptyRegion s.old.heap }
    requires clumps { length s.old.ages ≡ CLUMPS * s.old.seg.blocks }
    ensures full { IfOk result (λ _. HasNoEmptyRegion s.new.heap) }
    ensures clumps { IfOk result (λ _. length s.new.ages ≡ CLUMPS * s.new.seg.blocks) }
{
    let clumps = due(rt, s, Kind::Strong, n);
    let _ = collected(rt, alloc, s, n)?;
    assert!(rt; clumps <= CLUMPS);
    Ok(2 * clumps)
}

// What is made before a collection.
#[derive(Clone, Copy)]
enum Made {
    Object,
    Handle,
    Target,
    Nothing,
}

// Makes an object that a register references, a handle of it, or a younger target of the handle.
fn make(rt: &impl Abort, s: &mut State, made: Made, slot: Option<Slot>) -> Option<Slot>
    requires full { HasNoEmptyRegion s.old.heap }
    requires clumps { length s.old.ages ≡ CLUMPS * s.old.seg.blocks }
    ensures full { HasNoEmptyRegion s.new.heap }
    ensures clumps { length s.new.ages ≡ CLUMPS * s.new.seg.blocks }
{
    match made {
        Made::Object => {
            let _ = new(rt, s, 1, 2, true);
            None
        }
        Made::Handle => {
            let old = first_root(rt, s);
            Some(handle(rt, s, Kind::Strong, old))
        }
        Made::Target => {
            let young = new(rt, s, 2, 2, false);
            if let Some(slot) = slot {
                set(rt, s, slot, Some(young));
            }
            slot
        }
        Made::Nothing => slot,
    }
}

#[test]
fn handles_of_older_objects_are_not_visited(rt: HostRuntime) -> Result<(), Fail> {
    let mut s = open(rt.alloc())?;
    let mut slot = None;
    for (made, n, steps) in [
        (Made::Object, 0, 0),
        (Made::Nothing, 1, 0),
        (Made::Handle, 0, 0),
        (Made::Target, 0, 2),
        (Made::Nothing, 0, 0),
        (Made::Nothing, 1, 2),
    ] {
        slot = make(&rt, &mut s, made, slot);
        same(&rt, steps_of(&rt, rt.alloc(), &mut s, n)?, steps);
    }
    Ok(())
}
