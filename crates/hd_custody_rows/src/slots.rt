// Where slots are, by the order in which they come: that of the quick word; those of the reserve
// cells, and those of the free cells, each from the last cell down; and those of the masks, rising.
ghost use Rattle.std.specs.Prelude.{◌≡◌, ◌<◌, ◌≤◌, false};

use crate::blocks::{Blocks, open};
use hd_custody::{Custody, Seat};
use hd_model::{Grown, Kind, Memory, Slot};
use std::alloc::Global;
use std::process::Abort;
use std::sync::Wait;

// The kind word of a block of strong handles.
const STRONG: u64 = 3;

// Gives a block strong handles, at the gate, if it has no kind. Its row 0 stays held.
fn grant<R: Wait>(rt: &R, custody: &Custody<Blocks>, seat: &mut Seat<Blocks>, block: u32)
    requires seat { (seat.old.table ≡ custody.now.table) × (seat.old.view.has_gate ≡ false) }
    requires block { (0 < block) × (block < 3) × (block ≤ custody.now.blocks) }
    ensures seat { (seat.new.table ≡ seat.old.table) × (seat.new.view.has_gate ≡ false) }
{
    let world = custody.enter(rt, seat);
    if world.kind_word(block) != 0 {
        custody.leave(seat, world);
        return;
    }
    custody.grant(seat, Kind::Strong, Grown::One(block));
    custody.leave(seat, world.with(block, STRONG));
}

// Takes up to `n` slots, one after the other, and gives them back, the last one first.
fn hold(custody: &Custody<Blocks>, seat: &mut Seat<Blocks>, n: u32)
    requires { seat.old.table ≡ custody.now.table }
    ensures table { seat.new.table ≡ seat.old.table }
    ensures held { seat.new.view.held ≡ seat.old.view.held }
{
    if n == 0 {
        return;
    }
    let Some(slot) = custody.allocate(seat, Kind::Strong) else {
        return;
    };
    hold(custody, seat, n - 1);
    custody.release(seat, Kind::Strong, slot);
}

// The next slot, or 0 where there is none.
fn take(custody: &Custody<Blocks>, seat: &mut Seat<Blocks>) -> u32
    requires { seat.old.table ≡ custody.now.table }
    ensures { seat.new.table ≡ seat.old.table }
{
    match custody.allocate(seat, Kind::Strong) {
        Some(Slot(slot)) => slot,
        None => 0,
    }
}

// Whether the next slots are those from one number to another, one after the other.
fn are_next(custody: &Custody<Blocks>, seat: &mut Seat<Blocks>, first: u32, last: u32) -> bool
    requires { seat.old.table ≡ custody.now.table }
    ensures { seat.new.table ≡ seat.old.table }
{
    let is_rising = first <= last;
    let more = if is_rising {
        last - first
    } else {
        first - last
    };
    for i in 0..more.saturating_add(1) {
        let due = if is_rising {
            first.wrapping_add(i)
        } else {
            first.wrapping_sub(i)
        };
        if take(custody, seat) != due {
            return false;
        }
    }
    true
}

// Whether the next slots are those of these runs, and then there is none.
fn are_all(custody: &Custody<Blocks>, mut seat: Seat<Blocks>, runs: &[(u32, u32)]) -> bool
    requires { seat.table ≡ custody.now.table }
{
    for run in runs {
        if !are_next(custody, &mut seat, run.0, run.1) {
            return false;
        }
    }
    take(custody, &mut seat) == 0
}

// Whether these are the next slots, once the blocks have strong handles, and `n` slots were taken and
// given back.
fn come_next<R: Wait>(
    rt: &R,
    custody: &Custody<Blocks>,
    mut seat: Seat<Blocks>,
    blocks: u32,
    n: u32,
    runs: &[(u32, u32)],
) -> bool
    requires seat { (seat.table ≡ custody.now.table) × (seat.view.has_gate ≡ false) }
    requires blocks { (1 ≤ blocks) × (blocks ≤ 2) × (custody.now.blocks ≡ blocks) }
{
    grant(rt, custody, &mut seat, 1);
    if blocks == 2 {
        grant(rt, custody, &mut seat, 2);
    }
    hold(custody, &mut seat, n);
    are_all(custody, seat, runs)
}

// The same of blocks that are opened for it.
fn assert_next<R: Wait + Abort>(
    rt: &R,
    alloc: Global,
    blocks: u32,
    n: u32,
    runs: &[(u32, u32)],
) -> Result<(), Memory>
    requires { (1 ≤ blocks) × (blocks ≤ 2) }
{
    let (custody, seat) = open(alloc, blocks)?;
    assert!(rt; come_next(rt, &custody, seat, blocks, n, runs));
    Ok(())
}

// The first of two slots that are taken and given back is 65. After that each comes from the last
// cell down: from reserve cell 61 slot 127, which then is in a free cell; 126 to 66 from reserve
// cells 60 to 0; then 127. From the mask they would rise.
#[test]
fn the_other_rows_go_into_reserve_cells(rt: HostRuntime) -> Result<(), Memory> {
    assert_next(&rt, rt.alloc(), 1, 2, &[(65, 65), (126, 66), (127, 127)])
}

// 65 slots are taken, 191 as the last one, and given back, 191 first. The quick word has 65 then,
// the reserve cells have what was left of block 2, and the free cells 63 slots. 191 comes from the
// mask of its block.
#[test]
fn the_65th_release_reaches_the_mask(rt: HostRuntime) -> Result<(), Memory> {
    let runs = [(65, 65), (190, 130), (129, 129), (66, 127), (191, 191)];
    assert_next(&rt, rt.alloc(), 2, 65, &runs)
}
