// A table with a block of strong handles: some are stored, and for each generation the slots are
// printed that a collection visits, before and after the ages of their clumps have grown.
ghost use Rattle.std.specs.Prelude.{◌≡◌, ◌<◌, IfOk};
ghost use Rattle.hd_ages.specs.Clumps.{CoversTable};

use hd_ages::{AgeMap, DueRows, count_due};
use hd_model::limits::{CLUMP, OLDEST, ROWS};
use hd_model::{Addr, Kind, Memory, Slot, Steps};
use hd_seg::{BlockKind, Extra, Full, Row, Seg};
use std::alloc::{AllocError, Global};
use std::io;
use std::marker::Brand;
use std::sync::ledger::{Blank, Ledger};

// The blocks of the table.
const BLOCKS: u32 = 4;

// Handles: the slot of each, the address of its target, and the generation of that.
const HANDLES: [(u32, u32, u8); 4] = [(64, 256, 0), (65, 512, 2), (80, 768, 1), (127, 512, 2)];

fn open(alloc: Global) -> Result<(Seg, AgeMap), Memory>
    ensures { IfOk result (λ made. CoversTable made.1 made.0) }
{
    let seg = Seg::open(alloc, BLOCKS)?;
    let ages = AgeMap::open(alloc, BLOCKS)?;
    Ok((seg, ages))
}

// Stores a strong handle, if the slot is a free one of a block of strong handles, and lowers the age
// of its clump to the generation of the target.
fn store(seg: &mut Seg, ages: &mut AgeMap, slot: Slot, target: Addr, generation: u8)
    requires { CoversTable ages.old seg.old }
    ensures { CoversTable ages.new seg.new }
{
    let block = slot.0 / ROWS;
    if block == 0 || block > ages.blocks() || seg.row(slot).is_some() {
        return;
    }
    if let BlockKind::Rows(Kind::Strong) = seg.block_kind(block) {
        let target = Some(target);
        let extra = Extra::Nothing;
        seg.put_row(slot, Row { target, extra });
        ages.lower(block, slot.0 % ROWS / CLUMP, generation);
    }
}

// Gives strong handles a block, and stores some.
fn fill(seg: &mut Seg, ages: &mut AgeMap, handles: &[(u32, u32, u8)]) -> Result<(), Full>
    requires { CoversTable ages.old seg.old }
    ensures { CoversTable ages.new seg.new }
{
    seg.give_block(Kind::Strong)?;
    for (slot, at, generation) in handles {
        store(seg, ages, Slot(*slot), Addr(*at), *generation);
    }
    Ok(())
}

// Prints the slots that a collection of generation `n` visits. Their clumps are counted in a ledger
// too, which takes no memory and which nothing reads.
fn print_slots<L: Ledger>(
    rt: &impl Print,
    seg: &Seg,
    ages: &AgeMap,
    n: u8,
    steps: &mut Steps<L>,
) -> io::Result<()>
    requires { CoversTable ages.now seg.now }
{
    let mut walk = DueRows::start(seg, ages, Kind::Strong, n);
    while let Some(slot) = walk.next(seg, ages, steps) {
        print!(rt; " {}", slot.0)?;
    }
    println!(rt)
}

// Prints, for each generation, the clumps and the slots that a collection visits.
fn print_due<L: Ledger>(rt: &impl Print, seg: &Seg, ages: &AgeMap, blank: Blank) -> io::Result<()>
    requires blank { (L.name ≡ blank.name) × (L.parts ≡ blank.parts) × (0 < blank.parts) }
    requires covers { CoversTable ages.now seg.now }
{
    let mut steps = Steps::<L>::open(blank);
    for n in 0..=OLDEST {
        let clumps = count_due(seg, ages, Kind::Strong, n);
        print!(rt; "generation {n}, due clumps {clumps}, slots")?;
        print_slots(rt, seg, ages, n, &mut steps)?;
    }
    Ok(())
}

// Stores the handles, and prints the slots before and after a collection of generation 0.
fn show(rt: &impl Print, seg: &mut Seg, ages: &mut AgeMap) -> io::Result<()>
    requires { CoversTable ages.old seg.old }
{
    match fill(seg, ages, &HANDLES) {
        Ok(()) => println!(rt; "handles {}, blocks in use {}", seg.live(), seg.given())?,
        Err(full) => println!(rt; "no block is left, {} are in use", full.given)?,
    }
    print_due::<Brand>(rt, seg, ages, Blank::new(1))?;
    ages.grow_all(0);
    println!(rt; "after a collection of generation 0")?;
    print_due::<Brand>(rt, seg, ages, Blank::new(1))
}

/// Stores the handles, and prints the slots twice.
pub(crate) fn run(rt: &impl Print, alloc: Global) -> io::Result<()> {
    let Ok((mut seg, mut ages)) = open(alloc) else {
        return Err(AllocError.into());
    };
    show(rt, &mut seg, &mut ages)
}
