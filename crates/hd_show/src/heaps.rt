// The tables of generations and of regions.
ghost use Rattle.std.specs.Prelude.{◌≡◌, ◌+◌, ◌++◌, ◌≤◌, filter, length, IfOk};
ghost use Rattle.hd_show.specs.{Heaps.generation_row, Heaps.generations_text, Heaps.is_in, Heaps.name_of, Heaps.region_row, Heaps.regions_text, Heaps.sums_of, Inside.regions_by, Inside.with_region};

use crate::columns::{push_cell, push_end};
use crate::sums::RegionSums;
use crate::tally::plus;
use hd_model::Memory;
use hd_model::limits::OLDEST;
use hd_print::{Line, Text};
use hd_seen::SeenRegion;

/// What there is in some regions: objects, their cells, the regions, pinned objects and set cards.
#[derive(Clone, Copy)]
pub(crate) struct Sums {
    pub(crate) objects: u64,
    pub(crate) cells: u64,
    pub(crate) regions: u64,
    pub(crate) pinned: u64,
    pub(crate) cards: u64,
}

/// Appends a line for each generation, and one for all.
pub(crate) fn push_generations(
    text: &mut Text,
    regions: &[SeenRegion],
    sums: &RegionSums,
) -> Result<(), Memory>
    ensures { IfOk result (λ _. text.new
        ≡ text.old ++ generations_text (regions_by sums.now) regions.now) }
{
    text.push("GENERATION  OBJECTS  CELLS    REGIONS  PINNED  CARDS\n")?;
    for generation in 0..OLDEST + 1 {
        push_generation(text, regions, sums, Some(generation))?;
    }
    push_generation(text, regions, sums, None)?;
    text.push("\n")?;
    Ok(())
}

// Appends the line of a generation, or of all.
fn push_generation(
    text: &mut Text,
    regions: &[SeenRegion],
    sums: &RegionSums,
    generation: Option<u8>,
) -> Result<(), Memory>
    ensures { IfOk result (λ _. text.new
        ≡ text.old ++ generation_row (regions_by sums.now) regions.now generation) }
{
    let all = sums_in(regions, sums, generation)?;
    let mut line = Line::new();
    push_name(&mut line, generation);
    push_cell(&mut line, 12, all.objects);
    push_cell(&mut line, 21, all.cells);
    push_cell(&mut line, 30, all.regions);
    push_cell(&mut line, 39, all.pinned);
    push_cell(&mut line, 47, all.cards);
    push_end(text, line)
}

// Appends a generation, or that it is all.
fn push_name(line: &mut Line, generation: Option<u8>)
    requires { length line.old + 3 ≤ Line.CAPACITY }
    ensures word { line.new ≡ line.old ++ name_of generation }
    ensures short { length line.new ≤ length line.old + 3 }
{
    match generation {
        Some(number) => line.push_number(number),
        None => line.push_str("all"),
    }
}

// What there is in the regions of a generation, or of all.
fn sums_in(
    regions: &[SeenRegion],
    sums: &RegionSums,
    generation: Option<u8>,
) -> Result<Sums, Memory>
    ensures { IfOk result (λ all. all
        ≡ sums_of (regions_by sums.now) (filter (is_in generation) regions.now)) }
{
    let mut all = Sums {
        objects: 0,
        cells: 0,
        regions: 0,
        pinned: 0,
        cards: 0,
    };
    for region in regions {
        if is_in(generation, *region) {
            all = with_region(all, sums, *region)?;
        }
    }
    Ok(all)
}

// Whether a region is of a generation, or any is asked for.
fn is_in(generation: Option<u8>, region: SeenRegion) -> bool
    ensures { result ≡ is_in generation region }
{
    match generation {
        Some(number) => region.generation == number,
        None => true,
    }
}

// What there is in some regions and one more.
fn with_region(all: Sums, sums: &RegionSums, region: SeenRegion) -> Result<Sums, Memory>
    ensures { IfOk result (λ more. more ≡ with_region (regions_by sums.now) all region) }
{
    Ok(Sums {
        objects: plus(all.objects, sums.objects(region.number))?,
        cells: plus(all.cells, sums.cells(region.number))?,
        regions: plus(all.regions, 1)?,
        pinned: plus(all.pinned, sums.pinned(region.number))?,
        cards: plus(all.cards, u64::from(region.cards))?,
    })
}

/// Appends a line for each region in use.
pub(crate) fn push_regions(
    text: &mut Text,
    regions: &[SeenRegion],
    sums: &RegionSums,
) -> Result<(), Memory>
    ensures { IfOk result (λ _. text.new
        ≡ text.old ++ regions_text (regions_by sums.now) regions.now) }
{
    text.push("REGION    GENERATION  OBJECTS  CELLS  POINTER  PINNED  CARDS\n")?;
    for region in regions {
        push_region(text, *region, sums)?;
    }
    text.push("\n")?;
    Ok(())
}

// Appends the line of a region.
fn push_region(text: &mut Text, region: SeenRegion, sums: &RegionSums) -> Result<(), Memory>
    ensures { IfOk result (λ _. text.new ≡ text.old ++ region_row (regions_by sums.now) region) }
{
    let mut line = Line::new();
    line.push_number(region.number);
    push_cell(&mut line, 10, u64::from(region.generation));
    push_cell(&mut line, 22, sums.objects(region.number));
    push_cell(&mut line, 31, sums.cells(region.number));
    push_cell(&mut line, 38, u64::from(region.pointer));
    push_cell(&mut line, 47, sums.pinned(region.number));
    push_cell(&mut line, 55, u64::from(region.cards));
    push_end(text, line)
}
