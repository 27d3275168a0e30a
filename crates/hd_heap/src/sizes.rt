// How much a heap has of each generation, by numbers that it keeps.
ghost use Rattle.std.specs.Prelude.{◌≡◌, cond, nat_eq};
ghost use Rattle.hd_heap.specs.Sizes.{HasSize, IsWhole};
ghost use Rattle.hd_heap.specs.Inside.{no_older, with_added, with_taken, with_more, with_less};

use crate::heap::Heap;

/// How much a heap has of one generation: its objects, the cells that they take together, and its
/// regions in use.
#[derive(Clone, Copy, Debug, PartialEq, Eq)]
pub struct GenerationSize {
    pub objects: u32,
    pub cells: u32,
    pub regions: u32,
}

/// How much a heap has of generations 0, 1 and 2.
#[derive(Clone, Copy, Debug, PartialEq, Eq)]
pub struct Sizes {
    pub youngest: GenerationSize,
    pub middle: GenerationSize,
    pub oldest: GenerationSize,
}

/// How much a heap has of generations 1 and 2. All else is of generation 0, so that a new object
/// changes nothing here.
#[derive(Clone, Copy)]
pub(crate) struct Older {
    pub(crate) middle: GenerationSize,
    pub(crate) oldest: GenerationSize,
}

const NOTHING: GenerationSize = GenerationSize {
    objects: 0,
    cells: 0,
    regions: 0,
};

impl GenerationSize {
    // With more. It saturates, but no heap has as much.
    fn more(self, by: GenerationSize) -> GenerationSize
        ensures { result ≡ with_more self by }
    {
        GenerationSize {
            objects: self.objects.saturating_add(by.objects),
            cells: self.cells.saturating_add(by.cells),
            regions: self.regions.saturating_add(by.regions),
        }
    }

    fn less(self, by: GenerationSize) -> GenerationSize
        ensures { result ≡ with_less self by }
    {
        GenerationSize {
            objects: self.objects.saturating_sub(by.objects),
            cells: self.cells.saturating_sub(by.cells),
            regions: self.regions.saturating_sub(by.regions),
        }
    }

    fn more_where(self, wanted: bool, by: GenerationSize) -> GenerationSize
        ensures { result ≡ cond wanted (with_more self by) self }
    {
        if wanted { self.more(by) } else { self }
    }

    fn less_where(self, wanted: bool, by: GenerationSize) -> GenerationSize
        ensures { result ≡ cond wanted (with_less self by) self }
    {
        if wanted { self.less(by) } else { self }
    }
}

impl Older {
    /// Those of a heap without regions.
    pub(crate) fn none() -> Older
        ensures { result ≡ no_older }
    {
        Older {
            middle: NOTHING,
            oldest: NOTHING,
        }
    }

    /// A generation has more.
    pub(crate) fn add(&mut self, generation: u8, by: GenerationSize)
        ensures { self.new ≡ with_added self.old generation by }
    {
        self.middle = self.middle.more_where(generation == 1, by);
        self.oldest = self.oldest.more_where(generation == 2, by);
    }

    /// A generation has less.
    pub(crate) fn take(&mut self, generation: u8, by: GenerationSize)
        ensures { self.new ≡ with_taken self.old generation by }
    {
        self.middle = self.middle.less_where(generation == 1, by);
        self.oldest = self.oldest.less_where(generation == 2, by);
    }
}

/// A size, by its numbers.
pub(crate) fn size(objects: u32, cells: u32, regions: u32) -> GenerationSize
    ensures { result ≡ record { objects = objects; cells = cells; regions = regions } }
{
    GenerationSize {
        objects,
        cells,
        regions,
    }
}

impl Heap {
    /// How much it has of each generation. No region is looked at.
    pub fn sizes(&self) -> Sizes
        ensures youngest { HasSize self.now 0 result.youngest }
        ensures middle { HasSize self.now 1 result.middle }
        ensures oldest { HasSize self.now 2 result.oldest }
        ensures whole { IsWhole self.now result }
    {
        let Older { middle, oldest } = self.older;
        let whole = size(self.count, self.used, self.held);
        Sizes {
            youngest: whole.less(middle).less(oldest),
            middle,
            oldest,
        }
    }
}
