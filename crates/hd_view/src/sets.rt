// Sets of numbers, by ranges.
ghost use Rattle.std.specs.Prelude.{◌≡◌, ℕ, ◌+◌, ◌≤◌, ◌<◌, ◌↔◌, [], ◌++◌, ◌∷◌, max, IfOk, IsTrue, MatchOption};
ghost use Rattle.hd_view.specs.Inside.{Adds, Between};
ghost use Rattle.hd_view.specs.Sets.{IsIn, IsMember};

use hd_model::Memory;
use std::alloc::Global;

/// All numbers from one to another.
#[derive(Clone, Copy)]
pub(crate) struct Range {
    pub(crate) first: u32,
    pub(crate) last: u32,
}

/// The numbers that are in one of some ranges, and in none of some others.
#[derive(Drop)]
pub(crate) struct NumberSet {
    pub(crate) within: Vec<Range>,
    pub(crate) but: Vec<Range>,
}

impl Range {
    // Whether a number is in it.
    fn has(self, number: u32) -> bool
        ensures { IsTrue result ↔ ((self.first ≤ number) × (number ≤ self.last)) }
    {
        self.first <= number && number <= self.last
    }

    // Whether a number is in it, or is the one behind it.
    fn meets(self, number: u32) -> bool
        ensures { IsTrue result ↔ ((self.first ≤ number) × (number ≤ self.last + 1)) }
    {
        self.first <= number && (number <= self.last || number - 1 == self.last)
    }

    // The range that goes on to a number at least.
    fn longer(self, last: u32) -> Range
        ensures { result ≡ record { first = self.first; last = max self.last last } }
    {
        Range {
            first: self.first,
            last: self.last.max(last),
        }
    }
}

impl NumberSet {
    /// No number.
    pub(crate) fn open(alloc: Global) -> NumberSet
        ensures within { result.within.items ≡ [] }
        ensures but { result.but.items ≡ [] }
    {
        NumberSet {
            within: Vec::new(alloc),
            but: Vec::new(alloc),
        }
    }

    /// Whether a number is in it.
    pub(crate) fn has(&self, number: u32) -> bool
        ensures { IsTrue result ↔ IsMember self.now number }
    {
        is_in(&self.within, number) && !is_in(&self.but, number)
    }
}

// Whether a number is in one of some ranges.
fn is_in(ranges: &[Range], number: u32) -> bool
    ensures { IsTrue result ↔ IsIn ranges.now number }
{
    for range in ranges {
        if range.has(number) {
            return true;
        }
    }
    false
}

/// Adds a range: to the last one, where it begins in that or behind it.
pub(crate) fn add_range(ranges: &mut Vec<Range>, first: u32, last: u32) -> Result<(), Memory>
    requires { first ≤ last }
    ensures { IfOk result (λ _. Adds ranges.old.items ranges.new.items
        (λ x. (first ≤ x) × (x ≤ last))) }
{
    let added = Range { first, last };
    match ranges.pop() {
        Some(before) if before.meets(first) => push(ranges, before.longer(last)),
        Some(before) => {
            push(ranges, before)?;
            push(ranges, added)
        }
        None => push(ranges, added),
    }
}

/// A test of numbers.
pub(crate) trait Test {
    ghost use Rattle.std.specs.Prelude.{ℕ};

    /// What it tells of a number.
    ghost tells: { Self → ℕ → Type 0 };

    /// Whether that is so.
    fn has(&self, number: u32) -> bool
        ensures { IsTrue result ↔ tells self.now number };
}

/// The first number below one that passes a test.
pub(crate) fn first_of<T: Test>(test: &T, end: u32) -> Option<u32>
    ensures { MatchOption result ((x : ℕ) → x < end → T.tells test.now x → ⊥)
        (T.tells test.now) }
{
    for number in 0..end {
        if test.has(number) {
            return Some(number);
        }
    }
    None
}

/// Adds the numbers from one up to another that pass a test.
pub(crate) fn add_each<T: Test>(
    test: &T,
    first: u32,
    end: u32,
    ranges: &mut Vec<Range>,
) -> Result<(), Memory>
    requires { first ≤ end }
    ensures { IfOk result (λ _. Adds ranges.old.items ranges.new.items
        (Between first end (T.tells test.now))) }
{
    for number in first..end {
        add_tested(test, number, ranges)?;
    }
    Ok(())
}

// Adds a number, if it passes a test.
fn add_tested<T: Test>(test: &T, number: u32, ranges: &mut Vec<Range>) -> Result<(), Memory>
    ensures { IfOk result (λ _. Adds ranges.old.items ranges.new.items
        (λ x. (x ≡ number) × T.tells test.now x)) }
{
    if test.has(number) {
        add_range(ranges, number, number)
    } else {
        Ok(())
    }
}

/// Appends an item.
pub(crate) fn push<T: Drop>(items: &mut Vec<T>, item: T) -> Result<(), Memory>
    ensures { IfOk result (λ _. items.new.items ≡ items.old.items ++ item ∷ []) }
{
    match items.push(item) {
        Ok(()) => Ok(()),
        Err(_) => Err(Memory),
    }
}
