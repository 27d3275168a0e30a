// Sums by number, each 0 until something is added.
ghost use Rattle.std.specs.Prelude.{◌≡◌, ℕ, ◌+◌, ◌<◌, ◌==◌, [], if◌then◌else◌, length, IfOk};
ghost use Rattle.hd_show.specs.Inside.{tally_at};

use hd_model::Memory;
use std::alloc::Global;
use std::marker::Model;

/// A sum for each number. It has room for those up to the greatest that something was added to.
#[derive(Drop)]
pub(crate) struct Tally {
    sums: Vec<u64>,
}

impl Model for Tally {
    ghost use Rattle.std.specs.Prelude.{ℕ, List};

    ghost Value = { List ℕ };

    ghost view = { λ tally. tally.sums.items };
}

impl Tally {
    /// Nothing is added yet.
    pub(crate) fn open(alloc: Global) -> Tally
        ensures { result ≡ [] }
    {
        Tally {
            sums: Vec::new(alloc),
        }
    }

    /// The sum at a number.
    pub(crate) fn at(&self, number: u64) -> u64
        ensures { result ≡ tally_at self.now number }
    {
        if number < self.sums.len() as u64 {
            self.sums[number as usize]
        } else {
            0
        }
    }

    /// Adds to the sum at a number.
    pub(crate) fn add(&mut self, number: u32, amount: u64) -> Result<(), Memory>
        ensures { IfOk result (λ _. (k : ℕ) →
            tally_at self.new k ≡ tally_at self.old k + (if number == k then amount else 0)) }
    {
        let index = number as usize;
        self.reach(number)?;
        let sum = plus(self.sums[index], amount)?;
        self.sums[index] = sum;
        Ok(())
    }

    // Makes room for a number.
    fn reach(&mut self, number: u32) -> Result<(), Memory>
        ensures same { IfOk result (λ _. (k : ℕ) → tally_at self.new k ≡ tally_at self.old k) }
        ensures room { IfOk result (λ _. number < length self.new) }
    {
        let index = number as usize;
        if index < self.sums.len() {
            return Ok(());
        }
        match self.sums.resize(index + 1, 0) {
            Ok(()) => Ok(()),
            Err(_) => Err(Memory),
        }
    }
}

/// The sum of two numbers. One that does not fit would be of more things than any memory has.
pub(crate) fn plus(a: u64, b: u64) -> Result<u64, Memory>
    ensures { IfOk result (λ sum. sum ≡ a + b) }
{
    match a.checked_add(b) {
        Some(sum) => Ok(sum),
        None => Err(Memory),
    }
}
