// The calls of a source or a sink in memory: which of them fail, and how much one of them moves.
ghost use Rattle.std.specs.Prelude.{◌≡◌, ◌<◌, ◌≤◌, IfOk, OnOk, OnErr};
ghost use Rattle.std.specs.Result.{is_err};
ghost use Rattle.hd_io.specs.Counts.{Rose};
ghost use Rattle.hd_io.specs.Calls.{no_calls, fails_next, after_call, bounded, with_most};

use crate::Failed;
use std::alloc::{AllocError, Global};
use std::marker::Model;

#[derive(Drop)]
pub(crate) struct CallCount {
    failing: Vec<u64>,
    next: u64,
    faults: u64,
    most: Option<u32>,
}

impl Model for CallCount {
    ghost use Rattle.std.specs.Prelude.{◌<◌, IfSome};
    ghost use Rattle.hd_io.specs.Calls.{Calls};

    ghost Value = { Calls };

    ghost view = { λ c. record {
      failing = c.failing.items;
      next = c.next;
      faults = c.faults;
      most = c.most;
    } };

    ghost invariant = { λ c. IfSome c.most (λ most. 0 < most) };
}

impl CallCount {
    pub(crate) fn new(alloc: Global, failing: &[u32]) -> Result<CallCount, AllocError>
        ensures { IfOk result (λ calls. calls ≡ no_calls failing.now) }
    {
        let mut numbers = Vec::new(alloc);
        for number in failing {
            numbers.push(u64::from(*number))?;
        }
        Ok(CallCount {
            failing: numbers,
            next: 1,
            faults: 0,
            most: None,
        })
    }

    pub(crate) fn set_most(&mut self, most: u32)
        requires { 0 < most }
        ensures { self.new ≡ with_most self.old most }
    {
        self.most = Some(most);
    }

    /// The number of `count` bytes that one call moves.
    pub(crate) fn bound(&self, count: usize) -> usize
        ensures value { result ≡ bounded self.now.most count }
        ensures within { result ≤ count }
        ensures some { 0 < count → 0 < result }
    {
        match self.most {
            Some(most) => count.min(most as usize),
            None => count,
        }
    }

    /// Counts one more call, which fails where its number is among those that are to fail.
    pub(crate) fn count_one(&mut self) -> Result<(), Failed>
        ensures fails { is_err result ≡ fails_next self.old }
        ensures counted { self.new ≡ after_call self.old }
        ensures unfailed { OnOk result (self.new.faults ≡ self.old.faults) }
        ensures failed { OnErr result (Rose self.old.faults self.new.faults) }
    {
        let fails = self.failing.contains(&self.next);
        self.next = self.next.saturating_add(1);
        if fails {
            self.faults = self.faults.saturating_add(1);
            return Err(Failed);
        }
        Ok(())
    }
}
