//! How a caller waits at the gate. It looks, with pauses that double; then it asks those who newly
//! come to give way, and looks with short pauses; then it sleeps. No call here changes a word of
//! the table, and none says anything for certain: whoever comes back tries the gate again. That no
//! wake is lost rests on the order of the lines; `trials/waking` has them all and searches them.

use crate::types::Custody;
use crate::words::{ANY_ASLEEP, FREE, GATE, NONE_ASLEEP};
use hd_model::Held;
use std::hint::spin_loop;
use std::sync::Wait;
use std::sync::atomic::{AtomicU64, Ordering};

// The looks of a caller that lost the gate, from the first on or after a sleep. A look costs a few
// nanoseconds where nobody has the gate; a turn of the gate one or two microseconds, since its
// cache lines go over, so fewer turns are faster, and a caller comes back rarely at first. Each
// number was chosen by measuring with four, two and one processors: see benches/README.md.
const LOOKS: u32 = 4000;

// The first of these looks, after which the pauses double. Then the caller asks.
const PATIENT_LOOKS: u32 = 38;

// How often a pause is doubled: the longest is 256 pauses of the processor.
const DOUBLINGS: u32 = 8;

// The looks of a caller that newly comes and gives way. They last longer than a caller needs to
// wake up. After them it tries the gate all the same.
const COURTEOUS_LOOKS: u32 = 20_000;

/// The words beside the table that callers look at and sleep on.
#[derive(Drop)]
pub(crate) struct WaitWords {
    // ANY_ASLEEP where a caller may sleep on it, else NONE_ASLEEP.
    nap: AtomicU64,
    // How many callers that looked for long ask all others to give way, and are not in yet.
    asked: AtomicU64,
}

impl WaitWords {
    /// Nobody sleeps and nobody asks.
    pub(crate) fn new() -> WaitWords {
        WaitWords {
            nap: AtomicU64::new(NONE_ASLEEP),
            asked: AtomicU64::new(0),
        }
    }

    fn is_asked(&self) -> bool {
        self.asked.load(Ordering::SeqCst) != 0
    }

    fn begin_asking(&self) {
        self.asked.fetch_add(1, Ordering::SeqCst);
    }

    fn end_asking(&self) {
        let _before = self.asked.fetch_update(
            Ordering::SeqCst,
            Ordering::SeqCst,
            |count: u64| -> Option<u64> { count.checked_sub(1) },
        );
    }

    fn announce_sleep(&self) {
        self.nap.store(ANY_ASLEEP as u64, Ordering::SeqCst);
    }

    // Whether a caller may have slept. From here on none is known to.
    fn takes_nap_back(&self) -> bool {
        self.nap.load(Ordering::SeqCst) != NONE_ASLEEP
            && self.nap.swap(NONE_ASLEEP, Ordering::SeqCst) != NONE_ASLEEP
    }
}

/// What one caller did since it came for the gate.
#[derive(Drop)]
pub(crate) struct Waiter {
    // How often it looked, since it came or since its last sleep.
    looks: u32,
    // At which look it asks.
    patience: u32,
    // How often it slept.
    sleeps: u32,
    has_asked: bool,
    // Whether it said that it may sleep, and then tried once more.
    may_sleep: bool,
}

impl Waiter {
    pub(crate) fn new() -> Waiter {
        Waiter {
            looks: 0,
            patience: PATIENT_LOOKS,
            sleeps: 0,
            has_asked: false,
            may_sleep: false,
        }
    }

    // An odd sleep leaves no patience and an even one twice as much, so that no two callers take
    // turns while a third is woken for nothing.
    fn wake_up(&mut self) {
        self.sleeps = self.sleeps.saturating_add(1);
        self.may_sleep = false;
        if self.sleeps % 2 == 1 {
            self.looks = PATIENT_LOOKS;
            self.patience = PATIENT_LOOKS;
        } else {
            self.looks = 0;
            self.patience = 2 * PATIENT_LOOKS;
        }
    }
}

// The pauses of the processor after a look.
fn pause_after(look: u32, patience: u32) {
    let pauses = if look < patience {
        1 << look.min(DOUBLINGS)
    } else {
        1
    };
    for _pause in 0..pauses {
        spin_loop();
    }
}

impl<W: Held> Custody<W> {
    fn is_free(&self) -> bool {
        self.table.shared.peek(GATE) == FREE
    }

    /// Lets those in who ask to, before the first try of a caller that newly comes.
    pub(crate) fn give_way(&self) {
        if self.waits.is_asked() {
            self.look_until_taken();
        }
    }

    // Until the gate is held or nobody asks, or for so long that who asks has no processor now.
    fn look_until_taken(&self) {
        for _look in 0..COURTEOUS_LOOKS {
            if !self.is_free() || !self.waits.is_asked() {
                return;
            }
            spin_loop();
        }
    }

    /// Waits after a try that lost, until the next one may win.
    pub(crate) fn wait<R: Wait>(&self, rt: &R, waiter: &mut Waiter) {
        if waiter.may_sleep {
            self.sleep(rt, waiter);
        } else if !self.looks_free(waiter) {
            self.prepare_sleep(waiter);
        }
    }

    // Whether the gate was free at one of the looks that are left.
    fn looks_free(&self, waiter: &mut Waiter) -> bool {
        for look in waiter.looks..LOOKS {
            if look >= waiter.patience {
                self.ask(waiter);
            }
            if self.is_free() && self.may_try(waiter) {
                waiter.looks = look + 1;
                return true;
            }
            pause_after(look, waiter.patience);
        }
        waiter.looks = LOOKS;
        false
    }

    // Whether it is this caller's turn at a free gate: those who ask come before those who do not.
    fn may_try(&self, waiter: &Waiter) -> bool {
        waiter.has_asked || !self.waits.is_asked()
    }

    // Asks, once.
    fn ask(&self, waiter: &mut Waiter) {
        if !waiter.has_asked {
            self.waits.begin_asking();
            waiter.has_asked = true;
        }
    }

    // Says that a caller may sleep. The gate is tried once more after it: the holder may have left
    // before it was said, and then wakes nobody.
    fn prepare_sleep(&self, waiter: &mut Waiter) {
        self.waits.announce_sleep();
        waiter.may_sleep = true;
    }

    // Sleeps while a caller may sleep by the word. It may also return for no reason.
    fn sleep<R: Wait>(&self, rt: &R, waiter: &mut Waiter) {
        self.waits.nap.park(rt, ANY_ASLEEP);
        waiter.wake_up();
    }

    /// What a caller takes back once it has the gate. Whoever woke it took the word back for all,
    /// and others may still sleep.
    pub(crate) fn end_wait(&self, waiter: &Waiter) {
        if waiter.sleeps > 0 {
            self.waits.announce_sleep();
        }
        if waiter.has_asked {
            self.waits.end_asking();
        }
    }

    /// Wakes one caller where any may sleep. The gate is free before it.
    pub(crate) fn wake(&self) {
        if self.waits.takes_nap_back() {
            self.waits.nap.wake_one();
        }
    }
}
