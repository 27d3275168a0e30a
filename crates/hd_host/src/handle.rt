ghost use Rattle.std.specs.Prelude.{◌≡◌, ◌/◌, ◌%◌, ◌<◌, ◌^◌};

use hd_model::Slot;

// The numbers of slots, which are below this one.
const SLOTS: u64 = 1 << 24;

/// A handle by value: the number of its slot in the low 24 bits, and above them a stamp, by which a
/// freed handle differs from one that is in its slot later. A handle that a host made is never 0.
#[derive(Clone, Copy, Debug, PartialEq, Eq)]
pub struct Handle(pub u64);

impl Handle {
    // Its slot, which may be any number below 2^24.
    #[inline(always)]
    pub(crate) fn slot(self) -> Slot
        ensures { result ≡ record { 0 = self.0 % 2 ^ 24 } }
    {
        Slot((self.0 % SLOTS) as u32)
    }

    // Its stamp.
    #[inline(always)]
    pub(crate) fn stamp(self) -> u64
        ensures value { result ≡ self.0 / 2 ^ 24 }
        ensures most { result < 2 ^ 40 }
    {
        self.0 / SLOTS
    }
}
