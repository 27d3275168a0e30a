// The pauses between two looks at the gate. They change nothing and make no call of the system.
use std::hint::spin_loop;

// How often a pause is doubled: the longest is 256 pauses of the processor.
const DOUBLINGS: u32 = 8;

/// The pauses of the processor after a look.
pub(crate) fn pause_after(look: u32) {
    for _pause in 0..1u32 << look.min(DOUBLINGS) {
        spin_loop();
    }
}
