// The pace of callers in threads.

/// Called before each command of a caller that runs in a thread, so that a test can hold callers
/// back. It promises nothing of the world.
pub trait Pace: Sync {
    /// `step` counts the caller's commands from 1.
    fn at(&self, caller: u32, step: u64);
}

/// No pace: each caller goes on at once.
#[derive(Clone, Copy, Debug)]
pub struct NoPace;

impl Pace for NoPace {
    fn at(&self, _caller: u32, _step: u64) {}
}
