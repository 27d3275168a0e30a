// How far a dialogue has come.
ghost use Rattle.std.specs.Prelude.{◌≡◌, ◌+◌, ◌^◌, ◌<◌, [], false, length, slice_index};
ghost use Rattle.std.specs.Prelude.{slice_set};
ghost use Rattle.hd_model.specs.declared.limits.TheConstants.{CALLERS};
ghost use Rattle.hd_step.specs.Inside.{AreCounts};

use hd_model::limits::CALLERS;

// A count for each caller.
const COUNTS: usize = CALLERS as usize;

/// Whose commands follow, how many entries each caller has, the lines so far, and whether one of
/// them was left out or had an operand at fault.
#[derive(Drop)]
pub(crate) struct Progress {
    pub(crate) caller: u32,
    pub(crate) counts: [u32; COUNTS],
    pub(crate) lines: u32,
    pub(crate) is_bad: bool,
}

impl Progress {
    /// Before the first line.
    pub(crate) fn new() -> Progress
        ensures caller { result.caller ≡ 0 }
        ensures slots { length result.counts ≡ CALLERS }
        ensures counts { AreCounts [] result.counts }
        ensures bad { result.is_bad ≡ false }
    {
        Progress {
            caller: 0,
            counts: [0; COUNTS],
            lines: 0,
            is_bad: false,
        }
    }

    /// Counts one more entry of the caller, and returns its number.
    pub(crate) fn count(&mut self) -> u32
        requires caller { self.old.caller < CALLERS }
        requires fits { slice_index self.old.counts self.old.caller + 1 < 2 ^ 32 }
        ensures number { result ≡ slice_index self.old.counts self.old.caller + 1 }
        ensures counted { self.new ≡ record self.old {
          counts = slice_set self.old.counts self.old.caller result;
        } }
    {
        let number = self.counts[self.caller as usize] + 1;
        self.counts[self.caller as usize] = number;
        number
    }
}
