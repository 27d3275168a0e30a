// What a dialogue is about.
ghost use Rattle.std.specs.Prelude.{◌≡◌, ◌<◌, ◌≤◌, IfOk, OnErr};
ghost use Rattle.hd_model.specs.FullText.{end_of};
ghost use Rattle.hd_model.specs.Valid.{IsValid};
ghost use Rattle.hd_step.specs.Machine.{MachineView, HasDone};

use hd_model::{Cmd, Memory, Reply};
use hd_print::Line;

/// A machine that takes commands, one at a time.
pub trait Machine {
    /// Its numbers, its state, the journal that led there, and the room for more entries.
    ghost seen: { Self → MachineView };

    /// Does a command of a caller, and returns its reply. Out of memory changes nothing.
    fn call(&mut self, caller: u32, cmd: Cmd) -> Result<Reply, Memory>
        requires room { 1 ≤ (seen self.old).spare }
        requires caller { caller < (seen self.old).numbers.callers }
        requires valid { IsValid cmd }

        ensures done { IfOk result (HasDone (seen self.old) (seen self.new) caller cmd) }
        ensures unchanged { OnErr result (seen self.new ≡ seen self.old) };

    /// For how many more entries the journal has room.
    fn spare(&self) -> u32
        ensures { result ≡ (seen self.now).spare };

    /// The last line of the run that the journal is.
    fn end_line(&self) -> Line
        ensures { result ≡ end_of (seen self.now).journal (seen self.now).state };
}
