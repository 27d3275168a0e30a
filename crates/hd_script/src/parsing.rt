ghost use Rattle.std.specs.Prelude.{◌≡◌, ◌≤◌, length, IfOk, IfErr};
ghost use Rattle.hd_model.specs.Grammar.{IsScript, AreLists};
ghost use Rattle.hd_script.specs.Fault.{IsFaultOf};

use crate::fault::ScriptFault;
use crate::reading::{Reading, read_line};
use crate::scripts::Scripts;
use hd_model::limits::{MOST_BYTES, MOST_COMMANDS};
use std::alloc::Global;

/// Reads a script of at most 8,388,608 bytes. A line is one command, a comment, or `caller N`: the
/// commands of caller N follow.
pub fn parse(alloc: Global, bytes: &[u8]) -> Result<Scripts, ScriptFault>
    requires { length bytes.now ≤ MOST_BYTES }

    // `Ok` has the lists of the script, and `Line` the first line that has no reading or is one
    // command too many.
    ensures ok { IfOk result (IsScript bytes.now) }
    ensures line { IfErr result (IsFaultOf bytes.now) }
    ensures lists { IfOk result AreLists }
{
    let mut scripts = Scripts::new(alloc)?;
    let mut caller = 0;
    let mut number = 0;
    let mut rest = bytes;
    'lines: while !rest.is_empty() {
        let Some((reading, after)) = read_line(rest) else {
            return Err(ScriptFault::Line(number + 1));
        };
        rest = after;
        number += 1;
        match reading {
            Reading::Blank => {}
            Reading::Caller(named) => {
                scripts.open(alloc, named)?;
                caller = named;
            }
            Reading::Command(cmd) => {
                if scripts.total() == MOST_COMMANDS {
                    return Err(ScriptFault::Line(number));
                }
                scripts.add(caller, cmd)?;
            }
        }
    }
    Ok(scripts)
}
