// A script printed as a formatter does: a line for each caller, and under it this caller's commands,
// one a line. Of a script with a fault it prints the line at fault.
ghost use Rattle.std.specs.Prelude.{◌≡◌, ◌≤◌, ◌++◌, length, decimal};
ghost use Rattle.hd_model.specs.Text.{newline};

use hd_io::{Failed, Sink, write_all};
use hd_print::{Line, command_line};
use hd_script::{ScriptFault, Scripts, parse};
use std::alloc::Global;

// Caller 1 puts a weak handle on the board, where caller 0 finds it.
const RIGHT: &[u8] = b"\
caller 1   # A cache.
new  r0 1 fin
hnew h00 short r0
hput 0 h0
caller 0   # One that asks it.
hpick h3 0
hget r1 h3
caller 1
drop r0
";

// The second line has no target.
const WRONG: &[u8] = b"\
new r0 0
hnew h0 pinned
";

// A line of words and a number.
fn numbered_line(words: &str, number: u32) -> Line
    requires { length words.now ≤ 100 }
    ensures { result ≡ words.now ++ decimal number ++ newline }
{
    let mut line = Line::new();
    line.push_str(words);
    line.push_number(number);
    line.push_str("\n");
    line
}

// Writes the commands of each caller, in their order.
fn write_script<K: Sink>(scripts: &Scripts, sink: &mut K) -> Result<(), Failed> {
    for caller in 0..scripts.callers() {
        write_all(sink, numbered_line("caller ", caller).as_bytes())?;
        for i in 0..scripts.len(caller) {
            write_all(sink, command_line(scripts.cmd(caller, i)).as_bytes())?;
        }
    }
    Ok(())
}

/// Prints the right script, and of the other one the line at fault.
pub(crate) fn run<K: Sink>(alloc: Global, sink: &mut K) -> anyhow::Result<()> {
    for read in [parse(alloc, RIGHT), parse(alloc, WRONG)] {
        match read {
            Ok(scripts) => write_script(&scripts, sink)?,
            Err(ScriptFault::Line(number)) => {
                write_all(sink, numbered_line("fault line ", number).as_bytes())?;
            }
            Err(ScriptFault::Memory) => return Err(ScriptFault::Memory.into()),
        }
    }
    Ok(())
}
