// The script that a source gives, and the world that it leads to.
ghost use Rattle.std.specs.Prelude.{◌≡◌, ◌-◌, ◌≤◌, length, take, IfErr, IfOk};
ghost use Rattle.std.specs.List.{concat};
ghost use Rattle.hd_heap.specs.Sound.{IsSound};
ghost use Rattle.hd_model.specs.declared.limits.TheConstants.{MOST_BYTES};
ghost use Rattle.hd_model.specs.RunTexts.{cut_lines};
ghost use Rattle.hd_model.specs.Table.{IsTable};
ghost use Rattle.hd_world.specs.StateHeap.{IsOfJournal};
ghost use Rattle.hd_view.specs.{Script.RanTo, Script.lines_before, Inside.StopsBy};

use hd_audit::cut_line;
use hd_faults::{Unread, find_fault, push_fault, push_unread};
use hd_io::{Sink, Source, read_all, write_all};
use hd_model::Memory;
use hd_model::limits::MOST_BYTES;
use hd_run::{Fault, Limits, solo_world, unparsed, unread};
use hd_script::parse;
use hd_world::World;
use std::alloc::Global;

/// Runs the script that the source gives, or its lines before `line`, by one thread. Where that is
/// not done, `errors` gets why; what becomes of a write there changes nothing.
pub(crate) fn world_of<S: Source, E: Sink>(
    alloc: Global,
    limits: &Limits,
    line: Option<u32>,
    source: &mut S,
    errors: &mut E,
) -> Result<World, Fault>
    ensures ran { IfOk result (RanTo limits.now line (S.seen source.old) (S.seen source.new)) }
    ensures stopped { IfErr result (StopsBy line (S.seen source.old) (S.seen source.new)) }
{
    let bytes = match read_all(alloc, source, MOST_BYTES) {
        Ok(bytes) => bytes,
        Err(fault) => {
            let fault = unread(fault);
            let _ = write_all(errors, &unread_text(alloc, fault));
            return Err(fault);
        }
    };
    let script = wanted(&bytes, line);
    let scripts = match parse(alloc, script) {
        Ok(scripts) => scripts,
        Err(fault) => {
            let _ = write_all(errors, &fault_text(alloc, script));
            return Err(unparsed(fault));
        }
    };
    match solo_world(alloc, &scripts, limits.heap, limits.blocks) {
        Ok(world) => {
            keep(&world);
            Ok(world)
        }
        Err(Memory) => Err(Fault::NoMemory),
    }
}

// What every world keeps, read for the proof alone.
fn keep(world: &World)
    ensures journal { IsOfJournal world.now }
    ensures heap { IsSound world.now.heap }
    ensures table { IsTable world.now.table }
{
    let _journal = world.journal();
    let contents = world.store().contents();
    let _count = contents.heap().count();
    let _given = contents.table().given();
}

// Why an input was not read: nothing where memory ran out.
fn unread_text(alloc: Global, fault: Fault) -> Vec<u8> {
    let mut text = Vec::new(alloc);
    let unread = match fault {
        Fault::Unread => Unread::Failed,
        Fault::OverSize => Unread::TooLarge,
        Fault::Usage | Fault::BadLine(_) | Fault::NoMemory => return text,
    };
    let _ = push_unread(&mut text, unread);
    text
}

// Why the first bad line of a script is at fault.
fn fault_text(alloc: Global, script: &[u8]) -> Vec<u8>
    requires { length script.now ≤ MOST_BYTES }
{
    let mut text = Vec::new(alloc);
    if let Some((number, fault)) = find_fault(script) {
        let _ = push_fault(alloc, &mut text, number, &fault);
    }
    text
}

// The lines before one, or all of them where none is named.
fn wanted(bytes: &[u8], line: Option<u32>) -> &[u8]
    ensures value { result.now ≡ lines_before line bytes.now }
    ensures within { length result.now ≤ length bytes.now }
{
    match line {
        Some(line) => before(bytes, line),
        None => bytes,
    }
}

// The lines before one, which is counted from 1.
fn before(bytes: &[u8], line: u32) -> &[u8]
    ensures value { result.now ≡ concat (take (line - 1) (cut_lines bytes.now)) }
    ensures within { length result.now ≤ length bytes.now }
{
    let mut rest = bytes;
    let mut passed = 0;
    'lines: while passed + 1 < line {
        if rest.is_empty() {
            return bytes;
        }
        let (_line, after) = cut_line(rest);
        rest = after;
        passed += 1;
    }
    &bytes[..bytes.len() - rest.len()]
}
