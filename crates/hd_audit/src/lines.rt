// The lines of a text, judged in order.
ghost use Rattle.std.specs.Prelude.{◌≡◌, ℕ, ◌+◌, ◌<◌, ◌≤◌, ◌^◌, if◌then◌else◌, List, [], ◌∷◌, length, position, slice_get, slice_index, slice_index_or, bytes_eq, IfOk, IfSome, IsSome};
ghost use Rattle.std.specs.FinMap.{len};
ghost use Rattle.hd_model.specs.declared.limits.TheConstants.{BLOCKS};
ghost use Rattle.hd_model.specs.{FullText.full_line, Grammar.is_line_end, RunTexts.cut_lines};
ghost use Rattle.hd_model.specs.Text.{is_collect};
ghost use Rattle.hd_model.specs.Valid.{IsValid};
ghost use Rattle.hd_audit.specs.RightVerdicts.{numbers_of, IsRight};
ghost use Rattle.hd_audit.specs.Inside.{Along, TakesLine, Ends};

use hd_model::{Class, Cmd, Entry, Memory, filled};
use hd_plain::{Choice, Machine};
use hd_print::{Line, end_line, full_line};
use hd_script::Scripts;
use std::alloc::Global;

/// Whether a text is that of a run.
#[derive(Clone, Copy, Debug, PartialEq, Eq)]
pub enum Verdict {
    /// It is the full text of a run of the script.
    Run,
    /// It is not: `line`, from 1, is the first that is not right, or the one that is missing.
    NotRun { line: u32 },
    /// There was no memory to judge it.
    Memory,
}

/// Judges a text against a script, a heap of `heap` cells and a table of `blocks` blocks.
pub fn audit(alloc: Global, scripts: &Scripts, text: &[u8], heap: u32, blocks: u32) -> Verdict
    requires { blocks ≤ BLOCKS }
    ensures { IsRight (numbers_of scripts.now heap blocks) scripts.now text.now result }
{
    match judged_or_out_of_memory(alloc, scripts, text, heap, blocks) {
        Ok(verdict) => verdict,
        Err(Memory) => Verdict::Memory,
    }
}

// The same, as long as there is memory.
fn judged_or_out_of_memory(
    alloc: Global,
    scripts: &Scripts,
    text: &[u8],
    heap: u32,
    blocks: u32,
) -> Result<Verdict, Memory>
    requires { blocks ≤ BLOCKS }
    ensures { IfOk result (IsRight (numbers_of scripts.now heap blocks) scripts.now text.now) }
{
    let mut judged = Progress::open(alloc, scripts, heap, blocks)?;
    judged.judge(scripts, text)
}

/// The first line with its end, which the last one may not have, and the bytes after it.
pub fn cut_line(bytes: &[u8]) -> (&[u8], &[u8])
    requires { 0 < length bytes.now }
    ensures lines { cut_lines bytes.now ≡ result.0.now ∷ cut_lines result.1.now }
    ensures shorter { length result.1.now < length bytes.now }
{
    match line_end(bytes) {
        Some(end) => (&bytes[..end + 1], &bytes[end + 1..]),
        None => (bytes, &[]),
    }
}

// The index of the first byte that ends a line.
fn line_end(bytes: &[u8]) -> Option<usize>
    ensures end { result ≡ position is_line_end bytes.now }
    ensures within { IfSome result (λ end. end < length bytes.now) }
{
    bytes.iter().position(|b| *b == b'\n')
}

/// What was judged so far: the machine after it, the entries of each caller, the commands that are
/// left, and the collections.
#[derive(Drop)]
pub(crate) struct Progress {
    pub(crate) machine: Machine,
    pub(crate) done: Vec<u32>,
    pub(crate) left: u32,
    pub(crate) collections: u32,
}

impl Progress {
    /// Nothing yet.
    pub(crate) fn open(
        alloc: Global,
        scripts: &Scripts,
        heap: u32,
        blocks: u32,
    ) -> Result<Progress, Memory>
        requires { blocks ≤ BLOCKS }
        ensures numbers { let n = numbers_of scripts.now heap blocks in
            IfOk result (λ j. j.machine.numbers ≡ n) }
        ensures none { IfOk result (λ j. Along scripts.now j []) }
    {
        let callers = scripts.callers();
        let left = scripts.total();
        let done = filled(alloc, 0, callers)?;
        let machine = Machine::open(alloc, callers, heap, blocks)?;
        Ok(Progress {
            machine,
            done,
            left,
            collections: 0,
        })
    }

    /// The next command of a caller, if it has one.
    pub(crate) fn next(&self, scripts: &Scripts, caller: u32) -> Option<Cmd>
        requires { length self.now.done.items ≡ length scripts.now }
        ensures command { result ≡ slice_get (slice_index_or scripts.now caller [])
            (slice_index self.now.done.items caller) }
        ensures valid { IfSome result IsValid }
        ensures known { IsSome result → caller < length scripts.now }
    {
        if caller < scripts.callers() && self.done[caller as usize] < scripts.len(caller) {
            Some(scripts.cmd(caller, self.done[caller as usize]))
        } else {
            None
        }
    }

    /// Whether a line is the full line of the next entry of its caller. Its step is taken then.
    pub(crate) fn take_line(&mut self, scripts: &Scripts, line: &[u8]) -> Result<bool, Memory>
        requires some { 0 < self.old.left }
        requires along { (lines : List (List ℕ)) × Along scripts.now self.old lines }
        ensures { IfOk result (TakesLine scripts.now self.old line.now self.new) }
    {
        let choice = Choice::by(line);
        let Some(cmd) = self.next(scripts, choice.caller) else {
            return Ok(false);
        };
        let Some(entry) = self.machine.step(cmd, &choice)? else {
            return Ok(false);
        };
        let number = self.done[choice.caller as usize] + 1;
        if !is_its_line(entry, number, line) {
            return Ok(false);
        }
        self.done[choice.caller as usize] = number;
        self.left -= 1;
        self.collections += collected(cmd);
        Ok(true)
    }

    // The verdict on a text, of which no line was judged.
    #[inline(always)]
    fn judge(&mut self, scripts: &Scripts, text: &[u8]) -> Result<Verdict, Memory>
        requires { Along scripts.now self.old [] }
        ensures { IfOk result (IsRight self.old.machine.numbers scripts.now text.now) }
    {
        let mut lines = 0;
        let mut rest = text;
        'lines: while self.left > 0 && !rest.is_empty() {
            let (line, after) = cut_line(rest);
            if !self.take_line(scripts, line)? {
                return Ok(Verdict::NotRun { line: lines + 1 });
            }
            lines += 1;
            rest = after;
        }
        Ok(self.end(lines, rest))
    }

    // The verdict on what follows the lines that were judged: none is left, or no command is.
    fn end(&self, lines: u32, rest: &[u8]) -> Verdict
        requires whole { 0 < length rest.now → self.now.left ≡ 0 }
        requires few { lines + 2 < 2 ^ 32 }
        requires objects { len self.now.machine.state.objects < 2 ^ 32 }
        ensures { Ends self.now lines rest.now result }
    {
        if rest.is_empty() {
            Verdict::NotRun { line: lines + 1 }
        } else {
            self.last(lines, rest)
        }
    }

    // The verdict on what follows the lines of all entries.
    fn last(&self, lines: u32, rest: &[u8]) -> Verdict
        requires some { 0 < length rest.now }
        requires whole { self.now.left ≡ 0 }
        requires few { lines + 2 < 2 ^ 32 }
        requires objects { len self.now.machine.state.objects < 2 ^ 32 }
        ensures { Ends self.now lines rest.now result }
    {
        let handles = self.machine.table.len();
        let objects = self.machine.objects.len() as u32;
        let (line, after) = cut_line(rest);
        if !is_line(&end_line(handles, objects, self.collections), line) {
            Verdict::NotRun { line: lines + 1 }
        } else if after.is_empty() {
            Verdict::Run
        } else {
            Verdict::NotRun { line: lines + 2 }
        }
    }
}

// A collection counts as one.
fn collected(cmd: Cmd) -> u32
    ensures { result ≡ (if is_collect cmd then 1 else 0) }
{
    if matches!(cmd.class(), Class::Collects(_)) {
        1
    } else {
        0
    }
}

// Whether bytes are the full line of an entry, which is the given one of its caller.
fn is_its_line(entry: Entry, number: u32, bytes: &[u8]) -> bool
    ensures { result ≡ bytes_eq (full_line entry number) bytes.now }
{
    is_line(&full_line(entry, number), bytes)
}

// Whether bytes are those of a line.
fn is_line(line: &Line, bytes: &[u8]) -> bool
    ensures { result ≡ bytes_eq line.now bytes.now }
{
    line.as_bytes() == bytes
}
