// The answers to a dialogue's own words, and why a line is left out.
ghost use Rattle.std.specs.Prelude.{◌≡◌, ◌-◌, ◌≤◌, ◌∷◌, ◌++◌, [], Some, codes, decimal, length, IfOk};
ghost use Rattle.hd_model.specs.declared.limits.TheConstants.{MOST_BYTES, MOST_COMMANDS};
ghost use Rattle.hd_path.specs.Paths.{ArePathTexts};
ghost use Rattle.hd_script.specs.Words.{words_at};
ghost use Rattle.hd_show.specs.Show.{show_text as tables_text};
ghost use Rattle.hd_step.specs.Dialogue.{IsAnswerOf, asked};
ghost use Rattle.hd_step.specs.declared.own.Own.TheVariants as own_words;
ghost use Rattle.hd_talk.specs.Answers.{Answers, HasFault, IsAnswer, IsExplained, explained, operand_of};
ghost use Rattle.hd_talk.specs.Machine.{machine_view, picture_in};
ghost use Rattle.hd_talk.specs.Slots.{slot_text as content_text};

use crate::played::{Played, seen_in};
use crate::slots::slot_text;
use crate::text::{push, push_line};
use crate::words::{id_in, operand, slot_in};
use hd_faults::{LineFault, Unread, first_line_fault, push_fault, push_unread};
use hd_model::limits::{MOST_BYTES, MOST_COMMANDS};
use hd_model::{Id, Memory, Slot};
use hd_path::push_paths;
use hd_print::Line;
use hd_show::show_text;
use hd_step::{Answer, Machine, Own, Words};
use std::alloc::{AllocError, Global};

/// Who answers from a snapshot of the world, and explains lines as `hd_faults` does.
pub struct Debugger;

impl Words<Played> for Debugger {
    ghost answers = { λ _. Answers };

    ghost faults = { λ _. HasFault };

    fn answer(
        &self,
        alloc: Global,
        machine: &Played,
        number: u32,
        own: Own,
        line: &[u8],
    ) -> Result<Answer, Memory>
        requires { asked (words_at line.now) ≡ Some own }
        ensures said { let words = words_at line.now in IfOk result
            (IsAnswerOf (Answers (machine_view machine.now) words) (HasFault words)) }
        ensures own { IfOk result (IsAnswer machine.now number own (operand_of (words_at line.now))) }
    {
        let answer = answer_to(alloc, machine, number, own, line)?;
        // Read for the proof alone: heap, table and ages are those of the journal.
        let _journal = machine.world().journal();
        Ok(answer)
    }

    fn fault(
        &self,
        alloc: Global,
        machine: &Played,
        number: u32,
        line: &[u8],
    ) -> Result<Vec<u8>, Memory>
        ensures { length line.now ≤ MOST_BYTES → IfOk result (λ text. IsExplained
            (MOST_COMMANDS - machine.now.spare) number line.now text.items) }
    {
        if line.len() > MOST_BYTES as usize {
            return too_large(alloc);
        }
        let commands = MOST_COMMANDS.saturating_sub(machine.spare());
        explain(alloc, commands, number, line)
    }
}

// The answer to a word with an operand.
fn answer_to(
    alloc: Global,
    machine: &Played,
    number: u32,
    own: Own,
    line: &[u8],
) -> Result<Answer, Memory>
    ensures { IfOk result (IsAnswer machine.now number own (operand_of (words_at line.now))) }
{
    match own {
        Own::Show => Ok(Answer::Text(tables(alloc, machine)?)),
        Own::Path => answer_path(alloc, machine, number, line),
        Own::Slot => answer_slot(alloc, machine, number, line),
    }
}

// The tables of the state.
fn tables(alloc: Global, machine: &Played) -> Result<Vec<u8>, Memory>
    ensures { IfOk result (λ text. text.items ≡ tables_text (picture_in machine.now)) }
{
    let seen = seen_in(alloc, machine.world())?;
    show_text(alloc, &seen)
}

// The answer to `path`.
fn answer_path(alloc: Global, machine: &Played, number: u32, line: &[u8]) -> Result<Answer, Memory>
    ensures { IfOk result
        (IsAnswer machine.now number own_words.Path (operand_of (words_at line.now))) }
{
    match id_in(operand(line)) {
        Some(id) => Ok(Answer::Text(chain(alloc, machine, id)?)),
        None => {
            let why = refusal(alloc, number, "path: the operand is no object, as 0.7\n")?;
            Ok(Answer::Fault(why))
        }
    }
}

// A chain to an object.
fn chain(alloc: Global, machine: &Played, id: Id) -> Result<Vec<u8>, Memory>
    ensures { IfOk result (λ text. ArePathTexts machine.now.state (id ∷ []) text.items) }
{
    let world = machine.world();
    // Read for the proof alone: a journal is that of a run, whose states are well formed.
    let _journal = world.journal();
    let seen = seen_in(alloc, world)?;
    let mut text = Vec::new(alloc);
    push_paths(alloc, &mut text, &seen, &[id])?;
    Ok(text)
}

// The answer to `slot`.
fn answer_slot(alloc: Global, machine: &Played, number: u32, line: &[u8]) -> Result<Answer, Memory>
    ensures { IfOk result
        (IsAnswer machine.now number own_words.Slot (operand_of (words_at line.now))) }
{
    match slot_in(operand(line)) {
        Some(slot) => Ok(Answer::Text(content(alloc, machine, slot)?)),
        None => {
            let why = refusal(alloc, number, "slot: the operand is no slot, as 70\n")?;
            Ok(Answer::Fault(why))
        }
    }
}

// What is in a slot, and who has it.
fn content(alloc: Global, machine: &Played, slot: Slot) -> Result<Vec<u8>, Memory>
    ensures { IfOk result (λ text. text.items ≡ content_text (picture_in machine.now) slot.0) }
{
    let seen = seen_in(alloc, machine.world())?;
    slot_text(alloc, &seen, slot)
}

// Why an operand of a dialogue's own word is refused.
fn refusal(alloc: Global, number: u32, why: &str) -> Result<Vec<u8>, Memory>
    ensures { IfOk result
        (λ text. text.items ≡ codes "line " ++ decimal number ++ codes ": " ++ why.now) }
{
    let mut line = Line::new();
    line.push_str("line ");
    line.push_number(number);
    line.push_str(": ");
    let mut text = Vec::new(alloc);
    match push_both(&mut text, &line, why) {
        Ok(()) => Ok(text),
        Err(AllocError) => Err(Memory),
    }
}

// Appends a line and words.
fn push_both(text: &mut Vec<u8>, line: &Line, words: &str) -> Result<(), AllocError>
    ensures { IfOk result (λ _. text.new.items ≡ text.old.items ++ line.now ++ words.now) }
{
    push_line(text, line)?;
    push(text, words)
}

// Why a line is left out, where so many commands came before it.
fn explain(alloc: Global, commands: u32, number: u32, line: &[u8]) -> Result<Vec<u8>, Memory>
    requires { length line.now ≤ MOST_BYTES }
    ensures { IfOk result (λ text. IsExplained commands number line.now text.items) }
{
    let fault = first_line_fault(line, commands);
    text_of_fault(alloc, number, fault)
}

// A fault in words, or nothing.
fn text_of_fault(
    alloc: Global,
    number: u32,
    fault: Option<LineFault<'_>>,
) -> Result<Vec<u8>, Memory>
    ensures { IfOk result (λ text. text.items ≡ explained number fault.entry) }
{
    let mut text = Vec::new(alloc);
    match fault {
        Some(fault) => push_fault(alloc, &mut text, number, &fault)?,
        None => {}
    }
    Ok(text)
}

// That there is too much to read.
fn too_large(alloc: Global) -> Result<Vec<u8>, Memory> {
    let mut text = Vec::new(alloc);
    push_unread(&mut text, Unread::TooLarge)?;
    Ok(text)
}
