// The words that a dialogue has beside the commands of a script.
ghost use Rattle.std.specs.Prelude.{◌≡◌, ℕ, List, Some, is_some, IfOk};
ghost use Rattle.hd_script.specs.Words.{words_at};
ghost use Rattle.hd_step.specs.Dialogue.{IsAnswerOf, asked, is_own};
ghost use Rattle.hd_step.specs.Machine.{MachineView};

use crate::machine::Machine;
use hd_model::Memory;
use hd_script::next_word;
use hd_script::words::spells;
use std::alloc::Global;

/// A word that a dialogue has beside the commands of a script.
#[derive(Clone, Copy, Debug, PartialEq, Eq)]
pub enum Own {
    /// The state, as tables.
    Show,
    /// Why the object with the identity of the next word lives.
    Path,
    /// What is in the slot with the number of the next word.
    Slot,
}

/// What is written for such a word.
#[derive(Drop)]
pub enum Answer {
    /// To the output.
    Text(Vec<u8>),
    /// Its operand is at fault: why goes to the errors.
    Fault(Vec<u8>),
}

/// Who answers a dialogue's own words, and explains lines that are left out. It only looks at the
/// machine.
pub trait Words<M: Machine> {
    /// What a machine answers to the words of a line.
    ghost answers: { Self → MachineView → List (List ℕ) → List ℕ → Type 0 };

    /// That the operand among the words of a line is at fault.
    ghost faults: { Self → List (List ℕ) → Type 0 };

    /// The answer to a word, with the operand that follows it, if it has one.
    fn answer(
        &self,
        alloc: Global,
        machine: &M,
        number: u32,
        own: Own,
        line: &[u8],
    ) -> Result<Answer, Memory>
        requires { asked (words_at line.now) ≡ Some own }
        ensures said { let words = words_at line.now in IfOk result
            (IsAnswerOf (answers self.now (M.seen machine.now) words) (faults self.now words)) };

    /// Why the line with this number is left out, as a line of text.
    fn fault(
        &self,
        alloc: Global,
        machine: &M,
        number: u32,
        line: &[u8],
    ) -> Result<Vec<u8>, Memory>;
}

/// What a line asks for by such a word.
pub(crate) fn asked_by(line: &[u8]) -> Option<Own>
    ensures own { result ≡ asked (words_at line.now) }
    ensures is_own { is_some result ≡ is_own (words_at line.now) }
{
    let (first, rest) = next_word(line)?;
    let Some((_second, rest)) = next_word(rest) else {
        return if spells(first, "show") {
            Some(Own::Show)
        } else {
            None
        };
    };
    if next_word(rest).is_some() {
        None
    } else if spells(first, "path") {
        Some(Own::Path)
    } else if spells(first, "slot") {
        Some(Own::Slot)
    } else {
        None
    }
}
