// The operand of one of a dialogue's own words.
ghost use Rattle.std.specs.Prelude.{◌≡◌, ℕ, MatchOption};
ghost use Rattle.hd_model.specs.declared.data.Id.{Id as IdValue};
ghost use Rattle.hd_path.specs.Words.{IsIdWord};
ghost use Rattle.hd_script.specs.Words.{words_at};
ghost use Rattle.hd_talk.specs.Answers.{IsSlotWord, operand_of};

use hd_model::{Id, Slot};
use hd_path::read_id;
use hd_script::next_word;
use std::str;

/// The second word of a line, empty where it has none.
pub(crate) fn operand(line: &[u8]) -> &[u8]
    ensures { result.now ≡ operand_of (words_at line.now) }
{
    let Some((_first, rest)) = next_word(line) else {
        return &[];
    };
    match next_word(rest) {
        Some((second, _rest)) => second,
        None => &[],
    }
}

/// The identity that a word writes.
pub(crate) fn id_in(word: &[u8]) -> Option<Id>
    ensures { MatchOption result ((x : IdValue) → IsIdWord x word.now → ⊥)
        (λ x. IsIdWord x word.now) }
{
    match str::from_utf8(word) {
        Ok(word) => read_id(word),
        Err(_) => None,
    }
}

/// The slot whose number a word is.
pub(crate) fn slot_in(word: &[u8]) -> Option<Slot>
    ensures { MatchOption result ((slot : ℕ) → IsSlotWord slot word.now → ⊥)
        (λ slot. IsSlotWord slot.0 word.now) }
{
    match str::from_utf8(word) {
        Ok(text) => match text.parse::<u32>() {
            Ok(number) => Some(Slot(number)),
            Err(_) => None,
        },
        Err(_) => None,
    }
}
