// Identities as words.
ghost use Rattle.std.specs.Prelude.{◌≡◌, ◌↔◌, ℕ, ◌<◌, ◌^◌, Some, decimal, IsTrue, MatchOption};
ghost use Rattle.hd_model.specs.declared.data.Id.{Id as IdValue};
ghost use Rattle.hd_model.specs.Text.{identity_text};
ghost use Rattle.hd_path.specs.Words.{IsIdWord};

use crate::text::push_identity;
use hd_model::Id;
use hd_model::limits::CALLERS;
use hd_print::Line;

/// The identity that a word writes, as replies write it: the number of a caller and a serial, with
/// a dot between them, both without leading zeros.
pub fn read_id(word: &str) -> Option<Id>
    ensures { MatchOption result ((x : IdValue) → IsIdWord x word.now → ⊥)
        (λ x. IsIdWord x word.now) }
{
    match candidate(word) {
        Some(id) => { if is_word_of(id, word) { Some(id) } else { None } }
        None => None,
    }
}

// The only identity that the word may write.
fn candidate(word: &str) -> Option<Id>
    ensures { (x : IdValue) → x.0 < 2 ^ 64 → word.now ≡ identity_text x → result ≡ Some x }
{
    match word.split_once('.') {
        Some((caller, serial)) => {
            let caller = u64::from(number_in(caller));
            let serial = u64::from(number_in(serial));
            Some(Id((caller << 32) + serial))
        }
        None => None,
    }
}

// The number that a word writes, or 0.
fn number_in(word: &str) -> u32
    ensures { (n : ℕ) → n < 2 ^ 32 → word.now ≡ decimal n → result ≡ n }
{
    match word.parse::<u32>() {
        Ok(number) => number,
        Err(_) => 0,
    }
}

// Whether a word writes an identity.
fn is_word_of(id: Id, word: &str) -> bool
    ensures { IsTrue result ↔ IsIdWord id word.now }
{
    let caller = (id.0 >> 32) as u32;
    let serial = (id.0 % 0x1_0000_0000) as u32;
    if caller >= CALLERS {
        return false;
    }
    if serial == 0 {
        return false;
    }
    let mut line = Line::new();
    push_identity(&mut line, id);
    line.as_bytes() == word.as_bytes()
}
