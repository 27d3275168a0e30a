// Numbers and registers, as words.
ghost use Rattle.std.specs.Prelude.{◌≡◌, ◌<◌, ◌≤◌, [], ◌∷◌, IfSome};
ghost use Rattle.hd_model.specs.Grammar.{number_of, register_in, object_register_in, handle_register_in};

use hd_model::limits::REGISTERS;

/// The highest index of a register, of a static and of the board.
pub(crate) const LAST_REGISTER: u8 = REGISTERS as u8 - 1;

/// The number that a word writes, where it is at most `most`.
#[tactic(auto, unfolding(hd_model::specs::Grammar::number_of))]
pub fn number(word: &[u8], most: u64) -> Option<u64>
    ensures value { result ≡ number_of most word.now }
    ensures bound { IfSome result (λ n. n ≤ most) }
{
    if word.is_empty() {
        return None;
    }
    let mut value: u64 = 0;
    for b in word {
        if !b.is_ascii_digit() {
            return None;
        }
        value = value.checked_mul(10)?.checked_add(u64::from(*b - b'0'))?;
    }
    if value <= most { Some(value) } else { None }
}

/// The same for a number that fits a byte.
#[inline(always)]
pub(crate) fn small(word: &[u8], most: u8) -> Option<u8>
    ensures value { result ≡ number_of most word.now }
    ensures bound { IfSome result (λ n. n ≤ most) }
{
    if word.len() == 1 {
        return digit(word[0], most);
    }
    let value = number(word, u64::from(most))?;
    Some(value as u8)
}

// The number that one digit writes.
#[inline(always)]
#[tactic(auto, unfolding(hd_model::specs::Grammar::number_of, hd_model::specs::Grammar::value_of))]
fn digit(byte: u8, most: u8) -> Option<u8>
    ensures value { result ≡ number_of most (byte ∷ []) }
    ensures bound { IfSome result (λ n. n ≤ most) }
{
    if byte.is_ascii_digit() && byte - b'0' <= most {
        Some(byte - b'0')
    } else {
        None
    }
}

// The register that a word denotes, by its letter.
#[inline(always)]
#[tactic(auto, unfolding(hd_model::specs::Grammar::register_in))]
fn register(word: &[u8], letter: u8) -> Option<u8>
    ensures value { result ≡ register_in letter word.now }
    ensures bound { IfSome result (λ n. n < REGISTERS) }
{
    let (first, digits) = word.split_first()?;
    if *first == letter {
        small(digits, LAST_REGISTER)
    } else {
        None
    }
}

/// The object register that a word denotes.
#[inline(always)]
pub fn object(word: &[u8]) -> Option<u8>
    ensures value { result ≡ object_register_in word.now }
    ensures bound { IfSome result (λ n. n < REGISTERS) }
{
    register(word, b'r')
}

/// The handle register that a word denotes.
#[inline(always)]
pub fn handle(word: &[u8]) -> Option<u8>
    ensures value { result ≡ handle_register_in word.now }
    ensures bound { IfSome result (λ n. n < REGISTERS) }
{
    register(word, b'h')
}
