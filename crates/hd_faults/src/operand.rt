// What a word after the name of a command has to be.
ghost use Rattle.std.specs.Prelude.{◌≡◌, is_some};
ghost use Rattle.hd_model.specs.Grammar.{is_kind};
ghost use Rattle.hd_faults.specs.Causes as causes;

use hd_model::Operand;
use hd_script::words::{fin, handle, make, number, object, spells, strength, trimmed_kind};

/// Whether a word is what it has to be.
pub(crate) fn fits(wanted: Operand, word: &[u8]) -> bool
    ensures { result ≡ causes.fits wanted word.now }
{
    match wanted {
        Operand::Object => object(word).is_some(),
        Operand::Handle => handle(word).is_some(),
        Operand::Number(most) => number(word, most).is_some(),
        Operand::Kind => is_kind(word),
        Operand::PlainKind => trimmed_kind(word).is_some(),
        Operand::Strength => strength(word).is_some(),
        Operand::Fin => fin(word).is_some(),
    }
}

// Whether a word is a kind of handle.
fn is_kind(word: &[u8]) -> bool
    ensures { result ≡ is_kind word.now }
{
    make(word).is_some() || spells(word, "var") || spells(word, "dep")
}
