// What may have been meant by a word: the nearest of some names.
ghost use Rattle.std.specs.Prelude.{◌≡◌, ◌+◌, ◌≤◌, map, option_map, None, IfOk};
ghost use Rattle.hd_faults.specs.Hints as hints;

use crate::fault::Cause;
use hd_model::Operand;
use std::alloc::{AllocError, Global};
use strsim::generic_levenshtein;

// The bytes of a word that may have been meant for a name, at most.
const LONGEST: usize = 16;

const COMMANDS: [&str; 32] = [
    "caller",
    "new",
    "set",
    "get",
    "val",
    "read",
    "copy",
    "drop",
    "sput",
    "sget",
    "gen",
    "suppress",
    "reregister",
    "final",
    "collect",
    "gcroot",
    "cadd",
    "cfind",
    "cremove",
    "hnew",
    "hget",
    "hset",
    "hsec",
    "hdep",
    "hvar",
    "hfree",
    "hput",
    "hpick",
    "addr",
    "hup",
    "hdown",
    "trim",
];

const KINDS: [&str; 7] = ["short", "long", "strong", "pinned", "var", "ref", "dep"];

const STRENGTHS: [&str; 4] = ["short", "long", "strong", "pinned"];

/// The names that may have been meant where a cause is found.
pub(crate) fn names_for(cause: Cause) -> &'static [&'static str]
    ensures { map (λ name. name.now) result.now ≡ hints.names_for cause }
{
    match cause {
        Cause::Unknown => &COMMANDS,
        Cause::Operand { number: _, wanted } => names_of(wanted),
        Cause::Count {
            least: _,
            most: _,
            has: _,
        } => &[],
        Cause::TooMany => &[],
    }
}

// The names that an operand may be.
fn names_of(wanted: Operand) -> &'static [&'static str]
    ensures { map (λ name. name.now) result.now ≡ hints.names_of wanted }
{
    match wanted {
        Operand::Kind => &KINDS,
        Operand::PlainKind => &STRENGTHS,
        Operand::Strength => &STRENGTHS,
        Operand::Fin => &["fin"],
        Operand::Object => &[],
        Operand::Handle => &[],
        Operand::Number(_) => &[],
    }
}

/// The first of the names to which the fewest edits lead from a word, where these are few.
pub(crate) fn nearest(
    alloc: Global,
    word: &[u8],
    names: &[&'static str],
) -> Result<Option<&'static str>, AllocError>
    ensures { IfOk result (λ near. option_map (λ name. name.now) near
        ≡ hints.nearest word.now (map (λ name. name.now) names.now)) }
{
    if word.len() > LONGEST {
        return Ok(None);
    }
    nearest_within(alloc, word, names, most_edits(word))
}

// How many edits may lead from a word to a name, at most: 2, or a third of its length.
fn most_edits(word: &[u8]) -> usize
    ensures { result ≡ hints.most_edits word.now }
{
    let third = word.len() / 3;
    if third > 2 { third } else { 2 }
}

// The first of the names to which the fewest edits lead, at most so many.
fn nearest_within(
    alloc: Global,
    word: &[u8],
    names: &[&'static str],
    most: usize,
) -> Result<Option<&'static str>, AllocError>
    requires { most ≤ LONGEST }
    ensures { IfOk result (λ near. option_map (λ name. name.now) near
        ≡ hints.nearer word.now (most + 1) None (map (λ name. name.now) names.now)) }
{
    let mut best = None;
    let mut bound = most + 1;
    'names: for name in names {
        let edits = edits_to(alloc, word, name)?;
        if edits < bound {
            best = Some(*name);
            bound = edits;
        }
    }
    Ok(best)
}

// How many edits lead from a word to a name.
fn edits_to(alloc: Global, word: &[u8], name: &str) -> Result<usize, AllocError>
    ensures { IfOk result (λ edits. edits ≡ hints.edits word.now name.now) }
{
    generic_levenshtein(alloc, word, name.as_bytes())
}
