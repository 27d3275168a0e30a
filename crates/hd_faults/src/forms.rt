// What each command takes.
ghost use Rattle.std.specs.Prelude.{◌≡◌, map, option_map};
ghost use Rattle.hd_model.specs.Grammar.{look_up};
ghost use Rattle.hd_faults.specs.Causes as causes;
ghost use Rattle.hd_faults.specs.Inside.{row_seen, seen};

use hd_model::Operand;
use hd_model::Operand::{Fin, Handle, Kind, Number, Object, PlainKind, Strength};
use hd_model::limits::{CALLERS, FIELDS, OLDEST, REGISTERS};
use hd_script::words::{make, spells};

// The largest numbers that operands may be.
const LAST_CALLER: u64 = CALLERS as u64 - 1;

const LAST_INDEX: u64 = REGISTERS as u64 - 1;

const MOST_FIELDS: u64 = FIELDS as u64;

const LAST_GENERATION: u64 = OLDEST as u64;

const LAST_FIELD: u64 = 255;

/// What a command takes: at least so many operands, and at most these.
#[derive(Clone, Copy)]
pub(crate) struct Form {
    pub(crate) least: usize,
    pub(crate) operands: &'static [Operand],
}

// A name with what it takes: at least so many operands, and at most these.
type Row = (&'static str, usize, &'static [Operand]);

const ROWS: [Row; 31] = [
    ("caller", 1, &[Number(LAST_CALLER)]),
    ("new", 2, &[Object, Number(MOST_FIELDS), Fin]),
    ("set", 3, &[Object, Number(LAST_FIELD), Object]),
    ("get", 3, &[Object, Object, Number(LAST_FIELD)]),
    ("val", 2, &[Object, Number(u64::MAX)]),
    ("read", 1, &[Object]),
    ("copy", 2, &[Object, Object]),
    ("drop", 1, &[Object]),
    ("sput", 2, &[Number(LAST_INDEX), Object]),
    ("sget", 2, &[Object, Number(LAST_INDEX)]),
    ("gen", 1, &[Object]),
    ("suppress", 1, &[Object]),
    ("reregister", 1, &[Object]),
    ("final", 1, &[Object]),
    ("collect", 1, &[Number(LAST_GENERATION)]),
    ("gcroot", 1, &[Object]),
    ("cadd", 2, &[Object, Object]),
    ("cfind", 2, &[Object, Object]),
    ("cremove", 1, &[Object]),
    ("hget", 2, &[Object, Handle]),
    ("hset", 2, &[Handle, Object]),
    ("hsec", 2, &[Handle, Object]),
    ("hdep", 2, &[Object, Handle]),
    ("hvar", 2, &[Handle, Strength]),
    ("hfree", 1, &[Handle]),
    ("hput", 2, &[Number(LAST_INDEX), Handle]),
    ("hpick", 2, &[Handle, Number(LAST_INDEX)]),
    ("addr", 1, &[Handle]),
    ("hup", 1, &[Handle]),
    ("hdown", 1, &[Handle]),
    ("trim", 1, &[PlainKind]),
];

/// What the command with a name takes, or `caller`. What an `hnew` takes goes by its kind.
#[tactic(auto, unfolding(crate::specs::Causes::form_of))]
pub(crate) fn form_of(name: &[u8], kind: &[u8]) -> Option<Form>
    ensures { option_map seen result ≡ causes.form_of name.now kind.now }
{
    if spells(name, "hnew") {
        return Some(new_handle(kind));
    }
    find(name, &ROWS)
}

// What the first row of a name has.
fn find(name: &[u8], rows: &[Row]) -> Option<Form>
    ensures { option_map seen result ≡ look_up name.now (map row_seen rows.now) }
{
    'rows: for row in rows {
        if spells(name, row.0) {
            return Some(Form {
                least: row.1,
                operands: row.2,
            });
        }
    }
    None
}

// What an `hnew` takes. Where its kind is none, that is what is at fault.
fn new_handle(kind: &[u8]) -> Form
    ensures { seen result ≡ causes.new_handle kind.now }
{
    if spells(kind, "var") {
        Form {
            least: 4,
            operands: &[Handle, Kind, Object, Strength],
        }
    } else if spells(kind, "dep") {
        Form {
            least: 4,
            operands: &[Handle, Kind, Object, Object],
        }
    } else if make(kind).is_some() {
        Form {
            least: 3,
            operands: &[Handle, Kind, Object],
        }
    } else {
        Form {
            least: 3,
            operands: &[Handle, Kind, Object, Object],
        }
    }
}
