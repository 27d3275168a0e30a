// The reading of a line: blank, a caller or a command. Each function reads one number of words.
ghost use Rattle.std.specs.Prelude.{◌≡◌, false, [], ◌∷◌, IfSome, bytes_eq, option_map};
ghost use Rattle.hd_model.specs.Grammar as grammar;
ghost use Rattle.hd_model.specs.Kinds.{is_paired};
ghost use Rattle.hd_model.specs.Valid.{IsValid, IsValidMake};
ghost use Rattle.hd_script.specs.Inside.{said_from};
ghost use Rattle.hd_script.specs.Said.{reading_in, IsValidReading};
ghost use Rattle.hd_script.specs.Words.{words_at, line_after};

use crate::numbers::{LAST_REGISTER, handle, number, object, small};
use crate::text::{after_line, next_word};
use hd_model::limits::{CALLERS, FIELDS, OLDEST};
use hd_model::{Cmd, Kind, Make, Strength};

// The highest caller number and the largest number of fields, as numbers that fit a byte.
const LAST_CALLER: u8 = CALLERS as u8 - 1;

const MOST_FIELDS: u8 = FIELDS as u8;

/// The reading of a line.
#[derive(Clone, Copy)]
pub enum Reading {
    /// It has no words.
    Blank,
    /// The commands of this caller follow.
    Caller(u8),
    Command(Cmd),
}

/// The reading of the first line, and the bytes after it. None where the line has no reading.
pub fn read_line(bytes: &[u8]) -> Option<(Reading, &[u8])>
    ensures exact { option_map reading_in result ≡ grammar.reading_of (words_at bytes.now) }
    ensures valid { IfSome result (λ read. IsValidReading read.0) }
    ensures line { IfSome result (λ read. read.1.now ≡ line_after bytes.now) }
{
    let (reading, rest) = read_words(bytes)?;
    Some((reading, after_line(rest)))
}

// The reading of the first line's words, and the bytes from behind the last word that was read.
fn read_words(bytes: &[u8]) -> Option<(Reading, &[u8])>
    ensures exact { option_map reading_in result ≡ grammar.reading_of (words_at bytes.now) }
    ensures valid { IfSome result (λ read. IsValidReading read.0) }
    ensures line { IfSome result (λ read. line_after read.1.now ≡ line_after bytes.now) }
{
    let Some((word, rest)) = next_word(bytes) else {
        return Some((Reading::Blank, bytes));
    };
    let (a, rest) = next_word(rest)?;
    match next_word(rest) {
        Some((b, rest_b)) => at_least_three_words(word, a, b, rest_b),
        None => caller_or_command(word, a, rest),
    }
}

// The reading of two words: whose commands follow, or a command; and the bytes behind them.
#[inline(always)]
fn caller_or_command<'a>(word: &[u8], a: &[u8], rest: &'a [u8]) -> Option<(Reading, &'a [u8])>
    ensures exact { option_map reading_in result
        ≡ grammar.reading_of (word.now ∷ a.now ∷ []) }
    ensures valid { IfSome result (λ read. IsValidReading read.0) }
    ensures line { IfSome result (λ read. line_after read.1.now ≡ line_after rest.now) }
{
    if spells(word, "caller") {
        Some((Reading::Caller(small(a, LAST_CALLER)?), rest))
    } else {
        Some((Reading::Command(two_words(word, a)?), rest))
    }
}

// The reading of three words and those after them, and the bytes from behind the last word.
#[inline(always)]
fn at_least_three_words<'a>(
    word: &[u8],
    a: &[u8],
    b: &[u8],
    rest: &'a [u8],
) -> Option<(Reading, &'a [u8])>
    ensures exact { option_map reading_in result
        ≡ grammar.reading_of (word.now ∷ a.now ∷ b.now ∷ words_at rest.now) }
    ensures valid { IfSome result (λ read. IsValidReading read.0) }
    ensures line { IfSome result (λ read. line_after read.1.now ≡ line_after rest.now) }
{
    let Some((c, rest_c)) = next_word(rest) else {
        return Some((Reading::Command(three_words(word, a, b)?), rest));
    };
    let Some((d, rest_d)) = next_word(rest_c) else {
        return Some((Reading::Command(four_words(word, a, b, c)?), rest_c));
    };
    if next_word(rest_d).is_some() {
        return None;
    }
    Some((Reading::Command(five_words(word, a, b, c, d)?), rest_d))
}

// The first of these texts that a word is says what is read; what another word says comes last.
macro_rules! by_word {
    ($word:expr; $($text:literal => $read:expr,)+ else $others:expr) => {{
        $(if spells($word, $text) {
            return Some($read);
        })+
        $others
    }};
}

// A command of two words.
#[tactic(auto, unfolding(hd_model::specs::Grammar::two_words))]
fn two_words(word: &[u8], a: &[u8]) -> Option<Cmd>
    ensures exact { result ≡ grammar.two_words word.now a.now }
    ensures valid { IfSome result IsValid }
{
    by_word!(word;
        "read" => Cmd::Read { o: object(a)? },
        "drop" => Cmd::Clear { d: object(a)? },
        "gen" => Cmd::Gen { s: object(a)? },
        "suppress" => Cmd::Suppress { s: object(a)? },
        "reregister" => Cmd::Reregister { s: object(a)? },
        else two_words_on_the_heap(word, a)
    )
}

// A command of two words about the queue, a collection, what keeps an object, or an entry.
#[inline(always)]
fn two_words_on_the_heap(word: &[u8], a: &[u8]) -> Option<Cmd>
    ensures exact { result ≡ said_from 5 word.now (a.now ∷ []) }
    ensures valid { IfSome result IsValid }
{
    by_word!(word;
        "final" => Cmd::Final { d: object(a)? },
        "collect" => Cmd::Collect { n: small(a, OLDEST)? },
        "gcroot" => Cmd::GcRoot { s: object(a)? },
        "cremove" => Cmd::CRemove { k: object(a)? },
        else two_words_on_handles(word, a)
    )
}

// A command of two words about a handle or a kind of handle.
#[inline(always)]
fn two_words_on_handles(word: &[u8], a: &[u8]) -> Option<Cmd>
    ensures exact { result ≡ said_from 9 word.now (a.now ∷ []) }
    ensures valid { IfSome result IsValid }
{
    by_word!(word;
        "hfree" => Cmd::HFree { s: handle(a)? },
        "addr" => Cmd::AddrOf { s: handle(a)? },
        "hup" => Cmd::HUp { s: handle(a)? },
        "hdown" => Cmd::HDown { s: handle(a)? },
        "trim" => Cmd::Trim { kind: trimmed_kind(a)? },
        else None
    )
}

// A command of three words.
#[tactic(auto, unfolding(hd_model::specs::Grammar::three_words))]
fn three_words(word: &[u8], a: &[u8], b: &[u8]) -> Option<Cmd>
    ensures exact { result ≡ grammar.three_words word.now a.now b.now }
    ensures valid { IfSome result IsValid }
{
    by_word!(word;
        "new" => Cmd::New { d: object(a)?, fields: small(b, MOST_FIELDS)?, fin: false },
        "val" => Cmd::Val { o: object(a)?, n: number(b, u64::MAX)? },
        "copy" => Cmd::Copy { d: object(a)?, s: object(b)? },
        else three_words_on_tables(word, a, b)
    )
}

// A command of three words about a static or an entry of the weak table.
#[inline(always)]
fn three_words_on_tables(word: &[u8], a: &[u8], b: &[u8]) -> Option<Cmd>
    ensures exact { result ≡ said_from 3 word.now (a.now ∷ b.now ∷ []) }
    ensures valid { IfSome result IsValid }
{
    by_word!(word;
        "sput" => Cmd::SPut { k: small(a, LAST_REGISTER)?, s: object(b)? },
        "sget" => Cmd::SGet { d: object(a)?, k: small(b, LAST_REGISTER)? },
        "cadd" => Cmd::CAdd { k: object(a)?, v: object(b)? },
        "cfind" => Cmd::CFind { d: object(a)?, k: object(b)? },
        else three_words_on_targets(word, a, b)
    )
}

// A command of three words about a handle's target or secondary.
#[inline(always)]
fn three_words_on_targets(word: &[u8], a: &[u8], b: &[u8]) -> Option<Cmd>
    ensures exact { result ≡ said_from 7 word.now (a.now ∷ b.now ∷ []) }
    ensures valid { IfSome result IsValid }
{
    by_word!(word;
        "hget" => Cmd::HGet { d: object(a)?, s: handle(b)? },
        "hset" => Cmd::HSet { s: handle(a)?, t: object(b)? },
        "hsec" => Cmd::HSec { h: handle(a)?, s: object(b)? },
        "hdep" => Cmd::HDep { d: object(a)?, s: handle(b)? },
        else three_words_on_handles(word, a, b)
    )
}

// A command of three words about a variable handle or the board.
#[inline(always)]
fn three_words_on_handles(word: &[u8], a: &[u8], b: &[u8]) -> Option<Cmd>
    ensures exact { result ≡ said_from 11 word.now (a.now ∷ b.now ∷ []) }
    ensures valid { IfSome result IsValid }
{
    by_word!(word;
        "hvar" => Cmd::HVar { s: handle(a)?, strength: strength(b)? },
        "hput" => Cmd::HPut { k: small(a, LAST_REGISTER)?, s: handle(b)? },
        "hpick" => Cmd::HPick { d: handle(a)?, k: small(b, LAST_REGISTER)? },
        else None
    )
}

// A command of four words.
#[tactic(auto, unfolding(hd_model::specs::Grammar::four_words))]
fn four_words(word: &[u8], a: &[u8], b: &[u8], c: &[u8]) -> Option<Cmd>
    ensures exact { result ≡ grammar.four_words word.now a.now b.now c.now }
    ensures valid { IfSome result IsValid }
{
    by_word!(word;
        "hnew" => Cmd::HNew { d: handle(a)?, make: make(b)?, t: object(c)? },
        else four_words_on_objects(word, a, b, c)
    )
}

// A command of four words about an object.
#[inline(always)]
fn four_words_on_objects(word: &[u8], a: &[u8], b: &[u8], c: &[u8]) -> Option<Cmd>
    ensures exact { result ≡ said_from 0 word.now (a.now ∷ b.now ∷ c.now ∷ []) }
    ensures valid { IfSome result IsValid }
{
    by_word!(word;
        "new" => Cmd::New { d: object(a)?, fields: small(b, MOST_FIELDS)?, fin: fin(c)? },
        "set" => Cmd::Set { o: object(a)?, i: small(b, 255)?, v: object(c)? },
        "get" => Cmd::Get { d: object(a)?, o: object(b)?, i: small(c, 255)? },
        else None
    )
}

// A command of five words.
#[tactic(auto, unfolding(hd_model::specs::Grammar::five_words))]
fn five_words(word: &[u8], a: &[u8], b: &[u8], c: &[u8], d: &[u8]) -> Option<Cmd>
    ensures exact { result ≡ grammar.five_words word.now a.now b.now c.now d.now }
    ensures valid { IfSome result IsValid }
{
    if spells(word, "hnew") {
        hnew(a, b, c, d)
    } else {
        None
    }
}

// A handle whose kind needs more than its target.
#[tactic(auto, unfolding(hd_model::specs::Grammar::hnew_of))]
fn hnew(a: &[u8], kind: &[u8], c: &[u8], d: &[u8]) -> Option<Cmd>
    ensures exact { result ≡ grammar.hnew_of a.now kind.now c.now d.now }
    ensures valid { IfSome result IsValid }
{
    by_word!(kind;
        "var" => Cmd::HNew { d: handle(a)?, t: object(c)?, make: Make::Variable(strength(d)?) },
        "dep" => Cmd::HNew { d: handle(a)?, t: object(c)?, make: Make::Dependent(object(d)?) },
        else None
    )
}

/// The strength of a variable handle.
#[tactic(auto, unfolding(hd_model::specs::Grammar::strength_of))]
pub fn strength(word: &[u8]) -> Option<Strength>
    ensures { result ≡ grammar.strength_of word.now }
{
    by_word!(word;
        "short" => Strength::Short,
        "long" => Strength::Long,
        "strong" => Strength::Strong,
        "pinned" => Strength::Pinned,
        else None
    )
}

/// A kind of handle that needs no more than its target.
#[tactic(auto, unfolding(hd_model::specs::Grammar::make_of))]
pub fn make(word: &[u8]) -> Option<Make>
    ensures exact { result ≡ grammar.make_of word.now }
    ensures valid { IfSome result IsValidMake }
{
    by_word!(word;
        "short" => Make::Short,
        "long" => Make::Long,
        "strong" => Make::Strong,
        "pinned" => Make::Pinned,
        "ref" => Make::Counted,
        else None
    )
}

/// A kind of handle whose blocks can be given back: one without extra data.
#[tactic(auto, unfolding(hd_model::specs::Grammar::trimmed_kind_of))]
pub fn trimmed_kind(word: &[u8]) -> Option<Kind>
    ensures exact { result ≡ grammar.trimmed_kind_of word.now }
    ensures valid { IfSome result (λ kind. is_paired kind ≡ false) }
{
    by_word!(word;
        "short" => Kind::Short,
        "long" => Kind::Long,
        "strong" => Kind::Strong,
        "pinned" => Kind::Pinned,
        else None
    )
}

/// `fin`, which registers a new object for finalization.
#[tactic(auto, unfolding(hd_model::specs::Grammar::fin_of))]
pub fn fin(word: &[u8]) -> Option<bool>
    ensures { result ≡ grammar.fin_of word.now }
{
    by_word!(word; "fin" => true, else None)
}

/// Whether a word is this text.
pub fn spells(word: &[u8], text: &str) -> bool
    ensures { result ≡ bytes_eq word.now text.now }
{
    let letters = text.as_bytes();
    if word.len() != letters.len() {
        return false;
    }
    'letters: for i in 0..letters.len() {
        if word[i] != letters[i] {
            return false;
        }
    }
    true
}
