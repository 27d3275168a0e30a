// The words of a line, one after the other, each with its column.
ghost use Rattle.std.specs.Prelude.{◌≡◌, ◌+◌, ◌<◌, ◌≤◌, false, [], ◌∷◌, length, position, slice_index_or, MatchOption, IfSome};
ghost use Rattle.std.specs.List.{before_first, position_or_len};
ghost use Rattle.std.specs.Str.Lines.{strip_carriage_return};
ghost use Rattle.hd_model.specs.Grammar.{is_blank, is_hash};
ghost use Rattle.hd_script.specs.Words.{starts_blank};
ghost use Rattle.hd_faults.specs.Placed.{bytes_of, words_from};

use hd_model::limits::MOST_BYTES;

/// A word of a line, its column, the column after it, and the bytes from there on.
#[derive(Clone, Copy)]
pub(crate) struct WordAt<'a> {
    pub(crate) column: usize,
    pub(crate) word: &'a [u8],
    pub(crate) end: usize,
    pub(crate) rest: &'a [u8],
}

/// The bytes of a line that have its words: those before a comment.
pub(crate) fn content(line: &[u8]) -> &[u8]
    ensures bytes { result.now ≡ before_first is_hash (strip_carriage_return line.now) }
    ensures short { length result.now ≤ length line.now }
{
    before_comment(without_return(line))
}

// The bytes without the one carriage return directly before their end.
fn without_return(line: &[u8]) -> &[u8]
    ensures bytes { result.now ≡ strip_carriage_return line.now }
    ensures short { length result.now ≤ length line.now }
{
    let len = line.len();
    if len > 0 && line[len - 1] == b'\r' {
        &line[..len - 1]
    } else {
        line
    }
}

// The bytes before the first `#`.
fn before_comment(line: &[u8]) -> &[u8]
    ensures bytes { result.now ≡ before_first is_hash line.now }
    ensures short { length result.now ≤ length line.now }
{
    let end = comment_start(line);
    &line[..end]
}

// Where the first `#` is, or the length.
fn comment_start(line: &[u8]) -> usize
    ensures first { result ≡ position_or_len is_hash line.now }
    ensures within { result ≤ length line.now }
{
    match first_hash(line) {
        Some(start) => start,
        None => line.len(),
    }
}

// Where the first `#` is, if there is one.
fn first_hash(line: &[u8]) -> Option<usize>
    ensures first { result ≡ position is_hash line.now }
    ensures within { IfSome result (λ start. start < length line.now) }
{
    line.iter().position(|b| *b == b'#')
}

/// The first word of bytes that begin at a column.
pub(crate) fn next_word(rest: &[u8], column: usize) -> Option<WordAt<'_>>
    requires { column + length rest.now ≤ MOST_BYTES + 1 }
    ensures words { MatchOption result (words_from column rest.now ≡ [])
        (λ found. words_from column rest.now
        ≡ (found.column, found.word.now) ∷ words_from found.end found.rest.now) }
    ensures room { IfSome result
        (λ found. found.end + length found.rest.now ≤ column + length rest.now) }
    ensures after { IfSome result (λ found. column < found.end) }
{
    let (rest, column) = from_word(rest, column);
    let len = word_len(rest);
    if len == 0 {
        return None;
    }
    Some(WordAt {
        column,
        word: &rest[..len],
        end: column + len,
        rest: &rest[len..],
    })
}

// The bytes from the first one on that is not blank, and their column.
fn from_word(bytes: &[u8], start: usize) -> (&[u8], usize)
    requires { start + length bytes.now ≤ MOST_BYTES + 1 }
    ensures words { words_from result.1 result.0.now ≡ words_from start bytes.now }
    ensures begins { starts_blank result.0.now ≡ false }
    ensures room { result.1 + length result.0.now ≡ start + length bytes.now }
    ensures after { start ≤ result.1 }
{
    let mut rest = bytes;
    let mut column = start;
    'blanks: while begins_blank(rest) {
        rest = &rest[1..];
        column += 1;
    }
    (rest, column)
}

// Whether the first byte is blank.
fn begins_blank(bytes: &[u8]) -> bool
    ensures { result ≡ starts_blank bytes.now }
{
    match bytes.first() {
        Some(first) => *first == b' ' || *first == b'\t',
        None => false,
    }
}

// Where the first blank is, or the length.
fn word_len(bytes: &[u8]) -> usize
    ensures first { result ≡ position_or_len is_blank bytes.now }
    ensures within { result ≤ length bytes.now }
{
    match first_blank(bytes) {
        Some(len) => len,
        None => bytes.len(),
    }
}

// Where the first blank is, if there is one.
fn first_blank(bytes: &[u8]) -> Option<usize>
    ensures first { result ≡ position is_blank bytes.now }
    ensures within { IfSome result (λ len. len < length bytes.now) }
{
    bytes.iter().position(|b| *b == b' ' || *b == b'\t')
}

/// The number of words in bytes that begin at a column.
pub(crate) fn count_words(bytes: &[u8], start: usize) -> usize
    requires { start + length bytes.now ≤ MOST_BYTES + 1 }
    ensures { result ≡ length (words_from start bytes.now) }
{
    let mut rest = bytes;
    let mut column = start;
    let mut count = 0;
    'words: while let Some(found) = next_word(rest, column) {
        count += 1;
        rest = found.rest;
        column = found.end;
    }
    count
}

/// The second word in bytes that begin at a column, or no bytes where there is none.
pub(crate) fn second_word(bytes: &[u8], start: usize) -> &[u8]
    requires { start + length bytes.now ≤ MOST_BYTES + 1 }
    ensures { result.now ≡ slice_index_or (bytes_of (words_from start bytes.now)) 1 [] }
{
    let Some(first) = next_word(bytes, start) else {
        return &bytes[..0];
    };
    match next_word(first.rest, first.end) {
        Some(second) => second.word,
        None => &bytes[..0],
    }
}
