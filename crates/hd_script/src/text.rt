// Lines, and words within a line. A word is a part of the input, and none is copied. One pass goes
// over a line: each word ends where the search for its end finds a blank, a comment or the line's
// end.
ghost use Rattle.std.specs.Prelude.{◌≡◌, ◌≤◌, false, [], ◌∷◌, length, position, MatchOption, IfSome};
ghost use Rattle.std.specs.List.{position_or_len};
ghost use Rattle.std.specs.Str.Lines.{strip_carriage_return};
ghost use Rattle.hd_model.specs.Grammar.{is_line_end};
ghost use Rattle.hd_script.specs.{Inside.is_stop, Inside.starts_end, Inside.with_word, Words.starts_blank, Words.words_at, Words.line_after};

/// The bytes after the first line and its end.
pub(crate) fn after_line(bytes: &[u8]) -> &[u8]
    ensures { result.now ≡ line_after bytes.now }
{
    match line_end(bytes) {
        Some(end) => &bytes[end + 1..],
        None => &bytes[bytes.len()..],
    }
}

// Where the first line ends.
fn line_end(bytes: &[u8]) -> Option<usize>
    ensures { result ≡ position is_line_end bytes.now }
{
    bytes.iter().position(|b| *b == b'\n')
}

/// The first word of the first line, and the bytes after it.
pub fn next_word(bytes: &[u8]) -> Option<(&[u8], &[u8])>
    ensures words { MatchOption result (words_at bytes.now ≡ [])
        (λ found. words_at bytes.now ≡ found.0.now ∷ words_at found.1.now) }
    ensures line { IfSome result (λ found. line_after found.1.now ≡ line_after bytes.now) }
{
    let bytes = from_word(bytes);
    if begins_end(bytes) {
        return None;
    }
    let (word, rest) = first_word(bytes);
    if word.is_empty() {
        None
    } else {
        Some((word, rest))
    }
}

// Whether the line ends here.
fn begins_end(bytes: &[u8]) -> bool
    ensures { result ≡ starts_end bytes.now }
{
    match bytes.first() {
        Some(first) => *first == b'\n',
        None => false,
    }
}

// The bytes from the first one on that is not blank.
fn from_word(bytes: &[u8]) -> &[u8]
    ensures words { words_at result.now ≡ words_at bytes.now }
    ensures line { line_after result.now ≡ line_after bytes.now }
    ensures begins { starts_blank result.now ≡ false }
{
    let mut rest = bytes;
    'blanks: while begins_blank(rest) {
        rest = &rest[1..];
    }
    rest
}

// Whether the first byte is blank.
fn begins_blank(bytes: &[u8]) -> bool
    ensures { result ≡ starts_blank bytes.now }
{
    match bytes.first() {
        Some(first) => *first == b' ' || *first == b'\t',
        None => false,
    }
}

// The word with which the bytes begin, empty where the line has no more, and the bytes after it.
fn first_word(bytes: &[u8]) -> (&[u8], &[u8])
    requires { starts_blank bytes.now ≡ false }
    ensures words { words_at bytes.now ≡ with_word result.0.now (words_at result.1.now) }
    ensures line { line_after result.1.now ≡ line_after bytes.now }
{
    let end = word_end(bytes);
    if end == bytes.len() {
        return (without_return(bytes), &bytes[end..]);
    }
    let word = &bytes[..end];
    if bytes[end] == b'\n' {
        (without_return(word), &bytes[end..])
    } else if bytes[end] == b'#' {
        (word, &bytes[end..])
    } else {
        (word, &bytes[end + 1..])
    }
}

// Where the first word ends. Out of line, since it is faster where its registers are its own.
#[inline(never)]
fn word_end(bytes: &[u8]) -> usize
    ensures first { result ≡ position_or_len is_stop bytes.now }
    ensures within { result ≤ length bytes.now }
{
    let mut end = 0;
    'bytes: while end < bytes.len() {
        if stops(bytes[end]) {
            return end;
        }
        end += 1;
    }
    end
}

// Whether a word ends before this byte.
fn stops(b: u8) -> bool
    ensures { result ≡ is_stop b }
{
    b == b' ' || b == b'\n' || b == b'\t' || b == b'#'
}

// The bytes without the one carriage return directly before their end.
fn without_return(line: &[u8]) -> &[u8]
    ensures { result.now ≡ strip_carriage_return line.now }
{
    let len = line.len();
    if len > 0 && line[len - 1] == b'\r' {
        &line[..len - 1]
    } else {
        line
    }
}
