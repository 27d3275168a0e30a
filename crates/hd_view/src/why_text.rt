// The text of why a line is not right: the line, what is due there, and the cause.
ghost use Rattle.std.specs.Prelude.{◌≡◌, ◌++◌, ◌<◌, decimal, length, IfOk, IfSome, flat_map};
ghost use Rattle.std.specs.List.{position};
ghost use Rattle.hd_model.specs.{CommandText.kind_name, Grammar.is_line_end, Valid.IsValid};
ghost use Rattle.hd_view.specs.Inside.{AreValid};
ghost use Rattle.hd_view.specs.WhyText.{accepts_text, another_word, block_cause_word, blocks_text};
ghost use Rattle.hd_view.specs.WhyText.{but_word, byte_word, cause_word, digit_of, due_text};
ghost use Rattle.hd_view.specs.WhyText.{end_text, entry_line, escaped, growth_words, handle_words};
ghost use Rattle.hd_view.specs.WhyText.{letter_word, line_bytes, too_few_words};
ghost use Rattle.hd_view.specs.WhyText.{numbers_word, only_number, printed_text, range_word, ranges_word};
ghost use Rattle.hd_view.specs.WhyText.{set_line, slot_cause_word, slots_text, start_of_due};
ghost use Rattle.hd_view.specs.WhyText.{why_text};

use crate::accepted::{Accepted, Due, needed_blocks};
use crate::cause::{BlockCause, Cause, Growth, SlotCause};
use crate::sets::{NumberSet, Range};
use hd_audit::Before;
use hd_model::{Entry, Kind, Memory};
use hd_print::{Text, command_line, full_line, kind_name};

// The bytes of a printed line that are shown, at most.
const LONGEST_PRINTED: usize = 160;

/// Appends why the first of the lines that are left is not right.
pub(crate) fn push_why(
    text: &mut Text,
    before: &Before,
    dues: &[Due],
    cause: Cause,
) -> Result<(), Memory>
    requires { AreValid dues.now }
    ensures { IfOk result (λ _. text.new ≡ text.old ++ why_text before.now dues.now cause) }
{
    push_printed(text, before.rest())?;
    push_dues(text, dues)?;
    push_end(text, before)?;
    text.push("cause ")?;
    push_cause(text, cause)?;
    text.push("\n")?;
    Ok(())
}

// The line as it was printed.
fn push_printed(text: &mut Text, rest: &[u8]) -> Result<(), Memory>
    ensures { IfOk result (λ _. text.new ≡ text.old ++ printed_text rest.now) }
{
    if rest.is_empty() {
        text.push("printed nothing\n")?;
        return Ok(());
    }
    text.push("printed ")?;
    push_escaped(text, without_end(rest))?;
    text.push("\n")?;
    Ok(())
}

// The bytes before the first byte 10.
fn without_end(line: &[u8]) -> &[u8]
    ensures { result.now ≡ line_bytes line.now }
{
    match first_end(line) {
        Some(end) => &line[..end],
        None => line,
    }
}

// The index of the first byte 10.
fn first_end(line: &[u8]) -> Option<usize>
    ensures end { result ≡ position is_line_end line.now }
    ensures within { IfSome result (λ end. end < length line.now) }
{
    line.iter().position(|b| *b == b'\n')
}

// Bytes as they are shown, and two dots where not all of them are.
fn push_escaped(text: &mut Text, bytes: &[u8]) -> Result<(), Memory>
    ensures { IfOk result (λ _. text.new ≡ text.old ++ escaped bytes.now) }
{
    if bytes.len() <= LONGEST_PRINTED {
        push_shown(text, bytes)?;
        return Ok(());
    }
    let (shown, _rest) = bytes.split_at(LONGEST_PRINTED);
    push_shown(text, shown)?;
    text.push("..")?;
    Ok(())
}

// Each byte as it is shown.
fn push_shown(text: &mut Text, bytes: &[u8]) -> Result<(), Memory>
    ensures { IfOk result (λ _. text.new ≡ text.old ++ flat_map byte_word bytes.now) }
{
    for byte in bytes {
        push_byte(text, *byte)?;
    }
    Ok(())
}

// A byte as it is shown: one that is no printed character of ASCII by its number to the base 16.
fn push_byte(text: &mut Text, byte: u8) -> Result<(), Memory>
    ensures { IfOk result (λ _. text.new ≡ text.old ++ byte_word byte) }
{
    if byte == b'\\' {
        text.push("\\\\")?;
        return Ok(());
    }
    if byte >= 32 && byte <= 126 {
        text.push_bytes(&[byte])?;
        return Ok(());
    }
    text.push("\\x")?;
    text.push_bytes(&[digit(byte / 16), digit(byte % 16)])?;
    Ok(())
}

// A digit of a number to the base 16.
fn digit(value: u8) -> u8
    requires { value < 16 }
    ensures { result ≡ digit_of value }
{
    if value <= 9 {
        b'0' + value
    } else {
        b'a' + (value - 10)
    }
}

// What is due of each caller, and the lines that may come for it.
fn push_dues(text: &mut Text, dues: &[Due]) -> Result<(), Memory>
    requires { AreValid dues.now }
    ensures { IfOk result (λ _. text.new ≡ text.old ++ flat_map due_text dues.now) }
{
    for due in dues {
        push_due(text, due)?;
    }
    Ok(())
}

// A command that is due, and the lines that may come for it.
fn push_due(text: &mut Text, due: &Due) -> Result<(), Memory>
    requires { IsValid due.now.cmd }
    ensures { IfOk result (λ _. text.new ≡ text.old ++ due_text due.now) }
{
    push_start(text, "due ", due)?;
    text.push_line(&command_line(due.cmd))?;
    push_accepts(text, due)?;
    Ok(())
}

// A word, and the caller and the number of a command that is due.
fn push_start(text: &mut Text, word: &str, due: &Due) -> Result<(), Memory>
    ensures { IfOk result (λ _. text.new ≡ text.old ++ start_of_due word.now due.now) }
{
    text.push(word)?;
    text.push_number(due.caller)?;
    text.push(" ")?;
    text.push_number(due.number)?;
    text.push(" ")?;
    Ok(())
}

// The lines that may come for a command.
fn push_accepts(text: &mut Text, due: &Due) -> Result<(), Memory>
    ensures { IfOk result (λ _. text.new ≡ text.old ++ accepts_text due.now due.now.accepted) }
{
    match &due.accepted {
        Accepted::One(entry) => push_option(text, due, Some(*entry)),
        Accepted::Slots {
            kind: _,
            free,
            grown,
            full,
        } => push_slots(text, due, free, *grown, *full),
        Accepted::Addresses { id: _, free } => push_set(text, due, "addr ", "N", free),
        Accepted::Blocks { kind: _, free } => push_blocks(text, due, free),
    }
}

// Those of a new row.
fn push_slots(
    text: &mut Text,
    due: &Due,
    free: &NumberSet,
    grown: Option<Entry>,
    full: Option<Entry>,
) -> Result<(), Memory>
    ensures { IfOk result (λ _. text.new ≡ text.old ++ slots_text due.now free.now grown full) }
{
    push_set(text, due, "ok @", "S", free)?;
    push_option(text, due, grown)?;
    push_option(text, due, full)?;
    Ok(())
}

// Those of a `trim`.
fn push_blocks(text: &mut Text, due: &Due, free: &NumberSet) -> Result<(), Memory>
    ensures { IfOk result (λ _. text.new ≡ text.old ++ blocks_text due.now free.now) }
{
    push_start(text, "accepts ", due)?;
    text.push("value 0\n")?;
    push_set(text, due, "value 1 -", "A", free)?;
    Ok(())
}

// The line of an entry that may come, where there is one.
fn push_option(text: &mut Text, due: &Due, entry: Option<Entry>) -> Result<(), Memory>
    ensures { IfOk result (λ _. text.new ≡ text.old ++ entry_line due.now entry) }
{
    let Some(entry) = entry else {
        return Ok(());
    };
    text.push("accepts ")?;
    text.push_line(&full_line(entry, due.number))?;
    Ok(())
}

// That the lines with one of some numbers may come.
fn push_set(
    text: &mut Text,
    due: &Due,
    reply: &str,
    letter: &str,
    set: &NumberSet,
) -> Result<(), Memory>
    ensures { IfOk result
        (λ _. text.new ≡ text.old ++ set_line due.now reply.now letter.now set.now) }
{
    if set.within.is_empty() {
        return Ok(());
    }
    push_start(text, "accepts ", due)?;
    text.push(reply)?;
    push_numbers(text, letter, set)?;
    text.push("\n")?;
    Ok(())
}

// The number itself where there is one, and else a letter that stands for one of the numbers.
fn push_numbers(text: &mut Text, letter: &str, set: &NumberSet) -> Result<(), Memory>
    ensures { IfOk result (λ _. text.new ≡ text.old ++ numbers_word letter.now set.now) }
{
    match only_number(&set.within, &set.but) {
        Some(number) => text.push_number(number),
        None => push_letter(text, letter, &set.within, &set.but),
    }
}

// The number of a set that has one range of one number.
#[tactic(auto, using(crate::proofs::PrintedLines::number_at))]
fn only_number(within: &[Range], but: &[Range]) -> Option<u32>
    ensures { result ≡ only_number within.now but.now }
{
    if within.len() != 1 {
        return None;
    }
    if !but.is_empty() {
        return None;
    }
    let range = within[0];
    if range.first != range.last {
        return None;
    }
    Some(range.first)
}

// A letter, and the numbers that it stands for.
fn push_letter(text: &mut Text, letter: &str, within: &[Range], but: &[Range]) -> Result<(), Memory>
    ensures { IfOk result
        (λ _. text.new ≡ text.old ++ letter_word letter.now within.now but.now) }
{
    text.push(letter)?;
    text.push(", ")?;
    text.push(letter)?;
    text.push(" one of ")?;
    push_ranges(text, within)?;
    push_but(text, but)?;
    Ok(())
}

// The ranges that a set leaves out, if there are any.
fn push_but(text: &mut Text, ranges: &[Range]) -> Result<(), Memory>
    ensures { IfOk result (λ _. text.new ≡ text.old ++ but_word ranges.now) }
{
    if ranges.is_empty() {
        return Ok(());
    }
    text.push(" but ")?;
    push_ranges(text, ranges)?;
    Ok(())
}

// Ranges with a comma between each two.
fn push_ranges(text: &mut Text, ranges: &[Range]) -> Result<(), Memory>
    ensures { IfOk result (λ _. text.new ≡ text.old ++ ranges_word ranges.now) }
{
    let Some((first, more)) = ranges.split_first() else {
        return Ok(());
    };
    push_range(text, *first)?;
    push_more(text, more)?;
    Ok(())
}

// Ranges with a comma before each.
fn push_more(text: &mut Text, ranges: &[Range]) -> Result<(), Memory>
    ensures { IfOk result (λ _. text.new ≡ text.old ++ flat_map another_word ranges.now) }
{
    for range in ranges {
        push_another(text, *range)?;
    }
    Ok(())
}

// A range with a comma before it.
fn push_another(text: &mut Text, range: Range) -> Result<(), Memory>
    ensures { IfOk result (λ _. text.new ≡ text.old ++ another_word range) }
{
    text.push(", ")?;
    push_range(text, range)?;
    Ok(())
}

// A range, or its one number.
fn push_range(text: &mut Text, range: Range) -> Result<(), Memory>
    ensures { IfOk result (λ _. text.new ≡ text.old ++ range_word range) }
{
    text.push_number(range.first)?;
    if range.first == range.last {
        return Ok(());
    }
    text.push(" to ")?;
    text.push_number(range.last)?;
    Ok(())
}

// What is due where no command is: the end line, or nothing.
fn push_end(text: &mut Text, before: &Before) -> Result<(), Memory>
    ensures { IfOk result (λ _. text.new ≡ text.old ++ end_text before.now) }
{
    if before.is_ended() {
        text.push("due nothing\n")?;
        return Ok(());
    }
    if before.left() != 0 {
        return Ok(());
    }
    text.push("due end\naccepts ")?;
    text.push_line(&before.end_line())?;
    Ok(())
}

// A cause in words.
fn push_cause(text: &mut Text, cause: Cause) -> Result<(), Memory>
    ensures { IfOk result (λ _. text.new ≡ text.old ++ cause_word cause) }
{
    match cause {
        Cause::Missing => text.push("the line is missing"),
        Cause::AfterEnd => text.push("a line after the end line"),
        Cause::NoEnd => text.push("no byte 10 ends the line"),
        Cause::NoLine => text.push("these bytes are no line"),
        Cause::EndTooEarly(left) => push_numbered(text, "commands are left: ", left),
        Cause::EndCounts => text.push("the counts of the end line are others"),
        Cause::OnlyEnd => text.push("only the end line is due"),
        Cause::NoCaller(caller) => push_numbered(text, "there is no caller ", caller),
        Cause::ListEnd(caller) => {
            push_worded(text, "the list of caller ", caller, " is at its end")
        }
        Cause::Number(number) => push_numbered(text, "the number of the command is ", number),
        Cause::Reply => text.push("the reply is another"),
        Cause::Pinned(address) => push_numbered(text, "the object is pinned at ", address),
        Cause::AddressTaken(address) => {
            push_numbered(text, "an object with a pinned address is at ", address)
        }
        Cause::TooFew(unused, kind) => push_too_few(text, unused, kind),
        Cause::Slot(cause) => push_slot_cause(text, cause),
        Cause::Blocks(cause) => push_block_cause(text, cause),
        Cause::Spelled => text.push("it reads as a line that may come, but has other bytes"),
    }
}

// One by the slot.
fn push_slot_cause(text: &mut Text, cause: SlotCause) -> Result<(), Memory>
    ensures { IfOk result (λ _. text.new ≡ text.old ++ slot_cause_word cause) }
{
    match cause {
        SlotCause::Missing => text.push("a slot is missing"),
        SlotCause::Needless => text.push("a slot is needless"),
        SlotCause::Freed(slot) => push_numbered(text, "the command frees slot ", slot.0),
        SlotCause::Idle(slot) => push_numbered(text, "the least idle slot is ", slot.0),
        SlotCause::InUse(slot) => push_worded(text, "slot ", slot.0, " is in use"),
        SlotCause::OtherKind(slot, kind) => {
            push_kinded(text, "slot ", slot.0, " is in no block of kind ", kind)
        }
        SlotCause::NotFirst(block) => {
            push_numbered(text, "the slot is not the first of block ", block)
        }
    }
}

// One by the blocks.
fn push_block_cause(text: &mut Text, cause: BlockCause) -> Result<(), Memory>
    ensures { IfOk result (λ _. text.new ≡ text.old ++ block_cause_word cause) }
{
    match cause {
        BlockCause::Missing => text.push("blocks are missing"),
        BlockCause::Needless => text.push("blocks are needless"),
        BlockCause::Other => text.push("the blocks are others"),
        BlockCause::InUse(block) => push_worded(text, "block ", block, " is in use"),
        BlockCause::NotLeast(growth, least) => push_numbered(text, growth_words(growth), least),
        BlockCause::OtherKind(block, kind) => {
            push_kinded(text, "block ", block, " has no handles of kind ", kind)
        }
        BlockCause::NotFree(block, _) => {
            push_numbered(text, "not all slots are free in block ", block)
        }
    }
}

// The words before the least block without a use.
fn growth_words(growth: Growth) -> &'static str
    ensures { result.now ≡ growth_words growth }
{
    match growth {
        Growth::Only => "the least block without a use is ",
        Growth::First => "the first block is the least without a use: ",
        Growth::Second => "the second block is the least without a use after the first: ",
    }
}

// That too few blocks are without a use.
fn push_too_few(text: &mut Text, unused: u32, kind: Kind) -> Result<(), Memory>
    ensures { IfOk result (λ _. text.new ≡ text.old ++ too_few_words unused kind) }
{
    push_worded(text, "too few blocks are unused: ", unused, ", and ")?;
    text.push(handle_words(kind))?;
    push_numbered(text, " needs ", needed_blocks(kind))?;
    Ok(())
}

// A handle of a kind.
fn handle_words(kind: Kind) -> &'static str
    ensures { result.now ≡ handle_words kind }
{
    match kind {
        Kind::Short => "a weak short handle",
        Kind::Long => "a weak long handle",
        Kind::Strong => "a strong handle",
        Kind::Pinned => "a pinned handle",
        Kind::Variable => "a variable handle",
        Kind::Counted => "a ref-counted handle",
        Kind::Dependent => "a dependent handle",
    }
}

// Words, and a number.
fn push_numbered(text: &mut Text, words: &str, number: u32) -> Result<(), Memory>
    ensures { IfOk result (λ _. text.new ≡ text.old ++ (words.now ++ decimal number)) }
{
    text.push(words)?;
    text.push_number(number)?;
    Ok(())
}

// Words, a number, and words after it.
fn push_worded(text: &mut Text, words: &str, number: u32, after: &str) -> Result<(), Memory>
    ensures { IfOk result
        (λ _. text.new ≡ text.old ++ (words.now ++ decimal number ++ after.now)) }
{
    text.push(words)?;
    text.push_number(number)?;
    text.push(after)?;
    Ok(())
}

// A number between words, and a kind behind them.
fn push_kinded(
    text: &mut Text,
    words: &str,
    number: u32,
    after: &str,
    kind: Kind,
) -> Result<(), Memory>
    ensures { IfOk result (λ _. text.new
        ≡ text.old ++ (words.now ++ decimal number ++ after.now ++ kind_name kind)) }
{
    text.push(words)?;
    text.push_number(number)?;
    text.push(after)?;
    text.push(kind_name(kind))?;
    Ok(())
}
