ghost use Rattle.std.specs.Prelude.{◌≡◌, true, false, Some, ◌^◌, ◌-◌, IfOk, IfErr, IsErrAnd, IfSome};
ghost use Rattle.clap.specs.Words.{app_of, rule_of, found_of, kind_of, rows_of};
ghost use Rattle.hd_run.specs.Modes.{traits_of, runs_alone, output_of};
ghost use Rattle.hd_run.specs.Words.{request_of, if_alone, audit_of, asked_by, number_rule};
ghost use Rattle.hd_run.specs.Words.{flag_rule, numbered, program, is_given};
ghost use Rattle.hd_run.specs.{Words.number_of, Inside.request_or_usage, Inside.IsRefusal};
ghost use Rattle.hd_run.specs.Inside.{IsFaultOfWords, IsInLimits, GivesNumbers, GivesNumber};
ghost use Rattle.hd_run.specs.Inside.{with_mode, with_heap, with_blocks};

use crate::fault::Fault;
use crate::limits::{LEAST_HEAP, Limits};
use crate::mode::{Mode, Output};
use clap::builder::ValueParser;
use clap::error::ErrorKind;
use clap::{Arg, ArgAction, ArgMatches, Command, Error};
use hd_model::limits::{BLOCKS, HEAP, MOST_ROUNDS};
use hd_print::Form;
use std::alloc::{AllocError, Global};

// The rounds of a load where the words give no number.
const ROUNDS: u32 = 100;

/// What the words ask for: a mode, its limits, the rounds of a load, and the form of lines.
#[derive(Drop)]
pub(crate) struct Request {
    pub(crate) mode: Mode,
    pub(crate) limits: Limits,
    pub(crate) rounds: u32,
    pub(crate) form: Form,
}

impl Request {
    /// How its run is written.
    pub(crate) fn output(&self) -> Output
        ensures { result ≡ output_of self.now }
    {
        self.mode.traits().output(self.form)
    }
}

/// What the words ask for, where they are valid.
pub(crate) fn read_words(alloc: Global, words: &[String]) -> Result<Request, Fault>
    ensures value { IfOk result (λ r. Some r ≡ request_of words.now) }
    ensures limits { IfOk result IsInLimits }
    ensures fault { IfErr result (IsFaultOfWords (request_of words.now)) }
{
    let Ok(command) = command(alloc) else {
        return Err(Fault::NoMemory);
    };
    request_or_fault(command.try_get_matches_from(words))
}

/// What the words ask for, where they are valid and name a mode in which one thread runs the
/// script, and lists the roots or not.
pub(crate) fn read_words_alone(
    alloc: Global,
    words: &[String],
    lists_roots: bool,
) -> Result<Request, Fault>
    ensures value { IfOk result (λ r. Some r ≡ if_alone lists_roots (request_of words.now)) }
    ensures limits { IfOk result IsInLimits }
    ensures alone { IfOk result (λ r. runs_alone lists_roots (traits_of r.mode) ≡ true) }
    ensures fault { IfErr result (IsFaultOfWords (if_alone lists_roots (request_of words.now))) }
{
    let request = read_words(alloc, words)?;
    if request.mode.traits().runs_alone(lists_roots) {
        Ok(request)
    } else {
        Err(Fault::Usage)
    }
}

/// What the words ask for, where they are valid and name the mode that judges a text.
pub(crate) fn read_audit_words(alloc: Global, words: &[String]) -> Result<Request, Fault>
    ensures value { IfOk result (λ r. Some r ≡ audit_of (request_of words.now)) }
    ensures fault { IfErr result (IsFaultOfWords (audit_of (request_of words.now))) }
{
    let request = read_words(alloc, words)?;
    if request.mode.traits().judges {
        Ok(request)
    } else {
        Err(Fault::Usage)
    }
}

// What the words come to, by what the command finds in them. Memory ran out only where it ran out
// in the command.
fn request_or_fault(taken: Result<ArgMatches, Error>) -> Result<Request, Fault>
    requires { IfOk taken (λ m. GivesNumbers (found_of m)) }
    ensures matches { IfOk taken.entry
        (λ m. result ≡ request_or_usage (asked_by (rows_of (found_of m)))) }
    ensures limits { IfOk result IsInLimits }
    ensures error { IfErr taken.entry (λ e. IsErrAnd result (IsRefusal (kind_of e))) }
{
    match taken {
        Ok(matches) => asked_by(&matches).ok_or(Fault::Usage),
        Err(error) => Err(refusal(&error)),
    }
}

// Words that the command does not take are not valid.
fn refusal(error: &Error) -> Fault
    ensures { IsRefusal (kind_of error.now) result }
{
    match error.kind() {
        ErrorKind::OutOfMemory => Fault::NoMemory,
        _ => Fault::Usage,
    }
}

// The command: a mode, options with a number each, and a flag.
fn command<'a>(alloc: Global) -> Result<Command<'a>, AllocError>
    ensures { IfOk result (λ c. app_of c ≡ program) }
{
    let command = numbered(alloc)?;
    command.arg(flag(alloc, "slots"))
}

// The same without the flag.
fn numbered<'a>(alloc: Global) -> Result<Command<'a>, AllocError>
    ensures { IfOk result (λ c. app_of c ≡ numbered) }
{
    let command = with_blocks(alloc)?;
    command.arg(number(alloc, "rounds", 1, MOST_ROUNDS))
}

// A mode, and the limits of the heap and of the table.
fn with_blocks<'a>(alloc: Global) -> Result<Command<'a>, AllocError>
    ensures { IfOk result (λ c. app_of c ≡ with_blocks) }
{
    let command = with_heap(alloc)?;
    command.arg(number(alloc, "blocks", 1, BLOCKS))
}

// A mode, and the limit of the heap.
fn with_heap<'a>(alloc: Global) -> Result<Command<'a>, AllocError>
    ensures { IfOk result (λ c. app_of c ≡ with_heap) }
{
    let command = with_mode(alloc)?;
    command.arg(number(alloc, "heap", LEAST_HEAP, HEAP))
}

// A mode alone.
fn with_mode<'a>(alloc: Global) -> Result<Command<'a>, AllocError>
    ensures { IfOk result (λ c. app_of c ≡ with_mode) }
{
    let mode = Arg::new(alloc, "mode").required(true);
    Command::new(alloc, "hdt").arg(mode)
}

// An option with a whole number from `least` to `most`.
fn number<'a>(alloc: Global, name: &'a str, least: u32, most: u32) -> Arg<'a>
    ensures rule { rule_of result ≡ number_rule name.entry.now least most }
    ensures local { result.global ≡ false }
{
    Arg::new(alloc, name)
        .long(name)
        .value_parser(ValueParser::unsigned(u64::from(least), u64::from(most)))
}

// An option without a value.
fn flag<'a>(alloc: Global, name: &'a str) -> Arg<'a>
    ensures rule { rule_of result ≡ flag_rule name.entry.now }
    ensures local { result.global ≡ false }
{
    Arg::new(alloc, name).long(name).action(ArgAction::SetTrue)
}

// What the matches ask for.
fn asked_by(matches: &ArgMatches) -> Option<Request>
    requires { GivesNumbers (found_of matches.now) }
    ensures value { result ≡ asked_by (rows_of (found_of matches.now)) }
    ensures limits { IfSome result IsInLimits }
{
    let mode = Mode::of(matches.get_str("mode")?)?;
    let heap = number_of(matches, "heap", HEAP);
    let blocks = number_of(matches, "blocks", BLOCKS);
    let rounds = number_of(matches, "rounds", ROUNDS);
    let slots = is_given(matches, "slots");
    Some(Request {
        mode,
        limits: Limits::new(heap, blocks),
        rounds,
        form: Form::of(slots),
    })
}

// The number of an option, or its default where the words give none.
fn number_of(matches: &ArgMatches, name: &str, default: u32) -> u32
    requires { GivesNumber (found_of matches.now) name.now 0 (2 ^ 32 - 1) }
    ensures { result ≡ number_of (rows_of (found_of matches.now)) name.now default }
{
    matches.get_one::<u32>(name).unwrap_or(default)
}

// Whether the words give a flag. The matches have a text for each flag, `true` or `false`.
fn is_given(matches: &ArgMatches, name: &str) -> bool
    ensures { result ≡ is_given (rows_of (found_of matches.now)) name.now }
{
    match matches.get_str(name) {
        Some(text) => text == "true",
        None => false,
    }
}
