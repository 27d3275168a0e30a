// The lines of commands, as a script has them.
ghost use Rattle.std.specs.Prelude.{◌≡◌, ◌==◌, ◌+◌, ◌*◌, ◌≤◌, ◌∷◌, [], ◌++◌, true, false, length, map, codes, Ok};
ghost use Rattle.std.specs.List.{join_with_byte};
ghost use Rattle.hd_model.specs.CommandText.{command_text, kind_name, strength_word};
ghost use Rattle.hd_model.specs.Grammar.{script_of};
ghost use Rattle.hd_model.specs.Rows.{words_after};
ghost use Rattle.hd_model.specs.Text.{newline};
ghost use Rattle.hd_model.specs.Valid.{IsValid};
ghost use Rattle.hd_print.specs.Inside.{has_handle_name, operand_word};

use crate::line::Line;
use Operand::{Handle, Number, Object, OfKind, OfStrength, Registered, Small};
use hd_model::{Cmd, Kind, Make, Strength};

// The bytes of the longest name of a command.
const LONGEST_NAME: usize = 10;

// The bytes of the longest operand: a blank and a number of twenty digits.
const LONGEST_OPERAND: usize = 21;

// The bytes of the longest command: a name and four operands.
const LONGEST_COMMAND: usize = 94;

// A word after the name of a command.
#[derive(Clone, Copy)]
enum Operand {
    Object(u8),
    Handle(u8),
    Small(u8),
    Number(u64),
    OfStrength(Strength),
    OfKind(Kind),
    // `fin`: the object is registered for finalization.
    Registered,
}

/// The line of a command, as a script has it.
pub fn command_line(cmd: Cmd) -> Line
    requires { IsValid cmd }
    ensures text { result ≡ command_text cmd ++ newline }
    // A script of this line alone has the list of this command alone.
    ensures read { script_of result ≡ Ok ((cmd ∷ []) ∷ []) }
{
    let mut line = Line::new();
    push_command(&mut line, cmd);
    line.push_str("\n");
    line
}

// Appends a command.
fn push_command(line: &mut Line, cmd: Cmd)
    requires { length line.old + LONGEST_COMMAND ≤ Line.CAPACITY }
    ensures text { line.new ≡ line.old ++ command_text cmd }
    ensures short { length line.new ≤ length line.old + LONGEST_COMMAND }
{
    if has_one_operand(cmd) {
        push_with_one(line, cmd);
    } else if has_handle_name(cmd) {
        push_on_handle(line, cmd);
    } else {
        push_on_object(line, cmd);
    }
}

// Whether the name of a command begins with `h`, as it does for a handle.
fn has_handle_name(cmd: Cmd) -> bool
    ensures { result ≡ has_handle_name cmd }
{
    matches!(
        cmd,
        Cmd::HNew { .. }
            | Cmd::HGet { .. }
            | Cmd::HSet { .. }
            | Cmd::HSec { .. }
            | Cmd::HDep { .. }
            | Cmd::HVar { .. }
            | Cmd::HFree { .. }
            | Cmd::HPut { .. }
            | Cmd::HPick { .. }
            | Cmd::HUp { .. }
            | Cmd::HDown { .. }
    )
}

// Whether one word follows the name of a command.
fn has_one_operand(cmd: Cmd) -> bool
    ensures { result ≡ (length (words_after cmd) == 1) }
{
    matches!(
        cmd,
        Cmd::Read { .. }
            | Cmd::Clear { .. }
            | Cmd::Gen { .. }
            | Cmd::Suppress { .. }
            | Cmd::Reregister { .. }
            | Cmd::Final { .. }
            | Cmd::Collect { .. }
            | Cmd::HFree { .. }
            | Cmd::AddrOf { .. }
            | Cmd::HUp { .. }
            | Cmd::HDown { .. }
            | Cmd::Trim { .. }
            | Cmd::CRemove { .. }
            | Cmd::GcRoot { .. }
    )
}

// Appends a command with one operand.
fn push_with_one(line: &mut Line, cmd: Cmd)
    requires one { (length (words_after cmd) == 1) ≡ true }
    requires room { length line.old + LONGEST_COMMAND ≤ Line.CAPACITY }
    ensures text { line.new ≡ line.old ++ command_text cmd }
    ensures short { length line.new ≤ length line.old + LONGEST_COMMAND }
{
    match cmd {
        Cmd::Read { o } => push_one(line, "read", Object(o)),
        Cmd::Clear { d } => push_one(line, "drop", Object(d)),
        Cmd::Gen { s } => push_one(line, "gen", Object(s)),
        Cmd::Suppress { s } => push_one(line, "suppress", Object(s)),
        Cmd::Reregister { s } => push_one(line, "reregister", Object(s)),
        Cmd::Final { d } => push_one(line, "final", Object(d)),
        Cmd::Collect { n } => push_one(line, "collect", Small(n)),
        Cmd::HFree { s } => push_one(line, "hfree", Handle(s)),
        Cmd::AddrOf { s } => push_one(line, "addr", Handle(s)),
        Cmd::HUp { s } => push_one(line, "hup", Handle(s)),
        Cmd::HDown { s } => push_one(line, "hdown", Handle(s)),
        Cmd::Trim { kind } => push_one(line, "trim", OfKind(kind)),
        Cmd::CRemove { k } => push_one(line, "cremove", Object(k)),
        Cmd::GcRoot { s } => push_one(line, "gcroot", Object(s)),
        _ => unreachable!(),
    }
}

// Appends a command of a handle with more operands than one.
fn push_on_handle(line: &mut Line, cmd: Cmd)
    requires more { (length (words_after cmd) == 1) ≡ false }
    requires name { has_handle_name cmd ≡ true }
    requires room { length line.old + LONGEST_COMMAND ≤ Line.CAPACITY }
    ensures text { line.new ≡ line.old ++ command_text cmd }
    ensures short { length line.new ≤ length line.old + LONGEST_COMMAND }
{
    match cmd {
        Cmd::HNew { d, make, t } => push_hnew(line, d, make, t),
        Cmd::HGet { d, s } => push_two(line, "hget", Object(d), Handle(s)),
        Cmd::HSet { s, t } => push_two(line, "hset", Handle(s), Object(t)),
        Cmd::HSec { h, s } => push_two(line, "hsec", Handle(h), Object(s)),
        Cmd::HDep { d, s } => push_two(line, "hdep", Object(d), Handle(s)),
        Cmd::HVar { s, strength } => push_two(line, "hvar", Handle(s), OfStrength(strength)),
        Cmd::HPut { k, s } => push_two(line, "hput", Small(k), Handle(s)),
        Cmd::HPick { d, k } => push_two(line, "hpick", Handle(d), Small(k)),
        _ => unreachable!(),
    }
}

// Appends another command with more operands than one.
fn push_on_object(line: &mut Line, cmd: Cmd)
    requires more { (length (words_after cmd) == 1) ≡ false }
    requires name { has_handle_name cmd ≡ false }
    requires room { length line.old + LONGEST_COMMAND ≤ Line.CAPACITY }
    ensures text { line.new ≡ line.old ++ command_text cmd }
    ensures short { length line.new ≤ length line.old + LONGEST_COMMAND }
{
    match cmd {
        Cmd::New { d, fields, fin } => push_new(line, d, fields, fin),
        Cmd::Set { o, i, v } => push_words(line, "set", &[Object(o), Small(i), Object(v)]),
        Cmd::Get { d, o, i } => push_words(line, "get", &[Object(d), Object(o), Small(i)]),
        Cmd::Val { o, n } => push_two(line, "val", Object(o), Number(n)),
        Cmd::Copy { d, s } => push_two(line, "copy", Object(d), Object(s)),
        Cmd::SPut { k, s } => push_two(line, "sput", Small(k), Object(s)),
        Cmd::SGet { d, k } => push_two(line, "sget", Object(d), Small(k)),
        Cmd::CAdd { k, v } => push_two(line, "cadd", Object(k), Object(v)),
        Cmd::CFind { d, k } => push_two(line, "cfind", Object(d), Object(k)),
        _ => unreachable!(),
    }
}

// Appends a `new`.
fn push_new(line: &mut Line, d: u8, fields: u8, fin: bool)
    requires { length line.old + LONGEST_COMMAND ≤ Line.CAPACITY }
    ensures text { line.new ≡ line.old ++ command_text (Cmd.New d fields fin) }
    ensures short { length line.new ≤ length line.old + LONGEST_COMMAND }
{
    if fin {
        push_words(line, "new", &[Object(d), Small(fields), Registered]);
    } else {
        push_words(line, "new", &[Object(d), Small(fields)]);
    }
}

// Appends an `hnew`.
fn push_hnew(line: &mut Line, d: u8, make: Make, t: u8)
    requires { length line.old + LONGEST_COMMAND ≤ Line.CAPACITY }
    ensures text { line.new ≡ line.old ++ command_text (Cmd.HNew d make t) }
    ensures short { length line.new ≤ length line.old + LONGEST_COMMAND }
{
    let (handle, kind, target) = (Handle(d), OfKind(make.kind()), Object(t));
    match make {
        Make::Short | Make::Long | Make::Strong | Make::Pinned | Make::Counted => {
            push_words(line, "hnew", &[handle, kind, target]);
        }
        Make::Variable(strength) => {
            push_words(line, "hnew", &[handle, kind, target, OfStrength(strength)]);
        }
        Make::Dependent(s) => {
            push_words(line, "hnew", &[handle, kind, target, Object(s)]);
        }
    }
}

// Appends the name of a command and its operand.
fn push_one(line: &mut Line, name: &str, operand: Operand)
    requires name { length name.now ≤ LONGEST_NAME }
    requires room { length line.old + LONGEST_COMMAND ≤ Line.CAPACITY }
    ensures text { line.new
        ≡ line.old ++ join_with_byte 32 (name.now ∷ operand_word operand ∷ []) }
    ensures short { length line.new ≤ length line.old + LONGEST_COMMAND }
{
    push_words(line, name, &[operand]);
}

// Appends the name of a command and its two operands.
fn push_two(line: &mut Line, name: &str, first: Operand, second: Operand)
    requires name { length name.now ≤ LONGEST_NAME }
    requires room { length line.old + LONGEST_COMMAND ≤ Line.CAPACITY }
    ensures text { line.new
        ≡ line.old ++ join_with_byte 32 (name.now ∷ operand_word first ∷ operand_word second ∷ []) }
    ensures short { length line.new ≤ length line.old + LONGEST_COMMAND }
{
    push_words(line, name, &[first, second]);
}

// Appends the words of a command, with a blank between each two.
fn push_words(line: &mut Line, name: &str, operands: &[Operand])
    requires name { length name.now ≤ LONGEST_NAME }
    requires few { length operands.now ≤ 4 }
    requires room { length line.old + LONGEST_COMMAND ≤ Line.CAPACITY }
    ensures text { line.new
        ≡ line.old ++ join_with_byte 32 (name.now ∷ map operand_word operands.now) }
    ensures short { length line.new ≤ length line.old + LONGEST_COMMAND }
{
    line.push_str(name);
    for operand in operands {
        push_operand(line, *operand);
    }
}

// Appends a blank and a word after the name of a command.
fn push_operand(line: &mut Line, operand: Operand)
    requires { length line.old + LONGEST_OPERAND ≤ Line.CAPACITY }
    ensures text { line.new ≡ line.old ++ 32 ∷ operand_word operand }
    ensures short { length line.new ≤ length line.old + LONGEST_OPERAND }
{
    line.push_str(" ");
    match operand {
        Object(d) => {
            line.push_str("r");
            line.push_number(d);
        }
        Handle(d) => {
            line.push_str("h");
            line.push_number(d);
        }
        Small(n) => line.push_number(n),
        Number(n) => line.push_number(n),
        OfStrength(strength) => line.push_str(strength_name(strength)),
        OfKind(kind) => line.push_str(kind_name(kind)),
        Registered => line.push_str("fin"),
    }
}

/// The word for a strength of a variable handle.
pub fn strength_name(strength: Strength) -> &'static str
    ensures word { result.now ≡ strength_word strength }
    ensures short { length result.now ≤ 6 }
{
    match strength {
        Strength::Short => "short",
        Strength::Long => "long",
        Strength::Strong => "strong",
        Strength::Pinned => "pinned",
    }
}

/// The word for a kind of handle.
pub fn kind_name(kind: Kind) -> &'static str
    ensures word { result.now ≡ kind_name kind }
    ensures short { length result.now ≤ 6 }
{
    match kind {
        Kind::Short => "short",
        Kind::Long => "long",
        Kind::Strong => "strong",
        Kind::Pinned => "pinned",
        Kind::Variable => "var",
        Kind::Counted => "ref",
        Kind::Dependent => "dep",
    }
}
