// The texts of replies.
ghost use Rattle.std.specs.Prelude.{◌≡◌, ◌+◌, ◌≤◌, ◌++◌, length};
ghost use Rattle.hd_model.specs.Text.{reply_text, refusal_text, identity_text, report_text};

use crate::line::Line;
use hd_model::{Id, Refusal, Reply, Report};

// The bytes of the longest identity: two numbers of ten digits and a dot.
const LONGEST_IDENTITY: usize = 21;

// The bytes of the longest reply: a report of six numbers of ten digits, with their words.
const LONGEST_REPLY: usize = 101;

/// Appends an identity as its caller and its serial.
pub(crate) fn push_identity(line: &mut Line, id: Id)
    requires { length line.old + LONGEST_IDENTITY ≤ Line.CAPACITY }
    ensures text { line.new ≡ line.old ++ identity_text id }
    ensures short { length line.new ≤ length line.old + LONGEST_IDENTITY }
{
    let caller = (id.0 >> 32) as u32;
    let serial = (id.0 & 0xffff_ffff) as u32;
    line.push_count(caller);
    line.push_str(".");
    line.push_number(serial);
}

// Appends what a collection did.
fn push_report(line: &mut Line, report: Report)
    requires { length line.old + LONGEST_REPLY ≤ Line.CAPACITY }
    ensures text { line.new ≡ line.old ++ report_text report }
    ensures short { length line.new ≤ length line.old + LONGEST_REPLY }
{
    line.push_str("kept ");
    line.push_count(report.kept);
    line.push_str(" removed ");
    line.push_count(report.removed);
    line.push_str(" short ");
    line.push_count(report.short);
    line.push_str(" long ");
    line.push_count(report.long);
    line.push_str(" dep ");
    line.push_count(report.dep);
    line.push_str(" revived ");
    line.push_count(report.revived);
}

// Appends why a command was refused.
fn push_refusal(line: &mut Line, refusal: Refusal)
    requires { length line.old + LONGEST_REPLY ≤ Line.CAPACITY }
    ensures text { line.new ≡ line.old ++ refusal_text refusal }
    ensures short { length line.new ≤ length line.old + LONGEST_REPLY }
{
    match refusal {
        Refusal::Null => line.push_str("nullref"),
        Refusal::BadField => line.push_str("badfield"),
        Refusal::HeapFull { used, size } => {
            line.push_str("heapfull ");
            line.push_number(used);
            line.push_str(" ");
            line.push_number(size);
        }
        Refusal::TableFull { given } => {
            line.push_str("tablefull ");
            line.push_number(given);
        }
        Refusal::NotLive => line.push_str("notlive"),
        Refusal::WrongKind => line.push_str("wrongkind"),
        Refusal::EmptyRegister => line.push_str("empty"),
        Refusal::CountZero => line.push_str("countzero"),
        Refusal::Present => line.push_str("present"),
    }
}

/// Appends a reply.
pub(crate) fn push_reply(line: &mut Line, reply: Reply)
    requires { length line.old + LONGEST_REPLY ≤ Line.CAPACITY }
    ensures text { line.new ≡ line.old ++ reply_text reply }
    ensures short { length line.new ≤ length line.old + LONGEST_REPLY }
{
    match reply {
        Reply::Done => line.push_str("ok"),
        Reply::Object(id) => {
            line.push_str("obj ");
            push_identity(line, id);
        }
        Reply::Nothing => line.push_str("null"),
        Reply::Value(n) => {
            line.push_str("value ");
            line.push_number(n);
        }
        Reply::Generation(g) => {
            line.push_str("gen ");
            line.push_number(g);
        }
        Reply::Place(p) => {
            line.push_str("addr ");
            line.push_number(p);
        }
        Reply::Report(report) => push_report(line, report),
        Reply::NoneQueued => line.push_str("none"),
        Reply::Absent => line.push_str("absent"),
        Reply::Chain { from, arrows } => {
            line.push_str("root ");
            push_identity(line, from);
            line.push_str(" ");
            line.push_number(arrows);
        }
        Reply::Unrooted => line.push_str("unrooted"),
        Reply::Refused(refusal) => push_refusal(line, refusal),
    }
}

/// A reply, without the end of a line.
pub fn reply_line(reply: Reply) -> Line
    ensures { result ≡ reply_text reply }
{
    let mut line = Line::new();
    push_reply(&mut line, reply);
    line
}
