// What values of calls come to as results of commands.
ghost use Rattle.std.specs.Prelude.{◌≡◌};
ghost use Rattle.hd_commands.specs.Done.{done_with};
ghost use Rattle.hd_store.specs.Replies.{done_trimming, found_reply, removed_reply, root_reply};

use crate::collection_calls::Root;
use crate::entry_calls::Lookup;
use hd_commands::{CommandResult, Done, load_reply};
use hd_model::{Grown, Refusal, Reply};

/// What a `cfind` comes to.
#[inline(always)]
pub(crate) fn finding(came: Result<Lookup, Refusal>) -> CommandResult
    ensures { result ≡ done_with found_reply came }
{
    match came? {
        Lookup::Value(id) => Ok(Done::of(load_reply(id))),
        Lookup::Absent => Ok(Done::of(Reply::Absent)),
    }
}

/// What a `cremove` comes to.
#[inline(always)]
pub(crate) fn removing(came: Result<bool, Refusal>) -> CommandResult
    ensures { result ≡ done_with removed_reply came }
{
    if came? {
        return Ok(Done::of(Reply::Done));
    }
    Ok(Done::of(Reply::Absent))
}

/// What a `gcroot` comes to.
#[inline(always)]
pub(crate) fn rooting(came: Result<Option<Root>, Refusal>) -> CommandResult
    ensures { result ≡ done_with root_reply came }
{
    match came? {
        Some(Root { from, arrows }) => Ok(Done::of(Reply::Chain { from, arrows })),
        None => Ok(Done::of(Reply::Unrooted)),
    }
}

/// What a `trim` comes to.
#[inline(always)]
pub(crate) fn trimming(grown: Grown) -> Done
    ensures { result ≡ done_trimming grown }
{
    let blocks = match grown {
        Grown::Back(_) => 1,
        Grown::Zero | Grown::One(_) | Grown::Two(_, _) => 0,
    };
    Done {
        grown,
        ..Done::of(Reply::Value(blocks))
    }
}
