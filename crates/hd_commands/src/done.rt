// What a command returns, and its entry.
ghost use Rattle.std.specs.Prelude.{◌≡◌, Some, None};
ghost use Rattle.hd_model.specs.declared.data.Grown.TheVariants.{Zero};
ghost use Rattle.hd_model.specs.declared.data.Reply.TheVariants as reply;
ghost use Rattle.hd_model.specs.Command.{load_reply};
ghost use Rattle.hd_commands.specs.Done.{done_freeing, done_making, done_of, done_with, entry_by, queued_reply, replied};

use hd_model::{Cmd, Entry, Grown, Id, Refusal, Reply, Slot};

/// What a command that is not refused returns: its reply, the slot that it gives or frees, and the
/// blocks by which the table grows.
#[derive(Clone, Copy)]
pub struct Done {
    pub reply: Reply,
    pub slot: Option<Slot>,
    pub grown: Grown,
}

impl Done {
    /// That of a command that gives and frees no slot.
    pub fn of(reply: Reply) -> Done
        ensures { result ≡ replied reply }
    {
        Done {
            reply,
            slot: None,
            grown: Grown::Zero,
        }
    }

    /// Done, with a slot.
    pub fn in_slot(slot: Slot, grown: Grown) -> Done
        ensures { result ≡ record { reply = reply.Done; slot = Some slot; grown = grown } }
    {
        Done {
            reply: Reply::Done,
            slot: Some(slot),
            grown,
        }
    }
}

/// What a command comes to.
pub type CommandResult = Result<Done, Refusal>;

/// The reply of a load: the object, or null.
#[inline(always)]
pub fn load_reply(id: Option<Id>) -> Reply
    ensures { result ≡ load_reply id }
{
    match id {
        Some(id) => Reply::Object(id),
        None => Reply::Nothing,
    }
}

/// The reply of a `final`: the object that left the queue.
#[inline(always)]
pub fn queued_reply(id: Option<Id>) -> Reply
    ensures { result ≡ queued_reply id }
{
    match id {
        Some(id) => Reply::Object(id),
        None => Reply::NoneQueued,
    }
}

/// What a command comes to that returns nothing.
#[inline(always)]
pub fn plainly(came: Result<(), Refusal>) -> CommandResult
    ensures { result ≡ done_with (λ _. reply.Done) came }
{
    came?;
    Ok(Done::of(Reply::Done))
}

/// What a load comes to.
#[inline(always)]
pub fn loading(came: Result<Option<Id>, Refusal>) -> CommandResult
    ensures { result ≡ done_with load_reply came }
{
    Ok(Done::of(load_reply(came?)))
}

/// What a command comes to that returns a value.
#[inline(always)]
pub fn reading(came: Result<u64, Refusal>) -> CommandResult
    ensures { result ≡ done_with reply.Value came }
{
    Ok(Done::of(Reply::Value(came?)))
}

/// What a command comes to that returns a count.
#[inline(always)]
pub fn counting(came: Result<u32, Refusal>) -> CommandResult
    ensures { result ≡ done_with reply.Value came }
{
    Ok(Done::of(Reply::Value(u64::from(came?))))
}

/// What a `gen` comes to.
#[inline(always)]
pub fn aging(came: Result<u8, Refusal>) -> CommandResult
    ensures { result ≡ done_with reply.Generation came }
{
    Ok(Done::of(Reply::Generation(came?)))
}

/// What a `new` comes to.
#[inline(always)]
pub fn made(came: Result<Id, Refusal>) -> CommandResult
    ensures { result ≡ done_with reply.Object came }
{
    Ok(Done::of(Reply::Object(came?)))
}

/// What an `addr` comes to.
#[inline(always)]
pub fn addressing(came: Result<u32, Refusal>) -> CommandResult
    ensures { result ≡ done_with reply.Place came }
{
    Ok(Done::of(Reply::Place(came?)))
}

/// What an `hnew` comes to.
#[inline(always)]
pub fn making(came: Result<(Slot, Grown), Refusal>) -> CommandResult
    ensures { result ≡ done_making came }
{
    let (slot, grown) = came?;
    Ok(Done::in_slot(slot, grown))
}

/// What an `hfree` comes to.
#[inline(always)]
pub fn freeing(came: Result<Slot, Refusal>) -> CommandResult
    ensures { result ≡ done_freeing came }
{
    Ok(Done::in_slot(came?, Grown::Zero))
}

/// The entry of a command of a caller, done or refused.
pub fn entry_of(caller: u32, cmd: Cmd, came: CommandResult) -> Entry
    ensures { result ≡ entry_by caller cmd (done_of came) }
{
    let done = match came {
        Ok(done) => done,
        Err(refusal) => Done::of(Reply::Refused(refusal)),
    };
    Entry {
        caller,
        cmd,
        slot: done.slot,
        grown: done.grown,
        reply: done.reply,
    }
}
