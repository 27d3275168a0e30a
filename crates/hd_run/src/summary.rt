// The line of a load.
ghost use Rattle.std.specs.Prelude.{◌≡◌, ◌^◌, ◌<◌, sum_by};
ghost use Rattle.hd_model.specs.{Generated.load_text_of, Generated.value_returned, Laws.makes_object, Laws.count_entries};

use hd_model::{Cmd, Entry, Journal, Reply};
use hd_print::{Line, load_line};
use hd_world::World;

/// The line of a load that a world ran: its commands, the objects that were made, the live handles,
/// the collections, and the sum of the values that were read.
pub(crate) fn summary(world: &World) -> Line
    requires { sum_by (λ e. value_returned e.reply) world.now.journal < 2 ^ 64 }
    ensures { result ≡ load_text_of world.now.journal world.now.state }
{
    let journal = world.journal();
    load_line(
        journal.len(),
        made(journal),
        world.live(),
        world.collections(),
        sum(journal),
    )
}

// How many objects were made.
fn made(journal: &Journal) -> u32
    ensures { result ≡ count_entries makes_object journal.now.entries }
{
    let mut count = 0;
    for i in 0..journal.len() {
        if makes_object(journal.entry(i)) {
            count += 1;
        }
    }
    count
}

// Whether an entry made an object.
fn makes_object(entry: Entry) -> bool
    ensures { result ≡ makes_object entry.cmd entry.reply }
{
    matches!(
        (entry.cmd, entry.reply),
        (Cmd::New { .. }, Reply::Object(_))
    )
}

// The sum of the values that were read.
fn sum(journal: &Journal) -> u64
    requires { sum_by (λ e. value_returned e.reply) journal.now.entries < 2 ^ 64 }
    ensures { result ≡ sum_by (λ e. value_returned e.reply) journal.now.entries }
{
    let mut sum = 0;
    for i in 0..journal.len() {
        sum += value_returned(journal.entry(i).reply);
    }
    sum
}

// The value that a reply states, or 0.
fn value_returned(reply: Reply) -> u64
    ensures { result ≡ value_returned reply }
{
    match reply {
        Reply::Value(value) => value,
        Reply::Done
        | Reply::Object(_)
        | Reply::Nothing
        | Reply::Generation(_)
        | Reply::Place(_)
        | Reply::Report(_)
        | Reply::NoneQueued
        | Reply::Absent
        | Reply::Chain { .. }
        | Reply::Unrooted
        | Reply::Refused(_) => 0,
    }
}
