// The script of a load, which is generated and not read.
ghost use Rattle.std.specs.Prelude.{◌≡◌, ◌≤◌, ◌<◌, ◌++◌, IfOk, OnOk};
ghost use Rattle.hd_model.specs.Generated.{collection_after, round_of, generated_list, generated_lists};
ghost use Rattle.hd_script.specs.Lists.{contents};

use crate::scripts::Scripts;
use hd_model::limits::{LOAD_CALLERS, MOST_ROUNDS, ROUNDS_TO_COLLECTION};
use hd_model::{Cmd, Make, Memory, Strength};
use std::alloc::{AllocError, Global};

// The handles that the rounds make in turn.
const MAKES: [Make; 6] = [
    Make::Strong,
    Make::Pinned,
    Make::Short,
    Make::Long,
    Make::Dependent(0),
    Make::Variable(Strength::Strong),
];

/// The script of a load: four callers that each make, use and free a handle a round, for `rounds`
/// rounds from 1 to 3,000, with a collection every 16 of them.
pub fn generate(alloc: Global, rounds: u32) -> Result<Scripts, Memory>
    requires some { 1 ≤ rounds }
    requires most { rounds ≤ MOST_ROUNDS }
    ensures { IfOk result (λ scripts. scripts ≡ generated_lists rounds) }
{
    match all_lists(alloc, rounds) {
        Ok(lists) => Ok(Scripts::from_lists(lists)),
        Err(_) => Err(Memory),
    }
}

// The list of each caller.
fn all_lists(alloc: Global, rounds: u32) -> Result<Vec<Vec<Cmd>>, AllocError>
    requires { rounds ≤ MOST_ROUNDS }
    ensures { IfOk result (λ lists. contents lists.items ≡ generated_lists rounds) }
{
    let mut lists = Vec::new(alloc);
    for caller in 0..LOAD_CALLERS {
        lists.push(list_of(alloc, caller, rounds)?)?;
    }
    Ok(lists)
}

// The commands of a caller.
fn list_of(alloc: Global, caller: u32, rounds: u32) -> Result<Vec<Cmd>, AllocError>
    requires caller { caller < LOAD_CALLERS }
    requires rounds { rounds ≤ MOST_ROUNDS }
    ensures { IfOk result (λ list. list.items ≡ generated_list rounds caller) }
{
    let mut list = Vec::new(alloc);
    for done in 0..rounds {
        push_round(&mut list, caller, done + 1)?;
    }
    Ok(list)
}

// Appends the commands of a caller in one round.
fn push_round(list: &mut Vec<Cmd>, caller: u32, round: u32) -> Result<(), AllocError>
    requires caller { caller < LOAD_CALLERS }
    requires round { round ≤ MOST_ROUNDS }
    ensures { OnOk result (list.new.items ≡ list.old.items ++ round_of caller round) }
{
    list.extend_from_slice(&round_commands(caller, round))?;
    if round % ROUNDS_TO_COLLECTION == 0 {
        let n = (round % 3) as u8;
        list.push(Cmd::Collect { n })?;
    }
    Ok(())
}

// The commands of a caller in one round, without the collection after it.
fn round_commands(caller: u32, round: u32) -> [Cmd; 8]
    requires caller { caller < LOAD_CALLERS }
    requires round { round ≤ MOST_ROUNDS }
    ensures { round_of caller round ≡ result ++ collection_after round }
{
    [
        Cmd::New {
            d: 0,
            fields: ((caller + round) % 8) as u8,
            fin: false,
        },
        Cmd::HNew {
            d: 0,
            make: MAKES[(round % 6) as usize],
            t: 0,
        },
        Cmd::Val {
            o: 0,
            n: u64::from(round),
        },
        Cmd::HGet { d: 1, s: 0 },
        Cmd::Read { o: 0 },
        Cmd::Clear { d: 0 },
        Cmd::Clear { d: 1 },
        Cmd::HFree { s: 0 },
    ]
}
