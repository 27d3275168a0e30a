ghost use Rattle.std.specs.Prelude.{◌≡◌, ◌+◌, ◌<◌, ◌≤◌, max, [], ◌∷◌, ◌++◌, length, sum_by, slice_get, slice_index_or, slice_set, Some, IfOk, OnOk};
ghost use Rattle.hd_model.specs.Valid.{IsValid};
ghost use Rattle.hd_model.specs.Grammar.{AreLists};
ghost use Rattle.hd_script.specs.{Lists.contents, Inside.IsOpened};

use hd_model::Cmd;
use hd_model::limits::{CALLERS, MOST_COMMANDS};
use std::alloc::{AllocError, Global};
use std::marker::Model;

/// The commands of a script: a list for each of its 1 to 16 callers, at most 100,000 in all.
#[derive(Drop)]
pub struct Scripts {
    lists: Vec<Vec<Cmd>>,
    total: u32,
}

impl Model for Scripts {
    ghost use Rattle.std.specs.Prelude.{List};
    ghost use Rattle.hd_model.specs.declared.command.Cmd.{Cmd};
    ghost use Rattle.hd_script.specs.{Lists.contents, Inside.AreCounted};

    ghost Value = { List (List Cmd) };

    ghost view = { λ s. contents s.lists.items };

    ghost invariant = { λ s. AreCounted (contents s.lists.items) s.total };
}

impl Scripts {
    /// The number of callers.
    pub fn callers(&self) -> u32
        ensures value { result ≡ length self.now }
        ensures least { 1 ≤ result }
        ensures most { result ≤ CALLERS }
        ensures lists { AreLists self.now }
    {
        self.lists.len() as u32
    }

    /// The number of commands of a caller.
    pub fn len(&self, caller: u32) -> u32
        requires { caller < length self.now }
        ensures value { result ≡ length (slice_index_or self.now caller []) }
        ensures most { result ≤ MOST_COMMANDS }
    {
        self.lists[caller as usize].len() as u32
    }

    /// The command of a caller at an index, from 0.
    pub fn cmd(&self, caller: u32, i: u32) -> Cmd
        requires caller { caller < length self.now }
        requires index { i < length (slice_index_or self.now caller []) }
        ensures value { slice_get (slice_index_or self.now caller []) i ≡ Some result }
        ensures valid { IsValid result }
    {
        self.lists[caller as usize][i as usize]
    }

    /// The number of commands of all callers.
    pub fn total(&self) -> u32
        ensures value { result ≡ sum_by length self.now }
        ensures most { result ≤ MOST_COMMANDS }
    {
        self.total
    }

    /// The scripts with these lists, which are those of a script.
    pub(crate) fn from_lists(lists: Vec<Vec<Cmd>>) -> Scripts
        requires { AreLists (contents lists.items) }
        ensures { result ≡ contents lists.items }
    {
        let total = count(&lists);
        Scripts { lists, total }
    }

    /// One caller without commands.
    pub(crate) fn new(alloc: Global) -> Result<Scripts, AllocError>
        ensures empty { IfOk result (λ s. s ≡ [] ∷ []) }
        ensures lists { IfOk result AreLists }
    {
        let mut lists = Vec::new(alloc);
        lists.push(Vec::new(alloc))?;
        Ok(Scripts { lists, total: 0 })
    }

    /// Makes `caller` one of the callers, and each one below it.
    pub(crate) fn open(&mut self, alloc: Global, caller: u8) -> Result<(), AllocError>
        requires { caller < CALLERS }
        ensures lists { AreLists self.new }
        ensures total { sum_by length self.new ≡ sum_by length self.old }
        ensures opened { OnOk result (IsOpened self.old self.new (caller + 1)) }
    {
        pad(alloc, &mut self.lists, caller as usize + 1)
    }

    /// Appends a command to a caller's list.
    pub(crate) fn add(&mut self, caller: u8, cmd: Cmd) -> Result<(), AllocError>
        requires caller { caller < length self.old }
        requires valid { IsValid cmd }
        requires room { sum_by length self.old < MOST_COMMANDS }
        ensures lists { AreLists self.new }
        ensures added { OnOk result (self.new
            ≡ slice_set self.old caller (slice_index_or self.old caller [] ++ cmd ∷ [])) }
    {
        self.lists[caller as usize].push(cmd)?;
        self.total += 1;
        Ok(())
    }
}

// Appends empty lists until there are `callers` of them.
fn pad(alloc: Global, lists: &mut Vec<Vec<Cmd>>, callers: usize) -> Result<(), AllocError>
    requires callers { callers ≤ CALLERS }
    requires lists { AreLists (contents lists.old.items) }
    ensures lists { AreLists (contents lists.new.items) }
    ensures total { sum_by length (contents lists.new.items)
        ≡ sum_by length (contents lists.old.items) }
    ensures opened { OnOk result
        (IsOpened (contents lists.old.items) (contents lists.new.items) callers) }
{
    while lists.len() < callers {
        lists.push(Vec::new(alloc))?;
    }
    Ok(())
}

// The number of commands of all lists.
fn count(lists: &[Vec<Cmd>]) -> u32
    requires { AreLists (contents lists.now) }
    ensures { result ≡ sum_by length (contents lists.now) }
{
    let mut total = 0;
    for list in lists {
        total += list.len() as u32;
    }
    total
}
