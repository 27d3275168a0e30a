// The chain of each kind.
ghost use Rattle.std.specs.Prelude.{◌≡◌, ℕ, ◌+◌, ◌<◌, ◌≤◌, ◌++◌, ◌∷◌, ◌==◌, List, [], Contains, IfOk};
ghost use Rattle.std.specs.Prelude.{MatchResult, filter, length, max, not, replicate};
ghost use Rattle.std.specs.Prelude.{slice_get, slice_index_or, slice_set};
ghost use Rattle.hd_model.specs.Kinds.{kind_number};
ghost use Rattle.hd_seg.specs.Chains.{IsChained, LeadsToSelf, block_in};

use crate::lists::lengthen;
use hd_model::limits::{HOST_BLOCKS, KINDS};
use hd_model::{Kind, Memory, filled};
use std::alloc::Global;
use std::marker::Model;

/// The chain of each kind, as a ring: the node of the kind, and one for each block of the chain.
/// So a block comes and goes in constant time.
#[derive(Drop)]
pub(crate) struct Chains {
    room: u32,
    // By node. Those of the kinds come first.
    next: Vec<u32>,
    previous: Vec<u32>,
}

impl Model for Chains {
    ghost use Rattle.hd_seg.specs.Chains.{ChainLists, IsRings, chain_lists_code, chains_in};

    ghost Value = { ChainLists };

    ghost coded = { chain_lists_code };

    ghost view = { λ c. record { lists = chains_in c.room c.next.items; room = c.room } };

    ghost invariant = { λ c.
        IsRings c.room c.next.items c.previous.items (chains_in c.room c.next.items) };
}

// The block of a node, if it is not the node of a kind.
fn block_in(node: u32) -> Option<u32>
    ensures { result ≡ block_in node }
{
    if node < KINDS {
        None
    } else {
        Some(node - KINDS)
    }
}

// What rings without blocks have: the node of each kind alone.
fn alone(alloc: Global, room: u32) -> Result<Vec<u32>, Memory>
    requires { room ≤ HOST_BLOCKS }
    ensures { IfOk result (λ links. LeadsToSelf room links.items) }
{
    let mut links = filled(alloc, 0, room + KINDS + 1)?;
    for kind in 0..KINDS {
        links[kind as usize] = kind;
    }
    Ok(links)
}

impl Chains {
    /// Empty chains, with room for the blocks up to `room`.
    pub(crate) fn open(alloc: Global, room: u32) -> Result<Chains, Memory>
        requires { room ≤ HOST_BLOCKS }
        ensures { IfOk result (λ chains.
            chains ≡ record { lists = replicate KINDS []; room = room }) }
    {
        let next = alone(alloc, room)?;
        let previous = alone(alloc, room)?;
        Ok(Chains {
            room,
            next,
            previous,
        })
    }

    /// Takes room for the blocks up to `room`.
    pub(crate) fn reserve(&mut self, room: u32) -> Result<(), Memory>
        requires { room ≤ HOST_BLOCKS }
        ensures { MatchResult result
            (λ _. self.new ≡ record self.old { room = max self.old.room room })
            (λ _. self.new ≡ self.old) }
    {
        if room <= self.room {
            return Ok(());
        }
        lengthen(&mut self.next, 0, room + KINDS + 1)?;
        lengthen(&mut self.previous, 0, room + KINDS + 1)?;
        self.room = room;
        Ok(())
    }

    /// Puts a block that is in no chain at the end of one.
    pub(crate) fn push(&mut self, kind: Kind, block: u32)
        requires within { block ≤ self.old.room }
        requires few { length (slice_index_or self.old.lists (kind_number kind) []) < self.old.room }
        requires new { (k : ℕ) → Contains (slice_index_or self.old.lists k []) block → ⊥ }
        ensures { let k = kind_number kind in
            let chain = slice_index_or self.old.lists k [] in
            self.new ≡
            record self.old { lists = slice_set self.old.lists k (chain ++ block ∷ []) } }
    {
        let end = kind.number();
        let last = self.previous[end as usize];
        let node = block + KINDS;
        self.next[last as usize] = node;
        self.previous[node as usize] = last;
        self.next[node as usize] = end;
        self.previous[end as usize] = node;
    }

    /// Takes a block out of its chain.
    pub(crate) fn remove(&mut self, block: u32)
        requires { IsChained self.old.lists block }
        ensures { (k : ℕ) → Contains (slice_index_or self.old.lists k []) block →
            self.new ≡ record self.old {
              lists = slice_set self.old.lists k
                  (filter (λ b. not (b == block)) (slice_index_or self.old.lists k []));
            } }
    {
        let before = self.previous[(block + KINDS) as usize];
        let after = self.next[(block + KINDS) as usize];
        self.next[before as usize] = after;
        self.previous[after as usize] = before;
    }

    /// The first block of a chain.
    pub(crate) fn first(&self, kind: Kind) -> Option<u32>
        ensures { result ≡ slice_get (slice_index_or self.now.lists (kind_number kind) []) 0 }
    {
        block_in(self.next[kind.number() as usize])
    }

    /// The block after a block in its chain.
    pub(crate) fn after(&self, block: u32) -> Option<u32>
        requires { IsChained self.now.lists block }
        ensures { (k : ℕ) (before after : List ℕ) →
            slice_index_or self.now.lists k [] ≡ before ++ block ∷ after →
            result ≡ slice_get after 0 }
    {
        block_in(self.next[(block + KINDS) as usize])
    }
}
