// Blocks that are given back, of every kind.
ghost use Rattle.std.specs.Prelude.{◌≡◌, ◌≤◌, ◌∷◌, [], true, false, ℕ, IsSome, IfSome, MatchOption};
ghost use Rattle.hd_model.specs.{Kinds.is_paired, State.given_of, State.use_of};
ghost use Rattle.hd_seg.specs.Given.{HasNoneGiven, IsNextGiven};
ghost use Rattle.hd_store.specs.Spare.{GivesBackPair, IsSpare};
ghost use Rattle.hd_host.specs.Changes.{change_back, no_change};
ghost use Rattle.hd_host.specs.Turns.{IsAsItWasButLast, TrimsAll, TrimsBlock, TrimsBy, TrimsRow};

use crate::change::Change;
use crate::host::Host;
use hd_model::Kind;
use hd_model::limits::HOST_BLOCKS;

impl Host {
    /// Gives back the least spare block of the kind, one whose slots are all free or idle in the
    /// weak table, and the data block that it has, if its kind has extra data. It returns how many
    /// blocks that were: 0 where none is spare.
    pub fn trim_block(&mut self, kind: Kind) -> u32
        ensures does { TrimsBlock self.old kind result self.new }
        ensures contexts { self.new.machine.numbers.callers ≡ self.old.machine.numbers.callers }
    {
        if kind.paired() {
            self.trim_pair(kind)
        } else {
            self.trim(kind)
        }
    }

    /// Gives back all spare blocks, kind by kind, and returns how many there were with their data
    /// blocks. It goes over the blocks with a use once for each kind with extra data.
    pub fn trim_all(&mut self) -> u32
        ensures does { TrimsAll self.old result self.new }
        ensures contexts { self.new.machine.numbers.callers ≡ self.old.machine.numbers.callers }
    {
        let before = self.given();
        for kind in Kind::ALL {
            self.trim_kind(kind);
        }
        before - self.given()
    }

    // Gives back all spare blocks of a kind.
    fn trim_kind(&mut self, kind: Kind)
        ensures { TrimsRow (kind ∷ []) self.old self.new }
    {
        if kind.paired() {
            self.trim_pairs(kind);
        } else {
            self.trim_plain(kind);
        }
    }

    // The same, of a kind without extra data.
    fn trim_plain(&mut self, kind: Kind)
        requires { is_paired kind ≡ false }
        ensures { TrimsRow (kind ∷ []) self.old self.new }
    {
        'trims: loop {
            let given = self.trim(kind);
            if given == 0 {
                return;
            }
        }
    }

    // The same, of a kind with extra data, in one pass over the blocks with a use.
    fn trim_pairs(&mut self, kind: Kind)
        requires { is_paired kind ≡ true }
        ensures { TrimsRow (kind ∷ []) self.old self.new }
    {
        let mut before = 0;
        while let Some(block) = self.next_given(before + 1) {
            if self.is_spare(kind, block) {
                self.give_back(kind, block);
            }
            before = block;
        }
        self.keep_blocks();
    }

    // Gives back the least spare block of a kind with extra data.
    fn trim_pair(&mut self, kind: Kind) -> u32
        requires { is_paired kind ≡ true }
        ensures does { TrimsBy true self.old kind result self.new }
        ensures contexts { self.new.machine.numbers.callers ≡ self.old.machine.numbers.callers }
    {
        match self.store.spare_block(kind) {
            Some(block) => {
                self.give_back(kind, block);
                2
            }
            None => {
                self.keep_blocks();
                0
            }
        }
    }

    // Gives back a spare block of a kind with extra data, and returns its data block.
    fn give_back(&mut self, kind: Kind, block: u32) -> u32
        requires paired { is_paired kind ≡ true }
        requires spare { IsSpare self.old.machine.state kind block }
        ensures gives { GivesBackPair self.old.machine block result self.new.machine }
        ensures after { let last = change_back block result in
            self.new ≡ record self.old { machine = self.new.machine; last = last } }
    {
        let data = self.store.give_back_pair(kind, block);
        // Read for the proof alone: the store is sound.
        let _sound = self.store.contents();
        self.pool.remove_block(block);
        self.last.put(Change {
            slot: None,
            block: None,
            data_block: None,
            given_back: Some(block),
            data_given_back: Some(data),
        });
        data
    }

    // No block is given back.
    fn keep_blocks(&mut self)
        ensures same { IsAsItWasButLast self.old self.new }
        ensures last { self.new.last ≡ no_change }
    {
        self.last.clear();
    }

    // How many blocks are in use.
    fn given(&self) -> u32
        ensures { result ≡ given_of self.now.machine.state }
    {
        self.store.contents().given()
    }

    // The least block from one on that has a use. Block 0 has none.
    fn next_given(&self, from: u32) -> Option<u32>
        requires { 1 ≤ from }
        ensures next { let uses = self.now.machine.state.blocks in
            MatchOption result (HasNoneGiven uses from) (IsNextGiven uses from) }
        ensures within { IfSome result (λ block. block ≤ self.now.machine.numbers.blocks) }
        ensures few { self.now.machine.numbers.blocks ≤ HOST_BLOCKS }
        ensures first { (block : ℕ) → IsSome (use_of self.now.machine.state block) → 1 ≤ block }
    {
        self.store.contents().next_given(from)
    }

    fn is_spare(&self, kind: Kind, block: u32) -> bool
        requires { block ≤ HOST_BLOCKS }
        ensures spare { result ≡ true → IsSpare self.now.machine.state kind block }
        ensures other { result ≡ false → ¬ (IsSpare self.now.machine.state kind block) }
    {
        self.store.is_spare(kind, block)
    }
}
