// What a walk has found, in the order in which it found it. It is the queue of the walk too.
ghost use Rattle.std.specs.Prelude.{◌≡◌, ◌<◌, [], length, slice_get, Some, IfOk, MatchOption};
ghost use Rattle.hd_walk.specs.Trail.{IsFirstAt, IsNotBefore, IsOnce, IsIndex, before_of, is_found, with_all, with_found};

use indexmap::IndexSet;
use std::alloc::{AllocError, Global};
use std::marker::Model;

/// A found node, and the index of the one before it in its chain. A start has none before it.
#[derive(Clone, Copy)]
pub struct Found {
    pub at: u64,
    pub before: Option<usize>,
}

/// The found nodes, each once.
pub struct Trail {
    nodes: IndexSet<u64>,
    // For each the index of the one before it, and 1; or 0, where there is none.
    marks: Vec<usize>,
}

impl Model for Trail {
    ghost use Rattle.std.specs.Prelude.{List, nat_eq};
    ghost use Rattle.indexmap.specs.IndexSet.{contains};
    ghost use Rattle.hd_walk.specs.declared.trail.Found.{Found};
    ghost use Rattle.hd_walk.specs.{Inside.IsTrail, Trail.found_by};

    ghost Value = { List Found };

    ghost view = { λ t. found_by t.nodes.keys t.marks.items };

    ghost invariant = { λ t. IsTrail t.nodes.keys t.marks.items (contains nat_eq t.nodes) };
}

// Not derived: what a derived one does is proved again wherever a trail is dropped.
impl Drop for Trail {
    fn drop(self) {
        let Trail {
            nodes: _nodes,
            marks: _marks,
        } = self;
    }
}

impl Trail {
    /// Nothing is found yet.
    pub fn open(alloc: Global) -> Trail
        ensures { result ≡ [] }
    {
        Trail {
            nodes: IndexSet::new(alloc),
            marks: Vec::new(alloc),
        }
    }

    /// Takes memory for so many more nodes.
    pub fn reserve(&mut self, more: usize) -> Result<(), AllocError>
        ensures { self.new ≡ self.old }
    {
        self.nodes.reserve(more)?;
        self.marks.reserve(more)
    }

    /// The number of found nodes.
    pub fn len(&self) -> usize
        ensures value { result ≡ length self.now }
        ensures once { IsOnce self.now }
    {
        self.marks.len()
    }

    /// Found node `i`, from 0.
    pub fn get(&self, i: usize) -> Found
        requires { i < length self.now }
        ensures { slice_get self.now i ≡ Some result }
    {
        Found {
            at: self.nodes.as_slice()[i],
            before: before_of(self.marks[i]),
        }
    }

    /// Whether a node is found.
    pub fn has(&self, at: u64) -> bool
        ensures { result ≡ is_found self.now at }
    {
        self.nodes.contains(&at)
    }

    /// The index of a node, if it is found. It takes time by the number of found nodes.
    pub fn index_of(&self, at: u64) -> Option<usize>
        ensures { MatchOption result (IsNotBefore self.now at (length self.now))
            (IsFirstAt self.now at) }
    {
        for i in 0..self.len() {
            if self.get(i).at == at {
                return Some(i);
            }
        }
        None
    }

    // Takes memory for three times as many nodes more, where none is left: copies are rare then.
    fn make_room(&mut self) -> Result<(), AllocError>
        ensures { self.new ≡ self.old }
    {
        let count = self.marks.len();
        if count == self.marks.capacity() {
            self.reserve(count.saturating_mul(3))?;
        }
        Ok(())
    }

    // Adds a node, if it is not among the found ones.
    fn add(&mut self, at: u64, mark: usize) -> Result<(), AllocError>
        ensures { IfOk result (λ _. self.new ≡ with_found self.old at (before_of mark)) }
    {
        self.make_room()?;
        self.marks.reserve(1)?;
        match self.nodes.insert(at) {
            Ok(true) => self.marks.push_reserved(mark),
            Ok(false) => {}
            Err(_) => return Err(AllocError),
        }
        Ok(())
    }

    /// Adds those nodes that are not among the found ones, in turn.
    pub fn add_all(&mut self, nodes: &[u64], before: Option<usize>) -> Result<(), AllocError>
        requires { IsIndex before }
        ensures { IfOk result (λ _. self.new ≡ with_all self.old nodes.now before) }
    {
        let mark = mark_of(before);
        for at in nodes {
            self.add(*at, mark)?;
        }
        Ok(())
    }
}

// The one before a node, by its mark.
fn before_of(mark: usize) -> Option<usize>
    ensures { result ≡ before_of mark }
{
    mark.checked_sub(1)
}

// The mark of a node, by the one before it.
fn mark_of(before: Option<usize>) -> usize
    requires { IsIndex before }
    ensures { before_of result ≡ before }
{
    match before {
        Some(i) => i + 1,
        None => 0,
    }
}
