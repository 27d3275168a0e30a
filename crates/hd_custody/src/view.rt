use hd_model::Entry;
use std::collections::LinkedList;

/// The numbers of a run: cells of the heap, blocks, callers. No value of it is made.
pub struct Limits {
    pub heap: u64,
    pub blocks: u64,
    pub callers: u64,
}

/// What a seat knows. No value of it is made: it exists in the proofs alone.
pub struct View<W> {
    /// Whether it was joined into another seat's view.
    pub is_spent: bool,
    /// The number of the caller.
    pub number: u64,
    /// The caller's own entries of the journal.
    pub part: LinkedList<Entry>,
    /// How many entries it may still add.
    pub room: u64,
    /// The whole journal, as it was when this seat last took the gate or gave it back.
    pub seen: LinkedList<Entry>,
    /// The numbers of the seats that were joined to it, with the part of each and what it had seen.
    pub ended: LinkedList<(u64, LinkedList<Entry>, LinkedList<Entry>)>,
    /// How many seats were made. Only seat 0 knows it.
    pub made: u64,
    /// The numbers of the world.
    pub limits: Limits,
    pub has_gate: bool,
    /// How often it won the gate or gave it back.
    pub gate_steps: u64,
    /// The world as it took it, while it has the gate.
    pub taken: Option<W>,
    /// The kind words that it stored since, each with its block, the last one first.
    pub changes: LinkedList<(u64, u64)>,
    /// The slots that only this seat may use, each with its block's kind word, or with 0 while it
    /// has not loaded that.
    pub held: LinkedList<(u64, u64)>,
    /// The steps of the last `allocate`, `release` or `gather`: the word, what was found, what is
    /// there after.
    pub trace: LinkedList<(u64, u64, u64)>,
    /// How many such calls there were.
    pub trace_number: u64,
    /// Whether no slot was held as the last of them began.
    pub began_empty: bool,
    /// Whether it had the gate then.
    pub began_with_gate: bool,
}
