use hd_gate::Closed;
use hd_world::World;

/// What is kept of a run, if anything was run: the world of one thread, or one that callers in
/// threads shared.
#[derive(Drop)]
pub enum Kept {
    Nothing,
    Alone(World),
    Shared(Closed),
}

/// How a call ended: its status, and what it keeps. The status is 0 after a whole run, or where a
/// text is that of a run, 2 for words that are not valid, 3 for bytes that are no script, 4 for a
/// fault of the source, 5 for one of the sink, 6 where memory ran out, and 7 where a text is not
/// that of a run.
#[derive(Drop)]
pub struct Outcome {
    pub status: u8,
    pub kept: Kept,
}
