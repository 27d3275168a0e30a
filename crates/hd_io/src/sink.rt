// Where bytes go.
ghost use Rattle.std.specs.Prelude.{◌<◌, ◌≤◌, length, take, IfOk, OnOk, OnErr};
ghost use Rattle.hd_io.specs.Sink.{SinkView, Took, WriteFailed, WriteBrokeOff};

use crate::Failed;

/// Takes bytes, a piece at a time. A write that failed has added nothing.
pub trait Sink {
    /// What is written so far, where the sink states it, and how many writes have failed.
    ghost seen: { Self → SinkView };

    /// Takes the first bytes of the piece, at least one, and returns how many.
    fn write(&mut self, piece: &[u8]) -> Result<usize, Failed>
        requires { 0 < length piece.now }

        ensures some { IfOk result (λ n. 0 < n) }
        ensures count { IfOk result (λ n. n ≤ length piece.now) }
        ensures took { IfOk result (λ n. Took (seen self.old) (seen self.new) (take n piece.now)) }
        ensures err { OnErr result (WriteFailed (seen self.old) (seen self.new)) };
}

/// Writes the whole piece, by as many writes as the sink needs, and takes no memory. A write that
/// failed is its last.
#[tactic(auto, using(crate::proofs::SinkPieces::in_parts))]
pub fn write_all<K: Sink>(sink: &mut K, piece: &[u8]) -> Result<(), Failed>
    ensures all { OnOk result (Took (K.seen sink.old) (K.seen sink.new) piece.now) }
    ensures broke_off { OnErr result
        (WriteBrokeOff (K.seen sink.old) (K.seen sink.new) piece.now) }
{
    let mut done = 0;
    while done < piece.len() {
        done += sink.write(&piece[done..])?;
    }
    Ok(())
}
