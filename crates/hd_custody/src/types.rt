use crate::rule::{Board, TableSeat};
use crate::waiting::WaitWords;
use hd_model::Held;
use std::marker::Model;

/// A seat that has not ended, as the steps of a call change it. Contracts see the table, what its
/// caller knows, and what it has taken out of the table's slot.
#[derive(Drop)]
pub(crate) struct ActingSeat<W: Held> {
    pub(crate) inner: TableSeat<W>,
}

impl<W: Held> Model for ActingSeat<W> {
    ghost use Rattle.std.specs.Prelude.{◌≡◌, false};
    ghost use Rattle.hd_custody.specs.Views.{Acting};

    ghost Value = { Acting W };

    ghost view = { λ c.
        record { table = c.inner.table_id; view = c.inner.me.0; out = c.inner.me.1 } };

    ghost invariant = { λ c. c.inner.me.0.is_spent ≡ false };
}

/// A caller's token at a table. It has no bytes. Contracts see the table and what the caller knows.
#[derive(Drop)]
pub struct Seat<W: Held> {
    pub(crate) caller: ActingSeat<W>,
}

impl<W: Held> Model for Seat<W> {
    ghost use Rattle.hd_custody.specs.{Views.Known, Inside.IsSeated};

    ghost Value = { Known W };

    ghost view = { λ s. record { table = s.caller.table; view = s.caller.view } };

    ghost invariant = { λ s. IsSeated (s.caller.view, s.caller.out) };
}

/// The words that callers share, and the world under its gate. Contracts see the table, its number
/// of blocks, and the numbers of the world.
#[derive(Drop)]
pub struct Custody<W: Held> {
    pub(crate) table: Board<W>,
    pub(crate) blocks: u32,
    // No words of the table: what callers who wait look at and sleep on.
    pub(crate) waits: WaitWords,
}

impl<W: Held> Model for Custody<W> {
    ghost use Rattle.std.specs.Prelude.{◌≡◌, ◌≤◌};
    ghost use Rattle.hd_model.specs.declared.limits.TheConstants.{BLOCKS};
    ghost use Rattle.hd_custody.specs.declared.words.TheConstants.{WORDS};
    ghost use Rattle.hd_custody.specs.Views.{Named};

    ghost Value = { Named };

    ghost view = { λ c. record {
      table = c.table.shared.table_id;
      blocks = c.blocks;
      numbers = W.numbers c.table.shared.key.value;
    } };

    ghost invariant = { λ c. (c.table.shared.table_id.words ≡ WORDS)
        × (c.table.shared.table_id.slots ≡ 1)
        × (1 ≤ c.blocks) × (c.blocks ≤ BLOCKS) };
}
