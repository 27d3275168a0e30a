//! The rule of the table, whose words `words` numbers. Its one slot has the world.
use crate::view::View;
use atomic_table::{Seat, Table, TableRule};
use hd_model::Held;
use std::alloc::Global;
use std::snapshot::Snapshot;

/// What holds between any two steps. No value of it is made.
pub struct Law;

impl<W: Held> TableRule<Option<W>, View<W>, Snapshot<W>> for Law {
    ghost use Rattle.hd_custody.specs.Views.{starting};
    ghost use Rattle.hd_custody.specs.Rule.{Custodied};

    ghost holds = { λ about s. Custodied W.Held (W.numbers about.value) s };

    ghost first = { λ about. starting (W.spare about.value) (W.numbers about.value) };
}

pub(crate) type Board<W> = Table<Option<W>, View<W>, Snapshot<W>, Law, Global>;

pub(crate) type TableSeat<W> = Seat<Option<W>, View<W>>;
