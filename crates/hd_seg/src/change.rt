ghost use Rattle.std.specs.Prelude.{◌≡◌, true, IsSome};
ghost use Rattle.std.specs.FinMap.{get};
ghost use Rattle.hd_model.specs.Table.{fits, live_at};
ghost use Rattle.hd_model.specs.Handles.{extra_of};
ghost use Rattle.hd_seg.specs.Row.{handle_of};
ghost use Rattle.hd_seg.specs.Rewriting.{Rewrites};

use crate::row::Row;
use crate::seg::Seg;
use hd_model::Slot;

/// Gives a live row another target and another extra.
pub fn rewrite_row(seg: &mut Seg, slot: Slot, row: Row)
    requires live { IsSome (get seg.old.rows slot.0) }
    requires fitting { fits (live_at seg.old slot.0).kind (extra_of row.extra) ≡ true }
    ensures { Rewrites slot.0 (handle_of (live_at seg.old slot.0).kind row) seg.old seg.new }
{
    // In this order the index of the extra is found once where a caller has read it before.
    seg.set_extra(slot, row.extra);
    seg.set_row(slot, row.target);
}
