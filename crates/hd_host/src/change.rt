ghost use Rattle.std.specs.Prelude.{◌≡◌};
ghost use Rattle.hd_host.specs.Changes.{change_by};

use hd_model::{Grown, Slot};

/// What a call did to slots and blocks, each or none.
#[derive(Clone, Copy, Debug, PartialEq, Eq)]
pub struct Change {
    /// The slot that it gave or freed.
    pub slot: Option<Slot>,
    /// The block by which the table grew.
    pub block: Option<u32>,
    /// The block for the extra data of its handles.
    pub data_block: Option<u32>,
    /// The block that was given back.
    pub given_back: Option<u32>,
    /// The block that had the extra data of its handles.
    pub data_given_back: Option<u32>,
}

impl Change {
    // That of a call that gave or freed a slot, or none, and took or gave back blocks.
    pub(crate) fn by(slot: Option<Slot>, grown: Grown) -> Change
        ensures { result ≡ change_by slot grown }
    {
        let (block, data_block, given_back) = match grown {
            Grown::Zero => (None, None, None),
            Grown::One(block) => (Some(block), None, None),
            Grown::Two(block, data_block) => (Some(block), Some(data_block), None),
            Grown::Back(block) => (None, None, Some(block)),
        };
        Change {
            slot,
            block,
            data_block,
            given_back,
            data_given_back: None,
        }
    }
}
