// An entry of the weak table, as callers of a store see it.

use hd_model::Id;

/// An entry of the weak table: its key, and the value attached to it, or null.
#[derive(Clone, Copy, Debug, PartialEq, Eq)]
pub struct EntryInfo {
    pub key: Id,
    pub value: Option<Id>,
}
