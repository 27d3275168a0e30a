ghost use Rattle.hd_laws.specs.WeakLaws.{FindReturnsWhatIsAttached, AddIsRefusedWhereAttached};
ghost use Rattle.hd_laws.specs.WeakLaws.{RemoveReturnsWhetherAttached, NullKeysAreRefused};
ghost use Rattle.hd_laws.specs.WeakLaws.{WeakSlotsAreNotLive, WeakSlotsStayHeld};
ghost use Rattle.hd_laws.specs.WeakLaws.{TextsLeaveTheWeakTableOut};
ghost use Rattle.hd_model.specs.WeakLaws.{EntriesFollowKeys, EntriesUseNoKey};
ghost use Rattle.hd_model.specs.WeakEntryLaws.{FullTablesLackBlocks, ValuesGoWithKeys};

/// In every run a `cfind` of a key returns the value of the last earlier done `cadd` of that key
/// after which no done `cremove` of it comes, and `Absent` exactly where there is none.
/// Collections do not show in it.
pub fn find_returns_what_is_attached()
    ensures { FindReturnsWhatIsAttached }
{}

/// A `cadd` of a key is refused as `Present` exactly where a value is attached to the key.
pub fn add_is_refused_where_attached()
    ensures { AddIsRefusedWhereAttached }
{}

/// A `cremove` of a key is done where a value is attached to the key, and returns `Absent` where
/// there is none.
pub fn remove_returns_whether_attached()
    ensures { RemoveReturnsWhetherAttached }
{}

/// A `cadd`, a `cfind` and a `cremove` are refused as `Null` where the register of the key is null.
pub fn null_keys_are_refused()
    ensures { NullKeysAreRefused }
{}

/// An entry of the weak table keeps its value exactly as long as its key is kept.
pub fn entries_follow_keys()
    ensures { EntriesFollowKeys }
{}

/// An entry never brings its key into use.
#[tactic(auto, using(hd_model::proofs::EntryKeys::entries_use_no_key))]
pub fn entries_use_no_key()
    ensures { EntriesUseNoKey }
{}

/// In the collection that takes the key of an entry, each object stays exactly where it stays with
/// the entry taken out: what the entry alone kept, as its value may be, is removed with the key.
pub fn values_go_with_keys()
    ensures { ValuesGoWithKeys }
{}

/// A command is refused for a full table only where fewer blocks are unused than it needs, and a
/// `cadd` only where each slot of the weak table has an entry.
pub fn full_tables_lack_blocks()
    ensures { FullTablesLackBlocks }
{}

/// A register with a slot that is the weak table's, say since its handle was freed, is refused as
/// `NotLive` by each command on a handle.
#[tactic(auto, using(crate::proofs::WeakSlotUse::weak_slots_are_not_live))]
pub fn weak_slots_are_not_live()
    ensures { WeakSlotsAreNotLive }
{}

/// A slot of the weak table stays its own, with an entry or idle: no `hnew` makes a handle in it,
/// no `hfree` frees it, and no `trim` gives its block back.
pub fn weak_slots_stay_held()
    ensures { WeakSlotsStayHeld }
{}

/// The last line of a text and the list of roots leave the weak table out.
#[tactic(auto, using(crate::proofs::WeakSlotUse::texts_leave_the_weak_table_out))]
pub fn texts_leave_the_weak_table_out()
    ensures { TextsLeaveTheWeakTableOut }
{}
