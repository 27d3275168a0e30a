ghost use Rattle.hd_model.specs.WeakLaws.{EntriesKeepNoKey};
ghost use Rattle.hd_model.specs.WeakEntryLaws.{IdleSlotsAreTakenFirst};

/// An entry never keeps its key: whether that stays is the same with the entry taken out.
pub fn entries_keep_no_key()
    ensures { EntriesKeepNoKey }
{}

/// A done `cadd` while the weak table has a slot without an entry gets the least such slot, and the
/// table does not grow.
pub fn idle_slots_are_taken_first()
    ensures { IdleSlotsAreTakenFirst }
{}
