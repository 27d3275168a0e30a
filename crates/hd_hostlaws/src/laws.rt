ghost use Rattle.hd_host.specs.Turns.{LocalsAreAsLeft, NoContextIsOfTwoEnds, OthersKeepLocals};
ghost use Rattle.hd_host.specs.Turns.{OthersKeepObjects, TurnsKeepSound};
ghost use Rattle.hd_hostlaws.specs.Laws.{EachCallIsATurn, FaultsChangeNothing, FreedIsRefused};
ghost use Rattle.hd_hostlaws.specs.Laws.{LiveNamesTheSame, MakingIsARow};
ghost use Rattle.hd_hostlaws.specs.Laws.{ReferencedIsThere, SettingIsARow};
ghost use Rattle.hd_hostlaws.specs.Laws.{SpareBlocksHaveNone, StaleIsExact};

/// Each call is one step of the machine, a row of steps, a handle that is freed, a listed step of a
/// host alone, or nothing.
pub fn each_call_is_a_turn()
    ensures { EachCallIsATurn }
{}

/// A call that returns a fault leaves the host as it was.
pub fn faults_change_nothing()
    ensures { FaultsChangeNothing }
{}

/// A call on a handle returns `Stale` exactly where the handle is that of no live slot, and then
/// the host is as it was.
pub fn stale_is_exact()
    ensures { StaleIsExact }
{}

/// A handle that was freed is refused by every later call of that host until it is closed,
/// whatever calls came between.
pub fn freed_is_refused()
    ensures { FreedIsRefused }
{}

/// A handle names the same object until it is freed, set, or cleared by a collection, whatever
/// other calls come between.
pub fn live_names_the_same()
    ensures { LiveNamesTheSame }
{}

/// A block that may be given back has no live handle.
pub fn spare_blocks_have_none()
    ensures { SpareBlocksHaveNone }
{}

/// Whatever calls a host had since it was opened, what a local, a static or a handle references is
/// an object that is there.
pub fn referenced_is_there()
    ensures { ReferencedIsThere }
{}

/// An entry that is set is a `cremove` and a `cadd` in a row.
pub fn setting_is_a_row()
    ensures { SettingIsARow }
{}

/// An object that is made with its value and its fields is a `new`, a `val` and a `set` for each
/// field in a row, where its local is none of those that the fields get.
pub fn making_is_a_row()
    ensures { MakingIsARow }
{}

/// No context is of two ends of a shared host.
pub fn no_context_is_of_two_ends()
    ensures { NoContextIsOfTwoEnds }
{}

/// A turn of another end leaves what the locals of an end reference, also where it collects.
pub fn others_keep_locals()
    ensures { OthersKeepLocals }
{}

/// So do any turns of others, one after another.
pub fn locals_are_as_left()
    ensures { LocalsAreAsLeft }
{}

/// What a local of an end references is there whatever others do.
pub fn others_keep_objects()
    ensures { OthersKeepObjects }
{}

/// A turn leaves a sound host sound: within its limits, well formed, with a stamp for each slot.
pub fn turns_keep_sound()
    ensures { TurnsKeepSound }
{}
