// Laws of what is seen: each is the contract of a function that does nothing.
ghost use Rattle.hd_snapshot.specs.Laws.{EachHandleIsShownOnce, EachObjectIsShownOnce};

/// A snapshot shows each live handle and each object once, and no others.
pub fn each_is_shown_once()
    ensures handles { EachHandleIsShownOnce }
    ensures objects { EachObjectIsShownOnce }
{}
