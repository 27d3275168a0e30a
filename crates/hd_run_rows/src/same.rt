// Comparisons of what is found with what is wanted. They are proved once for all types: where an
// `assert_eq!` is written, it costs seconds.
ghost use Rattle.std.specs.Prelude.{◌≡◌, true};

use std::fmt::{Debug, Display};
use std::process::Abort;

/// Two values are equal.
pub(crate) fn same<T: PartialEq + Debug + Drop>(rt: &impl Abort, found: T, want: T)
    ensures { T.eq found want ≡ true }
{
    assert_eq!(rt; found, want);
}

/// The same, in a row of a table that a failure names.
pub(crate) fn same_at<T, A>(rt: &impl Abort, at: A, found: T, want: T)
where
    T: PartialEq + Debug + Drop,
    A: Display + Drop,
    ensures { T.eq found want ≡ true }
{
    assert_eq!(rt; found, want, "at {at}");
}
