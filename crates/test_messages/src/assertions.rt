//! The assertions of the tests, as calls: a call is proved faster than an assertion at each place.
//! Crates with many tests have a copy each, since only a test may end the process.
ghost use Rattle.std.specs.Prelude.{◌≡◌, true};

use std::fmt::Debug;
use std::process::Abort;

/// Fails the test where the condition doesn't hold, and prints what it concerns.
pub fn holds(rt: &impl Abort, so: bool, what: &str)
    ensures { so ≡ true }
{
    assert!(rt; so, "{what}");
}

/// Fails the test where the two differ, and prints both and what they concern.
pub fn same<T: PartialEq + Debug + Drop>(rt: &impl Abort, found: T, expected: T, what: &str) {
    assert_eq!(rt; found, expected, "{what}");
}
