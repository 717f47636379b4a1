//! The assertions of the tests, as calls: a call is proved faster than an assertion at each place.
//! Crates with many tests have a copy each, since only a test may end the process.
ghost use Rattle.std.specs.Prelude.{◌≡◌, true};

use std::fmt::Debug;
use std::process::Abort;

/// Fails the test where the condition doesn't hold.
pub fn holds(rt: &impl Abort, so: bool)
    ensures { so ≡ true }
{
    assert!(rt; so);
}

/// Fails the test where the two differ, and prints both.
pub fn same<T: PartialEq + Debug + Drop>(rt: &impl Abort, found: T, expected: T) {
    assert_eq!(rt; found, expected);
}
