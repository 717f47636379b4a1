//! The assertions of the tests, as calls: a call is proved faster than an assertion at each place.
//! Crates with many tests have a copy each, since only a test may end the process.

use std::process::Abort;

/// Fails the test where the condition doesn't hold, and names the table and the row.
pub fn holds(rt: &impl Abort, so: bool, table: &str, row: &str) {
    assert!(rt; so, "{table}: {row}");
}
