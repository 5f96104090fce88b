//! The report of a failed case.

use std::process::Abort;

/// Ends the test with the name of the case if it fails.
pub fn assert_case(rt: &impl Abort, holds: bool, name: &str) {
    assert!(rt; holds, "{name}");
}

/// Ends the test with the place or handle of the case if it fails.
pub fn assert_at(rt: &impl Abort, holds: bool, number: usize) {
    assert!(rt; holds, "{number}");
}
