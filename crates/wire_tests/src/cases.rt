//! Message of a failed case.

use std::process::Abort;

/// Aborts the test with the octets of a failed case.
pub fn assert_case(rt: &impl Abort, holds: bool, octets: &[u8]) {
    assert!(rt; holds, "{octets:?}");
}
