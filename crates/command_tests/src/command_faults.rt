//! The texts and statuses of faults.

use arrayvec::ArrayVec;
use shell_files::{ShellFault, status, text};
use std::process::Abort;

const FAULTS: &[(ShellFault, &str, u8)] = &[
    (ShellFault::Table(3), "table: fault 3", 1),
    (ShellFault::Keys(0), "keys: fault 0", 1),
    (ShellFault::Rows(12), "rows: fault 12", 1),
    (ShellFault::Next(255), "next: fault 255", 1),
    (
        ShellFault::Script(u64::MAX),
        "script: line 18446744073709551615",
        1,
    ),
    (ShellFault::Host(7), "host: fault 7", 2),
    (ShellFault::Controller(100), "controller: fault 100", 2),
    (ShellFault::TooLong, "exchange: too long", 2),
    (ShellFault::NotHex(1), "line 1: not hex", 2),
    (
        ShellFault::NotHex(u64::MAX),
        "line 18446744073709551615: not hex",
        2,
    ),
    (ShellFault::Unreadable, "file: unreadable", 1),
    (ShellFault::Unwritten, "file: unwritten", 1),
    (ShellFault::Listen, "listen: failed", 2),
    (ShellFault::Memory, "memory: refused", 2),
];

#[test]
fn says_each_fault(rt: HostRuntime) {
    says(&rt, &mut ArrayVec::new(), FAULTS);
}

/// Each text replaces the one before it.
fn says(rt: &impl Abort, out: &mut ArrayVec<u8, 40>, cases: &[(ShellFault, &str, u8)]) {
    for (fault, wanted, code) in cases {
        assert!(rt; is_said(fault, out, wanted, *code), "{wanted}");
    }
}

fn is_said(fault: &ShellFault, out: &mut ArrayVec<u8, 40>, wanted: &str, code: u8) -> bool {
    text(fault, out);
    out.as_slice() == wanted.as_bytes() && status(fault) == code
}
