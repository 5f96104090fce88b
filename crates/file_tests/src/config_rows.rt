//! More configurations than a table can have.

use super::cases::assert_at;
use att_table::ConfigRow;

/// Handles, their bits in full configurations, and true if they can be set.
const FULL_ROW: &[(u16, u8, bool)] = &[(1, 1, true), (9, 1, true), (64, 1, true), (65, 0, false)];

#[test]
fn keeps_what_was_written_last(rt: HostRuntime) {
    for &(handle, bits, can_set) in FULL_ROW {
        assert_at(
            &rt,
            full_row_at(handle) == (bits, can_set),
            usize::from(handle),
        );
    }
}

fn full_row_at(handle: u16) -> (u8, bool) {
    let mut row = ConfigRow::new();
    row.set(9, 2);
    for next in 1..100 {
        if row.can_set(next) {
            row.set(next, 1);
        }
    }
    (row.get(handle), row.can_set(handle))
}
