//! An open host, with the data that C calls need.

ghost use Rattle.std.specs.Prelude.{◌≡◌, ◌||◌, not, false, true};
ghost use Rattle.std.specs.Option.{option_map_or};
ghost use Rattle.gatt_host.specs.HostModel.{all_out, is_own_fault};

use gatt_host::{Host, Table};

/// The target of the pointer that a program in C keeps.
#[derive(Drop)]
pub struct Opened {
    pub(crate) host: Host,
    /// The table of the table file.
    pub(crate) initial: Table,
    /// The number of current notices already returned.
    pub(crate) told: usize,
    /// Set if the host is known to have no pending packet.
    pub(crate) drained: bool,
    pub ghost out: { (not drained || all_out host) ≡ true },
    // No call reads, writes or counts turns, so the host has no fault of these.
    pub ghost not_own: { option_map_or is_own_fault host.fault false ≡ false },
}

impl Opened {
    #[inline(always)]
    pub(crate) fn is_drained(&self) -> bool
        ensures { result ≡ all_out self.now.host }
    {
        self.drained || self.host.drained()
    }
}
