//! Opens a host and allocates all its memory.

ghost use Rattle.std.specs.Prelude.{◌≡◌, ◌↔◌, [], false, true, replicate, None, Err, IfOk, IsOk};
ghost use Rattle.std.specs.Option.{option_map_or};
ghost use Rattle.gatt_laws.specs.machine.Input.{run};
ghost use Rattle.gatt_laws.specs.machine.Start.{is_static};
ghost use Rattle.gatt_host.specs.Opening.{held_at_first, is_configured, start_of};
ghost use Rattle.gatt_host.specs.Promises.{GivesWhatIsDue, Promise};
ghost use Rattle.gatt_host.specs.HostModel.{RefinesRun};
ghost use Rattle.gatt_subs.specs.Fit.{fitted_rows, HasFittedBonds};

use crate::config::{Config, OpenFault};
use crate::controller::Controller;
use crate::frames::Frames;
use crate::host::Host;
use crate::last_event::LastEvent;
use crate::server::Server;
use arrayvec::ArrayVec;
use att_pdu::{MAX_MTU, MIN_MTU};
use att_table::Table;
use gatt_subs::Rows;
use host_api::MAX_SLOTS;
use host_connections::Slots;
use le_h4::{Deframer, PacketBuf};
use le_security::Keys;
use std::alloc::Global;

/// The two most significant bits of a static random address, in its last octet (Core 5.0, Vol 6
/// Part B, 1.3.2.1).
const STATIC: u8 = 0xC0;

impl Host {
    /// Opens a host that serves a table to peers with these keys. It retains the rows that fit the
    /// keys and the table. The first command for the controller is then pending.
    #[tactic(auto, using(crate::proofs::Promises::keeps_its_promise))]
    pub fn open(
        alloc: Global,
        table: Table,
        keys: Keys,
        rows: Rows,
        config: Config,
    ) -> Result<Host, OpenFault>
        // The configuration is refused exactly if it is out of its limits, before memory is asked
        // for.
        ensures config { (result ≡ Err OpenFault.BadConfig) ↔ (is_configured config ≡ false) }
        // An opened host is at its start, and nothing was sent.
        ensures opened { IfOk result
            (λ host. RefinesRun (run (start_of table keys rows config) []) [] host) }
        ensures no_fault { IfOk result (λ host. host.fault ≡ None) }
        // From then on it sends what is due, for any input.
        ensures runs { IfOk result (GivesWhatIsDue (start_of table keys rows config)) }
        // For every start and input:
        ensures promise { Promise }
    {
        let mut rows = rows;
        let slots = match free_slots(alloc, &table, &keys, &mut rows, &config) {
            Ok(slots) => slots,
            Err(fault) => return Err(fault),
        };
        let Ok(frames) = Frames::new(alloc, config.slots) else {
            return Err(OpenFault::OutOfMemory);
        };
        Ok(Host {
            server: held_at_first(table, keys, rows, slots, config),
            frames,
            stream: Deframer::new(),
            fault: None,
            packet: PacketBuf::new(),
        })
    }
}

/// Checks the configuration, drops rows that do not fit, and allocates the slots.
fn free_slots(
    alloc: Global,
    table: &Table,
    keys: &Keys,
    rows: &mut Rows,
    config: &Config,
) -> Result<Slots, OpenFault>
    ensures config { (result ≡ Err OpenFault.BadConfig) ↔ (is_configured config.now ≡ false) }
    ensures configured { IsOk result → is_configured config.now ≡ true }
    ensures rows { IsOk result → rows.new ≡ fitted_rows keys.now table.now rows.old }
    ensures bonds { IsOk result → HasFittedBonds keys.now table.now rows.old rows.new }
    ensures slots { IfOk result (λ slots. slots ≡ replicate config.now.slots None) }
{
    if !is_configured(config) {
        return Err(OpenFault::BadConfig);
    }
    if rows.fit(alloc, keys, table).is_err() {
        return Err(OpenFault::OutOfMemory);
    }
    match Slots::new(alloc, config.slots) {
        Ok(slots) => Ok(slots),
        Err(_) => Err(OpenFault::OutOfMemory),
    }
}

fn held_at_first(table: Table, keys: Keys, rows: Rows, slots: Slots, config: Config) -> Server
    requires { is_configured config ≡ true }
    ensures { result ≡ held_at_first table keys rows slots config }
{
    Server {
        changer: table.changer(),
        table,
        keys,
        rows,
        rx_mtu: config.rx_mtu,
        time: 0,
        controller: Controller::new(config.address, config.advertising),
        slots,
        last: LastEvent::Quiet,
        skipped: ArrayVec::new(),
        written: ArrayVec::new(),
        late: ArrayVec::new(),
    }
}

fn is_configured(config: &Config) -> bool
    ensures { result ≡ is_configured config.now }
{
    (1..=MAX_SLOTS).contains(&config.slots)
        && (MIN_MTU..=MAX_MTU).contains(&config.rx_mtu)
        && may_be_used(config.address)
}

/// Returns true if the address is static or absent.
fn may_be_used(address: Option<[u8; 6]>) -> bool
    ensures { result ≡ option_map_or is_static address true }
{
    match address {
        Some(address) => address[5] >= STATIC,
        None => true,
    }
}
