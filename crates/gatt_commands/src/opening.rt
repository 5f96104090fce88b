//! The host that the commands open.

ghost use Rattle.std.specs.Prelude.{◌≡◌, IfErr, IfOk};
ghost use Rattle.gatt_commands.specs.Opening.{command_configuration, IsOpened};

use crate::mtu::RxMtu;
use arrayvec::ArrayVec;
use att_table::Table;
use gatt_host::{Config, Host};
use gatt_subs::Rows;
use le_security::Keys;
use shell_files::ShellFault;
use std::alloc::Global;

/// The most connections of `run` and `serve` at once.
pub(crate) const SLOTS: usize = 4;

/// The advertising data: flags for general discovery, without BR/EDR.
const ADVERTISING: [u8; 3] = [0x02, 0x01, 0x06];

/// Opens a host with these files and this ATT_MTU, at the public address of its controller.
pub(crate) fn open_host(
    alloc: Global,
    table: Table,
    keys: Keys,
    rows: Rows,
    rx_mtu: RxMtu,
) -> Result<Host, ShellFault>
    ensures opened { IfOk result (IsOpened table keys rows rx_mtu) }
    ensures faults { IfErr result (λ fault. fault ≡ ShellFault.Memory) }
{
    match Host::open(alloc, table, keys, rows, command_config(rx_mtu)) {
        Ok(host) => Ok(host),
        Err(_) => Err(ShellFault::Memory),
    }
}

fn command_config(rx_mtu: RxMtu) -> Config
    ensures { result ≡ command_configuration rx_mtu }
{
    let mut advertising = ArrayVec::new();
    advertising.try_extend_from_slice(&ADVERTISING).unwrap();
    Config {
        slots: SLOTS,
        rx_mtu: rx_mtu.octets(),
        address: None,
        advertising,
    }
}
