//! Opens the host that is served, from its files and the saved data.
//!
//! Tables, keys and files are dropped as a whole, which keeps the proofs small.

ghost use Rattle.std.specs.Prelude.{◌≡◌};
ghost use Rattle.device_session.specs.Turns.{after_work};

use crate::device::Device;
use crate::files::{KeyFile, TableFile, read_keys, read_table};
use crate::finding::{find_saved, find_subscriptions, is_of_another_table};
use crate::keeping::{Contents, Keeping, SavedState};
use crate::restoring::{
    Subscriptions, known_subscriptions, log_dropped, restore_values, set_whole_range,
};
use crate::stop::Stop;
use arrayvec::ArrayVec;
use device_io::Log;
use device_options::{HostOptions, HostSettings, Saved};
use device_state::{Saves, State};
use gatt_host::{Config, Host, Keys, PacketOctets, RX_MTU, Rows, Table};
use shell_files::{ShellFault, judged_rows, judged_table};
use std::alloc::Global;
use std::fs::{File, Files};
use std::time::Clock;

/// More packets than a host without connections has: at most a Reset.
const MOST_PACKETS: usize = 8;

/// Opens the host of the options, and the file in which it is saved. Returns also the text of the
/// key file.
pub(crate) fn open_host<R: Files<File = File> + Clock + Eprint>(
    alloc: Global,
    log: &Log<'_, R>,
    options: &HostOptions<'_>,
) -> Result<(Host, Option<Keeping>, Vec<u8>), Stop> {
    let files = &options.files;
    let table = read_table(alloc, log.rt, files.table)?;
    let KeyFile { keys, text } = read_keys(alloc, log.rt, files.keys)?;
    match open_with_keys(alloc, log, options, table, keys) {
        Ok((host, keeping)) => Ok((host, keeping, text)),
        Err(stop) => {
            drop(text);
            Err(stop)
        }
    }
}

fn open_with_keys<R: Files<File = File> + Clock + Eprint>(
    alloc: Global,
    log: &Log<'_, R>,
    options: &HostOptions<'_>,
    file: TableFile,
    keys: Keys,
) -> Result<(Host, Option<Keeping>), Stop> {
    let TableFile { table, text } = file;
    match options.files.saved {
        Saved::Nothing => {
            let rows = no_rows(alloc)?;
            Ok((open(alloc, table, keys, rows, &options.host)?, None))
        }
        Saved::Subscriptions(path) => open_with_subscriptions(
            alloc, log, options, path, table, keys,
        ),
        Saved::State { folder, all_values } => {
            let served = SavedState {
                text,
                initial: table,
                saves: if all_values {
                    Saves::All
                } else {
                    Saves::Writable
                },
                is_changed: false,
            };
            open_with_state(alloc, log, options, folder, served, keys)
        }
    }
}

fn open_with_subscriptions<R: Files<File = File> + Clock + Eprint>(
    alloc: Global,
    log: &Log<'_, R>,
    options: &HostOptions<'_>,
    path: &str,
    table: Table,
    keys: Keys,
) -> Result<(Host, Option<Keeping>), Stop> {
    let found = find_subscriptions(alloc, log, path);
    let (file, locks, rows) = match found {
        Ok((file, locks, rows)) => (file, locks, rows),
        Err(stop) => {
            drop(table);
            drop(keys);
            return Err(stop);
        }
    };
    let keeping = Keeping::new(alloc, locks, file, Contents::Subscriptions);
    let opened = open_with(alloc, log, options, table, keys, rows);
    with_keeping(opened, keeping)
}

fn with_keeping(
    opened: Result<Host, Stop>,
    keeping: Keeping,
) -> Result<(Host, Option<Keeping>), Stop> {
    match opened {
        Ok(host) => Ok((host, Some(keeping))),
        Err(stop) => {
            drop(keeping);
            Err(stop)
        }
    }
}

fn open_with_state<R: Files<File = File> + Clock + Eprint>(
    alloc: Global,
    log: &Log<'_, R>,
    options: &HostOptions<'_>,
    folder: &str,
    served: SavedState,
    keys: Keys,
) -> Result<(Host, Option<Keeping>), Stop> {
    let mut locks = Vec::new(alloc);
    let found = find_saved(alloc, log, &mut locks, folder, served.text.as_slice());
    let (file, table, state) = match found {
        Ok((file, table, state)) => (file, table, state),
        Err(stop) => {
            drop(locks);
            drop(served);
            drop(keys);
            return Err(stop);
        }
    };
    let mut served = served;
    served.is_changed = is_of_another_table(&state, served.text.as_slice());
    let (saves, is_changed) = (served.saves, served.is_changed);
    let keeping = Keeping::new(alloc, locks, file, Contents::State(served));
    let opened = match state {
        Some(state) => resume(alloc, log, options, state, saves, is_changed, table, keys),
        None => open_empty(alloc, options, table, keys),
    };
    with_keeping(opened, keeping)
}

/// Opens a host without subscriptions.
fn open_empty(
    alloc: Global,
    options: &HostOptions<'_>,
    table: Table,
    keys: Keys,
) -> Result<Host, Stop> {
    match no_rows(alloc) {
        Ok(rows) => open(alloc, table, keys, rows, &options.host),
        Err(fault) => {
            drop(table);
            drop(keys);
            Err(Stop::Fault(fault))
        }
    }
}

fn no_rows(alloc: Global) -> Result<Rows, ShellFault> {
    judged_rows(alloc, &[])
}

/// Opens a host that resumes a state, which may be of another table.
fn resume<R: Files<File = File> + Clock + Eprint>(
    alloc: Global,
    log: &Log<'_, R>,
    options: &HostOptions<'_>,
    state: State,
    saves: Saves,
    is_changed: bool,
    table: Table,
    keys: Keys,
) -> Result<Host, Stop> {
    let mut table = table;
    restore_values(alloc, log, &mut table, &state, saves);
    let (before, rows, _) = state.into_parts();
    if !is_changed {
        return open_with(alloc, log, options, table, keys, rows);
    }
    match judged_table(alloc, before.as_bytes()) {
        Ok(before) => {
            let replacement = Replacement { before, table };
            open_changed(alloc, log, options, replacement, keys, rows)
        }
        Err(_) => {
            log.say("the saved table is no table any more: subscriptions are taken as they stand");
            open_with(alloc, log, options, table, keys, rows)
        }
    }
}

#[derive(Drop)]
struct Replacement {
    before: Table,
    table: Table,
}

/// Opens a host whose subscriptions belong to another table, which is replaced.
fn open_changed<R: Files<File = File> + Clock + Eprint>(
    alloc: Global,
    log: &Log<'_, R>,
    options: &HostOptions<'_>,
    replacement: Replacement,
    keys: Keys,
    rows: Rows,
) -> Result<Host, Stop> {
    let saved = match known_subscriptions(alloc, log.rt, options, &rows, &keys) {
        Ok(saved) => saved,
        Err(stop) => {
            drop(replacement);
            drop(keys);
            drop(rows);
            return Err(stop);
        }
    };
    let Replacement { before, table } = replacement;
    match open(alloc, before, keys, rows, &options.host) {
        Ok(host) => {
            let (table, keys, rows) = exchange(alloc, log, host, table);
            open_and_log(alloc, log, options, table, keys, rows, saved)
        }
        Err(stop) => {
            drop(table);
            Err(stop)
        }
    }
}

/// Opens a host, and logs which of the saved subscriptions it drops.
fn open_and_log<R: Clock + Eprint>(
    alloc: Global,
    log: &Log<'_, R>,
    options: &HostOptions<'_>,
    table: Table,
    keys: Keys,
    rows: Rows,
    saved: Subscriptions,
) -> Result<Host, Stop> {
    let host = open(alloc, table, keys, rows, &options.host)?;
    log_dropped(alloc, log, &saved, host.rows());
    Ok(host)
}

/// Replaces the table of a host, and returns what the host with the new one is opened with.
fn exchange<R: Clock + Eprint>(
    alloc: Global,
    log: &Log<'_, R>,
    host: Host,
    table: Table,
) -> (Table, Keys, Rows) {
    let mut host = host;
    take_out(&mut host);
    let refused = replace_table(alloc, log, &mut host, table);
    let (mut table, keys, mut rows) = host.into_parts();
    if let Some(refused) = refused {
        rows.keep(&table, &refused);
        table = refused;
    }
    (table, keys, rows)
}

/// Replaces the table of a host. Returns the new table if the host refuses it.
fn replace_table<R: Clock + Eprint>(
    alloc: Global,
    log: &Log<'_, R>,
    host: &mut Host,
    table: Table,
) -> Option<Table> {
    if !host.drained() {
        return Some(table);
    }
    match host.replace(table) {
        Ok(_) => None,
        Err((fault, table)) => {
            if let Ok(words) = format!(in alloc; "{fault}") {
                log.say_of("clients are not told of the change:", words.as_str());
            }
            Some(table)
        }
    }
}

/// Removes the packets that a host has for its controller.
fn take_out(host: &mut Host) {
    let mut packet = PacketOctets::new();
    for _packet in 0..MOST_PACKETS {
        if !host.next_out(&mut packet) {
            return;
        }
    }
}

/// Opens a host with subscriptions, and logs those that it drops.
fn open_with<R: Eprint + Clock>(
    alloc: Global,
    log: &Log<'_, R>,
    options: &HostOptions<'_>,
    table: Table,
    keys: Keys,
    rows: Rows,
) -> Result<Host, Stop> {
    let saved = match known_subscriptions(alloc, log.rt, options, &rows, &keys) {
        Ok(saved) => saved,
        Err(stop) => {
            drop(table);
            drop(keys);
            drop(rows);
            return Err(stop);
        }
    };
    let mut table = table;
    if saved.is_change_pending() {
        set_whole_range(&mut table);
    }
    open_and_log(alloc, log, options, table, keys, rows, saved)
}

fn open(
    alloc: Global,
    table: Table,
    keys: Keys,
    rows: Rows,
    options: &HostSettings,
) -> Result<Host, Stop> {
    match Host::open(alloc, table, keys, rows, config(options)) {
        Ok(host) => Ok(host),
        Err(_) => Err(Stop::Fault(ShellFault::Memory)),
    }
}

fn config(options: &HostSettings) -> Config {
    let mut advertising = ArrayVec::new();
    advertising
        .try_extend_from_slice(options.advertising.as_slice())
        .unwrap();
    Config {
        slots: options.slots,
        rx_mtu: RX_MTU,
        address: options.address,
        advertising,
    }
}

/// Opens a host with the data of another one.
pub(crate) fn reopen<R: Clock + Eprint>(
    device: &mut Device<'_, R>,
    host: Host,
    settings: &HostSettings,
) -> Result<Host, Stop>
    ensures turns { device.new.session.turns ≡ after_work device.old.session.turns }
{
    let (table, keys, rows) = host.into_parts();
    open_again(device, table, keys, rows, settings)
}

/// Opens a host while the device serves, which is work of the device.
pub(crate) fn open_again<R: Clock + Eprint>(
    device: &mut Device<'_, R>,
    table: Table,
    keys: Keys,
    rows: Rows,
    settings: &HostSettings,
) -> Result<Host, Stop>
    // The clock is read before the host gets anything.
    ensures turns { device.new.session.turns ≡ after_work device.old.session.turns }
{
    device.session.begin_work();
    let opened = open(device.alloc, table, keys, rows, settings);
    device.session.end_work();
    opened
}
