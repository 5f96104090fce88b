//! Restores saved values, and refuses or logs what is saved and cannot be restored.

use crate::stop::{Stop, refuse};
use att_numbers::attribute_type::SERVICE_CHANGED;
use device_io::Log;
use device_options::{FileOptions, HostOptions, Saved};
use device_state::{SavedValue, Saves, State, may_be_saved, restore};
use gatt_host::{Keys, Rows, Table};
use gatt_subs::{RowEntry, address_text};
use le_hci::Peer;
use shell_files::ShellFault;
use std::alloc::{AllocError, Global};
use std::str;
use std::time::Clock;

/// Puts the values of a state into a table, and logs those that are dropped.
pub(crate) fn restore_values<R: Clock + Eprint>(
    alloc: Global,
    log: &Log<'_, R>,
    table: &mut Table,
    state: &State,
    saves: Saves,
) {
    for value in state.values() {
        let handle = value.handle();
        if let Some(reason) = drop_reason(table, value, saves)
            && let Ok(line) = format!(in alloc; "{handle}: {reason}")
        {
            log.say_of("value dropped:", line.as_str());
        }
    }
}

/// Puts a value into a table. Returns why it is dropped, if so.
///
/// A value that would not be saved again is dropped now, not at the next start.
fn drop_reason(table: &mut Table, value: &SavedValue, saves: Saves) -> Option<&'static str> {
    let handle = value.handle();
    if let Some(attr) = table.get(handle)
        && attr.kind == value.kind()
        && !may_be_saved(attr, saves)
    {
        return Some("clients may not write it");
    }
    if restore(table, handle, value.kind(), value.octets()) {
        None
    } else {
        Some("the table has no such value here")
    }
}

/// Sets Service Changed to all handles (Core 5.0, Vol 3 Part G, 7.1).
pub(crate) fn set_whole_range(table: &mut Table) {
    if let Some(handle) = table.changer() {
        restore(table, handle, SERVICE_CHANGED, &[0x01, 0x00, 0xFF, 0xFF]);
    }
}

/// The subscriptions of a file: the configurations, and the peers with a pending Service Changed.
#[derive(Drop)]
pub(crate) struct Subscriptions {
    entries: Vec<RowEntry>,
    owed: Vec<Peer>,
}

impl Subscriptions {
    pub(crate) fn of(alloc: Global, rows: &Rows) -> Result<Subscriptions, AllocError> {
        Ok(Subscriptions {
            entries: rows.entries(alloc)?,
            owed: rows.owed_peers(alloc)?,
        })
    }

    /// Returns true if a peer has a pending Service Changed.
    pub(crate) fn is_change_pending(&self) -> bool {
        !self.owed.is_empty()
    }

    /// Returns the first peer without a key.
    fn first_unknown(&self, keys: &Keys) -> Option<Peer> {
        for entry in self.entries.as_slice() {
            if !keys.known(&entry.peer) {
                return Some(entry.peer);
            }
        }
        for peer in self.owed.as_slice() {
            if !keys.known(peer) {
                return Some(*peer);
            }
        }
        None
    }
}

/// Returns the saved subscriptions. Refuses those of a peer without a key, unless the options drop
/// them.
pub(crate) fn known_subscriptions<R: Eprint>(
    alloc: Global,
    rt: &R,
    options: &HostOptions<'_>,
    rows: &Rows,
    keys: &Keys,
) -> Result<Subscriptions, Stop> {
    let Ok(saved) = Subscriptions::of(alloc, rows) else {
        return Err(Stop::Fault(ShellFault::Memory));
    };
    match unknown_refusal(alloc, &options.files, &saved, keys) {
        Ok(()) => Ok(saved),
        Err(refusal) => Err(refuse(rt, refusal)),
    }
}

/// Refuses subscriptions of a peer without a key, unless the options drop them.
///
/// A refusal has the file and the peer, or nothing if memory was refused.
pub(crate) fn unknown_refusal(
    alloc: Global,
    files: &FileOptions<'_>,
    saved: &Subscriptions,
    keys: &Keys,
) -> Result<(), Option<String>> {
    let (path, end) = match files.saved {
        _ if files.drop_unknown => return Ok(()),
        Saved::State { folder, .. } => (folder, "/state"),
        Saved::Subscriptions(path) => (path, ""),
        Saved::Nothing => ("rows", ""),
    };
    let Some(peer) = saved.first_unknown(keys) else {
        return Ok(());
    };
    let Ok(peer) = peer_text(alloc, "", &peer) else {
        return Err(None);
    };
    let peer = peer.as_str();
    Err(format!(in alloc; "{path}{end}: no key of the peer {peer} (--drop-unknown drops it)").ok())
}

/// Logs each saved subscription that a host does not have.
pub(crate) fn log_dropped<R: Clock + Eprint>(
    alloc: Global,
    log: &Log<'_, R>,
    saved: &Subscriptions,
    rows: &Rows,
) {
    if try_log_dropped(alloc, log, saved, rows).is_err() {
        log.say("memory: refused for the subscriptions that were dropped");
    }
}

fn try_log_dropped<R: Clock + Eprint>(
    alloc: Global,
    log: &Log<'_, R>,
    saved: &Subscriptions,
    rows: &Rows,
) -> Result<(), AllocError> {
    let kept = Subscriptions::of(alloc, rows)?;
    for entry in saved.entries.as_slice() {
        if !has_entry(kept.entries.as_slice(), entry) {
            let RowEntry { peer, handle, bits } = *entry;
            let line = peer_text(alloc, "", &peer)?;
            let line = line.as_str();
            log_line(log, format!(in alloc; "{line} {handle} {bits}").ok())?;
        }
    }
    for peer in saved.owed.as_slice() {
        if !kept.owed.as_slice().contains(peer) {
            log_line(log, Some(peer_text(alloc, "! ", peer)?))?;
        }
    }
    Ok(())
}

fn has_entry(entries: &[RowEntry], entry: &RowEntry) -> bool {
    for other in entries {
        if other.is_at(&entry.peer, entry.handle) && other.bits == entry.bits {
            return true;
        }
    }
    false
}

fn log_line<R: Clock + Eprint>(log: &Log<'_, R>, line: Option<String>) -> Result<(), AllocError> {
    match line {
        Some(line) => log.say_of("subscription dropped:", line.as_str()),
        None => return Err(AllocError),
    }
    Ok(())
}

/// Returns address type and address.
pub(crate) fn peer_text(alloc: Global, front: &str, peer: &Peer) -> Result<String, AllocError> {
    let address = address_text(peer.address);
    let address = str::from_utf8(&address).unwrap_or("");
    let kind = peer.kind;
    format!(in alloc; "{front}{kind} {address}").map_err(|_| AllocError)
}
