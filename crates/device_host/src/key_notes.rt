//! The notes about a key file in the log of a start.

use crate::restoring::peer_text;
use device_io::Log;
use gatt_host::Keys;
use le_hci::Peer;
use std::alloc::Global;
use std::fs::{File, Files};
use std::time::Clock;

/// Logs whether others may use a key file, and which of its peers change their address.
///
/// Such a peer then has no key. If memory is refused, logs nothing.
pub(crate) fn note_keys<R: Files<File = File> + Clock + Eprint>(
    alloc: Global,
    log: &Log<'_, R>,
    path: &str,
    text: &[u8],
) {
    let Ok(keys) = Keys::from_bytes(alloc, text) else {
        return;
    };
    if keys.count() > 0 && shell_files::is_shared(log.rt, path) {
        note_shared(alloc, log, path);
    }
    for at in 0..keys.count() {
        if let Some(peer) = keys.peer(at)
            && policy_rights::is_private(peer)
            && !is_before(&keys, at, peer)
        {
            note_private(alloc, log, peer);
        }
    }
}

fn note_shared<R: Clock + Eprint>(alloc: Global, log: &Log<'_, R>, path: &str) {
    note(
        log,
        format!(in alloc;
            "{path} can be used by others than its owner: run `chmod 600 {path}`"
        ).ok(),
    );
}

fn note_private<R: Clock + Eprint>(alloc: Global, log: &Log<'_, R>, peer: &Peer) {
    if let Ok(peer) = peer_text(alloc, "", peer) {
        let peer = peer.as_str();
        note(
            log,
            format!(in alloc; "{peer} is a private address, which its client changes").ok(),
        );
    }
}

fn note<R: Clock + Eprint>(log: &Log<'_, R>, words: Option<String>) {
    if let Some(words) = words {
        log.say_of("keys:", words.as_str());
    }
}

/// Returns true if an earlier key is of the same peer.
fn is_before(keys: &Keys, at: usize, peer: &Peer) -> bool {
    for earlier in 0..at {
        if keys.peer(earlier) == Some(peer) {
            return true;
        }
    }
    false
}
