//! The save of a turn.

ghost use Rattle.std.specs.Prelude.{◌≡◌, true};
ghost use Rattle.std.specs.Option.{option_map_or};
ghost use Rattle.device_host.specs.Changes.{is_all_saved};
ghost use Rattle.device_host.specs.Order.{is_saved};
ghost use Rattle.device_host.specs.Work.{IsTurnSaved};

use crate::device::Device;
use crate::turn_notices::Hearing;
use arrayvec::ArrayVec;
use device_loop::Saving;
use gatt_host::{Host, MAX_SLOTS};
use std::fs::{File, Files};
use std::time::Clock;

/// Saves the changes, and disconnects the connections whose changes are not saved.
pub(crate) fn save<R: Files<File = File> + Clock + Eprint>(
    device: &mut Device<'_, R>,
    host: &Host,
    hearing: &mut Hearing,
) -> Saving
    ensures history { device.new.history ≡ device.old.history }
    ensures heard { hearing.new.received ≡ hearing.old.received }
    // The changes are saved exactly if none is left.
    ensures saved { is_saved result ≡ option_map_or (λ keeping. is_all_saved keeping.changes)
        device.new.keeping true }
    // The application, its place and its output stay as they are.
    ensures application { device.new.session.seats ≡ device.old.session.seats }
    // If a save was made, the clock is read before the host gets anything.
    ensures turns { IsTurnSaved device.old.keeping device.old.session.turns
        device.new.session.turns }
{
    let is_saved = match &mut device.keeping {
        Some(keeping) => keeping.save(host, &mut device.session),
        None => true,
    };
    if is_saved {
        hearing.unsaved.clear();
        return Saving::Saved;
    }
    let unsaved = hearing.unsaved.handles();
    device.ending = standing(host, unsaved.as_slice());
    Saving::Unsaved(unsaved)
}

/// Returns those connections that exist and are not being disconnected.
fn standing(host: &Host, handles: &[u16]) -> ArrayVec<u16, MAX_SLOTS> {
    let mut standing = ArrayVec::new();
    for connection in host.connections() {
        if handles.contains(&connection.handle) && !connection.ending {
            // It fits: a host has at most `MAX_SLOTS` connections.
            let _ = standing.try_push(connection.handle);
        }
    }
    standing
}
