//! The notices to the supervisor of a device, such as systemd.

use device_io::{Supervisor, monotonic_micros};
use std::alloc::Global;

/// The activity of a device, as its supervisor shows it.
#[derive(Clone, Copy, PartialEq, Eq)]
pub(crate) enum Activity {
    /// It waits for a controller.
    Waiting,
    /// It serves so many clients.
    Serving(usize),
}

/// The supervisor, and the activity that it shows.
#[derive(Clone, Copy)]
pub(crate) struct Supervision {
    supervisor: Supervisor,
    shown: Option<Activity>,
}

impl Supervision {
    /// Returns the supervision of a device that is not ready yet.
    pub(crate) fn new(supervisor: Supervisor) -> Supervision {
        Supervision {
            supervisor,
            shown: None,
        }
    }

    /// Returns true if there is a supervisor.
    pub(crate) fn is_there(&self) -> bool {
        self.supervisor.is_there()
    }

    /// Notifies the supervisor that the device is ready, or ready again.
    pub(crate) fn ready(&self) {
        self.supervisor.notify("READY=1");
    }

    /// Notifies the supervisor that the device reads its keys again, until it is ready again.
    pub(crate) fn reloading(&self, alloc: Global) {
        let micros = monotonic_micros();
        if let Ok(text) = format!(in alloc; "RELOADING=1\nMONOTONIC_USEC={micros}") {
            self.supervisor.notify(text.as_str());
        }
    }

    /// Notifies the supervisor that the device stops.
    pub(crate) fn stopping(&self) {
        self.supervisor.notify("STOPPING=1");
    }

    /// Returns when the watchdog is fed next, in milliseconds.
    pub(crate) fn due(&self) -> Option<u64> {
        self.supervisor.due()
    }

    /// Feeds the watchdog if it is time, and shows what the device does if that has changed.
    pub(crate) fn turn(&mut self, alloc: Global, activity: Activity, now: u64) {
        self.supervisor.feed(now);
        if self.shown != Some(activity) {
            self.show(alloc, activity);
        }
    }

    fn show(&mut self, alloc: Global, activity: Activity) {
        self.shown = Some(activity);
        match activity {
            Activity::Waiting => self.supervisor.notify("STATUS=waiting for a controller"),
            Activity::Serving(1) => self.supervisor.notify("STATUS=serving 1 client"),
            Activity::Serving(count) => {
                if let Ok(text) = format!(in alloc; "STATUS=serving {count} clients") {
                    self.supervisor.notify(text.as_str());
                }
            }
        }
    }
}
