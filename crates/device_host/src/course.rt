//! The course of a device: it serves, stops, or reads its keys again.

use crate::files::KeyFile;

#[derive(Drop)]
pub(crate) enum Course {
    Serves,
    /// It stops once its connections have ended, and at this time at the latest, in milliseconds.
    Stops(u64),
    /// It serves with these keys once its connections have ended, and at this time at the latest.
    Reloads { until: u64, keys: KeyFile },
}

impl Course {
    /// Returns when it no longer waits for the ends of its connections, if it does.
    pub(crate) fn due(&self) -> Option<u64> {
        match self {
            Course::Serves => None,
            Course::Stops(until) | Course::Reloads { until, .. } => Some(*until),
        }
    }
}
