//! A history of a device that only proofs read.

ghost use Rattle.std.specs.Prelude.{◌≡◌, List, [], ◌++◌};
ghost use Rattle.std.specs.Borrow.{ftrue};
ghost use Rattle.device_loop.specs.Happenings.{HistoryEntry};
ghost use Rattle.device_loop.specs.HistoryCode.{coded_history};
ghost use Rattle.device_loop.specs.Noting.{entries_of};

use crate::happenings::Next;
use crate::outside::{Saving, Sending};
use gatt_host::{AppFault, Host};
use std::marker::Model;

/// A part of a turn, which adds entries to a history.
#[derive(Clone, Copy)]
pub enum Note<'a> {
    /// The deadline of a wait, and the event.
    Waited(Option<u64>, Next<'a>),
    /// The answer to a call.
    Answered(Result<(), AppFault>),
    /// The outcome of saving the state of a host.
    Saved(&'a Saving, &'a Host),
    /// The application was answered and notified.
    Told,
    /// The octets to be sent, and the outcome. A failure is noted as if no prefix was sent.
    Sent(&'a [u8], Sending),
}

/// The entries so far. A program keeps none of them.
#[derive(Drop)]
pub struct History {
    kept: u8,
    pub ghost entries: { List HistoryEntry } by { coded_history },
}

impl Model for History {
    ghost also_owns = { λ _. ftrue };
}

impl History {
    /// Returns the history of nothing.
    pub fn none() -> History
        ensures { result.entries ≡ [] }
    {
        History { kept: 0 }
    }

    /// Returns the history with what is noted at its end.
    pub fn with(&self, _note: &Note<'_>) -> History
        ensures { result.entries ≡ self.now.entries ++ entries_of _note.now }
    {
        History { kept: 0 }
    }
}
