//! The lines of the log about refused rights.

ghost use Rattle.std.specs.Prelude.{◌≡◌, []};
ghost use Rattle.device_session.specs.Refusals.{tallies_after_packet, current_tallies};

use crate::refusals::{Refusal, SentRefusal, Tally};
use crate::session::Session;
use app_lines::Names;
use device_io::Log;
use std::alloc::Global;
use std::time::Clock;

impl<R: Clock + Eprint> Session<'_, R> {
    /// Logs refused rights from now on, if `are_logged`.
    pub fn log_refusals(&mut self, are_logged: bool) {
        self.logs_refusals = are_logged;
    }

    /// Returns true if refused rights are logged.
    pub fn logs_refusals(&self) -> bool
        ensures { result ≡ self.now.logs_refusals }
    {
        self.logs_refusals
    }

    /// Counts the refusal of a right, if this H4 packet that was sent is one. Logs it if it is the
    /// first of its kind to its connection.
    pub fn note_sent(&mut self, packet: &[u8])
        ensures counted { self.new.refusals.tallies.items
            ≡ tallies_after_packet self.old.names.named
            self.old.refusals.before.named packet.now self.old.refusals.tallies.items }
        ensures before { self.new.refusals.before ≡ self.old.refusals.before }
        ensures names { self.new.names ≡ self.old.names }
        ensures application { self.new.application ≡ self.old.application }
        ensures asking { self.new.asking ≡ self.old.asking }
    {
        let Some(sent) = SentRefusal::of(packet) else {
            return;
        };
        let connection = self.refusals.name_of(sent.handle, &self.names);
        if self.refusals.note(connection, sent.refusal) {
            say_first(self.alloc, &self.log, connection, &sent.refusal);
        }
    }

    /// Ends a turn: logs the numbers of refusals to the connections that have ended.
    pub fn end_refusals(&mut self)
        ensures current { self.new.refusals.tallies.items
            ≡ current_tallies self.old.names.named self.old.refusals.tallies.items }
        ensures before { self.new.refusals.before ≡ self.old.names }
        ensures names { self.new.names ≡ self.old.names }
        ensures application { self.new.application ≡ self.old.application }
        ensures asking { self.new.asking ≡ self.old.asking }
    {
        let ended = self.refusals.take_ended(&self.names);
        say_numbers(self.alloc, &self.log, ended.as_slice());
    }

    /// Logs the numbers of refusals to all connections, because all have ended.
    #[tactic(auto, using(crate::proofs::Tallying::none_current))]
    pub fn end_all_refusals(&mut self)
        ensures none { self.new.refusals.tallies.items ≡ [] }
        ensures application { self.new.application ≡ self.old.application }
        ensures asking { self.new.asking ≡ self.old.asking }
    {
        let ended = self.refusals.take_ended(&Names::new());
        say_numbers(self.alloc, &self.log, ended.as_slice());
    }
}

fn say_first<R: Clock + Eprint>(
    alloc: Global,
    log: &Log<'_, R>,
    connection: u64,
    refusal: &Refusal,
) {
    let Refusal {
        attribute,
        code,
        ..
    } = *refusal;
    let operation = operation_of(refusal);
    if let Ok(line) = format!(in alloc; "refused {connection} {operation} {attribute} {code:02x}") {
        log.say(line.as_str());
    }
}

/// Logs the numbers of some connections. A single refusal has had its line.
fn say_numbers<R: Clock + Eprint>(alloc: Global, log: &Log<'_, R>, tallies: &[Tally]) {
    for tally in tallies {
        if tally.refusal.is_none() || tally.count > 1 {
            say_number(alloc, log, tally);
        }
    }
}

fn say_number<R: Clock + Eprint>(alloc: Global, log: &Log<'_, R>, tally: &Tally) {
    let Tally {
        connection,
        count,
        ..
    } = *tally;
    let line = match &tally.refusal {
        Some(refusal) => {
            let Refusal {
                attribute,
                code,
                ..
            } = *refusal;
            let operation = operation_of(refusal);
            format!(in alloc;
                "refused {connection} {operation} {attribute} {code:02x} {count} times"
            )
        }
        None => format!(in alloc; "refused {connection} {count} more"),
    };
    if let Ok(line) = line {
        log.say(line.as_str());
    }
}

fn operation_of(refusal: &Refusal) -> &'static str {
    if refusal.is_write { "write" } else { "read" }
}
