//! The texts that a session sends to its application, and its log.

ghost use Rattle.std.specs.Prelude.{◌≡◌, ◌⊎◌, ◌++◌, [], false, map, true, Some};
ghost use Rattle.std.specs.Option.{option_map};
ghost use Rattle.std.specs.Result.{result_ok};
ghost use Rattle.app_lines.specs.Told.{told_line};
ghost use Rattle.app_lines.specs.declared.told.Told.TheVariants.{Serving};
ghost use Rattle.device_session.specs.Application.{IsFlushed};
ghost use Rattle.device_session.specs.Asking.{closing_now, replied, stays_open};
ghost use Rattle.device_session.specs.Seats.{after_end, after_welcome, has_read_all, is_there};
ghost use Rattle.device_session.specs.declared.pending.Subject.TheVariants.{Value};
ghost use Rattle.device_session.specs.Telling.{AreLinesTold, AreNoted, IsSavedTold, IsUnsavedTold, after_telling_of, is_initialised_first, IsLast, IsReplied, IsReply, IsSaidOrEnded, IsTold};

use crate::heard::Heard;
use crate::output::{
    flush, log_lines, reply, tell, tell_heard, tell_pending, tell_text, tell_updates, welcome,
};
use crate::session::Session;
use app_lines::{Told, add_told};
use std::alloc::AllocError;
use std::time::Clock;

impl<R: Clock + Eprint> Session<'_, R> {
    /// Logs and notifies that a controller was reached or initialised.
    pub fn tell_controller(&mut self, is_initialised: bool)
        ensures controller { self.new.controller.controller
            ≡ after_telling_of is_initialised self.old.controller.controller }
        // The application is notified once that the controller is initialised.
        ensures seats { is_initialised_first is_initialised self.old.controller.controller
            ≡ true → IsTold (Some (told_line Serving)) self.old.seats self.new.seats }
        ensures unchanged { is_initialised_first is_initialised self.old.controller.controller
            ≡ false → self.new.seats ≡ self.old.seats }
        ensures asking { self.new.asking ≡ self.old.asking }
        ensures missed { self.new.missed ≡ self.old.missed }
        ensures pending { self.new.pending ≡ self.old.pending }
        ensures updated { self.new.updated ≡ self.old.updated }
        ensures names { self.new.names ≡ self.old.names }
    {
        if self.controller.controller.has_come() {
            self.log.say("controller");
        }
        if is_initialised && self.controller.controller.note_initialised() {
            self.log.say("serving: the controller is initialised");
            tell(self.alloc, &mut self.seats, &self.log, &Told::Serving);
        }
    }

    /// Writes to the application what it accepts.
    pub fn flush(&mut self)
        ensures seats { IsFlushed self.old.seats self.new.seats }
        ensures missed { is_there self.new.seats ≡ true
            → self.new.missed ≡ self.old.missed }
        ensures ended { is_there self.new.seats ≡ false
            → IsLast (has_read_all self.new.seats) self.old.missed self.new.missed }
        ensures asking { self.new.asking ≡ self.old.asking }
        ensures pending { self.new.pending ≡ self.old.pending }
        ensures updated { self.new.updated ≡ self.old.updated }
        ensures names { self.new.names ≡ self.old.names }
        ensures controller { self.new.controller ≡ self.old.controller }
    {
        flush(
            &mut self.application,
            &mut self.seats,
            &mut self.missed,
            &self.log,
        );
    }

    /// Sends the application a line, unless it lacks the current state.
    pub fn tell(&mut self, told: &Told<'_>)
        ensures seats { IsTold (Some (told_line told.now)) self.old.seats
            self.new.seats }
        ensures asking { self.new.asking ≡ self.old.asking }
        ensures missed { self.new.missed ≡ self.old.missed }
        ensures pending { self.new.pending ≡ self.old.pending }
        ensures updated { self.new.updated ≡ self.old.updated }
        ensures names { self.new.names ≡ self.old.names }
        ensures controller { self.new.controller ≡ self.old.controller }
    {
        tell(self.alloc, &mut self.seats, &self.log, told);
    }

    /// Sends the notices of a turn to the application and the log.
    ///
    /// If the changes of clients are not saved, the lines about them wait.
    pub fn tell_heard(&mut self, heard: &Heard, is_saved: bool)
        // The lines about changes wait only if these are not saved.
        ensures saved { is_saved ≡ true → IsSavedTold heard.now.is_refused heard.now.text
            heard.now.changes heard.now.written self.old.seats
            self.old.missed self.new.seats self.new.missed }
        ensures unsaved { is_saved ≡ false → IsUnsavedTold heard.now.is_refused
            heard.now.text heard.now.changes self.old.seats
            self.old.pending.lines.items self.new.seats self.new.pending.lines.items }
        ensures written { is_saved ≡ false → AreNoted (map Value heard.now.written)
            self.new.seats self.old.missed self.new.missed }
        ensures pending { is_saved ≡ true
            → self.new.pending.lines.items ≡ self.old.pending.lines.items }
        ensures asking { self.new.asking ≡ self.old.asking }
        ensures updated { self.new.updated ≡ self.old.updated }
        ensures names { self.new.names ≡ self.old.names }
    {
        tell_heard(
            &mut self.seats,
            &mut self.missed,
            &mut self.pending,
            &self.log,
            heard,
            is_saved,
        );
    }

    /// Sends the lines that waited for a save.
    pub fn tell_pending(&mut self)
        // Each line goes to the application once, in order.
        ensures told { AreLinesTold self.old.pending.lines.items self.old.seats
            self.old.missed self.new.seats self.new.missed }
        ensures pending { self.new.pending.lines.items ≡ [] }
        ensures asking { self.new.asking ≡ self.old.asking }
        ensures updated { self.new.updated ≡ self.old.updated }
        ensures names { self.new.names ≡ self.old.names }
    {
        tell_pending(
            &mut self.seats,
            &mut self.missed,
            &mut self.pending,
            &self.log,
        );
    }

    /// Sends the lines of connections that end to the application and the log.
    pub fn tell_ends(&mut self, ends: Result<Vec<u8>, AllocError>)
        ensures seats { IsTold (option_map (λ text. text.items) (result_ok ends))
            self.old.seats self.new.seats }
        ensures asking { self.new.asking ≡ self.old.asking }
        ensures missed { self.new.missed ≡ self.old.missed }
        ensures pending { self.new.pending ≡ self.old.pending }
        ensures updated { self.new.updated ≡ self.old.updated }
        ensures names { self.new.names ≡ self.old.names }
    {
        if let Ok(text) = &ends {
            log_lines(&self.log, text.as_slice());
        }
        self.tell_lines(ends);
    }

    /// Stores a line for the application about an update of a visitor, until it is saved.
    pub fn tell_later(&mut self, told: &Told<'_>)
        ensures seats { (self.new.seats ≡ self.old.seats)
            ⊎ (self.new.seats ≡ after_end self.old.seats) }
        // The line is the last, unless memory was refused for it.
        ensures updated { (self.new.updated.items ≡ self.old.updated.items ++ told_line told.now)
            ⊎ (self.new.seats ≡ after_end self.old.seats) }
        ensures asking { self.new.asking ≡ self.old.asking }
        ensures pending { self.new.pending ≡ self.old.pending }
        ensures names { self.new.names ≡ self.old.names }
    {
        if add_told(&mut self.updated, told).is_err() {
            self.log.say("memory: refused for an application");
            self.seats.end();
        }
    }

    /// Sends the application lines, unless it lacks the current state.
    pub fn tell_lines(&mut self, text: Result<Vec<u8>, AllocError>)
        ensures seats { IsTold (option_map (λ text. text.items) (result_ok text))
            self.old.seats self.new.seats }
        ensures asking { self.new.asking ≡ self.old.asking }
        ensures missed { self.new.missed ≡ self.old.missed }
        ensures pending { self.new.pending ≡ self.old.pending }
        ensures updated { self.new.updated ≡ self.old.updated }
        ensures names { self.new.names ≡ self.old.names }
        ensures controller { self.new.controller ≡ self.old.controller }
    {
        tell_text(&mut self.seats, &self.log, text);
    }

    /// Sends the stored answers, and the stored lines about updates of visitors.
    pub fn reply(&mut self)
        ensures asking { self.new.asking ≡ replied self.old.asking }
        ensures seats { IsReplied self.old.asking.answers
            (stays_open (closing_now self.old.asking)) self.old.updated.items
            self.old.seats self.new.seats }
        ensures updated { self.new.updated.items ≡ [] }
        ensures missed { self.new.missed ≡ self.old.missed }
        ensures pending { self.new.pending ≡ self.old.pending }
        ensures names { self.new.names ≡ self.old.names }
    {
        self.send_answers();
        let updated = std::mem::replace(&mut self.updated, Vec::new(self.alloc));
        tell_updates(&mut self.seats, &self.log, updated);
    }

    /// Sends the stored answers.
    fn send_answers(&mut self)
        ensures asking { self.new.asking ≡ replied self.old.asking }
        ensures seats { IsReply self.old.asking.answers
            (stays_open (closing_now self.old.asking)) self.old.seats
            self.new.seats }
        ensures updated { self.new.updated ≡ self.old.updated }
        ensures missed { self.new.missed ≡ self.old.missed }
        ensures pending { self.new.pending ≡ self.old.pending }
        ensures names { self.new.names ≡ self.old.names }
    {
        if let Some((text, closing)) = self.asking.take_reply() {
            reply(
                &mut self.application,
                &mut self.seats,
                &self.log,
                closing,
                text,
            );
        }
    }

    /// Sends a new application the current state.
    pub fn welcome(&mut self, text: Result<Vec<u8>, AllocError>)
        ensures seats { IsSaidOrEnded (option_map (λ text. text.items) (result_ok text))
            (after_welcome self.old.seats) self.new.seats }
        ensures asking { self.new.asking ≡ self.old.asking }
        ensures missed { self.new.missed ≡ self.old.missed }
        ensures pending { self.new.pending ≡ self.old.pending }
        ensures updated { self.new.updated ≡ self.old.updated }
        ensures names { self.new.names ≡ self.old.names }
        ensures controller { self.new.controller ≡ self.old.controller }
    {
        welcome(&mut self.seats, &self.log, text);
    }
}
