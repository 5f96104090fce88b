//! The wait of a session for its next turn. All times are in milliseconds.

ghost use Rattle.std.specs.Prelude.{◌≡◌, ◌&&◌, ◌||◌, false, not, true};
ghost use Rattle.device_session.specs.Strangers.{first_limit};
ghost use Rattle.device_session.specs.Timeout.{application_acts, limits_of, reads_controller, session_acts, timeout_of};
ghost use Rattle.device_session.specs.Turns.{after_reading, reads, IsTurn};
ghost use Rattle.device_session.specs.Acceptance.{accepts_at};
ghost use Rattle.device_session.specs.Seats.{is_there};
ghost use Rattle.device_session.specs.Waits.{has_other, readied_if, AreSame, IsAcceptanceIf, IsFlushedIf, IsReadyIf, IsTakenIn, IsWait, waiting_parts_of};

use crate::acceptance::Acceptance;
use crate::application::Application;
use crate::output::{accept, fill};
use crate::seats::Seats;
use crate::session::Session;
use crate::timeout::timeout_of;
use device_io::{Controller, ControllerReady, Log, Poller, Ready, System};
use std::alloc::Global;
use std::time::{Clock, Duration};

impl<R: Clock + Eprint> Session<'_, R> {
    /// Returns true if the controller is read now. It takes turns with other input.
    ///
    /// It is not read while too much waits for the application, so that no client can cause that to
    /// be cut off.
    pub fn is_controller_next(&mut self) -> bool
        ensures read { result ≡ reads self.old.turns (reads_controller
            self.old.clock.counted self.old.controller.controller self.old.seats)
            (has_other self.old.controller.strangers.limits
            self.old.controller.strangers.known.items self.old.clock.counted
            self.old.acceptance self.old.seats) }
        ensures turns { self.new.turns ≡ after_reading self.old.turns (reads_controller
            self.old.clock.counted self.old.controller.controller self.old.seats)
            (has_other self.old.controller.strangers.limits
            self.old.controller.strangers.known.items self.old.clock.counted
            self.old.acceptance self.old.seats) }
        ensures seats { self.new.seats ≡ self.old.seats }
        ensures asking { self.new.asking ≡ self.old.asking }
        ensures names { self.new.names ≡ self.old.names }
    {
        let has_other = self.controller.strangers.is_due(self.clock.time()) || self.has_something();
        let is_readable = self.is_controller_readable();
        self.turns.is_read(is_readable, has_other)
    }

    fn is_controller_readable(&self) -> bool
        ensures { result ≡ reads_controller self.now.clock.counted
            self.now.controller.controller self.now.seats }
    {
        !self.seats.is_full() && self.controller.controller.is_readable(self.clock.time())
    }

    /// Returns how long to wait at most, in milliseconds: not at all if there is something to do,
    /// and not for long while a time limit of a peer runs.
    ///
    /// The `deadline` is of the host, whose time is `now`.
    fn timeout(&self, deadline: Option<u64>, now: u64) -> Option<u64>
        ensures { result ≡ timeout_of
            (session_acts self.now.waits_for_application self.now.clock.counted
            self.now.controller.controller self.now.acceptance self.now.seats)
            (limits_of self.now.controller.controller self.now.acceptance self.now.seats
            (first_limit self.now.controller.strangers.limits
            self.now.controller.strangers.known.items))
            self.now.clock.counted deadline now }
    {
        let acts = self.is_controller_readable()
            || self.has_something()
            || self.lacks_application();
        let limits = [
            self.controller.controller.due(),
            self.controller.controller.retry(),
            self.acceptance.due(),
            self.seats.due(),
            self.controller.strangers.due(),
        ];
        timeout_of(acts, &limits, self.clock.time(), deadline, now)
    }

    /// Returns true if the application or its visitor can be served without waiting.
    fn has_something(&self) -> bool
        ensures { result ≡ application_acts self.now.acceptance self.now.seats }
    {
        self.seats.has_something(self.acceptance.due().is_none())
    }
}

impl<R: System> Session<'_, R> {
    /// Waits for something to do, and returns the time in milliseconds if it has advanced.
    ///
    /// In the turn after a returned time, returns `None` without waiting, unless the device has
    /// worked since.
    pub fn next_tick(&mut self, deadline: Option<u64>) -> Option<u64>
        ensures turn { IsTurn self.old.turns result self.new.turns }
        ensures same { self.old.turns.is_told ≡ true
            → AreSame (waiting_parts_of self.old) (waiting_parts_of self.new) }
        ensures waited { self.old.turns.is_told ≡ false
            → IsWait self.old.waits_for_application
            (waiting_parts_of self.old) (waiting_parts_of self.new) }
        ensures asking { self.new.asking ≡ self.old.asking }
        ensures names { self.new.names ≡ self.old.names }
        ensures pending { self.new.pending ≡ self.old.pending }
        ensures updated { self.new.updated ≡ self.old.updated }
    {
        if self.turns.was_told() {
            return None;
        }
        self.wait(deadline);
        self.turns.tick(self.log.now())
    }

    fn wait(&mut self, deadline: Option<u64>)
        ensures waited { IsWait self.old.waits_for_application
            (waiting_parts_of self.old) (waiting_parts_of self.new) }
        ensures turns { self.new.turns ≡ self.old.turns }
        ensures asking { self.new.asking ≡ self.old.asking }
        ensures names { self.new.names ≡ self.old.names }
        ensures pending { self.new.pending ≡ self.old.pending }
        ensures updated { self.new.updated ≡ self.old.updated }
    {
        self.clock.count(self.log.now());
        let now = self.clock.time();
        fill(
            self.alloc,
            &mut self.application,
            &mut self.seats,
            &mut self.missed,
            &self.log,
            now,
        );
        if self.application.watch(&mut self.seats, now) {
            self.log.say("application cut off: it does not read");
        }
        let timeout = self.timeout(deadline, self.log.now());
        let waited = self.poller.wait(duration_of(timeout));
        self.clock.count(self.log.now());
        if let Ok(ready) = waited {
            self.take_in(ready);
        }
    }

    fn take_in(&mut self, ready: Ready)
        ensures taken { IsTakenIn ready self.old.waits_for_application
            (waiting_parts_of self.old) (waiting_parts_of self.new) }
        ensures turns { self.new.turns ≡ self.old.turns }
        ensures asking { self.new.asking ≡ self.old.asking }
        ensures names { self.new.names ≡ self.old.names }
        ensures pending { self.new.pending ≡ self.old.pending }
        ensures updated { self.new.updated ≡ self.old.updated }
    {
        let now = self.clock.time();
        note_controller(
            &mut self.controller.controller,
            ready.controller,
            &self.poller,
            now,
        );
        note_application(&mut self.application, &mut self.seats, ready.application);
        accept_if_due(
            self.alloc,
            &mut self.application,
            &mut self.seats,
            &mut self.acceptance,
            ready.applications,
            &self.poller,
            &self.log,
            now,
        );
        let is_held = self.is_held();
        self.controller
            .controller
            .look(ready.controllers, is_held, &self.poller, &self.log, now);
    }

    /// Returns true if no controller is served because there is no application.
    fn is_held(&self) -> bool
        ensures { result ≡ (self.now.waits_for_application
            && not (is_there self.now.seats)) }
    {
        self.waits_for_application && !self.seats.is_there()
    }
}

/// Notes that the controller can be read, and writes if it accepts more.
fn note_controller(
    controller: &mut Controller<'_>,
    ready: ControllerReady,
    poller: &Poller,
    now: u64,
)
    ensures { IsFlushedIf ready.takes_more now
        (readied_if ready.is_readable ready.is_ending controller.old) controller.new }
{
    if ready.is_readable {
        controller.note_ready(ready.is_ending);
    }
    if ready.takes_more {
        controller.flush(poller, now);
    }
}

fn note_application(application: &mut Application, seats: &mut Seats, is_ready: bool)
    ensures { IsReadyIf is_ready seats.old seats.new }
{
    if is_ready {
        application.note_ready(seats);
    }
}

/// Accepts the next visitor if one connects, or if its delay is over.
fn accept_if_due<R: Clock + Eprint>(
    alloc: Global,
    application: &mut Application,
    seats: &mut Seats,
    acceptance: &mut Acceptance,
    connects: bool,
    poller: &Poller,
    log: &Log<'_, R>,
    now: u64,
)
    ensures { IsAcceptanceIf (accepts_at acceptance.old
        (connects || seats.old.is_knocking) now) now
        seats.old acceptance.old seats.new acceptance.new }
{
    let connects = connects || seats.is_knocking();
    if acceptance.is_due(connects, now) {
        accept(alloc, application, seats, acceptance, poller, log, now);
    }
}

fn duration_of(wait: Option<u64>) -> Option<Duration> {
    Some(Duration::from_millis(wait?))
}
