//! The controller, and the way to the next one. All times are in milliseconds.

ghost use Rattle.std.specs.Prelude.{◌≡◌, false, is_ok, is_none, length, None, Some, IfErr, IfOk, Ok};
ghost use Rattle.std.specs.Option.{option_copied, option_map};
ghost use Rattle.device_io.specs.Connector.{attempt_of, is_tried};
ghost use Rattle.device_io.specs.Controller as spec;
ghost use Rattle.device_io.specs.ControllerLaws.{GivesUpForAFault, KeepsTheNext, Pauses, ServesOne, SparesProgress, TriesAgain, TriesOn};
ghost use Rattle.device_io.specs.Served.{is_late, words_of};

use crate::connector::{ACCEPT_TIME, CONNECT_TIME, Connector, RETRY_TIME, Reach, listen_again};
use crate::log::Log;
use crate::missed::Missed;
use crate::poller::Poller;
use crate::side::Side;
use crate::system::System;
use std::alloc::Global;
use std::io;
use std::marker::Model;
use std::time::Clock;

/// The current controller, if any, and the way to reach the next one.
#[derive(Drop)]
pub struct Controller<'a> {
    alloc: Global,
    connector: Connector<'a>,
    patience: u64,
    side: Side,
    /// When the next one is tried.
    next: Option<u64>,
    /// Set while no controller may be served.
    is_held: bool,
}

impl<'a> Model for Controller<'a> {
    ghost use Rattle.device_io.specs.Connector.{is_tried};
    ghost use Rattle.device_io.specs.ControllerLaws.{IsReached};
    ghost use Rattle.device_io.specs.ControllerValue as value;

    ghost Value = { value.Controller };

    ghost view = { λ controller. record {
      patience = controller.patience;
      is_tried = is_tried controller.connector;
      side = controller.side;
      next = controller.next;
      is_held = controller.is_held;
    } };

    // The laws hold of it: it became what it is by what they speak of.
    ghost invariant = { λ controller. IsReached (record {
      patience = controller.patience;
      is_tried = is_tried controller.connector;
      side = controller.side;
      next = controller.next;
      is_held = controller.is_held;
    }) };
}

impl<'a> Controller<'a> {
    /// Returns a controller that is not reached yet.
    ///
    /// It is given up if it accepts no bytes for `patience`, or is not initialised in that time. A
    /// connection is lost after twice that time without any sign of the peer.
    #[tactic(auto, using(crate::proofs::Keeping::serves_one, crate::proofs::Keeping::gives_up_for_a_fault, crate::proofs::Keeping::keeps_the_next, crate::proofs::Progress::spares_progress, crate::proofs::Reaching::tries_again, crate::proofs::Reaching::tries_on, crate::proofs::Reaching::pauses))]
    pub fn new(alloc: Global, connector: Connector<'a>, patience: u64) -> Controller<'a>
        ensures first { result ≡ spec.at_first (is_tried connector.entry) patience }
        // The notes on a served controller stay until that one is lost: no second one begins while
        // it is there. Its socket is not among them.
        ensures serves_one { ServesOne }
        // It is given up only if it is late, if octets for it do not fit, if memory for them is
        // refused, or if it cannot be written.
        ensures faults { GivesUpForAFault }
        // It is late exactly if it was not initialised within `patience`, or has accepted none of
        // the octets that wait in that time. The clock is that of the peers.
        ensures progress { SparesProgress }
        // After a loss, the next attempt is due within half a second, unless controllers are held
        // off.
        ensures tries_again { TriesAgain }
        // Without a controller, an attempt is due within three seconds, unless they are held off.
        ensures tries_on { TriesOn }
        // A controller that connects, or an attempt that is due, is not forgotten.
        ensures keeps_next { KeepsTheNext }
        // Two attempts are at least half a second apart.
        ensures pauses { Pauses }
    {
        let next = if connector.is_tried() { Some(0) } else { None };
        Controller {
            alloc,
            connector,
            patience,
            side: Side::Nobody { missed: None },
            next,
            is_held: false,
        }
    }
}

impl Controller<'_> {
    /// Returns true if a controller is served.
    pub fn is_there(&self) -> bool
        ensures there { result ≡ spec.is_served self.now }
    {
        self.side.served().is_some()
    }

    /// Returns true if it can be read or must be given up.
    pub fn is_readable(&self, now: u64) -> bool
        ensures read { result ≡ spec.is_read now self.now }
    {
        match self.side.served() {
            Some(served) => served.needs_a_read(self.patience, now),
            None => false,
        }
    }

    /// Returns why it can no longer be served, if known.
    pub fn fault(&self) -> Option<&'static str>
        ensures fault { option_copied result ≡ option_map words_of (spec.fault_of self.now) }
    {
        Some(self.side.served()?.fault()?.words())
    }

    /// Marks it as initialised. Returns true if that is new.
    #[tactic(auto, using(crate::proofs::Reached::by_initialising))]
    pub fn note_initialised(&mut self) -> bool
        ensures new { result ≡ spec.is_begun self.old }
        ensures initialised { self.new ≡ spec.after_initialising self.old }
    {
        match &mut self.side {
            Side::Served(served) => served.initialise(),
            Side::Nobody { .. } | Side::Next { .. } => false,
        }
    }

    /// Returns true if an initialised controller is served.
    pub fn is_initialised(&self) -> bool
        ensures initialised { result ≡ spec.is_served_initialised self.now }
    {
        match self.side.served() {
            Some(served) => served.is_initialised(),
            None => false,
        }
    }

    /// Returns when it is given up, unless it makes progress.
    pub fn due(&self) -> Option<u64>
        ensures due { result ≡ spec.due_of self.now }
    {
        self.side.served()?.due(self.patience)
    }

    /// Returns true if it was reached since the last call.
    #[tactic(auto, using(crate::proofs::Reached::by_announcing))]
    pub fn has_come(&mut self) -> bool
        ensures new { result ≡ spec.is_new_in self.old }
        ensures announced { self.new ≡ spec.after_announcing self.old }
    {
        match &mut self.side {
            Side::Served(served) => served.announce(),
            Side::Nobody { .. } | Side::Next { .. } => false,
        }
    }

    /// Returns when to try to reach a controller, if necessary.
    pub fn retry(&self) -> Option<u64>
        ensures retry { result ≡ spec.retry_of self.now }
    {
        if self.is_there() || self.is_held {
            None
        } else {
            self.next
        }
    }

    /// Marks it as readable. If `is_ending`, nothing arrives after the bytes that can be read now.
    pub fn note_ready(&mut self, is_ending: bool)
        ensures ready { self.new ≡ spec.after_ready is_ending self.old }
    {
        match &mut self.side {
            Side::Nobody { .. } => {}
            Side::Next { connecting, .. } => connecting.answer(),
            Side::Served(served) => served.ready(is_ending),
        }
    }

    /// Stops serving the controller.
    #[tactic(auto, using(crate::proofs::Reached::by_loss))]
    pub fn lose(&mut self, poller: &Poller)
        ensures lost { self.new ≡ spec.after_loss self.old }
    {
        self.side.lose();
        listen_again(&self.connector, poller);
    }

    /// Reads once. Returns `None` if nothing can be read yet.
    ///
    /// If more may be there, a later turn reads it. Fails also if the controller is given up.
    pub fn read(
        &mut self,
        poller: &Poller,
        now: u64,
        buffer: &mut [u8],
    ) -> io::Result<Option<usize>>
        ensures nobody { spec.is_served self.old ≡ false → result ≡ Ok None }
        ensures sound { IfOk result (λ _. spec.is_over_at now self.old ≡ false) }
        ensures read { IfOk result (λ read. self.new
            ≡ spec.after_reading (length buffer.old) read self.old) }
        ensures failed { IfErr result (λ _. self.new ≡ spec.after_judging now self.old) }
    {
        match &mut self.side {
            Side::Served(served) => served.read(self.patience, poller, now, buffer),
            Side::Nobody { .. } | Side::Next { .. } => Ok(None),
        }
    }

    /// Queues bytes and writes what the controller accepts. Returns false if none is there.
    ///
    /// Fails if the controller cannot be written, too many bytes wait, or memory is refused.
    pub fn write(&mut self, octets: &[u8], poller: &Poller, now: u64) -> io::Result<bool>
        ensures there { IfOk result (λ is_there. is_there ≡ spec.is_served self.old) }
        ensures written { spec.IsWrittenTo octets.now now self.old self.new (is_ok result) }
    {
        match &mut self.side {
            Side::Served(served) => {
                served.write(octets, poller, now)?;
                Ok(true)
            }
            Side::Nobody { .. } | Side::Next { .. } => Ok(false),
        }
    }

    /// Writes waiting bytes as far as the controller accepts them.
    pub fn flush(&mut self, poller: &Poller, now: u64)
        ensures flushed { spec.IsFlushedTo now self.old self.new }
    {
        match &mut self.side {
            Side::Nobody { .. } => {}
            Side::Next { connecting, .. } => connecting.answer(),
            Side::Served(served) => served.flush(poller, now),
        }
    }

    /// Reaches a controller if one connects or if it is time, unless `is_held`.
    pub fn look<R: System>(
        &mut self,
        connects: bool,
        is_held: bool,
        poller: &Poller,
        log: &Log<'_, R>,
        now: u64,
    )
        ensures look { spec.IsLook connects is_held now self.old self.new }
    {
        self.note(connects, is_held, now);
        self.finish(poller, log, now);
        self.try_next(poller, log, now);
    }

    /// Notes whether a controller connects, and whether one may be served.
    fn note(&mut self, connects: bool, is_held: bool, now: u64)
        ensures { self.new ≡ spec.after_notice connects is_held now self.old }
    {
        self.is_held = is_held;
        if is_held {
            self.side.abandon();
        }
        if connects {
            self.next = Some(self.next.unwrap_or(now));
        }
    }

    /// Serves the controller whose connection is made.
    fn finish<R: Clock + Eprint>(&mut self, poller: &Poller, log: &Log<'_, R>, now: u64)
        ensures { spec.IsFinished now self.old self.new }
    {
        if !self.side.is_answered() {
            return;
        }
        let Some(connecting) = self.side.abandon() else {
            return;
        };
        self.next = Some(now.saturating_add(RETRY_TIME));
        match connecting.made(poller) {
            Ok(transport) => self.side.serve(self.alloc, transport, self.patience, now),
            Err(missed) => self.side.miss(missed, &self.connector, log),
        }
    }

    /// Returns true if it is time to try to reach a controller.
    fn is_due(&self, now: u64) -> bool
        ensures { result ≡ is_late (spec.retry_of self.now) now }
    {
        match self.retry() {
            Some(due) => due <= now,
            None => false,
        }
    }

    /// Tries to reach a controller if it is time.
    fn try_next<R: System>(&mut self, poller: &Poller, log: &Log<'_, R>, now: u64)
        ensures { spec.IsTried now self.old self.new }
    {
        if !self.is_due(now) {
            return;
        }
        self.side.end_unanswered(&self.connector, log);
        let reached = self.connector.reach(log.rt, poller);
        self.next = next_after(self.connector.is_tried(), &reached, now);
        match reached {
            Reach::Nobody => {}
            Reach::Begun(transport) => self.side.begin(transport),
            Reach::There(transport) => {
                self.side.serve(self.alloc, transport, self.patience, now);
            }
            Reach::Missed(missed) => self.side.miss(missed, &self.connector, log),
            Reach::Unwatched => self.side.miss(Missed::Unwatched, &self.connector, log),
        }
    }
}

/// Returns when the next attempt is due without an event.
fn next_after(is_tried: bool, reached: &Reach, now: u64) -> Option<u64>
    ensures { result ≡ spec.next_after is_tried (attempt_of reached.now) now }
{
    let pause = match reached {
        Reach::Begun(_) => CONNECT_TIME,
        // The controller keeps waiting.
        Reach::Missed(_) if !is_tried => ACCEPT_TIME,
        _ if is_tried => RETRY_TIME,
        _ => return None,
    };
    Some(now.saturating_add(pause))
}
