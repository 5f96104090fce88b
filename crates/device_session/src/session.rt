//! The session of a device with its controller and its application.

ghost use Rattle.std.specs.Prelude.{◌≡◌, ◌&&◌, [], false, Bool, is_ok, is_some, length, true, unwrap_or, IfErr, IfNone, IfOk, IfSome, IsNone, None, Some};
ghost use Rattle.std.specs.Option.{option_map};
ghost use Rattle.gatt_laws.specs.machine.Calls.{DisconnectCall};
ghost use Rattle.device_io.specs.Controller.{after_judging, after_loss, at_first as untried, fault_of, is_over_at, is_served, is_served_initialised, IsWrittenTo};
ghost use Rattle.device_io.specs.Served.{words_of};
ghost use Rattle.device_session.specs.Acceptance.{accepting};
ghost use Rattle.device_session.specs.Asking.{after_call, after_delay, answer_in, seats_if, asked_if, call_if, call_made, goes_on, may_begin, nothing_asked, with_answer, IsAnswerKept};
ghost use Rattle.device_session.specs.Missed.{after_next_if, next_if, nothing_missed};
ghost use Rattle.device_session.specs.Pending.{without_subject};
ghost use Rattle.device_session.specs.Questions.{called, question_in, question_of};
ghost use Rattle.device_session.specs.Seats.{after_choosing, after_release, has_next_line, has_room_in, is_new, is_visitor, nobody};
ghost use Rattle.device_session.specs.Strangers.{are_limited, first_due, strangers_of};
ghost use Rattle.device_session.specs.Timeout.{lacks_application};
ghost use Rattle.device_session.specs.Turns.{after_work, at_first};
ghost use Rattle.device_session.specs.declared.pending.Subject.TheVariants.{Value};

use crate::acceptance::Acceptance;
use crate::application::Application;
use crate::asked::Asked;
use crate::asking::Asking;
use crate::controller_session::ControllerSession;
use crate::heard::Heard;
use crate::missed::Missed;
use crate::opening::{connector_to, listener_at, record_to};
use crate::peer_clock::PeerClock;
use crate::pending::{Pending, Subject};
use crate::refusals::Refusals;
use crate::seats::Seats;
use crate::strangers::{Keyless, Limits};
use crate::turns::Turns;
use app_lines::Names;
use arrayvec::ArrayVec;
use device_io::{Log, Poller, System};
use device_options::{ApplicationAddress, ControllerAddress};
use host_api::{App, AppFault, MAX_SLOTS};
use std::alloc::{AllocError, Global};
use std::io;
use std::net::{Net, TcpListener, TcpStream};
use std::time::Clock;

/// A device's controller, application, clock and log.
#[derive(Drop)]
pub struct Session<'a, R> {
    pub(crate) alloc: Global,
    pub(crate) log: Log<'a, R>,
    pub(crate) poller: Poller,
    pub(crate) controller: ControllerSession<'a>,
    pub(crate) seats: Seats,
    /// The sockets of the seats.
    pub(crate) application: Application,
    pub(crate) acceptance: Acceptance,
    pub(crate) waits_for_application: bool,
    pub(crate) missed: Missed,
    /// The lines about changes that are not saved yet.
    pub(crate) pending: Pending,
    /// The lines about updates of visitors, to be sent after the save.
    pub(crate) updated: Vec<u8>,
    /// The names of the connections after the last turn.
    pub(crate) names: Names,
    pub(crate) asking: Asking,
    pub(crate) turns: Turns,
    pub(crate) clock: PeerClock,
    pub(crate) refusals: Refusals,
    pub(crate) logs_refusals: bool,
}

impl<'a, R: Net<Listener = TcpListener, Stream = TcpStream> + Clock + Eprint> Session<'a, R> {
    /// Returns a session without a listener for applications.
    ///
    /// A controller is given up if it accepts no bytes for `patience` milliseconds, or is not
    /// initialised in that time.
    pub fn new(
        log: Log<'a, R>,
        alloc: Global,
        address: ControllerAddress<'a>,
        waits_for_application: bool,
        patience: u64,
        limits: Limits,
    ) -> io::Result<Session<'a, R>>
        ensures seats { IfOk result (λ session. session.seats ≡ nobody) }
        ensures asking { IfOk result (λ session. session.asking ≡ nothing_asked) }
        ensures missed { IfOk result (λ session. session.missed ≡ nothing_missed) }
        ensures pending { IfOk result (λ session. session.pending.lines.items ≡ []) }
        ensures updated { IfOk result (λ session. session.updated.items ≡ []) }
        ensures turns { IfOk result (λ session. session.turns ≡ at_first) }
        ensures acceptance { IfOk result (λ session. session.acceptance ≡ accepting) }
        ensures waits { IfOk result
            (λ session. session.waits_for_application ≡ waits_for_application) }
        ensures strangers { IfOk result
            (λ session. session.controller.strangers.limits ≡ limits) }
        ensures controller { IfOk result
            (λ session. (is_tried : Bool) × (session.controller.controller
            ≡ untried is_tried patience)) }
    {
        let poller = Poller::new(alloc, log.rt)?;
        let connector = connector_to(alloc, &log, &poller, address)?;
        let clock = PeerClock::new(log.now());
        Ok(Session {
            alloc,
            log,
            poller,
            controller: ControllerSession::new(alloc, connector, patience, limits),
            seats: Seats::none(alloc),
            application: Application::none(alloc),
            acceptance: Acceptance::new(),
            waits_for_application,
            missed: Missed::new(alloc),
            pending: Pending::new(alloc),
            updated: Vec::new(alloc),
            names: Names::new(),
            asking: Asking::nothing(),
            turns: Turns::new(),
            clock,
            refusals: Refusals::none(),
            logs_refusals: false,
        })
    }
}

impl<'a, R> Session<'a, R> {
    /// Returns the clock and the log.
    pub fn log(&self) -> &Log<'a, R> {
        &self.log
    }

    /// Stops serving the controller.
    pub fn lose(&mut self)
        ensures controller { self.new.controller.controller
            ≡ after_loss self.old.controller.controller }
        ensures strangers { self.new.controller.strangers.known.items ≡ [] }
        ensures seats { self.new.seats ≡ self.old.seats }
        ensures asking { self.new.asking ≡ self.old.asking }
    {
        self.controller.lose(&self.poller);
    }

    /// Returns the next call of the host, if any.
    ///
    /// It disconnects a client without a key after its time limit, or is what the application asks.
    /// Its value lies in a prefix of `buffer`.
    pub fn next_call<'b>(&mut self, buffer: &'b mut [u8]) -> Option<App<'b>>
        ensures stranger { IfSome (first_due self.old.controller.strangers.limits
            self.old.clock.counted self.old.controller.strangers.known.items)
            (λ stranger. option_map called result
            ≡ Some (DisconnectCall stranger.connection.handle)) }
        ensures waits { IfSome (first_due self.old.controller.strangers.limits
            self.old.clock.counted self.old.controller.strangers.known.items)
            (λ _. self.new.asking ≡ self.old.asking) }
        ensures unread { IfSome (first_due self.old.controller.strangers.limits
            self.old.clock.counted self.old.controller.strangers.known.items)
            (λ _. self.new.seats ≡ self.old.seats) }
        ensures call { IfNone (first_due self.old.controller.strangers.limits
            self.old.clock.counted self.old.controller.strangers.known.items)
            (option_map called result ≡ call_made (call_if (may_begin self.old.asking)
            (after_choosing self.old.seats self.old.turns.time) self.old.asking
            self.old.names.named self.old.turns.time (length buffer.old))) }
        ensures asked { IfNone (first_due self.old.controller.strangers.limits
            self.old.clock.counted self.old.controller.strangers.known.items)
            (self.new.asking ≡ asked_if (may_begin self.old.asking)
            (after_choosing self.old.seats self.old.turns.time) self.old.asking
            self.old.names.named self.old.turns.time (length buffer.old)) }
        ensures seats { IfNone (first_due self.old.controller.strangers.limits
            self.old.clock.counted self.old.controller.strangers.known.items)
            (self.new.seats ≡ seats_if (may_begin self.old.asking)
            (after_choosing self.old.seats self.old.turns.time) self.old.seats) }
        ensures turns { self.new.turns ≡ self.old.turns }
    {
        if let Some(handle) = self.controller.strangers.next_due(self.clock.time()) {
            return Some(App::Disconnect(handle));
        }
        let time = self.turns.time();
        self.asking
            .next_call(&mut self.seats, &self.names, time, buffer)
    }

    /// Returns true if the sender of the last line has sent another one that the same save covers.
    ///
    /// No line is taken after work of the device before the clock is read again.
    pub fn has_next_line(&self) -> bool
        ensures { result ≡ (goes_on self.now.turns self.now.asking
            && has_next_line self.now.seats) }
    {
        self.may_go_on() && self.seats.has_next_line()
    }

    fn may_go_on(&self) -> bool
        ensures { result ≡ goes_on self.now.turns self.now.asking }
    {
        self.turns.is_current() && self.asking.may_continue()
    }

    /// Returns the call of the next line of the sender of the last one, if it makes one.
    pub fn next_call_of_asker<'b>(&mut self, buffer: &'b mut [u8]) -> Option<App<'b>>
        ensures call { option_map called result ≡ call_made (call_if
            (goes_on self.old.turns self.old.asking) self.old.seats self.old.asking
            self.old.names.named self.old.turns.time (length buffer.old)) }
        ensures asked { self.new.asking ≡ asked_if (goes_on self.old.turns self.old.asking)
            self.old.seats self.old.asking
            self.old.names.named self.old.turns.time (length buffer.old) }
        ensures seats { self.new.seats ≡ seats_if
            (goes_on self.old.turns self.old.asking) self.old.seats
            self.old.seats }
        ensures turns { self.new.turns ≡ self.old.turns }
    {
        if !self.turns.is_current() {
            return None;
        }
        let time = self.turns.time();
        self.asking
            .next_call_of_asker(&mut self.seats, &self.names, time, buffer)
    }

    /// Returns true if the last line was not the application's.
    pub fn is_visited(&self) -> bool
        ensures { result ≡ is_visitor self.now.seats.askers.asker }
    {
        self.seats.is_visited()
    }

    /// Stores the answer to the line that waits, until the changes are saved. Stores nothing if no
    /// line waits.
    pub fn answer_later(&mut self, text: Result<Vec<u8>, AllocError>)
        ensures kept { IfOk text
            (λ text. IsAnswerKept (Some text.items) self.old.asking self.new.asking) }
        ensures refused { IfErr text (λ _. self.new.asking ≡ with_answer None self.old.asking) }
        ensures seats { self.new.seats ≡ self.old.seats }
        ensures pending { self.new.pending ≡ self.old.pending }
    {
        self.asking.keep_answer(text);
    }

    /// Notes that an application has updated a value. This replaces a write that is not saved.
    pub fn note_update(&mut self, handle: u16)
        ensures pending { self.new.pending.lines.items
            ≡ without_subject (Value handle) self.old.pending.lines.items }
        ensures seats { self.new.seats ≡ self.old.seats }
        ensures asking { self.new.asking ≡ self.old.asking }
        ensures updated { self.new.updated ≡ self.old.updated }
        ensures names { self.new.names ≡ self.old.names }
    {
        self.pending.forget(Subject::Value(handle));
    }

    /// Stores the names of the connections.
    pub fn know(&mut self, heard: &Heard)
        ensures names { self.new.names ≡ heard.now.names }
        ensures seats { self.new.seats ≡ self.old.seats }
        ensures asking { self.new.asking ≡ self.old.asking }
        ensures pending { self.new.pending ≡ self.old.pending }
    {
        self.names = heard.names.copy();
    }

    /// Returns the names of the connections.
    pub fn names(&self) -> &Names
        ensures names { result.now ≡ self.now.names }
    {
        &self.names
    }

    /// Stores the answer to the call of the line that waits.
    pub fn answered(&mut self, answer: Result<(), AppFault>)
        ensures asking { self.new.asking ≡ after_call answer self.old.asking }
        ensures seats { self.new.seats ≡ self.old.seats }
    {
        self.asking.answered(answer);
    }

    /// Returns the answer to the call of the line that waits.
    pub fn answer(&self) -> Result<(), AppFault>
        ensures { result ≡ answer_in self.now.asking.unanswered }
    {
        self.asking.answer()
    }

    /// Returns the line that waits for its answer, unless this is put off.
    pub fn asked(&self) -> Asked<'_>
        ensures { question_of result
            ≡ question_in self.now.asking.unanswered self.now.asking.line }
    {
        self.asking.asked()
    }

    /// Puts off the answer to the line that waits. No line is read until it is answered.
    pub fn put_off_answer(&mut self)
        ensures asking { self.new.asking ≡ after_delay self.old.asking }
        ensures seats { self.new.seats ≡ self.old.seats }
        ensures names { self.new.names ≡ self.old.names }
        ensures pending { self.new.pending ≡ self.old.pending }
    {
        self.asking.put_off();
    }

    /// Reads no more lines. The last one may still be answered.
    pub fn hold(&mut self)
        ensures seats { self.new.seats
            ≡ record self.old.seats { is_held = true } }
        ensures asking { self.new.asking ≡ self.old.asking }
        ensures names { self.new.names ≡ self.old.names }
        ensures pending { self.new.pending ≡ self.old.pending }
    {
        self.seats.hold();
    }

    /// Reads lines again after `hold`.
    pub fn release(&mut self)
        ensures seats { self.new.seats ≡ after_release self.old.seats }
        ensures asking { self.new.asking ≡ self.old.asking }
    {
        self.seats.release();
    }

    /// Returns true if clients without a key have a time limit.
    pub fn looks_for_strangers(&self) -> bool
        ensures { result ≡ are_limited self.now.controller.strangers.limits }
    {
        self.controller.strangers.are_limited()
    }

    /// Updates the clients without a key.
    pub fn look_for_strangers(&mut self, keyless: &ArrayVec<Keyless, MAX_SLOTS>)
        ensures known { self.new.controller.strangers.known.items
            ≡ strangers_of self.old.controller.strangers.known.items self.old.clock.counted
            keyless.now.items }
        ensures limits { self.new.controller.strangers.limits
            ≡ self.old.controller.strangers.limits }
        ensures controller { self.new.controller.controller
            ≡ self.old.controller.controller }
        ensures seats { self.new.seats ≡ self.old.seats }
        ensures asking { self.new.asking ≡ self.old.asking }
        ensures missed { self.new.missed ≡ self.old.missed }
        ensures pending { self.new.pending ≡ self.old.pending }
        ensures updated { self.new.updated ≡ self.old.updated }
        ensures names { self.new.names ≡ self.old.names }
    {
        self.controller.strangers.look(keyless, self.clock.time());
    }

    /// Returns true if a controller is served without a required application.
    pub fn lacks_application(&self) -> bool
        ensures { result ≡ lacks_application self.now.waits_for_application
            self.now.controller.controller self.now.seats }
    {
        self.has_controller() && self.waits_for_application && !self.seats.is_there()
    }

    /// Returns the next value that an application missed, and marks it as notified.
    ///
    /// Returns `None` if no application can accept a line.
    pub fn next_missed(&mut self) -> Result<Option<u16>, AllocError>
        ensures first { IfOk result (λ handle. handle
            ≡ next_if (has_room_in self.old.seats) self.old.missed) }
        ensures missed { IfOk result (λ _. self.new.missed
            ≡ after_next_if (has_room_in self.old.seats) self.old.missed) }
        ensures unchanged { IfErr result (λ _. self.new.missed ≡ self.old.missed) }
        ensures seats { self.new.seats ≡ self.old.seats }
        ensures asking { self.new.asking ≡ self.old.asking }
        ensures pending { self.new.pending ≡ self.old.pending }
        ensures updated { self.new.updated ≡ self.old.updated }
        ensures names { self.new.names ≡ self.old.names }
        ensures controller { self.new.controller ≡ self.old.controller }
    {
        if self.seats.has_room() {
            self.missed.next()
        } else {
            Ok(None)
        }
    }

    /// Returns true if an application lacks the current state.
    pub fn has_new_application(&self) -> bool
        ensures { result ≡ is_new self.now.seats }
    {
        self.seats.is_new()
    }

    /// Returns true if a controller is served.
    pub fn has_controller(&self) -> bool
        ensures { result ≡ is_served self.now.controller.controller }
    {
        self.controller.controller.is_there()
    }

    /// Returns true if an initialised controller is served.
    pub fn is_serving(&self) -> bool
        ensures { result ≡ is_served_initialised self.now.controller.controller }
    {
        self.controller.controller.is_initialised()
    }
}

impl<R: Clock + Eprint> Session<'_, R> {
    /// Reads octets of the controller. Returns `None` if nothing can be read yet, and no octets at
    /// the end.
    pub fn read<'b>(&mut self, buffer: &'b mut [u8]) -> io::Result<Option<&'b [u8]>>
        ensures nobody { is_served self.old.controller.controller ≡ false → IfOk result IsNone }
        ensures sound { IfOk result
            (λ _. is_over_at self.old.clock.counted self.old.controller.controller ≡ false) }
        ensures failed { IfErr result (λ _. self.new.controller.controller
            ≡ after_judging self.old.clock.counted self.old.controller.controller) }
        ensures turns { self.new.turns ≡ self.old.turns }
        ensures seats { self.new.seats ≡ self.old.seats }
        ensures asking { self.new.asking ≡ self.old.asking }
    {
        let now = self.clock.time();
        self.controller.read(&self.poller, &self.log, now, buffer)
    }

    /// Writes octets to the controller, and to the capture. Returns false if there is none.
    ///
    /// This is work, as the disk of the capture may be slow.
    pub fn write(&mut self, octets: &[u8]) -> io::Result<bool>
        ensures turns { self.new.turns ≡ after_work self.old.turns }
        ensures there { IfOk result
            (λ is_there. is_there ≡ is_served self.old.controller.controller) }
        ensures written { IsWrittenTo octets.now self.old.clock.counted
            self.old.controller.controller self.new.controller.controller (is_ok result) }
        ensures seats { self.new.seats ≡ self.old.seats }
        ensures asking { self.new.asking ≡ self.old.asking }
    {
        let now = self.clock.time();
        self.turns.worked();
        self.controller.write(octets, &self.poller, &self.log, now)
    }

    /// Returns why the controller was given up, or else `otherwise`.
    pub fn why_lost(&self, otherwise: &'static str) -> &'static str
        ensures { result.now ≡ unwrap_or
            (option_map words_of (fault_of self.now.controller.controller)) otherwise.now }
    {
        self.controller.controller.fault().unwrap_or(otherwise)
    }

    /// Begins work of the device itself, such as a save: its time counts for no limit of a peer.
    ///
    /// Call `end_work` then. The host gets octets and lines only after the clock was read again.
    pub fn begin_work(&mut self)
        ensures turns { self.new.turns ≡ self.old.turns }
        ensures seats { self.new.seats ≡ self.old.seats }
        ensures asking { self.new.asking ≡ self.old.asking }
        ensures pending { self.new.pending ≡ self.old.pending }
    {
        self.clock.count(self.log.now());
    }

    /// Ends work of the device itself.
    pub fn end_work(&mut self)
        ensures turns { self.new.turns ≡ after_work self.old.turns }
        ensures seats { self.new.seats ≡ self.old.seats }
        ensures asking { self.new.asking ≡ self.old.asking }
        ensures pending { self.new.pending ≡ self.old.pending }
    {
        self.clock.skip(self.log.now());
        self.turns.worked();
    }
}

impl<R: System> Session<'_, R> {
    /// Listens for applications at an address.
    pub fn listen_for_applications(&mut self, address: ApplicationAddress<'_>) -> io::Result<()>
        ensures seats { self.new.seats ≡ self.old.seats }
        ensures asking { self.new.asking ≡ self.old.asking }
    {
        let listener = listener_at(self.alloc, &self.log, &self.poller, address)?;
        self.application.listen(listener);
        Ok(())
    }

    /// Begins a capture of at most `most` bytes, if there is a path.
    ///
    /// Prints an error if the file cannot be created.
    pub fn record(&mut self, path: Option<&str>, most: u64) -> io::Result<()>
        ensures nothing { is_some path.entry ≡ false → self.new.controller ≡ self.old.controller }
        ensures controller { self.new.controller.controller
            ≡ self.old.controller.controller }
        ensures seats { self.new.seats ≡ self.old.seats }
        ensures asking { self.new.asking ≡ self.old.asking }
    {
        if let Some(path) = path {
            self.controller.recording = record_to(self.log.rt, self.alloc, path, most)?;
        }
        Ok(())
    }
}
