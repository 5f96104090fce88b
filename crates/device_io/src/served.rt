//! A controller that is served. All times are in milliseconds.

ghost use Rattle.std.specs.Prelude.{◌≡◌, false, true, is_ok, is_none, is_some, length, IfErr, IfOk};
ghost use Rattle.device_io.specs.Served as spec;

use crate::outbound::Outbound;
use crate::patience::given_up_at;
use crate::poller::{Poller, Source};
use crate::transport::Transport;
use std::alloc::Global;
use std::io;
use std::io::ErrorKind;
use std::marker::Model;

/// The progress of a controller.
#[derive(Clone, Copy)]
pub(crate) enum Progress {
    /// It was reached at this time, and is not announced yet.
    New(u64),
    /// It was reached at this time, and is not initialised yet.
    Begun(u64),
    Initialised,
}

/// Why a controller can no longer be served.
#[derive(Clone, Copy)]
pub(crate) enum Fault {
    NotInitialised,
    TakesNothing,
    TooMuch,
    NoMemory,
    NotWritten,
}

/// The input of a controller.
#[derive(Clone, Copy)]
pub(crate) enum Input {
    Quiet,
    Readable,
    /// Nothing arrives after the bytes that can be read now.
    Ending,
    /// It is read no more.
    Over(Fault),
}

/// A controller that is served.
#[derive(Drop)]
pub(crate) struct Served {
    transport: Transport,
    outbound: Outbound,
    progress: Progress,
    input: Input,
}

impl Model for Served {
    ghost use Rattle.device_io.specs.Served as value;

    ghost Value = { value.Served };

    ghost view = { λ served. record {
      outbound = served.outbound;
      progress = served.progress;
      input = served.input;
    } };
}

impl Progress {
    /// Returns when it was reached, if it is not initialised yet.
    fn begun(self) -> Option<u64>
        ensures { result ≡ spec.begun_at self }
    {
        match self {
            Progress::New(reached_at) | Progress::Begun(reached_at) => Some(reached_at),
            Progress::Initialised => None,
        }
    }

    /// Returns why a controller is given up that is late.
    fn lapse(self) -> Fault
        ensures { result ≡ spec.lapse_of self }
    {
        match self {
            Progress::New(_) | Progress::Begun(_) => Fault::NotInitialised,
            Progress::Initialised => Fault::TakesNothing,
        }
    }
}

impl Fault {
    /// Returns the words of the log.
    pub(crate) fn words(self) -> &'static str
        ensures { result.now ≡ spec.words_of self }
    {
        match self {
            Fault::NotInitialised => "given up: it is not initialised in time",
            Fault::TakesNothing => "given up: it takes no octets",
            Fault::TooMuch => "given up: too many octets wait for it",
            Fault::NoMemory => "given up: memory was refused",
            Fault::NotWritten => "gone: it cannot be written",
        }
    }
}

impl Input {
    /// Returns true if nothing can be read yet.
    fn is_quiet(self) -> bool
        ensures { result ≡ spec.is_quiet self }
    {
        matches!(self, Input::Quiet)
    }

    /// Returns the input after more has arrived.
    fn ready(self, is_ending: bool) -> Input
        ensures { result ≡ spec.ready_in is_ending self }
    {
        match self {
            Input::Over(fault) => Input::Over(fault),
            Input::Ending => Input::Ending,
            Input::Quiet | Input::Readable => {
                if is_ending {
                    Input::Ending
                } else {
                    Input::Readable
                }
            }
        }
    }

    /// Returns the input after a read of at most `room` bytes.
    fn after(self, room: usize, read: Option<usize>) -> Input
        ensures { result ≡ spec.input_after room read self }
    {
        if let Input::Over(fault) = self {
            return Input::Over(fault);
        }
        let Some(count) = read else {
            return Input::Quiet;
        };
        match self {
            Input::Readable if count < room => Input::Quiet,
            input => input,
        }
    }
}

impl Served {
    /// Returns a controller that is reached at `now`.
    pub(crate) fn new(alloc: Global, transport: Transport, now: u64) -> Served
        ensures { result ≡ spec.served_at now }
    {
        Served {
            transport,
            outbound: Outbound::new(alloc),
            progress: Progress::New(now),
            input: Input::Quiet,
        }
    }

    /// Returns when it is given up, unless it makes progress: once it has accepted no waiting bytes
    /// for `patience`, or was not initialised in that time.
    pub(crate) fn due(&self, patience: u64) -> Option<u64>
        ensures { result ≡ spec.served_due patience self.now }
    {
        given_up_at(
            patience,
            self.outbound.stalled_since(),
            self.progress.begun(),
        )
    }

    /// Returns true if it is given up at `now` unless it was before.
    fn is_late(&self, patience: u64, now: u64) -> bool
        // A controller is given up exactly `--patience` after it was reached, if it is not
        // initialised; or, while octets wait, after it last accepted some or the first of them was
        // queued.
        ensures { result ≡ spec.is_late (spec.served_due patience self.now) now }
    {
        match self.due(patience) {
            Some(due) => due <= now,
            None => false,
        }
    }

    /// Returns true if it can be read or must be given up.
    pub(crate) fn needs_a_read(&self, patience: u64, now: u64) -> bool
        ensures { result ≡ spec.needs_a_read patience now self.now }
    {
        !self.input.is_quiet() || self.is_late(patience, now)
    }

    /// Returns true if it was initialised.
    pub(crate) fn is_initialised(&self) -> bool
        ensures { result ≡ is_none (spec.begun_at self.now.progress) }
    {
        self.progress.begun().is_none()
    }

    /// Returns why it can no longer be served, if known.
    pub(crate) fn fault(&self) -> Option<Fault>
        ensures { result ≡ spec.fault_in self.now.input }
    {
        match self.input {
            Input::Over(fault) => Some(fault),
            Input::Quiet | Input::Readable | Input::Ending => None,
        }
    }

    /// Announces it. Returns true if it was not announced before.
    pub(crate) fn announce(&mut self) -> bool
        ensures new { result ≡ spec.is_new self.old.progress }
        ensures announced { self.new ≡ spec.after_announcement self.old }
    {
        match self.progress {
            Progress::New(reached_at) => {
                self.progress = Progress::Begun(reached_at);
                true
            }
            Progress::Begun(_) | Progress::Initialised => false,
        }
    }

    /// Marks it as initialised. Returns true if that is new.
    pub(crate) fn initialise(&mut self) -> bool
        ensures new { result ≡ is_some (spec.begun_at self.old.progress) }
        ensures initialised { self.new ≡ spec.after_initialisation self.old }
    {
        let is_new = self.progress.begun().is_some();
        self.progress = Progress::Initialised;
        is_new
    }

    /// Marks it as readable. If `is_ending`, nothing arrives after the bytes that can be read now.
    pub(crate) fn ready(&mut self, is_ending: bool)
        ensures { self.new ≡ spec.after_arrival is_ending self.old }
    {
        self.input = self.input.ready(is_ending);
    }

    /// Gives it up if it is late. Returns true if it is given up.
    fn judge(&mut self, patience: u64, now: u64) -> bool
        ensures over { result ≡ spec.is_over patience now self.old }
        ensures judged { self.new ≡ spec.judged patience now self.old }
    {
        if self.is_late(patience, now) {
            self.input = Input::Over(self.progress.lapse());
        }
        self.fault().is_some()
    }

    /// Reads once, unless it is given up. Returns `None` if nothing can be read yet.
    pub(crate) fn read(
        &mut self,
        patience: u64,
        poller: &Poller,
        now: u64,
        buffer: &mut [u8],
    ) -> io::Result<Option<usize>>
        ensures sound { IfOk result (λ _. spec.is_over patience now self.old ≡ false) }
        ensures read { IfOk result (λ read. self.new
            ≡ spec.after_read (length buffer.old) read self.old) }
        ensures failed { IfErr result (λ _. self.new ≡ spec.judged patience now self.old) }
    {
        if self.judge(patience, now) {
            return Err(io::Error::from(ErrorKind::TimedOut));
        }
        let room = buffer.len();
        let read = self.transport.read(buffer)?;
        let input = self.input.after(room, read);
        if input.is_quiet() && (read.is_none() || !self.transport.is_emptied()) {
            self.watch_again(poller)?;
        }
        self.input = input;
        Ok(read)
    }

    fn watch_again(&self, poller: &Poller) -> io::Result<()> {
        let source = if self.outbound.waiting().is_empty() {
            Source::Controller
        } else {
            Source::FullController
        };
        poller.again(&self.transport, source)
    }

    /// Queues bytes and writes what it accepts.
    #[tactic(auto, using(crate::proofs::Writes::written_by))]
    pub(crate) fn write(&mut self, octets: &[u8], poller: &Poller, now: u64) -> io::Result<()>
        ensures { spec.IsWritten octets.now now self.old self.new (is_ok result) }
    {
        match self.outbound.queue(octets, now) {
            Ok(true) => self.write_waiting(poller, now),
            Ok(false) => self.give_up(Fault::TooMuch),
            Err(_) => self.give_up(Fault::NoMemory),
        }
    }

    fn give_up(&mut self, fault: Fault) -> io::Result<()>
        ensures failed { is_ok result ≡ false }
        ensures given_up { self.new ≡ spec.with_fault fault self.old }
    {
        self.input = Input::Over(fault);
        Err(io::Error::from(ErrorKind::OutOfMemory))
    }

    /// Writes waiting bytes as far as it accepts them.
    pub(crate) fn flush(&mut self, poller: &Poller, now: u64)
        ensures { spec.IsFlushed now self.old self.new }
    {
        if self.write_waiting(poller, now).is_err() {
            self.input = Input::Over(Fault::NotWritten);
        }
    }

    fn write_waiting(&mut self, poller: &Poller, now: u64) -> io::Result<()>
        ensures { spec.IsAccepted now self.old self.new }
    {
        let is_sent = write_from(&mut self.transport, &mut self.outbound, now)?;
        if is_sent {
            Ok(())
        } else {
            self.watch_again(poller)
        }
    }
}

/// Writes waiting bytes. Returns false if some of them are not accepted yet.
#[tactic(auto, using(crate::proofs::Writes::drained_more, crate::proofs::Writes::drained_not))]
fn write_from(transport: &mut Transport, outbound: &mut Outbound, now: u64) -> io::Result<bool>
    ensures { spec.IsDrained now outbound.old outbound.new }
{
    for _write in 0..u64::MAX {
        let rest = outbound.waiting();
        if rest.is_empty() {
            return Ok(true);
        }
        let Some(count) = transport.write(rest)? else {
            return Ok(false);
        };
        let count = count.min(rest.len());
        outbound.accepted(count, now);
    }
    Ok(true)
}
