//! The events of a host: those of its controller, its application and the clock.

ghost use Rattle.std.specs.Prelude.{◌≡◌, length, true, None, Some};
ghost use Rattle.device_session.specs.Asking.{asked_if, goes_on, seats_if};
ghost use Rattle.device_host.specs.Order.{takes_line, takes_nothing};
ghost use Rattle.device_host.specs.Work.{IsNextByClock};

use crate::course::Course;
use crate::keeping::Keeping;
use crate::supervision::Supervision;
use crate::unkeyed::Unkeyed;
use arrayvec::ArrayVec;
use device_io::System;
use device_loop::{Happenings, History, Next, Note};
use device_options::FileOptions;
use device_session::{Session, sooner};
use gatt_host::{App, AppFault, MAX_SLOTS};
use std::alloc::Global;
use std::time::Clock;

/// The event that a device takes next.
#[derive(Clone, Copy)]
pub(crate) enum Takes {
    /// Any event, after a wait if necessary.
    Any,
    /// The next line of the sender of the last one.
    Line,
    /// None: the changes of the events before are to be saved.
    Nothing,
}

#[derive(Drop)]
pub(crate) struct Device<'a, R> {
    pub(crate) alloc: Global,
    pub(crate) session: Session<'a, R>,
    pub(crate) keeping: Option<Keeping>,
    pub(crate) takes: Takes,
    /// The connections whose changes are not saved, to be disconnected.
    pub(crate) ending: ArrayVec<u16, MAX_SLOTS>,
    /// The connections that asked for a key that the host does not have.
    pub(crate) unkeyed: Unkeyed,
    pub(crate) files: FileOptions<'a>,
    /// The text of the key file that is served.
    pub(crate) key_text: Vec<u8>,
    pub(crate) course: Course,
    pub(crate) supervision: Supervision,
    /// The random number of this start.
    pub(crate) started: u64,
    /// The history since its start, which only proofs read.
    pub(crate) history: History,
}

impl<R> Device<'_, R> {
    fn retry(&self) -> Option<u64> {
        match &self.keeping {
            Some(keeping) => keeping.retry(),
            None => None,
        }
    }
}

impl<R: System> Happenings for Device<'_, R> {
    ghost octets = { λ _. None };

    ghost calls = { λ _. None };

    ghost history = { λ device. Some device.history.entries };

    fn next<'b>(&mut self, deadline: Option<u64>, buffer: &'b mut [u8]) -> Next<'b> {
        let next = next_of(self, deadline, buffer);
        self.history = self.history.with(&Note::Waited(deadline, next));
        next
    }

    fn answered(&mut self, answer: Result<(), AppFault>) {
        self.session.answered(answer);
        self.history = self.history.with(&Note::Answered(answer));
    }
}

fn next_of<'b, R: System>(
    device: &mut Device<'_, R>,
    deadline: Option<u64>,
    buffer: &'b mut [u8],
) -> Next<'b>
    ensures history { device.new.history ≡ device.old.history }
    // While the changes before are to be saved, no line is read.
    ensures unread { takes_nothing device.old.takes ≡ true
        → device.new.session.seats ≡ device.old.session.seats }
    ensures unasked { takes_nothing device.old.takes ≡ true
        → device.new.session.asking ≡ device.old.session.asking }
    // Only the sender of the last line is read before the save.
    ensures line { takes_line device.old.takes ≡ true → device.new.session.asking
        ≡ asked_if (goes_on device.old.session.turns device.old.session.asking)
        device.old.session.seats device.old.session.asking
        device.old.session.names.named
        device.old.session.turns.time (length buffer.old) }
    ensures read { takes_line device.old.takes ≡ true → device.new.session.seats
        ≡ seats_if (goes_on device.old.session.turns device.old.session.asking)
        device.old.session.seats device.old.session.seats }
{
    match device.takes {
        Takes::Nothing => Next::Octets(&[]),
        Takes::Line => call_or_nothing(device.session.next_call_of_asker(buffer)),
        Takes::Any => {
            if let Some(handle) = device.ending.pop() {
                return Next::Call(App::Disconnect(handle));
            }
            let own = sooner(device.retry(), device.supervision.due());
            let deadline = sooner(sooner(deadline, device.course.due()), own);
            next(&mut device.session, deadline, buffer)
        }
    }
}

fn next<'b, R: System>(
    session: &mut Session<'_, R>,
    deadline: Option<u64>,
    buffer: &'b mut [u8],
) -> Next<'b>
    // The host gets octets or a line only if the clock has no later time for it.
    ensures clock { IsNextByClock session.old.turns result session.new.turns }
{
    if let Some(now) = session.next_tick(deadline) {
        return Next::Call(App::Tick(now));
    }
    if session.is_controller_next() {
        return octets(session, buffer);
    }
    call_or_nothing(session.next_call(buffer))
}

fn call_or_nothing(call: Option<App<'_>>) -> Next<'_> {
    match call {
        Some(call) => Next::Call(call),
        None => Next::Octets(&[]),
    }
}

fn octets<'b, R: Clock + Eprint>(session: &mut Session<'_, R>, buffer: &'b mut [u8]) -> Next<'b>
    ensures turns { session.new.turns ≡ session.old.turns }
{
    match session.read(buffer) {
        Ok(None) => Next::Octets(&[]),
        Ok(Some(octets)) if octets.is_empty() => Next::Ended,
        Ok(Some(octets)) => Next::Octets(octets),
        Err(_) => Next::Failed,
    }
}
