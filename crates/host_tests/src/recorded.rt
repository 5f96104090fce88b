//! A device whose history is known, and the order of saving and sending in it.

ghost use Rattle.std.specs.Prelude.{◌≡◌, [], Some, None};
ghost use Rattle.device_loop.specs.Turn.{SavedFirst};
ghost use Rattle.host_tests.specs.Reached.{IsInARun};

use arrayvec::ArrayVec;
use device_loop::{
    Happenings, History, Next, Note, Outgoing, Outside, Saving, Sending, serve_turn,
};
use gatt_host::{AppFault, Host, Listener};

/// Event, connections with unsaved changes, and the outcome of sending.
pub type Turn = (Next<'static>, &'static [u16], Sending);

/// A device to which these turns happen, and nothing after them.
#[derive(Drop)]
pub struct Recording {
    turns: &'static [Turn],
    /// Number of turns so far.
    pub over: usize,
    pub history: History,
}

impl Recording {
    /// Returns a device to which nothing has happened yet.
    pub fn new(turns: &'static [Turn]) -> Recording
        ensures { result.history.entries ≡ [] }
    {
        Recording {
            turns,
            over: 0,
            history: History::none(),
        }
    }

    fn saving(&self) -> Saving {
        let mut unsaved = ArrayVec::new();
        let Some(&(_, connections, _)) = self.turns.get(self.over) else {
            return Saving::Saved;
        };
        if unsaved.try_extend_from_slice(connections).is_err() || connections.is_empty() {
            return Saving::Saved;
        }
        Saving::Unsaved(unsaved)
    }
}

impl Happenings for Recording {
    ghost octets = { λ _. None };

    ghost calls = { λ _. None };

    ghost history = { λ device. Some device.history.entries };

    fn next<'a>(&mut self, deadline: Option<u64>, _buffer: &'a mut [u8]) -> Next<'a> {
        let next = match self.turns.get(self.over) {
            Some(&(next, _, _)) => next,
            None => Next::Failed,
        };
        self.history = self.history.with(&Note::Waited(deadline, next));
        next
    }

    fn answered(&mut self, answer: Result<(), AppFault>) {
        self.history = self.history.with(&Note::Answered(answer));
    }
}

impl<L: Listener> Outside<L> for Recording {
    fn save(&mut self, host: &Host, _listener: &mut L) -> Saving {
        let saving = self.saving();
        self.history = self.history.with(&Note::Saved(&saving, host));
        saving
    }

    fn tell(&mut self, _host: &Host, _listener: &mut L, _saving: &Saving) {
        self.history = self.history.with(&Note::Told);
    }

    fn send(&mut self, octets: &[u8]) -> Sending {
        let sending = match self.turns.get(self.over) {
            Some(&(_, _, sending)) => sending,
            None => Sending::Done,
        };
        self.over = self.over.saturating_add(1);
        self.history = self.history.with(&Note::Sent(octets, sending));
        sending
    }
}

/// Serves a host the turns of a device to which nothing has happened yet. Each time that it tells
/// the application or sends anything, it has saved the state before, or it withholds the data that
/// depends on it.
pub fn serve_each<W: Outgoing, L: Listener>(
    host: &mut Host,
    device: &mut Recording,
    out: &mut W,
    listener: &mut L,
    turns: u64,
)
    requires run { IsInARun host.old }
    requires begins { device.old.history.entries ≡ [] }
    ensures order { SavedFirst device.new.history.entries }
{
    for _turn in 0..turns {
        serve_turn(host, device, out, listener);
    }
}
