//! Saving the changes of a host, telling the application, and sending the waiting packets.

ghost use Rattle.std.specs.Prelude.{◌≡◌, ◌∷◌, [], Some, option_map};
ghost use Rattle.device_loop.specs.Happenings.{Records, saved_state, Told};
ghost use Rattle.device_loop.specs.Outside.{saving_entry, Sends};
ghost use Rattle.device_loop.specs.Withholding.{without_data_for};

use crate::happenings::Happenings;
use arrayvec::ArrayVec;
use gatt_host::{Host, Listener, MAX_SLOTS};
use octet_io::Sink;

/// The outcome of saving.
#[derive(Drop)]
pub enum Saving {
    Saved,
    /// The changes of the connections with these handles are not saved.
    Unsaved(ArrayVec<u16, MAX_SLOTS>),
}

/// The outcome of sending.
#[derive(Clone, Copy)]
pub enum Sending {
    /// All octets were sent.
    Done,
    /// None was sent because nobody is there; they still wait.
    Waits,
    /// Sending failed: a prefix may have been sent.
    Failed,
}

/// Saves the state of a host, tells its application and sends its packets.
pub trait Outside<L: Listener>: Happenings {
    /// Saves the rows and values of a host. If that fails, returns the connections with unsaved
    /// changes.
    fn save(&mut self, host: &Host, listener: &mut L) -> Saving
        ensures octets { Self.octets self.new ≡ Self.octets self.old }
        ensures calls { Self.calls self.new ≡ Self.calls self.old }
        // It is recorded that the state is saved, or for which connections it is not.
        ensures history { Records (saving_entry result (saved_state host.now.server) ∷ [])
            (Self.history self.old) (Self.history self.new) }
        ensures heard { L.heard listener.new ≡ L.heard listener.old };

    /// Answers the application, and notifies it of what the listener has received. This follows
    /// `save` in each turn, and gets its outcome.
    fn tell(&mut self, host: &Host, listener: &mut L, saving: &Saving)
        ensures octets { Self.octets self.new ≡ Self.octets self.old }
        ensures calls { Self.calls self.new ≡ Self.calls self.old }
        // It is recorded that this has happened.
        ensures history { Records (Told ∷ []) (Self.history self.old) (Self.history self.new) }
        ensures heard { L.heard listener.new ≡ L.heard listener.old };

    /// Sends octets to the controller, if it is there; does nothing for no octets.
    fn send(&mut self, octets: &[u8]) -> Sending
        ensures octets { Self.octets self.new ≡ Self.octets self.old }
        ensures calls { Self.calls self.new ≡ Self.calls self.old }
        // It is recorded which octets were sent.
        ensures history { Sends result octets.now (Self.history self.old)
            (Self.history self.new) };
}

/// Octets that wait to be sent, in the order in which they were written.
pub trait Outgoing: Sink {
    /// Returns the waiting octets, the next to be sent first.
    fn waiting(&self) -> &[u8]
        ensures { Self.contents self.now ≡ Some result.now };

    /// Removes all waiting octets.
    fn clear(&mut self)
        ensures none { Self.contents self.new ≡ Some [] }
        ensures failures { Self.failures self.new ≡ Self.failures self.old };

    /// Removes the ACL data for these connections, as the function `withhold` does.
    fn withhold(&mut self, connections: &[u16])
        ensures left { Self.contents self.new
            ≡ option_map (without_data_for connections.now) (Self.contents self.old) }
        ensures failures { Self.failures self.new ≡ Self.failures self.old };
}
