ghost use Rattle.std.specs.Prelude.{◌≡◌};
ghost use Rattle.le_security.specs.Entry.{is_for};

use att_policy::KeyFacts;
use le_hci::Peer;

/// A Long Term Key and its properties.
#[derive(Clone, Copy, Debug, PartialEq, Eq)]
pub struct Key {
    /// The key, as in the LTK Request Reply (Core 5.0, Vol 2 Part E, 7.8.25).
    pub ltk: [u8; 16],
    pub facts: KeyFacts,
}

/// A key and the request that it answers.
#[derive(Clone, Copy, PartialEq, Eq)]
pub struct Entry {
    pub peer: Peer,
    /// As in the LTK Request event (Core 5.0, Vol 2 Part E, 7.7.65.5).
    pub random_number: [u8; 8],
    pub diversifier: u16,
    pub key: Key,
}

impl Entry {
    /// Returns true if this entry answers the request.
    pub fn is_for(&self, peer: &Peer, random_number: [u8; 8], diversifier: u16) -> bool
        ensures { result ≡ is_for peer.now random_number diversifier self.now }
    {
        self.peer == *peer && self.random_number == random_number && self.diversifier == diversifier
    }
}
