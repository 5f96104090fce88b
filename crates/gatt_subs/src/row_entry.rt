ghost use Rattle.std.specs.Prelude.{◌≡◌, ◌+◌, ◌*◌};
ghost use Rattle.gatt_subs.specs.RowEntry.{rank_of, order_of, is_at};

use le_hci::Peer;

/// A peer's configuration at a handle.
#[derive(Clone, Copy)]
pub struct RowEntry {
    /// The peer, which has a key.
    pub peer: Peer,
    /// The CCCD's handle.
    pub handle: u16,
    /// 1 for notifications, 2 for indications.
    pub bits: u8,
}

impl Default for RowEntry {
    fn default() -> Self {
        RowEntry {
            peer: Peer {
                kind: 0,
                address: [0; 6],
            },
            handle: 0,
            bits: 0,
        }
    }
}

impl RowEntry {
    /// Returns true if the entry is the peer's at this handle.
    pub fn is_at(&self, peer: &Peer, handle: u16) -> bool
        ensures { result ≡ is_at peer.now handle self.now }
    {
        self.peer == *peer && self.handle == handle
    }

    /// Returns the sort key in the file: `rank`, then handle.
    pub fn order(&self) -> u128
        ensures { result ≡ order_of self.now }
    {
        let RowEntry { peer, handle, .. } = *self;
        u128::from(rank(&peer)) * 65_536 + u128::from(handle)
    }
}

/// Returns the sort key of a peer: the address as a number, with its type above.
#[tactic(auto, unfolding(crate::specs::RowEntry::rank_of))]
pub fn rank(peer: &Peer) -> u64
    ensures { result ≡ rank_of peer.now }
{
    let [a, b, c, d, e, f] = peer.address;
    u64::from_le_bytes([a, b, c, d, e, f, peer.kind, 0])
}
