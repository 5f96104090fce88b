/// Type of a public device address (Core 5.0, Vol 2 Part E, 7.7.65.1).
pub const PUBLIC_ADDRESS: u8 = 0x00;
/// Type of a random device address.
pub const RANDOM_ADDRESS: u8 = 0x01;

/// Peer of a connection, as Connection Complete names it.
#[derive(Clone, Copy, Debug, PartialEq, Eq)]
pub struct Peer {
    /// Address type: 0 public, 1 random.
    pub kind: u8,
    /// Address in wire order: least significant octet first.
    pub address: [u8; 6],
}
