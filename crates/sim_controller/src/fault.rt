ghost use Rattle.std.specs.Prelude.{◌≡◌};
ghost use Rattle.sim_controller.specs.SimFault.{sim_fault_number};

/// Reason why an act or a packet of the host was rejected, with no effect. If several apply, the
/// first is returned.
#[derive(Clone, Copy, Debug, PartialEq, Eq)]
pub enum SimFault {
    /// The client is not connected.
    NotHere,
    /// The client is already connected.
    AlreadyHere,
    /// The controller does not advertise.
    NotAdvertising,
    /// The queue of packets to the host, or of frames to a client, would exceed its limit.
    Full,
    /// The packet is not a known command and not an ACL packet.
    BadPacket,
    /// Memory was refused.
    OutOfMemory,
}

impl SimFault {
    /// Returns the number of the fault, from 1.
    pub fn number(self) -> u8
        ensures { result ≡ sim_fault_number self }
    {
        match self {
            SimFault::NotHere => 1,
            SimFault::AlreadyHere => 2,
            SimFault::NotAdvertising => 3,
            SimFault::Full => 4,
            SimFault::BadPacket => 5,
            SimFault::OutOfMemory => 6,
        }
    }
}
