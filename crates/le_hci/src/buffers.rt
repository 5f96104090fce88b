ghost use Rattle.std.specs.Prelude.{◌≡◌};
ghost use Rattle.le_hci.specs.Buffers.{le_buffers_of, shared_buffers_of, usable_of};

use crate::init::InitFault;

/// Buffers for ACL packets, as the controller reports them.
#[derive(Clone, Copy, PartialEq, Eq)]
pub struct Buffers {
    /// Maximum octets of data in a packet.
    pub length: u16,
    /// Number of packets that the controller accepts at a time.
    pub packets: u16,
}

/// Minimum octets of a buffer for an LE connection (Core 5.0, Vol 2 Part E, 7.8.2).
const LEAST_LENGTH: u16 = 27;

/// Reads what LE Read Buffer Size returned after its status (Core 5.0, Vol 2 Part E, 7.8.2).
/// Returns `None` if the buffers are shared with another transport.
pub fn le_buffers(returned: &[u8]) -> Result<Option<Buffers>, InitFault>
    ensures { result ≡ le_buffers_of returned.now }
{
    match returned {
        [0x00, 0x00, _, ..] => Ok(None),
        [length_low, length_high, packets, ..] => usable(Buffers {
            length: u16::from_le_bytes([*length_low, *length_high]),
            packets: u16::from(*packets),
        })
        .map(Some),
        _ => Err(InitFault::Short),
    }
}

/// Reads what Read Buffer Size returned after its status (Core 5.0, Vol 2 Part E, 7.4.5).
pub fn shared_buffers(returned: &[u8]) -> Result<Buffers, InitFault>
    ensures { result ≡ shared_buffers_of returned.now }
{
    match returned {
        [
            length_low,
            length_high,
            _,
            packets_low,
            packets_high,
            _,
            _,
            ..
        ] => usable(Buffers {
            length: u16::from_le_bytes([*length_low, *length_high]),
            packets: u16::from_le_bytes([*packets_low, *packets_high]),
        }),
        _ => Err(InitFault::Short),
    }
}

fn usable(buffers: Buffers) -> Result<Buffers, InitFault>
    ensures { result ≡ usable_of buffers }
{
    if buffers.length >= LEAST_LENGTH && buffers.packets > 0 {
        Ok(buffers)
    } else {
        Err(InitFault::BadBuffers)
    }
}
