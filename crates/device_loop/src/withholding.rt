//! Removes the data of some connections from waiting packets.

ghost use Rattle.std.specs.Prelude.{◌≡◌, ◌≤◌, length, take};
ghost use Rattle.octet_io.specs.Number.{Octets};
ghost use Rattle.device_loop.specs.Withholding.{first_size, IsCutIntoPackets, handle_of_data, is_data_for, packet_size, without_data_for};

use le_h4::indicator;

/// Removes the ACL data for these connections from the H4 packets of a host. Other packets keep
/// their order, and octets at the end that are no whole packet stay.
pub fn withhold(octets: &mut Vec<u8>, connections: &[u16])
    // The ACL data whose handle, without the flags, is one of these is removed. All other packets
    // stay in their order, and so do octets at the end that are no whole packet.
    ensures left { octets.new.items ≡ without_data_for connections.now octets.old.items }
    // For all octets:
    ensures packets { (octets : Octets) → IsCutIntoPackets octets }
{
    let left = move_others(octets.as_mut_slice(), connections);
    octets.truncate(left);
}

/// Moves what remains to the start, and returns its length.
fn move_others(octets: &mut [u8], connections: &[u16]) -> usize
    ensures left { take result octets.new ≡ without_data_for connections.now octets.old }
    ensures length { length octets.new ≡ length octets.old }
{
    let mut left = 0;
    let mut at = 0;
    while let Some(size) = first_size(&octets[at..]) {
        if !is_data_for(&octets[at..at + size], connections) {
            octets.copy_within(at..at + size, left);
            left += size;
        }
        at += size;
    }
    let count = octets.len() - at;
    octets.copy_within(at..at + count, left);
    left + count
}

/// Returns the length of the first of the H4 packets of a host, if it is whole.
pub fn first_size(octets: &[u8]) -> Option<usize>
    ensures { result ≡ first_size octets.now }
{
    let size = packet_size(octets)?;
    if size <= octets.len() {
        Some(size)
    } else {
        None
    }
}

/// Returns the length of a packet by its header, if the header is whole.
fn packet_size(octets: &[u8]) -> Option<usize>
    ensures { result ≡ packet_size octets.now }
{
    let [indicator, rest @ ..] = octets else {
        return None;
    };
    match *indicator {
        indicator::COMMAND => match rest {
            [_, _, size, ..] => Some(4 + usize::from(*size)),
            _ => None,
        },
        indicator::ACL => match rest {
            [_, _, low, high, ..] => Some(5 + usize::from(u16::from_le_bytes([*low, *high]))),
            _ => None,
        },
        _ => None,
    }
}

fn is_data_for(packet: &[u8], connections: &[u16]) -> bool
    ensures { result ≡ is_data_for connections.now packet.now }
{
    match handle_of_data(packet) {
        Some(handle) => connections.contains(&handle),
        None => false,
    }
}

/// Returns the connection of an ACL packet.
fn handle_of_data(packet: &[u8]) -> Option<u16>
    ensures { result ≡ handle_of_data packet.now }
{
    match packet {
        [indicator::ACL, low, high, ..] => Some(u16::from_le_bytes([*low, *high]) & 0x0FFF),
        _ => None,
    }
}
