//! Progress of a packet of either direction.

ghost use Rattle.std.specs.Prelude.{◌≡◌};
ghost use Rattle.btsnoop.specs.Packet.{needed_behind_two, needed_of, IsBegunPacket, Progresses};

use le_h4::{MAX_PACKET_IN, indicator};

#[derive(Clone, Copy, PartialEq, Eq)]
pub(crate) enum Progress {
    /// Minimum number of missing octets.
    Lacks(usize),
    Whole,
    /// No captured packet begins so.
    Lost,
}

/// Returns the progress of a packet, from its indicator on.
pub(crate) fn progress_at(octets: &[u8]) -> Progress
    requires { IsBegunPacket octets.now }
    ensures { Progresses octets.now result }
{
    let Some(needed) = needed(octets) else {
        return Progress::Lost;
    };
    if needed > MAX_PACKET_IN {
        Progress::Lost
    } else if needed > octets.len() {
        Progress::Lacks(needed - octets.len())
    } else {
        Progress::Whole
    }
}

/// Returns the size of the packet in octets, as far as it is known.
fn needed(octets: &[u8]) -> Option<usize>
    ensures { result ≡ needed_of octets.now }
{
    let [indicator, rest @ ..] = octets else {
        return Some(1);
    };
    match *indicator {
        indicator::COMMAND => Some(needed_behind_two(rest)),
        indicator::ACL => match rest {
            [_, _, low, high, ..] => Some(5 + usize::from(u16::from_le_bytes([*low, *high]))),
            _ => Some(5),
        },
        indicator::SCO => Some(needed_behind_two(rest)),
        indicator::EVENT => match rest {
            [_, size, ..] => Some(3 + usize::from(*size)),
            _ => Some(3),
        },
        _ => None,
    }
}

/// Returns the size of a command or SCO packet, whose length follows two octets.
fn needed_behind_two(rest: &[u8]) -> usize
    ensures { result ≡ needed_behind_two rest.now }
{
    match rest {
        [_, _, size, ..] => 4 + usize::from(*size),
        _ => 4,
    }
}
