ghost use Rattle.std.specs.Prelude.{◌≡◌, ◌≤◌, ◌<◌, length, IfSome};
ghost use Rattle.std.specs.Option.{option_map};
ghost use Rattle.le_h4.specs.Division.{kept_first};
ghost use Rattle.le_h4.specs.Packet.{packet_of_ref, acl_packet, first_of};
ghost use Rattle.le_h4.specs.Progress.{reading};
ghost use Rattle.le_h4.specs.Whole.{lying_in};

use crate::indicator;
use crate::progress::MAX_ACL_DATA;

/// A packet from the controller (Core 5.0, Vol 2 Part E, 5.4).
#[derive(Clone, Copy, PartialEq, Eq)]
pub enum PacketRef<'a> {
    /// ACL data: a connection handle of 12 bits, packet boundary and broadcast flags of 2 bits
    /// each, and at most 1,024 octets.
    Acl {
        handle: u16,
        pb: u8,
        bc: u8,
        octets: &'a [u8],
    },
    /// Event code, length and parameters.
    Event(&'a [u8]),
    /// Synchronous data, which is dropped.
    Sco,
}

/// A whole packet at the start of octets.
#[derive(Clone, Copy)]
pub struct WholePacket<'a> {
    pub packet: PacketRef<'a>,
    /// Length of the packet in octets, including its indicator.
    pub used: usize,
}

/// Returns the packet at the start of `octets`, if it is whole and not too long.
#[inline(always)]
pub(crate) fn first_packet(octets: &[u8]) -> Option<WholePacket<'_>>
    ensures first { option_map (lying_in octets.now) result ≡ kept_first (first_of octets.now) }
    ensures within { IfSome result (λ whole. whole.used ≤ length octets.now) }
    ensures some { IfSome result (λ whole. 0 < whole.used) }
{
    let [indicator, rest @ ..] = octets else {
        return None;
    };
    match *indicator {
        indicator::ACL => match rest {
            [low, high, size_low, size_high, data @ ..] => {
                let size = usize::from(u16::from_le_bytes([*size_low, *size_high]));
                if size > data.len() || size > MAX_ACL_DATA {
                    return None;
                }
                Some(WholePacket {
                    packet: acl(u16::from_le_bytes([*low, *high]), &data[..size]),
                    used: 5 + size,
                })
            }
            _ => None,
        },
        indicator::SCO => match rest {
            [_, _, size, data @ ..] => {
                let size = usize::from(*size);
                if size > data.len() {
                    return None;
                }
                Some(WholePacket {
                    packet: PacketRef::Sco,
                    used: 4 + size,
                })
            }
            _ => None,
        },
        indicator::EVENT => match rest {
            [_, size, parameters @ ..] => {
                let size = usize::from(*size);
                if size > parameters.len() {
                    return None;
                }
                Some(WholePacket {
                    packet: PacketRef::Event(&rest[..2 + size]),
                    used: 3 + size,
                })
            }
            _ => None,
        },
        _ => None,
    }
}

/// Reads octets that are exactly one packet, including its indicator.
pub(crate) fn read_packet(octets: &[u8]) -> PacketRef<'_>
    ensures { packet_of_ref result ≡ reading octets.now }
{
    let [indicator, rest @ ..] = octets else {
        return PacketRef::Sco;
    };
    match *indicator {
        indicator::ACL => match rest {
            [low, high, _, _, octets @ ..] => acl(u16::from_le_bytes([*low, *high]), octets),
            _ => PacketRef::Sco,
        },
        indicator::EVENT => PacketRef::Event(rest),
        _ => PacketRef::Sco,
    }
}

#[inline(always)]
fn acl(field: u16, octets: &[u8]) -> PacketRef<'_>
    ensures { packet_of_ref result ≡ acl_packet field octets.now }
{
    PacketRef::Acl {
        handle: field & 0x0FFF,
        pb: (field >> 12 & 0b11) as u8,
        bc: (field >> 14) as u8,
        octets,
    }
}
