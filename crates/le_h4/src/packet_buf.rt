ghost use Rattle.std.specs.Prelude.{◌≡◌, ◌+◌, ◌*◌, ◌^◌, ◌<◌, ◌≤◌, [], ◌∷◌, ◌++◌, length, take};
ghost use Rattle.octet_io.specs.Number.{two_octets};
ghost use Rattle.le_h4.specs.declared.packet_buf.TheConstants.{MAX_ACL_DATA_OUT};

use crate::indicator;
use crate::write::{HEADER, acl_header};
use arrayvec::ArrayVec;
use octet_io::{write_front, write_parts};
use std::marker::Model;

/// Maximum octets of data of an ACL packet to the controller (this profile's own).
pub const MAX_ACL_DATA_OUT: usize = 255;

/// Maximum octets of a packet to the controller: an ACL packet, as commands are shorter.
pub const MAX_PACKET_OUT: usize = HEADER + MAX_ACL_DATA_OUT;

/// Octets copied as one block of constant size. Most packets have no more.
const BLOCK: usize = 32;

/// The octets of a packet to the controller.
pub type PacketOctets = ArrayVec<u8, MAX_PACKET_OUT>;

/// A reusable buffer for a packet to the controller. Old contents are not cleared, so each octet is
/// written once.
#[derive(Drop)]
pub struct PacketBuf {
    octets: [u8; MAX_PACKET_OUT],
    len: usize,
}

impl Model for PacketBuf {
    ghost use Rattle.octet_io.specs.Number.{Octets};

    ghost Value = { Octets };

    ghost use Rattle.std.specs.Prelude.{◌≤◌, take};
    ghost use Rattle.le_h4.specs.declared.packet_buf.TheConstants.{MAX_PACKET_OUT};

    ghost view = { λ p. take p.len p.octets };

    ghost invariant = { λ p. p.len ≤ MAX_PACKET_OUT };
}

impl PacketBuf {
    /// Creates an empty buffer.
    pub fn new() -> Self
        ensures { result ≡ [] }
    {
        PacketBuf {
            octets: [0; MAX_PACKET_OUT],
            len: 0,
        }
    }

    /// Returns the octets of the packet, including its indicator.
    #[inline(always)]
    pub fn as_slice(&self) -> &[u8]
        ensures value { result.now ≡ self.now }
        ensures fits { length result.now ≤ MAX_PACKET_OUT }
    {
        &self.octets[..self.len]
    }

    /// Writes an ACL packet in place of the last one (Core 5.0, Vol 2 Part E, 5.4.2).
    ///
    /// Its data is `header`, then `octets`, which need not be joined first. Its broadcast flag is
    /// 0.
    #[inline(always)]
    pub fn acl(&mut self, handle: u16, pb: u8, header: &[u8], octets: &[u8])
        requires handle { handle < 2 ^ 12 }
        requires pb { pb ≤ 3 }
        requires octets { length header.now + length octets.now ≤ MAX_ACL_DATA_OUT }
        ensures { self.new ≡ 0x02 ∷ two_octets (handle + 2 ^ 12 * pb) ++ two_octets
            (length (header.now ++ octets.now))
            ++ header.now ++ octets.now }
    {
        let length = header.len() + octets.len();
        self.write(&acl_header(handle, pb, length as u16), header, octets);
    }

    /// Writes an ACL packet as `acl` does, with only the first `count` of `octets`.
    #[inline(always)]
    pub fn acl_front(&mut self, handle: u16, pb: u8, header: &[u8], octets: &[u8], count: usize)
        requires handle { handle < 2 ^ 12 }
        requires pb { pb ≤ 3 }
        requires within { count ≤ length octets.now }
        requires octets { length header.now + count ≤ MAX_ACL_DATA_OUT }
        ensures { self.new ≡ 0x02 ∷ two_octets (handle + 2 ^ 12 * pb) ++ two_octets
            (length (header.now ++ take count octets.now))
            ++ header.now ++ take count octets.now }
    {
        let length = header.len() + count;
        let place = HEADER + header.len();
        self.len = HEADER + length;
        write_front(
            &mut self.octets,
            &acl_header(handle, pb, length as u16),
            header,
        );
        copy_behind(&mut self.octets, place, octets, count);
    }

    /// Writes a command in place of the last packet (Core 5.0, Vol 2 Part E, 5.4.1). `octets` begin
    /// at the opcode.
    pub fn command(&mut self, octets: &[u8])
        requires { length octets.now < MAX_PACKET_OUT }
        ensures { self.new ≡ 0x01 ∷ octets.now }
    {
        self.write(&[indicator::COMMAND], octets, &[]);
    }

    #[inline(always)]
    fn write(&mut self, first: &[u8], second: &[u8], third: &[u8])
        requires { length first.now + length second.now + length third.now ≤ MAX_PACKET_OUT }
        ensures { self.new ≡ first.now ++ second.now ++ third.now }
    {
        let len = first.len() + second.len() + third.len();
        self.len = len;
        write_parts(&mut self.octets[..len], first, second, third);
    }
}

#[inline(always)]
fn copy_behind(out: &mut [u8], place: usize, octets: &[u8], count: usize)
    requires within { count ≤ length octets.now }
    requires room { place + count ≤ length out.old }
    ensures front { take (place + count) out.new ≡ take place out.old ++ take count octets.now }
    ensures size { length out.new ≡ length out.old }
{
    copy_front(&mut out[place..], octets, count);
}

/// Copies `count` octets to the start of `out`. A short copy may also change octets of `out` after
/// them.
#[inline(always)]
fn copy_front(out: &mut [u8], octets: &[u8], count: usize)
    requires within { count ≤ length octets.now }
    requires room { count ≤ length out.old }
    ensures front { take count out.new ≡ take count octets.now }
    ensures size { length out.new ≡ length out.old }
{
    if count <= BLOCK {
        if let Some(block) = octets.first_chunk::<BLOCK>() {
            if let Some(room) = out.first_chunk_mut::<BLOCK>() {
                *room = *block;
                return;
            }
        }
    }
    out[..count].copy_from_slice(&octets[..count]);
}
