ghost use Rattle.std.specs.Prelude.{◌≡◌, ◌+◌, ◌*◌, ◌^◌, ◌<◌, ◌≤◌, [], ◌∷◌, ◌++◌, length, take};
ghost use Rattle.octet_io.specs.Number.{two_octets};
ghost use Rattle.le_h4.specs.declared.packet_buf.TheConstants.{MAX_ACL_DATA_OUT, MAX_PACKET_OUT};

use crate::indicator;
use crate::packet_buf::PacketOctets;
use octet_io::{overwrite, write_parts};

/// Octets before the data of an ACL packet.
pub(crate) const HEADER: usize = 5;

/// Writes an ACL packet in place of the contents of `out` (Core 5.0, Vol 2 Part E, 5.4.2). Its
/// broadcast flag is 0.
pub fn write_acl(handle: u16, pb: u8, octets: &[u8], out: &mut PacketOctets)
    requires handle { handle < 2 ^ 12 }
    requires pb { pb ≤ 3 }
    requires octets { length octets.now ≤ MAX_ACL_DATA_OUT }
    ensures { out.new.items
        ≡ 0x02 ∷ two_octets (handle + 2 ^ 12 * pb) ++ two_octets (length octets.now)
        ++ octets.now }
{
    write_acl_parts(handle, pb, &[], octets, out);
}

/// Writes an ACL packet as `write_acl` does. Its data is `header`, then `octets`.
#[inline(always)]
pub fn write_acl_parts(handle: u16, pb: u8, header: &[u8], octets: &[u8], out: &mut PacketOctets)
    requires handle { handle < 2 ^ 12 }
    requires pb { pb ≤ 3 }
    requires octets { length header.now + length octets.now ≤ MAX_ACL_DATA_OUT }
    ensures { out.new.items
        ≡ 0x02 ∷ two_octets (handle + 2 ^ 12 * pb) ++ two_octets
        (length (header.now ++ octets.now))
        ++ header.now ++ octets.now }
{
    let length = header.len() + octets.len();
    overwrite(out, &acl_header(handle, pb, length as u16), header, octets);
}

/// Writes an ACL packet as `write_acl_parts` does, to the start of `out`. Returns its length in
/// octets.
#[inline(always)]
pub fn acl_into(handle: u16, pb: u8, header: &[u8], octets: &[u8], out: &mut [u8]) -> usize
    requires handle { handle < 2 ^ 12 }
    requires pb { pb ≤ 3 }
    requires octets { length header.now + length octets.now ≤ MAX_ACL_DATA_OUT }
    requires room { MAX_PACKET_OUT ≤ length out.old }
    ensures written { take result out.new
        ≡ 0x02 ∷ two_octets (handle + 2 ^ 12 * pb) ++ two_octets
        (length (header.now ++ octets.now))
        ++ header.now ++ octets.now }
    ensures within { result ≤ length out.old }
{
    let length = header.len() + octets.len();
    let end = HEADER + length;
    write_parts(
        &mut out[..end],
        &acl_header(handle, pb, length as u16),
        header,
        octets,
    );
    end
}

/// Returns the octets before the data: indicator, handle and flag, length.
#[inline(always)]
pub(crate) fn acl_header(handle: u16, pb: u8, length: u16) -> [u8; HEADER]
    requires handle { handle < 2 ^ 12 }
    requires pb { pb ≤ 3 }
    ensures { result ≡ 0x02 ∷ two_octets (handle + 2 ^ 12 * pb) ++ two_octets length }
{
    let [low, high] = (handle | u16::from(pb) << 12).to_le_bytes();
    let [size_low, size_high] = length.to_le_bytes();
    [indicator::ACL, low, high, size_low, size_high]
}

/// Writes a command in place of the contents of `out` (Core 5.0, Vol 2 Part E, 5.4.1). `octets`
/// begin at the opcode.
pub fn write_command(octets: &[u8], out: &mut PacketOctets)
    requires { length octets.now < MAX_PACKET_OUT }
    ensures { out.new.items ≡ 0x01 ∷ octets.now }
{
    overwrite(out, &[indicator::COMMAND], octets, &[]);
}
