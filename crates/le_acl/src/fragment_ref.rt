ghost use Rattle.std.specs.Prelude.{◌≡◌, ◌-◌, ◌<◌, ◌≤◌, ◌++◌, length, take, drop};
ghost use Rattle.le_acl.specs.FragmentRef.{fragment_of_ref, length_of_ref};
ghost use Rattle.le_acl.specs.Packets.{frame_octets};
ghost use Rattle.le_acl.specs.Sending.{fragment_at};
ghost use Rattle.octet_io.specs.Number.{two_octets};
ghost use Rattle.octet_io.specs.declared.pdu.TheConstants.{MAX_PDU};

use crate::frame::HEADER;

/// The fragment of a frame in one packet.
#[derive(Clone, Copy)]
pub(crate) enum FragmentRef<'a> {
    Beginning {
        header: [u8; HEADER],
        payload: &'a [u8],
    },
    Continuation {
        payload: &'a [u8],
    },
}

impl<'a> FragmentRef<'a> {
    /// Returns the fragment at octet `gone` of the frame, of at most `acl_len` octets.
    #[inline(always)]
    #[tactic(auto, using(crate::proofs::Fragments::take_header, crate::proofs::Fragments::drop_header, crate::proofs::Fragments::fragment_later))]
    pub(crate) fn at(channel: u16, payload: &'a [u8], gone: usize, acl_len: usize) -> Self
        requires payload { length payload.now ≤ MAX_PDU }
        requires gone { 0 < gone → 4 ≤ gone }
        requires least { 4 ≤ acl_len }
        ensures fragment { fragment_of_ref result
            ≡ fragment_at gone (take acl_len (drop gone (frame_octets (channel, payload.now)))) }
        ensures within { length_of_ref result ≤ acl_len }
    {
        if gone == 0 {
            FragmentRef::Beginning {
                header: frame_header(channel, payload.len() as u16),
                payload: part(payload, 0, acl_len - HEADER),
            }
        } else {
            FragmentRef::Continuation {
                payload: part(payload, gone - HEADER, acl_len),
            }
        }
    }
}

/// Returns a frame's header: payload length, then channel.
#[inline(always)]
fn frame_header(channel: u16, length: u16) -> [u8; HEADER]
    ensures { result ≡ two_octets length ++ two_octets channel }
{
    let [size_low, size_high] = length.to_le_bytes();
    let [low, high] = channel.to_le_bytes();
    [size_low, size_high, low, high]
}

#[inline(always)]
pub(crate) fn header_of(channel: u16, payload: &[u8]) -> [u8; HEADER]
    requires { length payload.now ≤ MAX_PDU }
    ensures { result ++ payload.now ≡ frame_octets (channel, payload.now) }
{
    frame_header(channel, payload.len() as u16)
}

#[inline(always)]
fn part(octets: &[u8], start: usize, count: usize) -> &[u8]
    ensures { result.now ≡ take count (drop start octets.now) }
{
    let rest = &octets[start.min(octets.len())..];
    &rest[..count.min(rest.len())]
}
