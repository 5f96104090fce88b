//! Reusable buffers, overwritten in place.

ghost use Rattle.std.specs.Prelude.{◌≡◌, ◌+◌, ◌≤◌, ◌++◌, length, take, drop};
ghost use Rattle.arrayvec.specs.ArrayVec.{array_vec_len};

use crate::pdu::MAX_PDU;
use arrayvec::ArrayVec;

const ZEROS: [u8; MAX_PDU] = [0; MAX_PDU];

/// Replaces the contents of a buffer by three slices, joined. If the length does not change, each
/// byte is written only once.
#[inline(always)]
pub fn overwrite<const N: usize>(
    buffer: &mut ArrayVec<u8, N>,
    first: &[u8],
    second: &[u8],
    third: &[u8],
)
    requires largest { N ≤ MAX_PDU }
    requires fits { length first.now + length second.now + length third.now ≤ N }
    ensures { buffer.new.items ≡ first.now ++ second.now ++ third.now }
{
    set_length(buffer, first.len() + second.len() + third.len());
    write_parts(buffer.as_mut_slice(), first, second, third);
}

/// Truncates a buffer, or extends it with zeros for the caller to overwrite.
#[inline(always)]
pub fn set_length<const N: usize>(buffer: &mut ArrayVec<u8, N>, size: usize)
    requires largest { N ≤ MAX_PDU }
    requires fits { size ≤ N }
    ensures front { take (array_vec_len buffer.old) buffer.new.items ≡ take size buffer.old.items }
    ensures size { array_vec_len buffer.new ≡ size }
{
    let before = buffer.len();
    if size < before {
        buffer.truncate(size);
    } else if before < size {
        buffer
            .try_extend_from_slice(&ZEROS[..size - before])
            .unwrap();
    }
}

/// Fills `out` with three slices, joined.
#[inline(always)]
pub fn write_parts(out: &mut [u8], first: &[u8], second: &[u8], third: &[u8])
    requires { length out.old ≡ length first.now + length second.now + length third.now }
    ensures { out.new ≡ first.now ++ second.now ++ third.now }
{
    let start = first.len();
    let middle = start + second.len();
    out[..start].copy_from_slice(first);
    out[start..middle].copy_from_slice(second);
    out[middle..].copy_from_slice(third);
}

/// Writes two slices, joined, to the start of `out`. The rest of `out` is unchanged.
#[inline(always)]
pub fn write_front(out: &mut [u8], first: &[u8], second: &[u8])
    requires { length first.now + length second.now ≤ length out.old }
    ensures written { out.new ≡ first.now ++ second.now
        ++ drop (length first.now + length second.now) out.old }
    ensures front { take (length first.now + length second.now) out.new
        ≡ first.now ++ second.now }
    ensures size { length out.new ≡ length out.old }
{
    let count = first.len() + second.len();
    write_parts(&mut out[..count], first, second, &[]);
}
