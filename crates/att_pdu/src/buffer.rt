//! Writes to the buffer of a PDU.

ghost use Rattle.std.specs.Prelude.{◌≡◌, ◌+◌, ◌≤◌, ◌++◌, length, take, drop};
ghost use Rattle.arrayvec.specs.ArrayVec.{array_vec_len};

use octet_io::{MAX_PDU, PduOctets, set_length, write_parts};

/// Replaces the buffer's contents by `first` and `rest`.
#[inline(always)]
pub(crate) fn replace_all(buffer: &mut PduOctets, first: &[u8], rest: &[u8])
    requires { length first.now + length rest.now ≤ MAX_PDU }
    ensures { buffer.new.items ≡ first.now ++ rest.now }
{
    if buffer.is_empty() {
        // Appending avoids filling with zeros first.
        extend(buffer, first);
        extend(buffer, rest);
    } else {
        resize(buffer, first.len() + rest.len());
        write_parts(buffer.as_mut_slice(), first, rest, &[]);
    }
}

/// Sets the buffer's length, which is usually right already.
#[inline(always)]
pub(crate) fn resize(buffer: &mut PduOctets, size: usize)
    requires { size ≤ MAX_PDU }
    ensures front { take (array_vec_len buffer.old) buffer.new.items ≡ take size buffer.old.items }
    ensures size { array_vec_len buffer.new ≡ size }
{
    if buffer.len() != size {
        resize_apart(buffer, size);
    }
}

#[inline(never)]
fn resize_apart(buffer: &mut PduOctets, size: usize)
    requires { size ≤ MAX_PDU }
    ensures front { take (array_vec_len buffer.old) buffer.new.items ≡ take size buffer.old.items }
    ensures size { array_vec_len buffer.new ≡ size }
{
    set_length(buffer, size);
}

/// Appends octets; the precondition makes `unwrap` free.
#[inline(always)]
pub(crate) fn extend(octets: &mut PduOctets, more: &[u8])
    requires { array_vec_len octets.old + length more.now ≤ MAX_PDU }
    ensures { octets.new.items ≡ octets.old.items ++ more.now }
{
    octets.try_extend_from_slice(more).unwrap();
}

/// Overwrites octets from `place` on.
#[inline(always)]
pub(crate) fn write(octets: &mut [u8], place: usize, more: &[u8])
    requires { place + length more.now ≤ length octets.old }
    ensures { octets.new ≡ take place octets.old ++ more.now
        ++ drop (place + length more.now) octets.old }
{
    octets[place..place + more.len()].copy_from_slice(more);
}

/// Overwrites octets from `place` on with `first` and `value`.
#[inline(always)]
pub(crate) fn write_both(octets: &mut [u8], place: usize, first: &[u8], value: &[u8])
    requires { place + length first.now + length value.now ≤ length octets.old }
    ensures { octets.new ≡ take place octets.old ++ first.now ++ value.now
        ++ drop (place + length first.now + length value.now) octets.old }
{
    let middle = place + first.len();
    octets[place..middle].copy_from_slice(first);
    copy(&mut octets[middle..middle + value.len()], value);
}

/// Copies octets, out of line: saves registers in loops that append elements.
#[inline(never)]
fn copy(to: &mut [u8], from: &[u8])
    requires { length to.old ≡ length from.now }
    ensures { to.new ≡ from.now }
{
    to.copy_from_slice(from);
}
