//! The input from the controller, and the packets for it.

ghost use Rattle.std.specs.Prelude.{◌≡◌, ◌≢◌, ◌<◌, ◌≤◌, ◌∷◌, [], length, take, true, if◌then◌else◌};
ghost use Rattle.gatt_host.specs.Feeding.{octet_items, TakesUpToAPacket};
ghost use Rattle.gatt_host.specs.HostModel.{all_out};
ghost use Rattle.gihandop_c.specs.Boundary.{KeepsFault, KeepsInitial, KeepsNotices, OpenedRefines, StaysIfStopped, StopsByItsInput, TellsItems};
ghost use Rattle.gihandop_c.specs.Statuses.{is_status, out_status, room_status, take_status};
ghost use Rattle.gihandop_c.specs.declared.status.TheConstants.{DONE, NOTHING, OUTPUT_OWED, SHORT_BUFFER};

use crate::opened::Opened;
use crate::status;
use gatt_host::MAX_PACKET_OUT;

/// The longest packet for the controller, in octets.
const LONGEST_PACKET: usize = MAX_PACKET_OUT;

/// Takes bytes up to the end of the next packet, or all if none ends in them.
///
/// Writes their number to `used`. If the host stops or has stopped, all count as taken.
#[tactic(auto, using(crate::proofs::OwnFaults::none_taken))]
pub(crate) fn take(opened: &mut Opened, octets: &[u8], used: &mut usize) -> u32
    ensures takes { OpenedRefines (octet_items (take used.new octets.now)) [] opened.old
        opened.new }
    ensures tells { result ≢ OUTPUT_OWED
        → TellsItems (octet_items (take used.new octets.now)) opened.old opened.new }
    ensures within { used.new ≤ length octets.now }
    ensures up_to { result ≡ DONE → TakesUpToAPacket octets.now used.new opened.old.host }
    ensures some { result ≡ DONE → 0 < length octets.now → 0 < used.new }
    ensures all { result ≢ DONE → result ≢ OUTPUT_OWED → used.new ≡ length octets.now }
    ensures none { result ≡ OUTPUT_OWED → used.new ≡ 0 }
    ensures status { result ≡ take_status opened.old opened.new }
    ensures words { is_status result ≡ true }
    ensures initial { KeepsInitial opened.old opened.new }
    ensures owed { result ≡ OUTPUT_OWED → opened.new ≡ opened.old }
    ensures not_own { StopsByItsInput opened.old opened.new }
    ensures stopped { StaysIfStopped opened.old opened.new }
{
    if !opened.drained && !opened.host.drained() {
        *used = 0;
        return status::OUTPUT_OWED;
    }
    opened.drained = false;
    opened.told = 0;
    match opened.host.take(octets) {
        Ok(count) => {
            *used = count;
            status::DONE
        }
        Err(fault) => {
            *used = octets.len();
            status::of_host_fault(fault)
        }
    }
}

#[inline(always)]
pub(crate) fn nothing(opened: &mut Opened, count: &mut usize) -> u32
    requires { all_out opened.old.host ≡ true }
    ensures status { result ≡ NOTHING }
    ensures count { count.new ≡ 0 }
    ensures unchanged { opened.new.host ≡ opened.old.host }
    ensures told { opened.new.told ≡ opened.old.told }
    ensures notices { KeepsNotices opened.old opened.new }
{
    *count = 0;
    opened.drained = true;
    status::NOTHING
}

/// Writes the next packet. Not inlined, so that a call without a pending packet saves no registers.
#[inline(never)]
pub(crate) fn next_out(opened: &mut Opened, out: &mut [u8], count: &mut usize) -> u32
    ensures status { result ≡ out_status (length out.old) opened.old }
    ensures some { result ≡ DONE
        → OpenedRefines [] (take count.new out.new ∷ []) opened.old opened.new }
    ensures within { result ≡ DONE → count.new ≤ length out.old }
    ensures needs { result ≡ SHORT_BUFFER → count.new ≡ LONGEST_PACKET }
    ensures none { result ≢ DONE → result ≢ SHORT_BUFFER → count.new ≡ 0 }
    ensures unchanged { result ≢ DONE → opened.new.host ≡ opened.old.host }
    ensures told { opened.new.told ≡ opened.old.told }
    ensures fault { KeepsFault opened.old opened.new }
    ensures notices { KeepsNotices opened.old opened.new }
    ensures untouched { result ≢ DONE → out.new ≡ out.old }
{
    if out.len() < LONGEST_PACKET {
        return too_short(opened, count);
    }
    match opened.host.next_into(out) {
        // A packet was pending, so `drained` is not set.
        Some(length) => {
            *count = length;
            status::DONE
        }
        None => nothing(opened, count),
    }
}

#[cold]
fn too_short(opened: &Opened, count: &mut usize) -> u32
    ensures status { result ≡ (if all_out opened.now.host then NOTHING else SHORT_BUFFER) }
    ensures needs { result ≡ SHORT_BUFFER → count.new ≡ LONGEST_PACKET }
    ensures none { result ≡ NOTHING → count.new ≡ 0 }
{
    if opened.is_drained() {
        *count = 0;
        return status::NOTHING;
    }
    *count = LONGEST_PACKET;
    status::SHORT_BUFFER
}

/// Copies bytes to a prefix of `out` if they fit. `count` always receives their number.
pub(crate) fn copy(octets: &[u8], out: &mut [u8], count: &mut usize) -> u32
    ensures done { result ≡ DONE → take count.new out.new ≡ octets.now }
    ensures status { result ≡ room_status (length octets.now) (length out.old) }
    ensures within { result ≡ DONE → length octets.now ≤ length out.old }
    ensures count { count.new ≡ length octets.now }
    ensures none { result ≢ DONE → result ≢ SHORT_BUFFER → count.new ≡ 0 }
    ensures untouched { result ≢ DONE → out.new ≡ out.old }
{
    *count = octets.len();
    if out.len() < octets.len() {
        return status::SHORT_BUFFER;
    }
    out[..octets.len()].copy_from_slice(octets);
    status::DONE
}
