//! Input from the controller, output and notices.

ghost use Rattle.std.specs.Prelude.{◌≡◌, ◌≢◌, ◌<◌, ◌≤◌, ◌∷◌, [], length, take, true, IfSome, Some, None};
ghost use Rattle.gatt_host.specs.Feeding.{octet_items, TakesUpToAPacket};
ghost use Rattle.gihandop_c.specs.Boundary.{HostKeepsFault, HostKeepsInitial, HostRefines, HostStays, HostStaysIfStopped, HostStopsByItsInput, HostTellsItems, KeepsNotices, OfTheHost};
ghost use Rattle.gihandop_c.specs.Statuses.{if_open, is_status, notice_status, out_status, take_status};
ghost use Rattle.gihandop_c.specs.Telling.{HandsOut};
ghost use Rattle.gihandop_c.specs.declared.status.TheConstants.{CLOSED, DONE, OUTPUT_OWED, SHORT_BUFFER};
ghost use Rattle.gihandop_c.specs.declared.stream.TheConstants.{LONGEST_PACKET};

use crate::host_pointer::HostPointer;
use crate::notices::NoticeFields;
use crate::{notices, status, stream};

/// Takes bytes from the controller up to the end of the next packet, or all if none ends in them.
///
/// They may begin and end anywhere. Writes the number of bytes taken to `used`.
#[unsafe(no_mangle)]
pub extern "C" fn gh_take(host: &mut HostPointer, octets: &[u8], used: &mut usize) -> u32
    ensures closed { host.old.host ≡ None → result ≡ CLOSED }
    // The octets up to the end of the next packet, or all of them if none ends in them, are
    // accepted as by the host.
    ensures takes { HostRefines (octet_items (take used.new octets.now)) []
        host.old.host host.new.host }
    // The notices are those of these octets.
    ensures tells { result ≢ OUTPUT_OWED
        → HostTellsItems (octet_items (take used.new octets.now))
        host.old.host host.new.host }
    ensures within { used.new ≤ length octets.now }
    // They end one packet, or are all octets and end none.
    ensures up_to { result ≡ DONE → IfSome host.old.host
        (λ opened. TakesUpToAPacket octets.now used.new opened.host) }
    ensures some { result ≡ DONE → 0 < length octets.now → 0 < used.new }
    ensures all { result ≢ CLOSED → result ≢ OUTPUT_OWED → result ≢ DONE
        → used.new ≡ length octets.now }
    ensures none { result ≡ OUTPUT_OWED → used.new ≡ 0 }
    ensures closed_none { host.old.host ≡ None → used.new ≡ 0 }
    // Exactly if output is pending, the status says so. Else it is done if there is no fault then,
    // or the fault.
    ensures status { OfTheHost (λ old new. result ≡ take_status old new)
        host.old.host host.new.host }
    // There are words of each status that it may return.
    ensures words { is_status result ≡ true }
    // The noted table of the table file stays.
    ensures initial { HostKeepsInitial host.old.host host.new.host }
    // While output is pending, nothing is accepted.
    ensures owed { result ≡ OUTPUT_OWED → host.new.host ≡ host.old.host }
    // It stops a host only for what it takes: by no fault of a reader, a writer or turns.
    ensures not_own { HostStopsByItsInput host.old.host host.new.host }
    // A stopped host stays as it is.
    ensures stopped { HostStaysIfStopped host.old.host host.new.host }
{
    let Some(open) = host.as_mut() else {
        *used = 0;
        return status::CLOSED;
    };
    stream::take(open, octets, used)
}

/// Writes the next packet for the controller to `out`, and its length to `count`.
///
/// The packet counts as sent. `out` needs 260 bytes. Returns `NOTHING` if no packet is pending.
#[unsafe(no_mangle)]
pub extern "C" fn gh_next_out(host: &mut HostPointer, out: &mut [u8], count: &mut usize) -> u32
    // Exactly if nothing is pending, the status says so. Else, exactly if the buffer has fewer than
    // 260 octets, it says that the buffer is short.
    ensures status { result ≡ if_open (out_status (length out.old)) host.old.host }
    // The packet is the next of the host.
    ensures some { result ≡ DONE → HostRefines [] (take count.new out.new ∷ [])
        host.old.host host.new.host }
    ensures within { result ≡ DONE → count.new ≤ length out.old }
    // A short buffer gets the needed length.
    ensures needs { result ≡ SHORT_BUFFER → count.new ≡ LONGEST_PACKET }
    ensures none { result ≢ DONE → result ≢ SHORT_BUFFER → count.new ≡ 0 }
    // If nothing is done, nothing changes.
    ensures unchanged { result ≢ DONE → HostStays host.old.host host.new.host }
    // Output causes no fault.
    ensures fault { HostKeepsFault host.old.host host.new.host }
    // The notices that were not returned stay, with the values that they name.
    ensures notices { OfTheHost KeepsNotices host.old.host host.new.host }
    ensures untouched { result ≢ DONE → out.new ≡ out.old }
{
    let Some(open) = host.as_mut() else {
        *count = 0;
        return status::CLOSED;
    };
    if !open.host.may_owe() {
        return stream::nothing(open, count);
    }
    stream::next_out(open, out, count)
}

/// Writes the next notice of the last input to `notice`, if its `size` is large enough.
#[unsafe(no_mangle)]
pub extern "C" fn gh_next_notice(host: &mut HostPointer, notice: &mut NoticeFields) -> u32
    // Done exactly if a notice of what was accepted last was not returned yet. A structure that is
    // too small is refused.
    ensures status { result ≡ if_open (notice_status notice.old.size) host.old.host }
    // It is the first of these, and counts as returned. The structure keeps its size.
    ensures gives { result ≡ DONE
        → OfTheHost (HandsOut notice.old.size notice.new) host.old.host host.new.host }
    ensures unchanged { result ≢ DONE → host.new.host ≡ host.old.host }
    ensures untouched { result ≢ DONE → notice.new ≡ notice.old }
{
    let Some(open) = host.as_mut() else {
        return status::CLOSED;
    };
    notices::next(open, notice)
}
