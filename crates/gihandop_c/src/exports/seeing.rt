//! Queries of the program.

ghost use Rattle.std.specs.Prelude.{◌≡◌, ◌≢◌, ◌≤◌, length, take, IfSome, Some, None};
ghost use Rattle.att_table.specs.Table.{value_at};
ghost use Rattle.host_connections.specs.Slots.{slots_deadline};
ghost use Rattle.gatt_subs.specs.RowsText.{rows_text};
ghost use Rattle.gihandop_c.specs.Seeing.{connection_at, found_by};
ghost use Rattle.gihandop_c.specs.Statuses.{connection_status, deadline_status, find_status, if_open, rows_text_status, text_status, value_status, values_text_status};
ghost use Rattle.gihandop_c.specs.Values.{values_saved};
ghost use Rattle.gihandop_c.specs.declared.status.TheConstants.{CLOSED, DONE, OUT_OF_MEMORY, SHORT_BUFFER};

use crate::connections::ConnectionFields;
use crate::host_pointer::HostPointer;
use crate::{connections, reading, status, stream, text};
use std::alloc::Global;

/// The version 0.2.0, as `gh_version` returns it.
const VERSION: u32 = 2_000;

/// Writes the value at a handle to `out`, and its length to `count`.
///
/// A client characteristic configuration has no octets here.
#[unsafe(no_mangle)]
pub extern "C" fn gh_value(
    host: &mut HostPointer,
    handle: u16,
    out: &mut [u8],
    count: &mut usize,
) -> u32
    // Done exactly if the value is there and fits. A missing one is reported before a short buffer.
    ensures status { result ≡ if_open (value_status handle (length out.old)) host.old.host }
    ensures value { result ≡ DONE → IfSome host.old.host (λ opened.
        take count.new out.new ≡ value_at opened.host.server.table.values handle) }
    ensures within { result ≡ DONE → count.new ≤ length out.old }
    // A short buffer gets the needed length.
    ensures needs { result ≡ SHORT_BUFFER → IfSome host.old.host (λ opened.
        count.new ≡ length (value_at opened.host.server.table.values handle)) }
    ensures none { result ≢ DONE → result ≢ SHORT_BUFFER → count.new ≡ 0 }
    ensures unchanged { host.new.host ≡ host.old.host }
    ensures untouched { result ≢ DONE → out.new ≡ out.old }
{
    *count = 0;
    let Some(open) = host.as_mut() else {
        return status::CLOSED;
    };
    reading::value(open, handle, out, count)
}

/// Writes the handle of a value to `handle`: the one with this number, from 1, in the order of
/// handles.
///
/// It counts values of a characteristic type in services of a type. A type is a UUID of 2 or 16
/// octets, least significant first.
#[unsafe(no_mangle)]
pub extern "C" fn gh_find(
    host: &mut HostPointer,
    service: &[u8],
    characteristic: &[u8],
    number: u16,
    handle: &mut u16,
) -> u32
    // Done exactly if there is such a value.
    ensures status { result
        ≡ if_open (find_status service.now characteristic.now number) host.old.host }
    ensures found { result ≡ DONE → IfSome host.old.host (λ opened.
        found_by opened.host.server.table service.now characteristic.now number
        ≡ Some handle.new) }
    ensures none { result ≢ DONE → handle.new ≡ 0 }
    ensures unchanged { host.new.host ≡ host.old.host }
{
    *handle = 0;
    let Some(open) = host.as_mut() else {
        return status::CLOSED;
    };
    reading::find(open, service, characteristic, number, handle)
}

/// Writes the connection at a place, from 0 in the order of slots, to `connection`.
///
/// Returns `NOTHING` if no connection has the place, and `BAD_SIZE` if its `size` is too small.
#[unsafe(no_mangle)]
pub extern "C" fn gh_connection(
    host: &mut HostPointer,
    place: usize,
    connection: &mut ConnectionFields,
) -> u32
    // Done exactly if there is one at the place. A structure that is too small is refused, and not
    // written to.
    ensures status { result
        ≡ if_open (connection_status connection.old.size place) host.old.host }
    // The structure keeps its size.
    ensures there { result ≡ DONE → IfSome host.old.host (λ opened.
        connection_at connection.old.size opened place ≡ Some connection.new) }
    ensures unchanged { host.new.host ≡ host.old.host }
    ensures untouched { result ≢ DONE → connection.new ≡ connection.old }
{
    let Some(open) = host.as_mut() else {
        return status::CLOSED;
    };
    connections::connection(open, place, connection)
}

/// Writes the earliest time at which a tick is necessary to `time`, in milliseconds.
///
/// An indication is then late, or an authorization ends. Returns `NOTHING` if neither is pending.
#[unsafe(no_mangle)]
pub extern "C" fn gh_deadline(host: &mut HostPointer, time: &mut u64) -> u32
    // Done exactly if there is such a time.
    ensures status { result ≡ if_open deadline_status host.old.host }
    ensures deadline { result ≡ DONE → IfSome host.old.host (λ opened.
        slots_deadline opened.host.server.time opened.host.server.slots ≡ Some time.new) }
    ensures none { result ≢ DONE → time.new ≡ 0 }
    ensures unchanged { host.new.host ≡ host.old.host }
{
    *time = 0;
    let Some(open) = host.as_mut() else {
        return status::CLOSED;
    };
    reading::deadline(open, time)
}

/// Writes the subscriptions of peers, and pending Service Changed, to `out` as a subscriptions
/// file.
///
/// Writes its length to `count`.
#[unsafe(no_mangle)]
pub extern "C" fn gh_rows_text(
    alloc: Global,
    host: &mut HostPointer,
    out: &mut [u8],
    count: &mut usize,
) -> u32
    ensures closed { host.old.host ≡ None → result ≡ CLOSED }
    // Done exactly if the text fits, unless memory was refused.
    ensures status { result ≢ OUT_OF_MEMORY
        → result ≡ if_open (rows_text_status (length out.old)) host.old.host }
    // The text is that of the rows of the host.
    ensures rows { result ≡ DONE → IfSome host.old.host (λ opened.
        take count.new out.new ≡ rows_text opened.host.server.rows) }
    ensures within { result ≡ DONE → count.new ≤ length out.old }
    ensures needs { result ≡ SHORT_BUFFER → IfSome host.old.host (λ opened.
        count.new ≡ length (rows_text opened.host.server.rows)) }
    ensures none { result ≢ DONE → result ≢ SHORT_BUFFER → count.new ≡ 0 }
    ensures unchanged { host.new.host ≡ host.old.host }
    ensures untouched { result ≢ DONE → out.new ≡ out.old }
{
    *count = 0;
    let Some(open) = host.as_mut() else {
        return status::CLOSED;
    };
    reading::rows_text(alloc, open, out, count)
}

/// Writes the values that differ from those of the table file to `out`, and their length to
/// `count`.
///
/// These are those that a peer may write, or all if `all` is not 0, descriptors included.
#[unsafe(no_mangle)]
pub extern "C" fn gh_values_text(
    alloc: Global,
    host: &mut HostPointer,
    all: u8,
    out: &mut [u8],
    count: &mut usize,
) -> u32
    ensures closed { host.old.host ≡ None → result ≡ CLOSED }
    // Done exactly if the text fits, unless memory was refused.
    ensures status { result ≢ OUT_OF_MEMORY
        → result ≡ if_open (values_text_status all (length out.old)) host.old.host }
    // The text is that of the values that differ from those of the noted table: those that a client
    // may write, or all.
    ensures values { result ≡ DONE → IfSome host.old.host (λ opened.
        take count.new out.new ≡ values_saved all opened) }
    ensures within { result ≡ DONE → count.new ≤ length out.old }
    ensures needs { result ≡ SHORT_BUFFER → IfSome host.old.host (λ opened.
        count.new ≡ length (values_saved all opened)) }
    ensures none { result ≢ DONE → result ≢ SHORT_BUFFER → count.new ≡ 0 }
    ensures unchanged { host.new.host ≡ host.old.host }
    ensures untouched { result ≢ DONE → out.new ≡ out.old }
{
    *count = 0;
    let Some(open) = host.as_mut() else {
        return status::CLOSED;
    };
    reading::values_text(alloc, open, all, out, count)
}

/// Writes the meaning of a status, a line of ASCII, to `out`, and its length to `count`.
///
/// Returns `NOTHING` for a number that no function returns.
#[unsafe(no_mangle)]
pub extern "C" fn gh_text(status: u32, out: &mut [u8], count: &mut usize) -> u32
    // There are words of each status that a function may return, and of no other number.
    ensures status { result ≡ text_status status count.new (length out.old) }
    ensures none { result ≢ DONE → result ≢ SHORT_BUFFER → count.new ≡ 0 }
    ensures untouched { result ≢ DONE → out.new ≡ out.old }
{
    *count = 0;
    match text::text(status) {
        Some(text) => stream::copy(text.as_bytes(), out, count),
        None => status::NOTHING,
    }
}

/// Returns the version: major number times 1,000,000, plus minor times 1,000, plus patch.
#[unsafe(no_mangle)]
pub extern "C" fn gh_version() -> u32
    // The version is 0.2.0.
    ensures version { result ≡ 2000 }
{
    VERSION
}
