//! Opening and closing a host, and explaining faults.

ghost use Rattle.std.specs.Prelude.{◌≡◌, ◌≢◌, ◌≤◌, length, take, IfSome, IsSome, None};
ghost use Rattle.gihandop_c.specs.Explaining.{first_faulty, name_of, BeginsWith};
ghost use Rattle.gihandop_c.specs.Opening.{open_status, IsNotOfMemory, IsOpenWith};
ghost use Rattle.gihandop_c.specs.Statuses.{explain_status};
ghost use Rattle.gihandop_c.specs.declared.status.TheConstants.{ALREADY_OPEN, CLOSED, DONE, OUT_OF_MEMORY, SHORT_BUFFER};

use crate::config::HostConfig;
use crate::host_pointer::HostPointer;
use crate::{explaining, opening, status};
use std::alloc::Global;

/// Opens a host with a table file, a key file, a subscriptions file and a values text.
///
/// Writes the number of values that do not fit the table to `left_out`. If the status is not
/// `DONE`, nothing else changes and `left_out` is 0.
#[unsafe(no_mangle)]
pub extern "C" fn gh_open(
    alloc: Global,
    host: &mut HostPointer,
    table: &[u8],
    keys: &[u8],
    rows: &[u8],
    values: &[u8],
    config: &HostConfig,
    left_out: &mut usize,
) -> u32
    // An open handle is not opened again.
    ensures already { IsSome host.old.host → result ≡ ALREADY_OPEN }
    // Else the status is that of the first fault of the first text that has one, or of the
    // configuration.
    ensures status { host.old.host ≡ None → IsNotOfMemory result
        → result ≡ open_status table.now keys.now rows.now values.now config.now }
    // The host is at the start that the texts say, and each value of the values text that fits the
    // table is in its place. It is reported how many do not fit, and the table of the table file is
    // noted.
    ensures opened { result ≡ DONE
        → IsOpenWith table.now keys.now rows.now values.now config.now left_out.new host.new.host }
    ensures none { result ≢ DONE → left_out.new ≡ 0 }
    // If none is opened, the handle stays as it was.
    ensures unchanged { result ≢ DONE → host.new.host ≡ host.old.host }
{
    *left_out = 0;
    if let Some(open) = host.take(alloc) {
        host.put(open);
        return status::ALREADY_OPEN;
    }
    match opening::open(alloc, table, keys, rows, values, config, left_out) {
        Ok(opened) => {
            host.put(opened);
            status::DONE
        }
        Err(status) => status,
    }
}

/// Closes a host, and frees its memory.
#[unsafe(no_mangle)]
pub extern "C" fn gh_close(alloc: Global, host: &mut HostPointer) -> u32
    ensures closed { host.old.host ≡ None → result ≡ CLOSED }
    ensures done { IsSome host.old.host → result ≡ DONE }
    // The handle is closed afterwards.
    ensures none { host.new.host ≡ None }
{
    match host.take(alloc) {
        Some(_) => status::DONE,
        None => status::CLOSED,
    }
}

/// Writes the words for the first fault of the texts to `out`, and their length to `count`.
///
/// Returns `NOTHING` if `gh_open` accepts all texts.
#[unsafe(no_mangle)]
pub extern "C" fn gh_explain(
    alloc: Global,
    table: &[u8],
    keys: &[u8],
    rows: &[u8],
    values: &[u8],
    out: &mut [u8],
    count: &mut usize,
) -> u32
    // There are words for a fault exactly if one of the texts has one.
    ensures status { result ≢ OUT_OF_MEMORY → result ≡ explain_status
        (first_faulty table.now keys.now rows.now values.now) count.new (length out.old) }
    // They begin with the name of the first text that has a fault.
    ensures names { result ≡ DONE → IfSome (first_faulty table.now keys.now rows.now values.now)
        (λ faulty. BeginsWith (name_of faulty) (take count.new out.new)) }
    ensures within { result ≡ DONE → count.new ≤ length out.old }
    ensures none { result ≢ DONE → result ≢ SHORT_BUFFER → count.new ≡ 0 }
    ensures untouched { result ≢ DONE → out.new ≡ out.old }
{
    explaining::explain(alloc, table, keys, rows, values, out, count)
}
