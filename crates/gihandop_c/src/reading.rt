//! Queries of an open host.

ghost use Rattle.std.specs.Prelude.{◌≡◌, ◌≢◌, ◌≤◌, length, take, Some};
ghost use Rattle.att_table.specs.Table.{value_at};
ghost use Rattle.host_connections.specs.Slots.{slots_deadline};
ghost use Rattle.gatt_subs.specs.RowsText.{rows_text};
ghost use Rattle.gihandop_c.specs.Seeing.{found_by, uuid_of};
ghost use Rattle.gihandop_c.specs.Statuses.{deadline_status, find_status, rows_text_status, value_status, values_text_status};
ghost use Rattle.gihandop_c.specs.Values.{saves_of, values_saved};
ghost use Rattle.gihandop_c.specs.declared.status.TheConstants.{DONE, OUT_OF_MEMORY, SHORT_BUFFER};

use crate::opened::Opened;
use crate::rows_text::RowsText;
use crate::{status, stream};
use gatt_host::from_16_bits;
use saved_values::{Saves, values_text as saved_text};
use std::alloc::Global;

pub(crate) fn value(opened: &Opened, handle: u16, out: &mut [u8], count: &mut usize) -> u32
    ensures status { result ≡ value_status handle (length out.old) opened.now }
    ensures value { result ≡ DONE
        → take count.new out.new ≡ value_at opened.now.host.server.table.values handle }
    ensures within { result ≡ DONE → count.new ≤ length out.old }
    ensures needs { result ≡ SHORT_BUFFER
        → count.new ≡ length (value_at opened.now.host.server.table.values handle) }
    ensures none { result ≢ DONE → result ≢ SHORT_BUFFER → count.new ≡ 0 }
    ensures untouched { result ≢ DONE → out.new ≡ out.old }
{
    *count = 0;
    let table = opened.host.table();
    if table.get(handle).is_none() {
        return status::NOTHING;
    }
    stream::copy(table.value(handle), out, count)
}

pub(crate) fn deadline(opened: &Opened, time: &mut u64) -> u32
    ensures status { result ≡ deadline_status opened.now }
    ensures deadline { result ≡ DONE → slots_deadline opened.now.host.server.time
        opened.now.host.server.slots ≡ Some time.new }
    ensures none { result ≢ DONE → time.new ≡ 0 }
{
    match opened.host.deadline() {
        Some(deadline) => {
            *time = deadline;
            status::DONE
        }
        None => {
            *time = 0;
            status::NOTHING
        }
    }
}

pub(crate) fn rows_text(alloc: Global, opened: &Opened, out: &mut [u8], count: &mut usize) -> u32
    ensures status { result ≢ OUT_OF_MEMORY
        → result ≡ rows_text_status (length out.old) opened.now }
    ensures rows { result ≡ DONE
        → take count.new out.new ≡ rows_text opened.now.host.server.rows }
    ensures within { result ≡ DONE → count.new ≤ length out.old }
    ensures needs { result ≡ SHORT_BUFFER
        → count.new ≡ length (rows_text opened.now.host.server.rows) }
    ensures none { result ≢ DONE → result ≢ SHORT_BUFFER → count.new ≡ 0 }
    ensures untouched { result ≢ DONE → out.new ≡ out.old }
{
    *count = 0;
    let mut text = RowsText {
        octets: Vec::new(alloc),
    };
    if opened.host.rows().text(&mut text).is_err() {
        return status::OUT_OF_MEMORY;
    }
    stream::copy(text.octets.as_slice(), out, count)
}

pub(crate) fn values_text(
    alloc: Global,
    opened: &Opened,
    all: u8,
    out: &mut [u8],
    count: &mut usize,
) -> u32
    ensures status { result ≢ OUT_OF_MEMORY
        → result ≡ values_text_status all (length out.old) opened.now }
    ensures values { result ≡ DONE → take count.new out.new ≡ values_saved all opened.now }
    ensures within { result ≡ DONE → count.new ≤ length out.old }
    ensures needs { result ≡ SHORT_BUFFER → count.new ≡ length (values_saved all opened.now) }
    ensures none { result ≢ DONE → result ≢ SHORT_BUFFER → count.new ≡ 0 }
    ensures untouched { result ≢ DONE → out.new ≡ out.old }
{
    *count = 0;
    match saved_text(alloc, opened.host.table(), &opened.initial, saves(all)) {
        Ok(text) => stream::copy(text.as_slice(), out, count),
        Err(_) => status::OUT_OF_MEMORY,
    }
}

fn saves(all: u8) -> Saves
    ensures { result ≡ saves_of all }
{
    if all == 0 {
        Saves::Writable
    } else {
        Saves::All
    }
}

pub(crate) fn find(
    opened: &Opened,
    service: &[u8],
    characteristic: &[u8],
    number: u16,
    handle: &mut u16,
) -> u32
    ensures status { result ≡ find_status service.now characteristic.now number opened.now }
    ensures found { result ≡ DONE
        → found_by opened.now.host.server.table service.now characteristic.now number
        ≡ Some handle.new }
    ensures none { result ≢ DONE → handle.new ≡ 0 }
{
    *handle = 0;
    let Some(service) = uuid(service) else {
        return status::NOTHING;
    };
    let Some(characteristic) = uuid(characteristic) else {
        return status::NOTHING;
    };
    match opened.host.table().find(service, characteristic, number) {
        Some(found) => {
            *handle = found;
            status::DONE
        }
        None => status::NOTHING,
    }
}

/// Reads a UUID of 2 or 16 octets, least significant first.
fn uuid(octets: &[u8]) -> Option<u128>
    ensures { result ≡ uuid_of octets.now }
{
    if let Ok(short) = <[u8; 2]>::try_from(octets) {
        return Some(from_16_bits(u16::from_le_bytes(short)));
    }
    match <[u8; 16]>::try_from(octets) {
        Ok(whole) => Some(u128::from_le_bytes(whole)),
        Err(_) => None,
    }
}
