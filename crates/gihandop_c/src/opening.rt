//! Opens a host with the contents of its files.

ghost use Rattle.std.specs.Prelude.{◌≡◌, ◌<◌, ℕ, [], IfOk, IfErr, IsOk, None, Ok};
ghost use Rattle.gatt_host.specs.Opening.{start_of};
ghost use Rattle.gatt_host.specs.HostModel.{RefinesRun};
ghost use Rattle.gatt_laws.specs.machine.Input.{run};
ghost use Rattle.gihandop_c.specs.Files.{keys_status, rows_status, table_status, values_status};
ghost use Rattle.gihandop_c.specs.Opening.{config_given, config_status, open_status, IsNotOfMemory, IsOpenedWith, IsStatusOf};
ghost use Rattle.gihandop_c.specs.Values.{values_in};
ghost use Rattle.gihandop_c.specs.declared.status.TheConstants.{BAD_TABLE, DONE};
ghost use Rattle.le_security.specs.KeyFile.{keys_in};
ghost use Rattle.gatt_subs.specs.Rows.{rows_in};
ghost use Rattle.att_table.specs.file.TableFile.{table_in};

use crate::config::{HostConfig, to_config};
use crate::opened::Opened;
use crate::status;
use gatt_host::{Host, Keys, OpenFault, Rows, Table};
use saved_values::restore_lines;
use std::alloc::Global;
use std::str;

/// Opens a host on the heap, or returns the status of the first fault of the first faulty text.
///
/// Writes the number of values that do not fit the table to `left_out`, or 0 on an error.
pub(crate) fn open(
    alloc: Global,
    table: &[u8],
    keys: &[u8],
    rows: &[u8],
    values: &[u8],
    config: &HostConfig,
    left_out: &mut usize,
) -> Result<Box<Opened, Global>, u32>
    ensures opened { IfOk result (λ opened. IsOpenedWith table.now keys.now rows.now values.now
        config.now left_out.new opened.value) }
    ensures none { IfErr result (λ _. left_out.new ≡ 0) }
    ensures accepted { IsOk result
        → open_status table.now keys.now rows.now values.now config.now ≡ DONE }
    ensures refused { IfErr result (λ status. 0 < status) }
    ensures status { IfErr result (λ status. IsNotOfMemory status
        → status ≡ open_status table.now keys.now rows.now values.now config.now) }
{
    *left_out = 0;
    let (mut served, initial) = read_twice(alloc, table)?;
    let keys = read_keys(alloc, keys)?;
    let rows = read_rows(alloc, rows)?;
    let count = restore_values(&mut served, values)?;
    let opened = open_with(alloc, served, initial, keys, rows, config)?;
    *left_out = count;
    Ok(opened)
}

/// Reads a table file into two tables.
pub(crate) fn read_twice(alloc: Global, octets: &[u8]) -> Result<(Table, Table), u32>
    ensures first { IfOk result (λ tables. table_in octets.now ≡ Ok tables.0) }
    ensures second { IfOk result (λ tables. table_in octets.now ≡ Ok tables.1) }
    ensures refused { IfErr result (λ status. BAD_TABLE < status) }
    ensures status { IfErr result (IsStatusOf (table_status (table_in octets.now))) }
{
    let first = read_table(alloc, octets)?;
    let second = read_table(alloc, octets)?;
    Ok((first, second))
}

/// Restores the values of a text into a table, and returns how many do not fit.
#[tactic(auto, using(octet_io::proofs::Texts::of_text, octet_io::proofs::Texts::of_no_text))]
fn restore_values(table: &mut Table, octets: &[u8]) -> Result<usize, u32>
    ensures restored { IfOk result (λ left_out.
        values_in octets.now table.old ≡ Ok (table.new, left_out)) }
    ensures refused { IfErr result (λ status. 0 < status) }
    ensures status { IfErr result (λ status. (behind : ℕ)
        → status ≡ values_status (values_in octets.now table.old) behind) }
{
    let Ok(text) = str::from_utf8(octets) else {
        return Err(status::VALUES_BAD_LINE);
    };
    match restore_lines(table, text) {
        Ok(left_out) => Ok(left_out),
        Err(_) => Err(status::VALUES_BAD_LINE),
    }
}

/// Opens a host, and moves it to the heap at once: it takes some kilobytes.
#[tactic(auto, using(crate::proofs::Refusals::config_refused, crate::proofs::Refusals::config_unreadable))]
fn open_with(
    alloc: Global,
    table: Table,
    initial: Table,
    keys: Keys,
    rows: Rows,
    config: &HostConfig,
) -> Result<Box<Opened, Global>, u32>
    ensures opened { IfOk result (λ opened. RefinesRun
        (run (start_of table keys rows (config_given config.now)) []) [] opened.value.host) }
    ensures going { IfOk result (λ opened. opened.value.host.fault ≡ None) }
    ensures initial { IfOk result (λ opened. opened.value.initial ≡ initial) }
    ensures accepted { IsOk result → config_status config.now ≡ DONE }
    ensures refused { IfErr result (λ status. 0 < status) }
    ensures status { IfErr result (λ status. IsNotOfMemory status
        → status ≡ config_status config.now) }
{
    let Some(given) = to_config(config) else {
        return Err(status::BAD_CONFIG);
    };
    let host = match Host::open(alloc, table, keys, rows, given) {
        Ok(host) => host,
        Err(OpenFault::BadConfig) => return Err(status::BAD_CONFIG),
        Err(OpenFault::OutOfMemory) => return Err(status::OUT_OF_MEMORY),
    };
    let opened = Opened {
        host,
        initial,
        told: 0,
        drained: false,
    };
    match Box::new(alloc, opened) {
        Ok(opened) => Ok(opened),
        Err(_) => Err(status::OUT_OF_MEMORY),
    }
}

#[tactic(auto, using(crate::proofs::Refusals::table_refused))]
fn read_table(alloc: Global, octets: &[u8]) -> Result<Table, u32>
    ensures table { IfOk result (λ table. table_in octets.now ≡ Ok table) }
    ensures refused { IfErr result (λ status. BAD_TABLE < status) }
    ensures status { IfErr result (IsStatusOf (table_status (table_in octets.now))) }
{
    match Table::from_bytes(alloc, octets) {
        Ok(table) => Ok(table),
        Err(fault) => Err(status::of_table_fault(fault)),
    }
}

#[tactic(auto, using(crate::proofs::Refusals::keys_refused))]
fn read_keys(alloc: Global, octets: &[u8]) -> Result<Keys, u32>
    ensures keys { IfOk result (λ keys. keys_in octets.now ≡ Ok keys) }
    ensures refused { IfErr result (λ status. 0 < status) }
    ensures status { IfErr result (IsStatusOf (keys_status (keys_in octets.now))) }
{
    match Keys::from_bytes(alloc, octets) {
        Ok(keys) => Ok(keys),
        Err(fault) => Err(status::of_key_fault(fault)),
    }
}

#[tactic(auto, using(crate::proofs::Refusals::rows_refused))]
fn read_rows(alloc: Global, octets: &[u8]) -> Result<Rows, u32>
    ensures rows { IfOk result (λ rows. rows_in octets.now ≡ Ok rows) }
    ensures refused { IfErr result (λ status. 0 < status) }
    ensures status { IfErr result (IsStatusOf (rows_status (rows_in octets.now))) }
{
    match Rows::from_bytes(alloc, octets) {
        Ok(rows) => Ok(rows),
        Err(fault) => Err(status::of_rows_fault(fault)),
    }
}
