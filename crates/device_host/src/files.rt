//! The files that a device reads at its start.
//!
//! Standard error reports the path of a refused file, with the reason and the place of the fault.

use crate::stop::{Stop, refuse};
use arrayvec::ArrayVec;
use gatt_host::{Keys, Rows, Table};
use shell_files::{
    ShellFault, TOML_OCTETS, judged_keys, judged_rows, judged_table, tell_keys_fault,
    tell_rows_fault, tell_table_fault,
};
use std::alloc::{AllocError, Global};
use std::fs::{File, Files};
use std::io::ErrorKind;
use std::str;

/// The largest size of a state or a subscriptions file. One within all limits is smaller.
pub(crate) const STATE_OCTETS: usize = 16_777_216;

/// The keys of a file, and its text.
#[derive(Drop)]
pub(crate) struct KeyFile {
    pub(crate) keys: Keys,
    pub(crate) text: Vec<u8>,
}

#[derive(Drop)]
pub(crate) struct TableFile {
    pub(crate) table: Table,
    pub(crate) text: Vec<u8>,
}

/// The content of a file whose refusal has a place.
trait Content {
    fn judge(alloc: Global, octets: &[u8]) -> Result<Self, ShellFault>;

    /// Adds the place and the fault of a refused file. On `Err` memory was refused.
    fn tell_fault(alloc: Global, place: &mut Vec<u8>, octets: &[u8]) -> Result<(), AllocError>;
}

impl Content for Table {
    fn judge(alloc: Global, octets: &[u8]) -> Result<Table, ShellFault> {
        judged_table(alloc, octets)
    }

    fn tell_fault(alloc: Global, place: &mut Vec<u8>, octets: &[u8]) -> Result<(), AllocError> {
        tell_table_fault(alloc, place, octets)
    }
}

impl Content for Keys {
    fn judge(alloc: Global, octets: &[u8]) -> Result<Keys, ShellFault> {
        judged_keys(alloc, octets)
    }

    fn tell_fault(alloc: Global, place: &mut Vec<u8>, octets: &[u8]) -> Result<(), AllocError> {
        tell_keys_fault(alloc, place, octets)
    }
}

impl Content for Rows {
    fn judge(alloc: Global, octets: &[u8]) -> Result<Rows, ShellFault> {
        judged_rows(alloc, octets)
    }

    fn tell_fault(alloc: Global, place: &mut Vec<u8>, octets: &[u8]) -> Result<(), AllocError> {
        tell_rows_fault(alloc, place, octets)
    }
}

pub(crate) fn read_table<R: Files<File = File> + Eprint>(
    alloc: Global,
    rt: &R,
    path: &str,
) -> Result<TableFile, Stop> {
    let Some(text) = read_file(alloc, rt, path, TOML_OCTETS)? else {
        return Err(refuse(rt, format!(in alloc; "{path}: not there").ok()));
    };
    match judged(alloc, path, text.as_slice(), usize::MAX) {
        Ok(table) => Ok(TableFile { table, text }),
        Err(refusal) => Err(refuse(rt, refusal)),
    }
}

pub(crate) fn read_keys<R: Files<File = File> + Eprint>(
    alloc: Global,
    rt: &R,
    path: &str,
) -> Result<KeyFile, Stop> {
    match judged_key_file(alloc, rt, path, usize::MAX) {
        Ok(file) => Ok(file),
        Err(refusal) => Err(refuse(rt, refusal)),
    }
}

/// Reads a key file. A refusal has its path and the reason, or nothing if memory was refused.
///
/// It also has the place of the fault if the file has at most `placed` bytes.
pub(crate) fn judged_key_file<R: Files<File = File>>(
    alloc: Global,
    rt: &R,
    path: &str,
    placed: usize,
) -> Result<KeyFile, Option<String>> {
    let Some(text) = octets_of(alloc, rt, path, TOML_OCTETS)? else {
        return Err(format!(in alloc; "{path}: not there").ok());
    };
    let keys = judged(alloc, path, text.as_slice(), placed)?;
    Ok(KeyFile { keys, text })
}

/// Reads a subscriptions file. A missing file counts as an empty one.
pub(crate) fn read_subscriptions<R: Files<File = File> + Eprint>(
    alloc: Global,
    rt: &R,
    path: &str,
) -> Result<Rows, Stop> {
    let text = read_file(alloc, rt, path, STATE_OCTETS)?.unwrap_or(Vec::new(alloc));
    match judged(alloc, path, text.as_slice(), usize::MAX) {
        Ok(rows) => Ok(rows),
        Err(refusal) => Err(refuse(rt, refusal)),
    }
}

/// Reads the content of a file. A refusal: as of `judged_key_file`.
fn judged<T: Content>(
    alloc: Global,
    path: &str,
    octets: &[u8],
    placed: usize,
) -> Result<T, Option<String>> {
    match T::judge(alloc, octets) {
        Ok(content) => Ok(content),
        Err(fault) => {
            let mut place = Vec::new(alloc);
            let told = if octets.len() <= placed {
                T::tell_fault(alloc, &mut place, octets)
            } else {
                Ok(())
            };
            Err(refusal_at(alloc, path, fault, told, place.as_slice()))
        }
    }
}

/// Returns the bytes of a file, or `None` if it is missing, as `octets_of`.
pub(crate) fn read_file<R: Files<File = File> + Eprint>(
    alloc: Global,
    rt: &R,
    path: &str,
    most: usize,
) -> Result<Option<Vec<u8>>, Stop> {
    match octets_of(alloc, rt, path, most) {
        Ok(octets) => Ok(octets),
        Err(refusal) => Err(refuse(rt, refusal)),
    }
}

/// Returns the bytes of a file, or `None` if it is missing.
///
/// Reads no more than one read after `most` bytes: a reader refuses so large a file. Errors: as of
/// `judged_key_file`.
pub(crate) fn octets_of<R: Files<File = File>>(
    alloc: Global,
    rt: &R,
    path: &str,
    most: usize,
) -> Result<Option<Vec<u8>>, Option<String>> {
    let mut file = match File::open(rt, path) {
        Ok(file) => file,
        Err(error) if error.kind() == ErrorKind::NotFound => return Ok(None),
        Err(error) => return Err(format!(in alloc; "{path}: {error}").ok()),
    };
    match shell_files::read_at_most(alloc, &mut file, most) {
        Ok(octets) if octets.len() > STATE_OCTETS => {
            drop(octets);
            Err(format!(in alloc; "{path}: more than {STATE_OCTETS} bytes").ok())
        }
        Ok(octets) => Ok(Some(octets)),
        Err(ShellFault::Memory) => Err(None),
        Err(_) => Err(format!(in alloc; "{path}: cannot be read").ok()),
    }
}

fn refusal_at(
    alloc: Global,
    path: &str,
    fault: ShellFault,
    told: Result<(), AllocError>,
    place: &[u8],
) -> Option<String> {
    let mut text = ArrayVec::new();
    shell_files::text(&fault, &mut text);
    let words = str::from_utf8(text.as_slice()).unwrap_or("");
    let place = if told.is_ok() {
        str::from_utf8(place).unwrap_or("")
    } else {
        ""
    };
    if place.is_empty() {
        format!(in alloc; "{path}: {words}").ok()
    } else {
        format!(in alloc; "{path}: {words}: {place}").ok()
    }
}
