//! Refused documents and the words of their readers.

use att_table::TableFault;
use le_security::{KeyFault, Keys};
use std::alloc::{AllocError, Global};
use toml::Table;

/// A format of TOML files.
#[derive(Clone, Copy)]
pub enum Format {
    Table,
    Keys,
}

/// A fault of a file.
#[derive(Clone, Copy, PartialEq, Eq)]
pub enum Fault {
    Table(TableFault),
    Keys(KeyFault),
}

impl Fault {
    /// Returns the words of the reader for the fault.
    pub fn words(self, alloc: Global) -> Result<String, AllocError> {
        match self {
            Fault::Table(fault) => format!(in alloc; "{fault}"),
            Fault::Keys(fault) => format!(in alloc; "{fault}"),
        }
    }
}

/// A refused document.
#[derive(Clone, Copy)]
pub struct Refused<'a> {
    pub alloc: Global,
    pub document: &'a Table,
    pub format: Format,
    /// The document's first fault.
    pub fault: Fault,
}

/// Returns the first fault of a document, if any.
pub fn fault_of(
    alloc: Global,
    document: &Table,
    format: Format,
) -> Result<Option<Fault>, AllocError> {
    let Ok(file) = toml::table_to_string(alloc, document) else {
        return Err(AllocError);
    };
    file_fault(alloc, file.as_str(), format)
}

/// Returns the first fault of a file, if any.
pub fn file_fault(alloc: Global, file: &str, format: Format) -> Result<Option<Fault>, AllocError> {
    match format {
        Format::Table => table_fault(alloc, file),
        Format::Keys => key_fault(alloc, file),
    }
}

fn table_fault(alloc: Global, file: &str) -> Result<Option<Fault>, AllocError> {
    match att_table::Table::read(alloc, file).err() {
        None => Ok(None),
        Some(TableFault::OutOfMemory) => Err(AllocError),
        Some(fault) => Ok(Some(Fault::Table(fault))),
    }
}

fn key_fault(alloc: Global, file: &str) -> Result<Option<Fault>, AllocError> {
    match Keys::read(alloc, file).err() {
        None => Ok(None),
        Some(KeyFault::OutOfMemory) => Err(AllocError),
        Some(fault) => Ok(Some(Fault::Keys(fault))),
    }
}
