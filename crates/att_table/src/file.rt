//! The table file: services, characteristics and descriptors in TOML.

ghost use Rattle.std.specs.Prelude.{◌≡◌, IsErrOf};
ghost use Rattle.octet_io.specs.Memory.{Gives};
ghost use Rattle.toml.specs.Parse.{parse_document};
ghost use Rattle.toml.specs.View.{table_view};
ghost use Rattle.att_table.specs.declared.table_fault.TableFault.TheVariants.{OutOfMemory};
ghost use Rattle.att_table.specs.file.TableFile.{table_in, table_of, table_read};

mod characteristic;
mod descriptor;
mod draft;
mod field;
mod include;
mod keys;
mod needs;
mod part;
mod placed;
mod service;
mod type_text;

use crate::file::draft::Draft;
pub use crate::file::keys::NEED;
use crate::file::service::Service;
pub use crate::file::type_text::read_type;
use crate::table::Table;
use crate::table_fault::{TableFault, TableKey};
use std::alloc::Global;
use std::str;

impl Table {
    /// Reads a table file, or returns its first fault.
    ///
    /// `OutOfMemory` may occur at any point.
    #[tactic(auto, using(crate::proofs::Faults::not_toml))]
    pub fn read(alloc: Global, text: &str) -> Result<Table, TableFault>
        // A table file gives exactly the table of its definition, or its first fault, unless memory
        // is refused. Each table keeps the limits, by the invariant of its type.
        ensures table { Gives OutOfMemory (table_read text.now) result }
        ensures not_toml { IsErrOf result TableFault.NotToml → parse_document text.now ≡ None }
    {
        match toml::table_from_str(alloc, text) {
            Ok(document) => read_document(alloc, &document),
            Err(refused) if refused.is_memory() => Err(TableFault::OutOfMemory),
            Err(_) => Err(TableFault::NotToml),
        }
    }

    /// Reads the bytes of a table file, or returns its first fault (`NotToml` if not UTF-8).
    ///
    /// `OutOfMemory` may occur at any point.
    #[tactic(auto, using(octet_io::proofs::Texts::of_text, octet_io::proofs::Texts::of_no_text), unfolding(crate::specs::file::TableFile::table_in))]
    pub fn from_bytes(alloc: Global, bytes: &[u8]) -> Result<Table, TableFault>
        ensures table { Gives OutOfMemory (table_in bytes.now) result }
    {
        match str::from_utf8(bytes) {
            Ok(text) => Table::read(alloc, text),
            Err(_) => Err(TableFault::NotToml),
        }
    }
}

fn read_document(alloc: Global, document: &toml::Table) -> Result<Table, TableFault>
    ensures { Gives OutOfMemory (table_of (table_view document.now)) result }
{
    if !toml_schema::is_shaped(document, &keys::ROOT) {
        return Err(TableFault::Shape);
    }
    let services = toml_schema::array(document, "service").ok_or(TableFault::Missing(
        TableKey::Service,
    ))?;
    let mut draft = Draft::new(alloc);
    part::read_all::<Service>(&mut draft, services)?;
    Ok(draft.finish(alloc)?)
}
