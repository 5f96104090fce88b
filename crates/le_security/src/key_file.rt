//! The key file: Long Term Keys of known peers in TOML.

ghost use Rattle.std.specs.Prelude.{◌≡◌, IsErrOf};
ghost use Rattle.octet_io.specs.Memory.{Gives, GivesOf};
ghost use Rattle.toml.specs.Parse.{parse_document};
ghost use Rattle.toml.specs.View.{table_view};
ghost use Rattle.le_security.specs.declared.key_fault.KeyFault.TheVariants.{NotToml, OutOfMemory};
ghost use Rattle.le_security.specs.KeyFile.{keys_in, keys_of, keys_read};

use crate::entry_file;
use crate::key_fault::KeyFault;
use crate::keys::Keys;
use std::alloc::Global;
use std::str;
use toml::Table;
use toml_schema::{Key as Listed, Shape};

const ROOT: [Listed; 1] = [Listed {
    name: "key",
    shape: Shape::Tables,
}];

impl Keys {
    /// Reads a key file, or returns its first fault.
    ///
    /// `OutOfMemory` may occur at any point.
    pub fn read(alloc: Global, text: &str) -> Result<Keys, KeyFault>
        // A key file gives exactly its keys, or its first fault, unless memory is refused.
        ensures keys { Gives OutOfMemory (keys_read text.now) result }
        ensures not_toml { IsErrOf result KeyFault.NotToml → parse_document text.now ≡ None }
    {
        match toml::table_from_str(alloc, text) {
            Ok(document) => read_document(alloc, &document),
            Err(refused) if refused.is_memory() => Err(KeyFault::OutOfMemory),
            Err(_) => Err(KeyFault::NotToml),
        }
    }

    /// Reads the bytes of a key file, or returns its first fault: `NotToml` if they are not UTF-8.
    ///
    /// `OutOfMemory` may occur at any point.
    #[tactic(auto, using(octet_io::proofs::Texts::of_text, octet_io::proofs::Texts::of_no_text), unfolding(crate::specs::KeyFile::keys_in))]
    pub fn from_bytes(alloc: Global, bytes: &[u8]) -> Result<Keys, KeyFault>
        ensures keys { Gives OutOfMemory (keys_in bytes.now) result }
    {
        match str::from_utf8(bytes) {
            Ok(text) => Keys::read(alloc, text),
            Err(_) => Err(KeyFault::NotToml),
        }
    }
}

fn read_document(alloc: Global, document: &Table) -> Result<Keys, KeyFault>
    ensures { GivesOf NotToml OutOfMemory (keys_of (table_view document.now)) result }
{
    if !toml_schema::is_shaped(document, &ROOT) {
        return Err(KeyFault::Shape);
    }
    let mut keys = Keys::new(alloc);
    'elements: for element in toml_schema::items(document, "key") {
        let entry = entry_file::read_entry(keys.entries(), element)?;
        keys.push(entry)?;
    }
    Ok(keys)
}
