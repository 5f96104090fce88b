//! The entries of a key file.

ghost use Rattle.std.specs.Prelude.{◌≡◌, ◌≢◌, ◌<◌, length, IfOk, IfErr, IsFalse};
ghost use Rattle.std.specs.Result.{result_map_both};
ghost use Rattle.toml.specs.View.{view, table_view};
ghost use Rattle.le_security.specs.declared.key_fault.KeyFault.TheVariants.{NotToml};
ghost use Rattle.le_security.specs.EntryFile.{written_view, diversifier_of, written_at, key_size_in, is_zero, entry_written, entry_after};
ghost use Rattle.le_security.specs.Keys.{has_answer};

use crate::address;
use crate::entry::{Entry, Key};
use crate::key_fault::KeyFault;
use att_policy::KeyFacts;
use le_hci::Peer;
use toml::{Table, Value};
use toml_schema::{Key as Listed, Shape};

/// The most keys in a key file.
const MAX_ENTRIES: usize = 64;

const ENTRY: [Listed; 8] = [
    Listed {
        name: "address",
        shape: Shape::Text,
    },
    Listed {
        name: "kind",
        shape: Shape::Text,
    },
    Listed {
        name: "rand",
        shape: Shape::Text,
    },
    Listed {
        name: "ediv",
        shape: Shape::Integer,
    },
    Listed {
        name: "ltk",
        shape: Shape::Text,
    },
    Listed {
        name: "size",
        shape: Shape::Integer,
    },
    Listed {
        name: "authenticated",
        shape: Shape::Boolean,
    },
    Listed {
        name: "secure",
        shape: Shape::Boolean,
    },
];

/// The fields of an entry, not yet checked.
#[derive(Clone, Copy)]
pub struct Written<'a> {
    pub address: &'a str,
    pub kind: &'a str,
    pub random_number: &'a str,
    pub diversifier: u16,
    pub ltk: &'a str,
    pub size: i64,
    pub authenticated: bool,
    pub secure: bool,
}

/// Reads the entry after `entries`, or returns its first fault.
pub fn read_entry(entries: &[Entry], element: &Value) -> Result<Entry, KeyFault>
    ensures entry { result ≡ entry_after entries.now (view element.now) }
    ensures room { IfOk result (λ _. length entries.now < MAX_ENTRIES) }
    ensures once { IfOk result (λ entry. IsFalse (has_answer entries.now entry)) }
    ensures is_toml { IfErr result (λ fault. fault ≢ NotToml) }
{
    if entries.len() >= MAX_ENTRIES {
        return Err(KeyFault::TooMany);
    }
    let table = element.as_table().ok_or(KeyFault::Shape)?;
    if !toml_schema::is_shaped(table, &ENTRY) {
        return Err(KeyFault::Shape);
    }
    let entry = judge(&read_written(table)?)?;
    if is_answered(entries, &entry) {
        return Err(KeyFault::Twice);
    }
    Ok(entry)
}

fn read_written<'a>(table: &'a Table) -> Result<Written<'a>, KeyFault>
    ensures written { result_map_both written_view (λ fault. fault) result
        ≡ written_at (table_view table.now) }
    ensures is_toml { IfErr result (λ fault. fault ≢ NotToml) }
{
    let diversifier = read_diversifier(toml_schema::integer(table, "ediv"))?;
    Ok(Written {
        address: toml_schema::text(table, "address").ok_or(KeyFault::Missing)?,
        kind: toml_schema::text(table, "kind").ok_or(KeyFault::Missing)?,
        random_number: toml_schema::text(table, "rand").ok_or(KeyFault::Missing)?,
        diversifier: diversifier.ok_or(KeyFault::Missing)?,
        ltk: toml_schema::text(table, "ltk").ok_or(KeyFault::Missing)?,
        size: toml_schema::integer(table, "size").ok_or(KeyFault::Missing)?,
        authenticated: toml_schema::boolean(table, "authenticated").ok_or(KeyFault::Missing)?,
        secure: toml_schema::flag(table, "secure"),
    })
}

fn read_diversifier(number: Option<i64>) -> Result<Option<u16>, KeyFault>
    ensures diversifier { result ≡ diversifier_of number }
    ensures is_toml { IfErr result (λ fault. fault ≢ NotToml) }
{
    let Some(number) = number else {
        return Ok(None);
    };
    let Ok(diversifier) = u16::try_from(number) else {
        return Err(KeyFault::Shape);
    };
    Ok(Some(diversifier))
}

/// Checks the fields and builds the entry.
fn judge(written: &Written<'_>) -> Result<Entry, KeyFault>
    ensures entry { result ≡ entry_written (written_view written.now) }
    ensures is_toml { IfErr result (λ fault. fault ≢ NotToml) }
{
    let address = address::read_address(written.address.as_bytes()).ok_or(KeyFault::BadAddress)?;
    let kind = address::read_address_type(written.kind).ok_or(KeyFault::BadAddress)?;
    let mut random_number = [0; 8];
    if hex::decode_to_slice(written.random_number, &mut random_number).is_err() {
        return Err(KeyFault::BadHex);
    }
    let mut ltk = [0; 16];
    if hex::decode_to_slice(written.ltk, &mut ltk).is_err() {
        return Err(KeyFault::BadHex);
    }
    let size = read_size(written.size).ok_or(KeyFault::BadSize)?;
    if written.secure && !is_zero(random_number, written.diversifier) {
        return Err(KeyFault::NotZero);
    }
    Ok(Entry {
        peer: Peer { kind, address },
        random_number,
        diversifier: written.diversifier,
        key: Key {
            ltk,
            facts: KeyFacts {
                size,
                authenticated: written.authenticated,
                secure: written.secure,
            },
        },
    })
}

fn read_size(size: i64) -> Option<u8>
    ensures { result ≡ key_size_in size }
{
    match u8::try_from(size) {
        Ok(size @ 7..=16) => Some(size),
        _ => None,
    }
}

fn is_zero(random_number: [u8; 8], diversifier: u16) -> bool
    ensures { result ≡ is_zero random_number diversifier }
{
    random_number == [0; 8] && diversifier == 0
}

fn is_answered(entries: &[Entry], entry: &Entry) -> bool
    ensures { result ≡ has_answer entries.now entry.now }
{
    entries.iter().any(|other| other.is_for(&entry.peer, entry.random_number, entry.diversifier))
}
