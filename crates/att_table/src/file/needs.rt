//! The requirements tables in a table file.

ghost use Rattle.std.specs.Prelude.{◌≡◌, option_map};
ghost use Rattle.toml.specs.View.{table_view};
ghost use Rattle.att_table.specs.file.Needs.{need_in, need_read, need_at};

use crate::file::{field, keys};
use crate::table_fault::TableFault;
use att_policy::Need;
use toml::Table;

/// Reads the requirements at a key, none without a table.
///
/// `BadSecurity`: an unknown key, a wrong type, or a key size outside 7 to 16.
#[inline(always)]
pub fn read_need_at(table: &Table, key: &str) -> Result<Need, TableFault>
    ensures { result ≡ need_at key.now (table_view table.now) }
{
    read_need(toml_schema::table(table, key))
}

#[inline(always)]
pub fn read_need(table: Option<&Table>) -> Result<Need, TableFault>
    ensures { result ≡ need_read (option_map (λ t. table_view t.now) table.entry) }
{
    match table {
        Some(table) => read_written(table),
        None => Ok(Need::NONE),
    }
}

fn read_written(table: &Table) -> Result<Need, TableFault>
    ensures { result ≡ need_in (table_view table.now) }
{
    if !toml_schema::is_shaped(table, &keys::NEED) {
        return Err(TableFault::BadSecurity);
    }
    let key_size = field::key_size(toml_schema::integer(table, "key_size"))?;
    Ok(Need {
        encrypted: toml_schema::flag(table, "encrypted"),
        authenticated: toml_schema::flag(table, "authenticated"),
        key_size,
        authorized: toml_schema::flag(table, "authorized"),
        secure: toml_schema::flag(table, "secure"),
    })
}
