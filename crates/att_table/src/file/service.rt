//! The services of a table file.

ghost use Rattle.std.specs.Prelude.{◌≡◌};
ghost use Rattle.toml.specs.View.{table_view};
ghost use Rattle.att_table.specs.file.TableFile.{service_type_at, service_step};

use crate::file::characteristic::Characteristic;
use crate::file::draft::Draft;
use crate::file::include::Include;
use crate::file::part::Part;
use crate::file::{keys, part, placed};
use crate::table_fault::TableFault;
use att_attributes::type_octets;
use att_numbers::attribute_type::{PRIMARY_SERVICE, SECONDARY_SERVICE};
use toml::{Table, Value};

/// A service: declaration, includes and characteristics (Core 5.0, Vol 3 Part G, 3.1).
pub struct Service;

impl Part for Service {
    ghost step = { service_step };

    fn read(draft: &mut Draft, element: &Value) -> Result<(), TableFault> {
        let table = element.as_table().ok_or(TableFault::Shape)?;
        if !toml_schema::is_shaped(table, &keys::SERVICE) {
            return Err(TableFault::Shape);
        }
        let uuid = type_octets(placed::read_type(table)?);
        draft.declare(service_type(table), uuid.as_slice())?;
        part::read_all::<Include>(draft, toml_schema::items(table, "include"))?;
        part::read_all::<Characteristic>(draft, toml_schema::items(table, "characteristic"))
    }
}

fn service_type(table: &Table) -> u128
    ensures { result ≡ service_type_at (table_view table.now) }
{
    if toml_schema::flag(table, "secondary") {
        SECONDARY_SERVICE
    } else {
        PRIMARY_SERVICE
    }
}
