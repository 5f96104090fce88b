//! The descriptors of a characteristic in a table file.

ghost use Rattle.att_table.specs.file.TableFile.{descriptor_step};

use crate::file::draft::Draft;
use crate::file::part::Part;
use crate::file::{keys, placed};
use crate::table_fault::TableFault;
use arrayvec::ArrayVec;
use att_attributes::Role;
use att_policy::Properties;
use toml::Value;

const ALLOWED: Properties = Properties(Properties::READ.0 | Properties::WRITE.0);

/// A descriptor other than the CCCD.
pub struct Descriptor;

impl Part for Descriptor {
    ghost step = { descriptor_step };

    fn read(draft: &mut Draft, element: &Value) -> Result<(), TableFault> {
        let table = element.as_table().ok_or(TableFault::Shape)?;
        if !toml_schema::is_shaped(table, &keys::DESCRIPTOR) {
            return Err(TableFault::Shape);
        }
        let mut value = ArrayVec::new();
        let handle = draft.next_handle();
        let attr = placed::read_placed(table, Role::Descriptor, handle, ALLOWED, &mut value)?;
        draft.add(attr, value.as_slice())
    }
}
