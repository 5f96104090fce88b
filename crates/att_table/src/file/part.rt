//! The loop over the arrays of a table file.

ghost use Rattle.std.specs.Prelude.{Result};
ghost use Rattle.octet_io.specs.Memory.{Leaves};
ghost use Rattle.toml.specs.Data.{Data};
ghost use Rattle.toml.specs.View.{view, items_view};
ghost use Rattle.toml_schema.specs.Reading.{each};
ghost use Rattle.att_table.specs.declared.table_fault.TableFault.{TableFault};
ghost use Rattle.att_table.specs.declared.table_fault.TableFault.TheVariants.{OutOfMemory};
ghost use Rattle.att_table.specs.Table.{Contents};

use crate::file::draft::Draft;
use crate::table_fault::TableFault;
use toml::Value;

/// A kind of array element, each of which adds attributes to a draft.
pub trait Part {
    /// The draft's table after the element, or its first fault.
    ghost step: { Contents → Data → Result Contents TableFault };

    /// Reads an element into the draft.
    fn read(draft: &mut Draft, element: &Value) -> Result<(), TableFault>
        ensures { Leaves OutOfMemory (step draft.old (view element.now)) result draft.new };
}

/// Reads the elements in order, up to the first fault.
pub fn read_all<P: Part>(draft: &mut Draft, elements: &[Value]) -> Result<(), TableFault>
    ensures { Leaves OutOfMemory
        (each P.step draft.old (items_view elements.now)) result draft.new }
{
    'elements: for element in elements {
        P::read(draft, element)?;
    }
    Ok(())
}
