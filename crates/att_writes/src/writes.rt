//! Immediate writes (Core 5.0, Vol 3 Part F, 3.4.5).

ghost use Rattle.std.specs.Prelude.{◌≡◌, [], ◌∷◌};
ghost use Rattle.att_numbers.specs.declared.opcode.TheConstants.{WRITE_REQUEST, WRITE_COMMAND};
ghost use Rattle.att_attributes.specs.Attributes.{is_configuration_at};
ghost use Rattle.att_table.specs.ConfigRow.{IsRowOf, HasRowRoom};
ghost use Rattle.att_writes.specs.Applied.{after_entry, stored_in, applied_to, written_to};
ghost use Rattle.att_writes.specs.Entry.{entry_of, whole_value};
ghost use Rattle.att_writes.specs.Fits.{EntryFits};
ghost use Rattle.att_writes.specs.Leaves.{LeavesStored};
ghost use Rattle.att_writes.specs.Outcome.{write_outcome};

use crate::entry::EntryRef;
use crate::fault::fault_of;
use att_numbers::{Refusal, opcode};
use att_policy::{Access, Standing};
use att_table::{ConfigRow, Role, Table};

/// Executes a Write Request, or rejects it and changes nothing.
///
/// `row` has the client's configurations, `standing` its security state. A fixed value keeps the
/// octets after the written ones.
pub fn write(
    table: &mut Table,
    row: &mut ConfigRow,
    standing: &Standing,
    handle: u16,
    value: &[u8],
) -> Result<(), Refusal>
    requires row { IsRowOf table.old.attributes row.old }
    // The write makes the change of the definition, or is refused with its code and changes
    // nothing.
    ensures outcome { result
        ≡ write_outcome WRITE_REQUEST
        (applied_to Access.Write table.old row.old standing.entry.now
        (whole_value handle value.now ∷ [])) }
    ensures left { LeavesStored (written_to Access.Write table.old row.old standing.entry.now
        (whole_value handle value.now ∷ [])) table.old table.new row.new }
{
    let entry = EntryRef {
        handle,
        offset: 0,
        part: value,
    };
    write_at_once(
        Access::Write,
        opcode::WRITE_REQUEST,
        table,
        row,
        standing,
        entry,
    )
}

/// Executes a Write Command, which has no response; otherwise like `write`.
pub fn command(
    table: &mut Table,
    row: &mut ConfigRow,
    standing: &Standing,
    handle: u16,
    value: &[u8],
) -> Result<(), Refusal>
    requires row { IsRowOf table.old.attributes row.old }
    ensures outcome { result
        ≡ write_outcome WRITE_COMMAND
        (applied_to Access.Command table.old row.old standing.entry.now
        (whole_value handle value.now ∷ [])) }
    ensures left { LeavesStored (written_to Access.Command table.old row.old standing.entry.now
        (whole_value handle value.now ∷ [])) table.old table.new row.new }
{
    let entry = EntryRef {
        handle,
        offset: 0,
        part: value,
    };
    write_at_once(
        Access::Command,
        opcode::WRITE_COMMAND,
        table,
        row,
        standing,
        entry,
    )
}

/// Writes one entry or rejects it.
#[inline(always)]
#[tactic(auto, using(crate::proofs::AtOnce::at_once))]
fn write_at_once(
    access: Access,
    opcode: u8,
    table: &mut Table,
    row: &mut ConfigRow,
    standing: &Standing,
    entry: EntryRef<'_>,
) -> Result<(), Refusal>
    requires row { IsRowOf table.old.attributes row.old }
    ensures outcome { result
        ≡ write_outcome opcode
        (applied_to access table.old row.old standing.entry.now (entry_of entry.entry ∷ [])) }
    ensures left { LeavesStored (written_to access table.old row.old standing.entry.now
        (entry_of entry.entry ∷ [])) table.old table.new row.new }
{
    match fault_of(access, table, standing, &[], entry) {
        Some(code) => Err(Refusal {
            opcode,
            handle: entry.handle,
            code,
        }),
        None => {
            put(table, row, entry);
            Ok(())
        }
    }
}

/// Writes an entry that fits.
pub(crate) fn put(table: &mut Table, row: &mut ConfigRow, entry: EntryRef<'_>)
    requires row { IsRowOf table.old.attributes row.old }
    requires fits { EntryFits table.old.attributes (stored_in table.old row.old) (entry_of entry) }
    ensures { LeavesStored (after_entry table.old.attributes (stored_in table.old row.old)
        (entry_of entry.entry)) table.old table.new row.new }
{
    if is_configuration(table, entry.handle) {
        if let Some(&bits) = entry.part.first() {
            row.set(entry.handle, bits);
        }
    } else {
        table.patch(entry.handle, entry.offset, entry.part);
    }
}

fn is_configuration(table: &Table, handle: u16) -> bool
    ensures is { result ≡ is_configuration_at table.now.attributes handle }
    // The client's row then has space for it.
    ensures row { HasRowRoom table.now.attributes handle }
{
    table
        .get(handle)
        .is_some_and(|attr| attr.role == Role::Configuration)
}
