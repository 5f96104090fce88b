//! Calls of the application.

ghost use Rattle.std.specs.Prelude.{◌≡◌, ◌≢◌, ◌+◌, ◌<◌, ◌∷◌, [], IsSome, Ok, Err};
ghost use Rattle.att_table.specs.declared.table_fault.TableFault.{TableFault};
ghost use Rattle.att_table.specs.Table.{Contents};
ghost use Rattle.att_table.specs.TableFault.{table_fault_number};
ghost use Rattle.gatt_host.specs.Calls.{call_of};
ghost use Rattle.gatt_laws.specs.machine.Input.{ACall, ATable};
ghost use Rattle.gihandop_c.specs.Boundary.{AnswersCall, AnswersTable, FallsSilent, KeepsFault, KeepsInitial, OpenedRefines, TellsItem};
ghost use Rattle.gihandop_c.specs.Opening.{IsNotOfMemory};
ghost use Rattle.gihandop_c.specs.Statuses.{WaitsForOutput};
ghost use Rattle.gihandop_c.specs.declared.status.TheConstants.{BAD_TABLE, DONE, HAS_STOPPED, OUTPUT_OWED};
ghost use Rattle.att_table.specs.file.TableFile.{table_in};

use crate::opened::Opened;
use crate::{opening, status};
use gatt_host::{App, Table};
use std::alloc::Global;

/// Makes a call, if no output is pending.
pub(crate) fn call(opened: &mut Opened, call: App<'_>) -> u32
    ensures takes { result ≢ OUTPUT_OWED
        → OpenedRefines (ACall (call_of call.entry) ∷ []) [] opened.old opened.new }
    ensures tells { result ≢ OUTPUT_OWED
        → TellsItem (ACall (call_of call.entry)) opened.old opened.new }
    ensures answers { result ≢ OUTPUT_OWED
        → AnswersCall (call_of call.entry) result opened.old }
    ensures refused { result ≢ DONE → result ≢ OUTPUT_OWED
        → FallsSilent opened.old opened.new }
    ensures stopped { IsSome opened.old.host.fault → result ≡ HAS_STOPPED }
    ensures fault { KeepsFault opened.old opened.new }
    ensures initial { KeepsInitial opened.old opened.new }
    ensures owes { WaitsForOutput result opened.old }
    ensures owed { result ≡ OUTPUT_OWED → opened.new ≡ opened.old }
{
    if !opened.is_drained() {
        return status::OUTPUT_OWED;
    }
    opened.drained = false;
    opened.told = 0;
    match opened.host.app(call) {
        Ok(()) => status::DONE,
        Err(fault) => status::of_refusal(fault),
    }
}

/// Replaces the table by that of a file, which is read only if no output is pending.
pub(crate) fn replace_by(alloc: Global, opened: &mut Opened, file: &[u8]) -> u32
    ensures takes { (contents : Contents) → table_in file.now ≡ Ok contents
        → result < BAD_TABLE → result ≢ OUTPUT_OWED
        → OpenedRefines (ATable contents ∷ []) [] opened.old opened.new }
    ensures tells { (contents : Contents) → table_in file.now ≡ Ok contents
        → result < BAD_TABLE → result ≢ OUTPUT_OWED
        → TellsItem (ATable contents) opened.old opened.new }
    ensures answers { (contents : Contents) → table_in file.now ≡ Ok contents
        → IsNotOfMemory result → result ≢ OUTPUT_OWED
        → AnswersTable contents result opened.old }
    ensures stopped { (contents : Contents) → table_in file.now ≡ Ok contents
        → IsNotOfMemory result → IsSome opened.old.host.fault → result ≡ HAS_STOPPED }
    ensures fault { KeepsFault opened.old opened.new }
    ensures file { (fault : TableFault) → table_in file.now ≡ Err fault
        → IsNotOfMemory result → result ≢ OUTPUT_OWED
        → result ≡ BAD_TABLE + table_fault_number fault }
    ensures refused { result ≢ DONE → result < BAD_TABLE → result ≢ OUTPUT_OWED
        → FallsSilent opened.old opened.new }
    ensures initial { (contents : Contents) → table_in file.now ≡ Ok contents → result ≡ DONE
        → opened.new.initial ≡ contents }
    ensures keeps { result ≢ DONE → KeepsInitial opened.old opened.new }
    ensures owes { WaitsForOutput result opened.old }
    ensures owed { result ≡ OUTPUT_OWED → opened.new ≡ opened.old }
    ensures unread { BAD_TABLE < result → opened.new ≡ opened.old }
{
    if !opened.is_drained() {
        return status::OUTPUT_OWED;
    }
    match opening::read_twice(alloc, file) {
        Ok(tables) => replace(opened, tables),
        Err(status) => status,
    }
}

/// Replaces the table, given twice: one to serve, and one to keep as the file has it.
fn replace(opened: &mut Opened, tables: (Table, Table)) -> u32
    ensures takes { result ≢ OUTPUT_OWED
        → OpenedRefines (ATable tables.0 ∷ []) [] opened.old opened.new }
    ensures tells { result ≢ OUTPUT_OWED → TellsItem (ATable tables.0) opened.old opened.new }
    ensures answers { result ≢ OUTPUT_OWED → AnswersTable tables.0 result opened.old }
    ensures stopped { IsSome opened.old.host.fault → result ≡ HAS_STOPPED }
    ensures fault { KeepsFault opened.old opened.new }
    ensures refused { result ≢ DONE → result ≢ OUTPUT_OWED
        → FallsSilent opened.old opened.new }
    ensures initial { result ≡ DONE → opened.new.initial ≡ tables.1 }
    ensures keeps { result ≢ DONE → KeepsInitial opened.old opened.new }
    ensures below { result < BAD_TABLE }
    ensures owes { WaitsForOutput result opened.old }
    ensures owed { result ≡ OUTPUT_OWED → opened.new ≡ opened.old }
{
    if !opened.is_drained() {
        return status::OUTPUT_OWED;
    }
    let (table, initial) = tables;
    opened.drained = false;
    opened.told = 0;
    match opened.host.replace(table) {
        Ok(_) => {
            opened.initial = initial;
            status::DONE
        }
        Err((fault, _)) => status::of_refusal(fault),
    }
}
