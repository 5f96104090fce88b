//! Calls of the application.

ghost use Rattle.std.specs.Prelude.{◌≡◌, ◌≢◌, ◌+◌, ◌<◌, ◌∷◌, [], IfSome, IsSome, None, Ok, Err};
ghost use Rattle.att_table.specs.declared.table_fault.TableFault.{TableFault};
ghost use Rattle.att_table.specs.Table.{Contents};
ghost use Rattle.att_table.specs.TableFault.{table_fault_number};
ghost use Rattle.gatt_host.specs.Calls.{call_of};
ghost use Rattle.gatt_laws.specs.machine.Calls.{AuthorizeCall, DisconnectCall, TickCall, UpdateCall};
ghost use Rattle.gatt_laws.specs.machine.Input.{ACall, ATable};
ghost use Rattle.gihandop_c.specs.Boundary.{AnswersCall, AnswersTable, HostFallsSilent, HostKeepsFault, HostKeepsInitial, HostRefines, HostTellsItem};
ghost use Rattle.gihandop_c.specs.Opening.{IsNotOfMemory};
ghost use Rattle.gihandop_c.specs.Statuses.{WaitsForOutput};
ghost use Rattle.gihandop_c.specs.declared.status.TheConstants.{BAD_TABLE, CLOSED, DONE, HAS_STOPPED, OUTPUT_OWED};
ghost use Rattle.att_table.specs.file.TableFile.{table_in};

use crate::host_pointer::HostPointer;
use crate::{asking, status};
use gatt_host::App;
use std::alloc::Global;

fn ask(host: &mut HostPointer, call: App<'_>) -> u32
    ensures closed { host.old.host ≡ None → result ≡ CLOSED }
    ensures takes { result ≢ OUTPUT_OWED
        → HostRefines (ACall (call_of call.entry) ∷ []) [] host.old.host host.new.host }
    ensures tells { result ≢ OUTPUT_OWED
        → HostTellsItem (ACall (call_of call.entry)) host.old.host host.new.host }
    ensures answers { result ≢ OUTPUT_OWED
        → IfSome host.old.host (AnswersCall (call_of call.entry) result) }
    ensures refused { result ≢ DONE → result ≢ OUTPUT_OWED
        → HostFallsSilent host.old.host host.new.host }
    ensures stopped { IfSome host.old.host (λ opened. IsSome opened.host.fault
        → result ≡ HAS_STOPPED) }
    ensures fault { HostKeepsFault host.old.host host.new.host }
    ensures initial { HostKeepsInitial host.old.host host.new.host }
    ensures owes { IfSome host.old.host (WaitsForOutput result) }
    ensures owed { result ≡ OUTPUT_OWED → host.new.host ≡ host.old.host }
{
    let Some(open) = host.as_mut() else {
        return status::CLOSED;
    };
    asking::call(open, call)
}

/// Writes the characteristic value at a handle.
#[unsafe(no_mangle)]
pub extern "C" fn gh_update(host: &mut HostPointer, handle: u16, value: &[u8]) -> u32
    ensures closed { host.old.host ≡ None → result ≡ CLOSED }
    // The call is processed as the next item of the host.
    ensures takes { result ≢ OUTPUT_OWED
        → HostRefines (ACall (UpdateCall handle value.now) ∷ []) [] host.old.host
        host.new.host }
    ensures tells { result ≢ OUTPUT_OWED
        → HostTellsItem (ACall (UpdateCall handle value.now)) host.old.host host.new.host }
    // It is refused exactly if the state machine refuses it, by the status of that reason.
    ensures answers { result ≢ OUTPUT_OWED
        → IfSome host.old.host (AnswersCall (UpdateCall handle value.now) result) }
    // A refused call changes nothing, except that no notice is there.
    ensures refused { result ≢ DONE → result ≢ OUTPUT_OWED
        → HostFallsSilent host.old.host host.new.host }
    ensures stopped { IfSome host.old.host (λ opened. IsSome opened.host.fault
        → result ≡ HAS_STOPPED) }
    // A call causes no fault.
    ensures fault { HostKeepsFault host.old.host host.new.host }
    // The noted table of the table file stays.
    ensures initial { HostKeepsInitial host.old.host host.new.host }
    ensures owes { IfSome host.old.host (WaitsForOutput result) }
    // While output is pending, nothing changes.
    ensures owed { result ≡ OUTPUT_OWED → host.new.host ≡ host.old.host }
{
    ask(host, App::Update(handle, value))
}

/// Authorizes a connection while the time is below `until`, in milliseconds; 0 ends that.
#[unsafe(no_mangle)]
pub extern "C" fn gh_authorize(host: &mut HostPointer, connection: u16, until: u64) -> u32
    ensures closed { host.old.host ≡ None → result ≡ CLOSED }
    // As `gh_update`, with all its clauses.
    ensures takes { result ≢ OUTPUT_OWED
        → HostRefines (ACall (AuthorizeCall connection until) ∷ []) [] host.old.host
        host.new.host }
    ensures tells { result ≢ OUTPUT_OWED
        → HostTellsItem (ACall (AuthorizeCall connection until)) host.old.host host.new.host }
    ensures answers { result ≢ OUTPUT_OWED
        → IfSome host.old.host (AnswersCall (AuthorizeCall connection until) result) }
    ensures refused { result ≢ DONE → result ≢ OUTPUT_OWED
        → HostFallsSilent host.old.host host.new.host }
    ensures stopped { IfSome host.old.host (λ opened. IsSome opened.host.fault
        → result ≡ HAS_STOPPED) }
    ensures fault { HostKeepsFault host.old.host host.new.host }
    ensures initial { HostKeepsInitial host.old.host host.new.host }
    ensures owes { IfSome host.old.host (WaitsForOutput result) }
    ensures owed { result ≡ OUTPUT_OWED → host.new.host ≡ host.old.host }
{
    ask(host, App::Authorize(connection, until))
}

/// Ends a connection.
#[unsafe(no_mangle)]
pub extern "C" fn gh_disconnect(host: &mut HostPointer, connection: u16) -> u32
    ensures closed { host.old.host ≡ None → result ≡ CLOSED }
    // As `gh_update`, with all its clauses.
    ensures takes { result ≢ OUTPUT_OWED
        → HostRefines (ACall (DisconnectCall connection) ∷ []) [] host.old.host host.new.host }
    ensures tells { result ≢ OUTPUT_OWED
        → HostTellsItem (ACall (DisconnectCall connection)) host.old.host host.new.host }
    ensures answers { result ≢ OUTPUT_OWED
        → IfSome host.old.host (AnswersCall (DisconnectCall connection) result) }
    ensures refused { result ≢ DONE → result ≢ OUTPUT_OWED
        → HostFallsSilent host.old.host host.new.host }
    ensures stopped { IfSome host.old.host (λ opened. IsSome opened.host.fault
        → result ≡ HAS_STOPPED) }
    ensures fault { HostKeepsFault host.old.host host.new.host }
    ensures initial { HostKeepsInitial host.old.host host.new.host }
    ensures owes { IfSome host.old.host (WaitsForOutput result) }
    ensures owed { result ≡ OUTPUT_OWED → host.new.host ≡ host.old.host }
{
    ask(host, App::Disconnect(connection))
}

/// Passes the time in milliseconds, which never goes back.
#[unsafe(no_mangle)]
pub extern "C" fn gh_tick(host: &mut HostPointer, time: u64) -> u32
    ensures closed { host.old.host ≡ None → result ≡ CLOSED }
    // As `gh_update`, with all its clauses.
    ensures takes { result ≢ OUTPUT_OWED
        → HostRefines (ACall (TickCall time) ∷ []) [] host.old.host host.new.host }
    ensures tells { result ≢ OUTPUT_OWED
        → HostTellsItem (ACall (TickCall time)) host.old.host host.new.host }
    ensures answers { result ≢ OUTPUT_OWED
        → IfSome host.old.host (AnswersCall (TickCall time) result) }
    ensures refused { result ≢ DONE → result ≢ OUTPUT_OWED
        → HostFallsSilent host.old.host host.new.host }
    ensures stopped { IfSome host.old.host (λ opened. IsSome opened.host.fault
        → result ≡ HAS_STOPPED) }
    ensures fault { HostKeepsFault host.old.host host.new.host }
    ensures initial { HostKeepsInitial host.old.host host.new.host }
    ensures owes { IfSome host.old.host (WaitsForOutput result) }
    ensures owed { result ≡ OUTPUT_OWED → host.new.host ≡ host.old.host }
{
    ask(host, App::Tick(time))
}

/// Replaces the table by that of another table file. Subscriptions stay if they fit.
#[unsafe(no_mangle)]
pub extern "C" fn gh_replace(alloc: Global, host: &mut HostPointer, table: &[u8]) -> u32
    ensures closed { host.old.host ≡ None → result ≡ CLOSED }
    // The table that the file gives is processed as the next item of the host.
    ensures takes { (contents : Contents) → table_in table.now ≡ Ok contents
        → result < BAD_TABLE → result ≢ OUTPUT_OWED
        → HostRefines (ATable contents ∷ []) [] host.old.host host.new.host }
    ensures tells { (contents : Contents) → table_in table.now ≡ Ok contents
        → result < BAD_TABLE → result ≢ OUTPUT_OWED
        → HostTellsItem (ATable contents) host.old.host host.new.host }
    // It is refused exactly if the state machine refuses it, by the status of that reason.
    ensures answers { (contents : Contents) → table_in table.now ≡ Ok contents
        → IsNotOfMemory result → result ≢ OUTPUT_OWED
        → IfSome host.old.host (AnswersTable contents result) }
    ensures stopped { (contents : Contents) → table_in table.now ≡ Ok contents
        → IsNotOfMemory result → IfSome host.old.host (λ opened.
        IsSome opened.host.fault → result ≡ HAS_STOPPED) }
    ensures fault { HostKeepsFault host.old.host host.new.host }
    // If the file has a fault, the status is that of the first.
    ensures file { (fault : TableFault) → table_in table.now ≡ Err fault
        → IsNotOfMemory result → result ≢ OUTPUT_OWED → IfSome host.old.host (λ opened.
        result ≡ BAD_TABLE + table_fault_number fault) }
    ensures refused { result ≢ DONE → result < BAD_TABLE → result ≢ OUTPUT_OWED
        → HostFallsSilent host.old.host host.new.host }
    // Once it is done, the table of the new file is the noted one.
    ensures initial { (contents : Contents) → table_in table.now ≡ Ok contents → result ≡ DONE
        → IfSome host.new.host (λ opened. opened.initial ≡ contents) }
    // Else the noted table stays.
    ensures keeps { result ≢ DONE → HostKeepsInitial host.old.host host.new.host }
    ensures owes { IfSome host.old.host (WaitsForOutput result) }
    // While output is pending, nothing changes.
    ensures owed { result ≡ OUTPUT_OWED → host.new.host ≡ host.old.host }
    // A file with a fault changes nothing.
    ensures unread { BAD_TABLE < result → host.new.host ≡ host.old.host }
{
    let Some(open) = host.as_mut() else {
        return status::CLOSED;
    };
    asking::replace_by(alloc, open, table)
}
