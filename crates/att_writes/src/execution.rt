//! The queue of prepared writes (Core 5.0, Vol 3 Part F, 3.4.6).

ghost use Rattle.std.specs.Prelude.{◌≡◌, ◌≤◌, [], length, map, IfSome, IsNone, Err, Ok};
ghost use Rattle.att_numbers.specs.Types.{Row};
ghost use Rattle.att_numbers.specs.declared.opcode.TheConstants.{EXECUTE_WRITE_REQUEST, PREPARE_WRITE_REQUEST};
ghost use Rattle.att_table.specs.ConfigRow.{IsRowOf};
ghost use Rattle.att_writes.specs.declared.queue.Place.{Place};
ghost use Rattle.att_writes.specs.Applied.{applied_to, written_to, stored_in};
ghost use Rattle.att_writes.specs.Fits.{EntriesFit, after_all};
ghost use Rattle.att_writes.specs.Leaves.{LeavesStored};
ghost use Rattle.att_writes.specs.Outcome.{write_outcome};
ghost use Rattle.att_writes.specs.Queue.{entries_in, sizes_of, once_each, prepare_fault, queue_after, prepare_outcome, touched_by};
ghost use Rattle.att_writes.specs.declared.queue.TheConstants.{MAX_PREPARED};

use crate::entry::EntryRef;
use crate::fault::fault_of;
use crate::queue::{Place, Queue, Touched};
use crate::writes::put;
use att_numbers::{Refusal, error_code, opcode};
use att_policy::{Access, Standing, first_broken};
use att_table::{ConfigRow, Table};

/// Queues the part of a Prepare Write Request, or rejects it and changes nothing.
///
/// Offset and length are checked at execution.
pub fn prepare(
    table: &Table,
    standing: &Standing,
    queue: &mut Queue,
    handle: u16,
    offset: u16,
    part: &[u8],
) -> Result<(), Refusal>
    ensures outcome { result
        ≡ prepare_outcome (record { handle = handle; offset = offset; part = part.now })
        (prepare_fault table.now.attributes standing.entry.now queue.old
        (record { handle = handle; offset = offset; part = part.now })) }
    ensures queue { queue.new
        ≡ queue_after queue.old (record { handle = handle; offset = offset; part = part.now })
        (prepare_fault table.now.attributes standing.entry.now queue.old
        (record { handle = handle; offset = offset; part = part.now })) }
{
    let guard = table.get(handle).map(|attr| &attr.guard);
    if let Some((_, code)) = first_broken(Access::Write, guard, standing) {
        return Err(refused_to_queue(handle, code));
    }
    if !queue.has_room(part) {
        return Err(refused_to_queue(handle, error_code::PREPARE_QUEUE_FULL));
    }
    queue.push(EntryRef {
        handle,
        offset,
        part,
    });
    Ok(())
}

fn refused_to_queue(handle: u16, code: u8) -> Refusal
    ensures opcode { result.opcode ≡ PREPARE_WRITE_REQUEST }
    ensures handle { result.handle ≡ handle }
    ensures code { result.code ≡ code }
{
    Refusal {
        opcode: opcode::PREPARE_WRITE_REQUEST,
        handle,
        code,
    }
}

/// Executes all prepared writes in order, or rejects all and changes nothing.
///
/// Applies the policy of this moment and empties the queue in either case. `touched` lists each
/// written handle once, in the order of first entries.
pub fn execute(
    table: &mut Table,
    row: &mut ConfigRow,
    standing: &Standing,
    queue: &mut Queue,
    touched: &mut Touched,
) -> Result<(), Refusal>
    requires row { IsRowOf table.old.attributes row.old }
    // All prepared writes are made, or none.
    ensures outcome { result
        ≡ write_outcome EXECUTE_WRITE_REQUEST
        (applied_to Access.Write table.old row.old standing.entry.now queue.old) }
    ensures touched { touched.new.items
        ≡ touched_by queue.old
        (applied_to Access.Write table.old row.old standing.entry.now queue.old) }
    // Nothing is prepared afterwards.
    ensures queue { queue.new ≡ [] }
    ensures left { LeavesStored
        (written_to Access.Write table.old row.old standing.entry.now queue.old) table.old table.new
        row.new }
{
    touched.clear();
    let (places, octets) = queue.parts();
    let outcome = match first_refused(table, standing, places, octets) {
        Some(refusal) => Err(refusal),
        None => {
            put_all(table, row, places, octets);
            touch_all(places, touched);
            Ok(())
        }
    };
    queue.clear();
    outcome
}

/// Returns the refusal of the first rejected entry. `octets` has the parts in sequence.
fn first_refused(
    table: &Table,
    standing: &Standing,
    places: &[Place],
    octets: &[u8],
) -> Option<Refusal>
    requires { sizes_of places.now ≡ length octets.now }
    ensures opcode { IfSome result (λ refusal. refusal.opcode ≡ EXECUTE_WRITE_REQUEST) }
    ensures refused { IfSome result (λ refusal. (row : Row)
        → applied_to Access.Write table.now row standing.entry.now
        (entries_in places.now octets.now)
        ≡ Err (record { handle = refusal.handle; code = refusal.code })) }
    ensures written { IsNone result → (row : Row)
        → applied_to Access.Write table.now row standing.entry.now
        (entries_in places.now octets.now)
        ≡ Ok (after_all table.now.attributes (stored_in table.now row)
        (entries_in places.now octets.now)) }
    ensures fits { IsNone result → (row : Row)
        → EntriesFit table.now.attributes (stored_in table.now row)
        (entries_in places.now octets.now) }
{
    let mut rest = octets;
    for (index, place) in places.iter().enumerate() {
        let (part, after) = rest.split_at(usize::from(place.len));
        rest = after;
        let earlier = &places[..index];
        if let Some(code) = fault_of(Access::Write, table, standing, earlier, place.entry(part)) {
            return Some(Refusal {
                opcode: opcode::EXECUTE_WRITE_REQUEST,
                handle: place.handle,
                code,
            });
        }
    }
    None
}

/// Writes entries that fit.
fn put_all(table: &mut Table, row: &mut ConfigRow, places: &[Place], octets: &[u8])
    requires sizes { sizes_of places.now ≡ length octets.now }
    requires row { IsRowOf table.old.attributes row.old }
    requires fits { EntriesFit table.old.attributes (stored_in table.old row.old)
        (entries_in places.now octets.now) }
    ensures { LeavesStored (after_all table.old.attributes (stored_in table.old row.old)
        (entries_in places.now octets.now)) table.old table.new row.new }
{
    let mut rest = octets;
    for place in places {
        let (part, after) = rest.split_at(usize::from(place.len));
        rest = after;
        put(table, row, place.entry(part));
    }
}

/// Adds each handle once to an empty buffer.
fn touch_all(places: &[Place], touched: &mut Touched)
    requires empty { touched.old.items ≡ [] }
    requires few { length places.now ≤ MAX_PREPARED }
    ensures { touched.new.items ≡ once_each (map (λ (place : Place). place.handle) places.now) }
{
    for place in places {
        if !touched.contains(&place.handle) {
            touched.push(place.handle);
        }
    }
}

/// Empties the queue.
pub fn cancel(queue: &mut Queue)
    ensures { queue.new ≡ [] }
{
    queue.clear();
}
