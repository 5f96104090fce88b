//! The values that are skipped when they are notified, and their connections (this profile's own).

ghost use Rattle.std.specs.Prelude.{◌≡◌, ◌+◌, ◌≤◌, ◌++◌, [], length, map};
ghost use Rattle.att_writes.specs.declared.queue.TheConstants.{MAX_PREPARED};
ghost use Rattle.host_connections.specs.declared.places.Due.TheVariants.{Value};
ghost use Rattle.host_connections.specs.Places.{Covers};
ghost use Rattle.host_connections.specs.Skips.{all_skipped, skip_of, skips_by, slot_skips, wants_notification};
ghost use Rattle.host_connections.specs.Slots.{handles_for};
ghost use Rattle.host_api.specs.declared.TheConstants.{MAX_SLOTS};

use crate::moment::Moment;
use crate::notifications::{row_in_force, standing};
use crate::places::Places;
use crate::slot::{Slot, Use};
use arrayvec::ArrayVec;
use att_policy::Standing;
use att_table::{ConfigRow, Table};
use att_writes::MAX_PREPARED;
use gatt_subs::{MAX_BACKLOG, PendingOfTable, Raised};
use host_api::MAX_SLOTS;

/// A value that a connection is not notified of, because too many PDUs are queued for it.
#[derive(Clone, Copy, Default, Debug, PartialEq, Eq)]
pub struct Skipped {
    /// The connection handle of HCI.
    pub handle: u16,
    /// The handle of the value.
    pub attribute: u16,
}

/// The largest number of values that one event skips: all of one request, for each connection.
pub const MAX_SKIPPED: usize = MAX_SLOTS * MAX_PREPARED;

/// Skipped values, slot by slot, and for a connection in their order.
pub type Skips = ArrayVec<Skipped, MAX_SKIPPED>;

impl Slot {
    #[inline(always)]
    pub(crate) fn note_skips(&self, moment: Moment<'_>, handles: &[u16], skipped: &mut Skips)
        requires few { length handles.now ≤ MAX_PREPARED }
        requires room { length skipped.old.items
            + length (slot_skips moment.table.now moment.now moment.rows.now handles.now self.now)
            ≤ MAX_SKIPPED }
        ensures { skipped.new.items
            ≡ skipped.old.items ++ slot_skips moment.entry.table.now moment.entry.now
            moment.entry.rows.now handles.now self.now }
    {
        if self.used != Use::Live {
            return;
        }
        let backlog = self.sender.backlog();
        let most = backlog + handles.len();
        // Usually few PDUs are queued.
        if most > MAX_BACKLOG {
            let row = row_in_force(&self.link, &self.peer, &self.row, moment.rows);
            let standing = standing(&self.link, self.key_known, self.until, moment.now);
            note_values(
                moment.table,
                row,
                &standing,
                &self.pending,
                backlog,
                self.handle,
                handles,
                skipped,
            );
        }
    }
}

#[cold]
#[inline(never)]
fn note_values(
    table: &Table,
    row: &ConfigRow,
    standing: &Standing,
    pending: &PendingOfTable,
    queued: usize,
    connection: u16,
    handles: &[u16],
    skipped: &mut Skips,
)
    requires { length skipped.old.items
        + length (skips_by (wants_notification table.now.attributes pending.now row.now
        standing.now) queued handles.now) ≤ MAX_SKIPPED }
    ensures { skipped.new.items
        ≡ skipped.old.items ++ map (skip_of connection)
        (skips_by (wants_notification table.now.attributes pending.now row.now
        standing.entry.now) queued handles.now) }
{
    let mut backlog = queued;
    for attribute in handles {
        if is_wanted(table, row, standing, pending, *attribute) {
            if backlog < MAX_BACKLOG {
                backlog += 1;
            } else {
                skipped.push(Skipped {
                    handle: connection,
                    attribute: *attribute,
                });
            }
        }
    }
}

fn is_wanted(
    table: &Table,
    row: &ConfigRow,
    standing: &Standing,
    pending: &PendingOfTable,
    attribute: u16,
) -> bool
    ensures { result
        ≡ wants_notification table.now.attributes pending.now row.now standing.entry.now
        attribute }
{
    match Raised::of(table, attribute) {
        Some(raised) => pending.wants_notification(&raised, row, standing),
        None => false,
    }
}

/// Notes the skipped values, if `here` are notified to the slot `own` and `handles` to all others.
/// `listening` has all that may be notified.
pub(crate) fn note_all_skips(
    slots: &[Slot],
    listening: Places,
    moment: Moment<'_>,
    own: Option<usize>,
    here: &[u16],
    handles: &[u16],
    skipped: &mut Skips,
)
    requires few { length slots.now ≤ MAX_SLOTS }
    requires few_here { length here.now ≤ MAX_PREPARED }
    requires few_handles { length handles.now ≤ MAX_PREPARED }
    requires none { skipped.old.items ≡ [] }
    requires covers { Covers Value listening.bits slots.now }
    ensures { skipped.new.items
        ≡ all_skipped moment.entry.table.now moment.entry.now moment.entry.rows.now own here.now
        handles.now slots.now }
{
    let mut left = listening;
    while let Some(place) = left.first() {
        left.remove(place);
        if place < slots.len() {
            let values = values_for(own, here, handles, place);
            slots[place].note_skips(moment, values, skipped);
        }
    }
}

fn values_for<'a>(
    own: Option<usize>,
    here: &'a [u16],
    handles: &'a [u16],
    place: usize,
) -> &'a [u16]
    ensures { result.now ≡ handles_for own here.now handles.now place }
{
    match own {
        Some(at) if at == place => here,
        _ => handles,
    }
}
