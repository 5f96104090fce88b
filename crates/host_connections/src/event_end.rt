//! The end of an event: notified values and indications for each connection.

ghost use Rattle.std.specs.Prelude.{◌≡◌, ◌<◌, ◌≤◌, true, false, [], ◌∷◌, length, set, Option, None};
ghost use Rattle.host_connections.specs.Commands.{gives};
ghost use Rattle.host_connections.specs.SlotState.{SlotState};
ghost use Rattle.host_connections.specs.OfTable.{AreOfTable, AreOfTableIfAny};
ghost use Rattle.host_connections.specs.Places.{waits, CoversHeard};
ghost use Rattle.host_connections.specs.Skips.{skips_among};
ghost use Rattle.host_connections.specs.Slots.{all_heard, all_notified, all_notified_alone, all_notified_in_turn, slot_heard, slot_state_at, SlotStates};
ghost use Rattle.host_api.specs.declared.TheConstants.{MAX_SLOTS};

use crate::moment::Moment;
use crate::places::Places;
use crate::skipped::Skips;
use crate::slot::Slot;
use gatt_subs::Raised;

/// The places where something may be pending after values are notified.
#[derive(Clone, Copy)]
pub(crate) struct HeardPlaces {
    pub(crate) packets: Places,
    pub(crate) waiting: Places,
}

impl HeardPlaces {
    /// Marks a slot after a value was notified: a packet if it was sent at once, else perhaps a
    /// waiting value.
    fn take(&mut self, place: usize, told: bool, waiting: bool)
        requires { place < MAX_SLOTS }
        ensures { (slots : SlotStates) (slot : Option SlotState) → CoversHeard slots self.old
            → (told ≡ false → gives slot ≡ gives (slot_state_at slots place))
            → (told ≡ true → waits slot ≡ waits (slot_state_at slots place))
            → (waiting ≡ false → waits slot ≡ false)
            → CoversHeard (set slots place slot) self.new }
    {
        if told {
            self.packets.add(place);
        } else if waiting {
            self.waiting.add(place);
        }
    }

    /// Marks a packet if an indication was sent, and unmarks the slot if no value waits any more.
    fn settle(&mut self, place: usize, told: bool, waiting: bool)
        requires { place < MAX_SLOTS }
        ensures { (slots : SlotStates) (slot : Option SlotState) → length slots ≤ MAX_SLOTS
            → CoversHeard slots self.old
            → (told ≡ false → gives slot ≡ gives (slot_state_at slots place))
            → (waiting ≡ false → waits slot ≡ false)
            → (waits slot ≡ true → waits (slot_state_at slots place) ≡ true)
            → CoversHeard (set slots place slot) self.new }
    {
        if told {
            self.packets.add(place);
        }
        if !waiting {
            self.waiting.remove(place);
        }
    }
}

#[inline(always)]
pub(crate) fn notify_all(
    slots: &mut [Slot],
    heard: &mut HeardPlaces,
    moment: Moment<'_>,
    whom: Places,
    handles: &[u16],
)
    requires few { length slots.old ≤ MAX_SLOTS }
    requires covered { CoversHeard slots.old heard.old }
    requires of_table { AreOfTableIfAny handles.now moment.table.now.attributes
        moment.rows.now slots.old }
    ensures notified { slots.new
        ≡ all_notified_in_turn moment.entry.table.now moment.entry.now moment.entry.rows.now
        whom.bits handles.now slots.old }
    ensures covered { CoversHeard slots.new heard.new }
    ensures of_table { AreOfTable moment.entry.table.now.attributes moment.entry.rows.now
        slots.old
        → AreOfTable moment.entry.table.now.attributes moment.entry.rows.now slots.new }
    ensures count { length slots.new ≡ length slots.old }
{
    for handle in handles {
        notify_for(slots, heard, moment, whom, *handle);
    }
}

/// Notifies a value. Looks it up once, and reads no slot if nobody may be notified.
#[inline(always)]
fn notify_for(
    slots: &mut [Slot],
    heard: &mut HeardPlaces,
    moment: Moment<'_>,
    whom: Places,
    handle: u16,
)
    requires few { length slots.old ≤ MAX_SLOTS }
    requires covered { CoversHeard slots.old heard.old }
    requires of_table { AreOfTable moment.table.now.attributes moment.rows.now
        slots.old }
    ensures notified { slots.new
        ≡ all_notified moment.entry.table.now moment.entry.now moment.entry.rows.now whom.bits
        handle slots.old }
    ensures covered { CoversHeard slots.new heard.new }
    ensures of_table { AreOfTable moment.entry.table.now.attributes moment.entry.rows.now
        slots.new }
{
    let Some(raised) = Raised::of(moment.table, handle) else {
        return;
    };
    // The contract of `len` states what holds of each table.
    let _count = moment.table.len();
    let mut left = whom;
    while let Some(place) = left.first() {
        left.remove(place);
        if place < slots.len() {
            let slot = &mut slots[place];
            let notified = slot.notify(&raised, moment);
            heard.take(place, notified, slot.may_wait());
        }
    }
}

/// Notifies the only value, at once unless others wait. Notes in `skipped`, empty before, who skips
/// it.
pub(crate) fn notify_alone(
    slots: &mut [Slot],
    heard: &mut HeardPlaces,
    moment: Moment<'_>,
    whom: Places,
    handle: u16,
    skipped: &mut Skips,
)
    requires few { length slots.old ≤ MAX_SLOTS }
    requires covered { CoversHeard slots.old heard.old }
    requires none { skipped.old.items ≡ [] }
    requires of_table { AreOfTable moment.table.now.attributes moment.rows.now
        slots.old }
    ensures notified { slots.new
        ≡ all_notified_alone moment.entry.table.now moment.entry.now moment.entry.rows.now
        whom.bits handle slots.old }
    ensures skipped { skipped.new.items
        ≡ skips_among moment.entry.table.now moment.entry.now moment.entry.rows.now whom.bits
        (handle ∷ []) slots.old }
    ensures covered { CoversHeard slots.new heard.new }
    ensures count { length slots.new ≡ length slots.old }
{
    let Some(raised) = Raised::of(moment.table, handle) else {
        return;
    };
    let _count = moment.table.len();
    let mut left = whom;
    while let Some(place) = left.first() {
        left.remove(place);
        if place < slots.len() {
            let slot = &mut slots[place];
            slot.note_skips(moment, &[handle], skipped);
            let told = slot.notify_alone(&raised, moment);
            heard.take(place, told, slot.may_wait());
        }
    }
}

/// Sends pending indications at the marked slots.
#[inline(always)]
#[tactic(auto, using(crate::proofs::Uncovered::quiet_where_unmarked))]
pub(crate) fn indicate_due(slots: &mut [Slot], heard: &mut HeardPlaces, moment: Moment<'_>)
    requires few { length slots.old ≤ MAX_SLOTS }
    requires covered { CoversHeard slots.old heard.old }
    ensures heard { slots.new
        ≡ all_heard moment.entry.table.now moment.entry.now moment.entry.rows.now None [] []
        slots.old }
    ensures covered { CoversHeard slots.new heard.new }
    ensures count { length slots.new ≡ length slots.old }
{
    // Most connections wait for nothing.
    if !heard.waiting.is_empty() {
        indicate_all(slots, heard, moment);
    }
}

#[inline(always)]
fn indicate_all(slots: &mut [Slot], heard: &mut HeardPlaces, moment: Moment<'_>)
    requires few { length slots.old ≤ MAX_SLOTS }
    requires covered { CoversHeard slots.old heard.old }
    ensures heard { slots.new
        ≡ all_heard moment.entry.table.now moment.entry.now moment.entry.rows.now None [] []
        slots.old }
    ensures covered { CoversHeard slots.new heard.new }
    ensures count { length slots.new ≡ length slots.old }
{
    let mut left = heard.waiting;
    while let Some(place) = left.first() {
        left.remove(place);
        if place < slots.len() {
            indicate_at(slots, heard, moment, place);
        }
    }
}

#[inline(always)]
fn indicate_at(slots: &mut [Slot], heard: &mut HeardPlaces, moment: Moment<'_>, place: usize)
    requires few { length slots.old ≤ MAX_SLOTS }
    requires place { place < length slots.old }
    ensures slots { slots.new
        ≡ set slots.old place
        (slot_heard moment.entry.table.now moment.entry.now moment.entry.rows.now []
        (slot_state_at slots.old place)) }
    ensures covered { CoversHeard slots.old heard.old → CoversHeard slots.new heard.new }
{
    let slot = &mut slots[place];
    let told = slot.indicate(moment);
    heard.settle(place, told, slot.may_wait());
}
