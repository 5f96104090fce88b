//! The slots of a host, with marks where something may be pending.

ghost use Rattle.std.specs.Prelude.{◌≡◌, ◌<◌, ◌≤◌, length, map, replicate, take, None, Some, IfOk, IfSome, IsSome};
ghost use Rattle.std.specs.Borrow.{sem};
ghost use Rattle.std.specs.Option.{option_copied};
ghost use Rattle.att_table.specs.ConfigRow.{bits_at, IsRowOf};
ghost use Rattle.host_connections.specs.Connections.{FindsNext};
ghost use Rattle.host_connections.specs.Hearing.{slot_row_in_force};
ghost use Rattle.host_connections.specs.Lending.{LendsSlot};
ghost use Rattle.host_connections.specs.Request.{bond_served, confirmed_of, handles_written_by, overflows, slot_after_request, table_after};
ghost use Rattle.host_connections.specs.Slots.{slots_after_entries, all_after_table, all_after_time, slot_state_at, late_handles, place_free, place_holding, place_serving, slot_row, slot_row_at, slots_at, slots_deadline, IsThere};
ghost use Rattle.gatt_subs.specs.Rows.{row_of, ChangesBond};
ghost use Rattle.le_hci.specs.Event.{completed_packets_of};

use crate::all_slots::{
    find_free, find_serving, first_deadline, packets_completed, replace_all, tick_all,
};
use crate::arrivals::Arrivals;
use crate::connection::next_connection;
use crate::handles::Handles;
use crate::marks::Marks;
use crate::places::Places;
use crate::request::Brought;
use crate::slot::Slot;
use arrayvec::ArrayVec;
use att_table::{ConfigRow, Table};
use gatt_conn::Touched;
use gatt_subs::Rows;
use host_api::{Connection, MAX_SLOTS};
use std::alloc::{AllocError, Global};
use std::marker::Model;

/// The slots of a host, in their order: at most `MAX_SLOTS`.
#[derive(Drop)]
pub struct Slots {
    pub(crate) slots: Vec<Slot>,
    pub(crate) handles: Handles,
    pub(crate) marks: Marks,
}

impl Model for Slots {
    ghost use Rattle.host_connections.specs.Handles.{AreNotedIfAny};
    ghost use Rattle.host_connections.specs.Places.{IsMarked};
    ghost use Rattle.host_connections.specs.Slots.{SlotStates};

    ghost Value = { SlotStates };

    ghost view = { λ s. s.slots.items };

    ghost invariant = { λ s. IsMarked s.slots.items s.marks
        × AreNotedIfAny s.slots.items s.handles.noted };
}

impl Slots {
    /// Creates `count` free slots with all their memory.
    pub fn new(alloc: Global, count: usize) -> Result<Slots, AllocError>
        requires { count ≤ MAX_SLOTS }
        ensures { IfOk result (λ slots. slots ≡ replicate count None) }
    {
        Ok(Slots {
            slots: free_slots(alloc, count)?,
            handles: Handles::none(),
            marks: Marks::of_free_slots(),
        })
    }

    /// Returns the number of slots.
    pub fn len(&self) -> usize
        ensures count { result ≡ length self.now }
        ensures few { result ≤ MAX_SLOTS }
    {
        self.slots.len()
    }

    /// Removes all slots except the first `count`.
    pub fn truncate(&mut self, count: usize)
        ensures { self.new ≡ take count self.old }
    {
        self.slots.truncate(count);
    }

    /// Returns the place of the slot whose connection has this handle and serves.
    pub fn find_serving(&self, handle: u16) -> Option<usize>
        ensures place { result ≡ place_serving self.now handle }
        ensures there { IfSome result (IsThere self.now) }
        ensures few { IfSome result (λ place. place < MAX_SLOTS) }
    {
        let slots = self.slots.as_slice();
        match self.handles.find_noted(slots, handle) {
            Some(place) if slots[place].is_live() => Some(place),
            // Perhaps no handle is noted, or an ending connection has it too. Wrapping the place in
            // `Some` again saves callers a second check.
            _ => Some(find_serving(slots, handle)?),
        }
    }

    /// Returns the slot of the connection with a handle, also if it is ending.
    pub fn find_holding(&self, handle: u16) -> Option<usize>
        ensures place { result ≡ place_holding self.now handle }
        ensures there { IfSome result (IsThere self.now) }
    {
        self.handles.find(self.slots.as_slice(), handle)
    }

    /// Returns the first free slot.
    pub fn find_free(&self) -> Option<usize>
        ensures place { result ≡ place_free self.now }
        ensures within { IfSome result (λ place. place < length self.now) }
        ensures few { IfSome result (λ place. place < MAX_SLOTS) }
    {
        find_free(self.slots.as_slice())
    }

    /// Returns the earliest time, in milliseconds, at which an indication is late or the
    /// authorization of a connection that serves ends.
    pub fn deadline(&self, now: u64) -> Option<u64>
        ensures { result ≡ slots_deadline now self.now }
    {
        first_deadline(self.slots.as_slice(), now)
    }

    /// Returns the first connection from a place on, and the place after its slot.
    pub fn next_connection(&self, arrivals: &Arrivals, from: usize) -> Option<(usize, Connection)>
        ensures { FindsNext self.now arrivals.now from result }
    {
        next_connection(self.slots.as_slice(), arrivals, from)
    }

    /// Returns the slot at a place.
    pub fn get(&self, place: usize) -> &Slot
        requires { place < length self.now }
        ensures { result.now ≡ slot_state_at self.now place }
    {
        &self.slots[place]
    }

    /// Lends the slot at a place. Afterwards anything may be pending there, and its handle may be
    /// another.
    pub fn at(&mut self, place: usize) -> &mut Slot
        requires { place < length self.old }
        ensures* writes_back { sem 𝓛 (LendsSlot self.entry place result) }
        ensures value { result.now ≡ slot_state_at self.old place }
    {
        self.marks.change(place);
        self.handles = Handles::none();
        &mut self.slots[place]
    }

    /// Returns the row in force of a slot, if it has a connection.
    pub fn row<'a>(&'a self, place: usize, rows: &'a Rows) -> Option<&'a ConfigRow>
        ensures { option_copied result ≡ slot_row self.now rows.now place }
    {
        self.slots.get(place)?.row(rows)
    }

    /// Returns the bits of the row in force of a slot at a handle: 0 without a connection.
    pub fn bits(&self, place: usize, rows: &Rows, handle: u16) -> u8
        ensures { result ≡ bits_at (slot_row_at self.now rows.now place) handle }
    {
        match self.slots.get(place) {
            Some(slot) => slot.bits(rows, handle),
            None => 0,
        }
    }

    /// Serves a PDU of the Attribute Protocol; `written` then has the handles that it wrote. Ends
    /// the connection if an expected answer has no space.
    #[inline(always)]
    pub fn serve_slot(
        &mut self,
        place: usize,
        table: &mut Table,
        rows: &mut Rows,
        changer: &Option<u16>,
        now: u64,
        pdu: &[u8],
        written: &mut Touched,
    ) -> Brought
        requires place { place < length self.old }
        requires there { IsSome (slot_state_at self.old place) }
        requires row { IfSome (slot_state_at self.old place)
            (λ slot_state. IsRowOf table.old.attributes
            (slot_row_in_force (row_of rows.old slot_state.peer) slot_state)) }
        // The event leaves exactly the state of the definition in its slot, and all other slots as
        // they were.
        ensures after { self.new
            ≡ slots_at place
            (λ slot_state. slot_after_request table.old now (row_of rows.old slot_state.peer)
            pdu.now slot_state) self.old }
        ensures table { IfSome (slot_state_at self.old place) (λ slot_state. table.new
            ≡ table_after table.old now (row_of rows.old slot_state.peer) pdu.now slot_state) }
        ensures bond { IfSome (slot_state_at self.old place)
            (λ slot_state. ChangesBond (bond_served table.old now changer.now
            (row_of rows.old slot_state.peer) pdu.now slot_state) slot_state.peer rows.old
            rows.new) }
        ensures written { IfSome (slot_state_at self.old place) (λ slot_state. written.new.items
            ≡ handles_written_by table.old now (row_of rows.old slot_state.peer) pdu.now
            slot_state) }
        ensures ended { IfSome (slot_state_at self.old place)
            (λ slot_state. result.ended ≡ overflows pdu.now slot_state) }
        ensures confirmed { IfSome (slot_state_at self.old place)
            (λ slot_state. result.confirmed ≡ confirmed_of pdu.now slot_state) }
    {
        let slot = &mut self.slots[place];
        let brought = slot.serve_pdu(table, rows, changer, now, pdu, written);
        let giving = slot.is_below_share();
        self.marks.note_served(place, brought.ended, giving);
        brought
    }

    /// Counts packets as completed, at most the outstanding ones; ignores unknown handles.
    pub fn packets_completed(&mut self, entries: &[[u8; 4]])
        ensures { self.new ≡ slots_after_entries (map completed_packets_of entries.now) self.old }
    {
        packets_completed(
            self.slots.as_mut_slice(),
            &self.handles,
            &mut self.marks,
            entries,
        );
    }

    /// Sets the time, in milliseconds; `late` then has the handles of connections that time out.
    pub fn tick(&mut self, now: u64, late: &mut ArrayVec<u16, MAX_SLOTS>)
        ensures after { self.new ≡ all_after_time now self.old }
        ensures late { late.new.items ≡ late_handles now self.old }
    {
        tick_all(self.slots.as_mut_slice(), now, late);
    }

    /// Adapts the connections to a replaced table. Rows retain the configurations that fit;
    /// prepared writes and waiting values are dropped, and unconfirmed indications become outdated.
    pub fn replace(&mut self, old: &Table, new: &Table)
        ensures { self.new ≡ all_after_table old.now.attributes new.now.attributes self.old }
    {
        replace_all(self.slots.as_mut_slice(), old, new);
    }
}

fn free_slots(alloc: Global, count: usize) -> Result<Vec<Slot>, AllocError>
    ensures { IfOk result (λ slots. slots.items ≡ replicate count None) }
{
    let mut slots = Vec::with_capacity(alloc, count)?;
    for _ in 0..count {
        slots.push(Slot::new(alloc)?)?;
    }
    Ok(slots)
}
