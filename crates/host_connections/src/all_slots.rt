//! Searches among the slots, and events of all slots.

ghost use Rattle.std.specs.Prelude.{◌≡◌, ◌<◌, ◌≤◌, ◌++◌, false, length, map, IfSome};
ghost use Rattle.std.specs.Option.{option_map_or, option_to_list};
ghost use Rattle.le_hci.specs.Event.{completed_packets_of};
ghost use Rattle.host_connections.specs.Handles.{AreNotedIfAny};
ghost use Rattle.host_connections.specs.Places.{IsMarked};
ghost use Rattle.host_connections.specs.Slots.{slots_after_entries, slots_after_entry, all_after_table, all_after_time, is_holding, is_serving, slot_state_deadline, late_handles, place_free, place_holding, place_serving, slots_deadline, IsThere};

use crate::handles::Handles;
use crate::marks::Marks;
use crate::slot::{Slot, Use};
use arrayvec::ArrayVec;
use att_table::Table;
use host_api::MAX_SLOTS;
use le_hci::CompletedPackets;

#[cold]
#[inline(never)]
#[tactic(auto, using(crate::proofs::Found::serving_there))]
pub(crate) fn find_serving(slots: &[Slot], handle: u16) -> Option<usize>
    ensures place { result ≡ place_serving slots.now handle }
    ensures there { IfSome result (IsThere slots.now) }
{
    slots.iter().position(|slot| slot.is_serving(handle))
}

#[tactic(auto, using(crate::proofs::Found::holding_there))]
pub(crate) fn find_holding(slots: &[Slot], handle: u16) -> Option<usize>
    ensures place { result ≡ place_holding slots.now handle }
    ensures there { IfSome result (IsThere slots.now) }
{
    slots.iter().position(|slot| slot.is_holding(handle))
}

#[tactic(auto, using(crate::proofs::Found::free_within))]
pub(crate) fn find_free(slots: &[Slot]) -> Option<usize>
    ensures place { result ≡ place_free slots.now }
    ensures within { IfSome result (λ place. place < length slots.now) }
{
    slots.iter().position(|slot| slot.is_free())
}

impl Slot {
    fn is_serving(&self, handle: u16) -> bool
        ensures { result ≡ is_serving handle self.now }
    {
        self.handle == handle && self.is_live()
    }

    fn is_holding(&self, handle: u16) -> bool
        ensures { result ≡ is_holding handle self.now }
    {
        self.handle == handle && self.used != Use::Free
    }

    pub(crate) fn is_live(&self) -> bool
        ensures { result ≡ option_map_or (λ slot_state. slot_state.live) self.now false }
    {
        self.used == Use::Live
    }
}

impl Slot {
    fn deadline(&self, now: u64) -> Option<u64>
        ensures { result ≡ slot_state_deadline now self.now }
    {
        if self.used == Use::Free {
            return None;
        }
        let late = self.pending.deadline();
        if self.used != Use::Live || self.until <= now {
            return late;
        }
        Some(late.map_or(self.until, |late| late.min(self.until)))
    }
}

pub(crate) fn first_deadline(slots: &[Slot], now: u64) -> Option<u64>
    ensures { result ≡ slots_deadline now slots.now }
{
    slots.iter().filter_map(|slot| slot.deadline(now)).min()
}

/// Sets the time; `late` then has the handles of connections that time out.
pub(crate) fn tick_all(slots: &mut [Slot], now: u64, late: &mut ArrayVec<u16, MAX_SLOTS>)
    requires { length slots.old ≤ MAX_SLOTS }
    ensures after { slots.new ≡ all_after_time now slots.old }
    ensures late { late.new.items ≡ late_handles now slots.old }
{
    late.clear();
    for place in 0..slots.len() {
        let handle = slots[place].tick(now);
        add(late, handle);
    }
}

fn add(handles: &mut ArrayVec<u16, MAX_SLOTS>, handle: Option<u16>)
    requires { length handles.old.items < MAX_SLOTS }
    ensures { handles.new.items ≡ handles.old.items ++ option_to_list handle }
{
    if let Some(handle) = handle {
        handles.push(handle);
    }
}

pub(crate) fn replace_all(slots: &mut [Slot], old: &Table, new: &Table)
    ensures { slots.new ≡ all_after_table old.now.attributes new.now.attributes slots.old }
{
    for place in 0..slots.len() {
        slots[place].replace(old, new);
    }
}

#[inline(always)]
pub(crate) fn packets_completed(
    slots: &mut [Slot],
    handles: &Handles,
    marks: &mut Marks,
    entries: &[[u8; 4]],
)
    requires marked { IsMarked slots.old marks.old }
    requires noted { AreNotedIfAny slots.old handles.now.noted }
    ensures after { slots.new
        ≡ slots_after_entries (map completed_packets_of entries.now) slots.old }
    ensures marked { IsMarked slots.new marks.new }
    ensures noted { AreNotedIfAny slots.new handles.now.noted }
{
    for octets in entries {
        entry_completed(slots, handles, marks, &CompletedPackets::read(octets));
    }
}

fn entry_completed(
    slots: &mut [Slot],
    handles: &Handles,
    marks: &mut Marks,
    entry: &CompletedPackets,
)
    requires marked { IsMarked slots.old marks.old }
    requires noted { AreNotedIfAny slots.old handles.now.noted }
    ensures after { slots.new ≡ slots_after_entry entry.now slots.old }
    ensures marked { IsMarked slots.new marks.new }
    ensures noted { AreNotedIfAny slots.new handles.now.noted }
{
    if let Some(place) = handles.find(slots, entry.handle) {
        let slot = &mut slots[place];
        slot.packets_completed(entry.packets);
        let giving = slot.may_give();
        marks.mark_giving(place, giving);
    }
}
