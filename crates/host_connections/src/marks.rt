//! Marks of slots where something may be pending, so that an event reads no others.

ghost use Rattle.std.specs.Prelude.{◌≡◌, ℕ, false, true, ◌<◌, ◌≤◌, length, set, replicate, Option, None};
ghost use Rattle.host_connections.specs.Commands.{gives, has_command};
ghost use Rattle.host_connections.specs.SlotState.{SlotState};
ghost use Rattle.host_connections.specs.Places.{may_listen, HasNoValueMore, WaitsForNothingNew, IsMarked};
ghost use Rattle.host_connections.specs.Slots.{slot_state_at, SlotStates};
ghost use Rattle.host_api.specs.declared.TheConstants.{MAX_SLOTS};

use crate::places::Places;

/// Everything that is pending or free is marked.
#[derive(Clone, Copy)]
pub(crate) struct Marks {
    pub(crate) commands: Places,
    pub(crate) packets: Places,
    /// Connections that may be notified of values.
    pub(crate) listening: Places,
    pub(crate) waiting: Places,
    pub(crate) free: bool,
}

impl Marks {
    #[tactic(auto, using(crate::proofs::Covering::none_marked_of_free))]
    pub(crate) fn of_free_slots() -> Marks
        ensures { (count : ℕ) → count ≤ MAX_SLOTS → IsMarked (replicate count None) result }
    {
        Marks {
            commands: Places::NONE,
            packets: Places::NONE,
            listening: Places::NONE,
            waiting: Places::NONE,
            free: true,
        }
    }

    /// Marks everything at a slot.
    pub(crate) fn change(&mut self, place: usize)
        requires { place < MAX_SLOTS }
        ensures { (slots : SlotStates) (slot : Option SlotState) → place < length slots
            → IsMarked slots self.old → IsMarked (set slots place slot) self.new }
    {
        self.commands.add(place);
        self.packets.add(place);
        self.listening.add(place);
        self.waiting.add(place);
        self.free = true;
    }

    /// Marks a slot after an event that adds no waiting value; `commanded` if a command is pending.
    pub(crate) fn happen(&mut self, place: usize, commanded: bool)
        requires { place < MAX_SLOTS }
        ensures { (slots : SlotStates) (slot : Option SlotState) → place < length slots
            → IsMarked slots self.old → HasNoValueMore (slot_state_at slots place) slot
            → (commanded ≡ false → has_command slot ≡ false)
            → IsMarked (set slots place slot) self.new }
    {
        self.commands.add_if(commanded, place);
        self.packets.add(place);
        self.listening.add(place);
    }

    pub(crate) fn leave(&mut self)
        ensures { (slots : SlotStates) (place : ℕ) → IsMarked slots self.old
            → IsMarked (set slots place None) self.new }
    {
        self.free = true;
    }

    /// Marks a slot after a request.
    pub(crate) fn note_served(&mut self, place: usize, ended: bool, giving: bool)
        requires { place < MAX_SLOTS }
        ensures { (slots : SlotStates) (slot : Option SlotState) → place < length slots
            → IsMarked slots self.old
            → (ended ≡ false → WaitsForNothingNew (slot_state_at slots place) slot)
            → (giving ≡ false → gives slot ≡ false)
            → IsMarked (set slots place slot) self.new }
    {
        if ended {
            self.change(place);
            return;
        }
        // The request may have configured something.
        if giving {
            self.packets.add(place);
            self.listening.add(place);
        } else {
            self.listening.add(place);
        }
    }

    #[inline(always)]
    pub(crate) fn mark_giving(&mut self, place: usize, giving: bool)
        requires { place < MAX_SLOTS }
        ensures { (slots : SlotStates) (slot : Option SlotState) → place < length slots
            → IsMarked slots self.old → WaitsForNothingNew (slot_state_at slots place) slot
            → (may_listen slot ≡ true → may_listen (slot_state_at slots place) ≡ true)
            → (giving ≡ false → gives slot ≡ false)
            → IsMarked (set slots place slot) self.new }
    {
        if giving {
            self.packets.add(place);
        } else {
            self.packets.remove(place);
        }
    }
}
