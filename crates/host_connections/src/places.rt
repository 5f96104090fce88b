//! Sets of places of slots where something may be pending, so that no other slot is read.

ghost use Rattle.std.specs.Prelude.{◌≡◌, ◌≢◌, ℕ, ◌<◌, ◌≤◌, length, true, false, None, IfSome};
ghost use Rattle.std.specs.Bool.{OnTrue};
ghost use Rattle.std.specs.Int.{bit_at};
ghost use Rattle.std.specs.List.{position};
ghost use Rattle.host_connections.specs.Places.{is_slot_due, may_listen, Covers, IsFirstPlace};
ghost use Rattle.host_connections.specs.Slots.{is_own_place};

use crate::slot::{Slot, Use};
use host_api::MAX_SLOTS;
use std::mem::size_of;

/// Something that may be pending at a slot.
#[derive(Clone, Copy)]
pub(crate) enum Due {
    Command,
    Packet,
    Value,
    Indication,
}

/// The bits of a set, one for each slot.
pub(crate) type SlotBits = u8;

const _: () = prove!(8 * size_of::<SlotBits>() == MAX_SLOTS);

#[derive(Clone, Copy)]
pub(crate) struct Places {
    pub(crate) bits: SlotBits,
}

impl Places {
    pub(crate) const NONE: Places = Places { bits: 0 };

    pub(crate) fn is_empty(self) -> bool
        ensures { OnTrue result (self.bits ≡ 0) }
    {
        self.bits == 0
    }

    pub(crate) fn add(&mut self, place: usize)
        requires { place < MAX_SLOTS }
        ensures added { bit_at self.new.bits place ≡ 1 }
        ensures others { (other : ℕ) → other ≢ place
            → bit_at self.new.bits other ≡ bit_at self.old.bits other }
    {
        self.bits |= 1 << place;
    }

    pub(crate) fn add_if(&mut self, due: bool, place: usize)
        requires { place < MAX_SLOTS }
        ensures added { due ≡ true → bit_at self.new.bits place ≡ 1 }
        ensures others { (other : ℕ) → other ≢ place
            → bit_at self.new.bits other ≡ bit_at self.old.bits other }
    {
        if due {
            self.add(place);
        }
    }

    pub(crate) fn remove(&mut self, place: usize)
        requires { place < MAX_SLOTS }
        ensures removed { bit_at self.new.bits place ≡ 0 }
        ensures others { (other : ℕ) → other < MAX_SLOTS → other ≢ place
            → bit_at self.new.bits other ≡ bit_at self.old.bits other }
        ensures fewer { bit_at self.old.bits place ≡ 1 → self.new.bits < self.old.bits }
    {
        self.bits &= !(1 << place);
    }

    /// Returns the set with only the slot `own`.
    pub(crate) fn of_own(own: Option<usize>) -> Places
        ensures own { (place : ℕ) → place < MAX_SLOTS → is_own_place own place ≡ true
            → bit_at result.bits place ≡ 1 }
        ensures others { (place : ℕ) → place < MAX_SLOTS → is_own_place own place ≡ false
            → bit_at result.bits place ≡ 0 }
    {
        let mut places = Places::NONE;
        if let Some(place) = own {
            if place < MAX_SLOTS {
                places.add(place);
            }
        }
        places
    }

    /// Returns the set without the slot `own`.
    pub(crate) fn without_own(self, own: Option<usize>) -> Places
        ensures own { (place : ℕ) → place < MAX_SLOTS → is_own_place own place ≡ true
            → bit_at result.bits place ≡ 0 }
        ensures others { (place : ℕ) → place < MAX_SLOTS → is_own_place own place ≡ false
            → bit_at result.bits place ≡ bit_at self.bits place }
    {
        let mut others = self;
        if let Some(place) = own {
            if place < MAX_SLOTS {
                others.remove(place);
            }
        }
        others
    }

    /// Returns true if the set has no place except the slot `own`.
    pub(crate) fn is_empty_but(self, own: Option<usize>) -> bool
        ensures { OnTrue result
            ((place : ℕ) → place < MAX_SLOTS → bit_at self.bits place ≡ 1
            → is_own_place own place ≡ true) }
    {
        self.without_own(own).is_empty()
    }

    #[inline(always)]
    pub(crate) fn first(self) -> Option<usize>
        ensures none { result ≡ None → self.bits ≡ 0 }
        ensures first { IfSome result (λ place. IsFirstPlace self.bits place) }
    {
        if self.bits == 0 {
            return None;
        }
        Some(self.bits.trailing_zeros() as usize)
    }
}

impl Slot {
    fn is_due(&self, due: Due) -> bool
        ensures { result ≡ is_slot_due due self.now }
    {
        match due {
            Due::Command => self.has_command(),
            Due::Packet => self.gives(),
            Due::Value => self.may_listen(),
            Due::Indication => self.waits(),
        }
    }

    /// Returns false if the connection may not be notified of any value.
    fn may_listen(&self) -> bool
        ensures { result ≡ may_listen self.now }
    {
        self.used == Use::Live && (self.link.facts().is_some() || !self.row.is_empty())
    }
}

/// Returns the first slot at which something is pending, by a set that covers these. Removes the
/// places before it from the set.
#[inline(always)]
pub(crate) fn first_due(slots: &[Slot], due: Due, places: &mut Places) -> Option<usize>
    requires few { length slots.now ≤ MAX_SLOTS }
    requires covers { Covers due places.old.bits slots.now }
    ensures place { result ≡ position (is_slot_due due) slots.now }
    ensures within { IfSome result (λ place. place < length slots.now) }
    ensures covers { Covers due places.new.bits slots.now }
{
    while let Some(place) = places.first() {
        if place < slots.len() && slots[place].is_due(due) {
            return Some(place);
        }
        places.remove(place);
    }
    None
}
