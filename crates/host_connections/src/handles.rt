//! The handles of connections, so that a slot is found without reading the others.

ghost use Rattle.std.specs.Prelude.{◌≡◌, ◌≤◌, ◌==◌, length, Some, IfSome};
ghost use Rattle.std.specs.List.{position};
ghost use Rattle.host_connections.specs.Handles.{noted_of, AreNoted, AreNotedIfAny};
ghost use Rattle.host_connections.specs.Slots.{place_holding, IsThere, SlotStates};

use crate::all_slots::find_holding;
use crate::slot::{Slot, Use};
use host_api::MAX_SLOTS;
use std::simd::prelude::*;

/// The entry of a free slot; no handle.
const FREE: u32 = 0x1_0000;

/// The handle of each slot's connection, or none at all after a slot was lent.
#[derive(Clone, Copy)]
pub(crate) struct Handles {
    pub(crate) noted: [u32; MAX_SLOTS],
}

impl Handles {
    #[tactic(auto, using(crate::proofs::Noted::none_noted))]
    pub(crate) fn none() -> Handles
        ensures { (slots : SlotStates) → AreNotedIfAny slots result.noted }
    {
        Handles {
            noted: [FREE; MAX_SLOTS],
        }
    }

    pub(crate) fn note_again(&mut self, slots: &[Slot])
        requires few { length slots.now ≤ MAX_SLOTS }
        requires noted { AreNotedIfAny slots.now self.old.noted }
        ensures { AreNotedIfAny slots.now self.new.noted }
    {
        if self.noted == [FREE; MAX_SLOTS] {
            self.note_all(slots);
        }
    }

    #[tactic(auto, using(crate::proofs::Noted::noted_more))]
    pub(crate) fn note_all(&mut self, slots: &[Slot])
        requires { length slots.now ≤ MAX_SLOTS }
        ensures { AreNoted slots.now self.new.noted }
    {
        for place in 0..slots.len() {
            self.noted[place] = slots[place].noted_handle();
        }
    }

    #[inline(always)]
    pub(crate) fn find(&self, slots: &[Slot], handle: u16) -> Option<usize>
        requires noted { AreNotedIfAny slots.now self.now.noted }
        ensures place { result ≡ place_holding slots.now handle }
        ensures there { IfSome result (IsThere slots.now) }
    {
        match self.find_noted(slots, handle) {
            Some(place) => Some(place),
            // Perhaps no handle is noted.
            None => find_holding(slots, handle),
        }
    }

    /// Returns the slot of a noted handle; `None` also if none is noted.
    #[inline(always)]
    pub(crate) fn find_noted(&self, slots: &[Slot], handle: u16) -> Option<usize>
        requires noted { AreNotedIfAny slots.now self.now.noted }
        ensures place { IfSome result (λ place. Some place ≡ place_holding slots.now handle) }
        ensures there { IfSome result (IsThere slots.now) }
    {
        match first_place(&self.noted, u32::from(handle)) {
            Some(place) if place < slots.len() => Some(place),
            _ => None,
        }
    }
}

impl Slot {
    fn noted_handle(&self) -> u32
        ensures { result ≡ noted_of self.now }
    {
        if self.used == Use::Free {
            FREE
        } else {
            u32::from(self.handle)
        }
    }
}

/// Returns the first place of a number. Compares all at once, because no processor can predict
/// which connection is next.
#[inline(always)]
fn first_place(numbers: &[u32; MAX_SLOTS], number: u32) -> Option<usize>
    ensures { result ≡ position (λ it. it == number) numbers.now }
{
    let same = u32x8::from_slice(numbers).simd_eq(u32x8::splat(number));
    let mask = same.to_bitmask();
    if mask == 0 {
        None
    } else {
        Some(mask.trailing_zeros() as usize)
    }
}
