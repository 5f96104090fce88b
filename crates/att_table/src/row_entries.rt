//! The entries of a row, with adjacent handles for vector comparison.

ghost use Rattle.std.specs.Prelude.{◌≡◌, ◌+◌, ◌<◌, ◌≤◌, ◌++◌, ◌==◌, [], ◌∷◌, length, take, drop, slice_get, slice_index, position, Some, None, IfSome, IsNone};
ghost use Rattle.std.specs.Bool.{OnTrue, OnFalse};
ghost use Rattle.std.specs.List.{position_or_len};
ghost use Rattle.att_table.specs.ConfigRow.{bits_at, with_bits, has_entry};
ghost use Rattle.att_numbers.specs.declared.limit.TheConstants.{MAX_CONFIGURATIONS};

use att_numbers::limit::MAX_CONFIGURATIONS;
use std::marker::Model;
use std::simd::prelude::*;

/// The number of handles compared at once.
const LANES: usize = 32;

/// The handle and bits of each entry, in the order in which the handles were first set.
#[derive(Drop)]
pub(crate) struct RowEntries {
    handles: [u16; MAX_CONFIGURATIONS],
    /// 0 past the last entry.
    bits: [u8; MAX_CONFIGURATIONS],
    len: usize,
}

impl Model for RowEntries {
    ghost use Rattle.std.specs.Prelude.{◌≡◌, ◌≤◌, All, drop, take};
    ghost use Rattle.std.specs.List.{zip};
    ghost use Rattle.att_numbers.specs.Types.{Row};
    ghost use Rattle.att_numbers.specs.declared.limit.TheConstants.{MAX_CONFIGURATIONS};

    ghost Value = { Row };

    ghost view = { λ entries. take entries.len (zip entries.handles entries.bits) };

    ghost invariant = { λ entries. entries.len ≤ MAX_CONFIGURATIONS
        × All (λ own. own ≡ 0) (drop entries.len entries.bits) };
}

impl RowEntries {
    pub(crate) fn new() -> Self
        ensures { result ≡ [] }
    {
        RowEntries {
            handles: [0; MAX_CONFIGURATIONS],
            bits: [0; MAX_CONFIGURATIONS],
            len: 0,
        }
    }

    #[inline(always)]
    pub(crate) fn len(&self) -> usize
        ensures value { result ≡ length self.now }
        ensures most { result ≤ MAX_CONFIGURATIONS }
    {
        self.len
    }

    pub(crate) fn get(&self, place: usize) -> (u16, u8)
        requires { place < length self.now }
        ensures { slice_get self.now place ≡ Some result }
    {
        entry_at(&self.handles, &self.bits, place)
    }

    /// Returns the bits at a handle, 0 without an entry.
    #[inline(always)]
    pub(crate) fn bits_at(&self, handle: u16) -> u8
        ensures { result ≡ bits_at self.now handle }
    {
        // A match past the last entry is harmless: its bits are 0.
        match place_among(&self.handles, self.len, handle) {
            Some(place) => self.bits[place],
            None => 0,
        }
    }

    fn place_of(&self, handle: u16) -> Option<usize>
        ensures { result ≡ position (λ entry. entry.0 == handle) self.now }
    {
        match place_among(&self.handles, self.len, handle) {
            Some(place) if place < self.len => Some(place),
            _ => None,
        }
    }

    #[tactic(auto, using(crate::proofs::Rows::has_found, crate::proofs::Rows::has_missing))]
    pub(crate) fn contains(&self, handle: u16) -> bool
        ensures { result ≡ has_entry self.now handle }
    {
        self.place_of(handle).is_some()
    }

    /// Overwrites the bits at a handle; false if there is no entry.
    #[tactic(auto, using(crate::proofs::Rows::has_found, crate::proofs::Rows::has_missing))]
    pub(crate) fn overwrite(&mut self, handle: u16, bits: u8) -> bool
        ensures found { result ≡ has_entry self.old handle }
        ensures written { OnTrue result (self.new ≡ with_bits self.old handle bits) }
        ensures unchanged { OnFalse result (self.new ≡ self.old) }
    {
        match self.place_of(handle) {
            Some(place) => {
                self.bits[place] = bits;
                true
            }
            None => false,
        }
    }

    pub(crate) fn push(&mut self, handle: u16, bits: u8)
        requires { length self.old < MAX_CONFIGURATIONS }
        ensures { self.new ≡ self.old ++ (handle, bits) ∷ [] }
    {
        self.handles[self.len] = handle;
        self.bits[self.len] = bits;
        self.len += 1;
    }
}

#[inline(always)]
fn entry_at(
    handles: &[u16; MAX_CONFIGURATIONS],
    bits: &[u8; MAX_CONFIGURATIONS],
    place: usize,
) -> (u16, u8)
    requires { place < MAX_CONFIGURATIONS }
    ensures { result ≡ (slice_index handles.now place, slice_index bits.now place) }
{
    (handles[place], bits[place])
}

/// Returns the first place of a handle; may ignore places from `len`.
///
/// Most rows have one or two entries, so those are compared singly.
#[inline(always)]
fn place_among(handles: &[u16; MAX_CONFIGURATIONS], len: usize, handle: u16) -> Option<usize>
    requires { len ≤ MAX_CONFIGURATIONS }
    ensures found { IfSome result
        (λ place. position (λ own. own == handle) handles.now ≡ Some place) }
    ensures missing { IsNone result
        → position (λ own. own == handle) (take len handles.now) ≡ None }
{
    if handles[0] == handle {
        Some(0)
    } else if len < 2 {
        None
    } else if handles[1] == handle {
        Some(1)
    } else if len == 2 {
        None
    } else {
        place_in_lanes(handles, len, handle)
    }
}

/// Does the same as `place_among`, comparing `LANES` handles at once.
#[inline(always)]
fn place_in_lanes(handles: &[u16; MAX_CONFIGURATIONS], len: usize, handle: u16) -> Option<usize>
    requires { len ≤ MAX_CONFIGURATIONS }
    ensures found { IfSome result
        (λ place. position (λ own. own == handle) handles.now ≡ Some place) }
    ensures missing { IsNone result
        → position (λ own. own == handle) (take len handles.now) ≡ None }
{
    for turn in 0..len.div_ceil(LANES) {
        let at = turn * LANES;
        let before = lanes_before(handles, at, handle);
        if before < LANES {
            return Some(at + before);
        }
    }
    None
}

/// Returns the lane of a handle, `LANES` if none.
#[inline(always)]
fn lanes_before(handles: &[u16], at: usize, handle: u16) -> usize
    requires { at + LANES ≤ length handles.now }
    ensures { result ≡ position_or_len (λ own. own == handle) (take LANES (drop at handles.now)) }
{
    let same = u16x32::from_slice(&handles[at..]).simd_eq(u16x32::splat(handle));
    let mask = same.to_bitmask();
    if mask == 0 {
        LANES
    } else {
        mask.trailing_zeros() as usize
    }
}
