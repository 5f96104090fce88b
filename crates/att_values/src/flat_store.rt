ghost use Rattle.std.specs.Prelude.{◌≡◌, ◌+◌, ◌-◌, ◌≤◌, if◌then◌else◌, max, [], ◌∷◌, ◌++◌, length, take, drop, replicate, sum_by, OnOk, OnErr};
ghost use Rattle.att_values.specs.Cell.{Cell, IsUsed, cell_at, with_part};
ghost use Rattle.att_values.specs.FlatStore.{cell_in};
ghost use Rattle.att_numbers.specs.declared.limit.TheConstants.{MAX_VALUE};

use crate::value_store::ValueStore;
use std::alloc::{AllocError, Global};
use std::marker::Model;

/// The place of a value in the vector of all values.
#[derive(Clone, Copy)]
struct Place {
    start: usize,
    len: u16,
    /// The value's largest length, at most `MAX_VALUE`.
    room: u16,
}

/// The values in one vector, each with space for its largest length.
#[derive(Drop)]
pub struct FlatStore {
    octets: Vec<u8>,
    places: Vec<Place>,
}

impl Model for FlatStore {
    ghost use Rattle.std.specs.Prelude.{List, vec_len};
    ghost use Rattle.att_values.specs.Cell.{Cell};
    ghost use Rattle.att_values.specs.FlatStore.{cells_in, IsLaidOut};

    ghost Value = { List Cell };

    ghost view = { λ store. cells_in store.octets.items store.places.items };

    ghost invariant = { λ store. IsLaidOut 0 store.places.items (vec_len store.octets) };
}

impl FlatStore {
    /// Creates a store without values.
    pub fn new(alloc: Global) -> Self
        ensures { result ≡ [] }
    {
        FlatStore {
            octets: Vec::new(alloc),
            places: Vec::new(alloc),
        }
    }

    /// Returns the number of values; their handles are 1 to that.
    pub fn len(&self) -> usize
        ensures { result ≡ length self.now }
    {
        self.places.len()
    }

    /// Returns the sum of all rooms in octets.
    pub fn octets(&self) -> usize
        ensures { result ≡ sum_by (λ (cell : Cell). cell.room) self.now }
    {
        self.octets.len()
    }

    /// Returns the largest length of the value at a handle, in octets.
    pub fn room_at(&self, handle: u16) -> usize
        requires { IsUsed self.now handle }
        ensures { result ≡ (cell_at self.now handle).room }
    {
        usize::from(self.places[usize::from(handle) - 1].room)
    }

    /// Returns the value at a handle.
    pub fn value_at(&self, handle: u16) -> &[u8]
        requires { IsUsed self.now handle }
        ensures value { result.now ≡ (cell_at self.now handle).octets }
        ensures fits { length result.now ≤ (cell_at self.now handle).room }
    {
        octets_at(&self.octets, self.places[usize::from(handle) - 1])
    }

    /// Writes a part at an offset; without `keep`, the value ends with the part.
    pub fn patch_at(&mut self, handle: u16, offset: usize, part: &[u8], keep: bool)
        requires exists { IsUsed self.old handle }
        requires offset { offset ≤ length (cell_at self.old handle).octets }
        requires fits { offset + length part.now ≤ (cell_at self.old handle).room }
        ensures { self.new ≡ with_part self.old keep handle offset part.now }
    {
        let place = &mut self.places[usize::from(handle) - 1];
        write_part(&mut self.octets, place.start + offset, part);
        set_end(place, offset + part.len(), keep);
    }

    /// Appends a value with its largest length in octets; on error nothing changes.
    pub fn push(&mut self, room: u16, octets: &[u8]) -> Result<(), AllocError>
        requires fits { length octets.now ≤ room }
        requires room { room ≤ MAX_VALUE }
        ensures ok { OnOk result
            (self.new ≡ self.old ++ record { room = room; octets = octets.now } ∷ []) }
        ensures err { OnErr result (self.new ≡ self.old) }
    {
        let place = Place {
            start: self.octets.len(),
            len: octets.len() as u16,
            room,
        };
        self.places.reserve(1)?;
        append(&mut self.octets, octets, usize::from(room))?;
        self.places.push(place)?;
        Ok(())
    }
}

impl ValueStore for FlatStore {
    ghost use Rattle.att_values.specs.ValueStore.{contents_of, rooms_of};

    ghost contents = { contents_of };

    ghost room = { rooms_of };

    #[tactic(auto, using(crate::proofs::Contents::handles))]
    fn contains(&self, handle: u16) -> bool {
        handle > 0 && usize::from(handle) <= self.len()
    }

    #[tactic(auto, using(crate::proofs::Contents::handles))]
    fn room(&self, handle: u16) -> usize {
        if self.contains(handle) {
            self.room_at(handle)
        } else {
            0
        }
    }

    #[tactic(auto, using(crate::proofs::Contents::handles))]
    fn value(&self, handle: u16) -> &[u8] {
        self.value_at(handle)
    }

    #[tactic(auto, using(crate::proofs::Contents::handles))]
    fn patch(&mut self, handle: u16, offset: usize, part: &[u8], keep: bool) {
        self.patch_at(handle, offset, part, keep);
    }
}

fn octets_at(octets: &[u8], place: Place) -> &[u8]
    requires { place.start + place.len ≤ length octets.now }
    ensures { result.now ≡ (cell_in octets.now place).octets }
{
    &octets[place.start..place.start + usize::from(place.len)]
}

fn write_part(octets: &mut [u8], start: usize, part: &[u8])
    requires { start + length part.now ≤ length octets.old }
    ensures { octets.new
        ≡ take start octets.old ++ part.now ++ drop (start + length part.now) octets.old }
{
    octets[start..start + part.len()].copy_from_slice(part);
}

/// Ends a value at `end`; with `keep`, never earlier than before.
fn set_end(place: &mut Place, end: usize, keep: bool)
    requires { end ≤ MAX_VALUE }
    ensures { place.new ≡ record place.old { len = if keep then max place.old.len end else end } }
{
    let end = end as u16;
    place.len = if keep { place.len.max(end) } else { end };
}

/// Appends octets and zeros, `room` octets in all.
fn append(all: &mut Vec<u8>, octets: &[u8], room: usize) -> Result<(), AllocError>
    requires { length octets.now ≤ room }
    ensures ok { OnOk result
        (all.new.items ≡ all.old.items ++ octets.now ++ replicate (room - length octets.now) 0) }
    ensures err { OnErr result (all.new.items ≡ all.old.items) }
{
    all.reserve(room)?;
    let end = all.len() + room;
    all.extend_from_slice(octets)?;
    all.resize(end, 0)
}
