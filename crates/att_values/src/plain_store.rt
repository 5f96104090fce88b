ghost use Rattle.std.specs.Prelude.{◌≡◌, ◌+◌, ◌≤◌, [], ◌∷◌, ◌++◌, length, OnOk, OnErr};
ghost use Rattle.arrayvec.specs.ArrayVec.{array_vec_len};
ghost use Rattle.att_values.specs.Cell.{IsUsed, cell_at, value_with_part, with_part};

use crate::value_store::ValueStore;
use arrayvec::ArrayVec;
use att_numbers::limit::MAX_VALUE;
use std::alloc::{AllocError, Global};
use std::marker::Model;

#[derive(Drop)]
struct Slot {
    /// The value's largest length, at most `MAX_VALUE`.
    room: u16,
    octets: ArrayVec<u8, MAX_VALUE>,
}

/// The values in separate buffers: a reference store for tests.
#[derive(Drop)]
pub struct PlainStore {
    slots: Vec<Slot>,
}

impl Model for PlainStore {
    ghost use Rattle.std.specs.Prelude.{List, All};
    ghost use Rattle.att_values.specs.Cell.{Cell};
    ghost use Rattle.att_values.specs.PlainStore.{cells_of, IsWithinRoom};

    ghost Value = { List Cell };

    ghost view = { λ store. cells_of store.slots.items };

    ghost invariant = { λ store. All IsWithinRoom store.slots.items };
}

impl PlainStore {
    /// Creates a store without values.
    pub fn new(alloc: Global) -> Self
        ensures { result ≡ [] }
    {
        PlainStore {
            slots: Vec::new(alloc),
        }
    }

    /// Appends a value with its largest length in octets; on error nothing changes.
    pub fn push(&mut self, room: u16, octets: &[u8]) -> Result<(), AllocError>
        requires fits { length octets.now ≤ room }
        requires room { room ≤ MAX_VALUE }
        ensures ok { OnOk result
            (self.new ≡ self.old ++ record { room = room; octets = octets.now } ∷ []) }
        ensures err { OnErr result (self.new ≡ self.old) }
    {
        self.slots.push(Slot {
            room,
            octets: copy(octets),
        })?;
        Ok(())
    }

    fn len(&self) -> usize
        ensures { result ≡ length self.now }
    {
        self.slots.len()
    }

    fn room_at(&self, handle: u16) -> usize
        requires { IsUsed self.now handle }
        ensures { result ≡ (cell_at self.now handle).room }
    {
        usize::from(self.slots[usize::from(handle) - 1].room)
    }

    fn value_at(&self, handle: u16) -> &[u8]
        requires { IsUsed self.now handle }
        ensures value { result.now ≡ (cell_at self.now handle).octets }
        ensures fits { length result.now ≤ (cell_at self.now handle).room }
    {
        self.slots[usize::from(handle) - 1].octets.as_slice()
    }

    fn patch_at(&mut self, handle: u16, offset: usize, part: &[u8], keep: bool)
        requires exists { IsUsed self.old handle }
        requires offset { offset ≤ length (cell_at self.old handle).octets }
        requires fits { offset + length part.now ≤ (cell_at self.old handle).room }
        ensures { self.new ≡ with_part self.old keep handle offset part.now }
    {
        let slot = &mut self.slots[usize::from(handle) - 1];
        write_part(&mut slot.octets, offset, part, keep);
    }
}

impl ValueStore for PlainStore {
    ghost use Rattle.att_values.specs.ValueStore.{contents_of, rooms_of};

    ghost contents = { contents_of };

    ghost room = { rooms_of };

    #[tactic(auto, using(crate::proofs::Contents::handles))]
    fn contains(&self, handle: u16) -> bool {
        handle > 0 && usize::from(handle) <= self.len()
    }

    #[tactic(auto, using(crate::proofs::Contents::handles))]
    fn room(&self, handle: u16) -> usize {
        if self.contains(handle) {
            self.room_at(handle)
        } else {
            0
        }
    }

    #[tactic(auto, using(crate::proofs::Contents::handles))]
    fn value(&self, handle: u16) -> &[u8] {
        self.value_at(handle)
    }

    #[tactic(auto, using(crate::proofs::Contents::handles))]
    fn patch(&mut self, handle: u16, offset: usize, part: &[u8], keep: bool) {
        self.patch_at(handle, offset, part, keep);
    }
}

fn copy(value: &[u8]) -> ArrayVec<u8, MAX_VALUE>
    requires { length value.now ≤ MAX_VALUE }
    ensures { result.items ≡ value.now }
{
    let mut buffer = ArrayVec::new();
    buffer.try_extend_from_slice(value).unwrap();
    buffer
}

fn write_part(value: &mut ArrayVec<u8, MAX_VALUE>, offset: usize, part: &[u8], keep: bool)
    requires offset { offset ≤ array_vec_len value.old }
    requires fits { offset + length part.now ≤ MAX_VALUE }
    ensures { value.new.items ≡ value_with_part keep value.old.items offset part.now }
{
    let end = offset + part.len();
    if keep && end <= value.len() {
        value.as_mut_slice()[offset..end].copy_from_slice(part);
    } else {
        value.truncate(offset);
        value.try_extend_from_slice(part).unwrap();
    }
}
