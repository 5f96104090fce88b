ghost use Rattle.std.specs.Prelude.{◌≡◌, ◌+◌, ◌<◌, ◌≤◌, [], ◌∷◌, ◌++◌, length, take, vec_capacity, IfOk, IsTrue};
ghost use Rattle.att_writes.specs.Entry.{entry_of};
ghost use Rattle.att_writes.specs.Queue.{entries_in, sizes_of, has_queue_room};
ghost use Rattle.att_writes.specs.SameBut.{JudgesByLengths, LeavesOthers, StoresTouched, SetsTouched};

use crate::entry::EntryRef;
use arrayvec::ArrayVec;
use std::alloc::{AllocError, Global};
use std::marker::Model;

/// The most prepared writes in a queue (this profile's own).
pub const MAX_PREPARED: usize = 32;

/// The handles that were written, each once.
pub type Touched = ArrayVec<u16, MAX_PREPARED>;

/// The most octets of all parts in a queue (this profile's own).
const MAX_PREPARED_OCTETS: usize = 1_024;

/// A prepared write without its part; offset and length in octets.
#[derive(Clone, Copy)]
pub(crate) struct Place {
    pub handle: u16,
    pub offset: u16,
    pub len: u16,
}

impl Place {
    pub(crate) fn entry(self, part: &[u8]) -> EntryRef<'_>
        ensures { entry_of result
            ≡ record { handle = self.handle; offset = self.offset; part = part.now } }
    {
        EntryRef {
            handle: self.handle,
            offset: self.offset,
            part,
        }
    }
}

/// The queue of prepared writes of one client (Core 5.0, Vol 3 Part F, 3.4.6).
#[derive(Drop)]
pub struct Queue {
    places: Vec<Place>,
    /// A buffer of fixed length that begins with the parts in sequence.
    octets: Vec<u8>,
    /// The length of all parts.
    used: usize,
}

impl Model for Queue {
    ghost use Rattle.std.specs.Prelude.{List, take, vec_capacity};
    ghost use Rattle.att_writes.specs.Entry.{Entry};
    ghost use Rattle.att_writes.specs.Queue.{entries_in, PartsAreLaidOut};

    ghost Value = { List Entry };

    ghost view = { λ queue. entries_in queue.places.items
        (take queue.used queue.octets.items) };

    ghost invariant = { λ queue. PartsAreLaidOut queue.places.items queue.octets.items queue.used
        (vec_capacity queue.places) };
}

impl Queue {
    /// Creates an empty queue and allocates all its memory.
    pub fn new(alloc: Global) -> Result<Queue, AllocError>
        ensures empty { IfOk result (λ queue. queue ≡ []) }
        // Facts of all writes, prepared or not.
        ensures lengths { JudgesByLengths }
        ensures others { LeavesOthers }
        ensures stored { StoresTouched }
        ensures configured { SetsTouched }
    {
        Ok(Queue {
            places: Vec::with_capacity(alloc, MAX_PREPARED)?,
            octets: vec![in alloc; 0; MAX_PREPARED_OCTETS]?,
            used: 0,
        })
    }

    #[tactic(auto, using(crate::proofs::Laid::laid))]
    pub(crate) fn has_room(&self, part: &[u8]) -> bool
        ensures { result ≡ has_queue_room self.now part.now }
    {
        self.places.len() < MAX_PREPARED && self.used + part.len() <= MAX_PREPARED_OCTETS
    }

    /// Appends an entry; allocates nothing.
    #[tactic(auto, using(crate::proofs::Laid::laid))]
    pub(crate) fn push(&mut self, entry: EntryRef<'_>)
        requires room { IsTrue (has_queue_room self.old entry.part.now) }
        ensures { self.new ≡ self.old ++ entry_of entry.entry ∷ [] }
    {
        let place = Place {
            handle: entry.handle,
            offset: entry.offset,
            len: entry.part.len() as u16,
        };
        push_place(&mut self.places, place);
        write_part(self.octets.as_mut_slice(), self.used, entry.part);
        self.used += entry.part.len();
    }

    /// Returns the entries without parts, and the parts in sequence.
    pub(crate) fn parts(&self) -> (&[Place], &[u8])
        ensures entries { entries_in result.0.now result.1.now ≡ self.now }
        ensures sizes { sizes_of result.0.now ≡ length result.1.now }
        ensures within { length result.0.now ≤ MAX_PREPARED }
    {
        (&self.places, &self.octets[..self.used])
    }

    pub(crate) fn clear(&mut self)
        ensures { self.new ≡ [] }
    {
        self.places.clear();
        self.used = 0;
    }
}

fn push_place(places: &mut Vec<Place>, place: Place)
    requires room { length places.old.items < vec_capacity places.old }
    ensures items { places.new.items ≡ places.old.items ++ place ∷ [] }
    ensures capacity { vec_capacity places.new ≡ vec_capacity places.old }
{
    places.push_reserved(place);
}

fn write_part(octets: &mut [u8], used: usize, part: &[u8])
    requires room { used + length part.now ≤ length octets.old }
    ensures front { take (used + length part.now) octets.new ≡ take used octets.old ++ part.now }
    ensures length { length octets.new ≡ length octets.old }
{
    octets[used..used + part.len()].copy_from_slice(part);
}
