ghost use Rattle.std.specs.Prelude.{◌≡◌, ◌≢◌, ℕ, ◌+◌, ◌-◌, ◌<◌, ◌≤◌, ◌==◌, ◌&&◌, ◌++◌, ◌∷◌, if◌then◌else◌, true, All, List, [], length, slice_get, Some, IsTrue};
ghost use Rattle.att_attributes.specs.declared.attr.Attr.{Attr};
ghost use Rattle.att_attributes.specs.Attributes.{is_configuration_at, type_at};
ghost use Rattle.att_table.specs.ConfigRow.{bits_at, with_bits, has_its_meaning, has_room, is_supported, kept_bits, kept_row, HasOneEntryEach, IsEntry, IsRowOf};

use crate::row_entries::RowEntries;
use crate::table::Table;
use att_attributes::Role;
use att_numbers::limit::MAX_CONFIGURATIONS;
use std::marker::Model;

/// The configurations that one client has written, by handle (Core 5.0, Vol 3 Part G, 3.3.3.3).
#[derive(Drop)]
pub struct ConfigRow {
    entries: RowEntries,
}

impl Model for ConfigRow {
    ghost use Rattle.std.specs.Prelude.{All};
    ghost use Rattle.att_numbers.specs.Types.{Row};
    ghost use Rattle.att_table.specs.ConfigRow.{IsEntry, HasOneEntryEach};

    ghost Value = { Row };

    ghost view = { λ row. row.entries };

    ghost invariant = { λ row. All IsEntry row.entries
        × HasOneEntryEach row.entries };
}

impl ConfigRow {
    /// Creates an empty row.
    pub fn new() -> Self
        ensures { result ≡ [] }
    {
        ConfigRow {
            entries: RowEntries::new(),
        }
    }

    /// Returns the bits at a handle, 0 without an entry.
    #[inline(always)]
    #[tactic(auto, using(crate::proofs::Rows::bits_at_le))]
    pub fn get(&self, handle: u16) -> u8
        ensures bits { result ≡ bits_at self.now handle }
        ensures known { result ≤ 3 }
    {
        self.entries.bits_at(handle)
    }

    /// Returns the number of entries.
    #[inline(always)]
    pub fn len(&self) -> usize
        ensures value { result ≡ length self.now }
        ensures most { result ≤ MAX_CONFIGURATIONS }
    {
        self.entries.len()
    }

    /// Returns true if the row has no entry.
    #[inline(always)]
    pub fn is_empty(&self) -> bool
        ensures { result ≡ (length self.now == 0) }
    {
        self.entries.len() == 0
    }

    /// Returns the handle and bits of an entry.
    ///
    /// Entries are in the order in which their handles were first set.
    #[tactic(auto, using(crate::proofs::Rows::is_entry_at))]
    pub fn entry(&self, place: usize) -> (u16, u8)
        requires { place < length self.now }
        ensures entry { slice_get self.now place ≡ Some result }
        ensures known { IsEntry result }
    {
        self.entries.get(place)
    }

    /// Returns true if the handle has an entry or the row has space for one.
    pub fn can_set(&self, handle: u16) -> bool
        ensures { result ≡ has_room self.now handle }
    {
        self.entries.contains(handle) || self.entries.len() < MAX_CONFIGURATIONS
    }

    /// Sets the bits at a handle.
    ///
    /// A row whose handles are all configurations of one table has space for each of that table.
    #[inline(never)]
    #[tactic(auto, using(crate::proofs::Rows::writes, crate::proofs::Configurations::row_of))]
    pub fn set(&mut self, handle: u16, bits: u8)
        requires handle { 0 < handle }
        requires bits { bits ≤ 3 }
        requires room { HasOneEntryEach self.old → IsTrue (has_room self.old handle) }
        ensures after { self.new ≡ with_bits self.old handle bits }
        ensures table { (attributes : List Attr) → is_configuration_at attributes handle ≡ true
            → IsRowOf attributes self.old → IsRowOf attributes self.new }
        ensures written { bits_at self.new handle ≡ bits }
        ensures others { (other : ℕ) → other ≢ handle
            → bits_at self.new other ≡ bits_at self.old other }
    {
        write(&mut self.entries, handle, bits);
    }

    /// Adapts the row to a replaced table.
    ///
    /// Keeps an entry only if both tables have a configuration at its handle, for values of one
    /// type, and the new one supports its bits.
    pub fn keep(&mut self, old: &Table, new: &Table)
        // A replaced table leaves a client exactly the configurations that still fit.
        ensures kept { self.new ≡ kept_row old.now.attributes new.now.attributes self.old }
        ensures bits { (handle : ℕ) → bits_at self.new handle
            ≡ kept_bits old.now.attributes new.now.attributes handle (bits_at self.old handle) }
        ensures table { IsRowOf new.now.attributes self.new }
    {
        retain_kept(&mut self.entries, old, new);
    }
}

fn retain_kept(entries: &mut RowEntries, old: &Table, new: &Table)
    ensures { entries.new ≡ kept_row old.now.attributes new.now.attributes entries.old }
{
    let mut kept = RowEntries::new();
    for place in 0..entries.len() {
        let (handle, bits) = entries.get(place);
        keep_entry(&mut kept, old, new, handle, bits);
    }
    *entries = kept;
}

fn keep_entry(kept: &mut RowEntries, old: &Table, new: &Table, handle: u16, bits: u8)
    requires { length kept.old < MAX_CONFIGURATIONS }
    ensures kept { kept.new ≡ (if is_supported new.now.attributes (handle, bits)
        && has_its_meaning old.now.attributes new.now.attributes handle
        then kept.old ++ (handle, bits) ∷ [] else kept.old) }
    ensures most { length kept.new ≤ length kept.old + 1 }
{
    if new.supports(handle, bits) && has_its_meaning(old, new, handle) {
        kept.push(handle, bits);
    }
}

fn has_its_meaning(old: &Table, new: &Table, handle: u16) -> bool
    ensures { result ≡ has_its_meaning old.now.attributes new.now.attributes handle }
{
    is_configuration(old, handle) && configured_type(old, handle) == configured_type(new, handle)
}

fn is_configuration(table: &Table, handle: u16) -> bool
    ensures { result ≡ is_configuration_at table.now.attributes handle }
{
    match table.get(handle) {
        Some(attr) => attr.role == Role::Configuration,
        None => false,
    }
}

fn configured_type(table: &Table, handle: u16) -> u128
    ensures { result ≡ type_at table.now.attributes (handle - 1) }
{
    match table.get(handle.saturating_sub(1)) {
        Some(attr) => attr.kind,
        None => 0,
    }
}

#[tactic(auto, using(crate::proofs::Rows::append_missing))]
fn write(entries: &mut RowEntries, handle: u16, bits: u8)
    requires { IsTrue (has_room entries.old handle) }
    ensures { entries.new ≡ with_bits entries.old handle bits }
{
    if !entries.overwrite(handle, bits) {
        entries.push(handle, bits);
    }
}
