//! The subscriptions of bonded peers.

ghost use Rattle.std.specs.Prelude.{◌≡◌, ◌<◌, ◌≤◌, length, slice_get, Some, IsTrue, IsNone, IfSome, IfOk, IfErr, OnOk, OnErr, map};
ghost use Rattle.std.specs.Borrow.{sem};
ghost use Rattle.std.specs.Io.KnownBytes.{Appends};
ghost use Rattle.std.specs.List.{find};
ghost use Rattle.std.specs.Option.{option_copied, option_map};
ghost use Rattle.le_hci.specs.declared.peer.Peer.{Peer};
ghost use Rattle.octet_io.specs.Memory.{Gives};
ghost use Rattle.octet_io.specs.Stream.{CountsFailure, WritesFront};
ghost use Rattle.att_numbers.specs.Types.{Row};
ghost use Rattle.att_table.specs.Changer.{changer_of};
ghost use Rattle.att_table.specs.ConfigRow.{bits_at, has_room, HasOneEntryEach};
ghost use Rattle.gatt_subs.specs.declared.rows_fault.RowsFault.TheVariants.{OutOfMemory};
ghost use Rattle.gatt_subs.specs.Fit.{fitted_bond, fitted_rows, row_fitted, HasFittedBonds};
ghost use Rattle.gatt_subs.specs.InOrder.{Ascends};
ghost use Rattle.gatt_subs.specs.ReadBack.{written_by, FittedCanBeWritten, IsOfAFile, ReadsBack};
ghost use Rattle.gatt_subs.specs.RowEntry.{is_at, rank_of};
ghost use Rattle.gatt_subs.specs.Rows.{peer_place, bond_of, row_of, row_in, rows_in, row_read, owes, bonds_with, with_bond, with_row, with_set, with_owed, kept_bond, subscriptions_read, ChangesBond};
ghost use Rattle.gatt_subs.specs.Changes.{with_changes_owed};
ghost use Rattle.gatt_subs.specs.RowsText.{configured, owed_in, rows_text};
ghost use Rattle.att_numbers.specs.declared.limit.TheConstants.{MAX_ATTRIBUTES};

use crate::bond::Bond;
use crate::row_entry::RowEntry;
use crate::rows_fault::RowsFault;
use crate::unfitted::{Unfitted, has_peer};
use crate::{contents, fit, rows_text};
use att_table::{ConfigRow, Table};
use le_hci::Peer;
use le_security::Keys;
use octet_io::{Failed, Sink};
use std::alloc::{AllocError, Global};
use std::marker::Model;
use std::str;

/// The subscriptions of at most 64 peers with keys.
///
/// A file that was read is visible, but no peer has a row until `fit`.
#[derive(Drop)]
pub struct Rows {
    /// In file order.
    peers: Vec<Peer>,
    bonds: Vec<Bond>,
    unfitted: Unfitted,
}

impl Model for Rows {
    ghost use Rattle.std.specs.Prelude.{◌≡◌, length};
    ghost use Rattle.gatt_subs.specs.Rows.{Subscriptions};

    ghost Value = { Subscriptions };

    ghost view = { λ rows.
        record { peers = rows.peers.items; bonds = rows.bonds.items; unfitted = rows.unfitted } };

    ghost invariant = { λ rows. length rows.bonds.items ≡ length rows.peers.items };
}

impl Rows {
    ghost use Rattle.gatt_subs.specs.RowsLends.{LendsRow};

    /// Reads a subscriptions file, or returns its first fault.
    ///
    /// `OutOfMemory` may occur at any point.
    #[tactic(auto, using(crate::proofs::RowsRead::read_can_be_written))]
    pub fn read(alloc: Global, text: &str) -> Result<Rows, RowsFault>
        // A subscriptions file gives exactly what its lines say, or its first fault, unless memory
        // is refused.
        ensures rows { Gives OutOfMemory (subscriptions_read text.now) result }
        // The text can be read again.
        ensures of_a_file { IfOk result (λ rows. IsOfAFile (written_by rows)) }
    {
        Rows::read_unfitted(alloc, text)
    }

    /// Reads the bytes of a subscriptions file; its first fault is `BadLine(1)` if not UTF-8.
    ///
    /// `OutOfMemory` may occur at any point.
    #[tactic(auto, using(octet_io::proofs::Texts::of_text, octet_io::proofs::Texts::of_no_text), unfolding(crate::specs::Rows::rows_in))]
    pub fn from_bytes(alloc: Global, bytes: &[u8]) -> Result<Rows, RowsFault>
        ensures rows { Gives OutOfMemory (rows_in bytes.now) result }
    {
        match str::from_utf8(bytes) {
            Ok(text) => Rows::read(alloc, text),
            Err(_) => Err(RowsFault::BadLine(1)),
        }
    }

    fn read_unfitted(alloc: Global, text: &str) -> Result<Rows, RowsFault>
        ensures { Gives OutOfMemory (subscriptions_read text.now) result }
    {
        Ok(Rows {
            peers: Vec::new(alloc),
            bonds: Vec::new(alloc),
            unfitted: Unfitted::read(alloc, text)?,
        })
    }

    /// Gives each peer of the keys a row with its supported entries, and drops all others.
    ///
    /// A Service Changed indication stays pending if the row requests it. On error nothing changes.
    pub fn fit(&mut self, alloc: Global, keys: &Keys, table: &Table) -> Result<(), RowsFault>
        ensures fitted { OnOk result (self.new ≡ fitted_rows keys.now table.now self.old) }
        ensures each { OnOk result (HasFittedBonds keys.now table.now self.old self.new) }
        ensures ordered { OnOk result (Ascends rank_of self.new.peers) }
        ensures unchanged { OnErr result (self.new ≡ self.old) }
        ensures refused { IfErr result (λ fault. fault ≡ OutOfMemory) }
    {
        self.replace_bonds(alloc, keys, table)
    }

    fn replace_bonds(&mut self, alloc: Global, keys: &Keys, table: &Table) -> Result<(), RowsFault>
        ensures fitted { OnOk result (self.new ≡ fitted_rows keys.now table.now self.old) }
        ensures unchanged { OnErr result (self.new ≡ self.old) }
        ensures refused { IfErr result (λ fault. fault ≡ OutOfMemory) }
    {
        let peers = fit::peers_of(alloc, keys)?;
        let bonds = self.fitted_bonds(alloc, &peers, table)?;
        self.peers = peers;
        self.bonds = bonds;
        self.unfitted = Unfitted::new(alloc);
        Ok(())
    }

    fn fitted_bonds(
        &self,
        alloc: Global,
        peers: &[Peer],
        table: &Table,
    ) -> Result<Vec<Bond>, AllocError>
        ensures { IfOk result
            (λ bonds. bonds.items ≡ map (fitted_bond table.now self.now) peers.now) }
    {
        let changer = table.changer();
        let mut bonds = Vec::new(alloc);
        for peer in peers {
            bonds.push(self.fitted_bond(peer, table, changer))?;
        }
        Ok(bonds)
    }

    fn fitted_bond(&self, peer: &Peer, table: &Table, changer: Option<u16>) -> Bond
        requires changer { changer ≡ changer_of table.now }
        requires most { IfSome changer (λ handle. handle ≤ MAX_ATTRIBUTES) }
        ensures { result ≡ fitted_bond table.now self.now peer.now }
    {
        let row = self.fitted_row(peer, table);
        let owed = self.owed(peer) && fit::wants_changes(changer, &row);
        Bond { row, owed }
    }

    fn fitted_row(&self, peer: &Peer, table: &Table) -> ConfigRow
        ensures { result ≡ row_fitted table.now.attributes (row_read self.now peer.now) }
    {
        match place_of(&self.peers, peer) {
            Some(place) => fit::fit_row(&self.bonds[place].row, table),
            None => fit::fit_entries(self.unfitted.entries(), peer, table),
        }
    }

    /// Writes the subscriptions file.
    ///
    /// Entries come first, in ascending order of peers and handles, then peers with a pending
    /// Service Changed indication. If the sink fails, a prefix is written.
    #[tactic(auto, using(crate::proofs::ReadBack::reads_back, crate::proofs::RowsFitted::fitted_can_be_written))]
    pub fn text<W: Sink>(&self, sink: &mut W) -> Result<(), Failed>
        ensures ok { OnOk result
            (Appends (W.contents sink.old) (W.contents sink.new) (rows_text self.now)) }
        ensures front { OnErr result
            (WritesFront (rows_text self.now) (W.contents sink.old) (W.contents sink.new)) }
        ensures failures { CountsFailure (W.failures sink.old) (W.failures sink.new) result }
        // The text reads back as the same subscriptions.
        ensures read_back { ReadsBack self.now }
        ensures fitted { FittedCanBeWritten self.now }
    {
        rows_text::write_rows(&self.peers, &self.bonds, &self.unfitted, sink)
    }

    /// Returns the entries with nonzero bits in file order, also of a file that is not fitted.
    pub fn entries(&self, alloc: Global) -> Result<Vec<RowEntry>, AllocError>
        ensures entries { IfOk result (λ entries. entries.items ≡ configured self.now) }
    {
        contents::all_entries(alloc, &self.peers, &self.bonds, self.unfitted.entries())
    }

    /// Returns the peers with a pending Service Changed indication in file order, also of a file
    /// that is not fitted.
    pub fn owed_peers(&self, alloc: Global) -> Result<Vec<Peer>, AllocError>
        ensures peers { IfOk result (λ peers. peers.items ≡ owed_in self.now) }
    {
        contents::all_owed(alloc, &self.peers, &self.bonds, self.unfitted.owed())
    }

    /// Returns a peer's bits at a handle, 0 without an entry.
    pub fn get(&self, peer: &Peer, handle: u16) -> u8
        ensures { result ≡ bits_at (row_read self.now peer.now) handle }
    {
        match place_of(&self.peers, peer) {
            Some(place) => self.bonds[place].row.get(handle),
            None => bits_in(self.unfitted.entries(), peer, handle),
        }
    }

    /// Returns true if a Service Changed indication is pending for the peer.
    pub fn owed(&self, peer: &Peer) -> bool
        ensures { result ≡ owes self.now peer.now }
    {
        match place_of(&self.peers, peer) {
            Some(place) => self.bonds[place].owed,
            None => has_peer(self.unfitted.owed(), peer),
        }
    }

    /// Returns the peer's row, if it has one.
    pub fn row(&self, peer: &Peer) -> Option<&ConfigRow>
        ensures { option_copied result ≡ row_of self.now peer.now }
    {
        let place = place_of(&self.peers, peer)?;
        Some(&self.bonds[place].row)
    }

    /// Lends the peer's row, if it has one.
    pub fn of(&mut self, peer: &Peer) -> Option<&mut ConfigRow>
        ensures* writes_back { sem 𝓛 (LendsRow self.entry peer.now result) }
        ensures row { IfSome result (λ row. row_of self.old peer.now ≡ Some row.now) }
        ensures none { IsNone result → IsNone (row_of self.old peer.now) }
        ensures changes { (row : Row)
            → ChangesBond (with_row row) peer.now self.old
            (with_bond self.old peer.now (with_row row)) }
    {
        let place = place_of(&self.peers, peer)?;
        Some(&mut self.bonds[place].row)
    }

    /// Sets a peer's bits at a handle if it has a row, which must have space.
    pub fn set(&mut self, peer: &Peer, handle: u16, bits: u8)
        requires handle { 0 < handle }
        requires bits { bits ≤ 3 }
        requires room { IfSome (row_of self.old peer.now)
            (λ row. HasOneEntryEach row → IsTrue (has_room row handle)) }
        ensures { ChangesBond (with_set handle bits) peer.now self.old self.new }
    {
        if let Some(place) = place_of(&self.peers, peer) {
            set_bits(&mut self.bonds, place, handle, bits);
        }
    }

    /// Sets whether a Service Changed indication is pending, if the peer has a row.
    pub fn owe(&mut self, peer: &Peer, owed: bool)
        ensures { ChangesBond (with_owed owed) peer.now self.old self.new }
    {
        if let Some(place) = place_of(&self.peers, peer) {
            set_owed(&mut self.bonds, place, owed);
        }
    }

    /// Adapts each row to a replaced table.
    pub fn keep(&mut self, old: &Table, new: &Table)
        ensures kept { self.new ≡ record self.old {
          bonds = map
              (kept_bond old.now.attributes new.now.attributes) self.old.bonds;
        } }
        ensures each { (peer : Peer)
            → bond_of self.new peer
            ≡ option_map (kept_bond old.now.attributes new.now.attributes)
            (bond_of self.old peer) }
    {
        keep_rows(&mut self.bonds, old, new);
    }

    /// Makes a Service Changed indication pending for just the peers whose row requests it.
    pub fn owe_changes(&mut self, changer: Option<u16>)
        requires most { IfSome changer (λ handle. handle ≤ MAX_ATTRIBUTES) }
        ensures owed { self.new
            ≡ record self.old { bonds = map (with_changes_owed changer) self.old.bonds } }
        ensures each { (peer : Peer)
            → bond_of self.new peer
            ≡ option_map (with_changes_owed changer) (bond_of self.old peer) }
    {
        owe_where_wanted(&mut self.bonds, changer);
    }
}

fn owe_where_wanted(bonds: &mut Vec<Bond>, changer: Option<u16>)
    requires { IfSome changer (λ handle. handle ≤ MAX_ATTRIBUTES) }
    ensures { bonds.new.items ≡ map (with_changes_owed changer) bonds.old.items }
{
    for place in 0..bonds.len() {
        bonds[place].owe_changes(changer);
    }
}

fn keep_rows(bonds: &mut Vec<Bond>, old: &Table, new: &Table)
    ensures { bonds.new.items
        ≡ map (kept_bond old.now.attributes new.now.attributes) bonds.old.items }
{
    for place in 0..bonds.len() {
        bonds[place].row.keep(old, new);
    }
}

fn place_of(peers: &[Peer], peer: &Peer) -> Option<usize>
    ensures { result ≡ peer_place peers.now peer.now }
{
    peers.iter().position(|other| *other == *peer)
}

fn bits_in(entries: &[RowEntry], peer: &Peer, handle: u16) -> u8
    ensures { result ≡ bits_at (row_in entries.now peer.now) handle }
{
    match find_entry(entries, peer, handle) {
        Some(entry) => entry.bits,
        None => 0,
    }
}

fn find_entry<'a>(entries: &'a [RowEntry], peer: &Peer, handle: u16) -> Option<&'a RowEntry>
    ensures { option_copied result ≡ find (is_at peer.now handle) entries.now }
{
    entries.iter().find(|entry| entry.is_at(peer, handle))
}

fn set_bits(bonds: &mut Vec<Bond>, place: usize, handle: u16, bits: u8)
    requires place { place < length bonds.old.items }
    requires handle { 0 < handle }
    requires bits { bits ≤ 3 }
    requires room { IfSome (slice_get bonds.old.items place)
        (λ bond. HasOneEntryEach bond.row → IsTrue (has_room bond.row handle)) }
    ensures { bonds.new.items ≡ bonds_with bonds.old.items place (with_set handle bits) }
{
    bonds[place].row.set(handle, bits);
}

fn set_owed(bonds: &mut Vec<Bond>, place: usize, owed: bool)
    requires { place < length bonds.old.items }
    ensures { bonds.new.items ≡ bonds_with bonds.old.items place (with_owed owed) }
{
    bonds[place].owed = owed;
}
