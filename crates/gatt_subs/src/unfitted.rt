//! The contents of a subscriptions file.

ghost use Rattle.std.specs.Prelude.{◌≡◌, ◌+◌, ◌<◌, [], ◌∷◌, length, nat_lt, Ok, OnOk, OnErr, IfSome, IfNone};
ghost use Rattle.std.specs.List.{position};
ghost use Rattle.octet_io.specs.Memory.{Gives, Leaves};
ghost use Rattle.gatt_subs.specs.declared.rows_fault.RowsFault.TheVariants.{OutOfMemory};
ghost use Rattle.gatt_subs.specs.InOrder.{in_order};
ghost use Rattle.gatt_subs.specs.RowEntry.{order_of, rank_of};
ghost use Rattle.gatt_subs.specs.Unfitted.{has_row_entry, has_peer, nothing_written, rows_with_line, rows_with_said, rows_read};
ghost use Rattle.text_words.specs.Split.{lines_of};

use crate::row_entry::{RowEntry, rank};
use crate::rows_fault::RowsFault;
use crate::rows_line::{Line, read_line};
use le_hci::Peer;
use std::alloc::{AllocError, Global};
use std::marker::Model;
use text_words::first_line;

/// The most configurations in a rows file.
const MAX_ENTRIES: usize = 4096;
/// The most peers with a pending Service Changed in a rows file.
const MAX_OWED: usize = 64;

/// A file's contents before they are fitted to keys and a table.
#[derive(Drop)]
pub struct Unfitted {
    /// In file order, like `owed`.
    entries: Vec<RowEntry>,
    owed: Vec<Peer>,
}

impl Model for Unfitted {
    ghost use Rattle.gatt_subs.specs.Unfitted.{WrittenRows};

    ghost Value = { WrittenRows };

    ghost view = { λ unfitted.
        record { entries = unfitted.entries.items; owed = unfitted.owed.items } };
}

impl Unfitted {
    pub fn new(alloc: Global) -> Self
        ensures { result ≡ nothing_written }
    {
        Unfitted {
            entries: Vec::new(alloc),
            owed: Vec::new(alloc),
        }
    }

    /// Reads a subscriptions file, or returns its first fault.
    ///
    /// `OutOfMemory` may occur at any point.
    #[tactic(auto, unfolding(crate::specs::Unfitted::rows_read))]
    pub fn read(alloc: Global, text: &str) -> Result<Unfitted, RowsFault>
        ensures { Gives OutOfMemory (rows_read text.now) result }
    {
        let mut unfitted = Unfitted::new(alloc);
        let mut rest = text;
        let mut number = 1;
        while let Some((line, behind)) = first_line(rest) {
            unfitted.take_line(number, line)?;
            rest = behind;
            number += 1;
        }
        unfitted.take_line(number, rest)?;
        Ok(unfitted)
    }

    /// Returns the entries in file order.
    pub fn entries(&self) -> &[RowEntry]
        ensures { result.now ≡ self.now.entries }
    {
        &self.entries
    }

    /// Returns the peers with a pending indication, in file order.
    pub fn owed(&self) -> &[Peer]
        ensures { result.now ≡ self.now.owed }
    {
        &self.owed
    }

    fn take_line(&mut self, number: u64, line: &str) -> Result<(), RowsFault>
        ensures { Leaves OutOfMemory (rows_with_line number self.old line.now) result self.new }
    {
        if line.is_empty() {
            return Ok(());
        }
        let said = read_line(line).ok_or(RowsFault::BadLine(number))?;
        self.take(number, said)
    }

    fn take(&mut self, number: u64, said: Line) -> Result<(), RowsFault>
        ensures { Leaves OutOfMemory (rows_with_said number self.old said) result self.new }
    {
        match said {
            Line::Entry(entry) => {
                if has_entry(&self.entries, &entry.peer, entry.handle) {
                    return Err(RowsFault::Twice(number));
                }
                if self.entries.len() >= MAX_ENTRIES {
                    return Err(RowsFault::TooMany);
                }
                insert_entry(&mut self.entries, entry)?;
            }
            Line::Owed(peer) => {
                if has_peer(&self.owed, &peer) {
                    return Err(RowsFault::Twice(number));
                }
                if self.owed.len() >= MAX_OWED {
                    return Err(RowsFault::TooMany);
                }
                insert_peer(&mut self.owed, peer)?;
            }
        }
        Ok(())
    }
}

fn has_entry(entries: &[RowEntry], peer: &Peer, handle: u16) -> bool
    ensures { result ≡ has_row_entry entries.now peer.now handle }
{
    entries.iter().any(|entry| entry.is_at(peer, handle))
}

/// Returns true if the peer is in the list.
pub fn has_peer(peers: &[Peer], peer: &Peer) -> bool
    ensures { result ≡ has_peer peers.now peer.now }
{
    peers.iter().any(|other| *other == *peer)
}

#[tactic(auto, using(crate::proofs::InOrder::inserts))]
fn insert_entry(entries: &mut Vec<RowEntry>, entry: RowEntry) -> Result<(), AllocError>
    ensures ok { OnOk result (entries.new.items ≡ in_order order_of entry entries.old.items) }
    ensures err { OnErr result (entries.new.items ≡ entries.old.items) }
{
    let place = first_entry_behind(entries, entry.order()).unwrap_or(entries.len());
    entries.insert(place, entry)?;
    Ok(())
}

/// Returns the index of the first entry after this sort key.
pub fn first_entry_behind(entries: &[RowEntry], order: u128) -> Option<usize>
    ensures { result ≡ position (λ other. nat_lt order (order_of other)) entries.now }
{
    entries.iter().position(|other| order < other.order())
}

/// Inserts a peer in file order.
#[tactic(auto, using(crate::proofs::InOrder::inserts))]
pub fn insert_peer(peers: &mut Vec<Peer>, peer: Peer) -> Result<(), AllocError>
    ensures ok { OnOk result (peers.new.items ≡ in_order rank_of peer peers.old.items) }
    ensures err { OnErr result (peers.new.items ≡ peers.old.items) }
{
    let place = first_peer_behind(peers, rank(&peer)).unwrap_or(peers.len());
    peers.insert(place, peer)?;
    Ok(())
}

fn first_peer_behind(peers: &[Peer], order: u64) -> Option<usize>
    ensures { result ≡ position (λ other. nat_lt order (rank_of other)) peers.now }
{
    peers.iter().position(|other| order < rank(other))
}
