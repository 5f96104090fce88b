//! Writes a subscriptions file.

ghost use Rattle.std.specs.Prelude.{◌≡◌, ◌+◌, ◌≤◌, ◌<◌, ◌==◌, ◌++◌, [], if◌then◌else◌, length, OnOk, OnErr};
ghost use Rattle.std.specs.Fmt.{decimal};
ghost use Rattle.std.specs.Io.KnownBytes.{Appends};
ghost use Rattle.std.specs.List.{flat_map};
ghost use Rattle.arrayvec.specs.ArrayVec.{array_vec_len};
ghost use Rattle.octet_io.specs.Stream.{CountsFailure, WritesFront};
ghost use Rattle.gatt_subs.specs.InOrder.{in_order};
ghost use Rattle.gatt_subs.specs.RowEntry.{order_of};
ghost use Rattle.gatt_subs.specs.RowsText.{address_text, peer_text, entry_line, owed_line, owed_peers, bond_entries, entries_of, text_by_parts};

use crate::bond::Bond;
use crate::row_entry::RowEntry;
use crate::unfitted::{Unfitted, first_entry_behind};
use arrayvec::ArrayVec;
use att_numbers::limit::MAX_CONFIGURATIONS;
use att_table::ConfigRow;
use itoa::Buffer;
use le_hci::Peer;
use octet_io::{Failed, Sink, write_all};

/// The buffer size of a line.
const LINE: usize = 96;

/// Writes the bonds of `peers` and the unfitted entries.
pub fn write_rows<W: Sink>(
    peers: &[Peer],
    bonds: &[Bond],
    unfitted: &Unfitted,
    sink: &mut W,
) -> Result<(), Failed>
    requires { length bonds.now ≡ length peers.now }
    ensures ok { OnOk result (Appends (W.contents sink.old) (W.contents sink.new)
        (text_by_parts peers.now bonds.now unfitted.now)) }
    ensures front { OnErr result (WritesFront (text_by_parts peers.now bonds.now unfitted.now)
        (W.contents sink.old) (W.contents sink.new)) }
    ensures failures { CountsFailure (W.failures sink.old) (W.failures sink.new) result }
{
    write_configured(peers, bonds, unfitted.entries(), sink)?;
    write_owed_in(peers, bonds, unfitted.owed(), sink)
}

/// Writes the lines of entries.
fn write_configured<W: Sink>(
    peers: &[Peer],
    bonds: &[Bond],
    others: &[RowEntry],
    sink: &mut W,
) -> Result<(), Failed>
    requires { length bonds.now ≡ length peers.now }
    ensures ok { OnOk result (Appends (W.contents sink.old) (W.contents sink.new)
        (flat_map entry_line (bond_entries peers.now bonds.now ++ others.now))) }
    ensures front { OnErr result
        (WritesFront (flat_map entry_line (bond_entries peers.now bonds.now ++ others.now))
        (W.contents sink.old) (W.contents sink.new)) }
    ensures failures { CountsFailure (W.failures sink.old) (W.failures sink.new) result }
{
    write_bonds(peers, bonds, sink)?;
    write_entries(others, sink)
}

/// Writes the lines of peers with a pending indication.
fn write_owed_in<W: Sink>(
    peers: &[Peer],
    bonds: &[Bond],
    others: &[Peer],
    sink: &mut W,
) -> Result<(), Failed>
    requires { length bonds.now ≡ length peers.now }
    ensures ok { OnOk result (Appends (W.contents sink.old) (W.contents sink.new)
        (flat_map owed_line (owed_peers peers.now bonds.now ++ others.now))) }
    ensures front { OnErr result
        (WritesFront (flat_map owed_line (owed_peers peers.now bonds.now ++ others.now))
        (W.contents sink.old) (W.contents sink.new)) }
    ensures failures { CountsFailure (W.failures sink.old) (W.failures sink.new) result }
{
    write_owed_bonds(peers, bonds, sink)?;
    write_owed(others, sink)
}

fn write_bonds<W: Sink>(peers: &[Peer], bonds: &[Bond], sink: &mut W) -> Result<(), Failed>
    requires { length bonds.now ≡ length peers.now }
    ensures ok { OnOk result (Appends (W.contents sink.old) (W.contents sink.new)
        (flat_map entry_line (bond_entries peers.now bonds.now))) }
    ensures front { OnErr result (WritesFront (flat_map entry_line
        (bond_entries peers.now bonds.now)) (W.contents sink.old) (W.contents sink.new)) }
    ensures failures { CountsFailure (W.failures sink.old) (W.failures sink.new) result }
{
    for place in 0..bonds.len() {
        let entries = entries_of(&peers[place], &bonds[place].row);
        write_entries(entries.as_slice(), sink)?;
    }
    Ok(())
}

fn write_owed_bonds<W: Sink>(peers: &[Peer], bonds: &[Bond], sink: &mut W) -> Result<(), Failed>
    requires { length bonds.now ≡ length peers.now }
    ensures ok { OnOk result (Appends (W.contents sink.old) (W.contents sink.new)
        (flat_map owed_line (owed_peers peers.now bonds.now))) }
    ensures front { OnErr result (WritesFront (flat_map owed_line (owed_peers peers.now bonds.now))
        (W.contents sink.old) (W.contents sink.new)) }
    ensures failures { CountsFailure (W.failures sink.old) (W.failures sink.new) result }
{
    for place in 0..bonds.len() {
        write_if(bonds[place].owed, &peers[place], sink)?;
    }
    Ok(())
}

fn write_if<W: Sink>(owed: bool, peer: &Peer, sink: &mut W) -> Result<(), Failed>
    ensures ok { OnOk result (Appends (W.contents sink.old) (W.contents sink.new)
        (if owed then owed_line peer.now else [])) }
    ensures front { OnErr result (WritesFront (if owed then owed_line peer.now else [])
        (W.contents sink.old) (W.contents sink.new)) }
    ensures failures { CountsFailure (W.failures sink.old) (W.failures sink.new) result }
{
    if owed {
        write_all(owed_line(peer).as_slice(), sink)
    } else {
        Ok(())
    }
}

fn write_entries<W: Sink>(entries: &[RowEntry], sink: &mut W) -> Result<(), Failed>
    ensures ok { OnOk result
        (Appends (W.contents sink.old) (W.contents sink.new) (flat_map entry_line entries.now)) }
    ensures front { OnErr result (WritesFront (flat_map entry_line entries.now)
        (W.contents sink.old) (W.contents sink.new)) }
    ensures failures { CountsFailure (W.failures sink.old) (W.failures sink.new) result }
{
    for entry in entries {
        write_all(entry_line(entry).as_slice(), sink)?;
    }
    Ok(())
}

fn write_owed<W: Sink>(peers: &[Peer], sink: &mut W) -> Result<(), Failed>
    ensures ok { OnOk result
        (Appends (W.contents sink.old) (W.contents sink.new) (flat_map owed_line peers.now)) }
    ensures front { OnErr result
        (WritesFront (flat_map owed_line peers.now) (W.contents sink.old) (W.contents sink.new)) }
    ensures failures { CountsFailure (W.failures sink.old) (W.failures sink.new) result }
{
    for peer in peers {
        write_all(owed_line(peer).as_slice(), sink)?;
    }
    Ok(())
}

/// Returns a row's entries with nonzero bits in file order.
pub fn entries_of(peer: &Peer, row: &ConfigRow) -> ArrayVec<RowEntry, MAX_CONFIGURATIONS>
    ensures { result.items ≡ entries_of peer.now row.now }
{
    let mut entries = ArrayVec::new();
    for place in 0..row.len() {
        let (handle, bits) = row.entry(place);
        let peer = *peer;
        insert_configured(&mut entries, RowEntry { peer, handle, bits });
    }
    entries
}

/// Inserts an entry in file order if its bits are nonzero.
fn insert_configured(entries: &mut ArrayVec<RowEntry, MAX_CONFIGURATIONS>, entry: RowEntry)
    requires { array_vec_len entries.old < MAX_CONFIGURATIONS }
    ensures items { entries.new.items ≡ (if entry.bits == 0 then entries.old.items
        else in_order order_of entry entries.old.items) }
    ensures len { array_vec_len entries.new ≤ array_vec_len entries.old + 1 }
{
    if entry.bits != 0 {
        insert_in_order(entries, entry);
    }
}

#[tactic(auto, using(crate::proofs::InOrder::inserts))]
fn insert_in_order(entries: &mut ArrayVec<RowEntry, MAX_CONFIGURATIONS>, entry: RowEntry)
    requires { array_vec_len entries.old < MAX_CONFIGURATIONS }
    ensures items { entries.new.items ≡ in_order order_of entry entries.old.items }
    ensures len { array_vec_len entries.new ≡ array_vec_len entries.old + 1 }
{
    let place = first_entry_behind(entries, entry.order()).unwrap_or(entries.len());
    entries.insert(place, entry);
}

/// Returns an entry's line.
#[tactic(auto, unfolding(crate::specs::RowsText::entry_line))]
fn entry_line(entry: &RowEntry) -> ArrayVec<u8, LINE>
    ensures { result.items ≡ entry_line entry.now }
{
    let mut line = ArrayVec::new();
    push_peer(&mut line, &entry.peer);
    push(&mut line, b" ");
    push_number(&mut line, u64::from(entry.handle));
    push(&mut line, b" ");
    push_number(&mut line, u64::from(entry.bits));
    push(&mut line, b"\n");
    line
}

/// Returns the line of a peer with a pending indication.
#[tactic(auto, unfolding(crate::specs::RowsText::owed_line))]
fn owed_line(peer: &Peer) -> ArrayVec<u8, LINE>
    ensures { result.items ≡ owed_line peer.now }
{
    let mut line = ArrayVec::new();
    push(&mut line, b"! ");
    push_peer(&mut line, peer);
    push(&mut line, b"\n");
    line
}

/// Appends address type and address.
fn push_peer(line: &mut ArrayVec<u8, LINE>, peer: &Peer)
    requires { array_vec_len line.old ≤ 2 }
    ensures items { line.new.items ≡ line.old.items ++ peer_text peer.now }
    ensures len { array_vec_len line.new ≤ array_vec_len line.old + 38 }
{
    push_number(line, u64::from(peer.kind));
    push(line, b" ");
    push(line, &address_text(peer.address));
}

/// Formats an address as six colon-separated hexadecimal octets, most significant first.
#[tactic(auto, unfolding(crate::specs::RowsText::address_text))]
pub fn address_text(address: [u8; 6]) -> [u8; 17]
    ensures { result ≡ address_text address }
{
    let [a, b, c, d, e, f] = address;
    let mut digits = [0; 12];
    hex::encode_to_slice([f, e, d, c, b, a], &mut digits).unwrap();
    let [f1, f0, e1, e0, d1, d0, c1, c0, b1, b0, a1, a0] = digits;
    [
        f1, f0, b':', e1, e0, b':', d1, d0, b':', c1, c0, b':', b1, b0, b':', a1, a0,
    ]
}

fn push_number(line: &mut ArrayVec<u8, LINE>, number: u64)
    requires { array_vec_len line.old + 20 ≤ LINE }
    ensures items { line.new.items ≡ line.old.items ++ decimal number }
    ensures len { array_vec_len line.new ≤ array_vec_len line.old + 20 }
{
    let mut digits = Buffer::new();
    push(line, digits.format(number).as_bytes());
}

/// Appends octets that fit; the precondition makes `unwrap` free.
fn push(line: &mut ArrayVec<u8, LINE>, octets: &[u8])
    requires { array_vec_len line.old + length octets.now ≤ LINE }
    ensures items { line.new.items ≡ line.old.items ++ octets.now }
    ensures len { array_vec_len line.new ≡ array_vec_len line.old + length octets.now }
{
    line.try_extend_from_slice(octets).unwrap();
}
