//! Fits subscriptions to keys and a table.

ghost use Rattle.std.specs.Prelude.{◌≡◌, ◌≤◌, if◌then◌else◌, OnOk, IfOk, IfSome};
ghost use Rattle.att_table.specs.ConfigRow.{with_bits, is_supported, IsRowOf};
ghost use Rattle.gatt_subs.specs.Fit.{peers_of, row_fitted, wants_changes, with_peer};
ghost use Rattle.gatt_subs.specs.Rows.{row_in};
ghost use Rattle.att_numbers.specs.declared.limit.TheConstants.{MAX_ATTRIBUTES};

use crate::hearing::wants_indications;
use crate::row_entry::RowEntry;
use crate::unfitted::{has_peer, insert_peer};
use att_table::{ConfigRow, Table};
use le_hci::Peer;
use le_security::Keys;
use std::alloc::{AllocError, Global};

/// Returns the peers of the keys, each once, in file order.
pub fn peers_of(alloc: Global, keys: &Keys) -> Result<Vec<Peer>, AllocError>
    ensures { IfOk result (λ peers. peers.items ≡ peers_of keys.now) }
{
    let mut peers = Vec::new(alloc);
    for at in 0..keys.count() {
        if let Some(peer) = keys.peer(at) {
            add_peer(&mut peers, *peer)?;
        }
    }
    Ok(peers)
}

fn add_peer(peers: &mut Vec<Peer>, peer: Peer) -> Result<(), AllocError>
    ensures { OnOk result (peers.new.items ≡ with_peer peers.old.items peer) }
{
    if !has_peer(peers, &peer) {
        insert_peer(peers, peer)?;
    }
    Ok(())
}

/// Returns the entries that the table supports.
pub fn fit_row(other: &ConfigRow, table: &Table) -> ConfigRow
    ensures { result ≡ row_fitted table.now.attributes other.now }
{
    let mut row = ConfigRow::new();
    for place in 0..other.len() {
        let (handle, bits) = other.entry(place);
        set_supported(&mut row, table, handle, bits);
    }
    row
}

/// Returns a peer's entries that the table supports.
pub fn fit_entries(entries: &[RowEntry], peer: &Peer, table: &Table) -> ConfigRow
    ensures { result ≡ row_fitted table.now.attributes (row_in entries.now peer.now) }
{
    let mut row = ConfigRow::new();
    for entry in entries {
        if entry.peer == *peer {
            set_supported(&mut row, table, entry.handle, entry.bits);
        }
    }
    row
}

/// Sets the bits if the table supports them.
#[tactic(auto, using(crate::proofs::Supported::supports))]
fn set_supported(row: &mut ConfigRow, table: &Table, handle: u16, bits: u8)
    requires { IsRowOf table.now.attributes row.old }
    ensures after { row.new ≡ (if is_supported table.now.attributes
        (handle, bits) then with_bits row.old handle bits else row.old) }
    ensures table { IsRowOf table.now.attributes row.new }
{
    if table.supports(handle, bits) {
        row.set(handle, bits);
    }
}

/// Returns true if the row requests Service Changed indications.
pub fn wants_changes(changer: Option<u16>, row: &ConfigRow) -> bool
    requires { IfSome changer (λ handle. handle ≤ MAX_ATTRIBUTES) }
    ensures { result ≡ wants_changes changer row.now }
{
    match changer {
        Some(handle) => wants_indications(row, handle),
        None => false,
    }
}
