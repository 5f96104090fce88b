//! The contents of rows as lists.

ghost use Rattle.std.specs.Prelude.{◌≡◌, ◌++◌, length, IfOk, OnOk, if◌then◌else◌, [], ◌∷◌};
ghost use Rattle.gatt_subs.specs.RowsText.{bond_entries, owed_peers};

use crate::bond::Bond;
use crate::row_entry::RowEntry;
use crate::rows_text::entries_of;
use le_hci::Peer;
use std::alloc::{AllocError, Global};

/// Returns the entries with nonzero bits of the bonds of `peers`, then `others`.
pub fn all_entries(
    alloc: Global,
    peers: &[Peer],
    bonds: &[Bond],
    others: &[RowEntry],
) -> Result<Vec<RowEntry>, AllocError>
    requires { length bonds.now ≡ length peers.now }
    ensures { IfOk result
        (λ entries. entries.items ≡ bond_entries peers.now bonds.now ++ others.now) }
{
    let mut entries = Vec::new(alloc);
    for place in 0..bonds.len() {
        let more = entries_of(&peers[place], &bonds[place].row);
        entries.extend_from_slice(more.as_slice())?;
    }
    entries.extend_from_slice(others)?;
    Ok(entries)
}

/// Returns those of `peers` whose bond has a pending Service Changed indication, then `others`.
pub fn all_owed(
    alloc: Global,
    peers: &[Peer],
    bonds: &[Bond],
    others: &[Peer],
) -> Result<Vec<Peer>, AllocError>
    requires { length bonds.now ≡ length peers.now }
    ensures { IfOk result (λ owed. owed.items ≡ owed_peers peers.now bonds.now ++ others.now) }
{
    let mut owed = Vec::new(alloc);
    for place in 0..bonds.len() {
        push_if(&mut owed, bonds[place].owed, peers[place])?;
    }
    owed.extend_from_slice(others)?;
    Ok(owed)
}

fn push_if(peers: &mut Vec<Peer>, is_wanted: bool, peer: Peer) -> Result<(), AllocError>
    ensures { OnOk result
        (peers.new.items ≡ peers.old.items ++ (if is_wanted then peer ∷ [] else [])) }
{
    if is_wanted {
        peers.push(peer)?;
    }
    Ok(())
}
