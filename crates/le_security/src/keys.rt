ghost use Rattle.std.specs.Prelude.{◌≡◌, ◌≤◌, ◌<◌, [], ◌∷◌, ◌++◌, length, OnOk, OnErr, IsFalse};
ghost use Rattle.std.specs.List.{count_by};
ghost use Rattle.std.specs.Option.{option_copied};
ghost use Rattle.le_security.specs.Entry.{is_for};
ghost use Rattle.le_security.specs.Keys.{facts_at, has_answer, is_known, key_asked_for, peer_at};
ghost use Rattle.le_security.specs.declared.entry_file.TheConstants.{MAX_ENTRIES};

use crate::entry::{Entry, Key};
use att_policy::KeyFacts;
use le_hci::Peer;
use std::alloc::{AllocError, Global};
use std::marker::Model;

/// The provisioned keys, in file order.
#[derive(Drop)]
pub struct Keys {
    entries: Vec<Entry>,
}

impl Model for Keys {
    ghost use Rattle.std.specs.Prelude.{List};
    ghost use Rattle.le_security.specs.Keys.{AreProvisioned};
    ghost use Rattle.le_security.specs.declared.entry.Entry.{Entry};

    ghost Value = { List Entry };

    ghost view = { λ keys. keys.entries.items };

    ghost invariant = { λ keys. AreProvisioned keys.entries.items };
}

impl Keys {
    pub(crate) fn new(alloc: Global) -> Self
        ensures { result ≡ [] }
    {
        Keys {
            entries: Vec::new(alloc),
        }
    }

    pub(crate) fn push(&mut self, entry: Entry) -> Result<(), AllocError>
        requires room { length self.old < MAX_ENTRIES }
        requires once { IsFalse (has_answer self.old entry) }
        ensures pushed { OnOk result (self.new ≡ self.old ++ entry ∷ []) }
        ensures unchanged { OnErr result (self.new ≡ self.old) }
    {
        self.entries.push(entry)?;
        Ok(())
    }

    pub(crate) fn entries(&self) -> &[Entry]
        ensures { result.now ≡ self.now }
    {
        &self.entries
    }

    /// Returns true if the peer has a key.
    pub fn known(&self, peer: &Peer) -> bool
        ensures { result ≡ is_known self.now peer.now }
    {
        self.entries.iter().any(|entry| entry.peer == *peer)
    }

    /// Returns the key that a peer's Long Term Key request names.
    pub fn answer(&self, peer: &Peer, random_number: [u8; 8], diversifier: u16) -> Option<&Key>
        // A request gets the one key that is for it, or none.
        ensures key { option_copied result
            ≡ key_asked_for self.now peer.now random_number diversifier }
        ensures only_one { count_by (is_for peer.now random_number diversifier) self.now ≤ 1 }
    {
        let entry = self
            .entries
            .iter()
            .find(|entry| entry.is_for(peer, random_number, diversifier))?;
        Some(&entry.key)
    }

    /// Returns the number of keys.
    pub fn count(&self) -> usize
        ensures count { result ≡ length self.now }
        ensures within { result ≤ MAX_ENTRIES }
    {
        self.entries.len()
    }

    /// Returns the peer of the key at an index from 0.
    pub fn peer(&self, at: usize) -> Option<&Peer>
        ensures { option_copied result ≡ peer_at self.now at }
    {
        Some(&self.entries.get(at)?.peer)
    }

    /// Returns the facts of the key at an index from 0.
    pub fn facts(&self, at: usize) -> Option<KeyFacts>
        ensures { result ≡ facts_at self.now at }
    {
        Some(self.entries.get(at)?.key.facts)
    }
}
