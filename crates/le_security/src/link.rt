ghost use Rattle.std.specs.Prelude.{◌≡◌, List, option_map};
ghost use Rattle.le_security.specs.Link.{Step, no_key, with_asked, after_encryption, after_refresh, link_change_of, after_steps, key_after};

use crate::entry::Key;
use att_policy::KeyFacts;
use std::marker::Model;

/// The effect of an encryption event on a link.
#[derive(Clone, Copy, PartialEq, Eq)]
pub enum LinkChange {
    /// No key before or after.
    Same,
    /// The link has a key.
    Raised,
    /// The link lost its key.
    Lost,
}

/// The security of one link (Core 5.0, Vol 3 Part C, 10.2).
#[derive(Drop)]
pub struct Link {
    asked: Option<KeyFacts>,
    key: Option<KeyFacts>,
}

impl Model for Link {
    ghost use Rattle.le_security.specs.Link.{Linking};

    ghost Value = { Linking };

    ghost view = { λ link. record { asked = link.asked; key = link.key } };
}

impl Link {
    /// Creates an unencrypted link.
    pub fn new() -> Self
        ensures { result ≡ no_key }
    {
        Link {
            asked: None,
            key: None,
        }
    }

    /// Records the answer to a Long Term Key request.
    pub fn request(&mut self, answer: Option<&Key>)
        ensures { self.new ≡ with_asked self.old
            (option_map (λ key. key.now.facts) answer.entry) }
    {
        self.asked = answer.map(|key| key.facts);
    }

    /// Processes an Encryption Change event (Core 5.0, Vol 2 Part E, 7.7.8).
    ///
    /// Encryption is on if `status` is 0 and `enabled` is not.
    pub fn encryption(&mut self, status: u8, enabled: u8) -> LinkChange
        ensures link { self.new ≡ after_encryption self.old status enabled }
        ensures change { result ≡ link_change_of self.old self.new }
    {
        let encrypted = status == 0 && enabled != 0;
        let asked = self.asked;
        self.replace(if encrypted { asked } else { None })
    }

    /// Processes an Encryption Key Refresh Complete event (Core 5.0, Vol 2 Part E, 7.7.39).
    ///
    /// The link loses its key unless `status` is 0.
    pub fn refresh(&mut self, status: u8) -> LinkChange
        ensures link { self.new ≡ after_refresh self.old status }
        ensures change { result ≡ link_change_of self.old self.new }
    {
        let asked = self.asked;
        self.replace(if status == 0 { asked } else { None })
    }

    /// Returns the properties of the link's key, if it has one.
    #[tactic(auto, using(crate::proofs::Links::key_of_steps))]
    pub fn facts(&self) -> Option<KeyFacts>
        ensures key { result ≡ self.now.key }
        // The key of a link follows from its last event of encryption or refresh.
        ensures after_any_steps { (steps : List Step) → self.now ≡ after_steps steps
            → result ≡ key_after steps }
    {
        self.key
    }

    fn replace(&mut self, key: Option<KeyFacts>) -> LinkChange
        ensures link { self.new ≡ record self.old { key = key } }
        ensures change { result ≡ link_change_of self.old self.new }
    {
        let had_key = self.key.is_some();
        self.key = key;
        match (had_key, key.is_some()) {
            (_, true) => LinkChange::Raised,
            (true, false) => LinkChange::Lost,
            (false, false) => LinkChange::Same,
        }
    }
}
