ghost use Rattle.std.specs.Prelude.{⊤, ◌≡◌, ◌≤◌, [], ◌∷◌, codes};
ghost use Rattle.att_policy.specs.Policy.{configuration_bits_of};
ghost use Rattle.att_policy.specs.Need.{needs_encryption_of, needs_authentication_of, key_size_of};

use bitflags::{Flag, Flags, bitflag_items};

/// The characteristic properties that this profile supports (Core 5.0, Vol 3 Part G, 3.3.1.1).
#[derive(Clone, Copy, Debug, PartialEq, Eq)]
pub struct Properties(pub u8);

bitflag_items! {
    impl Properties: u8 {
        const READ = 0x02;
        const WRITE_WITHOUT_RESPONSE = 0x04;
        const WRITE = 0x08;
        const NOTIFY = 0x10;
        const INDICATE = 0x20;
    }
}

impl Flags for Properties {
    type Bits = u8;

    ghost exact = { ⊤ };

    ghost table = { (codes "READ", 0x02) ∷ (codes "WRITE_WITHOUT_RESPONSE", 0x04)
        ∷ (codes "WRITE", 0x08)
        ∷ (codes "NOTIFY", 0x10) ∷ (codes "INDICATE", 0x20) ∷ [] };

    ghost set_of = { λ properties. properties.0 };

    fn flags<'a>() -> &'a [Flag<Properties>] {
        Properties::FLAGS
    }

    fn bits(&self) -> u8 {
        self.0
    }

    fn from_bits_retain(bits: u8) -> Properties {
        Properties(bits)
    }
}

/// The CCCD bit for notifications (Core 5.0, Vol 3 Part G, 3.3.3.3).
const NOTIFICATION: u8 = 0x01;

/// The CCCD bit for indications.
pub const INDICATION: u8 = 0x02;

impl Properties {
    /// Returns the bits that the CCCD may have: 1 notifies, 2 indicates.
    pub fn configuration_bits(self) -> u8
        ensures bits { result ≡ configuration_bits_of self }
        ensures known { result ≤ 3 }
    {
        let mut bits = 0;
        if self.contains(Properties::NOTIFY) {
            bits |= NOTIFICATION;
        }
        if self.contains(Properties::INDICATE) {
            bits |= INDICATION;
        }
        bits
    }
}

/// The requirements for reading or writing an attribute.
///
/// A field need not repeat what another implies; the methods combine them.
#[derive(Clone, Copy, Debug, PartialEq, Eq)]
pub struct Need {
    pub encrypted: bool,
    /// Key exchange with protection against a man in the middle.
    pub authenticated: bool,
    /// Least key size, 7 to 16 octets.
    pub key_size: Option<u8>,
    /// Authorization by the user.
    pub authorized: bool,
    /// LE Secure Connections (security mode 1, level 4).
    pub secure: bool,
}

impl Need {
    pub const NONE: Need = Need {
        encrypted: false,
        authenticated: false,
        key_size: None,
        authorized: false,
        secure: false,
    };

    /// Returns true if the link must have a key.
    pub fn needs_encryption(&self) -> bool
        ensures { result ≡ needs_encryption_of self.now }
    {
        self.encrypted | self.authenticated | self.key_size.is_some() | self.secure
    }

    /// Returns true if the link's key must be authenticated.
    pub fn needs_authentication(&self) -> bool
        ensures { result ≡ needs_authentication_of self.now }
    {
        self.authenticated || self.secure
    }

    /// Returns the least size of the link's key in octets, 0 for any.
    pub fn least_key_size(&self) -> u8
        ensures { result ≡ key_size_of self.now }
    {
        if self.secure {
            16
        } else {
            self.key_size.unwrap_or(0)
        }
    }
}

/// The access rules of an attribute.
#[derive(Clone, Copy, Debug, PartialEq, Eq)]
pub struct Guard {
    pub properties: Properties,
    pub read: Need,
    pub write: Need,
}
