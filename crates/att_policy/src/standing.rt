/// The properties of the key that encrypts a link.
#[derive(Clone, Copy, Debug, PartialEq, Eq)]
pub struct KeyFacts {
    /// Key size, 7 to 16 octets.
    pub size: u8,
    /// Key exchange with protection against a man in the middle.
    pub authenticated: bool,
    /// Made by LE Secure Connections.
    pub secure: bool,
}

/// The facts about a connection that the policy uses.
#[derive(Clone, Copy, Debug, PartialEq, Eq)]
pub struct Standing {
    /// The link's key, if the link is encrypted.
    pub key: Option<KeyFacts>,
    /// A key of the peer is provisioned, so the peer could encrypt the link.
    pub key_known: bool,
    /// End of the authorization in milliseconds: 0 for never, `u64::MAX` for practically unlimited.
    pub until: u64,
    /// The time in milliseconds.
    pub now: u64,
}
