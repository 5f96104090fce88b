//! Example key files, the same as in `examples/`.

/// The keys of the door lock, `examples/keys.toml`.
pub const KEYS: &str =
    r#"# The keys of the example door lock: one of the owner's phone, and two of a tablet.
[[key]]
address = "c0:00:00:00:00:01"
kind = "random"
rand = "0101010101010101"
ediv = 257
ltk = "00112233445566778899aabbccddeeff"
size = 16
authenticated = false

[[key]]
address = "00:11:22:33:44:55"
kind = "public"
rand = "0202020202020202"
ediv = 514
ltk = "ffeeddccbbaa99887766554433221100"
size = 16
authenticated = true

[[key]]
address = "00:11:22:33:44:55"
kind = "public"
rand = "0303030303030303"
ediv = 771
ltk = "a1a2a3a4a5a6a7000000000000000000"
size = 7
authenticated = true
"#;

/// An LE Secure Connections key, `examples/secure_key.toml`.
pub const SECURE_KEY: &str =
    r#"# A key of LE Secure Connections, which a server may ask for beside the keys of the door lock.
[[key]]
address = "c0:00:00:00:00:02"
kind = "random"
rand = "0000000000000000"
ediv = 0
ltk = "0f0e0d0c0b0a09080706050403020100"
size = 16
authenticated = true
secure = true
"#;
