//! Example table files, the same as in `examples/`.

/// A door lock, `examples/door.toml`.
pub const DOOR: &str = r#"# The table of an example door lock.
[[service]]
uuid = "1800"
[[service.characteristic]]
uuid = "2a00"
value = "4c6f636b"
properties = ["read"]

[[service]]
uuid = "180f"
[[service.characteristic]]
uuid = "2a19"
value = "64"
fixed = true
properties = ["read", "notify"]

[[service]]
uuid = "fff0"
[[service.characteristic]]
uuid = "fff1"
value = "00"
fixed = true
properties = ["read", "write", "notify"]
read = { encrypted = true }
write = { authenticated = true }
config = { encrypted = true }
[[service.characteristic]]
uuid = "fff2"
value = "31323334"
max = 8
properties = ["read", "write"]
read = { authenticated = true, key_size = 16, authorized = true }
write = { authenticated = true, key_size = 16, authorized = true }
[[service.characteristic]]
uuid = "fff3"
value = "01"
properties = ["read"]
[[service.characteristic]]
uuid = "fff3"
value = "02"
properties = ["read"]
read = { encrypted = true }
[[service.characteristic]]
uuid = "fff3"
value = "03"
properties = ["read"]
[[service.characteristic]]
uuid = "fff4"
value = ""
max = 512
properties = ["read", "write", "command"]
"#;

/// A bell, `examples/bell.toml`.
pub const BELL: &str = r#"# The table of an example door bell.
[[service]]
uuid = "fff8"
[[service.characteristic]]
uuid = "fff9"
value = "00"
properties = ["read", "notify", "indicate"]
[[service.characteristic]]
uuid = "12345678-9abc-def0-0123-456789abcdef"
value = "07"
properties = ["indicate"]

[[service]]
uuid = "fffa"
secondary = true
include = [0]
"#;

/// A letter box, `examples/post.toml`.
pub const POST: &str =
    r#"# The table of an example letter box: its count is for authorized connections alone.
[[service]]
uuid = "fffb"
[[service.characteristic]]
uuid = "fffc"
value = "00"
properties = ["read", "notify", "indicate"]
read = { authorized = true }
"#;

/// A porch light, `examples/porch.toml`.
pub const PORCH: &str =
    r#"# The table of an example porch light, which may be replaced while phones are connected.
[[service]]
uuid = "1801"
[[service.characteristic]]
uuid = "2a05"
value = "00000000"
fixed = true
properties = ["indicate"]

[[service]]
uuid = "fff0"
[[service.characteristic]]
uuid = "fff1"
value = "00"
fixed = true
properties = ["read", "notify"]
[[service.characteristic]]
uuid = "fff4"
value = ""
max = 16
properties = ["read", "write"]
"#;

/// A replacement for the porch light's table, `examples/porch_next.toml`.
pub const PORCH_NEXT: &str = r#"# The table that replaces that of the porch light.
[[service]]
uuid = "1801"
[[service.characteristic]]
uuid = "2a05"
value = "00000000"
fixed = true
properties = ["indicate"]

[[service]]
uuid = "fff0"
[[service.characteristic]]
uuid = "fff2"
value = "00"
fixed = true
properties = ["read", "notify"]
[[service.characteristic]]
uuid = "fff4"
value = ""
max = 16
properties = ["read", "write"]
"#;
