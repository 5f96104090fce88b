//! The texts of statuses.

ghost use Rattle.std.specs.Prelude.{◌≡◌, is_some};
ghost use Rattle.gihandop_c.specs.Statuses.{is_status};

/// Statuses of the library itself, from 0.
const LIBRARY: &[&str] = &[
    "done",
    "there is nothing to hand out",
    "no host is open",
    "a host is open already",
    "packets have to go out first",
    "the buffer is too short",
    "memory was refused",
    "the configuration is out of its limits",
    "a structure is smaller than that of the library",
];

/// Faults of a stopped host, from 21.
const HOST: &[&str] = &[
    "host: an octet begins no packet",
    "host: an event is too short for its fields, or has another length than it states",
    "host: the controller could not be initialised",
    "host: the controller reports an error of its own",
];

/// Reasons for a refused call, from 41.
const CALLS: &[&str] = &[
    "there is no attribute with the handle",
    "it is no characteristic value",
    "the value is longer than its largest length, or a fixed one has another length",
    "no connection with the handle serves",
    "the time is earlier than the current time",
    "the host has stopped",
    "a table has no value that tells of changes, or they have it at different handles",
];

/// Faults of a table file, from 101.
const TABLE: &[&str] = &[
    "table: it is not TOML",
    "table: a key that has to be there is not",
    "table: this is no UUID, or this UUID is not allowed here",
    "table: a value is not an even number of hexadecimal digits",
    "table: a value of more than 512 octets, or a max out of its range",
    "table: a need with a key_size out of its range, or with another key",
    "table: a property that is unknown or not allowed there, or a config with nothing to configure",
    "table: more attributes, configurations or octets than a table may have",
    "table: an include of a service that is not before it",
    "table: memory was refused",
    "table: a key that is unknown, or of another TOML type than its own",
];

/// Faults of a key file, from 201.
const KEYS: &[&str] = &[
    "keys: it is not TOML",
    "keys: a key that has to be there is not",
    "keys: an address or a kind is none",
    "keys: a rand or an ltk is not that many hexadecimal digits",
    "keys: a size is out of its range",
    "keys: an earlier entry has the same peer, rand and ediv",
    "keys: more than 64 entries",
    "keys: memory was refused",
    "keys: a key that is unknown, or of another TOML type than its own",
    "keys: a secure key with another rand or ediv than 0",
];

/// Faults of a subscriptions file, from 301.
const ROWS: &[&str] = &[
    "rows: a line says nothing that a rows file may say",
    "rows: a line says what an earlier one has said",
    "rows: more of them than a rows file may have",
    "rows: memory was refused",
];

/// Faults of a values text, from 401.
const VALUES: &[&str] = &[
    "values: a line is not a handle, a type, and octets in hexadecimal or `-`",
];

/// Returns the meaning of a status in ASCII, or `None` if no function returns it.
pub(crate) fn text(status: u32) -> Option<&'static str>
    ensures { is_some result ≡ is_status status }
{
    match status {
        0..=8 => Some(LIBRARY[status as usize]),
        21..=24 => Some(HOST[status as usize - 21]),
        41..=47 => Some(CALLS[status as usize - 41]),
        101..=111 => Some(TABLE[status as usize - 101]),
        201..=210 => Some(KEYS[status as usize - 201]),
        301..=304 => Some(ROWS[status as usize - 301]),
        401..=401 => Some(VALUES[status as usize - 401]),
        _ => None,
    }
}
