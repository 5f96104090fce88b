//! Maximum sizes of a table: this profile's own unless a source is named.

/// Octets of a value (Core 5.0, Vol 3 Part F, 3.2.9).
pub const MAX_VALUE: usize = 512;

/// Octets of a declaration with a 128-bit UUID (Core 5.0, Vol 3 Part G, 3.3.1).
pub const MAX_DECLARATION: usize = 19;

/// Number of attributes, and highest handle.
pub const MAX_ATTRIBUTES: usize = 1_024;

/// Number of client characteristic configurations.
pub const MAX_CONFIGURATIONS: usize = 64;

/// Octets of all values, each at its maximum length, without declarations.
pub const MAX_VALUES_OCTETS: usize = 65_536;

/// Octets of all values and declarations.
pub const MAX_TABLE_OCTETS: usize = MAX_VALUES_OCTETS + MAX_DECLARATION * MAX_ATTRIBUTES;
