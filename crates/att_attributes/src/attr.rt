use att_policy::Guard;

/// The fixed part of an attribute (Core 5.0, Vol 3 Part F, 3.2). (P-TAB-1)
#[derive(Clone, Copy, PartialEq, Eq)]
pub struct Attr {
    /// The handle, from 1.
    pub handle: u16,
    /// The type as a 128-bit UUID; a 16-bit UUID is expanded (Core 5.0, Vol 3 Part B, 2.5.1).
    pub kind: u128,
    /// The largest length of the value in octets, at most `MAX_VALUE`.
    pub largest: u16,
    /// The value's length is fixed.
    pub fixed: bool,
    pub role: Role,
    pub guard: Guard,
}

/// The role of an attribute in a service (Core 5.0, Vol 3 Part G, 3).
#[derive(Clone, Copy, PartialEq, Eq)]
pub enum Role {
    /// Declaration of a service, include or characteristic.
    Declaration,
    Value,
    /// CCCD of the value before it. Each client has its own, so the table stores none.
    Configuration,
    /// Any other descriptor.
    Descriptor,
}
