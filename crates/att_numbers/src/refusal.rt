/// A refused request: the fields of an Error Response (Core 5.0, Vol 3 Part F, 3.4.1.1).
#[derive(Clone, Copy, Debug, PartialEq, Eq)]
pub struct Refusal {
    /// The request's opcode.
    pub opcode: u8,
    /// Handle of the attribute that caused the error, or 0.
    pub handle: u16,
    /// The error code.
    pub code: u8,
}
