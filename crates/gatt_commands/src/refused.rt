//! Refusals of a line of a script.

/// The actor that refused a line, with the number of the fault.
#[derive(Clone, Copy)]
pub enum Refused {
    /// The host refused a call of the application.
    Call(u8),
    /// The controller refused an act of a client.
    Act { phone: u8, number: u8 },
}
