ghost use Rattle.std.specs.Prelude.{◌≡◌, IfSome, false};
ghost use Rattle.std.specs.Option.{option_map};
ghost use Rattle.le_l2cap.specs.SignallingCommand.{Command, command_spelled, is_ignored_code, rejected_identifier, command_reject, IsRejected, HasCommandFields};

/// Codes of signalling commands (Core 5.0, Vol 3 Part A, 4).
const COMMAND_REJECT: u8 = 0x01;

const DISCONNECTION_RESPONSE: u8 = 0x07;

const CONNECTION_PARAMETER_UPDATE_RESPONSE: u8 = 0x13;

const LE_CREDIT_BASED_CONNECTION_RESPONSE: u8 = 0x15;

const LE_FLOW_CONTROL_CREDIT: u8 = 0x16;

/// Response to a command that this end does not understand.
#[derive(Clone, Copy, Debug, PartialEq, Eq)]
pub struct Reject {
    /// Identifier of the command.
    pub id: u8,
}

impl Reject {
    /// Returns the payload: Command Reject with reason Command Not Understood (Core 5.0, Vol 3 Part
    /// A, 4.1).
    pub fn octets(self) -> [u8; 6]
        ensures { result ≡ command_reject self.id }
    {
        [COMMAND_REJECT, self.id, 0x02, 0x00, 0x00, 0x00]
    }
}

/// Returns the response to a payload of the signalling channel.
///
/// Returns `None` if the payload is not one whole command, has the identifier 0, or responds to a
/// command that was never sent.
pub fn signalling(payload: &[u8]) -> Option<Reject>
    // One whole command is rejected by its identifier, unless it is ignored.
    ensures exact { option_map (λ reject. reject.id) result ≡ rejected_identifier payload.now }
    ensures rejected { IfSome result (λ reject. IsRejected payload.now reject.id) }
    // Every other command has a response.
    ensures answered { (command : Command) → HasCommandFields command → command_spelled command
        ≡ payload.now
        → is_ignored_code command.code ≡ false → rejected_identifier payload.now
        ≡ Some command.identifier }
{
    let [code, id, length_low, length_high, data @ ..] = payload else {
        return None;
    };
    let length = u16::from_le_bytes([*length_low, *length_high]);
    if data.len() != usize::from(length) || *id == 0 || is_ignored(*code) {
        return None;
    }
    Some(Reject { id: *id })
}

/// Returns true if a command needs no response.
fn is_ignored(code: u8) -> bool
    ensures { result ≡ is_ignored_code code }
{
    matches!(
        code,
        COMMAND_REJECT
            | DISCONNECTION_RESPONSE
            | CONNECTION_PARAMETER_UPDATE_RESPONSE
            | LE_CREDIT_BASED_CONNECTION_RESPONSE
            | LE_FLOW_CONTROL_CREDIT
    )
}
