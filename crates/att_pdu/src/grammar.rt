ghost use Rattle.std.specs.Prelude.{◌≡◌, ◌+◌, ◌≤◌, ◌∷◌, length, IfOk};
ghost use Rattle.std.specs.Result.{result_map_both};
ghost use Rattle.att_pdu.specs.Request.{Asked, asked, spelled, HasOctetFields};
ghost use Rattle.att_pdu.specs.Grammar.{request_of, fault_of, is_due};

use crate::form;
use crate::request::Request;
use att_numbers::opcode;

/// The reason why a PDU is not served.
#[derive(Clone, Copy, Debug, PartialEq, Eq)]
pub enum PduFault {
    /// Ignored without a response: an empty PDU, a server's PDU, an unknown command, or a malformed
    /// or too long confirmation or Write Command.
    Ignored,
    /// A malformed or too long request: rejected with Invalid PDU.
    Invalid(u8),
    /// An unknown opcode that is no command: rejected with Request Not Supported at any length.
    Unsupported(u8),
}

/// Parses a PDU on a connection whose ATT_MTU is `mtu` octets.
///
/// The request borrows values and handles from the PDU.
#[inline(always)]
pub fn read_request(pdu: &[u8], mtu: u16) -> Result<Request<'_>, PduFault>
    // A PDU is read as the one request that it encodes at this ATT_MTU, or as the fault that
    // applies.
    ensures exact { result_map_both asked (λ fault. fault) result ≡ request_of pdu.now mtu }
    ensures spelled { IfOk result (λ request. spelled (asked request) ≡ pdu.now) }
    ensures within_mtu { IfOk result (λ _. length pdu.now ≤ mtu) }
    // Every well-formed request is accepted.
    ensures accepted { (request : Asked) → HasOctetFields request → spelled request ≡ pdu.now
        → length pdu.now ≤ mtu
        → request_of pdu.now mtu ≡ Ok request }
{
    let [opcode, parameters @ ..] = pdu else {
        return Err(PduFault::Ignored);
    };
    read_parameters(*opcode, parameters, mtu)
}

/// Parses a PDU whose opcode is already read; otherwise like `read_request`.
#[inline(always)]
pub fn read_parameters(opcode: u8, parameters: &[u8], mtu: u16) -> Result<Request<'_>, PduFault>
    ensures exact { result_map_both asked (λ fault. fault) result
        ≡ request_of (opcode ∷ parameters.now) mtu }
    ensures spelled { IfOk result (λ request. spelled (asked request) ≡ opcode ∷ parameters.now) }
    ensures within_mtu { IfOk result (λ _. 1 + length parameters.now ≤ mtu) }
{
    if 1 + parameters.len() > usize::from(mtu) {
        return Err(fault_of(opcode));
    }
    match form::request(opcode, parameters) {
        Some(request) => Ok(request),
        None => Err(fault_of(opcode)),
    }
}

/// Returns the fault of a PDU with this opcode that is no valid request.
#[tactic(auto, unfolding(crate::specs::Grammar::fault_of))]
pub fn fault_of(opcode: u8) -> PduFault
    ensures fault { result ≡ fault_of opcode }
{
    match opcode {
        opcode::EXCHANGE_MTU_REQUEST
        | opcode::FIND_INFORMATION_REQUEST
        | opcode::FIND_BY_TYPE_VALUE_REQUEST
        | opcode::READ_BY_TYPE_REQUEST
        | opcode::READ_REQUEST
        | opcode::READ_BLOB_REQUEST
        | opcode::READ_MULTIPLE_REQUEST
        | opcode::READ_BY_GROUP_TYPE_REQUEST
        | opcode::WRITE_REQUEST
        | opcode::PREPARE_WRITE_REQUEST
        | opcode::EXECUTE_WRITE_REQUEST => PduFault::Invalid(opcode),
        opcode::ERROR_RESPONSE
        | opcode::EXCHANGE_MTU_RESPONSE
        | opcode::FIND_INFORMATION_RESPONSE
        | opcode::FIND_BY_TYPE_VALUE_RESPONSE
        | opcode::READ_BY_TYPE_RESPONSE
        | opcode::READ_RESPONSE
        | opcode::READ_BLOB_RESPONSE
        | opcode::READ_MULTIPLE_RESPONSE
        | opcode::READ_BY_GROUP_TYPE_RESPONSE
        | opcode::WRITE_RESPONSE
        | opcode::PREPARE_WRITE_RESPONSE
        | opcode::EXECUTE_WRITE_RESPONSE
        | opcode::HANDLE_VALUE_NOTIFICATION
        | opcode::HANDLE_VALUE_INDICATION => PduFault::Ignored,
        // A separate arm: the compiler would otherwise test a range after the jump.
        opcode::HANDLE_VALUE_CONFIRMATION => PduFault::Ignored,
        command if command & opcode::COMMAND_FLAG != 0 => PduFault::Ignored,
        unknown => PduFault::Unsupported(unknown),
    }
}

/// Returns true if the server must respond to a PDU. `mtu` is the ATT_MTU in octets.
#[inline(never)]
pub fn answer_due(pdu: &[u8], mtu: u16) -> bool
    ensures { result ≡ is_due (request_of pdu.now mtu) }
{
    match read_request(pdu, mtu) {
        Ok(Request::Confirmation | Request::WriteCommand { .. }) => false,
        Ok(_) => true,
        Err(PduFault::Ignored) => false,
        Err(PduFault::Invalid(_) | PduFault::Unsupported(_)) => true,
    }
}
