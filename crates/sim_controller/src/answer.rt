ghost use Rattle.std.specs.Prelude.{◌≡◌, ◌<◌, length};
ghost use Rattle.sim_controller.specs.Answers.{completion, answer_to_command};

use crate::command::Asked;
use crate::config::SimConfig;
use crate::told::Told;
use arrayvec::ArrayVec;
use le_hci::opcode;

/// Status of a successful command (Core 5.0, Vol 2 Part D, 1.3).
const SUCCESS: u8 = 0x00;

/// Returns the response to a command, whether its client is connected or not.
pub(crate) fn answer_to(config: &SimConfig, asked: Asked) -> Told
    ensures { result ≡ answer_to_command config.now asked }
{
    match asked {
        Asked::Status { opcode } => completion(opcode, &[]),
        Asked::ReadBufferSize => {
            let [low, high] = config.acl_len.to_le_bytes();
            let [packets_low, packets_high] = u16::from(config.packets).to_le_bytes();
            let returned = [low, high, 0, packets_low, packets_high, 0, 0];
            completion(opcode::READ_BUFFER_SIZE, &returned)
        }
        Asked::LeReadBufferSize if config.shared => completion(
            opcode::LE_READ_BUFFER_SIZE,
            &[0, 0, 0],
        ),
        Asked::LeReadBufferSize => {
            let [low, high] = config.acl_len.to_le_bytes();
            completion(opcode::LE_READ_BUFFER_SIZE, &[low, high, config.packets])
        }
        Asked::Advertise { .. } => completion(opcode::LE_SET_ADVERTISE_ENABLE, &[]),
        Asked::Disconnect { .. } => Told::CommandStatus {
            opcode: opcode::DISCONNECT,
        },
        Asked::GiveKey { handle } => {
            completion(
                opcode::LE_LONG_TERM_KEY_REQUEST_REPLY,
                &handle.to_le_bytes(),
            )
        }
        Asked::RefuseKey { handle } => {
            completion(
                opcode::LE_LONG_TERM_KEY_REQUEST_NEGATIVE_REPLY,
                &handle.to_le_bytes(),
            )
        }
    }
}

/// Returns a Command Complete with at most 7 octets after its status.
fn completion(opcode: u16, returned: &[u8]) -> Told
    requires { length returned.now < 8 }
    ensures { result ≡ completion opcode returned.now }
{
    let mut parameters = ArrayVec::new();
    parameters.push(SUCCESS);
    parameters.try_extend_from_slice(returned).unwrap();
    Told::CommandComplete { opcode, parameters }
}
