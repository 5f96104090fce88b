ghost use Rattle.std.specs.Prelude.{◌≡◌, ◌+◌, ◌≤◌, [], ◌∷◌, ◌++◌, ◌-◌, length, replicate};
ghost use Rattle.arrayvec.specs.ArrayVec.{array_vec_len};
ghost use Rattle.le_hci.specs.Command.{command_of, packet_of, command_packet, advertising_data, key_reply, advertising_parameters};
ghost use Rattle.octet_io.specs.Number.{two_octets};
ghost use Rattle.le_hci.specs.declared.command.TheConstants.{MAX_ADVERTISING_DATA};
ghost use Rattle.le_hci.specs.declared.command_packet.TheConstants.{COMMAND_ROOM, MAX_COMMAND, MAX_PARAMETERS};

use crate::command::{Command, MAX_ADVERTISING_DATA};
use arrayvec::ArrayVec;

/// Octets of the opcode and the parameter length.
const HEADER: usize = 3;

/// Maximum octets of parameters (Core 5.0, Vol 2 Part E, 5.4.1).
const MAX_PARAMETERS: usize = 255;

/// Maximum octets of a command packet, from its opcode on.
pub const MAX_COMMAND: usize = HEADER + MAX_PARAMETERS;

/// Capacity for a packet to the controller: ACL data is the longest.
pub const COMMAND_ROOM: usize = 260;

/// Writes a command packet, from its opcode on, to `out` (Core 5.0, Vol 2 Part E, 5.4.1).
pub fn write_command(command: &Command<'_>, out: &mut ArrayVec<u8, COMMAND_ROOM>)
    // The command has the octets of the definition.
    ensures packet { out.new.items ≡ packet_of (command_of command.now) }
    ensures fits { length out.new.items ≤ MAX_COMMAND }
{
    let opcode = command.opcode();
    match command {
        Command::Reset | Command::ReadBufferSize | Command::LeReadBufferSize => {
            write_packet(opcode, &[], out);
        }
        Command::SetEventMask { mask } | Command::LeSetEventMask { mask } => {
            write_packet(opcode, &mask.to_le_bytes(), out);
        }
        Command::Disconnect { handle, reason } => {
            let [low, high] = handle.to_le_bytes();
            write_packet(opcode, &[low, high, *reason], out);
        }
        Command::LeSetRandomAddress { address } => write_packet(opcode, address, out),
        Command::LeSetAdvertisingParameters { own_address_type } => {
            write_advertising_parameters(opcode, *own_address_type, out);
        }
        Command::LeSetAdvertisingData { advertising } => {
            write_advertising_data(opcode, advertising, out);
        }
        Command::LeSetAdvertiseEnable => write_packet(opcode, &[ENABLE], out),
        Command::LeLongTermKeyRequestReply { handle, key } => {
            write_key_reply(opcode, *handle, key, out);
        }
        Command::LeLongTermKeyRequestNegativeReply { handle } => {
            write_packet(opcode, &handle.to_le_bytes(), out);
        }
    }
}

/// Parameter of LE Set Advertise Enable (7.8.9).
const ENABLE: u8 = 0x01;

fn write_packet(opcode: u16, parameters: &[u8], out: &mut ArrayVec<u8, COMMAND_ROOM>)
    requires { length parameters.now ≤ MAX_PARAMETERS }
    ensures packet { out.new.items ≡ command_packet opcode parameters.now }
    ensures fits { length out.new.items ≤ MAX_COMMAND }
{
    write_header(opcode, parameters.len() as u8, out);
    append(parameters, out);
}

fn write_header(opcode: u16, length: u8, out: &mut ArrayVec<u8, COMMAND_ROOM>)
    ensures { out.new.items ≡ two_octets opcode ++ length ∷ [] }
{
    let [low, high] = opcode.to_le_bytes();
    out.clear();
    append(&[low, high, length], out);
}

fn append(octets: &[u8], out: &mut ArrayVec<u8, COMMAND_ROOM>)
    requires { array_vec_len out.old + length octets.now ≤ COMMAND_ROOM }
    ensures { out.new.items ≡ out.old.items ++ octets.now }
{
    out.try_extend_from_slice(octets).unwrap();
}

/// Writes LE Set Advertising Parameters (7.8.5).
fn write_advertising_parameters(
    opcode: u16,
    own_address_type: u8,
    out: &mut ArrayVec<u8, COMMAND_ROOM>,
)
    ensures packet { out.new.items
        ≡ command_packet opcode (advertising_parameters own_address_type) }
    ensures fits { length out.new.items ≤ MAX_COMMAND }
{
    let parameters = [
        0xA0,
        0x00, // the least interval, in units of 0.625 milliseconds
        0xA0,
        0x00, // the largest interval
        0x00, // connectable and scannable undirected advertising
        own_address_type,
        0x00,
        0x00,
        0x00,
        0x00,
        0x00,
        0x00,
        0x00, // no peer
        0x07, // all three channels
        0x00, // any device may scan and connect
    ];
    write_packet(opcode, &parameters, out);
}

/// Writes LE Set Advertising Data, padded to 31 octets (7.8.7).
fn write_advertising_data(
    opcode: u16,
    advertising: &ArrayVec<u8, MAX_ADVERTISING_DATA>,
    out: &mut ArrayVec<u8, COMMAND_ROOM>,
)
    ensures packet { out.new.items
        ≡ command_packet opcode (advertising_data advertising.now.items) }
    ensures fits { length out.new.items ≤ MAX_COMMAND }
{
    let octets = advertising.as_slice();
    write_header(opcode, (1 + MAX_ADVERTISING_DATA) as u8, out);
    append(&[octets.len() as u8], out);
    append(octets, out);
    fill_up(octets.len(), out);
}

fn fill_up(length: usize, out: &mut ArrayVec<u8, COMMAND_ROOM>)
    requires shorter { length ≤ MAX_ADVERTISING_DATA }
    requires room { array_vec_len out.old + MAX_ADVERTISING_DATA ≤ COMMAND_ROOM + length }
    ensures { out.new.items ≡ out.old.items ++ replicate (MAX_ADVERTISING_DATA - length) 0x00 }
{
    append(&[0x00; MAX_ADVERTISING_DATA][length..], out);
}

/// Writes LE Long Term Key Request Reply (7.8.25).
fn write_key_reply(opcode: u16, handle: u16, key: &[u8; 16], out: &mut ArrayVec<u8, COMMAND_ROOM>)
    ensures packet { out.new.items ≡ command_packet opcode (key_reply handle key.now) }
    ensures fits { length out.new.items ≤ MAX_COMMAND }
{
    write_header(opcode, 18, out);
    append(&handle.to_le_bytes(), out);
    append(key, out);
}
