ghost use Rattle.std.specs.Prelude.{◌≡◌, if◌then◌else◌, Some, None};
ghost use Rattle.std.specs.Option.{option_map};
ghost use Rattle.sim_controller.specs.FromHost.{host_packet_of, taken_of, asked_by_command, asked_by_parameters, command_in, data_in};

use le_acl::boundary::{CONTINUATION, FIRST_NOT_FLUSHED};
use le_h4::indicator;
use le_hci::opcode;

/// A command, as far as it matters to a simulated controller.
#[derive(Clone, Copy)]
pub(crate) enum Asked {
    /// Command that returns only a status.
    Status { opcode: u16 },
    ReadBufferSize,
    LeReadBufferSize,
    Advertise { enable: bool },
    Disconnect { handle: u16, reason: u8 },
    GiveKey { handle: u16 },
    RefuseKey { handle: u16 },
}

#[derive(Clone, Copy)]
pub(crate) enum HostPacket<'a> {
    Command(Asked),
    /// Fragment that begins a frame on a connection, or continues one.
    Data {
        handle: u16,
        begins: bool,
        octets: &'a [u8],
    },
}

/// Reads a packet of the host, from its indicator on.
pub(crate) fn read(octets: &[u8]) -> Option<HostPacket<'_>>
    ensures { option_map taken_of result ≡ host_packet_of octets.now }
{
    let [indicator, rest @ ..] = octets else {
        return None;
    };
    match *indicator {
        indicator::COMMAND => Some(HostPacket::Command(read_command(rest)?)),
        indicator::ACL => read_data(rest),
        _ => None,
    }
}

/// Reads a command packet, from its opcode on (Core 5.0, Vol 2 Part E, 5.4.1).
fn read_command(octets: &[u8]) -> Option<Asked>
    ensures { result ≡ command_in octets.now }
{
    let [low, high, size, parameters @ ..] = octets else {
        return None;
    };
    if parameters.len() != usize::from(*size) {
        return None;
    }
    read_asked(u16::from_le_bytes([*low, *high]), parameters)
}

#[tactic(auto, unfolding(crate::specs::FromHost::asked_by_command))]
fn read_asked(opcode: u16, parameters: &[u8]) -> Option<Asked>
    ensures { result ≡ asked_by_command opcode parameters.now }
{
    match opcode {
        opcode::RESET => status_if(parameters.is_empty(), opcode),
        opcode::SET_EVENT_MASK => status_if(parameters.len() == 8, opcode),
        opcode::LE_SET_EVENT_MASK => status_if(parameters.len() == 8, opcode),
        opcode::LE_SET_RANDOM_ADDRESS => status_if(parameters.len() == 6, opcode),
        opcode::LE_SET_ADVERTISING_PARAMETERS => status_if(parameters.len() == 15, opcode),
        opcode::LE_SET_ADVERTISING_DATA => status_if(parameters.len() == 32, opcode),
        _ => read_parameters(opcode, parameters),
    }
}

fn read_parameters(opcode: u16, parameters: &[u8]) -> Option<Asked>
    ensures { result ≡ asked_by_parameters opcode parameters.now }
{
    match opcode {
        opcode::READ_BUFFER_SIZE => match parameters {
            [] => Some(Asked::ReadBufferSize),
            _ => None,
        },
        opcode::LE_READ_BUFFER_SIZE => match parameters {
            [] => Some(Asked::LeReadBufferSize),
            _ => None,
        },
        opcode::LE_SET_ADVERTISE_ENABLE => match parameters {
            [enable] => Some(Asked::Advertise {
                enable: *enable == 1,
            }),
            _ => None,
        },
        opcode::DISCONNECT => match parameters {
            [low, high, reason] => Some(Asked::Disconnect {
                handle: u16::from_le_bytes([*low, *high]),
                reason: *reason,
            }),
            _ => None,
        },
        opcode::LE_LONG_TERM_KEY_REQUEST_REPLY => match parameters {
            [low, high, key @ ..] if key.len() == 16 => Some(Asked::GiveKey {
                handle: u16::from_le_bytes([*low, *high]),
            }),
            _ => None,
        },
        opcode::LE_LONG_TERM_KEY_REQUEST_NEGATIVE_REPLY => match parameters {
            [low, high] => Some(Asked::RefuseKey {
                handle: u16::from_le_bytes([*low, *high]),
            }),
            _ => None,
        },
        _ => None,
    }
}

fn status_if(fits: bool, opcode: u16) -> Option<Asked>
    ensures { result ≡ (if fits then Some (Asked.Status opcode) else None) }
{
    if fits {
        Some(Asked::Status { opcode })
    } else {
        None
    }
}

/// Reads an ACL packet, from its handle on (Core 5.0, Vol 2 Part E, 5.4.2).
fn read_data(octets: &[u8]) -> Option<HostPacket<'_>>
    ensures { option_map taken_of result ≡ data_in octets.now }
{
    let [low, high, size_low, size_high, octets @ ..] = octets else {
        return None;
    };
    if octets.len() != usize::from(u16::from_le_bytes([*size_low, *size_high])) {
        return None;
    }
    let field = u16::from_le_bytes([*low, *high]);
    let handle = field & 0x0FFF;
    match field >> 12 {
        FIRST_FRAGMENT => Some(HostPacket::Data {
            handle,
            begins: true,
            octets,
        }),
        NEXT_FRAGMENT => Some(HostPacket::Data {
            handle,
            begins: false,
            octets,
        }),
        _ => None,
    }
}

/// Packet boundary flags of fragments from the host, with broadcast flag 00 (Core 5.0, Vol 2 Part
/// E, 5.4.2).
const FIRST_FRAGMENT: u16 = FIRST_NOT_FLUSHED as u16;

const NEXT_FRAGMENT: u16 = CONTINUATION as u16;
