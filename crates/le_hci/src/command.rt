ghost use Rattle.std.specs.Prelude.{◌≡◌};
ghost use Rattle.le_hci.specs.Command.{command_of, opcode_of};

use crate::opcode;
use arrayvec::ArrayVec;

/// Events to report: the default, bits 47 (Encryption Key Refresh Complete) and 61 (LE Meta) (Core
/// 5.0, Vol 2 Part E, 7.3.1).
pub const EVENT_MASK: u64 = 0x2000_9FFF_FFFF_FFFF;
/// LE Meta subevents to report: the default (Core 5.0, Vol 2 Part E, 7.8.1).
pub const LE_EVENT_MASK: u64 = 0x0000_0000_0000_001F;
/// Maximum octets of advertising data (Core 5.0, Vol 2 Part E, 7.8.7).
pub const MAX_ADVERTISING_DATA: usize = 31;

/// A command to the controller (Core 5.0, Vol 2 Part E, 7).
#[derive(Clone, Copy)]
pub enum Command<'a> {
    /// Controller reset (7.3.2).
    Reset,
    /// Mask of the events to report (7.3.1).
    SetEventMask {
        mask: u64,
    },
    /// Query of the ACL buffers of all transports (7.4.5).
    ReadBufferSize,
    /// End of a connection (7.1.6).
    Disconnect {
        handle: u16,
        reason: u8,
    },
    /// Mask of the LE Meta subevents to report (7.8.1).
    LeSetEventMask {
        mask: u64,
    },
    /// Query of the ACL buffers of LE connections (7.8.2).
    LeReadBufferSize,
    /// Random address, in wire order (7.8.4).
    LeSetRandomAddress {
        address: [u8; 6],
    },
    /// Advertising to any device, on all three channels, every 100 milliseconds (7.8.5).
    LeSetAdvertisingParameters {
        /// 0 public, 1 random.
        own_address_type: u8,
    },
    /// Advertising data (7.8.7).
    LeSetAdvertisingData {
        advertising: &'a ArrayVec<u8, MAX_ADVERTISING_DATA>,
    },
    /// Start of advertising (7.8.9).
    LeSetAdvertiseEnable,
    /// Key of a connection, in wire order (7.8.25).
    LeLongTermKeyRequestReply {
        handle: u16,
        key: [u8; 16],
    },
    /// Response that there is no such key (7.8.26).
    LeLongTermKeyRequestNegativeReply {
        handle: u16,
    },
}

impl Command<'_> {
    /// Returns the opcode, which Command Complete and Command Status contain.
    pub fn opcode(&self) -> u16
        ensures { result ≡ opcode_of (command_of self.now) }
    {
        match self {
            Command::Reset => opcode::RESET,
            Command::SetEventMask { .. } => opcode::SET_EVENT_MASK,
            Command::ReadBufferSize => opcode::READ_BUFFER_SIZE,
            Command::Disconnect { .. } => opcode::DISCONNECT,
            Command::LeSetEventMask { .. } => opcode::LE_SET_EVENT_MASK,
            Command::LeReadBufferSize => opcode::LE_READ_BUFFER_SIZE,
            Command::LeSetRandomAddress { .. } => opcode::LE_SET_RANDOM_ADDRESS,
            Command::LeSetAdvertisingParameters { .. } => opcode::LE_SET_ADVERTISING_PARAMETERS,
            Command::LeSetAdvertisingData { .. } => opcode::LE_SET_ADVERTISING_DATA,
            Command::LeSetAdvertiseEnable => opcode::LE_SET_ADVERTISE_ENABLE,
            Command::LeLongTermKeyRequestReply { .. } => opcode::LE_LONG_TERM_KEY_REQUEST_REPLY,
            Command::LeLongTermKeyRequestNegativeReply { .. } => {
                opcode::LE_LONG_TERM_KEY_REQUEST_NEGATIVE_REPLY
            }
        }
    }
}
