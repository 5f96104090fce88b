//! Texts of initialisation faults.

use crate::init::InitFault;
use crate::opcode;
use std::error::Error;
use std::fmt;

impl fmt::Display for InitFault {
    fn fmt<W: fmt::Write>(&self, f: &mut fmt::Formatter<W>) -> fmt::Result {
        match self {
            InitFault::Refused(opcode, status) => {
                let name = command_name(*opcode);
                write!(
                    f,
                    "the controller answered {name} with the status {status:02x}"
                )
            }
            InitFault::BadBuffers => {
                f.write_str("the controller has no buffer of 27 octets or more for ACL data")
            }
            InitFault::Short => f.write_str("the controller's answer is too short for its command"),
        }
    }
}

impl Error for InitFault {}

/// Returns the name of an initialisation command (Core 5.0, Vol 2 Part E, 7).
fn command_name(opcode: u16) -> &'static str {
    match opcode {
        opcode::RESET => "Reset",
        opcode::SET_EVENT_MASK => "Set Event Mask",
        opcode::READ_BUFFER_SIZE => "Read Buffer Size",
        opcode::LE_SET_EVENT_MASK => "LE Set Event Mask",
        opcode::LE_READ_BUFFER_SIZE => "LE Read Buffer Size",
        opcode::LE_SET_RANDOM_ADDRESS => "LE Set Random Address",
        opcode::LE_SET_ADVERTISING_PARAMETERS => "LE Set Advertising Parameters",
        opcode::LE_SET_ADVERTISING_DATA => "LE Set Advertising Data",
        opcode::LE_SET_ADVERTISE_ENABLE => "LE Set Advertise Enable",
        _ => "a command",
    }
}
