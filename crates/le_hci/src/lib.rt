//! Host Controller Interface (HCI) of an LE peripheral.
#![tactic(auto)]

mod buffers;
mod command;
mod command_packet;
mod connection;
mod event;
pub mod event_code;
mod event_form;
mod init;
mod init_words;
pub mod opcode;
mod peer;
pub mod reason;

pub use buffers::Buffers;
pub use command::{Command, EVENT_MASK, LE_EVENT_MASK, MAX_ADVERTISING_DATA};
pub use command_packet::{COMMAND_ROOM, MAX_COMMAND, write_command};
pub use connection::{LAST_CONNECTION_HANDLE, PERIPHERAL};
pub use event::{BadEvent, CompletedPackets, Event, read_event};
pub use init::{Init, InitFault, Settings};
pub use peer::{PUBLIC_ADDRESS, Peer, RANDOM_ADDRESS};
