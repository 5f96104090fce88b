//! The parts of the system that a device uses: sockets, the controller, files with their save, the
//! log, clocks, and systemd.
#![tactic(auto)]

mod bounded;
mod connecting;
mod connector;
mod controller;
mod disk;
mod file_size;
mod lock;
mod log;
mod missed;
mod new_file;
mod outbound;
mod patience;
mod poller;
mod recording;
mod replacing;
mod saved_file;
mod served;
mod side;
mod socket;
mod stack;
mod standard;
mod supervisor;
mod system;
mod terminal;
mod transport;
mod vanished;
mod version;
mod watchdog;

pub use connector::Connector;
pub use controller::Controller;
pub use disk::{Disk, Made, Noted, Step};
pub use lock::{Lock, LockFault};
pub use log::Log;
pub use outbound::MOST_WAITING;
pub use poller::{ControllerReady, Poller, Ready, Source};
pub use recording::Recording;
pub use replacing::replace;
pub use saved_file::SavedFile;
pub use socket::{Listener, Retry, Socket, bind_at_path, connect_at_path, retry_after};
pub use stack::take_stack;
pub use supervisor::{Supervisor, monotonic_micros};
pub use system::System;
