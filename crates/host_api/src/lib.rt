//! Calls, notices and connections, as an application sees them.
#![tactic(auto)]

mod app;
mod connection;
mod notice;
pub mod notice_number;

pub use app::{App, AppFault};
pub use connection::Connection;
pub use notice::Notice;

/// The largest number of connections at once (this profile's own).
pub const MAX_SLOTS: usize = 8;
