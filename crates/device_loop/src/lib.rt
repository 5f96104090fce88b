//! A device that serves continuously: it processes events of the controller and the application,
//! saves the changes, and then sends the packets that follow. The caller supplies sockets, files
//! and the clock.
#![tactic(auto)]

mod happenings;
mod history;
mod outside;
mod received;
mod refused_keys;
mod serving;
mod turn;
mod unsaved;
mod withholding;

pub use happenings::{Happenings, Next};
pub use history::{History, Note};
pub use outside::{Outgoing, Outside, Saving, Sending};
pub use received::Received;
pub use refused_keys::refused_key;
pub use serving::{End, serve_happenings};
pub use turn::{Turn, serve_turn};
pub use unsaved::Unsaved;
pub use withholding::{first_size, withhold};
