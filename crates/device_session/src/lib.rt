//! A device while it serves, without its host: its controller, its application, and their turns.
#![tactic(auto)]

mod acceptance;
mod application;
mod asked;
mod askers;
mod asking;
mod controller_session;
mod heard;
mod holder;
mod incoming;
mod links;
mod missed;
mod next_turn;
mod opening;
mod outgoing;
mod output;
mod peer_clock;
mod pending;
mod refusal_log;
mod refusals;
mod seat;
mod seats;
mod seats_lines;
mod seats_turns;
mod session;
mod session_output;
mod strangers;
mod timeout;
mod turns;
mod visitor;

pub use asked::Asked;
pub use heard::{Heard, SavedChanges};
pub use session::Session;
pub use strangers::{Keyless, Limits, sooner};
