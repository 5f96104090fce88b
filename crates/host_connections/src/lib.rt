//! The connections of a host, each in its slot: effects of events, notifications and packets.
#![tactic(auto)]

mod all_slots;
mod arrivals;
mod connection;
mod event_end;
mod going_out;
mod handles;
mod marks;
mod moment;
mod notifications;
mod notifying;
mod place_events;
mod places;
mod request;
mod skipped;
mod slot;
mod slot_events;
mod slots;

pub use arrivals::Arrivals;
pub use moment::Moment;
pub use request::Brought;
pub use skipped::{MAX_SKIPPED, Skipped, Skips};
pub use slot::Slot;
pub use slots::Slots;
