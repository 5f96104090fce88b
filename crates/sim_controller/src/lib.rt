//! A simulated controller with clients: its packets to the host are the acts of its clients and its
//! responses to the host, in order.
#![tactic(auto)]

mod act;
mod answer;
mod assembly;
mod command;
mod config;
mod fault;
mod frame;
mod handle;
mod phone;
mod phones;
mod sim;
mod told;
mod waiting;

pub use act::PhoneAct;
pub use config::SimConfig;
pub use fault::SimFault;
pub use handle::PHONES;
pub use sim::Sim;
