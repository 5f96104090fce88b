//! Scripts of clients and an application, which are read completely before any act.
#![tactic(auto)]

mod act;
mod line;
mod name;
mod script;
mod script_fault;

pub use act::{Act, ScriptedAct};
pub use name::Name;
pub use script::{MAX_PHONES, Script};
pub use script_fault::ScriptFault;
