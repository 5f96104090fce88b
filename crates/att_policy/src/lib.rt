//! The access policy: decides which accesses a connection may make, with which ATT error the
//! server rejects the others, and which values a connection may be notified of.
#![tactic(auto)]

mod guard;
mod policy;
mod standing;

pub use guard::{Guard, INDICATION, Need, Properties};
pub use policy::{Access, Rule, first_broken, first_broken_in_place, is_open, may_hear};
pub use standing::{KeyFacts, Standing};
