//! The state machine of the host and its laws, as definitions.
#![tactic(auto)]
