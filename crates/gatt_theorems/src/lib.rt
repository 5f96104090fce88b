//! The promise of the host about its runs, as definitions with proofs.
#![tactic(auto)]
