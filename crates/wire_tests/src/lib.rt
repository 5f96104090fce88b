//! Tests of the crates that read and write octets, by their public items only.
#![tactic(auto)]

#[cfg(test)]
mod cases;
#[cfg(test)]
mod initialisation;
#[cfg(test)]
mod streams;
