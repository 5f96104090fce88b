//! Tests of the crates that store tables and keys and read their files.
#![tactic(auto)]

#[cfg(test)]
mod cases;
#[cfg(test)]
mod config_rows;
#[cfg(test)]
mod keys;
#[cfg(test)]
mod links;
#[cfg(test)]
mod look_ups;
#[cfg(test)]
mod rows;
#[cfg(test)]
mod states;
#[cfg(test)]
mod stores;
