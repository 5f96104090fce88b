//! The options of the command `host`: as texts, and as values.
#![tactic(auto)]

mod address;
mod advertising;
mod files;
mod numbers;
mod options;
mod places;
mod texts;

pub use files::{FileOptions, Saved};
pub use options::{HostOptions, HostSettings};
pub use places::{ApplicationAddress, ControllerAddress};
pub use texts::{MOST_SERVICES, OptionTexts};
