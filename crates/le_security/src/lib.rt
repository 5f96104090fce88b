//! Long Term Keys of peers, and the security of links (Core 5.0, Vol 3 Part C, 10.2).
#![tactic(auto)]

mod address;
mod entry;
mod entry_file;
pub mod examples;
mod key_fault;
mod key_file;
mod keys;
mod link;

pub use address::{read_address, read_peer};
pub use entry::Key;
pub use key_fault::KeyFault;
pub use keys::Keys;
pub use link::{Link, LinkChange};
