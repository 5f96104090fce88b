//! ATT PDUs in words, and a writer that adds these words to each line that has a PDU.
#![tactic(auto)]

mod copying;
mod entries;
mod handles;
mod line;
mod names;
mod pdu;
mod request;
mod sending;
mod server_pdu;
mod text;
mod types;
mod worded;

pub use copying::{CopyFault, copy};
pub use handles::Handles;
pub use worded::Worded;
