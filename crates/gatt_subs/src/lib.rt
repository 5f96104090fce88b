//! Subscriptions, notifications and indications, and the queues of pending ones.
#![tactic(auto)]

mod bond;
mod contents;
mod fit;
mod hearing;
mod pending;
mod row_entry;
mod rows;
mod rows_fault;
mod rows_line;
mod rows_text;
mod unfitted;

pub use hearing::{Raised, Telling};
pub use pending::{MAX_BACKLOG, Pending, PendingOf, PendingOfTable};
pub use row_entry::RowEntry;
pub use rows::Rows;
pub use rows_fault::RowsFault;
pub use rows_text::address_text;
