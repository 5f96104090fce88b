//! The rights that a table gives to each kind of key, and the findings for its author.
#![tactic(auto)]

mod columns;
mod finding;
mod held;
mod kinds;
mod needs;
mod rights;

pub use columns::{add_columns, columns_of, has_column, has_key, is_same_column, peers_of_kind};
pub use finding::{Finding, findings, is_private};
pub use held::{has_equal_rights, is_used, kinds_that_differ, may_use, may_with};
pub use kinds::every_kind;
pub use needs::{is_heard, is_notified_or_indicated, is_written};
pub use rights::{NOTIFICATION, Right, all_attributes, may, standing_of};
