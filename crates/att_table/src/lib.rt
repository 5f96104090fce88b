//! The attribute table of a server: attributes by handle, with their values.
#![tactic(auto)]

mod changer;
mod config_row;
pub mod examples;
mod file;
mod find;
mod row_entries;
mod table;
mod table_builder;
mod table_fault;

pub use att_attributes::{
    Attr, Counted, Role, Steps, Uncounted, is_of_16_bits, is_service, type_octets,
};
pub use att_values::{Change, ValueStore, run};
pub use config_row::ConfigRow;
pub use file::{NEED, read_type};
pub use table::Table;
pub use table_fault::{TableFault, TableKey};
