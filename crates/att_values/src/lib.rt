//! Attribute values by handle: a trait for stores, two stores, and changes of any store.
#![tactic(auto)]

mod change;
mod flat_store;
mod plain_store;
mod value_store;

pub use change::{Change, apply, run};
pub use flat_store::FlatStore;
pub use plain_store::PlainStore;
pub use value_store::ValueStore;
