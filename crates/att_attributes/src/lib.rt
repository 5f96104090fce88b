//! The attributes of a server, their groups, and an index by type.
#![tactic(auto)]

mod attr;
mod attribute_type;
mod group;
mod type_index;

pub use attr::{Attr, Role};
pub use attribute_type::{is_of_16_bits, type_octets};
pub use group::{group_ends, is_service};
pub use type_index::{Counted, Run, Steps, Uncounted, by_type, of_type, runs_by_type};
