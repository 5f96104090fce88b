//! The host for programs in C, declared in `include/gihandop.h`.
#![tactic(auto)]

mod asking;
mod box_parts;
mod config;
mod connections;
mod explaining;
mod exports;
mod faulty_text;
mod host_pointer;
mod notices;
mod opened;
mod opening;
mod reading;
mod rows_text;
mod status;
mod stream;
mod text;

pub use config::HostConfig;
pub use connections::ConnectionFields;
pub use exports::asking::{gh_authorize, gh_disconnect, gh_replace, gh_tick, gh_update};
pub use exports::opening::{gh_close, gh_explain, gh_open};
pub use exports::seeing::{
    gh_connection, gh_deadline, gh_find, gh_rows_text, gh_text, gh_value, gh_values_text,
    gh_version,
};
pub use exports::stream::{gh_next_notice, gh_next_out, gh_take};
pub use host_pointer::HostPointer;
pub use notices::NoticeFields;
