//! Reading, writing and checking of the commands' files, their faults, and the commands `att` and
//! `check`.
#![tactic(auto)]

mod att;
mod check;
mod fault;
mod input;
mod key_file;
mod lazy_file;
mod output;
mod rows_file;
mod rows_out;
mod rows_path;
mod rows_store;
mod script_file;
mod server;
mod session;
mod shared;
mod table_file;
mod with_place;

pub use att::att_lines;
pub use check::{KeysPath, TablePath, check_files, check_paths};
pub use fault::{ShellFault, status, text};
pub use input::{CHUNK, READS, TOML_OCTETS, read_all, read_at_most};
pub use key_file::{judged_keys, read_keys};
pub use lazy_file::LazyFile;
pub use output::{print, print_hex_line, print_number_line};
pub use rows_file::{judged_rows, read_rows};
pub use rows_out::RowsOut;
pub use rows_path::{RowsPath, RowsReader, RowsWriter};
pub use rows_store::{RowsStore, save_after};
pub use script_file::judged_script;
pub use shared::is_shared;
pub use table_file::{judged_table, read_next, read_table};
pub use with_place::{
    judge_rows_at, read_key_file_at, read_table_at, tell_keys_fault, tell_rows_fault,
    tell_table_fault,
};
