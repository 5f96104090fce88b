//! The commands of the program that need a host, and their faults; `shell_files` has the others.
#![tactic(auto)]

mod acts;
mod exchange;
mod lines;
mod mtu;
mod notes;
mod opening;
mod outcome;
mod paths;
mod refused;
mod run;
mod script_text;
mod serve;
mod stage;
mod told;

pub use app_lines::{add_line, add_number, add_value};
pub use mtu::RxMtu;
pub use paths::{NextPath, RunPaths, ScriptPath, run_paths};
pub use run::run_script;
pub use script_text::Shows;
pub use serve::{Address, ServePaths, TURNS, serve_on, serve_paths};
pub use shell_files::{
    CHUNK, KeysPath, LazyFile, READS, RowsOut, RowsPath, RowsReader, RowsStore, ShellFault,
    TOML_OCTETS, TablePath, att_lines, check_files, check_paths, read_keys, read_rows, read_table,
    status, text,
};
