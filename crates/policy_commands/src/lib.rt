//! The commands `show`, `may`, `compare` and `expect`: their files, checked in order, and texts.
#![tactic(auto)]

mod compare;
mod expect;
mod keys;
mod may;
mod may_words;
mod show;

pub use compare::{CompareNames, ComparePaths, compare_files, compare_paths};
pub use expect::{ExpectFault, ExpectPaths, ExpectationsPath, expect_files, expect_paths};
pub use may::{MayFault, MayPaths, MayWords, ask_files, ask_paths};
pub use may_words::Wrong;
pub use show::{ShowPaths, View, show_files, show_paths};
