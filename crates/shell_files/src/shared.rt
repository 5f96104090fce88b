//! Files that others than their owner may use.

use std::fs;
use std::fs::Files;
use std::os::unix::fs::PermissionsExt;

/// The permissions of the group and of all others.
const OTHERS: u32 = 0o077;

/// Returns true if others than its owner may read, write or execute a file that is not empty.
///
/// Returns false for anything except a regular file, and if the system does not show it.
pub fn is_shared<F: Files>(files: &F, path: &str) -> bool {
    match fs::metadata(files, path) {
        Ok(found) => {
            found.is_file() && found.len() > 0 && found.permissions().mode() & OTHERS != 0
        }
        Err(_) => false,
    }
}
