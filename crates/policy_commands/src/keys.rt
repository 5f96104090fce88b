//! The keys that a command reads.

ghost use Rattle.std.specs.Prelude.{◌≡◌, ◌≢◌, ℕ, IfErr, IfOk, IfSome, IsOk, is_some};
ghost use Rattle.std.specs.Option.{option_map};
ghost use Rattle.policy_commands.specs.Keys.{HasKeys};
ghost use Rattle.shell_files.specs.KeyFile.{keys_out_of_memory, keys_in, KeysAreRefusedAs, IsKeyFileFault};

use le_security::Keys;
use shell_files::{KeysPath, LazyFile, ShellFault, judged_keys, read_key_file_at};
use std::alloc::Global;
use std::fs::Files;
use std::io::Read;

/// Reads the keys of a key file, or those of an empty one.
pub(crate) fn read_keys_at<K: Read>(
    alloc: Global,
    keys: &mut Option<K>,
    place: &mut Vec<u8>,
) -> Result<Keys, ShellFault>
    ensures keys { IfOk result (λ read. HasKeys (option_map K.remaining keys.old) read) }
    ensures refused { (number : ℕ) → result ≡ Err (ShellFault.Keys number)
        → number ≢ keys_out_of_memory
        → IfSome keys.old (λ file. IfSome (K.remaining file)
        (λ octets. KeysAreRefusedAs number (keys_in octets))) }
    ensures place { IsOk result → place.new ≡ place.old }
    ensures faults { IfErr result IsKeyFileFault }
{
    match keys {
        Some(reader) => read_key_file_at(alloc, reader, place),
        None => judged_keys(alloc, b""),
    }
}

/// Returns the key file at a path, if there is one.
pub(crate) fn key_file<'a, F: Files>(
    files: &'a F,
    path: Option<KeysPath<'a>>,
) -> Option<LazyFile<'a, F>>
    ensures { is_some result ≡ is_some path.entry }
{
    Some(LazyFile::new(files, path?.0))
}
