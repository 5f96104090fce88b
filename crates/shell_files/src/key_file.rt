//! Key files as inputs.

ghost use Rattle.std.specs.Prelude.{◌≡◌, ◌≢◌, ◌≤◌, ◌<◌, ℕ, Err, length, IfErr, IfOk, IfSome};
ghost use Rattle.shell_files.specs.KeyFile.{keys_out_of_memory, keys_in, KeysAreRefusedAs, IsKeyRefusal, IsKeyFileFault};
ghost use Rattle.shell_files.specs.declared.input.TheConstants.{TOML_OCTETS};

use crate::fault::ShellFault;
use crate::input;
use le_security::{KeyFault, Keys};
use std::alloc::Global;
use std::io::Read;

/// Reads a key file.
pub fn read_keys<R: Read>(alloc: Global, reader: &mut R) -> Result<Keys, ShellFault>
    ensures keys { IfOk result
        (λ keys. IfSome (R.remaining reader.old) (λ octets. keys_in octets ≡ Ok keys)) }
    ensures refused { (number : ℕ) → result ≡ Err (ShellFault.Keys number)
        → number ≢ keys_out_of_memory
        → IfSome (R.remaining reader.old) (λ octets. KeysAreRefusedAs number (keys_in octets)) }
    ensures faults { IfErr result IsKeyFileFault }
{
    let octets = input::read_at_most(alloc, reader, input::TOML_OCTETS)?;
    judged_keys(alloc, octets.as_slice())
}

/// Returns the keys of a file's bytes, or the number of its first fault.
///
/// Refused memory and a size above `TOML_OCTETS` are faults of the file.
pub fn judged_keys(alloc: Global, octets: &[u8]) -> Result<Keys, ShellFault>
    ensures keys { IfOk result (λ keys. keys_in octets.now ≡ Ok keys) }
    ensures refused { IfErr result (IsKeyRefusal octets.now) }
    ensures size { IfOk result (λ _. length octets.now ≤ TOML_OCTETS) }
    ensures large { TOML_OCTETS < length octets.now
        → result ≡ Err (ShellFault.Keys keys_out_of_memory) }
{
    if octets.len() > input::TOML_OCTETS {
        return Err(ShellFault::Keys(KeyFault::OutOfMemory.number()));
    }
    match Keys::from_bytes(alloc, octets) {
        Ok(keys) => Ok(keys),
        Err(fault) => Err(ShellFault::Keys(fault.number())),
    }
}
