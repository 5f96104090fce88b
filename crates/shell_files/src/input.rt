//! Reading an input to its end.

ghost use Rattle.std.specs.Prelude.{◌≡◌, ◌≤◌, ◌+◌, [], length, IfErr, IfOk, IfSome, OnOk};
ghost use Rattle.shell_files.specs.Input.{IsInputFault};

use crate::fault::ShellFault;
use std::alloc::Global;
use std::io::{ErrorKind, Read};

/// The largest number of reads of an input.
pub const READS: u64 = 1_000_000;
/// The largest size of a read in bytes.
pub const CHUNK: usize = 512;

/// The largest size of a TOML file in bytes. A table within all limits is smaller, even with each
/// octet escaped.
pub const TOML_OCTETS: usize = 2_097_152;

/// Reads an input to its end, with at most `READS` reads of `CHUNK` bytes.
///
/// Errors: as `read_at_most`.
pub fn read_all<R: Read>(alloc: Global, reader: &mut R) -> Result<Vec<u8>, ShellFault>
    ensures all { IfOk result
        (λ octets. IfSome (R.remaining reader.old) (λ input. octets.items ≡ input)) }
    ensures faults { IfErr result IsInputFault }
{
    read_at_most(alloc, reader, usize::MAX)
}

/// Reads an input to its end, or until it has more than `most` bytes.
///
/// Retries interrupted reads, which count.
///
/// Errors: `Unreadable` if a read fails or the input does not end within `READS` reads. `Memory` if
/// memory is refused.
pub fn read_at_most<R: Read>(
    alloc: Global,
    reader: &mut R,
    most: usize,
) -> Result<Vec<u8>, ShellFault>
    ensures all { IfOk result (λ octets. length octets.items ≤ most
        → IfSome (R.remaining reader.old) (λ input. octets.items ≡ input)) }
    ensures bounded { IfOk result (λ octets. length octets.items ≤ most + CHUNK) }
    ensures faults { IfErr result IsInputFault }
{
    let mut octets = Vec::new(alloc);
    read_into(reader, &mut octets, most)?;
    Ok(octets)
}

fn read_into<R: Read>(reader: &mut R, octets: &mut Vec<u8>, most: usize) -> Result<(), ShellFault>
    requires { octets.old.items ≡ [] }
    ensures all { OnOk result (length octets.new.items ≤ most
        → IfSome (R.remaining reader.old) (λ input. octets.new.items ≡ input)) }
    ensures bounded { OnOk result (length octets.new.items ≤ most + CHUNK) }
    ensures faults { IfErr result IsInputFault }
{
    let mut chunk = [0; CHUNK];
    for _read in 0..READS {
        if octets.len() > most {
            return Ok(());
        }
        match reader.read(&mut chunk) {
            Ok(0) => return Ok(()),
            Ok(count) => octets.extend_from_slice(&chunk[..count])?,
            Err(error) if error.kind() == ErrorKind::Interrupted => {}
            Err(_) => return Err(ShellFault::Unreadable),
        }
    }
    Err(ShellFault::Unreadable)
}
