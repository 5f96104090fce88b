//! The output and the exit status of a command.

ghost use Rattle.std.specs.Prelude.{◌≡◌, ◌≢◌, ◌≤◌, ◌⊎◌, length, take, true, Ok};

use arrayvec::ArrayVec;
use shell_files::ShellFault;
use std::alloc::AllocError;

/// The status if the output has no space, or if memory is refused for the text of a fault.
const NO_SPACE: u32 = 70;

/// Copies the output of a command, and returns its exit status.
///
/// The output of a fault ends with its text and its place.
pub(crate) fn finish(
    ran: Result<(), ShellFault>,
    mut text: Vec<u8>,
    place: &[u8],
    out: &mut [u8],
    count: &mut usize,
) -> u32
    ensures done { result ≡ 0 → ran ≡ Ok tt }
    ensures text { result ≡ 0 → take count.new out.new ≡ text.items }
    ensures own { result ≢ 3 }
    ensures within { count.new ≤ length out.old }
{
    let status = match ran {
        Ok(()) => 0,
        Err(fault) => {
            if add_fault(&mut text, &fault, place).is_err() {
                *count = 0;
                return NO_SPACE;
            }
            failed_status(&fault)
        }
    };
    if copy(&text, out, count) {
        status
    } else {
        NO_SPACE
    }
}

/// Returns the exit status of a fault: 1 for a file, and 2 for a fault in a run.
fn failed_status(fault: &ShellFault) -> u32
    ensures { (result ≡ 1) ⊎ (result ≡ 2) }
{
    match shell_files::status(fault) {
        1 => 1,
        _ => 2,
    }
}

/// Copies a text, and returns true if it has space.
fn copy(text: &[u8], out: &mut [u8], count: &mut usize) -> bool
    ensures text { result ≡ true → take count.new out.new ≡ text.now }
    ensures within { count.new ≤ length out.old }
{
    if out.len() < text.len() {
        *count = 0;
        return false;
    }
    *count = text.len();
    out[..text.len()].copy_from_slice(text);
    true
}

/// Adds a line with a fault and its place.
fn add_fault(text: &mut Vec<u8>, fault: &ShellFault, place: &[u8]) -> Result<(), AllocError> {
    let mut name = ArrayVec::new();
    shell_files::text(fault, &mut name);
    text.extend_from_slice(name.as_slice())?;
    if !place.is_empty() {
        text.extend_from_slice(b": ")?;
        text.extend_from_slice(place)?;
    }
    Ok(text.extend_from_slice(b"\n")?)
}
