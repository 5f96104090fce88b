//! The expectations file: what is meant by a table, in TOML.

ghost use Rattle.std.specs.Prelude.{◌≡◌, ◌≢◌, None, IfErr, IfOk, IsOk};
ghost use Rattle.std.specs.Result.{result_ok};
ghost use Rattle.policy_expectations.specs.File.{expectations_in};

use crate::document::read_document;
use crate::expectation::Expectation;
use crate::fault::{Fault, Stop, add_fault};
use std::alloc::Global;
use std::str;

/// A reason for which a file gives no expectations.
#[derive(Clone, Copy, PartialEq, Eq)]
pub enum Refusal {
    /// The file is no expectations file.
    File,
    Memory,
}

/// Reads the bytes of an expectations file.
///
/// Adds the place and the fault of a refused file to `place`. If memory is refused, `place` is
/// invalid.
#[tactic(auto, using(octet_io::proofs::Texts::of_text, octet_io::proofs::Texts::of_no_text), unfolding(crate::specs::File::expectations_in))]
pub fn read_expectations(
    alloc: Global,
    bytes: &[u8],
    place: &mut Vec<u8>,
) -> Result<Vec<Expectation>, Refusal>
    // The definition of the file determines the expectations from its bytes.
    ensures read { IfOk result
        (λ expectations. expectations_in bytes.now ≡ Ok expectations.items) }
    ensures refused { IfErr result (λ refusal. refusal ≢ Refusal.Memory
        → result_ok (expectations_in bytes.now) ≡ None) }
    ensures place { IsOk result → place.new ≡ place.old }
{
    let Ok(text) = str::from_utf8(bytes) else {
        return Err(refusal_of_text(alloc, bytes, place));
    };
    match toml::table_from_str(alloc, text) {
        Ok(document) => match read_document(alloc, &document) {
            Ok(expectations) => Ok(expectations),
            Err(Stop::Refused(fault)) => Err(refusal_of_fault(place, &fault)),
            Err(Stop::Memory) => Err(Refusal::Memory),
        },
        Err(refused) if refused.is_memory() => Err(Refusal::Memory),
        Err(_) => Err(refusal_of_text(alloc, bytes, place)),
    }
}

/// Returns the refusal of bytes that are not TOML, whose fault is that of any file of TOML.
fn refusal_of_text(alloc: Global, bytes: &[u8], place: &mut Vec<u8>) -> Refusal
    ensures { result ≢ Refusal.Memory → result ≡ Refusal.File }
{
    match file_faults::add_keys_fault(alloc, place, bytes) {
        Ok(()) => Refusal::File,
        Err(_) => Refusal::Memory,
    }
}

fn refusal_of_fault(place: &mut Vec<u8>, fault: &Fault<'_>) -> Refusal
    ensures { result ≢ Refusal.Memory → result ≡ Refusal.File }
{
    match add_fault(place, fault) {
        Ok(()) => Refusal::File,
        Err(_) => Refusal::Memory,
    }
}
