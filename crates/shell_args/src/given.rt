//! The words of the command line, as they are given.

ghost use Rattle.std.specs.Prelude.{◌≡◌, ◌≢◌};
ghost use Rattle.std.specs.IoError.{error_kind};

use crate::words::Refusal;
use std::env;
use std::io::{Error, ErrorKind};
use std::rt::Env;

/// Returns the words of the command line. The first is the program's name.
///
/// Errors: `Misunderstood` if a word is not UTF-8, or `Memory`.
pub fn words_of(rt: &(impl Env + AllocGlobal)) -> Result<Vec<String>, Refusal> {
    match env::args(rt) {
        Ok(words) => words.collect(rt.alloc()).map_err(|_| Refusal::Memory),
        Err(error) => Err(unread(&error)),
    }
}

fn unread(error: &Error) -> Refusal
    ensures no_text { error_kind error.now ≡ ErrorKind.InvalidData
        → result ≡ Refusal.Misunderstood }
    ensures memory { error_kind error.now ≢ ErrorKind.InvalidData → result ≡ Refusal.Memory }
{
    match error.kind() {
        ErrorKind::InvalidData => Refusal::Misunderstood,
        _ => Refusal::Memory,
    }
}
