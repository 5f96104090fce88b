//! The commands that answer a question about a policy, with status 3 for one of the answers.

ghost use Rattle.std.specs.Prelude.{◌≡◌, false, true};

use crate::{exit_status, tell_at, unreadable};
use gatt_commands::{KeysPath, ShellFault};
use policy_commands::{ComparePaths, ExpectFault, ExpectPaths, MayFault, MayPaths, MayWords};
use shell_args::Refusal;
use std::{io, str};

/// Answers whether a peer may use an attribute, and returns the exit status.
pub(crate) fn run_may(rt: &HostRuntime, paths: MayPaths<'_>, words: &MayWords<'_>) -> u8 {
    let mut place = Vec::new(rt.alloc());
    let writer = &mut io::writer(rt);
    match policy_commands::ask_paths(rt.alloc(), rt, paths, words, writer, &mut place) {
        Ok(is_granted) => answer_status(!is_granted),
        Err(MayFault::Word(wrong)) => {
            // If this fails, the error cannot be reported at all.
            let _ = rt.eprintln(wrong.words());
            Refusal::Misunderstood.status()
        }
        Err(MayFault::File(fault)) => {
            let paths = [Some(paths.table.0), Some(paths.keys.0)];
            fault_status(rt, &paths, fault, place.as_slice())
        }
    }
}

/// Prints the rights that new files open and close, and returns the exit status.
pub(crate) fn run_compare(rt: &HostRuntime, paths: ComparePaths<'_>) -> u8 {
    let mut place = Vec::new(rt.alloc());
    let writer = &mut io::writer(rt);
    match policy_commands::compare_paths(rt.alloc(), rt, paths, writer, &mut place) {
        Ok(is_opened) => answer_status(is_opened),
        Err(fault) => {
            let paths = [
                Some(paths.old.0),
                Some(paths.new.0),
                path_of(paths.keys),
                path_of(paths.new_keys),
            ];
            fault_status(rt, &paths, fault, place.as_slice())
        }
    }
}

/// Compares a table with what is meant, and returns the exit status.
pub(crate) fn run_expect(rt: &HostRuntime, paths: ExpectPaths<'_>) -> u8 {
    let mut place = Vec::new(rt.alloc());
    let writer = &mut io::writer(rt);
    match policy_commands::expect_paths(rt.alloc(), rt, paths, writer, &mut place) {
        Ok(holds) => answer_status(!holds),
        Err(ExpectFault::Expectations) => {
            // If this fails, the error cannot be reported at all.
            let _ = rt.eprint("expect: ");
            let _ = rt.eprint(paths.expectations.0);
            let _ = rt.eprint(": ");
            let _ = rt.eprintln(str::from_utf8(place.as_slice()).unwrap_or(""));
            1
        }
        Err(ExpectFault::Shell(fault)) => {
            let expectations = Some(paths.expectations.0);
            let paths = [Some(paths.table.0), path_of(paths.keys), expectations];
            fault_status(rt, &paths, fault, place.as_slice())
        }
    }
}

fn path_of(file: Option<KeysPath<'_>>) -> Option<&str> {
    match file {
        Some(KeysPath(path)) => Some(path),
        None => None,
    }
}

/// Returns the exit status of an answer, which a script can ask for.
fn answer_status(is_warned: bool) -> u8
    ensures warned { is_warned ≡ true → result ≡ 3 }
    ensures done { is_warned ≡ false → result ≡ 0 }
{
    if is_warned { 3 } else { 0 }
}

/// Returns the exit status of a fault, after printing it with its place.
fn fault_status(rt: &HostRuntime, paths: &[Option<&str>], fault: ShellFault, place: &[u8]) -> u8 {
    if fault == ShellFault::Unreadable
        && let Some(place) = unreadable(rt, paths)
    {
        tell_at(rt, &fault, place.as_bytes());
        return gatt_commands::status(&fault);
    }
    if matches!(fault, ShellFault::Table(_) | ShellFault::Keys(_)) && !place.is_empty() {
        tell_at(rt, &fault, place);
        return gatt_commands::status(&fault);
    }
    exit_status(rt, Err(fault))
}
