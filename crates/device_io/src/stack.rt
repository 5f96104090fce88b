//! The stack of the program.
//!
//! A program that finds no stack ends by SIGSEGV. This one asks for the limit at its start, and
//! takes what it needs while there is memory.

ghost use Rattle.std.specs.Prelude.{◌≡◌, ◌/◌, nat_le};

use libc::types::rlimit;
use std::alloc::{AllocError, Global};

/// The least limit of the stack, in KiB. A refused file that nests deeply takes up to 3 MiB.
const LEAST: u64 = 4_096;

/// The stack that is taken at the start, in bytes.
const TAKEN: usize = 262_144;

/// A file that is not open.
const NO_FILE: i32 = -1;

/// Takes the stack that serving needs. If there is less, returns how much is needed, in KiB.
pub fn take_stack(alloc: Global) -> Result<(), u64> {
    if !is_enough(stack_limit()) {
        return Err(LEAST);
    }
    if ask(alloc).is_err() {
        return Err(TAKEN as u64 / 1_024);
    }
    take();
    Ok(())
}

/// Returns true if a limit of the stack, in bytes, is high enough.
fn is_enough(limit: u64) -> bool
    ensures { result ≡ nat_le LEAST (limit / 1024) }
{
    LEAST <= limit / 1_024
}

fn stack_limit() -> u64 {
    let mut limit = rlimit {
        rlim_cur: u64::MAX,
        rlim_max: u64::MAX,
    };
    if libc::getrlimit(libc::RLIMIT_STACK, &mut limit) == 0 {
        limit.rlim_cur
    } else {
        u64::MAX
    }
}

/// Takes as much memory and gives it back, because that can fail without a signal.
fn ask(alloc: Global) -> Result<(), AllocError> {
    let mut asked: Vec<u8> = Vec::with_capacity(alloc, TAKEN)?;
    asked.push(0)?;
    read_nothing(asked.as_mut_slice());
    Ok(())
}

/// Writes to the stack, so that the system gives its memory now.
#[inline(never)]
fn take() {
    let mut taken = [0; TAKEN];
    read_nothing(&mut taken);
}

/// Reads nothing. But as far as the compiler knows, it may use all of the memory.
fn read_nothing(memory: &mut [u8]) {
    libc::read(NO_FILE, memory);
}
