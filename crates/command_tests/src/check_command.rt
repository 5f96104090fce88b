//! The command `check`: files that cannot be read.

use shell_files::{ShellFault, check_files};
use std::alloc::Global;
use std::io;
use std::io::{ErrorKind, Read};

#[derive(Drop)]
struct Unreadable;

impl Read for Unreadable {
    fn read(&mut self, _buf: &mut [u8]) -> io::Result<usize> {
        Err(io::Error::from(ErrorKind::Other))
    }
}

fn is_unreadable<T: Read, K: Read>(alloc: Global, table: &mut T, keys: &mut K) -> bool {
    let mut output: Vec<u8> = Vec::new(alloc);
    check_files(alloc, table, keys, &mut output) == Err(ShellFault::Unreadable) && output.is_empty()
}

/// Keys after a table that cannot be read are not read.
#[test]
fn reads_the_keys_behind_the_table(rt: HostRuntime) {
    let (keys, mut rest) = (b"key".as_slice(), b"key".as_slice());
    assert!(&rt; is_unreadable(rt.alloc(), &mut Unreadable, &mut rest) && rest == keys);
    let mut table = b"service = []".as_slice();
    assert!(&rt; is_unreadable(rt.alloc(), &mut table, &mut Unreadable));
}
