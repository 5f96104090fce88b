//! Files that are opened when they are first read.

ghost use Rattle.std.specs.Prelude.{◌≡◌};

use std::fs::{File, Files};
use std::io;
use std::io::Read;

/// A file that its first read opens, and not before earlier files are checked.
///
/// The read fails if the file cannot be opened.
#[derive(Drop)]
pub struct LazyFile<'a, F: Files> {
    files: &'a F,
    path: &'a str,
    opened: Option<F::File>,
}

impl<'a, F: Files> LazyFile<'a, F> {
    /// Returns the file at this path, not opened yet.
    pub fn new(files: &'a F, path: &'a str) -> Self
        ensures { result.path.now ≡ path.now }
    {
        LazyFile {
            files,
            path,
            opened: None,
        }
    }
}

impl<F: Files> Read for LazyFile<'_, F> {
    fn read(&mut self, buf: &mut [u8]) -> io::Result<usize> {
        if let Some(file) = &mut self.opened {
            return file.read(buf);
        }
        let mut file = File::open(self.files, self.path)?;
        let read = file.read(buf);
        self.opened = Some(file);
        read
    }
}
