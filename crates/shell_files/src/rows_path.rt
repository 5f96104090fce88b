//! The subscriptions file at a path, read before a run and written at its end.

use std::fs::{File, Files};
use std::io;
use std::io::{ErrorKind, Read, Write};

/// The path of a subscriptions file, if any.
#[derive(Clone, Copy)]
pub struct RowsPath<'a>(pub Option<&'a str>);

/// A subscriptions file that its first read opens.
///
/// It is empty if it is missing or has no path.
#[derive(Drop)]
pub struct RowsReader<'a, F: Files> {
    files: &'a F,
    path: RowsPath<'a>,
    opened: Option<F::File>,
}

impl<'a, F: Files> RowsReader<'a, F> {
    /// Returns the file at this path, not opened yet.
    pub fn new(files: &'a F, path: RowsPath<'a>) -> Self {
        RowsReader {
            files,
            path,
            opened: None,
        }
    }
}

impl<F: Files> Read for RowsReader<'_, F> {
    fn read(&mut self, buf: &mut [u8]) -> io::Result<usize> {
        let Some(path) = self.path.0 else {
            return Ok(0);
        };
        if let Some(file) = &mut self.opened {
            return file.read(buf);
        }
        match File::open(self.files, path) {
            Ok(mut file) => {
                let read = file.read(buf);
                self.opened = Some(file);
                read
            }
            Err(error) if error.kind() == ErrorKind::NotFound => Ok(0),
            Err(error) => Err(error),
        }
    }
}

/// A subscriptions file that its first write or flush opens and empties.
///
/// Unwritten, it keeps its contents. Without a path, written text is dropped.
#[derive(Drop)]
pub struct RowsWriter<'a, F: Files> {
    files: &'a F,
    path: RowsPath<'a>,
    opened: Option<F::File>,
}

impl<'a, F: Files> RowsWriter<'a, F> {
    /// Returns the file at this path, not opened yet.
    pub fn new(files: &'a F, path: RowsPath<'a>) -> Self {
        RowsWriter {
            files,
            path,
            opened: None,
        }
    }
}

impl<F: Files> Write for RowsWriter<'_, F> {
    fn write(&mut self, buf: &[u8]) -> io::Result<usize> {
        let Some(path) = self.path.0 else {
            return Ok(buf.len());
        };
        if let Some(file) = &mut self.opened {
            return file.write(buf);
        }
        let mut file = File::create(self.files, path)?;
        let written = file.write(buf);
        self.opened = Some(file);
        written
    }

    fn flush(&mut self) -> io::Result<()> {
        let Some(path) = self.path.0 else {
            return Ok(());
        };
        if let Some(file) = &mut self.opened {
            return file.flush();
        }
        let mut file = File::create(self.files, path)?;
        let flushed = file.flush();
        self.opened = Some(file);
        flushed
    }
}
