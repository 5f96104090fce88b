//! A text file that is replaced as a whole.

ghost use Rattle.std.specs.Prelude.{◌≡◌};

use crate::file_size::refuse_size;
use crate::new_file::{NewFile, create_new, remove_left_file, sync_folder};
use crate::replacing::replace;
use crate::version::Version;
use std::alloc::Global;
use std::fs::{File, Files};
use std::io::{ErrorKind, Read, Write};
use std::{fs, io};

const OWNER_ALONE: u32 = 0o600;

/// A text file that readers always find complete, old or new.
#[derive(Drop)]
pub struct SavedFile {
    path: String,
    /// The path that is written first.
    beside: String,
    mode: u32,
    saved: Option<Saved>,
    /// The file that was there at the start, or that was saved last.
    known: Option<Version>,
    /// Set while another device may have replaced that file.
    is_contested: bool,
}

/// The text that was saved last, and the file that has it.
#[derive(Drop)]
struct Saved {
    text: Vec<u8>,
    version: Version,
}

impl SavedFile {
    /// Returns the file at a path. Resolves a link only now.
    ///
    /// `mode` is the permission of a file that does not exist yet.
    pub fn at<R: Files>(files: &R, alloc: Global, path: &str, mode: u32) -> io::Result<SavedFile> {
        let path = resolve(files, alloc, path)?;
        let beside = format!(in alloc; "{path}.new")?;
        let known = version_at(files, path.as_str());
        Ok(SavedFile {
            path,
            beside,
            mode,
            saved: None,
            known,
            is_contested: false,
        })
    }

    /// Returns true if the path leads to a folder, a pipe or the like.
    pub fn is_taken<R: Files>(&self, files: &R) -> bool {
        match fs::metadata(files, self.path.as_str()) {
            Ok(found) => !found.is_file(),
            Err(_) => false,
        }
    }

    /// Returns the path with links resolved.
    pub fn path(&self) -> &str
        ensures { result.now ≡ self.now.path.bytes.items }
    {
        self.path.as_str()
    }

    /// Notes that another device may have replaced the file.
    pub fn contest(&mut self) {
        self.is_contested = true;
    }

    /// Saves a text. Writes nothing if the file has it, and no other program has changed the file
    /// since it was saved.
    ///
    /// Fails if another device may have replaced the file and there is a file that is not known.
    /// After an error the file has either the old text or the new one.
    pub fn save<R: Files<File = File>>(&mut self, files: &R, text: Vec<u8>) -> io::Result<()> {
        if self.has(files, text.as_slice()) {
            return Ok(());
        }
        if self.is_contested && self.is_replaced(files) {
            return Err(io::Error::new(
                ErrorKind::AlreadyExists,
                "another device has saved it: restart this one",
            ));
        }
        self.is_contested = false;
        self.saved = None;
        let version = self.replace(files, text.as_slice())?;
        self.saved = Some(Saved { text, version });
        Ok(())
    }

    fn is_replaced<R: Files>(&self, files: &R) -> bool {
        let found = version_at(files, self.path.as_str());
        found.is_some() && found != self.known
    }

    fn has<R: Files>(&self, files: &R, text: &[u8]) -> bool {
        match &self.saved {
            Some(saved) if saved.text.as_slice() == text => {
                version_at(files, self.path.as_str()) == Some(saved.version)
            }
            _ => false,
        }
    }

    fn replace<R: Files<File = File>>(&mut self, files: &R, text: &[u8]) -> io::Result<Version> {
        refuse_size(text.len())?;
        let (path, beside) = (self.path.as_str(), self.beside.as_str());
        let mut new = NewFile::beside(files, path, beside, self.mode);
        let replaced = replace(&mut new, text);
        let renamed = new.renamed();
        drop(new);
        if renamed.is_some() {
            self.known = renamed;
        }
        replaced?;
        renamed.ok_or(io::Error::from(ErrorKind::NotFound))
    }

    /// Links or copies the file to `kept`, in the same folder.
    ///
    /// Replaces an older file there. If this fails, the older one stays.
    pub fn keep_as<R: Files<File = File>>(
        &self,
        files: &R,
        alloc: Global,
        kept: &str,
    ) -> io::Result<()> {
        let path = self.path.as_str();
        let beside = format!(in alloc; "{kept}.new")?;
        remove_left_file(files, beside.as_str())?;
        let moved = move_copy(files, alloc, path, beside.as_str(), kept);
        // A rename leaves the file if the other path has the same one already.
        remove_left_file(files, beside.as_str())?;
        moved?;
        sync_folder(files, path)
    }
}

fn version_at<R: Files>(files: &R, path: &str) -> Option<Version> {
    let found = fs::metadata(files, path).ok()?;
    Some(Version::of(&found))
}

/// Links or copies a file to `beside`, and renames that to `kept`.
fn move_copy<R: Files<File = File>>(
    files: &R,
    alloc: Global,
    path: &str,
    beside: &str,
    kept: &str,
) -> io::Result<()> {
    if files.hard_link(path, beside).is_err() {
        copy(files, alloc, path, beside)?;
    }
    fs::rename(files, beside, kept)
}

fn copy<R: Files<File = File>>(files: &R, alloc: Global, from: &str, to: &str) -> io::Result<()> {
    let mut text = Vec::new(alloc);
    File::open(files, from)?.read_to_end(&mut text)?;
    refuse_size(text.len())?;
    let mut file = create_new(files, to, OWNER_ALONE, from)?;
    file.write_all(text.as_slice())?;
    file.sync_all()
}

fn resolve<R: Files>(files: &R, alloc: Global, path: &str) -> io::Result<String> {
    let is_link = match fs::symlink_metadata(files, path) {
        Ok(found) => found.file_type().is_symlink(),
        Err(_) => false,
    };
    if !is_link {
        return Ok(format!(in alloc; "{path}")?);
    }
    match files.canonicalize(alloc, path) {
        Ok(found) => Ok(found.into_string()),
        // The link exists, but not its file.
        Err(error) if error.kind() == ErrorKind::NotFound => read_link(files, alloc, path),
        Err(error) => Err(error),
    }
}

fn read_link<R: Files>(files: &R, alloc: Global, path: &str) -> io::Result<String> {
    let target = files.read_link(alloc, path)?;
    if target.as_path().is_absolute() {
        return Ok(target.into_string());
    }
    let target = target.into_string();
    let target = target.as_str();
    Ok(match path.rsplit_once('/') {
        Some((folder, _)) => format!(in alloc; "{folder}/{target}")?,
        None => format!(in alloc; "{target}")?,
    })
}
