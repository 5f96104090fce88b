//! The new file that takes the place of a file on the system's disks.

ghost use Rattle.std.specs.Prelude.{◌≡◌, ◌∷◌, ◌++◌, []};
ghost use Rattle.device_io.specs.Disk.{call};
ghost use Rattle.device_io.specs.DiskCalls.{step_of};

use crate::disk::{Disk, Made, Noted, Step};
use crate::version::Version;
use std::fs::{File, Files, OpenFile};
use std::io::{ErrorKind, Write};
use std::os::unix::fs::{MetadataExt, OpenOptionsExt, fchown};
use std::{fs, io};

/// A file that is replaced, and the new one in the same folder.
#[derive(Drop)]
pub(crate) struct NewFile<'a, R> {
    files: &'a R,
    path: &'a str,
    beside: &'a str,
    mode: u32,
    /// The new file while it is written.
    file: Option<File>,
    /// Its identity, from its sync on.
    version: Option<Version>,
    /// Set once it has replaced the file.
    is_renamed: bool,
    made: Made,
}

impl<'a, R> NewFile<'a, R> {
    /// Returns the file at `path`, and at `beside` a new one that is not created yet.
    ///
    /// `mode` is its permission if there is no file at `path`.
    pub(crate) fn beside(
        files: &'a R,
        path: &'a str,
        beside: &'a str,
        mode: u32,
    ) -> NewFile<'a, R> {
        NewFile {
            files,
            path,
            beside,
            mode,
            file: None,
            version: None,
            is_renamed: false,
            made: Made::none(),
        }
    }
}

impl<R> NewFile<'_, R> {
    /// Returns the identity of the new file if it has replaced the file.
    pub(crate) fn renamed(&self) -> Option<Version> {
        if self.is_renamed { self.version } else { None }
    }

    fn note(&mut self, step: Step<'_>, is_done: bool)
        ensures { self.new.made.calls
            ≡ self.old.made.calls ++ call (step_of step.entry) is_done ∷ [] }
    {
        self.made = self.made.with(&Noted { step, is_done });
    }

    fn sync_contents(&mut self) -> io::Result<()>
        ensures { self.new.made.calls ≡ self.old.made.calls }
    {
        match &self.file {
            Some(file) => {
                file.sync_all()?;
                self.version = Some(Version::of(&file.metadata()?));
                Ok(())
            }
            None => Err(io::Error::from(ErrorKind::NotFound)),
        }
    }
}

impl<R: Files<File = File>> Disk for NewFile<'_, R> {
    ghost made = { λ file. file.made.calls };

    fn unlink(&mut self) -> io::Result<()> {
        let unlinked = remove_left_file(self.files, self.beside);
        self.note(Step::Unlink, unlinked.is_ok());
        unlinked
    }

    fn create(&mut self) -> io::Result<()> {
        let created = create_new(self.files, self.beside, self.mode, self.path);
        self.note(Step::Create, created.is_ok());
        match created {
            Ok(file) => {
                self.file = Some(file);
                Ok(())
            }
            Err(error) => Err(error),
        }
    }

    fn write(&mut self, text: &[u8]) -> io::Result<()> {
        let written = match &mut self.file {
            Some(file) => file.write_all(text),
            None => Err(io::Error::from(ErrorKind::NotFound)),
        };
        self.note(Step::Write(text), written.is_ok());
        written
    }

    fn sync(&mut self) -> io::Result<()> {
        let synced = self.sync_contents();
        self.note(Step::Sync, synced.is_ok());
        synced
    }

    fn rename(&mut self) -> io::Result<()> {
        let renamed = fs::rename(self.files, self.beside, self.path);
        self.is_renamed = renamed.is_ok();
        self.note(Step::Rename, renamed.is_ok());
        renamed
    }

    fn sync_folder(&mut self) -> io::Result<()> {
        let synced = sync_folder(self.files, self.path);
        self.note(Step::SyncFolder, synced.is_ok());
        synced
    }
}

/// Creates a new file. It has the permission of the file at `old` if that exists, and as far as
/// allowed its owner and group, or else the permission `mode`.
pub(crate) fn create_new<R: Files<File = File>>(
    files: &R,
    path: &str,
    mode: u32,
    old: &str,
) -> io::Result<File> {
    let file = File::options()
        .write(true)
        .create_new(true)
        .mode(mode)
        .open(files, path)?;
    if let Ok(old) = fs::metadata(files, old) {
        // Only root may change the owner; others may choose among their groups.
        let _ = fchown(&file, None, Some(old.gid()));
        let _ = fchown(&file, Some(old.uid()), None);
        file.set_permissions(old.permissions())?;
    }
    Ok(file)
}

/// Removes the file that an earlier attempt has left at a path, if there is one.
pub(crate) fn remove_left_file<R: Files>(files: &R, path: &str) -> io::Result<()> {
    match fs::remove_file(files, path) {
        Err(error) if error.kind() != ErrorKind::NotFound => Err(error),
        _ => Ok(()),
    }
}

/// Waits until the names in the folder of a file are on the disk.
pub(crate) fn sync_folder<R: Files>(files: &R, path: &str) -> io::Result<()> {
    let folder = match path.rsplit_once('/') {
        Some(("", _)) => "/",
        Some((folder, _)) => folder,
        None => ".",
    };
    File::open(files, folder)?.sync_all()
}
