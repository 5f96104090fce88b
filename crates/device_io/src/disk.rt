//! The calls of the system that replace a file.

ghost use Rattle.std.specs.Prelude.{◌≡◌, List, [], ◌∷◌, ◌++◌};
ghost use Rattle.std.specs.Borrow.{ftrue};
ghost use Rattle.std.specs.Result.{is_ok};
ghost use Rattle.device_io.specs.Disk.{call, Call};
ghost use Rattle.device_io.specs.DiskCalls.{call_noted};
ghost use Rattle.device_io.specs.DiskCode.{coded_calls};
ghost use Rattle.device_io.specs.Disk as step;

use std::io;
use std::marker::Model;

/// A file, and a new one in the same folder that replaces it. Each function is one call of the
/// system, and returns its outcome.
pub trait Disk {
    /// The calls that were made, in their order.
    ghost made: { Self → List Call };

    /// Removes a new file that an earlier attempt has left, if there is one.
    fn unlink(&mut self) -> io::Result<()>
        ensures { made self.new ≡ made self.old ++ call step.Unlink (is_ok result) ∷ [] };

    /// Creates the new file, which must not exist.
    fn create(&mut self) -> io::Result<()>
        ensures { made self.new ≡ made self.old ++ call step.Create (is_ok result) ∷ [] };

    /// Writes a text to the new file.
    fn write(&mut self, text: &[u8]) -> io::Result<()>
        ensures { made self.new ≡ made self.old ++ call (step.Write text.now) (is_ok result) ∷ [] };

    /// Waits until the contents of the new file are on the disk.
    fn sync(&mut self) -> io::Result<()>
        ensures { made self.new ≡ made self.old ++ call step.Sync (is_ok result) ∷ [] };

    /// Gives the new file the name of the file, which it replaces.
    fn rename(&mut self) -> io::Result<()>
        ensures { made self.new ≡ made self.old ++ call step.Rename (is_ok result) ∷ [] };

    /// Waits until the names in the folder are on the disk.
    fn sync_folder(&mut self) -> io::Result<()>
        ensures { made self.new ≡ made self.old ++ call step.SyncFolder (is_ok result) ∷ [] };
}

/// A call of the system.
#[derive(Clone, Copy)]
pub enum Step<'a> {
    Unlink,
    Create,
    Write(&'a [u8]),
    Sync,
    Rename,
    SyncFolder,
}

/// A call of the system, and whether it was done.
#[derive(Clone, Copy)]
pub struct Noted<'a> {
    pub step: Step<'a>,
    pub is_done: bool,
}

/// The calls so far, which only proofs read. A program keeps none of them.
#[derive(Drop)]
pub struct Made {
    kept: u8,
    pub ghost calls: { List Call } by { coded_calls },
}

impl Model for Made {
    ghost also_owns = { λ _. ftrue };
}

impl Made {
    /// Returns no calls.
    pub fn none() -> Made
        ensures { result.calls ≡ [] }
    {
        Made { kept: 0 }
    }

    /// Returns the calls with one more at their end.
    pub fn with(&self, _noted: &Noted<'_>) -> Made
        ensures { result.calls ≡ self.now.calls ++ call_noted _noted.now ∷ [] }
    {
        Made { kept: 0 }
    }
}
