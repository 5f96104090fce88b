//! The replacement of a file, whose power may fail at any moment.

ghost use Rattle.std.specs.Prelude.{◌≡◌};
ghost use Rattle.std.specs.Result.{is_ok};
ghost use Rattle.device_io.specs.Disk.{replacement, KeepsNewOnceDone, KeepsOldOrNew};
ghost use Rattle.device_io.specs.DiskCalls.{HasPerformed};

use crate::disk::Disk;
use std::io;

/// Replaces a file by a text. If the power fails, the file has either the old text or the new one.
///
/// After an error it has one of them, too.
pub fn replace<D: Disk>(disk: &mut D, text: &[u8]) -> io::Result<()>
    // A file is replaced by six calls of the system, in this order.
    ensures calls { HasPerformed (replacement text.now) (is_ok result)
        (D.made disk.old) (D.made disk.new) }
    // For each disk, and each moment at which its power fails:
    ensures kept { KeepsOldOrNew }
    ensures done { KeepsNewOnceDone }
{
    make_calls(disk, text)
}

fn make_calls<D: Disk>(disk: &mut D, text: &[u8]) -> io::Result<()>
    ensures { HasPerformed (replacement text.now) (is_ok result)
        (D.made disk.old) (D.made disk.new) }
{
    disk.unlink()?;
    disk.create()?;
    disk.write(text)?;
    disk.sync()?;
    disk.rename()?;
    disk.sync_folder()
}
