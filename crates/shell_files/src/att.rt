ghost use Rattle.std.specs.Prelude.{◌≡◌, ℕ, ◌+◌, ◌^◌, ◌<◌, ◌≤◌, length, OnOk, IfErr, IfSome, None};
ghost use Rattle.std.specs.Io.KnownBytes.{Appends, Keeps};
ghost use Rattle.octet_io.specs.Stream.{WritesFront};
ghost use Rattle.shell_files.specs.Att.{door_read, printed_for, bad_line_of, IsAttFault};
ghost use Rattle.shell_files.specs.Session.{IsAnsweringFault, IsLineFault, IsStart, Passes, StopsAt, BreaksOffPrinting};
ghost use Rattle.shell_files.specs.TableFile.{TableIsRefusedAs};

use crate::fault::ShellFault;
use crate::input::{CHUNK, READS};
use crate::session::Session;
use std::alloc::Global;
use std::io::{ErrorKind, Read, Write};

/// Answers an input of ATT PDUs, one line of hexadecimal each.
///
/// The PDUs reach the example door lock from one unknown, unencrypted peer. Prints each answer as a
/// line, `-` for none, and skips blank lines. Flushes the writer after each read, so it may buffer.
/// Allocates memory only before the first read.
pub fn att_lines<R: Read, W: Write>(
    alloc: Global,
    reader: &mut R,
    writer: &mut W,
) -> Result<(), ShellFault>
    // If the input is known, the answers to all lines, or to those before the first bad one, are
    // printed.
    ensures ok { OnOk result (IfSome (R.remaining reader.old) (λ input.
        (bad_line_of input ≡ None)
        × Appends (W.contents writer.old) (W.contents writer.new) (printed_for input))) }
    ensures not_hex { (number : ℕ) → result ≡ Err (ShellFault.NotHex number)
        → IfSome (R.remaining reader.old) (λ input.
        (bad_line_of input ≡ Some number)
        × Appends (W.contents writer.old) (W.contents writer.new) (printed_for input)) }
    // After `Unreadable` or `Unwritten`, a prefix of that is printed; after `Memory`, nothing.
    ensures unreadable { result ≡ Err ShellFault.Unreadable
        → IfSome (R.remaining reader.old) (λ input.
        WritesFront (printed_for input) (W.contents writer.old) (W.contents writer.new)) }
    ensures unwritten { result ≡ Err ShellFault.Unwritten
        → IfSome (R.remaining reader.old) (λ input.
        WritesFront (printed_for input) (W.contents writer.old) (W.contents writer.new)) }
    ensures memory { result ≡ Err ShellFault.Memory
        → Keeps (W.contents writer.old) (W.contents writer.new) }
    ensures table { (number : ℕ) → result ≡ Err (ShellFault.Table number)
        → TableIsRefusedAs number door_read }
    ensures faults { IfErr result IsAttFault }
{
    let mut session = Session::new(alloc)?;
    answer_input(&mut session, reader, writer)
}

fn answer_input<R: Read, W: Write>(
    session: &mut Session,
    reader: &mut R,
    writer: &mut W,
) -> Result<(), ShellFault>
    requires { IsStart session.old }
    ensures ok { OnOk result (IfSome (R.remaining reader.old) (λ input.
        (bad_line_of input ≡ None)
        × Appends (W.contents writer.old) (W.contents writer.new) (printed_for input))) }
    ensures not_hex { (number : ℕ) → result ≡ Err (ShellFault.NotHex number)
        → IfSome (R.remaining reader.old) (λ input.
        (bad_line_of input ≡ Some number)
        × Appends (W.contents writer.old) (W.contents writer.new) (printed_for input)) }
    ensures unreadable { result ≡ Err ShellFault.Unreadable
        → IfSome (R.remaining reader.old) (λ input.
        WritesFront (printed_for input) (W.contents writer.old) (W.contents writer.new)) }
    ensures unwritten { result ≡ Err ShellFault.Unwritten
        → IfSome (R.remaining reader.old) (λ input.
        WritesFront (printed_for input) (W.contents writer.old) (W.contents writer.new)) }
    ensures faults { IfErr result IsAnsweringFault }
{
    let mut chunk = [0; CHUNK];
    for _read in 0..READS {
        match reader.read(&mut chunk) {
            Ok(0) => return session.finish(writer),
            Ok(count) => take_and_write_out(session, &chunk[..count], writer)?,
            Err(error) if error.kind() == ErrorKind::Interrupted => {}
            Err(_) => return Err(ShellFault::Unreadable),
        }
    }
    Err(ShellFault::Unreadable)
}

fn take_and_write_out<W: Write>(
    session: &mut Session,
    octets: &[u8],
    writer: &mut W,
) -> Result<(), ShellFault>
    requires { session.old.number + length octets.now < 2 ^ 64 }
    ensures passes { OnOk result (Passes session.old session.new octets.now
        (W.contents writer.old) (W.contents writer.new)) }
    ensures stops { (number : ℕ) → result ≡ Err (ShellFault.NotHex number)
        → StopsAt session.old octets.now number (W.contents writer.old) (W.contents writer.new) }
    ensures breaks_off { result ≡ Err ShellFault.Unwritten
        → BreaksOffPrinting session.old octets.now (W.contents writer.old)
        (W.contents writer.new) }
    ensures faults { IfErr result IsLineFault }
    ensures counts { OnOk result (session.new.number ≤ session.old.number + length octets.now) }
{
    session.take(octets, writer)?;
    if writer.flush().is_err() {
        return Err(ShellFault::Unwritten);
    }
    Ok(())
}
