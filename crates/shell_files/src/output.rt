//! Output of the commands.

ghost use Rattle.std.specs.Prelude.{◌≡◌, ◌≤◌, ◌*◌, ◌++◌, ◌∷◌, [], length, IfErr, OnErr, OnOk};
ghost use Rattle.std.specs.Fmt.{decimal};
ghost use Rattle.hex.specs.Hex.{encode_lower};
ghost use Rattle.std.specs.Io.KnownBytes.{Appends};
ghost use Rattle.octet_io.specs.Stream.{WritesFront};

use crate::fault::ShellFault;
use itoa::Buffer;
use octet_io::MAX_PDU;
use std::io::{ErrorKind, Write};

/// Writes a text, and retries interrupted writes.
///
/// Returns `Unwritten` if the writer fails, after a prefix of the text.
pub fn print<W: Write>(text: &[u8], writer: &mut W) -> Result<(), ShellFault>
    ensures ok { OnOk result (Appends (W.contents writer.old) (W.contents writer.new) text.now) }
    ensures front { OnErr result
        (WritesFront text.now (W.contents writer.old) (W.contents writer.new)) }
    ensures faults { IfErr result (λ fault. fault ≡ ShellFault.Unwritten) }
{
    let mut rest = text;
    for _write in 0..u64::MAX {
        if rest.is_empty() {
            return Ok(());
        }
        match writer.write(rest) {
            Ok(0) => return Err(ShellFault::Unwritten),
            Ok(count) => rest = rest.split_at(count).1,
            Err(error) if error.kind() == ErrorKind::Interrupted => {}
            Err(_) => return Err(ShellFault::Unwritten),
        }
    }
    Err(ShellFault::Unwritten)
}

/// Writes octets of at most a PDU in hexadecimal and a line feed. Errors: as `print`.
pub fn print_hex_line<W: Write>(octets: &[u8], writer: &mut W) -> Result<(), ShellFault>
    requires { length octets.now ≤ MAX_PDU }
    ensures ok { OnOk result (Appends (W.contents writer.old) (W.contents writer.new)
        (encode_lower octets.now ++ 10 ∷ [])) }
    ensures front { OnErr result (WritesFront (encode_lower octets.now ++ 10 ∷ [])
        (W.contents writer.old) (W.contents writer.new)) }
    ensures faults { IfErr result (λ fault. fault ≡ ShellFault.Unwritten) }
{
    let mut text = [0; 2 * MAX_PDU + 1];
    let end = 2 * octets.len();
    hex::encode_to_slice(octets, &mut text[..end]).unwrap();
    text[end] = b'\n';
    print(&text[..=end], writer)
}

/// Writes a number in decimal and a line feed. Errors: as `print`.
pub fn print_number_line<W: Write>(number: u64, writer: &mut W) -> Result<(), ShellFault>
    ensures ok { OnOk result
        (Appends (W.contents writer.old) (W.contents writer.new) (decimal number ++ 10 ∷ [])) }
    ensures front { OnErr result
        (WritesFront (decimal number ++ 10 ∷ []) (W.contents writer.old)
        (W.contents writer.new)) }
    ensures faults { IfErr result (λ fault. fault ≡ ShellFault.Unwritten) }
{
    let mut digits = Buffer::new();
    print(digits.format(number).as_bytes(), writer)?;
    print(b"\n", writer)
}
