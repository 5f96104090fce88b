//! The lines of a script that are printed before their outcomes.

ghost use Rattle.std.specs.Prelude.{◌≡◌, ◌≢◌, ◌<◌, [], ◌∷◌, ◌++◌, length, IfErr, IfOk, IfSome, OnErr, OnOk};
ghost use Rattle.std.specs.Io.KnownBytes.{Appends};
ghost use Rattle.octet_io.specs.Stream.{WritesFront};
ghost use Rattle.text_words.specs.Split.{lines_of};
ghost use Rattle.gatt_commands.specs.Echo.{lines_behind, echo_of, lines_left, lines_shown, says};
ghost use Rattle.gatt_commands.specs.Lines.{line_feed};

use memchr::memchr;
use shell_files::{ShellFault, print};
use std::io::Write;

/// The output of a run besides the frames of its clients.
#[derive(Clone, Copy)]
pub struct Shows {
    /// The notices to the application, after the outcome of each line.
    pub notices: bool,
    /// The lines of the script, each before its outcome.
    pub lines: bool,
}

/// The output of the lines that are left, besides the frames of clients.
#[derive(Clone, Copy)]
pub(crate) struct Shown<'a> {
    /// True if the notices to the application are shown.
    pub(crate) notices: bool,
    /// The text of the lines, if they are shown.
    pub(crate) lines: Option<&'a [u8]>,
}

/// Returns the text of a script, or `None` if its lines are not shown.
pub fn shown_text(text: &[u8], shows: bool) -> Option<&[u8]>
    ensures { lines_left result ≡ lines_shown shows text.now }
{
    if shows { Some(text) } else { None }
}

/// Prints lines up to the first that is neither blank nor a comment.
///
/// Returns the rest of the text.
pub fn echo<'a, W: Write>(
    text: Option<&'a [u8]>,
    writer: &mut W,
) -> Result<Option<&'a [u8]>, ShellFault>
    ensures ok { OnOk result (Appends (W.contents writer.old) (W.contents writer.new)
        (echo_of (lines_left text.entry))) }
    ensures left { IfOk result (λ left. lines_left left ≡ lines_behind (lines_left text.entry)) }
    ensures front { OnErr result (WritesFront (echo_of (lines_left text.entry))
        (W.contents writer.old) (W.contents writer.new)) }
    ensures faults { IfErr result (λ fault. fault ≡ ShellFault.Unwritten) }
    ensures shows { IfErr result (λ _. lines_left text.entry ≢ []) }
{
    let mut left = text;
    while let Some(rest) = left {
        let (line, behind) = first_line(rest);
        print_line(line, writer)?;
        left = behind;
        if says(line) {
            return Ok(left);
        }
    }
    Ok(left)
}

fn print_line<W: Write>(line: &[u8], writer: &mut W) -> Result<(), ShellFault>
    ensures ok { OnOk result
        (Appends (W.contents writer.old) (W.contents writer.new) (line.now ++ line_feed)) }
    ensures front { OnErr result (WritesFront (line.now ++ line_feed)
        (W.contents writer.old) (W.contents writer.new)) }
    ensures faults { IfErr result (λ fault. fault ≡ ShellFault.Unwritten) }
{
    print(line, writer)?;
    print(b"\n", writer)
}

fn first_line(text: &[u8]) -> (&[u8], Option<&[u8]>)
    ensures lines { lines_of text.now ≡ result.0.now ∷ lines_left result.1 }
    ensures shorter { IfSome result.1 (λ rest. length rest.now < length text.now) }
{
    match memchr(b'\n', text) {
        Some(end) => (&text[..end], Some(&text[end + 1..])),
        None => (text, None),
    }
}

fn says(line: &[u8]) -> bool
    ensures { result ≡ says line.now }
{
    !matches!(line, [] | [b'#', ..])
}
