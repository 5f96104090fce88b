ghost use Rattle.std.specs.Prelude.{◌≡◌, ◌+◌, ◌≤◌, ◌++◌, length};
ghost use Rattle.std.specs.Fmt.{decimal};
ghost use Rattle.arrayvec.specs.ArrayVec.{array_vec_len};
ghost use Rattle.shell_files.specs.Fault.{fault_text, exit_status_of};
ghost use Rattle.shell_files.specs.declared.fault.ShellFault.TheVariants.{Memory};

use arrayvec::ArrayVec;
use itoa::Buffer;
use std::alloc::AllocError;

/// A reason why a command ended early. A number is that of the fault in its file, host or
/// controller.
#[derive(Clone, Copy, PartialEq, Eq)]
pub enum ShellFault {
    Table(u8),
    Keys(u8),
    /// A fault of the subscriptions file.
    Rows(u8),
    /// A fault of the table that replaces the first.
    Next(u8),
    /// The first bad line of a script, from 1.
    Script(u64),
    /// A fault with which the host stopped.
    Host(u8),
    /// A fault for which the simulated controller refused a packet of the host.
    Controller(u8),
    /// Host and controller exchanged more packets than a run may have.
    TooLong,
    /// The first line of input, from 1, that is not hexadecimal.
    NotHex(u64),
    /// An input could not be read to its end.
    Unreadable,
    Unwritten,
    /// No connection could be listened for or accepted.
    Listen,
    Memory,
}

impl From<AllocError> for ShellFault {
    ghost from_gives = { λ _ fault. fault ≡ Memory };

    fn from(_refused: AllocError) -> ShellFault {
        ShellFault::Memory
    }
}

/// Replaces `out` by the text of `fault`, without a line feed.
pub fn text(fault: &ShellFault, out: &mut ArrayVec<u8, 40>)
    ensures replaced { out.new.items ≡ fault_text fault.now }
{
    out.clear();
    match *fault {
        ShellFault::Table(number) => push_numbered(out, "table: fault ", u64::from(number)),
        ShellFault::Keys(number) => push_numbered(out, "keys: fault ", u64::from(number)),
        ShellFault::Rows(number) => push_numbered(out, "rows: fault ", u64::from(number)),
        ShellFault::Next(number) => push_numbered(out, "next: fault ", u64::from(number)),
        ShellFault::Script(line) => push_numbered(out, "script: line ", line),
        ShellFault::Host(number) => push_numbered(out, "host: fault ", u64::from(number)),
        ShellFault::Controller(number) => {
            push_numbered(out, "controller: fault ", u64::from(number));
        }
        ShellFault::TooLong => push_text(out, "exchange: too long"),
        ShellFault::NotHex(line) => {
            push_numbered(out, "line ", line);
            push_text(out, ": not hex");
        }
        ShellFault::Unreadable => push_text(out, "file: unreadable"),
        ShellFault::Unwritten => push_text(out, "file: unwritten"),
        ShellFault::Listen => push_text(out, "listen: failed"),
        ShellFault::Memory => push_text(out, "memory: refused"),
    }
}

/// Returns the exit status for `fault`.
///
/// It is 1 for a file that is refused, unreadable or unwritten, and otherwise 2.
pub fn status(fault: &ShellFault) -> u8
    ensures value { result ≡ exit_status_of fault.now }
{
    match fault {
        ShellFault::Table(_)
        | ShellFault::Keys(_)
        | ShellFault::Rows(_)
        | ShellFault::Next(_)
        | ShellFault::Script(_)
        | ShellFault::Unreadable
        | ShellFault::Unwritten => 1,
        ShellFault::Host(_)
        | ShellFault::Controller(_)
        | ShellFault::TooLong
        | ShellFault::NotHex(_)
        | ShellFault::Listen
        | ShellFault::Memory => 2,
    }
}

pub(crate) fn push_numbered<const CAP: usize>(
    out: &mut ArrayVec<u8, CAP>,
    before: &str,
    number: u64,
)
    requires { array_vec_len out.old + length before.now + 20 ≤ CAP }
    ensures items { out.new.items ≡ out.old.items ++ before.now ++ decimal number }
    ensures len { array_vec_len out.new ≤ array_vec_len out.old + length before.now + 20 }
{
    let mut digits = Buffer::new();
    push_text(out, before);
    push_text(out, digits.format(number));
}

fn push_text<const CAP: usize>(out: &mut ArrayVec<u8, CAP>, piece: &str)
    requires { array_vec_len out.old + length piece.now ≤ CAP }
    ensures items { out.new.items ≡ out.old.items ++ piece.now }
    ensures len { array_vec_len out.new ≡ array_vec_len out.old + length piece.now }
{
    out.try_extend_from_slice(piece.as_bytes()).unwrap();
}
