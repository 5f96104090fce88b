//! The output for a line of a script.

ghost use Rattle.std.specs.Prelude.{◌≡◌, ◌≤◌, length, IfErr, IfSome, OnErr, OnOk};
ghost use Rattle.std.specs.Io.KnownBytes.{Appends};
ghost use Rattle.octet_io.specs.Stream.{WritesFront};
ghost use Rattle.gatt_commands.specs.Lines.{IsOfPhone, with_told_phones};
ghost use Rattle.gatt_commands.specs.Runs.{line_text};

use crate::notes::Notes;
use crate::outcome::print_outcome;
use crate::refused::Refused;
use scripts::{MAX_PHONES, Name};
use shell_files::{ShellFault, print};
use sim_controller::Sim;
use std::io::Write;

/// Prints the outcome of a line, then its notices.
pub(crate) fn print_line<W: Write>(
    sim: &mut Sim,
    names: &[Name<'_>],
    refused: Option<Refused>,
    notes: &Notes,
    writer: &mut W,
) -> Result<(), ShellFault>
    requires few { length names.now ≤ MAX_PHONES }
    requires named { IfSome refused (IsOfPhone (length names.now)) }
    ensures ok { OnOk result (Appends (W.contents writer.old) (W.contents writer.new)
        (line_text names.now refused sim.old notes.now)) }
    ensures told { OnOk result (sim.new ≡ with_told_phones sim.old (length names.now)) }
    ensures front { OnErr result (WritesFront (line_text names.now refused sim.old notes.now)
        (W.contents writer.old) (W.contents writer.new)) }
    ensures faults { IfErr result (λ fault. fault ≡ ShellFault.Unwritten) }
    ensures waiting { sim.new.waiting ≡ sim.old.waiting }
{
    print_outcome(sim, names, refused, writer)?;
    print(notes.text.as_slice(), writer)
}
