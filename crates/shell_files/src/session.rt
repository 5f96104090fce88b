ghost use Rattle.std.specs.Prelude.{◌≡◌, ℕ, ◌+◌, ◌^◌, ◌<◌, ◌≤◌, [], ◌∷◌, length, None, OnOk, IfErr, IfOk};
ghost use Rattle.std.specs.Io.KnownBytes.{Appends};
ghost use Rattle.shell_files.specs.Att.{pdu_of, door_server};
ghost use Rattle.shell_files.specs.Session.{IsStartFault, empty_report, ends_at};

use crate::fault::ShellFault;
use crate::output::{print, print_hex_line};
use crate::server::DoorServer;
use arrayvec::ArrayVec;
use std::alloc::Global;
use std::io::Write;

/// The most octets of a PDU in a line of `att`.
const MAX_LINE_OCTETS: usize = 520;

const MAX_DIGITS: usize = 2 * MAX_LINE_OCTETS;

/// A server of the example door lock, and the line of input that has begun.
#[derive(Drop)]
pub(crate) struct Session {
    server: DoorServer,
    line: ArrayVec<u8, MAX_DIGITS>,
    /// The number of the line, from 1.
    number: u64,
}

impl Session {
    ghost use Rattle.shell_files.specs.Session.{server_of, IsStartFault, AnswersLine, Passes, StopsAt, Ends, BreaksOffPrinting, EndsBroken, BreaksLine, IsLineFault};

    pub(crate) fn new(alloc: Global) -> Result<Session, ShellFault>
        ensures server { IfOk result (λ session. server_of session ≡ door_server) }
        ensures line { IfOk result (λ session. session.line.items ≡ []) }
        ensures number { IfOk result (λ session. session.number ≡ 1) }
        ensures refused { IfErr result IsStartFault }
    {
        Ok(Session {
            server: DoorServer::new(alloc)?,
            line: ArrayVec::new(),
            number: 1,
        })
    }

    /// Processes bytes of the input, and answers each line that they end.
    pub(crate) fn take<W: Write>(&mut self, octets: &[u8], writer: &mut W) -> Result<(), ShellFault>
        requires { self.old.number + length octets.now < 2 ^ 64 }
        ensures passes { OnOk result
            (Passes self.old self.new octets.now (W.contents writer.old) (W.contents writer.new)) }
        ensures stops { (number : ℕ) → result ≡ Err (ShellFault.NotHex number)
            → StopsAt self.old octets.now number (W.contents writer.old) (W.contents writer.new) }
        ensures breaks_off { result ≡ Err ShellFault.Unwritten
            → BreaksOffPrinting self.old octets.now (W.contents writer.old)
            (W.contents writer.new) }
        ensures faults { IfErr result IsLineFault }
        ensures counts { OnOk result (self.new.number ≤ self.old.number + length octets.now) }
    {
        for &octet in octets {
            self.take_octet(octet, writer)?;
        }
        Ok(())
    }

    fn take_octet<W: Write>(&mut self, octet: u8, writer: &mut W) -> Result<(), ShellFault>
        requires { self.old.number + 1 < 2 ^ 64 }
        ensures passes { OnOk result
            (Passes self.old self.new (octet ∷ []) (W.contents writer.old)
            (W.contents writer.new)) }
        ensures stops { (number : ℕ) → result ≡ Err (ShellFault.NotHex number)
            → StopsAt self.old (octet ∷ []) number (W.contents writer.old)
            (W.contents writer.new) }
        ensures breaks_off { result ≡ Err ShellFault.Unwritten
            → BreaksOffPrinting self.old (octet ∷ []) (W.contents writer.old)
            (W.contents writer.new) }
        ensures faults { IfErr result IsLineFault }
        ensures counts { OnOk result (self.new.number ≤ self.old.number + 1) }
    {
        if octet != b'\n' {
            return match self.line.try_push(octet) {
                Ok(()) => Ok(()),
                Err(_) => Err(ShellFault::NotHex(self.number)),
            };
        }
        if !self.line.is_empty() {
            self.answer_line(writer)?;
        }
        self.line.clear();
        self.number += 1;
        Ok(())
    }

    /// Answers a last line that has no line feed.
    pub(crate) fn finish<W: Write>(&mut self, writer: &mut W) -> Result<(), ShellFault>
        ensures ends { OnOk result
            (Ends self.old empty_report (W.contents writer.old) (W.contents writer.new)) }
        ensures stops { (number : ℕ) → result ≡ Err (ShellFault.NotHex number)
            → Ends self.old (ends_at number) (W.contents writer.old) (W.contents writer.new) }
        ensures breaks_off { result ≡ Err ShellFault.Unwritten
            → EndsBroken self.old (W.contents writer.old) (W.contents writer.new) }
        ensures faults { IfErr result IsLineFault }
    {
        if self.line.is_empty() {
            return Ok(());
        }
        self.answer_line(writer)
    }

    /// Answers the line, which is not blank.
    #[tactic(auto, using(crate::proofs::Printing::answered_line, crate::proofs::Printing::unanswered_line))]
    fn answer_line<W: Write>(&mut self, writer: &mut W) -> Result<(), ShellFault>
        ensures answered { OnOk result
            (AnswersLine self.old self.new (W.contents writer.old) (W.contents writer.new)) }
        ensures not_hex { (number : ℕ) → result ≡ Err (ShellFault.NotHex number)
            → (pdu_of self.old.line.items ≡ None) × (number ≡ self.old.number)
            × Appends (W.contents writer.old) (W.contents writer.new) [] }
        ensures breaks_off { result ≡ Err ShellFault.Unwritten
            → BreaksLine self.old (W.contents writer.old) (W.contents writer.new) }
        ensures faults { IfErr result IsLineFault }
    {
        let mut octets = [0; MAX_LINE_OCTETS];
        let pdu = &mut octets[..self.line.len() / 2];
        if hex::decode_to_slice(self.line.as_slice(), pdu).is_err() {
            return Err(ShellFault::NotHex(self.number));
        }
        let mut answer = ArrayVec::new();
        if self.server.answer(pdu, &mut answer) {
            print_hex_line(answer.as_slice(), writer)
        } else {
            print(b"-\n", writer)
        }
    }
}
