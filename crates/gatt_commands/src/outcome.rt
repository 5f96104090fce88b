//! The outcome of a line of a script, as printed.

ghost use Rattle.std.specs.Prelude.{◌≡◌, ◌<◌, ◌≤◌, ◌++◌, length, Ok, IfErr, IfSome, OnErr, OnOk};
ghost use Rattle.std.specs.Io.KnownBytes.{Appends};
ghost use Rattle.le_acl.specs.declared.frame.TheConstants.{MAX_FRAME};
ghost use Rattle.le_l2cap.specs.Frame.{frame_of, BasicFrame};
ghost use Rattle.octet_io.specs.Stream.{WritesFront};
ghost use Rattle.sim_controller.specs.Simulated.{phone_at};
ghost use Rattle.gatt_commands.specs.Lines.{IsOfPhone, ended_line, frame_line, heard_line, outcome_text, phone_text, phones_text, refused_line, sign_of, with_told_phone, with_told_phones};

use crate::refused::Refused;
use arrayvec::ArrayVec;
use le_l2cap::{channel, read_frame};
use scripts::{MAX_PHONES, Name};
use shell_files::{ShellFault, print, print_hex_line, print_number_line};
use sim_controller::Sim;
use std::io::Write;

/// Prints a line's refusal, then each client's frames and the end of its connection.
#[tactic(auto, using(shell_files::proofs::Fronts::at_error, shell_files::proofs::Fronts::front_first, shell_files::proofs::Fronts::front_then, shell_files::proofs::Fronts::front_rest))]
pub fn print_outcome<W: Write>(
    sim: &mut Sim,
    names: &[Name<'_>],
    refused: Option<Refused>,
    writer: &mut W,
) -> Result<(), ShellFault>
    requires few { length names.now ≤ MAX_PHONES }
    requires named { IfSome refused (IsOfPhone (length names.now)) }
    ensures ok { OnOk result (Appends (W.contents writer.old) (W.contents writer.new)
        (outcome_text names.now refused sim.old.phones)) }
    ensures told { OnOk result (sim.new ≡ with_told_phones sim.old (length names.now)) }
    ensures front { OnErr result (WritesFront (outcome_text names.now refused sim.old.phones)
        (W.contents writer.old) (W.contents writer.new)) }
    ensures faults { IfErr result (λ fault. fault ≡ ShellFault.Unwritten) }
    ensures waiting { sim.new.waiting ≡ sim.old.waiting }
{
    if let Some(refused) = refused {
        print_refused(names, refused, writer)?;
    }
    print_phones(sim, names, writer)
}

/// Prints the frames of each client that has a name, in order of numbers.
fn print_phones<W: Write>(
    sim: &mut Sim,
    names: &[Name<'_>],
    writer: &mut W,
) -> Result<(), ShellFault>
    requires { length names.now ≤ MAX_PHONES }
    ensures ok { OnOk result (Appends (W.contents writer.old) (W.contents writer.new)
        (phones_text names.now sim.old.phones)) }
    ensures told { OnOk result (sim.new ≡ with_told_phones sim.old (length names.now)) }
    ensures front { OnErr result (WritesFront (phones_text names.now sim.old.phones)
        (W.contents writer.old) (W.contents writer.new)) }
    ensures faults { IfErr result (λ fault. fault ≡ ShellFault.Unwritten) }
    ensures waiting { sim.new.waiting ≡ sim.old.waiting }
{
    for phone in 0..names.len() {
        print_phone(sim, phone as u8, &names[phone], writer)?;
    }
    Ok(())
}

fn print_refused<W: Write>(
    names: &[Name<'_>],
    refused: Refused,
    writer: &mut W,
) -> Result<(), ShellFault>
    requires { IsOfPhone (length names.now) refused }
    ensures ok { OnOk result
        (Appends (W.contents writer.old) (W.contents writer.new) (refused_line names.now refused)) }
    ensures front { OnErr result (WritesFront (refused_line names.now refused)
        (W.contents writer.old) (W.contents writer.new)) }
    ensures faults { IfErr result (λ fault. fault ≡ ShellFault.Unwritten) }
{
    match refused {
        Refused::Call(number) => {
            print(b"fault ", writer)?;
            print_number_line(u64::from(number), writer)
        }
        Refused::Act { phone, number } => {
            print_name(&names[usize::from(phone)], b" refused ", writer)?;
            print_number_line(u64::from(number), writer)
        }
    }
}

fn print_phone<W: Write>(
    sim: &mut Sim,
    phone: u8,
    name: &Name<'_>,
    writer: &mut W,
) -> Result<(), ShellFault>
    requires { phone < MAX_PHONES }
    ensures ok { OnOk result (Appends (W.contents writer.old) (W.contents writer.new)
        (phone_text name.now (phone_at sim.old phone))) }
    ensures told { OnOk result (sim.new ≡ with_told_phone sim.old phone) }
    ensures front { OnErr result (WritesFront (phone_text name.now (phone_at sim.old phone))
        (W.contents writer.old) (W.contents writer.new)) }
    ensures faults { IfErr result (λ fault. fault ≡ ShellFault.Unwritten) }
    ensures waiting { sim.new.waiting ≡ sim.old.waiting }
{
    let mut frame = ArrayVec::new();
    while sim.heard(phone, &mut frame) {
        print_frame(name, frame.as_slice(), writer)?;
    }
    match sim.ended(phone) {
        Some(reason) => print_ended(name, reason, writer),
        None => Ok(()),
    }
}

/// Prints a frame as its channel and payload.
fn print_frame<W: Write>(name: &Name<'_>, octets: &[u8], writer: &mut W) -> Result<(), ShellFault>
    requires { length octets.now ≤ MAX_FRAME }
    ensures ok { (frame : BasicFrame) → frame_of octets.now ≡ Ok frame
        → OnOk result (Appends (W.contents writer.old) (W.contents writer.new)
        (frame_line name.now frame)) }
    ensures line { OnOk result
        (Appends (W.contents writer.old) (W.contents writer.new) (heard_line name.now octets.now)) }
    ensures front { OnErr result (WritesFront (heard_line name.now octets.now)
        (W.contents writer.old) (W.contents writer.new)) }
    ensures faults { IfErr result (λ fault. fault ≡ ShellFault.Unwritten) }
{
    let Ok(frame) = read_frame(octets) else {
        return Ok(());
    };
    print_name(name, sign_of(frame.cid), writer)?;
    print_hex_line(frame.payload, writer)
}

/// Returns the text between a name and a payload.
fn sign_of(cid: u16) -> &'static [u8]
    ensures { result.now ≡ sign_of cid }
{
    if cid == channel::LE_SIGNALLING {
        b" >5 "
    } else if cid == channel::SECURITY_MANAGER {
        b" >6 "
    } else {
        b" > "
    }
}

fn print_ended<W: Write>(name: &Name<'_>, reason: u8, writer: &mut W) -> Result<(), ShellFault>
    ensures ok { OnOk result
        (Appends (W.contents writer.old) (W.contents writer.new) (ended_line name.now reason)) }
    ensures front { OnErr result
        (WritesFront (ended_line name.now reason) (W.contents writer.old) (W.contents writer.new)) }
    ensures faults { IfErr result (λ fault. fault ≡ ShellFault.Unwritten) }
{
    print_name(name, b" ended ", writer)?;
    print_hex_line(&[reason], writer)
}

fn print_name<W: Write>(name: &Name<'_>, behind: &[u8], writer: &mut W) -> Result<(), ShellFault>
    ensures ok { OnOk result
        (Appends (W.contents writer.old) (W.contents writer.new) (name.now ++ behind.now)) }
    ensures front { OnErr result
        (WritesFront (name.now ++ behind.now) (W.contents writer.old) (W.contents writer.new)) }
    ensures faults { IfErr result (λ fault. fault ≡ ShellFault.Unwritten) }
{
    print(name.as_str().as_bytes(), writer)?;
    print(behind, writer)
}
