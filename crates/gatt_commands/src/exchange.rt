//! Packets between a host and its simulated controller.

ghost use Rattle.std.specs.Prelude.{◌≡◌, [], true, IfErr, IfOk, IsOk, IsSome, None, OnOk};
ghost use Rattle.std.specs.Bool.{OnFalse, OnTrue};
ghost use Rattle.gatt_host.specs.HostModel.{all_out, fault_outcome, Takes};
ghost use Rattle.gatt_laws.specs.machine.Input.{APacket};
ghost use Rattle.le_h4.specs.Packet.{packet_of_ref};
ghost use Rattle.gatt_commands.specs.Notices.{NotesWhatIsTold};
ghost use Rattle.gatt_commands.specs.Exchange.{ControllerAnswers, ExchangesUntil, HandsNext, HostAnswers, HostHears, IsQuiet, NotesTaken, pair_of};
ghost use Rattle.gatt_commands.specs.Faults.{IsExchangeFault};

use crate::notes::Notes;
use arrayvec::ArrayVec;
use gatt_host::{Host, HostFault, lost_fault};
use le_h4::{Deframer, PacketRef};
use shell_files::ShellFault;
use sim_controller::Sim;

/// The largest number of packets that are exchanged before a line.
pub(crate) const MAX_EXCHANGED: u64 = 100_000;

/// Exchanges packets until host and controller have none, and records notices.
///
/// Hands over a packet of the controller only if the host has none. Returns `TooLong` if another
/// packet is left after `MAX_EXCHANGED`.
pub(crate) fn exchange(host: &mut Host, sim: &mut Sim, notes: &mut Notes) -> Result<(), ShellFault>
    ensures exchanges { ExchangesUntil result (pair_of host.old sim.old notes.old)
        (pair_of host.new sim.new notes.new) }
    ensures out { IsOk result → all_out host.new ≡ true }
    ensures taken { IsOk result → sim.new.waiting ≡ [] }
    ensures faults { IfErr result IsExchangeFault }
{
    for _packet in 0..MAX_EXCHANGED {
        if !hand_over(host, sim, notes)? {
            return Ok(());
        }
    }
    if has_packet(host, sim) {
        return Err(ShellFault::TooLong);
    }
    Ok(())
}

/// Hands over the next packet. Returns false if there is none.
fn hand_over(host: &mut Host, sim: &mut Sim, notes: &mut Notes) -> Result<bool, ShellFault>
    ensures hands { HandsNext result (pair_of host.old sim.old notes.old)
        (pair_of host.new sim.new notes.new) }
    ensures out { IfOk result (λ handed. OnFalse handed (all_out host.new ≡ true)) }
    ensures taken { IfOk result (λ handed. OnFalse handed (sim.new.waiting ≡ [])) }
    ensures faults { IfErr result IsExchangeFault }
{
    let mut packet = ArrayVec::new();
    if host.next_out(&mut packet) {
        give_controller(sim, packet.as_slice())?;
        return Ok(true);
    }
    if sim.next_to_host(&mut packet) {
        give_host(host, packet.as_slice(), notes)?;
        return Ok(true);
    }
    Ok(false)
}

/// Returns true if another packet would be handed over.
fn has_packet(host: &Host, sim: &mut Sim) -> bool
    ensures quiet { OnFalse result (IsQuiet host.now sim.old) }
    ensures unchanged { OnFalse result (sim.new ≡ sim.old) }
    ensures more { OnTrue result (IsQuiet host.now sim.old → ⊥) }
    ensures out { OnFalse result (all_out host.now ≡ true) }
    ensures taken { OnFalse result (sim.new.waiting ≡ []) }
{
    !host.drained() || sim.next_to_host(&mut ArrayVec::new())
}

fn give_controller(sim: &mut Sim, packet: &[u8]) -> Result<(), ShellFault>
    ensures answers { ControllerAnswers packet.now result sim.old sim.new }
    ensures faults { IfErr result IsExchangeFault }
{
    match sim.from_host(packet) {
        Ok(()) => Ok(()),
        Err(fault) => Err(ShellFault::Controller(fault.number())),
    }
}

fn give_host(host: &mut Host, packet: &[u8], notes: &mut Notes) -> Result<(), ShellFault>
    requires { all_out host.old ≡ true }
    ensures answers { HostAnswers packet.now result host.old host.new }
    ensures noted { OnOk result (NotesTaken packet.now host.new notes.old notes.new) }
    ensures faults { IfErr result IsExchangeFault }
{
    match feed_packet(host, packet, notes) {
        Ok(()) => Ok(()),
        Err(fault) => Err(ShellFault::Host(fault.number())),
    }
}

/// Processes the first packet of some octets, and records the notices.
fn feed_packet(host: &mut Host, octets: &[u8], notes: &mut Notes) -> Result<(), HostFault>
    requires { all_out host.old ≡ true }
    ensures hears { HostHears octets.now result host.old host.new }
    ensures noted { OnOk result (NotesTaken octets.now host.new notes.old notes.new) }
{
    let mut deframer = Deframer::new();
    match deframer.feed(octets) {
        Ok(fed) if fed.packet => take(host, deframer.packet(), notes),
        Ok(_) => Ok(()),
        Err(fault) => Err(lost_fault(fault)),
    }
}

fn take(host: &mut Host, packet: PacketRef<'_>, notes: &mut Notes) -> Result<(), HostFault>
    requires { all_out host.old ≡ true }
    ensures outcome { result ≡ fault_outcome host.new.fault }
    ensures takes { host.old.fault ≡ None
        → Takes (APacket (packet_of_ref packet.entry)) host.old host.new }
    ensures stopped { IsSome host.old.fault → host.new ≡ host.old }
    ensures noted { OnOk result (NotesWhatIsTold host.new notes.old notes.new) }
{
    host.packet(packet)?;
    notes.hear(host);
    Ok(())
}
