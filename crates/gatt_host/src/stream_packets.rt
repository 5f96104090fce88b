//! Processes the controller's stream up to the end of a packet.

ghost use Rattle.std.specs.Prelude.{◌≡◌, ◌≤◌, ◌<◌, [], true, false, length, None, Some, IsSome, IfOk, IfErr, IfSome, OnErr, take};
ghost use Rattle.std.specs.Result.{result_err};
ghost use Rattle.gatt_host.specs.Answers.{lost_fault};
ghost use Rattle.gatt_host.specs.Feeding.{items_taken, TakesUpToAPacket};
ghost use Rattle.gatt_host.specs.GoingOut.{is_drained};
ghost use Rattle.gatt_host.specs.ServerState.{open_slots};
ghost use Rattle.gatt_host.specs.Meaning.{IsOfItsTable};
ghost use Rattle.gatt_host.specs.Packet.{frames_after_octets};
ghost use Rattle.gatt_host.specs.Telling.{TellsOfAll};
ghost use Rattle.gatt_host.specs.HostModel.{all_out, going, is_own_fault, Refines};
ghost use Rattle.le_h4.specs.Packet.{packet_of_ref};

use crate::frames::Frames;
use crate::host::Host;
use crate::host_fault::HostFault;
use crate::packet::packet;
use crate::server::Server;
use le_h4::{Deframer, H4Fault, WholePacket};

/// Processes bytes up to the end of the next packet, or all if none ends in them. Returns the
/// number of bytes used.
pub(crate) fn take(host: &mut Host, octets: &[u8]) -> Result<usize, HostFault>
    requires no_fault { host.old.fault ≡ None }
    requires drained { all_out host.old ≡ true }
    ensures refines { Refines (items_taken octets.now result) [] host.old host.new }
    ensures told { TellsOfAll (items_taken octets.now result) host.old host.new }
    ensures up_to { IfOk result (λ used. TakesUpToAPacket octets.now used host.old) }
    ensures frames { IfOk result (λ used. host.new.frames
        ≡ frames_after_octets host.old.server host.old.stream (take used octets.now)
        host.old.frames) }
    ensures fault { host.new.fault ≡ result_err result }
    ensures not_own { IfErr result (λ fault. is_own_fault fault ≡ false) }
    ensures unchanged { OnErr result (host.new.server ≡ host.old.server) }
    ensures within { IfOk result (λ used. used ≤ length octets.now) }
    ensures some { IfOk result (λ used. 0 < length octets.now → 0 < used) }
{
    match take_in(&mut host.server, &mut host.frames, &mut host.stream, octets) {
        Ok(used) => Ok(used),
        Err(fault) => {
            host.fault = Some(fault);
            Err(fault)
        }
    }
}

/// Implements `take` on the parts of a host. Most packets are whole in the input and are handled in
/// place.
#[inline(always)]
fn take_in(
    server: &mut Server,
    frames: &mut Frames,
    stream: &mut Deframer,
    octets: &[u8],
) -> Result<usize, HostFault>
    requires enough { length server.old.slots ≤ length frames.old.assembled }
    requires of_table { IsOfItsTable server.old }
    requires drained { is_drained server.old.controller (open_slots server.old) ≡ true }
    ensures refines { Refines (items_taken octets.now result) []
        (record { server = server.old; frames = frames.old; stream = stream.old; fault = None })
        (record {
          server = server.new;
          frames = frames.new;
          stream = stream.new;
          fault = result_err
              result;
        }) }
    ensures told { TellsOfAll (items_taken octets.now result)
        (record { server = server.old; frames = frames.old; stream = stream.old; fault = None })
        (record {
          server = server.new;
          frames = frames.new;
          stream = stream.new;
          fault = result_err
              result;
        }) }
    ensures up_to { IfOk result
        (λ used. TakesUpToAPacket octets.now used (going server.old frames.old stream.old)) }
    ensures frames { IfOk result (λ used. frames.new
        ≡ frames_after_octets server.old stream.old (take used octets.now) frames.old) }
    ensures not_own { IfErr result (λ fault. is_own_fault fault ≡ false) }
    ensures unchanged { OnErr result (server.new ≡ server.old) }
    ensures within { IfOk result (λ used. used ≤ length octets.now) }
    ensures some { IfOk result (λ used. 0 < length octets.now → 0 < used) }
{
    let lent = stream.whole_packet(octets);
    let mut used = 0;
    if lent.is_none() {
        let fed = match stream.feed(octets) {
            Ok(fed) => fed,
            Err(fault) => return Err(lost_fault(fault)),
        };
        if !fed.packet {
            server.forget();
            return Ok(fed.used);
        }
        used = fed.used;
    }
    // One call for both cases, so that `packet` is inlined once.
    let whole = lent_or_marked(lent, stream, used);
    packet(server, frames, whole.packet)?;
    Ok(whole.used)
}

/// Returns the borrowed packet, or else the one in the deframer, which ends after `used` bytes.
fn lent_or_marked<'a>(
    lent: Option<WholePacket<'a>>,
    stream: &'a Deframer,
    used: usize,
) -> WholePacket<'a>
    requires { lent ≡ None → IsSome stream.now.marked }
    ensures lent { IfSome lent.entry
        (λ whole. packet_of_ref result.packet ≡ packet_of_ref whole.packet) }
    ensures lent_used { IfSome lent.entry (λ whole. result.used ≡ whole.used) }
    ensures marked { lent.entry ≡ None → stream.now.marked
        ≡ Some (packet_of_ref result.packet) }
    ensures marked_used { lent.entry ≡ None → result.used ≡ used }
{
    match lent {
        Some(whole) => whole,
        None => WholePacket {
            packet: stream.packet(),
            used,
        },
    }
}

/// Maps a fault of the stream to the fault for which the host stops.
pub fn lost_fault(fault: H4Fault) -> HostFault
    ensures { result ≡ lost_fault fault }
{
    match fault {
        H4Fault::Desync(indicator) => HostFault::Desync(indicator),
    }
}
