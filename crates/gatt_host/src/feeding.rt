//! Processes the controller's stream and writes the packets that follow.

ghost use Rattle.std.specs.Prelude.{◌≡◌, [], true, false, None, Some, IsSome, IsOk, IfErr, Err};
ghost use Rattle.std.specs.Result.{result_err};
ghost use Rattle.gatt_host.specs.Feeding.{octet_items, is_write_fault, Feeds, Processes, Settles};
ghost use Rattle.gatt_host.specs.GoingOut.{is_drained};
ghost use Rattle.gatt_host.specs.ServerState.{OwesPacketsAlone, open_slots};
ghost use Rattle.gatt_host.specs.Meaning.{IncomingFrames};
ghost use Rattle.gatt_host.specs.Listening.{Listens};
ghost use Rattle.gatt_host.specs.Promises.{WritesApart, WritesByThePolicy};
ghost use Rattle.gatt_host.specs.HostModel.{going, is_own_fault, fault_outcome, write_outcome, IsStateOfOne};
ghost use Rattle.le_h4.specs.Deframer.{Deframing};
ghost use Rattle.octet_io.specs.Stream.{CountsIf};

use crate::host::Host;
use crate::host_fault::HostFault;
use crate::listener::{Listener, Nobody, deliver_notices};
use crate::server::Server;
use crate::stream_packets::take;
use le_h4::PacketBuf;
use octet_io::{Sink, write_all};

/// Processes bytes of the controller's stream and writes the packets that follow. The bytes may
/// begin and end anywhere in a packet. Pending packets go first, then those of each packet before
/// the next is processed. After a fault it returns that fault and changes nothing.
pub fn feed<W: Sink>(host: &mut Host, octets: &[u8], out: &mut W) -> Result<(), HostFault>
    // Octets are processed as items, however they are cut. The pending output and their own is
    // written, and nothing else; if the writer fails, a prefix.
    ensures processes { host.old.fault ≡ None
        → Processes (octet_items octets.now) host.old host.new (W.contents out.old)
        (W.contents out.new) (W.failures out.old) (W.failures out.new) }
    ensures outcome { result ≡ fault_outcome host.new.fault }
    ensures stopped { IsSome host.old.fault → host.new ≡ host.old }
    ensures sink_stopped { IsSome host.old.fault → out.new ≡ out.old }
    ensures policy { WritesByThePolicy (octet_items octets.now) host.old host.new
        (W.contents out.old) (W.contents out.new) }
    ensures apart { WritesApart (octet_items octets.now) host.old host.new (W.contents out.old)
        (W.contents out.new) }
{
    feed_to(host, octets, out, &mut Nobody)
}

/// Does the same as `feed` and delivers the notices to a listener. It receives those of each packet
/// that was processed, also of one whose output could not be written.
pub fn feed_to<W: Sink, L: Listener>(
    host: &mut Host,
    octets: &[u8],
    out: &mut W,
    listener: &mut L,
) -> Result<(), HostFault>
    ensures processes { host.old.fault ≡ None
        → Processes (octet_items octets.now) host.old host.new (W.contents out.old)
        (W.contents out.new) (W.failures out.old) (W.failures out.new) }
    // The listener receives exactly the notices of the items, in order, each with the octets of its
    // value. If the writer fails, it has received those up to some item; if it fails at an item's
    // packets, the notices of that item too.
    ensures heard { host.old.fault ≡ None
        → Listens (octet_items octets.now) host.old host.new host.new.fault (L.heard listener.old)
        (L.heard listener.new) }
    ensures outcome { result ≡ fault_outcome host.new.fault }
    ensures stopped { IsSome host.old.fault → host.new ≡ host.old }
    ensures sink_stopped { IsSome host.old.fault → out.new ≡ out.old }
    ensures listener_stopped { IsSome host.old.fault → listener.new ≡ listener.old }
    ensures policy { WritesByThePolicy (octet_items octets.now) host.old host.new
        (W.contents out.old) (W.contents out.new) }
    ensures apart { WritesApart (octet_items octets.now) host.old host.new (W.contents out.old)
        (W.contents out.new) }
{
    if let Some(fault) = host.fault {
        return Err(fault);
    }
    feed_all(host, octets, out, listener)
}

fn feed_all<W: Sink, L: Listener>(
    host: &mut Host,
    octets: &[u8],
    out: &mut W,
    listener: &mut L,
) -> Result<(), HostFault>
    requires none { host.old.fault ≡ None }
    ensures processes { Processes (octet_items octets.now) host.old host.new
        (W.contents out.old) (W.contents out.new) (W.failures out.old) (W.failures out.new) }
    ensures heard { Listens (octet_items octets.now) host.old host.new host.new.fault
        (L.heard listener.old) (L.heard listener.new) }
    ensures outcome { result ≡ fault_outcome host.new.fault }
{
    write_out(host, out)?;
    let mut rest = octets;
    while !rest.is_empty() {
        let used = match take(host, rest) {
            Ok(used) => used,
            Err(_) => return outcome(host),
        };
        rest = rest.split_at(used).1;
        deliver_notices(host, listener);
        write_out(host, out)?;
    }
    Ok(())
}

#[cold]
#[inline(never)]
fn outcome(host: &Host) -> Result<(), HostFault>
    ensures { result ≡ fault_outcome host.now.fault }
{
    match host.fault {
        Some(fault) => Err(fault),
        None => Ok(()),
    }
}

#[inline(always)]
pub(crate) fn write_out<W: Sink>(host: &mut Host, out: &mut W) -> Result<(), HostFault>
    requires { host.old.fault ≡ None }
    ensures feeds { Feeds [] host.old host.new (W.contents out.old)
        (W.contents out.new) host.new.fault }
    ensures fault { result ≡ fault_outcome host.new.fault }
    ensures write { IfErr result (λ fault. fault ≡ HostFault.Write) }
    ensures settles { Settles host.new (W.failures out.old) (W.failures out.new) }
{
    let written = write_owed(&mut host.server, &mut host.packet, out);
    if written.is_err() {
        host.fault = written.err();
    }
    written
}

#[inline(always)]
fn write_owed<W: Sink>(
    server: &mut Server,
    packet: &mut PacketBuf,
    out: &mut W,
) -> Result<(), HostFault>
    requires { IsStateOfOne server.old }
    ensures feeds { (frames : IncomingFrames) (stream : Deframing)
        → Feeds [] (going server.old frames stream)
        (record (going server.new frames stream) { fault = result_err result }) (W.contents out.old)
        (W.contents out.new) (result_err result) }
    ensures write { IfErr result (λ fault. fault ≡ HostFault.Write) }
    ensures out { IsOk result → is_drained server.new.controller (open_slots server.new) ≡ true }
    ensures failures { CountsIf (is_write_fault (result_err result)) (W.failures out.old)
        (W.failures out.new) }
{
    if server.may_have_command() {
        write_outcome(write_in_order(server, packet, out))
    } else {
        write_outcome(write_packets::<false, W>(server, packet, out))
    }
}

/// Writes all pending packets, commands included. Separate function: this is rare.
#[cold]
#[inline(never)]
fn write_in_order<W: Sink>(server: &mut Server, packet: &mut PacketBuf, out: &mut W) -> bool
    requires { IsStateOfOne server.old }
    ensures feeds { (frames : IncomingFrames) (stream : Deframing)
        → Feeds [] (going server.old frames stream)
        (record (going server.new frames stream) { fault = result_err (write_outcome result) })
        (W.contents out.old) (W.contents out.new) (result_err (write_outcome result)) }
    ensures out { IsOk (write_outcome result)
        → is_drained server.new.controller (open_slots server.new) ≡ true }
    ensures failures { CountsIf (is_write_fault (result_err (write_outcome result)))
        (W.failures out.old) (W.failures out.new) }
{
    write_packets::<true, W>(server, packet, out)
}

/// Writes all pending packets. Without `COMMANDS`, no command is pending: sending a packet creates
/// none. Returns false if the sink fails.
#[inline(always)]
fn write_packets<const COMMANDS: bool, W: Sink>(
    server: &mut Server,
    packet: &mut PacketBuf,
    out: &mut W,
) -> bool
    requires one { IsStateOfOne server.old }
    requires packets { COMMANDS ≡ false → OwesPacketsAlone server.old }
    ensures feeds { (frames : IncomingFrames) (stream : Deframing)
        → Feeds [] (going server.old frames stream)
        (record (going server.new frames stream) { fault = result_err (write_outcome result) })
        (W.contents out.old) (W.contents out.new) (result_err (write_outcome result)) }
    ensures out { IsOk (write_outcome result)
        → is_drained server.new.controller (open_slots server.new) ≡ true }
    ensures failures { CountsIf (is_write_fault (result_err (write_outcome result)))
        (W.failures out.old) (W.failures out.new) }
{
    while server.next_pending::<COMMANDS>(packet) {
        if write_all(packet.as_slice(), out).is_err() {
            return false;
        }
    }
    true
}

/// Maps the result of writing to `HostFault::Write`.
fn write_outcome(written: bool) -> Result<(), HostFault>
    ensures { result ≡ write_outcome written }
{
    if written {
        Ok(())
    } else {
        Err(HostFault::Write)
    }
}

/// Stops the host for a fault of its reader, writer or turns.
pub(crate) fn stop<T>(host: &mut Host, fault: HostFault) -> Result<T, HostFault>
    requires none { host.old.fault ≡ None }
    requires own { is_own_fault fault ≡ true }
    ensures stopped { host.new ≡ record host.old { fault = Some fault } }
    ensures fault { result ≡ Err fault }
{
    host.fault = Some(fault);
    Err(fault)
}
