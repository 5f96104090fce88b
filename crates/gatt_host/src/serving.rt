//! Serves a controller through a reader and a writer.

ghost use Rattle.std.specs.Prelude.{◌≡◌, ◌≤◌, ◌==◌, [], length, None, Some, IsSome, IfOk, OnErr};
ghost use Rattle.std.specs.Result.{result_err};
ghost use Rattle.std.specs.Io.KnownBytes.{Consumes, IsAtEnd, Keeps};
ghost use Rattle.gatt_host.specs.Feeding.{Settles};
ghost use Rattle.gatt_host.specs.ServerState.{without_notices};
ghost use Rattle.gatt_host.specs.Listening.{ListensServing};
ghost use Rattle.gatt_host.specs.HostModel.{Takes};
ghost use Rattle.gatt_host.specs.Serving.{Reads, Serves};
ghost use Rattle.gatt_laws.specs.machine.Input.{TheEnd};
ghost use Rattle.octet_io.specs.Stream.{CountsFailure, CountsIf, CountsNone, CountsOne};

use crate::feeding::{feed_to, stop, write_out};
use crate::host::Host;
use crate::host_fault::HostFault;
use crate::listener::{Listener, Nobody};
use le_h4::Deframer;
use octet_io::{Failed, Sink, Source};

/// The most bytes of one read of a controller by `serve`.
const TURN: usize = 512;

/// The end of the input.
#[derive(Clone, Copy, Debug, PartialEq, Eq)]
pub struct End {
    /// Number of reads, including the read of the end.
    pub turns: u64,
}

/// Serves a controller until its reader ends or `turns` reads are over. Writes pending packets,
/// then reads at most 512 bytes a turn and writes the packets that follow. An unfinished packet at
/// the end is dropped.
///
/// Returns `HostFault::Turns` if the turns are over; the host has then stopped for good. After a
/// fault it returns that fault and changes nothing.
pub fn serve<R: Source, W: Sink>(
    host: &mut Host,
    reader: &mut R,
    writer: &mut W,
    turns: u64,
) -> Result<End, HostFault>
    // The octets of the reader are processed, up to its end if the call succeeds. If it succeeds or
    // its turns are over, n reads gave n to 512 n octets in all; the read that found the end does
    // not count. The run that continues keeps the laws of policy and isolation.
    ensures serves { host.old.fault ≡ None
        → Serves result turns host.old host.new (R.remaining reader.old) (R.remaining reader.new)
        (W.contents writer.old) (W.contents writer.new) }
    ensures settles { host.old.fault ≡ None
        → Settles host.new (W.failures writer.old) (W.failures writer.new) }
    // The end is reported exactly if a read has found it, and a fault of the reader exactly if a
    // read failed. There are no more reads than turns, and `Turns` is reported only after that
    // number without an end. This holds for each reader that counts its reads.
    ensures reads { host.old.fault ≡ None
        → Reads result turns (R.reads reader.old) (R.reads reader.new) (R.ends reader.old)
        (R.ends reader.new) (R.failures reader.old) (R.failures reader.new) }
    ensures outcome { host.new.fault ≡ result_err result }
    ensures stopped { IsSome host.old.fault → host.new ≡ host.old }
    ensures reader_stopped { IsSome host.old.fault → reader.new ≡ reader.old }
    ensures writer_stopped { IsSome host.old.fault → writer.new ≡ writer.old }
{
    serve_to(host, reader, writer, turns, &mut Nobody)
}

/// Does the same as `serve` and delivers the notices to a listener. It receives those of each
/// packet that was processed, also of one whose output could not be written.
pub fn serve_to<R: Source, W: Sink, L: Listener>(
    host: &mut Host,
    reader: &mut R,
    writer: &mut W,
    turns: u64,
    listener: &mut L,
) -> Result<End, HostFault>
    ensures serves { host.old.fault ≡ None
        → Serves result turns host.old host.new (R.remaining reader.old) (R.remaining reader.new)
        (W.contents writer.old) (W.contents writer.new) }
    // The listener receives the notices of the octets that were read, as by `feed_to`.
    ensures heard { host.old.fault ≡ None
        → ListensServing host.old host.new (R.remaining reader.old) (R.remaining reader.new)
        (L.heard listener.old) (L.heard listener.new) }
    ensures settles { host.old.fault ≡ None
        → Settles host.new (W.failures writer.old) (W.failures writer.new) }
    ensures reads { host.old.fault ≡ None
        → Reads result turns (R.reads reader.old) (R.reads reader.new) (R.ends reader.old)
        (R.ends reader.new) (R.failures reader.old) (R.failures reader.new) }
    ensures outcome { host.new.fault ≡ result_err result }
    ensures stopped { IsSome host.old.fault → host.new ≡ host.old }
    ensures reader_stopped { IsSome host.old.fault → reader.new ≡ reader.old }
    ensures writer_stopped { IsSome host.old.fault → writer.new ≡ writer.old }
    ensures listener_stopped { IsSome host.old.fault → listener.new ≡ listener.old }
{
    match host.fault {
        Some(fault) => Err(fault),
        None => serve_all(host, reader, writer, turns, listener),
    }
}

fn serve_all<R: Source, W: Sink, L: Listener>(
    host: &mut Host,
    reader: &mut R,
    writer: &mut W,
    turns: u64,
    listener: &mut L,
) -> Result<End, HostFault>
    requires none { host.old.fault ≡ None }
    ensures serves { Serves result turns host.old host.new (R.remaining reader.old)
        (R.remaining reader.new) (W.contents writer.old) (W.contents writer.new) }
    ensures heard { ListensServing host.old host.new (R.remaining reader.old)
        (R.remaining reader.new) (L.heard listener.old) (L.heard listener.new) }
    ensures settles { Settles host.new (W.failures writer.old) (W.failures writer.new) }
    ensures reads { Reads result turns (R.reads reader.old) (R.reads reader.new)
        (R.ends reader.old) (R.ends reader.new) (R.failures reader.old) (R.failures reader.new) }
    ensures outcome { host.new.fault ≡ result_err result }
{
    write_out(host, writer)?;
    let mut octets = [0; TURN];
    for turn in 0..turns {
        let Ok(read) = read_turn(reader, &mut octets) else {
            return stop(host, HostFault::Read);
        };
        if read.is_empty() {
            end_stream(host);
            return Ok(End { turns: turn + 1 });
        }
        feed_to(host, read, writer, listener)?;
    }
    stop(host, HostFault::Turns)
}

/// Returns what was read, which is empty at the end of the input.
fn read_turn<'a, R: Source>(reader: &mut R, octets: &'a mut [u8; TURN]) -> Result<&'a [u8], Failed>
    ensures within { IfOk result (λ read. length read.now ≤ TURN) }
    ensures consumed { IfOk result
        (λ read. Consumes (R.remaining reader.old) (R.remaining reader.new) read.now) }
    ensures at_end { IfOk result (λ read. read.now ≡ [] → IsAtEnd (R.remaining reader.new)) }
    ensures unread { OnErr result (Keeps (R.remaining reader.old) (R.remaining reader.new)) }
    ensures reads { CountsOne (R.reads reader.old) (R.reads reader.new) }
    ensures ends { IfOk result
        (λ read. CountsIf (length read.now == 0) (R.ends reader.old) (R.ends reader.new)) }
    ensures no_end { OnErr result (CountsNone (R.ends reader.old) (R.ends reader.new)) }
    ensures failures { CountsFailure (R.failures reader.old) (R.failures reader.new) result }
{
    let count = reader.read(octets)?;
    Ok(octets.split_at(count).0)
}

/// Ends the stream: drops an unfinished packet and clears the notices.
fn end_stream(host: &mut Host)
    requires none { host.old.fault ≡ None }
    ensures takes { Takes TheEnd host.old host.new }
    ensures server { host.new.server ≡ without_notices host.old.server }
    ensures fault { host.new.fault ≡ None }
{
    host.stream = Deframer::new();
    host.server.forget();
}
