//! Records of a capture.

ghost use Rattle.std.specs.Prelude.{◌≡◌, ◌≤◌, length, OnOk, OnErr};
ghost use Rattle.std.specs.Io.KnownBytes.{Appends};
ghost use Rattle.btsnoop.specs.Record.{file_header, flags_of, header_of, record_of};
ghost use Rattle.octet_io.specs.Stream.{CountsFailure, WritesFront};

use arrayvec::ArrayVec;
use le_h4::{MAX_PACKET_IN, indicator};
use octet_io::{Failed, Sink, write_all};

/// Identification, version 1, and data link 1002 (H4).
const FILE_HEADER: [u8; 16] = *b"btsnoop\0\0\0\0\x01\0\0\x03\xea";

/// Microseconds from the year 0 to 1970, as btsnoop readers count them: 719,540 days.
const EPOCH: u64 = 719_540 * 86_400 * 1_000_000;

/// Octets of a record before its packet.
const HEADER: usize = 24;

/// Maximum octets of a record.
const RECORD: usize = HEADER + MAX_PACKET_IN;

/// Direction of a packet.
#[derive(Clone, Copy, Debug, PartialEq, Eq)]
pub enum Direction {
    /// From the host to the controller.
    Sent,
    /// From the controller to the host.
    Received,
}

/// Writes the file header, or a prefix of it if the sink fails.
#[tactic(auto, unfolding(crate::specs::Record::file_header))]
pub(crate) fn write_file_header<C: Sink>(sink: &mut C) -> Result<(), Failed>
    ensures ok { OnOk result (Appends (C.contents sink.old) (C.contents sink.new) file_header) }
    ensures front { OnErr result
        (WritesFront file_header (C.contents sink.old) (C.contents sink.new)) }
    ensures failures { CountsFailure (C.failures sink.old) (C.failures sink.new) result }
{
    write_all(&FILE_HEADER, sink)
}

/// Writes the record of a packet, or a prefix of it if the sink fails. `time` is in microseconds
/// since 1970.
pub(crate) fn write_record<C: Sink>(
    direction: Direction,
    time: u64,
    packet: &[u8],
    sink: &mut C,
) -> Result<(), Failed>
    requires { length packet.now ≤ MAX_PACKET_IN }
    ensures ok { OnOk result
        (Appends (C.contents sink.old) (C.contents sink.new)
        (record_of direction time packet.now)) }
    ensures front { OnErr result
        (WritesFront (record_of direction time packet.now) (C.contents sink.old)
        (C.contents sink.new)) }
    ensures failures { CountsFailure (C.failures sink.old) (C.failures sink.new) result }
{
    let header = header(direction, time, packet);
    let mut record: ArrayVec<u8, RECORD> = ArrayVec::new();
    record.try_extend_from_slice(header.as_slice()).unwrap();
    record.try_extend_from_slice(packet).unwrap();
    write_all(record.as_slice(), sink)
}

#[tactic(auto, unfolding(crate::specs::Record::header_of))]
fn header(direction: Direction, time: u64, packet: &[u8]) -> ArrayVec<u8, HEADER>
    requires { length packet.now ≤ MAX_PACKET_IN }
    ensures { result.items ≡ header_of direction time packet.now }
{
    let length = (packet.len() as u32).to_be_bytes();
    let flags = flags(direction, packet).to_be_bytes();
    let mut header = ArrayVec::new();
    header.try_extend_from_slice(&length).unwrap();
    header.try_extend_from_slice(&length).unwrap();
    header.try_extend_from_slice(&flags).unwrap();
    header.try_extend_from_slice(&[0; 4]).unwrap();
    header
        .try_extend_from_slice(&time.wrapping_add(EPOCH).to_be_bytes())
        .unwrap();
    header
}

fn flags(direction: Direction, packet: &[u8]) -> u32
    ensures { result ≡ flags_of direction packet.now }
{
    let way = match direction {
        Direction::Sent => 0,
        Direction::Received => 1,
    };
    match packet {
        [indicator::COMMAND | indicator::EVENT, ..] => way + 2,
        _ => way,
    }
}
