//! A capture that records packets as they pass.

ghost use Rattle.std.specs.Prelude.{◌≡◌, [], None, IsSome};
ghost use Rattle.std.specs.Result.{result_err};
ghost use Rattle.octet_io.specs.Stream.{CountsIf};
ghost use Rattle.btsnoop.specs.Record.{SpellsTheExample};
ghost use Rattle.btsnoop.specs.Capture.{capture_fault, is_write_failure, received_of, sent_by_capture, sink_of};
ghost use Rattle.btsnoop.specs.Capture.{fault_of_next, Begins, Captures};
ghost use Rattle.btsnoop.specs.Calls.{RecordsThePackets};

use crate::begun::Begun;
use crate::packet::Progress;
use crate::record::{Direction, write_file_header, write_record};
use octet_io::Sink;

/// Reason why a capture records no more packets.
#[derive(Clone, Copy, Debug, PartialEq, Eq)]
pub enum CaptureFault {
    /// The sink did not accept the file header or a record.
    Write,
    /// No packet of at most 1,029 octets begins with the octets that passed.
    Packet,
}

/// A capture, which records the packets of both directions in a sink, in the order in which they
/// end.
#[derive(Drop)]
pub struct Capture<C> {
    sink: C,
    /// Unfinished packet to the controller.
    sent: Begun,
    /// Unfinished packet from the controller.
    received: Begun,
    fault: Option<CaptureFault>,
}

impl<C: Sink> Capture<C> {
    /// Begins a capture by writing the file header.
    #[tactic(auto, using(crate::proofs::Example::spells, crate::proofs::Calls::records_the_packets))]
    pub fn begin(sink: C) -> Self
        ensures sent { sent_by_capture result ≡ [] }
        ensures received { received_of result ≡ [] }
        ensures header { Begins (capture_fault result) (C.contents sink)
            (C.contents (sink_of result)) }
        ensures failures { CountsIf (is_write_failure (capture_fault result)) (C.failures sink)
            (C.failures (sink_of result)) }
        ensures example { SpellsTheExample }
        // However the octets are cut into calls, all their packets are recorded.
        ensures packets { RecordsThePackets }
    {
        let mut sink = sink;
        let fault = match write_file_header(&mut sink) {
            Ok(()) => None,
            Err(_) => Some(CaptureFault::Write),
        };
        Capture {
            sink,
            sent: Begun::new(),
            received: Begun::new(),
            fault,
        }
    }

    /// Records the packets that end in `octets`, which went to the controller.
    ///
    /// `octets` may begin and end anywhere in a packet. `time` is in microseconds since 1970. After
    /// a fault nothing changes.
    pub fn went(&mut self, octets: &[u8], time: u64)
        // The packets are recorded, however their octets are cut. If the sink fails, it has a
        // prefix of the records.
        ensures captured { capture_fault self.old ≡ None
            → Captures Direction.Sent time (sent_by_capture self.old) octets.now
            (capture_fault self.new)
            (sent_by_capture self.new) (C.contents (sink_of self.old))
            (C.contents (sink_of self.new)) }
        ensures received { received_of self.new ≡ received_of self.old }
        ensures failures { capture_fault self.old ≡ None
            → CountsIf (is_write_failure (capture_fault self.new)) (C.failures (sink_of self.old))
            (C.failures (sink_of self.new)) }
        ensures stopped { IsSome (capture_fault self.old) → self.new ≡ self.old }
    {
        if self.fault.is_none() {
            let captured = record_each(
                Direction::Sent,
                time,
                &mut self.sent,
                octets,
                &mut self.sink,
            );
            self.fault = captured.err();
        }
    }

    /// Records the packets that end in `octets`, which came from the controller. `went` documents
    /// the parameters.
    pub fn came(&mut self, octets: &[u8], time: u64)
        // As `went`.
        ensures captured { capture_fault self.old ≡ None
            → Captures Direction.Received time (received_of self.old) octets.now
            (capture_fault self.new) (received_of self.new) (C.contents (sink_of self.old))
            (C.contents (sink_of self.new)) }
        ensures sent { sent_by_capture self.new ≡ sent_by_capture self.old }
        ensures failures { capture_fault self.old ≡ None
            → CountsIf (is_write_failure (capture_fault self.new)) (C.failures (sink_of self.old))
            (C.failures (sink_of self.new)) }
        ensures stopped { IsSome (capture_fault self.old) → self.new ≡ self.old }
    {
        if self.fault.is_none() {
            let captured = record_each(
                Direction::Received,
                time,
                &mut self.received,
                octets,
                &mut self.sink,
            );
            self.fault = captured.err();
        }
    }
}

impl<C> Capture<C> {
    /// Begins a new stream in both directions, and drops unfinished packets. Clears the fault
    /// `Packet`, but not `Write`.
    pub fn next_stream(&mut self)
        ensures sent { sent_by_capture self.new ≡ [] }
        ensures received { received_of self.new ≡ [] }
        ensures fault { capture_fault self.new ≡ fault_of_next (capture_fault self.old) }
        ensures sink { sink_of self.new ≡ sink_of self.old }
    {
        self.sent.clear();
        self.received.clear();
        if self.fault == Some(CaptureFault::Packet) {
            self.fault = None;
        }
    }

    /// Returns why no more packets are recorded, if there was a fault.
    pub fn fault(&self) -> Option<CaptureFault>
        ensures { result ≡ capture_fault self.now }
    {
        self.fault
    }

    /// Returns the sink of the records.
    pub fn sink(&self) -> &C
        ensures { result.now ≡ sink_of self.now }
    {
        &self.sink
    }
}

fn record_each<C: Sink>(
    direction: Direction,
    time: u64,
    begun: &mut Begun,
    octets: &[u8],
    sink: &mut C,
) -> Result<(), CaptureFault>
    ensures captured { Captures direction time begun.old octets.now (result_err result)
        begun.new (C.contents sink.old) (C.contents sink.new) }
    ensures failures { CountsIf (is_write_failure (result_err result)) (C.failures sink.old)
        (C.failures sink.new) }
{
    let mut rest = octets;
    'packets: loop {
        match begun.progress() {
            Progress::Whole => match write_record(direction, time, begun.as_slice(), sink) {
                Ok(()) => begun.clear(),
                Err(_) => return Err(CaptureFault::Write),
            },
            Progress::Lost => return Err(CaptureFault::Packet),
            Progress::Lacks(_) if rest.is_empty() => return Ok(()),
            Progress::Lacks(missing) => rest = begun.fill(missing, rest),
        }
    }
}
