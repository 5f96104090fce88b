//! Serves a host its events.

ghost use Rattle.std.specs.Prelude.{◌≡◌, ◌∷◌, [], true, None, IsSome, IfSome};
ghost use Rattle.std.specs.Result.{result_err};
ghost use Rattle.gatt_host.specs.Calls.{call_of};
ghost use Rattle.gatt_host.specs.Feeding.{is_of_feeding, Processes, Settles};
ghost use Rattle.gatt_host.specs.Listening.{Listens};
ghost use Rattle.gatt_host.specs.HostModel.{all_out, fault_outcome};
ghost use Rattle.gatt_laws.specs.machine.Input.{ACall};
ghost use Rattle.device_loop.specs.Serving.{known, RecordsTheAnswer, ServesDevice};
ghost use Rattle.device_loop.specs.Time.{KeepsTheTime};
ghost use Rattle.device_loop.specs.Turn.{StaysInOrder};

use crate::happenings::{Happenings, Next};
use gatt_host::{App, Host, HostFault, Listener, deliver_notices, feed, feed_to};
use octet_io::Sink;

/// Buffer size for octets that arrive together, or for a value.
const ROOM: usize = 1024;

/// The reason why serving ends although the host has not stopped.
#[derive(Clone, Copy, PartialEq, Eq)]
pub enum End {
    /// The stream from the controller has ended.
    Ended,
    /// The stream from the controller cannot be read.
    Failed,
    /// The maximum number of turns was reached.
    Turns,
}

/// Serves a host its events, one in each of at most `turns` turns. Writes pending packets first,
/// and those of each event before it waits for the next. A call is answered first, then its notices
/// are delivered, then its packets are written.
///
/// A refused call changes nothing, for example a tick that goes back (`AppFault::TimeWentBack`).
/// After a fault of the host it returns that fault and waits for nothing. It sends nothing: a
/// device may serve many events, and then save and send by one `serve_turn`.
pub fn serve_happenings<H: Happenings, W: Sink, L: Listener>(
    host: &mut Host,
    happenings: &mut H,
    out: &mut W,
    listener: &mut L,
    turns: u64,
) -> Result<End, HostFault>
    // In some turns this happened, in one order: octets that arrived and calls that were made,
    // exactly those of the two sides, each in their order. In each turn the loop waited up to the
    // deadline of the run. Each call was answered as the state machine decides before anything else
    // was waited for. The output is the state machine's, or a prefix if the writer fails, and the
    // listener receives its notices. The run that continues keeps the laws of policy and isolation.
    // `Turns` is reported after exactly the allowed turns; the end of the stream, or that it cannot
    // be read, if that happened last. A host stops at what happened last, or at what was pending
    // before.
    ensures serves { host.old.fault ≡ None → ServesDevice result turns host.old host.new
        (known (H.octets happenings.old) (H.calls happenings.old) (H.history happenings.old))
        (known (H.octets happenings.new) (H.calls happenings.new) (H.history happenings.new))
        (W.contents out.old) (W.contents out.new) (L.heard listener.old) (L.heard listener.new) }
    // If no fault is reported, nothing is pending. If the writer did not fail, all that was pending
    // is written. A failed write is counted.
    ensures settles { host.old.fault ≡ None
        → Settles host.new (W.failures out.old) (W.failures out.new) }
    // A fault for which the host then stops is one of feeding.
    ensures feeding { host.old.fault ≡ None
        → IfSome host.new.fault (λ fault. is_of_feeding fault ≡ true) }
    ensures outcome { host.new.fault ≡ result_err result }
    ensures stopped { IsSome host.old.fault → host.new ≡ host.old }
    // After a fault nothing is waited for.
    ensures happenings_stopped { IsSome host.old.fault → happenings.new ≡ happenings.old }
    ensures sink_stopped { IsSome host.old.fault → out.new ≡ out.old }
    ensures listener_stopped { IsSome host.old.fault → listener.new ≡ listener.old }
    // After any number of events and turns, in any order: the application is answered and notified
    // only right after the outcome of saving, and octets are sent only right after that. If the
    // state was not saved for some connections, no packet in these octets is ACL data for any of
    // those.
    ensures order { StaysInOrder host.old (H.history happenings.old) (H.history happenings.new) }
    // For every start and input:
    ensures time { KeepsTheTime }
{
    serve_turns(host, happenings, out, listener, turns)
}

/// Implements `serve_happenings`. Separate function: keeps the proof small.
fn serve_turns<H: Happenings, W: Sink, L: Listener>(
    host: &mut Host,
    happenings: &mut H,
    out: &mut W,
    listener: &mut L,
    turns: u64,
) -> Result<End, HostFault>
    ensures serves { host.old.fault ≡ None → ServesDevice result turns host.old host.new
        (known (H.octets happenings.old) (H.calls happenings.old) (H.history happenings.old))
        (known (H.octets happenings.new) (H.calls happenings.new) (H.history happenings.new))
        (W.contents out.old) (W.contents out.new) (L.heard listener.old) (L.heard listener.new) }
    ensures settles { host.old.fault ≡ None
        → Settles host.new (W.failures out.old) (W.failures out.new) }
    ensures feeding { host.old.fault ≡ None
        → IfSome host.new.fault (λ fault. is_of_feeding fault ≡ true) }
    ensures outcome { host.new.fault ≡ result_err result }
    ensures stopped { IsSome host.old.fault → host.new ≡ host.old }
    ensures happenings_stopped { IsSome host.old.fault → happenings.new ≡ happenings.old }
    ensures sink_stopped { IsSome host.old.fault → out.new ≡ out.old }
    ensures listener_stopped { IsSome host.old.fault → listener.new ≡ listener.old }
{
    feed(host, &[], out)?;
    let mut buffer = [0; ROOM];
    for _turn in 0..turns {
        match happenings.next(host.deadline(), &mut buffer) {
            Next::Octets(octets) => feed_to(host, octets, out, listener)?,
            Next::Call(call) => take_call(host, call, happenings, out, listener)?,
            Next::Ended => return Ok(End::Ended),
            Next::Failed => return Ok(End::Failed),
        }
    }
    Ok(End::Turns)
}

/// Executes a call, answers it, then delivers its notices and writes its packets.
fn take_call<H: Happenings, W: Sink, L: Listener>(
    host: &mut Host,
    call: App<'_>,
    happenings: &mut H,
    out: &mut W,
    listener: &mut L,
) -> Result<(), HostFault>
    requires none { host.old.fault ≡ None }
    requires drained { all_out host.old ≡ true }
    ensures processes { Processes (ACall (call_of call.entry) ∷ []) host.old host.new
        (W.contents out.old) (W.contents out.new) (W.failures out.old) (W.failures out.new) }
    ensures heard { Listens (ACall (call_of call.entry) ∷ []) host.old host.new host.new.fault
        (L.heard listener.old) (L.heard listener.new) }
    ensures answer { RecordsTheAnswer (call_of call.entry) host.old
        (H.history happenings.old) (H.history happenings.new) }
    ensures octets { H.octets happenings.new ≡ H.octets happenings.old }
    ensures calls { H.calls happenings.new ≡ H.calls happenings.old }
    ensures outcome { result ≡ fault_outcome host.new.fault }
{
    let answer = host.app(call);
    happenings.answered(answer);
    deliver_notices(host, listener);
    feed(host, &[], out)
}
