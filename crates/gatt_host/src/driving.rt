//! Processes a list of bytes and calls, and writes the packets that follow.

ghost use Rattle.std.specs.Prelude.{◌≡◌, None, IsSome, IfOk, Some, true, if◌then◌else◌};
ghost use Rattle.std.specs.Result.{result_err};
ghost use Rattle.gatt_host.specs.Feeding.{input_items, items_of, CountsRefused, Processes};
ghost use Rattle.gatt_host.specs.Listening.{Listens};
ghost use Rattle.gatt_host.specs.Promises.{WritesApart, WritesByThePolicy};
ghost use Rattle.gatt_host.specs.HostModel.{all_out};

use crate::calling::do_call;
use crate::feeding::{feed_to, write_out};
use crate::host::Host;
use crate::host_fault::HostFault;
use crate::listener::{Listener, Nobody};
use host_api::App;
use octet_io::Sink;

/// An input of a host.
#[derive(Clone, Copy, Debug, PartialEq, Eq)]
pub enum Input<'a> {
    /// Bytes of the controller's stream. They may begin and end anywhere in a packet.
    Bytes(&'a [u8]),
    /// A call of the application.
    Call(App<'a>),
}

/// Processes bytes and calls in order and writes the packets that follow. Pending packets go first,
/// then those of each packet and call before the next.
///
/// Returns the number of refused calls. After a fault it returns that fault and changes nothing.
pub fn drive<W: Sink>(
    host: &mut Host,
    inputs: &[Input<'_>],
    out: &mut W,
) -> Result<usize, HostFault>
    // Octets and calls are processed in their order, and output is written as by `feed`.
    ensures processes { host.old.fault ≡ None
        → Processes (items_of inputs.now) host.old host.new (W.contents out.old)
        (W.contents out.new) (W.failures out.old) (W.failures out.new) }
    ensures outcome { host.new.fault ≡ result_err result }
    // It is the number of calls that the run refuses.
    ensures refused { IfOk result (λ count. CountsRefused count (items_of inputs.now) host.old) }
    ensures stopped { IsSome host.old.fault → host.new ≡ host.old }
    ensures sink_stopped { IsSome host.old.fault → out.new ≡ out.old }
    ensures policy { WritesByThePolicy (items_of inputs.now) host.old host.new (W.contents out.old)
        (W.contents out.new) }
    ensures apart { WritesApart (items_of inputs.now) host.old host.new (W.contents out.old)
        (W.contents out.new) }
{
    drive_to(host, inputs, out, &mut Nobody)
}

/// Does the same as `drive` and delivers the notices to a listener. It receives those of each
/// packet and call that was processed, also of one whose output could not be written.
pub fn drive_to<W: Sink, L: Listener>(
    host: &mut Host,
    inputs: &[Input<'_>],
    out: &mut W,
    listener: &mut L,
) -> Result<usize, HostFault>
    ensures processes { host.old.fault ≡ None
        → Processes (items_of inputs.now) host.old host.new (W.contents out.old)
        (W.contents out.new) (W.failures out.old) (W.failures out.new) }
    ensures heard { host.old.fault ≡ None
        → Listens (items_of inputs.now) host.old host.new host.new.fault (L.heard listener.old)
        (L.heard listener.new) }
    ensures outcome { host.new.fault ≡ result_err result }
    ensures refused { IfOk result (λ count. CountsRefused count (items_of inputs.now) host.old) }
    ensures stopped { IsSome host.old.fault → host.new ≡ host.old }
    ensures sink_stopped { IsSome host.old.fault → out.new ≡ out.old }
    ensures listener_stopped { IsSome host.old.fault → listener.new ≡ listener.old }
    ensures policy { WritesByThePolicy (items_of inputs.now) host.old host.new (W.contents out.old)
        (W.contents out.new) }
    ensures apart { WritesApart (items_of inputs.now) host.old host.new (W.contents out.old)
        (W.contents out.new) }
{
    match host.fault {
        Some(fault) => Err(fault),
        None => drive_all(host, inputs, out, listener),
    }
}

fn drive_all<W: Sink, L: Listener>(
    host: &mut Host,
    inputs: &[Input<'_>],
    out: &mut W,
    listener: &mut L,
) -> Result<usize, HostFault>
    requires none { host.old.fault ≡ None }
    ensures processes { Processes (items_of inputs.now) host.old host.new
        (W.contents out.old) (W.contents out.new) (W.failures out.old) (W.failures out.new) }
    ensures heard { Listens (items_of inputs.now) host.old host.new host.new.fault
        (L.heard listener.old) (L.heard listener.new) }
    ensures outcome { host.new.fault ≡ result_err result }
    ensures refused { IfOk result (λ count. CountsRefused count (items_of inputs.now) host.old) }
{
    write_out(host, out)?;
    let mut refused = 0;
    for input in inputs {
        if take_input(host, input, out, listener)? {
            refused += 1;
        }
    }
    Ok(refused)
}

/// Processes one input. Returns true for a refused call.
fn take_input<W: Sink, L: Listener>(
    host: &mut Host,
    input: &Input<'_>,
    out: &mut W,
    listener: &mut L,
) -> Result<bool, HostFault>
    requires none { host.old.fault ≡ None }
    requires drained { all_out host.old ≡ true }
    ensures processes { Processes (input_items input.now) host.old host.new
        (W.contents out.old) (W.contents out.new) (W.failures out.old) (W.failures out.new) }
    ensures heard { Listens (input_items input.now) host.old host.new host.new.fault
        (L.heard listener.old) (L.heard listener.new) }
    ensures fault { host.new.fault ≡ result_err result }
    ensures refused { IfOk result
        (λ refused. CountsRefused (if refused then 1 else 0) (input_items input.now) host.old) }
{
    match input {
        Input::Bytes(octets) => {
            feed_to(host, octets, out, listener)?;
            Ok(false)
        }
        Input::Call(call) => Ok(do_call(host, *call, out, listener)?.is_err()),
    }
}
