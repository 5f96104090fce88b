//! One call of the application, and the packets that it causes.

ghost use Rattle.std.specs.Prelude.{◌≡◌, ◌∷◌, [], None, IsSome, IfOk, true};
ghost use Rattle.std.specs.Result.{result_err};
ghost use Rattle.gatt_host.specs.Calls.{call_of};
ghost use Rattle.gatt_host.specs.Calling.{fault_told, Answers, IsCallRefusedAs};
ghost use Rattle.gatt_host.specs.Feeding.{Processes};
ghost use Rattle.gatt_host.specs.Listening.{Listens};
ghost use Rattle.gatt_host.specs.Promises.{WritesApart, WritesByThePolicy};
ghost use Rattle.gatt_host.specs.HostModel.{all_out};
ghost use Rattle.gatt_laws.specs.machine.Input.{ACall};

use crate::fault::Fault;
use crate::feeding::{feed, write_out};
use crate::host::Host;
use crate::host_fault::HostFault;
use crate::listener::{Listener, Nobody, deliver_notices};
use host_api::{App, AppFault};
use octet_io::Sink;

/// Executes a call of the application and writes the packets that it causes. Pending packets go
/// first.
///
/// Returns `Fault::Call` if the host refuses the call, which then changes nothing. Returns
/// `Fault::Host` if the writer fails or the host had stopped before.
pub fn call<W: Sink>(host: &mut Host, call: App<'_>, out: &mut W) -> Result<(), Fault>
    // The call is processed as the next item, and output is written as by `feed`.
    ensures processes { host.old.fault ≡ None
        → Processes (ACall (call_of call.entry) ∷ []) host.old host.new (W.contents out.old)
        (W.contents out.new) (W.failures out.old) (W.failures out.new) }
    // It is refused exactly if the run refuses it, and for the same reason.
    ensures answers { host.old.fault ≡ None
        → Answers (call_of call.entry) host.old host.new.fault result }
    // A fault is the one for which the host has stopped.
    ensures outcome { fault_told result ≡ host.new.fault }
    ensures stopped { IsSome host.old.fault → host.new ≡ host.old }
    ensures sink_stopped { IsSome host.old.fault → out.new ≡ out.old }
    ensures policy { WritesByThePolicy (ACall (call_of call.entry) ∷ []) host.old host.new
        (W.contents out.old) (W.contents out.new) }
    ensures apart { WritesApart (ACall (call_of call.entry) ∷ []) host.old host.new
        (W.contents out.old) (W.contents out.new) }
{
    call_to(host, call, out, &mut Nobody)
}

/// Does the same as `call` and delivers the notices to a listener. It receives those of the call
/// even if the writer fails.
pub fn call_to<W: Sink, L: Listener>(
    host: &mut Host,
    call: App<'_>,
    out: &mut W,
    listener: &mut L,
) -> Result<(), Fault>
    ensures processes { host.old.fault ≡ None
        → Processes (ACall (call_of call.entry) ∷ []) host.old host.new (W.contents out.old)
        (W.contents out.new) (W.failures out.old) (W.failures out.new) }
    ensures heard { host.old.fault ≡ None
        → Listens (ACall (call_of call.entry) ∷ []) host.old host.new host.new.fault
        (L.heard listener.old) (L.heard listener.new) }
    ensures answers { host.old.fault ≡ None
        → Answers (call_of call.entry) host.old host.new.fault result }
    ensures outcome { fault_told result ≡ host.new.fault }
    ensures stopped { IsSome host.old.fault → host.new ≡ host.old }
    ensures sink_stopped { IsSome host.old.fault → out.new ≡ out.old }
    ensures listener_stopped { IsSome host.old.fault → listener.new ≡ listener.old }
    ensures policy { WritesByThePolicy (ACall (call_of call.entry) ∷ []) host.old host.new
        (W.contents out.old) (W.contents out.new) }
    ensures apart { WritesApart (ACall (call_of call.entry) ∷ []) host.old host.new
        (W.contents out.old) (W.contents out.new) }
{
    feed(host, &[], out)?;
    do_call(host, call, out, listener)?.map_err(Fault::Call)
}

/// Executes a call after all output was sent. The inner error is the host's refusal.
pub(crate) fn do_call<W: Sink, L: Listener>(
    host: &mut Host,
    call: App<'_>,
    out: &mut W,
    listener: &mut L,
) -> Result<Result<(), AppFault>, HostFault>
    requires none { host.old.fault ≡ None }
    requires drained { all_out host.old ≡ true }
    ensures processes { Processes (ACall (call_of call.entry) ∷ []) host.old host.new
        (W.contents out.old) (W.contents out.new) (W.failures out.old) (W.failures out.new) }
    ensures heard { Listens (ACall (call_of call.entry) ∷ []) host.old host.new host.new.fault
        (L.heard listener.old) (L.heard listener.new) }
    ensures fault { host.new.fault ≡ result_err result }
    ensures refused { IfOk result
        (λ answer. IsCallRefusedAs (call_of call.entry) host.old answer) }
{
    let answer = host.app(call);
    deliver_notices(host, listener);
    write_out(host, out)?;
    Ok(answer)
}
