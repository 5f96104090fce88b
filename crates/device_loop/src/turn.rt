//! One turn of a device: an event, then saving, then its application, and only then sending.

ghost use Rattle.std.specs.Prelude.{◌≡◌, true, None, Some, IsSome, IfSome, option_map};
ghost use Rattle.std.specs.Result.{result_err};
ghost use Rattle.gatt_host.specs.Feeding.{is_of_feeding, Settles};
ghost use Rattle.octet_io.specs.Number.{Octets};
ghost use Rattle.device_loop.specs.Outside.{octets_to_send, waits_after};
ghost use Rattle.device_loop.specs.Serving.{known};
ghost use Rattle.device_loop.specs.Turn.{StaysInOrder, TakesATurn};

use crate::outside::{Outgoing, Outside, Saving, Sending};
use crate::serving::{End, serve_happenings};
use gatt_host::{Host, HostFault, Listener};

/// The outcome of a turn.
#[derive(Drop)]
pub struct Turn {
    /// `End::Turns` if the turn is over, else the reason why serving ends.
    pub served: Result<End, HostFault>,
    /// The outcome of saving.
    pub saving: Saving,
    /// The outcome of sending.
    pub sending: Sending,
}

/// Serves a host one event, saves its changes, then answers and notifies its application, and only
/// then sends what waits. If saving fails, it drops the ACL data for the connections with unsaved
/// changes. The caller must end those connections, because they lack that data.
///
/// Packets wait on if nobody is there or sending fails. After a failure a prefix may have been
/// sent, and the caller must send no more there. After a fault of the host no event is processed,
/// but the state is saved and waiting packets are sent.
pub fn serve_turn<O: Outside<L>, W: Outgoing, L: Listener>(
    host: &mut Host,
    outside: &mut O,
    out: &mut W,
    listener: &mut L,
) -> Turn
    // A host is served as by `serve_happenings`, and its output waits after earlier output. Then
    // `save` saves rows and values, or names the connections whose changes are not saved. Then
    // `tell` answers and notifies the application. The waiting ACL data for those connections is
    // dropped, and only then `send` sends what waits: all of it, none if nobody is there, or a
    // prefix if it fails. Unless all was sent, all of it still waits, and after a failure nothing
    // more is sent there. A host that has stopped changes no more, and nothing is waited for; its
    // state is saved and its output sent all the same.
    ensures turn { TakesATurn result host.old host.new
        (known (O.octets outside.old) (O.calls outside.old) (O.history outside.old))
        (known (O.octets outside.new) (O.calls outside.new) (O.history outside.new))
        (W.contents out.old) (W.contents out.new) (L.heard listener.old) (L.heard listener.new) }
    // As of `serve_happenings`.
    ensures order { StaysInOrder host.old (O.history outside.old) (O.history outside.new) }
    ensures settles { host.old.fault ≡ None
        → Settles host.new (W.failures out.old) (W.failures out.new) }
    ensures feeding { host.old.fault ≡ None
        → IfSome host.new.fault (λ fault. is_of_feeding fault ≡ true) }
    ensures outcome { host.new.fault ≡ result_err result.served }
    ensures stopped { IsSome host.old.fault → host.new ≡ host.old }
{
    let served = serve_happenings(host, outside, out, listener, 1);
    let saving = outside.save(host, listener);
    outside.tell(host, listener, &saving);
    withhold_unsaved(out, &saving);
    let sending = outside.send(out.waiting());
    drop_sent(out, sending);
    Turn {
        served,
        saving,
        sending,
    }
}

fn withhold_unsaved<W: Outgoing>(out: &mut W, saving: &Saving)
    ensures left { W.contents out.new
        ≡ option_map (octets_to_send saving.now) (W.contents out.old) }
    ensures failures { W.failures out.new ≡ W.failures out.old }
{
    match saving {
        Saving::Saved => {}
        Saving::Unsaved(connections) => out.withhold(connections),
    }
}

fn drop_sent<W: Outgoing>(out: &mut W, sending: Sending)
    ensures left { (octets : Octets) → W.contents out.old ≡ Some octets
        → W.contents out.new ≡ Some (waits_after sending octets) }
    ensures failures { W.failures out.new ≡ W.failures out.old }
{
    match sending {
        Sending::Done => out.clear(),
        Sending::Waits | Sending::Failed => {}
    }
}
