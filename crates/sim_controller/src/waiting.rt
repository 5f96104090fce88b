ghost use Rattle.std.specs.Prelude.{◌≡◌, ◌+◌, ◌<◌, ◌≤◌, ◌↔◌, [], ◌∷◌, ◌++◌, length, IsOk, OnOk, OnErr, IfErr};
ghost use Rattle.circular_buffer.specs.Buffer.{buffer};
ghost use Rattle.sim_controller.specs.declared.waiting.TheConstants.{MAX_PACKETS};

use crate::fault::SimFault;
use crate::told::Told;
use circular_buffer::HeapCircularBuffer;

/// Maximum number of packets queued for the host.
pub(crate) const MAX_PACKETS: usize = 64;

/// Queues a packet for the host, or fails if the queue is full.
pub(crate) fn tell(waiting: &mut HeapCircularBuffer<Told>, told: Told) -> Result<(), SimFault>
    requires { waiting.old.capacity ≡ MAX_PACKETS }
    ensures room { IsOk result ↔ (length waiting.old.items < MAX_PACKETS) }
    ensures told { OnOk result (waiting.new ≡ buffer (waiting.old.items ++ told ∷ []) MAX_PACKETS) }
    ensures full { IfErr result (λ fault. fault ≡ SimFault.Full) }
    ensures unchanged { OnErr result (waiting.new ≡ waiting.old) }
{
    waiting.try_push_back(told).map_err(|_| SimFault::Full)
}

/// Queues two packets for the host, or fails if they do not both fit.
pub(crate) fn tell_both(
    waiting: &mut HeapCircularBuffer<Told>,
    first: Told,
    second: Told,
) -> Result<(), SimFault>
    requires { waiting.old.capacity ≡ MAX_PACKETS }
    ensures room { IsOk result ↔ (length waiting.old.items + 2 ≤ MAX_PACKETS) }
    ensures told { OnOk result
        (waiting.new ≡ buffer (waiting.old.items ++ first ∷ second ∷ []) MAX_PACKETS) }
    ensures full { IfErr result (λ fault. fault ≡ SimFault.Full) }
    ensures unchanged { OnErr result (waiting.new ≡ waiting.old) }
{
    if waiting.len() + 2 > MAX_PACKETS {
        return Err(SimFault::Full);
    }
    tell(waiting, first)?;
    tell(waiting, second)
}

/// Queues a packet for the host. The queue must not be full.
pub(crate) fn put(waiting: &mut HeapCircularBuffer<Told>, told: Told)
    requires capacity { waiting.old.capacity ≡ MAX_PACKETS }
    requires room { length waiting.old.items < MAX_PACKETS }
    ensures told { waiting.new ≡ buffer (waiting.old.items ++ told ∷ []) MAX_PACKETS }
    ensures len { length waiting.new.items ≡ length waiting.old.items + 1 }
{
    waiting.try_push_back(told).unwrap();
}
