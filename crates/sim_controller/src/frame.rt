ghost use Rattle.std.specs.Prelude.{◌≡◌, ◌+◌, ◌<◌, ◌≤◌, ◌↔◌, ◌++◌, length, take, drop, IsOk, OnOk, OnErr, IfErr};
ghost use Rattle.circular_buffer.specs.Buffer.{buffer};
ghost use Rattle.le_acl.specs.Packets.{frame_octets};
ghost use Rattle.sim_controller.specs.Frames.{told_frame, told_others};
ghost use Rattle.sim_controller.specs.declared.told.TheConstants.{MAX_PIECE};
ghost use Rattle.sim_controller.specs.declared.waiting.TheConstants.{MAX_PACKETS};
ghost use Rattle.le_acl.specs.declared.sender.TheConstants.{MAX_ACL_LEN};
ghost use Rattle.octet_io.specs.declared.pdu.TheConstants.{MAX_PDU};

use crate::fault::SimFault;
use crate::told::{MAX_PIECE, Told};
use crate::waiting::{MAX_PACKETS, put};
use arrayvec::ArrayVec;
use circular_buffer::HeapCircularBuffer;
use le_acl::MAX_FRAME;

/// Returns the frame of a payload (Core 5.0, Vol 3 Part A, 3.1).
pub(crate) fn frame_of(cid: u16, payload: &[u8]) -> ArrayVec<u8, MAX_FRAME>
    requires { length payload.now ≤ MAX_PDU }
    ensures { result.items ≡ frame_octets (cid, payload.now) }
{
    let [size_low, size_high] = (payload.len() as u16).to_le_bytes();
    let [low, high] = cid.to_le_bytes();
    let mut frame = ArrayVec::new();
    frame.push(size_low);
    frame.push(size_high);
    frame.push(low);
    frame.push(high);
    frame.try_extend_from_slice(payload).unwrap();
    frame
}

/// Queues a frame of a client in fragments of at most `cut` octets. Fails if they do not all fit.
#[tactic(auto, using(crate::proofs::Pieces::frame_length, crate::proofs::Pieces::frame_step, crate::proofs::Pieces::frame_count))]
pub(crate) fn tell_frame(
    waiting: &mut HeapCircularBuffer<Told>,
    phone: u8,
    frame: &[u8],
    cut: usize,
) -> Result<(), SimFault>
    requires capacity { waiting.old.capacity ≡ MAX_PACKETS }
    requires within { length waiting.old.items ≤ MAX_PACKETS }
    requires cut_least { 1 ≤ cut }
    requires cut_most { cut ≤ MAX_ACL_LEN }
    requires some { 0 < length frame.now }
    ensures room { IsOk result ↔
        (length waiting.old.items + length (told_frame phone cut frame.now) ≤ MAX_PACKETS) }
    ensures told { OnOk result
        (waiting.new ≡ buffer (waiting.old.items ++ told_frame phone cut frame.now) MAX_PACKETS) }
    ensures full { IfErr result (λ fault. fault ≡ SimFault.Full) }
    ensures unchanged { OnErr result (waiting.new ≡ waiting.old) }
{
    let room = MAX_PACKETS - waiting.len();
    if frame.len() > room * cut {
        return Err(SimFault::Full);
    }
    let octets = piece(front(frame, cut));
    put(waiting, Told::Beginning { phone, octets });
    tell_others(waiting, phone, behind(frame, cut), cut);
    Ok(())
}

#[tactic(auto, using(crate::proofs::Pieces::others_parts, crate::proofs::Pieces::others_step, crate::proofs::Pieces::others_count, crate::proofs::Pieces::others_done))]
fn tell_others(waiting: &mut HeapCircularBuffer<Told>, phone: u8, octets: &[u8], cut: usize)
    requires capacity { waiting.old.capacity ≡ MAX_PACKETS }
    requires cut_least { 1 ≤ cut }
    requires cut_most { cut ≤ MAX_ACL_LEN }
    requires room { length waiting.old.items + length (told_others phone cut octets.now)
        ≤ MAX_PACKETS }
    ensures { waiting.new
        ≡ buffer (waiting.old.items ++ told_others phone cut octets.now) MAX_PACKETS }
{
    let mut left = octets;
    while !left.is_empty() {
        let octets = piece(front(left, cut));
        put(waiting, Told::Continuation { phone, octets });
        left = behind(left, cut);
    }
}

fn front(octets: &[u8], count: usize) -> &[u8]
    ensures { result.now ≡ take count octets.now }
{
    &octets[..count.min(octets.len())]
}

fn behind(octets: &[u8], count: usize) -> &[u8]
    ensures { result.now ≡ drop count octets.now }
{
    &octets[count.min(octets.len())..]
}

fn piece(octets: &[u8]) -> ArrayVec<u8, MAX_PIECE>
    requires { length octets.now ≤ MAX_PIECE }
    ensures { result ≡ record { items = octets.now } }
{
    let mut piece = ArrayVec::new();
    piece.try_extend_from_slice(octets).unwrap();
    piece
}
