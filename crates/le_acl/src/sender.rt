ghost use Rattle.std.specs.Prelude.{◌≡◌, ◌+◌, ◌^◌, ◌<◌, ◌≤◌, ◌↔◌, [], ◌++◌, length, nat_lt, take, is_some, Some, None, IsSome, IsOk, IfOk, IfSome};
ghost use Rattle.std.specs.Bool.{OnTrue, OnFalse};
ghost use Rattle.std.specs.Borrow.{sem};
ghost use Rattle.std.specs.Option.{option_map};
ghost use Rattle.le_acl.specs.Outgoing.{with_pdu, next_of, without_next, may_give, after_next, with_completed, without_pdus, acl_octets};
ghost use Rattle.le_acl.specs.Acts.{AlwaysGivesWithinShare};
ghost use Rattle.le_acl.specs.History.{FollowsHistory};
ghost use Rattle.le_acl.specs.Sending.{idle, queue_of, IsWithin, IsOfFirst};
ghost use Rattle.le_acl.specs.declared.frame.TheConstants.{MAX_FRAME};
ghost use Rattle.le_acl.specs.declared.sender.TheConstants.{MIN_ACL_LEN, MAX_ACL_LEN};
ghost use Rattle.arrayvec.specs.ArrayVec.{array_vec_len};
ghost use Rattle.octet_io.specs.Number.{Octets};
ghost use Rattle.le_h4.specs.declared.packet_buf.TheConstants.{MAX_PACKET_OUT};
ghost use Rattle.octet_io.specs.declared.pdu.TheConstants.{MAX_PDU};

use crate::boundary::{CONTINUATION, FIRST_NOT_FLUSHED};
use crate::fragment_ref::{FragmentRef, header_of};
use crate::frame::HEADER;
use crate::pdus::{MAX_PDUS, Pdus, lengthen};
use le_h4::{PacketBuf, PacketOctets, acl_into, write_acl_parts};
use octet_io::PduOctets;
use std::alloc::{AllocError, Global};
use std::marker::Model;

/// Minimum octets of a controller's buffer for LE ACL data (Core 5.0, Vol 2 Part E, 7.8.2).
pub const MIN_ACL_LEN: u16 = 27;

/// Maximum octets of data of an ACL packet to the controller: one packet of the Link Layer (Core
/// 5.0, Vol 6 Part B, 4.5.10).
pub const MAX_ACL_LEN: u16 = 251;

/// Error of a full queue.
#[derive(Clone, Copy, PartialEq, Eq)]
pub struct Full;

/// A queue of PDUs of one connection, sent as ACL packets within a share of outstanding packets
/// (Core 5.0, Vol 2 Part E, 4.1.1).
#[derive(Drop)]
pub struct Sender {
    pdus: Pdus,
    /// Octets sent of the first frame.
    gone: usize,
    outstanding: u16,
    share: u16,
    /// Maximum octets of data in a packet.
    acl_len: usize,
    /// True if the buffer for the next PDU is borrowed.
    lent: bool,
}

impl Model for Sender {
    ghost use Rattle.le_acl.specs.Sending.{Sending};

    ghost Value = { Sending };

    ghost use Rattle.le_acl.specs.Sending.{sending_of, IsSending};

    ghost view = { λ s. sending_of s.pdus s.gone s.outstanding s.share s.acl_len s.lent };

    ghost invariant = { λ s. IsSending s.pdus s.gone s.acl_len s.lent };
}

impl Sender {
    ghost use Rattle.le_acl.specs.SenderLends.{LendsRoom};

    /// Creates an empty sender. At most `share` packets may be outstanding, each with at most
    /// `acl_len` octets of data.
    #[tactic(auto, using(crate::proofs::Shares::always_gives_a_share))]
    pub fn new(alloc: Global, share: u16, acl_len: u16) -> Result<Sender, AllocError>
        requires share { 0 < share }
        requires acl_len_least { MIN_ACL_LEN ≤ acl_len }
        requires acl_len_most { acl_len ≤ MAX_ACL_LEN }
        ensures idle { IfOk result (λ sender. sender ≡ idle share acl_len) }
        // Packets are sent in order and within the share, whatever the calls.
        ensures share { AlwaysGivesWithinShare share acl_len }
        ensures history { FollowsHistory share acl_len }
    {
        Ok(Sender {
            pdus: Pdus::new(alloc)?,
            gone: 0,
            outstanding: 0,
            share,
            acl_len: usize::from(acl_len),
            lent: false,
        })
    }

    /// Returns an empty buffer for the payload of the next PDU.
    #[inline(always)]
    pub fn room(&mut self) -> Result<&mut PduOctets, Full>
        ensures* writes_back { sem 𝓛 (LendsRoom self.entry result) }
        ensures full { IsOk result ↔ (length self.old.outgoing.queue < MAX_PDUS) }
        ensures empty { IfOk result (λ room. room.now.items ≡ []) }
    {
        let room = self.lend()?;
        room.clear();
        Ok(room)
    }

    /// Returns the buffer at its full length, to overwrite its start.
    #[inline(always)]
    pub fn room_to_overwrite(&mut self) -> Result<&mut PduOctets, Full>
        ensures* writes_back { sem 𝓛 (LendsRoom self.entry result) }
        ensures full { IsOk result ↔ (length self.old.outgoing.queue < MAX_PDUS) }
        ensures long { IfOk result (λ room. array_vec_len room.now ≡ MAX_PDU) }
    {
        let room = self.lend()?;
        lengthen(room);
        Ok(room)
    }

    #[inline(always)]
    fn lend(&mut self) -> Result<&mut PduOctets, Full>
        ensures* writes_back { sem 𝓛 (LendsRoom self.entry result) }
        ensures full { IsOk result ↔ (length self.old.outgoing.queue < MAX_PDUS) }
    {
        if self.backlog() == MAX_PDUS {
            return Err(Full);
        }
        self.lent = true;
        Ok(self.pdus.room())
    }

    /// Queues the contents of the buffer from `room`, as a PDU on channel `cid`.
    pub fn push(&mut self, cid: u16)
        requires { IsSome self.old.room }
        ensures { (payload : Octets) → self.old.room ≡ Some payload
            → self.new
            ≡ record { outgoing = with_pdu self.old.outgoing (cid, payload); room = None } }
    {
        self.pdus.push(cid);
        self.lent = false;
    }

    /// Queues the first `count` octets of the buffer.
    pub fn push_prefix(&mut self, cid: u16, count: usize)
        requires lent { IsSome self.old.room }
        requires within { (room : Octets) → self.old.room ≡ Some room → count ≤ length room }
        ensures { (room : Octets) → self.old.room ≡ Some room
            → self.new
            ≡ record {
              outgoing = with_pdu self.old.outgoing (cid, take count room);
              room = None;
            } }
    {
        self.pdus.push_prefix(cid, count);
        self.lent = false;
    }

    /// Queues two slices as one PDU of at most `MAX_PDU` octets. The queue must not be full.
    pub fn queue(&mut self, cid: u16, first: &[u8], rest: &[u8])
        requires room { length self.old.outgoing.queue < MAX_PDUS }
        requires fits { length first.now + length rest.now ≤ MAX_PDU }
        ensures { self.new ≡ record {
          outgoing = with_pdu self.old.outgoing
              (cid, first.now ++ rest.now);
          room = None;
        } }
    {
        self.lent = false;
        self.pdus.queue(cid, first, rest);
    }

    /// Writes the next packet in place of the contents of `out`. Returns false and changes nothing
    /// if no PDU is queued or the share is used up.
    pub fn next(&mut self, handle: u16, out: &mut PacketOctets) -> bool
        requires { handle < 2 ^ 12 }
        ensures gives { result ≡ may_give self.old.outgoing }
        ensures given { OnTrue result (option_map (acl_octets handle)
            (next_of self.old.outgoing.queue) ≡ Some out.new.items) }
        ensures after { OnTrue result
            (self.new ≡ record self.old { outgoing = after_next self.old.outgoing }) }
        ensures unchanged { OnFalse result (self.new ≡ self.old) }
        ensures out_unchanged { OnFalse result (out.new.items ≡ out.old.items) }
    {
        if self.share <= self.outstanding {
            return false;
        }
        let Some((channel, payload)) = self.pdus.front() else {
            return false;
        };
        let frame_len = HEADER + payload.len();
        match FragmentRef::at(channel, payload, self.gone, self.acl_len) {
            FragmentRef::Beginning { header, payload } => {
                write_acl_parts(handle, FIRST_NOT_FLUSHED, &header, payload, out);
            }
            FragmentRef::Continuation { payload } => {
                write_acl_parts(handle, CONTINUATION, &[], payload, out);
            }
        }
        self.outstanding += 1;
        pass_fragment(&mut self.pdus, &mut self.gone, self.acl_len, frame_len);
        true
    }

    /// Writes the next packet to `out`, as `next` does.
    #[inline(always)]
    pub fn next_packet(&mut self, handle: u16, out: &mut PacketBuf) -> bool
        requires { handle < 2 ^ 12 }
        ensures gives { result ≡ may_give self.old.outgoing }
        ensures given { OnTrue result
            (option_map (acl_octets handle) (next_of self.old.outgoing.queue) ≡ Some out.new) }
        ensures after { OnTrue result
            (self.new ≡ record self.old { outgoing = after_next self.old.outgoing }) }
        ensures unchanged { OnFalse result (self.new ≡ self.old) }
        ensures out_unchanged { OnFalse result (out.new ≡ out.old) }
    {
        if self.outstanding >= self.share {
            return false;
        }
        let Some(pdu) = self.pdus.first() else {
            return false;
        };
        let frame_len = HEADER + pdu.len;
        let payload = &pdu.octets[..pdu.len];
        if self.gone == 0 && frame_len <= self.acl_len {
            // Most frames fit into one packet.
            let header = header_of(pdu.channel, payload);
            out.acl_front(handle, FIRST_NOT_FLUSHED, &header, pdu.octets, pdu.len);
            self.outstanding += 1;
            pass_whole(&mut self.pdus, self.gone, self.acl_len, frame_len);
            return true;
        }
        match FragmentRef::at(pdu.channel, payload, self.gone, self.acl_len) {
            FragmentRef::Beginning { header, payload } => {
                out.acl(handle, FIRST_NOT_FLUSHED, &header, payload);
            }
            FragmentRef::Continuation { payload } => {
                out.acl(handle, CONTINUATION, &[], payload);
            }
        }
        self.outstanding += 1;
        pass_fragment(&mut self.pdus, &mut self.gone, self.acl_len, frame_len);
        true
    }

    /// Writes the next packet to the start of `out`. Returns its length, or `None` if `next` would
    /// return false.
    #[inline(always)]
    pub fn next_into(&mut self, handle: u16, out: &mut [u8]) -> Option<usize>
        requires handle { handle < 2 ^ 12 }
        requires room { MAX_PACKET_OUT ≤ length out.old }
        ensures gives { is_some result ≡ may_give self.old.outgoing }
        ensures given { IfSome result (λ count. option_map (acl_octets handle)
            (next_of self.old.outgoing.queue) ≡ Some (take count out.new)) }
        ensures within { IfSome result (λ count. count ≤ length out.old) }
        ensures after { OnTrue (is_some result)
            (self.new ≡ record self.old { outgoing = after_next self.old.outgoing }) }
        ensures unchanged { OnFalse (is_some result) (self.new ≡ self.old) }
        ensures out_unchanged { OnFalse (is_some result) (out.new ≡ out.old) }
    {
        if self.share <= self.outstanding {
            return None;
        }
        let (channel, payload) = self.pdus.front()?;
        let frame_len = HEADER + payload.len();
        if self.gone == 0 && frame_len <= self.acl_len {
            let header = header_of(channel, payload);
            let count = acl_into(handle, FIRST_NOT_FLUSHED, &header, payload, out);
            self.outstanding += 1;
            pass_whole(&mut self.pdus, self.gone, self.acl_len, frame_len);
            return Some(count);
        }
        let count = match FragmentRef::at(channel, payload, self.gone, self.acl_len) {
            FragmentRef::Beginning { header, payload } => {
                acl_into(handle, FIRST_NOT_FLUSHED, &header, payload, out)
            }
            FragmentRef::Continuation { payload } => {
                acl_into(handle, CONTINUATION, &[], payload, out)
            }
        };
        self.outstanding += 1;
        pass_fragment(&mut self.pdus, &mut self.gone, self.acl_len, frame_len);
        Some(count)
    }

    /// Returns true if a packet may be sent now.
    pub fn may_give(&self) -> bool
        ensures { result ≡ may_give self.now.outgoing }
    {
        self.outstanding < self.share && self.backlog() > 0
    }

    /// Returns true if the share is not used up.
    #[inline(always)]
    pub fn is_below_share(&self) -> bool
        ensures { result ≡ nat_lt self.now.outgoing.outstanding self.now.outgoing.share }
    {
        self.outstanding < self.share
    }

    /// Counts packets as completed, at most the outstanding ones.
    pub fn completed(&mut self, count: u16)
        ensures { self.new ≡ record self.old
            { outgoing = with_completed self.old.outgoing count } }
    {
        self.outstanding = self.outstanding.saturating_sub(count);
    }

    /// Drops all PDUs. Packets stay outstanding.
    pub fn flush(&mut self)
        ensures { self.new ≡ record { outgoing = without_pdus self.old.outgoing; room = None } }
    {
        self.pdus.clear();
        self.gone = 0;
        self.lent = false;
    }

    /// Returns the number of PDUs not completely sent.
    pub fn backlog(&self) -> usize
        ensures count { result ≡ length self.now.outgoing.queue }
        ensures within { result ≤ MAX_PDUS }
    {
        self.pdus.len()
    }

    /// Drops all PDUs and outstanding packets, and sets share and packet size.
    pub fn reset(&mut self, share: u16, acl_len: u16)
        requires share { 0 < share }
        requires acl_len_least { MIN_ACL_LEN ≤ acl_len }
        requires acl_len_most { acl_len ≤ MAX_ACL_LEN }
        ensures { self.new ≡ idle share acl_len }
    {
        self.flush();
        self.outstanding = 0;
        self.share = share;
        self.acl_len = usize::from(acl_len);
    }
}

#[inline(always)]
fn pass_fragment(pdus: &mut Pdus, gone: &mut usize, acl_len: usize, frame_len: usize)
    requires first { IsOfFirst frame_len pdus.old.pdus }
    requires frame { frame_len ≤ MAX_FRAME }
    requires least { 0 < acl_len }
    requires most { acl_len ≤ MAX_ACL_LEN }
    requires within { IsWithin acl_len gone.old pdus.old.pdus }
    ensures queue { queue_of acl_len gone.new pdus.new.pdus
        ≡ without_next (queue_of acl_len gone.old pdus.old.pdus) }
    ensures within { IsWithin acl_len gone.new pdus.new.pdus }
    ensures room { pdus.new.room ≡ pdus.old.room }
{
    let passed = *gone + acl_len;
    if passed >= frame_len {
        pdus.pop();
        *gone = 0;
    } else {
        *gone = passed;
    }
}

#[inline(always)]
fn pass_whole(pdus: &mut Pdus, gone: usize, acl_len: usize, frame_len: usize)
    requires first { IsOfFirst frame_len pdus.old.pdus }
    requires gone { gone ≡ 0 }
    requires whole { frame_len ≤ acl_len }
    requires least { 0 < acl_len }
    requires within { IsWithin acl_len gone pdus.old.pdus }
    ensures queue { queue_of acl_len gone pdus.new.pdus
        ≡ without_next (queue_of acl_len gone pdus.old.pdus) }
    ensures within { IsWithin acl_len gone pdus.new.pdus }
    ensures room { pdus.new.room ≡ pdus.old.room }
{
    pdus.pop();
}
