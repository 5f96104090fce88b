ghost use Rattle.std.specs.Prelude.{◌≡◌, ◌+◌, ◌<◌, ◌≤◌, ◌↔◌, [], ◌∷◌, ◌++◌, take, drop, length, vec_len, slice_get, IfOk, IfSome, Some, IsNone};
ghost use Rattle.std.specs.Borrow.{sem};
ghost use Rattle.arrayvec.specs.ArrayVec.{array_vec_len};
ghost use Rattle.octet_io.specs.declared.pdu.TheConstants.{MAX_PDU};

use octet_io::{MAX_PDU, PduOctets, write_front};
use std::alloc::{AllocError, Global};
use std::marker::Model;

/// Maximum number of queued PDUs of one connection.
pub const MAX_PDUS: usize = 16;

/// Header of a PDU's frame (Core 5.0, Vol 3 Part A, 3.1).
#[derive(Clone, Copy)]
struct Header {
    channel: u16,
    len: u16,
}

/// A PDU in its buffer.
#[derive(Clone, Copy)]
pub(crate) struct PduRef<'a> {
    pub(crate) channel: u16,
    /// The whole buffer.
    pub(crate) octets: &'a [u8],
    /// Length of the payload, at the start of the buffer.
    pub(crate) len: usize,
}

#[derive(Drop)]
struct Payloads {
    items: Vec<PduOctets>,
}

impl Payloads {
    ghost use Rattle.le_acl.specs.PayloadLends.{LendsPayload};

    #[inline(always)]
    fn at_mut(&mut self, index: usize) -> &mut PduOctets
        requires { index < vec_len self.old.items }
        ensures* writes_back { sem 𝓛 (LendsPayload self.entry index result) }
    {
        &mut self.items[index]
    }
}

/// A ring of at most `MAX_PDUS` PDUs, in order, and a buffer for the next.
#[derive(Drop)]
pub(crate) struct Pdus {
    payloads: Payloads,
    headers: [Header; MAX_PDUS],
    first: usize,
    count: usize,
}

impl Model for Pdus {
    ghost use Rattle.std.specs.Prelude.{◌<◌, ◌≤◌, ◌≡◌, length};
    ghost use Rattle.le_acl.specs.Pdus.{Queued};

    ghost Value = { Queued };

    ghost use Rattle.le_acl.specs.Pdus.{queued_of, IsRing};

    ghost view = { λ p. queued_of p.first p.count p.headers p.payloads.items.items };

    ghost invariant = { λ p. IsRing p.first p.count p.headers p.payloads.items.items };
}

impl Pdus {
    ghost use Rattle.le_acl.specs.PdusLends.{LendsQueueRoom};

    pub(crate) fn new(alloc: Global) -> Result<Pdus, AllocError>
        ensures { IfOk result (λ pdus. pdus.pdus ≡ []) }
    {
        Ok(Pdus {
            payloads: Payloads {
                items: full_payloads(alloc)?,
            },
            headers: [Header { channel: 0, len: 0 }; MAX_PDUS],
            first: 0,
            count: 0,
        })
    }

    pub(crate) fn len(&self) -> usize
        ensures count { result ≡ length self.now.pdus }
        ensures within { result ≤ MAX_PDUS }
    {
        self.count
    }

    #[inline(always)]
    pub(crate) fn room(&mut self) -> &mut PduOctets
        requires { length self.old.pdus < MAX_PDUS }
        ensures* writes_back { sem 𝓛 (LendsQueueRoom self.entry result) }
    {
        self.payloads.at_mut((self.first + self.count) % MAX_PDUS)
    }

    /// Queues the contents of the buffer.
    #[inline(always)]
    pub(crate) fn push(&mut self, channel: u16)
        requires { length self.old.pdus < MAX_PDUS }
        ensures { self.new.pdus ≡ self.old.pdus ++ (channel, self.old.room) ∷ [] }
    {
        let place = (self.first + self.count) % MAX_PDUS;
        self.headers[place] = Header {
            channel,
            len: self.payloads.items[place].len() as u16,
        };
        self.count += 1;
    }

    /// Queues the first `count` octets of the buffer.
    #[inline(always)]
    pub(crate) fn push_prefix(&mut self, channel: u16, count: usize)
        requires room { length self.old.pdus < MAX_PDUS }
        requires within { count ≤ length self.old.room }
        ensures { self.new.pdus ≡ self.old.pdus ++ (channel, take count self.old.room) ∷ [] }
    {
        let place = (self.first + self.count) % MAX_PDUS;
        prove!(count <= self.payloads.items[place].len());
        self.headers[place] = Header {
            channel,
            len: count as u16,
        };
        self.count += 1;
    }

    /// Queues two slices, joined, and overwrites the buffer.
    #[inline(always)]
    pub(crate) fn queue(&mut self, channel: u16, front: &[u8], rest: &[u8])
        requires room { length self.old.pdus < MAX_PDUS }
        requires fits { length front.now + length rest.now ≤ MAX_PDU }
        ensures { self.new.pdus ≡ self.old.pdus ++ (channel, front.now ++ rest.now) ∷ [] }
    {
        let place = (self.first + self.count) % MAX_PDUS;
        self.headers[place] = Header {
            channel,
            len: (front.len() + rest.len()) as u16,
        };
        self.count += 1;
        let payload = self.payloads.at_mut(place);
        lengthen(payload);
        write_front(payload.as_mut_slice(), front, rest);
    }

    /// Returns the first PDU with its whole buffer.
    #[inline(always)]
    pub(crate) fn first(&self) -> Option<PduRef<'_>>
        ensures none { IsNone result ↔ (self.now.pdus ≡ []) }
        ensures first { IfSome result (λ pdu. slice_get self.now.pdus 0
            ≡ Some (pdu.channel, take pdu.len pdu.octets.now)) }
        ensures within { IfSome result (λ pdu. pdu.len ≤ length pdu.octets.now) }
        ensures fits { IfSome result (λ pdu. length pdu.octets.now ≤ MAX_PDU) }
    {
        if self.count == 0 {
            return None;
        }
        let header = self.headers[self.first];
        Some(PduRef {
            channel: header.channel,
            octets: self.payloads.items[self.first].as_slice(),
            len: usize::from(header.len),
        })
    }

    #[inline(always)]
    pub(crate) fn front(&self) -> Option<(u16, &[u8])>
        ensures none { IsNone result ↔ (self.now.pdus ≡ []) }
        ensures front { IfSome result
            (λ pdu. slice_get self.now.pdus 0 ≡ Some (pdu.0, pdu.1.now)) }
        ensures fits { IfSome result (λ pdu. length pdu.1.now ≤ MAX_PDU) }
    {
        let pdu = self.first()?;
        Some((pdu.channel, &pdu.octets[..pdu.len]))
    }

    #[inline(always)]
    pub(crate) fn pop(&mut self)
        requires { 0 < length self.old.pdus }
        ensures pdus { self.new.pdus ≡ drop 1 self.old.pdus }
        ensures room { self.new.room ≡ self.old.room }
    {
        self.first = (self.first + 1) % MAX_PDUS;
        self.count -= 1;
    }

    pub(crate) fn clear(&mut self)
        ensures { self.new.pdus ≡ [] }
    {
        self.count = 0;
    }
}

/// Extends a buffer to its full length, which it mostly has.
#[inline(always)]
pub(crate) fn lengthen(payload: &mut PduOctets)
    ensures { array_vec_len payload.new ≡ MAX_PDU }
{
    if payload.len() < MAX_PDU {
        fill(payload);
    }
}

#[cold]
#[inline(never)]
fn fill(payload: &mut PduOctets)
    ensures { array_vec_len payload.new ≡ MAX_PDU }
{
    *payload = PduOctets::from([0; MAX_PDU]);
}

fn full_payloads(alloc: Global) -> Result<Vec<PduOctets>, AllocError>
    ensures { IfOk result (λ payloads. vec_len payloads ≡ MAX_PDUS) }
{
    let mut payloads = Vec::new(alloc);
    payloads.resize_with(MAX_PDUS, || PduOctets::from([0; MAX_PDU]))?;
    Ok(payloads)
}
