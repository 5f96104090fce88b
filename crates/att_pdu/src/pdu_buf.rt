ghost use Rattle.std.specs.Prelude.{◌≡◌, ◌+◌, ◌-◌, ◌≤◌, [], ◌∷◌, ◌++◌, length, take, drop};
ghost use Rattle.std.specs.Borrow.{sem};
ghost use Rattle.arrayvec.specs.ArrayVec.{array_vec_len};
ghost use Rattle.att_pdu.specs.End.{length_in, needed};
ghost use Rattle.att_pdu.specs.declared.pdu_buf.TheConstants.{MAX_MTU, MIN_MTU};

mod appending;

use crate::buffer::{replace_all, resize, write, write_both};
use att_numbers::limit::MAX_VALUE;
use att_numbers::{Refusal, opcode};
use octet_io::{MAX_PDU, PduOctets, write_front};

/// The least ATT_MTU of an LE link in octets (Core 5.0, Vol 3 Part G, 5.2.1).
pub const MIN_MTU: u16 = 23;
/// The largest ATT_MTU of this profile in octets.
pub const MAX_MTU: u16 = MAX_PDU as u16;

// A PDU holds opcode, handle, offset and the largest value.
const _: () = prove!(1 + 2 + 2 + MAX_VALUE == MAX_PDU);

const ERROR_SIZE: usize = 5;

const EXCHANGE_MTU_SIZE: usize = 3;

/// The end of a PDU in its buffer.
#[derive(Clone, Copy)]
pub(crate) enum End {
    OfBuffer,
    /// Before this index of a buffer whose length is fixed, so nothing is cleared.
    Before(usize),
}

/// A PDU under construction in the caller's buffer, never longer than the ATT_MTU.
#[derive(Drop)]
pub struct PduBuf<'a> {
    octets: &'a mut PduOctets,
    end: End,
    mtu: usize,
    pub ghost least: { MIN_MTU ≤ mtu },
    pub ghost most: { mtu ≤ MAX_MTU },
    pub ghost within: { length_in end (array_vec_len octets.now) ≤ mtu },
    pub ghost room: { needed end mtu ≤ array_vec_len octets.now },
}

impl<'a> PduBuf<'a> {
    ghost use Rattle.att_pdu.specs.Lends.{LendsOctets};
    ghost use Rattle.att_pdu.specs.PduBuf.{contents, mtu_of, IsIn, IsOver, StandsOver, IsSameBuffer};
    ghost use Rattle.att_pdu.specs.Response.{OfAttribute, element_octets, ErrorResponse, ExchangeMtuResponse, sent};

    /// Creates an empty PDU; clears `octets`.
    pub fn new(octets: &'a mut PduOctets, mtu: u16) -> PduBuf<'a>
        requires least { MIN_MTU ≤ mtu }
        requires most { mtu ≤ MAX_MTU }
        ensures empty { contents result ≡ [] }
        ensures mtu { mtu_of result ≡ mtu }
        ensures in_octets { IsIn result octets.entry }
    {
        octets.clear();
        PduBuf {
            octets,
            end: End::OfBuffer,
            mtu: usize::from(mtu),
        }
    }

    /// Adopts the PDU in `octets`, cut to the ATT_MTU.
    #[inline(always)]
    pub fn of(octets: &'a mut PduOctets, mtu: u16) -> PduBuf<'a>
        requires least { MIN_MTU ≤ mtu }
        requires most { mtu ≤ MAX_MTU }
        ensures content { contents result ≡ take mtu octets.old.items }
        ensures mtu { mtu_of result ≡ mtu }
        ensures in_octets { IsIn result octets.entry }
    {
        let mtu = usize::from(mtu);
        octets.truncate(mtu);
        PduBuf {
            octets,
            end: End::OfBuffer,
            mtu,
        }
    }

    /// Creates an empty PDU at the start of `octets`, whose length stays fixed.
    #[inline(always)]
    pub fn over(octets: &'a mut PduOctets, mtu: u16) -> PduBuf<'a>
        requires least { MIN_MTU ≤ mtu }
        requires most { mtu ≤ MAX_MTU }
        requires room { mtu ≤ array_vec_len octets.old }
        ensures empty { contents result ≡ [] }
        ensures mtu { mtu_of result ≡ mtu }
        ensures over_octets { IsOver result octets.entry }
    {
        PduBuf {
            octets,
            end: End::Before(0),
            mtu: usize::from(mtu),
        }
    }

    /// Returns the length of a PDU made by `over`.
    #[inline(always)]
    pub fn len_over(&self) -> usize
        requires { StandsOver self.now }
        ensures count { result ≡ length (contents self.now) }
        ensures within { result ≤ mtu_of self.now }
    {
        match self.end {
            End::OfBuffer => unreachable!(),
            End::Before(place) => place,
        }
    }

    /// Returns the ATT_MTU in octets.
    #[inline(always)]
    pub fn mtu(&self) -> u16
        ensures mtu { result ≡ mtu_of self.now }
        ensures least { MIN_MTU ≤ result }
        ensures most { result ≤ MAX_MTU }
    {
        self.mtu as u16
    }

    /// Replaces the PDU by an Error Response (Core 5.0, Vol 3 Part F, 3.4.1.1).
    pub fn error(&mut self, refusal: Refusal)
        ensures error { contents self.new
            ≡ sent (ErrorResponse refusal.opcode refusal.handle refusal.code) }
        ensures same_buffer { IsSameBuffer self.old self.new }
    {
        if self.keeps_length(ERROR_SIZE) {
            self.put_error(refusal);
        } else {
            self.put_error_anew(refusal);
        }
    }

    /// Returns true if the buffer is empty or needs no resize.
    #[inline(always)]
    fn keeps_length(&self, size: usize) -> bool {
        match self.end {
            End::OfBuffer => self.octets.is_empty() || self.octets.len() == size,
            End::Before(_) => true,
        }
    }

    /// Writes an Error Response after a resize; out of line, to save registers.
    #[inline(never)]
    fn put_error_anew(&mut self, refusal: Refusal)
        ensures error { contents self.new
            ≡ sent (ErrorResponse refusal.opcode refusal.handle refusal.code) }
        ensures same_buffer { IsSameBuffer self.old self.new }
    {
        self.put_error(refusal);
    }

    #[inline(always)]
    fn put_error(&mut self, refusal: Refusal)
        ensures error { contents self.new
            ≡ sent (ErrorResponse refusal.opcode refusal.handle refusal.code) }
        ensures same_buffer { IsSameBuffer self.old self.new }
    {
        let [low, high] = refusal.handle.to_le_bytes();
        let error: [u8; ERROR_SIZE] = [
            opcode::ERROR_RESPONSE,
            refusal.opcode,
            low,
            high,
            refusal.code,
        ];
        self.replace(&error, &[]);
    }

    /// Replaces the PDU by an Exchange MTU Response (Core 5.0, Vol 3 Part F, 3.4.2.2).
    #[inline(always)]
    pub fn exchange_mtu(&mut self, server_rx_mtu: u16)
        ensures response { contents self.new ≡ sent (ExchangeMtuResponse server_rx_mtu) }
        ensures same_buffer { IsSameBuffer self.old self.new }
    {
        if self.keeps_length(EXCHANGE_MTU_SIZE) {
            self.put_exchange_mtu(server_rx_mtu);
        } else {
            self.put_exchange_mtu_anew(server_rx_mtu);
        }
    }

    #[inline(never)]
    fn put_exchange_mtu_anew(&mut self, server_rx_mtu: u16)
        ensures response { contents self.new ≡ sent (ExchangeMtuResponse server_rx_mtu) }
        ensures same_buffer { IsSameBuffer self.old self.new }
    {
        self.put_exchange_mtu(server_rx_mtu);
    }

    #[inline(always)]
    fn put_exchange_mtu(&mut self, server_rx_mtu: u16)
        ensures response { contents self.new ≡ sent (ExchangeMtuResponse server_rx_mtu) }
        ensures same_buffer { IsSameBuffer self.old self.new }
    {
        let [low, high] = server_rx_mtu.to_le_bytes();
        let response: [u8; EXCHANGE_MTU_SIZE] = [opcode::EXCHANGE_MTU_RESPONSE, low, high];
        self.replace(&response, &[]);
    }

    /// Replaces the PDU by `first` and `rest`.
    #[inline(always)]
    pub fn replace(&mut self, first: &[u8], rest: &[u8])
        requires { length first.now + length rest.now ≤ mtu_of self.old }
        ensures replaced { contents self.new ≡ first.now ++ rest.now }
        ensures same_buffer { IsSameBuffer self.old self.new }
    {
        match self.end {
            End::OfBuffer => replace_all(self.octets, first, rest),
            End::Before(_) => {
                self.end = End::Before(first.len() + rest.len());
                write_front(self.octets.as_mut_slice(), first, rest);
            }
        }
    }

    /// Sets the PDU's length; the caller must write any new octets.
    #[inline(always)]
    pub fn resize(&mut self, size: usize)
        requires { size ≤ mtu_of self.old }
        ensures front { take (length (contents self.old)) (contents self.new)
            ≡ take size (contents self.old) }
        ensures size { length (contents self.new) ≡ size }
        ensures same_buffer { IsSameBuffer self.old self.new }
    {
        match &mut self.end {
            End::OfBuffer => resize(self.octets, size),
            End::Before(place) => *place = size,
        }
    }

    /// Lends the whole buffer for writing; the PDU is its first part.
    #[inline(always)]
    pub fn octets_mut(&mut self) -> &mut [u8]
        ensures* written { sem 𝓛 (LendsOctets self.entry result) }
        ensures front { take (length (contents self.old)) result.now ≡ contents self.old }
        ensures within { length (contents self.old) ≤ length result.now }
    {
        self.octets.as_mut_slice()
    }

    /// Overwrites the PDU from `place` on.
    #[inline(always)]
    #[tactic(auto, using(crate::proofs::Ends::written))]
    pub fn put(&mut self, place: usize, octets: &[u8])
        requires { place + length octets.now ≤ length (contents self.old) }
        ensures put { contents self.new ≡ take place (contents self.old) ++ octets.now
            ++ drop (place + length octets.now) (contents self.old) }
        ensures front { take (place + length octets.now) (contents self.new)
            ≡ take place (contents self.old) ++ octets.now }
        ensures size { length (contents self.new) ≡ length (contents self.old) }
        ensures same_buffer { IsSameBuffer self.old self.new }
    {
        write(self.octets.as_mut_slice(), place, octets);
    }

    /// Overwrites the PDU from `place` on with `first` and `value`.
    #[inline(always)]
    pub fn put_both(&mut self, place: usize, first: &[u8], value: &[u8])
        requires { place + length first.now + length value.now ≤ length (contents self.old) }
        ensures put { contents self.new ≡ take place (contents self.old) ++ first.now ++ value.now
            ++ drop (place + length first.now + length value.now) (contents self.old) }
        ensures front { take (place + length first.now + length value.now) (contents self.new)
            ≡ take place (contents self.old) ++ first.now ++ value.now }
        ensures size { length (contents self.new) ≡ length (contents self.old) }
        ensures same_buffer { IsSameBuffer self.old self.new }
    {
        write_both(self.octets.as_mut_slice(), place, first, value);
    }

    /// Overwrites the PDU from `place` on with a handle and octets.
    #[inline(always)]
    pub fn put_pair(&mut self, place: usize, handle: u16, octets: &[u8])
        requires { place + 2 + length octets.now ≤ length (contents self.old) }
        ensures put { contents self.new ≡ take place (contents self.old)
            ++ element_octets (OfAttribute handle octets.now)
            ++ drop (place + 2 + length octets.now) (contents self.old) }
        ensures front { take (place + 2 + length octets.now) (contents self.new)
            ≡ take place (contents self.old) ++ element_octets (OfAttribute handle octets.now) }
        ensures size { length (contents self.new) ≡ length (contents self.old) }
        ensures same_buffer { IsSameBuffer self.old self.new }
    {
        self.put_both(place, &handle.to_le_bytes(), octets);
    }

    /// Cuts the PDU to at most `place` octets.
    #[inline(always)]
    pub fn truncate(&mut self, place: usize)
        ensures ended { contents self.new ≡ take place (contents self.old) }
        ensures same_buffer { IsSameBuffer self.old self.new }
    {
        if place < self.len() {
            self.resize(place);
        }
    }

    /// Replaces the PDU by an opcode and a value, cut to the ATT_MTU (Core 5.0, Vol 3 Part F,
    /// 3.4.4.4).
    #[inline(always)]
    pub fn replace_by_front(&mut self, opcode: u8, octets: &[u8])
        ensures replaced { contents self.new
            ≡ opcode ∷ take (mtu_of self.old - 1) octets.now }
        ensures same_buffer { IsSameBuffer self.old self.new }
    {
        let most = self.mtu - 1;
        self.replace(&[opcode], &octets[..octets.len().min(most)]);
    }

    /// Clears the PDU.
    #[inline(always)]
    pub fn clear(&mut self)
        ensures cleared { contents self.new ≡ [] }
        ensures same_buffer { IsSameBuffer self.old self.new }
    {
        self.truncate(0);
    }

    #[inline(always)]
    fn len(&self) -> usize
        ensures count { result ≡ length (contents self.now) }
        ensures within { result ≤ mtu_of self.now }
    {
        match self.end {
            End::OfBuffer => self.octets.len(),
            End::Before(place) => place,
        }
    }
}
