//! Appends to a PDU; a call that returns `false` did not have enough space and changed nothing.

ghost use Rattle.std.specs.Prelude.{◌≡◌, ◌+◌, ◌-◌, ◌≤◌, ◌↔◌, ◌++◌, length, IsTrue, take};
ghost use Rattle.octet_io.specs.Number.{two_octets};

use super::{End, PduBuf};
use crate::buffer::{extend, write};

impl<'a> PduBuf<'a> {
    ghost use Rattle.att_pdu.specs.PduBuf.{contents, mtu_of, IsSameBuffer, AppendsWhereFits};
    ghost use Rattle.att_pdu.specs.Response.{OfAttribute, OfGroup, element_octets};

    /// Appends octets.
    #[inline(always)]
    pub fn value(&mut self, octets: &[u8]) -> bool
        ensures { AppendsWhereFits self.old self.new octets.now result }
    {
        if !self.has_room(octets.len()) {
            return false;
        }
        self.append(octets);
        true
    }

    /// Appends a value, cut to the ATT_MTU (Core 5.0, Vol 3 Part F, 3.4.4.8).
    #[inline(always)]
    pub fn front(&mut self, octets: &[u8])
        ensures appended { contents self.new
            ≡ contents self.old ++ take (mtu_of self.old - length (contents self.old))
            octets.now }
        ensures same_buffer { IsSameBuffer self.old self.new }
    {
        let room = self.mtu - self.len();
        self.append(&octets[..octets.len().min(room)]);
    }

    /// Appends a handle with a type or value (Core 5.0, Vol 3 Part F, 3.4.3.2 and 3.4.4.2).
    #[inline(always)]
    pub fn pair(&mut self, handle: u16, octets: &[u8]) -> bool
        ensures { AppendsWhereFits self.old self.new
            (element_octets (OfAttribute handle octets.now)) result }
    {
        if !self.has_room(2 + octets.len()) {
            return false;
        }
        self.append(&handle.to_le_bytes());
        self.append(octets);
        true
    }

    /// Appends a handle and a 16-bit type or handle (Core 5.0, Vol 3 Part F, 3.4.3.2 and 3.4.3.4).
    #[inline(always)]
    pub fn numbers(&mut self, first: u16, second: u16) -> bool
        ensures { AppendsWhereFits self.old self.new
            (two_octets first ++ two_octets second) result }
    {
        if !self.has_room(4) {
            return false;
        }
        let [first_low, first_high] = first.to_le_bytes();
        let [second_low, second_high] = second.to_le_bytes();
        self.append(&[first_low, first_high, second_low, second_high]);
        true
    }

    /// Appends a group's first and last handle and value (Core 5.0, Vol 3 Part F, 3.4.4.10).
    #[inline(always)]
    pub fn group(&mut self, first: u16, last: u16, octets: &[u8]) -> bool
        ensures { AppendsWhereFits self.old self.new
            (element_octets (OfGroup first last octets.now)) result }
    {
        if !self.has_room(4 + octets.len()) {
            return false;
        }
        let [first_low, first_high] = first.to_le_bytes();
        let [last_low, last_high] = last.to_le_bytes();
        self.append(&[first_low, first_high, last_low, last_high]);
        self.append(octets);
        true
    }

    /// Appends a handle, an offset and a part of a value (Core 5.0, Vol 3 Part F, 3.4.6.2).
    pub fn part(&mut self, handle: u16, offset: u16, octets: &[u8]) -> bool
        ensures { AppendsWhereFits self.old self.new
            (two_octets handle ++ two_octets offset ++ octets.now) result }
    {
        // The offset is encoded like a handle.
        self.group(handle, offset, octets)
    }

    /// Returns true if `count` more octets fit.
    fn has_room(&self, count: usize) -> bool
        ensures { IsTrue result ↔ (length (contents self.now) + count ≤ mtu_of self.now) }
    {
        count <= self.mtu - self.len()
    }

    /// Appends octets that fit.
    #[inline(always)]
    fn append(&mut self, octets: &[u8])
        requires { length (contents self.old) + length octets.now ≤ mtu_of self.old }
        ensures appended { contents self.new ≡ contents self.old ++ octets.now }
        ensures same_buffer { IsSameBuffer self.old self.new }
    {
        match self.end {
            End::OfBuffer => extend(self.octets, octets),
            End::Before(place) => {
                let end = place + octets.len();
                write(self.octets.as_mut_slice(), place, octets);
                self.end = End::Before(end);
            }
        }
    }
}
