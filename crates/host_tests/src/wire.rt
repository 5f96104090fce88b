//! Octets on the wire.

use arrayvec::ArrayVec;
use octet_io::ArraySink;
use std::process::Abort;

/// Most octets of one direction in one step.
pub const ROOM: usize = 1536;

pub type Octets = ArrayVec<u8, ROOM>;

pub type Written = ArraySink<ROOM>;

pub fn put(rt: &impl Abort, octets: &mut Octets, more: &[u8]) {
    octets.try_extend_from_slice(more).expect(rt, "room");
}

/// Appends octets spelled in hexadecimal.
pub fn spell(rt: &impl Abort, octets: &mut Octets, text: &str) {
    let mut spelled = [0; 64];
    let part = spelled.get_mut(..text.len() / 2).expect(rt, "room");
    hex::decode_to_slice(text, part).expect(rt, "hexadecimal");
    put(rt, octets, part);
}

/// Returns octets spelled in hexadecimal.
pub fn spelled(rt: &impl Abort, text: &str) -> Octets {
    let mut octets = Octets::new();
    spell(rt, &mut octets, text);
    octets
}

fn put_number(rt: &impl Abort, octets: &mut Octets, number: usize) {
    let number = u16::try_from(number).expect(rt, "a number of two octets");
    put(rt, octets, &number.to_le_bytes());
}

/// Appends a PDU of connection 0040 in one ACL packet, and the completion of the packet that answers
/// it.
pub fn ask(rt: &impl Abort, octets: &mut Octets, pdu: &[u8]) {
    put(rt, octets, &[0x02, 0x40, 0x20]);
    put_number(rt, octets, pdu.len().saturating_add(4));
    put_number(rt, octets, pdu.len());
    put(rt, octets, &[0x04, 0x00]);
    put(rt, octets, pdu);
    put(
        rt,
        octets,
        &[0x04, 0x13, 0x05, 0x01, 0x40, 0x00, 0x01, 0x00],
    );
}
