//! Payloads in a line.

ghost use Rattle.std.specs.Prelude.{◌≡◌, is_some, IfSome};
ghost use Rattle.text_words.specs.Payload.{decoded, payload_of};

use octet_io::{MAX_PDU, PduOctets};
use std::marker::Model;

/// The hexadecimal digits of at most a PDU's octets.
#[derive(Drop)]
pub struct Payload<'a> {
    digits: &'a str,
}

impl<'a> Model for Payload<'a> {
    ghost use Rattle.octet_io.specs.Number.{Octets};
    ghost use Rattle.text_words.specs.Payload.{decoded_octets, IsWritten};

    ghost Value = { Octets };

    ghost view = { λ payload. decoded_octets payload.digits.now };

    ghost invariant = { λ payload. IsWritten payload.digits.now };
}

impl<'a> Payload<'a> {
    /// Reads hexadecimal digits, two an octet. A hyphen means no octets.
    #[tactic(auto, unfolding(crate::specs::Payload::payload_of), using(crate::proofs::Payloads::written))]
    pub fn read(word: &'a str) -> Option<Payload<'a>>
        ensures { result ≡ payload_of word.now }
    {
        if word == "-" {
            return Some(Payload { digits: "" });
        }
        if word.is_empty() || !decode(word, &mut PduOctets::new()) {
            return None;
        }
        Some(Payload { digits: word })
    }

    /// Replaces the contents of the buffer by the octets.
    pub fn decode(&self, octets: &mut PduOctets)
        ensures { octets.new.items ≡ self.now }
    {
        decode(self.digits, octets);
    }
}

/// Decodes digits into the buffer. Returns false and clears the buffer if they are wrong or more
/// than a PDU.
#[tactic(auto, unfolding(crate::specs::Payload::decoded))]
fn decode(digits: &str, octets: &mut PduOctets) -> bool
    ensures is { result ≡ is_some (decoded digits.now) }
    ensures octets { IfSome (decoded digits.now) (λ wanted. octets.new.items ≡ wanted) }
{
    octets.clear();
    if digits.len() > 2 * MAX_PDU {
        return false;
    }
    let mut buffer = [0; MAX_PDU];
    let room = &mut buffer[..digits.len() / 2];
    if hex::decode_to_slice(digits, room).is_err() {
        return false;
    }
    octets.try_extend_from_slice(room).is_ok()
}
