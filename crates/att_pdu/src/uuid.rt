ghost use Rattle.std.specs.Prelude.{◌≡◌, IfSome};
ghost use Rattle.att_pdu.specs.Uuid.{uuid_number, uuid_form, uuid_octets};

use att_numbers::attribute_type;

/// An attribute type as sent, a 16-bit or 128-bit UUID (Core 5.0, Vol 3 Part F, 3.2.1).
#[derive(Clone, Copy, Debug, PartialEq, Eq)]
pub enum Uuid {
    Short(u16),
    Long(u128),
}

impl Uuid {
    /// Returns the 128-bit number by which types are compared (Core 5.0, Vol 3 Part B, 2.5.1).
    pub fn number(self) -> u128
        ensures { result ≡ uuid_number self }
    {
        match self {
            Uuid::Short(short) => attribute_type::from_16_bits(short),
            Uuid::Long(long) => long,
        }
    }

    /// Reads a type of 2 or 16 octets, least significant first.
    pub(crate) fn read(octets: &[u8]) -> Option<Uuid>
        ensures form { result ≡ uuid_form octets.now }
        ensures spelled { IfSome result (λ uuid. uuid_octets uuid ≡ octets.now) }
    {
        match octets {
            [low, high] => Some(Uuid::Short(u16::from_le_bytes([*low, *high]))),
            _ => match <[u8; 16]>::try_from(octets) {
                Ok(octets) => Some(Uuid::Long(u128::from_le_bytes(octets))),
                Err(_) => None,
            },
        }
    }
}
