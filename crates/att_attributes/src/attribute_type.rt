//! Attribute types as octets (Core 5.0, Vol 3 Part B, 2.5.1).

ghost use Rattle.std.specs.Prelude.{◌≡◌};
ghost use Rattle.att_numbers.specs.AttributeType.{is_of_16_bits, type_octets};

use arrayvec::ArrayVec;
use att_numbers::attribute_type::BASE_UUID;

const BASE_LOWER: u64 = (BASE_UUID % (1 << 64)) as u64;

const BASE_UPPER: u64 = (BASE_UUID >> 64) as u64;

/// Returns true if a type is a 16-bit UUID.
pub fn is_of_16_bits(kind: u128) -> bool
    ensures { result ≡ is_of_16_bits kind }
{
    let upper = (kind >> 64) as u64;
    let lower = (kind % (1 << 64)) as u64;
    // Minus the base, a 16-bit number remains in the upper half; the swap allows one comparison.
    let rest = upper.wrapping_sub(BASE_UPPER);
    let number = ((rest % (1 << 32)) << 32) + (rest >> 32);
    lower == BASE_LOWER && number < 1 << 16
}

/// Returns a type as in PDUs, little-endian: 2 octets if 16-bit, otherwise 16.
pub fn type_octets(kind: u128) -> ArrayVec<u8, 16>
    ensures { result.items ≡ type_octets kind }
{
    if is_of_16_bits(kind) {
        let [low, high] = ((kind >> 96) as u16).to_le_bytes();
        let mut octets = ArrayVec::new();
        octets.push(low);
        octets.push(high);
        octets
    } else {
        ArrayVec::from(kind.to_le_bytes())
    }
}
