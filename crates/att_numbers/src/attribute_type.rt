//! Attribute types, as 128-bit numbers (Core 5.0, Vol 3 Part B, 2.5.1, and Part G, 3.4).

ghost use Rattle.std.specs.Prelude.{◌≡◌};
ghost use Rattle.att_numbers.specs.AttributeType.{of_16_bits};

/// Bluetooth Base UUID, to which a 16-bit UUID is added at bit 96.
pub const BASE_UUID: u128 = 0x0000_0000_0000_1000_8000_0080_5F9B_34FB;

pub const PRIMARY_SERVICE: u128 = (0x2800 << 96) + BASE_UUID;

pub const SECONDARY_SERVICE: u128 = (0x2801 << 96) + BASE_UUID;

pub const INCLUDE: u128 = (0x2802 << 96) + BASE_UUID;

pub const CHARACTERISTIC: u128 = (0x2803 << 96) + BASE_UUID;

pub const CLIENT_CHARACTERISTIC_CONFIGURATION: u128 = (0x2902 << 96) + BASE_UUID;

pub const SERVICE_CHANGED: u128 = (0x2A05 << 96) + BASE_UUID;

/// UUID of the Generic Attribute Profile service (Core 5.0, Vol 3 Part G, 7).
pub const GENERIC_ATTRIBUTE_SERVICE: u16 = 0x1801;

/// Returns the attribute type of a 16-bit UUID.
#[inline(always)]
pub fn from_16_bits(number: u16) -> u128
    ensures { result ≡ of_16_bits number }
{
    (u128::from(number) << 96) + BASE_UUID
}
