//! The address of the device.

ghost use Rattle.std.specs.Prelude.{◌≡◌};
ghost use Rattle.std.specs.Option.{option_map};
ghost use Rattle.std.specs.Result.{result_ok};
ghost use Rattle.device_options.specs.Address.{is_static, own_address_of};

/// Reads a static random address. The least significant octet is first.
pub(crate) fn read_address(word: Option<&str>) -> Result<Option<[u8; 6]>, &'static str>
    ensures { result_ok result ≡ own_address_of (option_map (λ word. word.now) word.entry) }
{
    let Some(word) = word else {
        return Ok(None);
    };
    match le_security::read_address(word.as_bytes()) {
        Some(address) if is_static(&address) => Ok(Some(address)),
        _ => Err("--address: a static random address, whose first digit is c, d, e or f"),
    }
}

/// Returns true if a random address is static (Core 5.0, Vol 6 Part B, 1.3.2.1).
fn is_static(address: &[u8; 6]) -> bool
    ensures { result ≡ is_static address.now }
{
    address[5] >= 0xC0 && *address != [0xFF; 6] && *address != [0, 0, 0, 0, 0, 0xC0]
}
