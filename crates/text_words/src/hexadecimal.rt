//! Octets as hexadecimal digits.

ghost use Rattle.std.specs.Prelude.{◌≡◌, ◌++◌, ◌∷◌, [], OnOk};
ghost use Rattle.hex.specs.Hex.{encode_lower};

use std::alloc::AllocError;

/// Adds octets, two digits each.
pub fn add_hex(text: &mut Vec<u8>, octets: &[u8]) -> Result<(), AllocError>
    ensures ok { OnOk result (text.new.items ≡ text.old.items ++ encode_lower octets.now) }
{
    for octet in octets {
        add_octet(text, *octet)?;
    }
    Ok(())
}

fn add_octet(text: &mut Vec<u8>, octet: u8) -> Result<(), AllocError>
    ensures ok { OnOk result (text.new.items ≡ text.old.items ++ encode_lower (octet ∷ [])) }
{
    let mut digits = [0; 2];
    hex::encode_to_slice([octet], &mut digits).unwrap();
    text.extend_from_slice(&digits)
}
