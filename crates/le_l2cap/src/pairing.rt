ghost use Rattle.std.specs.Prelude.{◌≡◌};
ghost use Rattle.le_l2cap.specs.Pairing.{pairing_answer};

/// Code of a Pairing Request (Core 5.0, Vol 3 Part H, 3.3).
const PAIRING_REQUEST: u8 = 0x01;
/// Pairing Failed with reason Pairing Not Supported (Core 5.0, Vol 3 Part H, 3.5.5).
const PAIRING_NOT_SUPPORTED: [u8; 2] = [0x05, 0x05];

/// Returns Pairing Failed for a Pairing Request. Other payloads are ignored.
pub fn security(payload: &[u8]) -> Option<[u8; 2]>
    ensures { result ≡ pairing_answer payload.now }
{
    match payload {
        [PAIRING_REQUEST, ..] => Some(PAIRING_NOT_SUPPORTED),
        _ => None,
    }
}
