//! The packets by which a host tells a controller that it has no key.

ghost use Rattle.std.specs.Prelude.{◌≡◌};
ghost use Rattle.device_loop.specs.RefusedKeys.{refused_key, RecognisesARefusal};

use le_h4::indicator;
use le_hci::opcode;

/// Returns the connection to whose controller this packet of a host refuses a key, if it does.
pub fn refused_key(packet: &[u8]) -> Option<u16>
    ensures key { result ≡ refused_key packet.now }
    // For every connection:
    ensures recognised { RecognisesARefusal }
{
    match packet {
        [
            indicator::COMMAND,
            low,
            high,
            _,
            handle_low,
            handle_high,
            ..
        ] => {
            if u16::from_le_bytes([*low, *high])
                != opcode::LE_LONG_TERM_KEY_REQUEST_NEGATIVE_REPLY
            {
                return None;
            }
            Some(u16::from_le_bytes([*handle_low, *handle_high]))
        }
        _ => None,
    }
}
