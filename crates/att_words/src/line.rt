//! A line that may have a PDU.

use crate::handles::Handles;
use crate::pdu::add_pdu;
use crate::text::Text;

/// The most bytes of a line that is read: a PDU of 517 octets and a name need 1,045.
pub(crate) const LONGEST: usize = 2_048;

/// The most characters of a client's name.
const LONGEST_NAME: usize = 8;

/// Adds two spaces and the words of the PDU in a line. Adds nothing if it has none.
///
/// The line is `HEX`, `NAME < HEX` or `NAME > HEX`. After a name `-` is an empty PDU.
pub(crate) fn add_words(text: &mut Text, line: &[u8], handles: Handles<'_>) {
    match after_name(line) {
        Some(b"-") => {
            text.add("  ");
            add_pdu(text, &[], handles);
        }
        Some(digits) => add_digits(text, digits, handles),
        None => add_digits(text, line, handles),
    }
}

/// Returns what follows the name and the direction, if the line begins with these.
fn after_name(line: &[u8]) -> Option<&[u8]> {
    let end = line.iter().position(|octet| *octet == b' ')?;
    let (name, rest) = line.split_at(end);
    match rest {
        [b' ', b'<' | b'>', b' ', digits @ ..] if is_name(name) => Some(digits),
        _ => None,
    }
}

fn is_name(name: &[u8]) -> bool {
    !name.is_empty()
        && name.len() <= LONGEST_NAME
        && name.iter().all(|octet| octet.is_ascii_alphanumeric())
}

fn add_digits(text: &mut Text, digits: &[u8], handles: Handles<'_>) {
    let mut octets = [0; LONGEST / 2];
    let Some(pdu) = octets.get_mut(..digits.len() / 2) else {
        return;
    };
    if !digits.is_empty() && hex::decode_to_slice(digits, pdu).is_ok() {
        text.add("  ");
        add_pdu(text, pdu, handles);
    }
}
