//! The words of a line, while they are put together.

use arrayvec::ArrayVec;
use itoa::Buffer;

/// The most bytes of a text. The longest words, of 8 entries with 128-bit types, are shorter.
const MOST: usize = 1_024;

/// The most octets of a value that are shown.
const SHOWN: usize = 8;

/// A text of at most `MOST` bytes, which leaves out each part that does not fit.
#[derive(Drop)]
pub(crate) struct Text {
    bytes: ArrayVec<u8, MOST>,
}

impl Text {
    /// Creates an empty text.
    pub(crate) fn new() -> Text {
        Text {
            bytes: ArrayVec::new(),
        }
    }

    /// Returns the bytes of the text.
    pub(crate) fn as_slice(&self) -> &[u8] {
        self.bytes.as_slice()
    }

    /// Adds a part.
    pub(crate) fn add(&mut self, part: &str) {
        self.add_bytes(part.as_bytes());
    }

    fn add_bytes(&mut self, part: &[u8]) {
        // A part that does not fit is left out.
        let _ = self.bytes.try_extend_from_slice(part);
    }

    /// Adds a number in decimal.
    pub(crate) fn add_number(&mut self, number: u16) {
        let mut digits = Buffer::new();
        self.add_bytes(digits.format(number).as_bytes());
    }

    /// Adds two hexadecimal digits for each octet.
    pub(crate) fn add_hex(&mut self, octets: &[u8]) {
        for octet in octets {
            let mut digits = [0; 2];
            hex::encode_to_slice([*octet], &mut digits).unwrap();
            self.add_bytes(&digits);
        }
    }

    /// Adds a value in hexadecimal, or its length if it has more than 8 octets.
    pub(crate) fn add_value(&mut self, value: &[u8]) {
        if value.is_empty() {
            self.add("no octets");
        } else if value.len() <= SHOWN {
            self.add_hex(value);
        } else {
            self.add_count(value.len());
            self.add(" octets");
        }
    }

    /// Adds a count in decimal.
    pub(crate) fn add_count(&mut self, count: usize) {
        let mut digits = Buffer::new();
        self.add_bytes(digits.format(count).as_bytes());
    }
}
