//! The line of a value.

ghost use Rattle.std.specs.Prelude.{◌≡◌, ◌++◌, OnOk};
ghost use Rattle.std.specs.Option.{option_map};
ghost use Rattle.text_words.specs.Split.{parts_of, parts_view};
ghost use Rattle.text_words.specs.Payload.{payload_of};
ghost use Rattle.saved_values.specs.SavedValue.{value_line, value_of_line, value_of_words, IsTyped};

use crate::type_text::add_type;
use app_lines::add_value;
use att_table::read_type;
use itoa::Buffer;
use octet_io::PduOctets;
use std::alloc::AllocError;
use std::marker::Model;
use text_words::{Payload, first_word, read_u16};

/// A saved value.
#[derive(Drop)]
pub struct SavedValue {
    handle: u16,
    kind: u128,
    octets: PduOctets,
}

impl Model for SavedValue {
    ghost use Rattle.saved_values.specs.SavedValue.{Saved};

    ghost Value = { Saved };

    ghost view = { λ value.
        record { handle = value.handle; kind = value.kind; octets = value.octets.items } };
}

impl SavedValue {
    /// Returns the handle of its attribute.
    pub fn handle(&self) -> u16
        ensures { result ≡ self.now.handle }
    {
        self.handle
    }

    /// Returns the type of its attribute, a UUID as a number.
    pub fn kind(&self) -> u128
        ensures { result ≡ self.now.kind }
    {
        self.kind
    }

    /// Returns its octets, at most `octet_io::MAX_PDU`.
    pub fn octets(&self) -> &[u8]
        ensures { result.now ≡ self.now.octets }
    {
        self.octets.as_slice()
    }

    fn read(handle: &str, kind: &str, octets: &str) -> Option<SavedValue>
        ensures { result ≡ value_of_words handle.now kind.now octets.now }
    {
        let handle = read_u16(handle)?;
        let kind = read_type(kind)?;
        let octets = read_octets(octets)?;
        Some(SavedValue {
            handle,
            kind,
            octets,
        })
    }
}

fn read_octets(word: &str) -> Option<PduOctets>
    ensures { option_map (λ octets. octets.items) result ≡ payload_of word.now }
{
    let payload = Payload::read(word)?;
    let mut octets = PduOctets::new();
    payload.decode(&mut octets);
    Some(octets)
}

/// Reads the line of a value: `HANDLE TYPE OCTETS`.
#[tactic(auto, unfolding(crate::specs::SavedValue::value_of_line))]
pub fn read_value(line: &str) -> Option<SavedValue>
    ensures { result ≡ value_of_line line.now }
{
    let (handle, rest) = first_word(line)?;
    let (kind, octets) = first_word(rest)?;
    SavedValue::read(handle, kind, octets)
}

/// Adds the line of a value.
#[tactic(auto, unfolding(crate::specs::SavedValue::value_line))]
pub fn add_value_line(
    text: &mut Vec<u8>,
    handle: u16,
    kind: u128,
    octets: &[u8],
) -> Result<(), AllocError>
    ensures ok { OnOk result
        (text.new.items ≡ text.old.items
        ++ value_line (record { handle = handle; kind = kind; octets = octets.now })) }
    ensures typed { IsTyped (record { handle = handle; kind = kind; octets = octets.now }) }
{
    let mut digits = Buffer::new();
    text.extend_from_slice(digits.format(u64::from(handle)).as_bytes())?;
    text.extend_from_slice(b" ")?;
    add_type(text, kind)?;
    add_value(text, octets)?;
    text.extend_from_slice(b"\n")
}
