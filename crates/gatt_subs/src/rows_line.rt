//! The lines of a subscriptions file.

ghost use Rattle.std.specs.Prelude.{◌≡◌, None};
ghost use Rattle.std.specs.Option.{option_map};
ghost use Rattle.gatt_subs.specs.RowsLine.{entry_of, line_behind, rows_line_of, handle_of_row, bits_of};
ghost use Rattle.text_words.specs.Split.{parts_view, parts_of};

use crate::row_entry::RowEntry;
use le_hci::Peer;
use le_security::read_peer;
use text_words::first_word;

/// The content of a line.
#[derive(Clone, Copy)]
pub enum Line {
    /// A peer's configuration.
    Entry(RowEntry),
    /// A Service Changed indication is pending for a peer.
    Owed(Peer),
}

/// Reads a line `kind address handle value` or `! kind address`.
#[tactic(auto, unfolding(crate::specs::RowsLine::rows_line_of))]
pub fn read_line(line: &str) -> Option<Line>
    ensures { result ≡ rows_line_of line.now }
{
    let (first, rest) = first_word(line)?;
    let (second, rest) = first_word(rest)?;
    match first_word(rest) {
        Some((handle, bits)) => read_entry(first, second, handle, bits),
        None => read_owed(first, second, rest),
    }
}

fn read_entry(kind: &str, address: &str, handle: &str, bits: &str) -> Option<Line>
    ensures { result ≡ entry_of kind.now address.now handle.now bits.now }
{
    Some(Line::Entry(RowEntry {
        peer: read_peer(kind, address)?,
        handle: read_handle(handle)?,
        bits: read_bits(bits)?,
    }))
}

fn read_owed(mark: &str, kind: &str, address: &str) -> Option<Line>
    ensures { result ≡ line_behind mark.now kind.now address.now None }
{
    if mark != "!" {
        return None;
    }
    Some(Line::Owed(read_peer(kind, address)?))
}

/// Reads a decimal handle without leading zeros.
#[tactic(auto, unfolding(crate::specs::RowsLine::handle_of_row))]
fn read_handle(word: &str) -> Option<u16>
    ensures { result ≡ handle_of_row word.now }
{
    match word.as_bytes() {
        [b'1'..=b'9', ..] => word.parse::<u16>().ok(),
        _ => None,
    }
}

/// Reads nonzero bits.
#[tactic(auto, unfolding(crate::specs::RowsLine::bits_of))]
fn read_bits(word: &str) -> Option<u8>
    ensures { result ≡ bits_of word.now }
{
    match word {
        "1" => Some(1),
        "2" => Some(2),
        "3" => Some(3),
        _ => None,
    }
}
