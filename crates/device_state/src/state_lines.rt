//! The text of a state.

ghost use Rattle.std.specs.Prelude.{◌≡◌, ◌++◌, Some, None, IfOk, IsOk, OnOk};
ghost use Rattle.std.specs.List.{All};
ghost use Rattle.gatt_subs.specs.RowsText.{rows_text};
ghost use Rattle.device_state.specs.ReadBack.{ReadsBack};
ghost use Rattle.saved_values.specs.SavedValue.{IsSavedValue};
ghost use Rattle.saved_values.specs.ValuesText.{saved_values};
ghost use Rattle.device_state.specs.StateText.{checksum, end_line, lines_of_state, piece_line, state_text, table_lines};

use att_table::Table;
use gatt_subs::Rows;
use octet_io::{Failed, Sink};
use saved_values::{Saves, add_values};
use sha2::{Digest, Sha256};
use std::alloc::{AllocError, Global};
use text_words::first_line;

/// Returns the text of a state: the table text, subscriptions and changed values.
///
/// The values are those that differ from `initial`, the table of the file. Fails if memory is
/// refused.
#[tactic(auto, using(crate::proofs::StateBack::reads_back))]
pub fn state_text(
    alloc: Global,
    table_text: &str,
    rows: &Rows,
    table: &Table,
    initial: &Table,
    saves: Saves,
) -> Result<Vec<u8>, AllocError>
    ensures text { IfOk result (λ text. text.items
        ≡ state_text table_text.now rows.now (saved_values saves table.now initial.now)) }
    // The text is read back as these parts, if the subscriptions are as a file can have them.
    ensures read_back { IfOk result (λ text. ReadsBack table_text.now rows.now
        (saved_values saves table.now initial.now) text.items) }
{
    let mut text = lines_of_state(alloc, table_text, rows, table, initial, saves)?;
    add_end(&mut text)?;
    Ok(text)
}

#[tactic(auto, unfolding(crate::specs::StateText::lines_of_state))]
fn lines_of_state(
    alloc: Global,
    table_text: &str,
    rows: &Rows,
    table: &Table,
    initial: &Table,
    saves: Saves,
) -> Result<Vec<u8>, AllocError>
    ensures lines { IfOk result (λ text. text.items
        ≡ lines_of_state table_text.now rows.now (saved_values saves table.now initial.now)) }
    ensures values { IsOk result → All IsSavedValue (saved_values saves table.now initial.now) }
{
    let mut lines = Lines {
        octets: Vec::new(alloc),
    };
    lines.add(b"gihandop state 1\n[table]\n")?;
    add_table(&mut lines.octets, table_text)?;
    lines.add(b"[subscriptions]\n")?;
    lines.add_rows(rows)?;
    lines.add(b"[values]\n")?;
    add_values(&mut lines.octets, table, initial, saves)?;
    Ok(lines.octets)
}

/// The lines so far; as a sink it fails if memory is refused.
#[derive(Drop)]
struct Lines {
    octets: Vec<u8>,
}

impl Sink for Lines {
    ghost contents = { λ lines. Some lines.octets.items };

    ghost failures = { λ _. None };

    fn write(&mut self, buf: &[u8]) -> Result<usize, Failed> {
        match self.octets.extend_from_slice(buf) {
            Ok(()) => Ok(buf.len()),
            Err(_) => Err(Failed),
        }
    }
}

impl Lines {
    fn add(&mut self, octets: &[u8]) -> Result<(), AllocError>
        ensures ok { OnOk result
            (self.new.octets.items ≡ self.old.octets.items ++ octets.now) }
    {
        self.octets.extend_from_slice(octets)
    }

    fn add_rows(&mut self, rows: &Rows) -> Result<(), AllocError>
        ensures ok { OnOk result
            (self.new.octets.items ≡ self.old.octets.items ++ rows_text rows.now) }
    {
        match rows.text(self) {
            Ok(()) => Ok(()),
            Err(_) => Err(AllocError),
        }
    }
}

fn add_table(text: &mut Vec<u8>, table_text: &str) -> Result<(), AllocError>
    ensures ok { OnOk result (text.new.items ≡ text.old.items ++ table_lines table_text.now) }
{
    let mut rest = table_text;
    while let Some((piece, behind)) = first_line(rest) {
        add_piece(text, piece)?;
        rest = behind;
    }
    add_piece(text, rest)
}

#[tactic(auto, unfolding(crate::specs::StateText::piece_line))]
fn add_piece(text: &mut Vec<u8>, piece: &str) -> Result<(), AllocError>
    ensures ok { OnOk result (text.new.items ≡ text.old.items ++ piece_line piece.now) }
{
    text.extend_from_slice(b"|")?;
    text.extend_from_slice(piece.as_bytes())?;
    text.extend_from_slice(b"\n")
}

/// Adds the last line with its checksum.
#[tactic(auto, unfolding(crate::specs::StateText::end_line))]
fn add_end(text: &mut Vec<u8>) -> Result<(), AllocError>
    ensures ok { OnOk result (text.new.items ≡ text.old.items ++ end_line text.old.items) }
{
    let digits = checksum(text.as_slice());
    text.extend_from_slice(b"[end] ")?;
    text.extend_from_slice(&digits)?;
    text.extend_from_slice(b"\n")
}

/// Returns the SHA-256 of a text in hexadecimal.
pub fn checksum(text: &[u8]) -> [u8; 64]
    ensures { result ≡ checksum text.now }
{
    let mut digits = [0; 64];
    hex::encode_to_slice(Sha256::digest(text), &mut digits).unwrap();
    digits
}
