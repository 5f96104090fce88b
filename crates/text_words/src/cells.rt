//! Cells of a line.

ghost use Rattle.std.specs.Prelude.{◌≡◌, ◌≤◌, ◌++◌, replicate, OnOk};
ghost use Rattle.std.specs.Fmt.{decimal};
ghost use Rattle.text_words.specs.Cells.{left, right};

use itoa::Buffer;
use std::alloc::AllocError;

/// The width of the widest cell.
pub const WIDEST: usize = 64;

/// Adds a text, padded on the right with spaces to a width of at most `WIDEST`.
pub fn add_left(text: &mut Vec<u8>, cell: &[u8], width: usize) -> Result<(), AllocError>
    requires { width ≤ WIDEST }
    ensures ok { OnOk result (text.new.items ≡ text.old.items ++ left width cell.now) }
{
    add_octets(text, cell)?;
    add_blanks(text, width.saturating_sub(cell.len()))
}

/// Adds a text, padded on the left with spaces to a width of at most `WIDEST`.
pub fn add_right(text: &mut Vec<u8>, cell: &[u8], width: usize) -> Result<(), AllocError>
    requires { width ≤ WIDEST }
    ensures ok { OnOk result (text.new.items ≡ text.old.items ++ right width cell.now) }
{
    add_blanks(text, width.saturating_sub(cell.len()))?;
    add_octets(text, cell)
}

/// Adds a decimal number as `add_right` adds a text.
pub fn add_right_number(text: &mut Vec<u8>, number: u64, width: usize) -> Result<(), AllocError>
    requires { width ≤ WIDEST }
    ensures ok { OnOk result (text.new.items ≡ text.old.items ++ right width (decimal number)) }
{
    let mut digits = Buffer::new();
    add_right(text, digits.format(number).as_bytes(), width)
}

#[tactic(auto, using(crate::proofs::Blanks::some_blanks))]
fn add_blanks(text: &mut Vec<u8>, count: usize) -> Result<(), AllocError>
    requires { count ≤ WIDEST }
    ensures ok { OnOk result (text.new.items ≡ text.old.items ++ replicate count 32) }
{
    add_octets(text, &[b' '; WIDEST][..count])
}

/// Adds a number in decimal.
pub fn add_number(text: &mut Vec<u8>, number: u64) -> Result<(), AllocError>
    ensures ok { OnOk result (text.new.items ≡ text.old.items ++ decimal number) }
{
    let mut digits = Buffer::new();
    add_octets(text, digits.format(number).as_bytes())
}

/// Adds bytes.
pub fn add_octets(text: &mut Vec<u8>, octets: &[u8]) -> Result<(), AllocError>
    ensures ok { OnOk result (text.new.items ≡ text.old.items ++ octets.now) }
{
    text.extend_from_slice(octets)
}
