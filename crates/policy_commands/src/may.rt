//! The files and the words of `may`, and the answer printed for them.

ghost use Rattle.std.specs.Prelude.{◌≡◌, ◌≢◌, ℕ, IfErr, IfOk, IfSome, IsOk};
ghost use Rattle.std.specs.Io.KnownBytes.{Keeps};
ghost use Rattle.policy_commands.specs.May.{IsMayAnswer, IsMayFault, WordIsRefusedAs, question_of_words};
ghost use Rattle.policy_commands.specs.declared.may.MayFault.TheVariants.{File, Word};
ghost use Rattle.shell_files.specs.KeyFile.{keys_out_of_memory, keys_in, KeysAreRefusedAs};
ghost use Rattle.shell_files.specs.TableFile.{table_out_of_memory, table_in, TableIsRefusedAs};
ghost use Rattle.shell_files.specs.declared.fault.ShellFault.TheVariants.{Memory};

use crate::may_words::{Wrong, read_peer, read_right};
use att_table::Table;
use le_security::Keys;
use policy_words::{Question, add_answer};
use shell_files::{
    KeysPath, LazyFile, ShellFault, TablePath, print, read_key_file_at, read_table_at,
};
use std::alloc::{AllocError, Global};
use std::fs::Files;
use std::io::{Read, Write};
use text_words::read_u16;

/// The words of a question.
#[derive(Clone, Copy)]
pub struct MayWords<'a> {
    pub peer: &'a str,
    pub right: &'a str,
    pub handle: &'a str,
    /// Set while the application authorizes the connection.
    pub authorized: bool,
    /// Set to ask only for a link that is not encrypted.
    pub unencrypted: bool,
}

/// Why there is no answer.
#[derive(Clone, Copy, PartialEq, Eq)]
pub enum MayFault {
    /// A fault of a file, or of the output.
    File(ShellFault),
    /// A word is refused.
    Word(Wrong),
}

impl From<ShellFault> for MayFault {
    ghost from_gives = { λ fault result. result ≡ File fault };

    fn from(fault: ShellFault) -> MayFault {
        MayFault::File(fault)
    }
}

impl From<AllocError> for MayFault {
    ghost from_gives = { λ _ result. result ≡ File Memory };

    fn from(_refused: AllocError) -> MayFault {
        MayFault::File(ShellFault::Memory)
    }
}

impl From<Wrong> for MayFault {
    ghost from_gives = { λ wrong result. result ≡ Word wrong };

    fn from(wrong: Wrong) -> MayFault {
        MayFault::Word(wrong)
    }
}

/// Answers a question by the table and the keys of these files, and prints a line for each link of
/// the peer. Returns true if one of them has the right.
///
/// Reads each file only if what is before it is accepted. The place: as `read_table_at`.
pub fn ask_files<T: Read, K: Read, W: Write>(
    alloc: Global,
    table: &mut T,
    keys: &mut K,
    words: &MayWords<'_>,
    writer: &mut W,
    place: &mut Vec<u8>,
) -> Result<bool, MayFault>
    // The answer for these files is printed, and true returned exactly if one link of the peer has
    // the right.
    ensures answer { IfOk result (λ granted. IsMayAnswer words.now (T.remaining table.old)
        (K.remaining keys.old) (W.contents writer.old) (W.contents writer.new) granted) }
    // A file is refused by the number of its first fault, or by that of refused memory. A word is
    // refused only if both files are accepted.
    ensures table { (number : ℕ) → result ≡ Err (MayFault.File (ShellFault.Table number))
        → number ≢ table_out_of_memory
        → IfSome (T.remaining table.old) (λ octets. TableIsRefusedAs number (table_in octets)) }
    ensures keys { (number : ℕ) → result ≡ Err (MayFault.File (ShellFault.Keys number))
        → number ≢ keys_out_of_memory
        → IfSome (K.remaining keys.old) (λ octets. KeysAreRefusedAs number (keys_in octets)) }
    ensures word { (wrong : Wrong) → result ≡ Err (MayFault.Word wrong)
        → IfSome (K.remaining keys.old)
        (λ octets. WordIsRefusedAs words.now wrong (keys_in octets)) }
    ensures place { IsOk result → place.new ≡ place.old }
    ensures nothing_printed { IfErr result (λ fault. fault ≢ MayFault.File ShellFault.Unwritten
        → Keeps (W.contents writer.old) (W.contents writer.new)) }
    ensures faults { IfErr result IsMayFault }
{
    let table = read_table_at(alloc, table, place)?;
    let keys = read_key_file_at(alloc, keys, place)?;
    let question = question_in(&keys, words)?;
    let mut text = Vec::new(alloc);
    let granted = add_answer(alloc, &mut text, &table, &keys, &question)?;
    print(text.as_slice(), writer)?;
    Ok(granted)
}

/// Reads the question of some words.
fn question_in(keys: &Keys, words: &MayWords<'_>) -> Result<Question, Wrong>
    ensures { result ≡ question_of_words words.now keys.now }
{
    let Some(right) = read_right(words.right) else {
        return Err(Wrong::Right);
    };
    let Some(handle) = read_u16(words.handle) else {
        return Err(Wrong::Handle);
    };
    let peer = read_peer(keys, words.peer)?;
    Ok(Question {
        peer,
        right,
        handle,
        is_authorized: words.authorized,
        is_unencrypted: words.unencrypted,
    })
}

/// The paths of the files that `may` reads.
#[derive(Clone, Copy)]
pub struct MayPaths<'a> {
    pub table: TablePath<'a>,
    pub keys: KeysPath<'a>,
}

/// Answers a question by the files at these paths, and opens each only before its check.
pub fn ask_paths<F: Files, W: Write>(
    alloc: Global,
    files: &F,
    paths: MayPaths<'_>,
    words: &MayWords<'_>,
    writer: &mut W,
    place: &mut Vec<u8>,
) -> Result<bool, MayFault>
    ensures place { IsOk result → place.new ≡ place.old }
    ensures nothing_printed { IfErr result (λ fault. fault ≢ MayFault.File ShellFault.Unwritten
        → Keeps (W.contents writer.old) (W.contents writer.new)) }
    ensures faults { IfErr result IsMayFault }
{
    let mut table = LazyFile::new(files, paths.table.0);
    let mut keys = LazyFile::new(files, paths.keys.0);
    ask_files(alloc, &mut table, &mut keys, words, writer, place)
}
