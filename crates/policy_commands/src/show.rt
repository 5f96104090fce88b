//! The files of `show`, checked one after the other, and the text printed for them.

ghost use Rattle.std.specs.Prelude.{◌≡◌, ◌≢◌, ℕ, IfErr, IfOk, IfSome, IsOk, OnOk};
ghost use Rattle.std.specs.Io.KnownBytes.{Keeps};
ghost use Rattle.std.specs.Option.{option_map};
ghost use Rattle.shell_files.specs.KeyFile.{keys_out_of_memory, keys_in, KeysAreRefusedAs};
ghost use Rattle.shell_files.specs.RowsFile.{rows_out_of_memory, rows_in, RowsAreRefusedAs};
ghost use Rattle.policy_commands.specs.Show.{AreShown, IsShowFault, IsShown};
ghost use Rattle.shell_files.specs.TableFile.{table_out_of_memory, table_in, TableIsRefusedAs};
ghost use Rattle.shell_files.specs.Turns.{IsPast, OfKeys, OfRows, OfTable};

use crate::keys::{key_file, read_keys_at};
use att_table::Table;
use le_security::Keys;
use shell_files::{
    KeysPath, LazyFile, RowsPath, RowsReader, ShellFault, TablePath, judge_rows_at, print,
    read_table_at,
};
use std::alloc::{AllocError, Global};
use std::fs::Files;
use std::io::{Read, Write};

/// The view of a table that `show` prints.
#[derive(Clone, Copy)]
pub enum View {
    /// The rights of each kind of key, in lines of at most so many columns if that is possible.
    Rights(usize),
    /// A line for each attribute.
    Attributes,
}

/// Checks the table, key and subscriptions files, and prints a view of the table.
///
/// Without a key file there is no key. Reads each file only if those before it are accepted. Adds
/// the place and the fault of a refused file to `place`, which is empty if memory is refused for
/// them.
pub fn show_files<T: Read, K: Read, R: Read, W: Write>(
    alloc: Global,
    table: &mut T,
    keys: &mut Option<K>,
    rows: &mut R,
    view: View,
    writer: &mut W,
    place: &mut Vec<u8>,
) -> Result<(), ShellFault>
    // The matrix, or a line for each attribute, of these files is printed.
    ensures ok { OnOk result (AreShown view (T.remaining table.old)
        (option_map K.remaining keys.old) (W.contents writer.old) (W.contents writer.new)) }
    // A file is refused by the number of its first fault, or by that of refused memory.
    ensures table { (number : ℕ) → result ≡ Err (ShellFault.Table number)
        → number ≢ table_out_of_memory
        → IfSome (T.remaining table.old) (λ octets. TableIsRefusedAs number (table_in octets)) }
    ensures keys { (number : ℕ) → result ≡ Err (ShellFault.Keys number)
        → number ≢ keys_out_of_memory
        → IfSome keys.old (λ file. IfSome (K.remaining file)
        (λ octets. KeysAreRefusedAs number (keys_in octets))) }
    ensures rows { (number : ℕ) → result ≡ Err (ShellFault.Rows number)
        → number ≢ rows_out_of_memory
        → IfSome (R.remaining rows.old) (λ octets. RowsAreRefusedAs number (rows_in octets)) }
    // The files are accepted in the order table, keys, rows; only then is the output written.
    ensures table_first { IsPast OfTable result
        → IfSome (T.remaining table.old) (λ octets. IsOk (table_in octets)) }
    ensures keys_second { IsPast OfKeys result
        → IfSome keys.old (λ file. IfSome (K.remaining file)
        (λ octets. IsOk (keys_in octets))) }
    ensures rows_third { IsPast OfRows result
        → IfSome (R.remaining rows.old) (λ octets. IsOk (rows_in octets)) }
    ensures keys_unread { (number : ℕ) → result ≡ Err (ShellFault.Table number)
        → keys.new ≡ keys.old }
    ensures rows_unread { (number : ℕ) → result ≡ Err (ShellFault.Table number)
        → rows.new ≡ rows.old }
    ensures rows_unread_at_keys { (number : ℕ) → result ≡ Err (ShellFault.Keys number)
        → rows.new ≡ rows.old }
    ensures place { IsOk result → place.new ≡ place.old }
    ensures nothing_printed { IfErr result (λ fault. fault ≢ ShellFault.Unwritten
        → Keeps (W.contents writer.old) (W.contents writer.new)) }
    ensures faults { IfErr result IsShowFault }
{
    let table = read_table_at(alloc, table, place)?;
    let keys = read_keys_at(alloc, keys, place)?;
    let mut text = Vec::new(alloc);
    add_view(alloc, &mut text, &table, &keys, view)?;
    judge_rows_at(alloc, rows, place)?;
    print(text.as_slice(), writer)
}

/// Adds the rights of a table, or the list of its attributes.
fn add_view(
    alloc: Global,
    text: &mut Vec<u8>,
    table: &Table,
    keys: &Keys,
    view: View,
) -> Result<(), AllocError>
    ensures ok { OnOk result (IsShown view table.now keys.now text.old.items text.new.items) }
{
    match view {
        View::Attributes => policy_words::add_table(alloc, text, table),
        View::Rights(width) => policy_words::add_matrix(alloc, text, table, keys, width),
    }
}

/// The paths of the files that `show` reads.
#[derive(Clone, Copy)]
pub struct ShowPaths<'a> {
    pub table: TablePath<'a>,
    pub keys: Option<KeysPath<'a>>,
    pub rows: RowsPath<'a>,
}

/// Shows the files at these paths, and opens each only before its check.
pub fn show_paths<F: Files, W: Write>(
    alloc: Global,
    files: &F,
    paths: ShowPaths<'_>,
    view: View,
    writer: &mut W,
    place: &mut Vec<u8>,
) -> Result<(), ShellFault>
    ensures place { IsOk result → place.new ≡ place.old }
    ensures nothing_printed { IfErr result (λ fault. fault ≢ ShellFault.Unwritten
        → Keeps (W.contents writer.old) (W.contents writer.new)) }
    ensures faults { IfErr result IsShowFault }
{
    let mut table = LazyFile::new(files, paths.table.0);
    let mut keys = key_file(files, paths.keys);
    let mut rows = RowsReader::new(files, paths.rows);
    show_files(alloc, &mut table, &mut keys, &mut rows, view, writer, place)
}
