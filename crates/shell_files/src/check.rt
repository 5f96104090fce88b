//! The command `check`.

ghost use Rattle.std.specs.Prelude.{◌≡◌, ◌≢◌, ◌++◌, ℕ, IfErr, IfSome, IsOk, OnOk};
ghost use Rattle.std.specs.Io.KnownBytes.{Appends, Keeps};
ghost use Rattle.shell_files.specs.Check.{AreCounted, IsCheckFault, attributes_line, keys_line};
ghost use Rattle.shell_files.specs.KeyFile.{keys_out_of_memory, keys_in, KeysAreRefusedAs};
ghost use Rattle.shell_files.specs.TableFile.{table_out_of_memory, table_in, TableIsRefusedAs};

use crate::fault::{ShellFault, push_numbered};
use crate::key_file::read_keys;
use crate::lazy_file::LazyFile;
use crate::output::print;
use crate::table_file::read_table;
use arrayvec::ArrayVec;
use att_table::Table;
use le_security::Keys;
use std::alloc::Global;
use std::fs::Files;
use std::io::{Read, Write};

/// Checks a table file, then a key file, and prints the attribute and key counts.
///
/// Reads the key file only if the table file is accepted.
pub fn check_files<T: Read, K: Read, W: Write>(
    alloc: Global,
    table: &mut T,
    keys: &mut K,
    writer: &mut W,
) -> Result<(), ShellFault>
    // The numbers of attributes and keys are printed.
    ensures ok { OnOk result (AreCounted (T.remaining table.old) (K.remaining keys.old)
        (W.contents writer.old) (W.contents writer.new)) }
    // A refused file is reported by its first fault.
    ensures table { (number : ℕ) → result ≡ Err (ShellFault.Table number)
        → number ≢ table_out_of_memory
        → IfSome (T.remaining table.old) (λ octets. TableIsRefusedAs number (table_in octets)) }
    ensures keys_unread { (number : ℕ) → result ≡ Err (ShellFault.Table number)
        → keys.new ≡ keys.old }
    ensures keys { (number : ℕ) → result ≡ Err (ShellFault.Keys number)
        → number ≢ keys_out_of_memory
        → IfSome (K.remaining keys.old) (λ octets. KeysAreRefusedAs number (keys_in octets)) }
    ensures table_first { (number : ℕ) → result ≡ Err (ShellFault.Keys number)
        → IfSome (T.remaining table.old) (λ octets. IsOk (table_in octets)) }
    ensures nothing_printed { IfErr result (λ fault. fault ≢ ShellFault.Unwritten
        → Keeps (W.contents writer.old) (W.contents writer.new)) }
    ensures unwritten_table { result ≡ Err ShellFault.Unwritten
        → IfSome (T.remaining table.old) (λ octets. IsOk (table_in octets)) }
    ensures unwritten_keys { result ≡ Err ShellFault.Unwritten
        → IfSome (K.remaining keys.old) (λ octets. IsOk (keys_in octets)) }
    ensures faults { IfErr result IsCheckFault }
{
    let table = read_table(alloc, table)?;
    let keys = read_keys(alloc, keys)?;
    print_counts(&table, &keys, writer)
}

fn print_counts<W: Write>(table: &Table, keys: &Keys, writer: &mut W) -> Result<(), ShellFault>
    ensures ok { OnOk result (Appends (W.contents writer.old) (W.contents writer.new)
        (attributes_line table.now ++ keys_line keys.now)) }
    ensures faults { IfErr result (λ fault. fault ≡ ShellFault.Unwritten) }
{
    print(count_lines(table, keys).as_slice(), writer)
}

/// The path of a table file.
#[derive(Clone, Copy)]
pub struct TablePath<'a>(pub &'a str);

/// The path of a key file.
#[derive(Clone, Copy)]
pub struct KeysPath<'a>(pub &'a str);

/// Checks the files at two paths like `check_files`.
///
/// Opens each file only before its check.
pub fn check_paths<F: Files, W: Write>(
    alloc: Global,
    files: &F,
    table: TablePath<'_>,
    keys: KeysPath<'_>,
    writer: &mut W,
) -> Result<(), ShellFault>
    ensures nothing_printed { IfErr result (λ fault. fault ≢ ShellFault.Unwritten
        → Keeps (W.contents writer.old) (W.contents writer.new)) }
    ensures faults { IfErr result IsCheckFault }
{
    let mut table = LazyFile::new(files, table.0);
    let mut keys = LazyFile::new(files, keys.0);
    check_files(alloc, &mut table, &mut keys, writer)
}

fn count_lines(table: &Table, keys: &Keys) -> ArrayVec<u8, 60>
    ensures { result.items ≡ attributes_line table.now ++ keys_line keys.now }
{
    let mut lines = ArrayVec::new();
    push_numbered(&mut lines, "attributes ", table.len() as u64);
    lines.push(b'\n');
    push_numbered(&mut lines, "keys ", keys.count() as u64);
    lines.push(b'\n');
    lines
}
