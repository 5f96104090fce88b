//! The files of `expect`, checked one after the other, and the text printed for them.

ghost use Rattle.std.specs.Prelude.{◌≡◌, ◌≢◌, ◌↔◌, ◌++◌, true, length, IfErr, IfOk, IfSome, IsOk};
ghost use Rattle.std.specs.Io.KnownBytes.{Keeps};
ghost use Rattle.std.specs.Option.{option_map};
ghost use Rattle.policy_expectations.specs.Differences.{differences_of};
ghost use Rattle.policy_expectations.specs.File.{expectations_in};
ghost use Rattle.policy_expectations.specs.Holding.{AllHold};
ghost use Rattle.policy_expectations.specs.Report.{report_text};
ghost use Rattle.shell_files.specs.declared.fault.ShellFault.TheVariants.{Memory};
ghost use Rattle.policy_commands.specs.Expect.{IsCompared, is_none_of};
ghost use Rattle.policy_commands.specs.declared.expect.ExpectFault.TheVariants.{Shell};

use crate::keys::{key_file, read_keys_at};
use att_table::Table;
use le_security::Keys;
use policy_expectations::{
    Difference, Expectation, Refusal, add_report, differences, read_expectations,
};
use shell_files::{
    KeysPath, LazyFile, ShellFault, TOML_OCTETS, TablePath, print, read_all, read_table_at,
};
use std::alloc::{AllocError, Global};
use std::fs::Files;
use std::io::{Read, Write};

/// The text about a file that is too large.
const TOO_LARGE: &[u8] = b"more than 2,097,152 octets";

/// A reason for which `expect` compares nothing.
#[derive(Clone, Copy, PartialEq, Eq)]
pub enum ExpectFault {
    /// The fault of the table file, of the key file, of a stream or of memory.
    Shell(ShellFault),
    /// The expectations file is refused.
    Expectations,
}

impl From<ShellFault> for ExpectFault {
    ghost from_gives = { λ fault refused. refused ≡ Shell fault };

    fn from(fault: ShellFault) -> ExpectFault {
        ExpectFault::Shell(fault)
    }
}

impl From<AllocError> for ExpectFault {
    ghost from_gives = { λ _ refused. refused ≡ Shell Memory };

    fn from(_refused: AllocError) -> ExpectFault {
        ExpectFault::Shell(ShellFault::Memory)
    }
}

/// Compares a table file with an expectations file for all clients, and prints the differences.
///
/// Returns true if there are none. The lines name the keys of the key file, if there is one. Reads
/// each file only if those before it are accepted. Adds the place and the fault of a refused file
/// to `place`, which is empty if memory is refused for them.
pub fn expect_files<T: Read, K: Read, E: Read, W: Write>(
    alloc: Global,
    table: &mut T,
    keys: &mut Option<K>,
    expectations: &mut E,
    writer: &mut W,
    place: &mut Vec<u8>,
) -> Result<bool, ExpectFault>
    // The report of these files is printed, and true returned exactly if all expectations hold.
    ensures compared { IfOk result (λ holds. IsCompared holds (T.remaining table.old)
        (option_map K.remaining keys.old) (E.remaining expectations.old)
        (W.contents writer.old) (W.contents writer.new)) }
    ensures place { IsOk result → place.new ≡ place.old }
    ensures nothing_printed { IfErr result
        (λ fault. fault ≢ ExpectFault.Shell ShellFault.Unwritten
        → Keeps (W.contents writer.old) (W.contents writer.new)) }
{
    let table = read_table_at(alloc, table, place)?;
    let keys = read_keys_at(alloc, keys, place)?;
    let expectations = read_expectations_at(alloc, expectations, place)?;
    let mut text = Vec::new(alloc);
    let holds = add_comparison(alloc, &mut text, &table, &keys, &expectations)?;
    print(text.as_slice(), writer)?;
    Ok(holds)
}

/// Adds the differences. Returns true if there are none.
fn add_comparison(
    alloc: Global,
    text: &mut Vec<u8>,
    table: &Table,
    keys: &Keys,
    expectations: &[Expectation],
) -> Result<bool, AllocError>
    ensures holds { IfOk result (λ holds. holds
        ≡ is_none_of (differences_of table.now expectations.now)) }
    ensures all_hold { IfOk result
        (λ holds. (holds ≡ true) ↔ AllHold table.now expectations.now) }
    ensures text { IfOk result (λ _. text.new.items ≡ text.old.items
        ++ report_text table.now.attributes keys.now (length expectations.now)
        (differences_of table.now expectations.now)) }
{
    let found = differences(alloc, table, expectations)?;
    add_report(alloc, text, table, keys, expectations.len(), &found)?;
    Ok(is_none_of(&found))
}

fn is_none_of(found: &[Difference]) -> bool
    ensures { result ≡ is_none_of found.now }
{
    match found {
        [] => true,
        _ => false,
    }
}

/// Reads the expectations of a file.
fn read_expectations_at<E: Read>(
    alloc: Global,
    reader: &mut E,
    place: &mut Vec<u8>,
) -> Result<Vec<Expectation>, ExpectFault>
    ensures read { IfOk result (λ expectations. IfSome (E.remaining reader.old)
        (λ octets. expectations_in octets ≡ Ok expectations.items)) }
    ensures place { IsOk result → place.new ≡ place.old }
{
    let octets = read_all(alloc, reader)?;
    if octets.len() > TOML_OCTETS {
        place.extend_from_slice(TOO_LARGE)?;
        return Err(ExpectFault::Expectations);
    }
    match read_expectations(alloc, octets.as_slice(), place) {
        Ok(expectations) => Ok(expectations),
        Err(Refusal::File) => Err(ExpectFault::Expectations),
        Err(Refusal::Memory) => {
            place.clear();
            Err(ExpectFault::Shell(ShellFault::Memory))
        }
    }
}

/// The path of an expectations file.
#[derive(Clone, Copy)]
pub struct ExpectationsPath<'a>(pub &'a str);

/// The paths of the files that `expect` reads.
#[derive(Clone, Copy)]
pub struct ExpectPaths<'a> {
    pub table: TablePath<'a>,
    pub keys: Option<KeysPath<'a>>,
    pub expectations: ExpectationsPath<'a>,
}

/// Compares the files at these paths like `expect_files`, and opens each only before its check.
pub fn expect_paths<F: Files, W: Write>(
    alloc: Global,
    files: &F,
    paths: ExpectPaths<'_>,
    writer: &mut W,
    place: &mut Vec<u8>,
) -> Result<bool, ExpectFault>
    ensures place { IsOk result → place.new ≡ place.old }
    ensures nothing_printed { IfErr result
        (λ fault. fault ≢ ExpectFault.Shell ShellFault.Unwritten
        → Keeps (W.contents writer.old) (W.contents writer.new)) }
{
    let mut table = LazyFile::new(files, paths.table.0);
    let mut keys = key_file(files, paths.keys);
    let mut expectations = LazyFile::new(files, paths.expectations.0);
    expect_files(
        alloc,
        &mut table,
        &mut keys,
        &mut expectations,
        writer,
        place,
    )
}
