//! The files of `compare`, checked one after the other, and the text printed for them.

ghost use Rattle.std.specs.Prelude.{◌≡◌, ◌≢◌, ◌⊎◌, [], IfErr, IfOk, IfSome, IsOk};
ghost use Rattle.std.specs.Io.KnownBytes.{Appends, Keeps};
ghost use Rattle.std.specs.Option.{option_map};
ghost use Rattle.policy_words.specs.compare.Compared.{comparison_text};
ghost use Rattle.policy_words.specs.compare.Gains.{opens};
ghost use Rattle.shell_files.specs.KeyFile.{keys_in, IsKeyFileFault};
ghost use Rattle.shell_files.specs.TableFile.{table_in, IsTableFileFault};
ghost use Rattle.policy_commands.specs.Compare.{AreCompared, HasNewKeys};
ghost use Rattle.policy_commands.specs.Keys.{HasKeys};
ghost use Rattle.shell_files.specs.Fault.{IsTableOrKeysFault};

use crate::keys::key_file;
use att_table::Table;
use le_security::Keys;
use policy_words::{add_comparison, opens};
use shell_files::{
    KeysPath, LazyFile, ShellFault, TablePath, judged_keys, print, read_key_file_at, read_table_at,
};
use std::alloc::Global;
use std::fs::Files;
use std::io::{Read, Write};

/// The names of the files of `compare` in messages.
#[derive(Clone, Copy)]
pub struct CompareNames<'a> {
    pub old: &'a str,
    pub new: &'a str,
    pub keys: &'a str,
    pub new_keys: &'a str,
}

/// Checks two table files, and a key file and a new one if there are such, and prints what the new
/// files open and close.
///
/// Returns true if they open a right. Without a key file there is no key; without a new key file
/// the keys stay. On an error `place` has the name of the file that was read last, and the place
/// and the fault of a refused one.
pub fn compare_files<O: Read, N: Read, K: Read, L: Read, W: Write>(
    alloc: Global,
    names: CompareNames<'_>,
    old: &mut O,
    new: &mut N,
    keys: &mut Option<K>,
    new_keys: &mut Option<L>,
    writer: &mut W,
    place: &mut Vec<u8>,
) -> Result<bool, ShellFault>
    // The comparison of these files is printed, and true returned exactly if a right is opened.
    ensures done { IfOk result (AreCompared (O.remaining old.old) (N.remaining new.old)
        (option_map K.remaining keys.old) (option_map L.remaining new_keys.old)
        (W.contents writer.old) (W.contents writer.new)) }
    ensures place { IsOk result → place.new.items ≡ [] }
    ensures nothing_printed { IfErr result (λ fault. fault ≢ ShellFault.Unwritten
        → Keeps (W.contents writer.old) (W.contents writer.new)) }
    ensures faults { IfErr result IsTableOrKeysFault }
{
    let old = named_table(alloc, names.old, old, place)?;
    let new = named_table(alloc, names.new, new, place)?;
    let keys = keys_before(alloc, names.keys, keys, place)?;
    match new_keys {
        Some(reader) => {
            let new_keys = named_keys(alloc, names.new_keys, reader, place)?;
            place.clear();
            print_comparison(alloc, &new, &new_keys, &old, &keys, writer)
        }
        None => {
            place.clear();
            print_comparison(alloc, &new, &keys, &old, &keys, writer)
        }
    }
}

fn named_table<R: Read>(
    alloc: Global,
    name: &str,
    reader: &mut R,
    place: &mut Vec<u8>,
) -> Result<Table, ShellFault>
    ensures table { IfOk result
        (λ table. IfSome (R.remaining reader.old) (λ octets. table_in octets ≡ Ok table)) }
    ensures faults { IfErr result IsTableFileFault }
{
    begin(name, place)?;
    read_table_at(alloc, reader, place)
}

fn named_keys<R: Read>(
    alloc: Global,
    name: &str,
    reader: &mut R,
    place: &mut Vec<u8>,
) -> Result<Keys, ShellFault>
    ensures keys { IfOk result
        (λ keys. IfSome (R.remaining reader.old) (λ octets. keys_in octets ≡ Ok keys)) }
    ensures faults { IfErr result IsKeyFileFault }
{
    begin(name, place)?;
    read_key_file_at(alloc, reader, place)
}

/// Reads the keys of a key file, or those of an empty one.
fn keys_before<K: Read>(
    alloc: Global,
    name: &str,
    keys: &mut Option<K>,
    place: &mut Vec<u8>,
) -> Result<Keys, ShellFault>
    ensures keys { IfOk result (λ read. HasKeys (option_map K.remaining keys.old) read) }
    ensures faults { IfErr result IsKeyFileFault }
{
    match keys {
        Some(reader) => named_keys(alloc, name, reader, place),
        None => {
            place.clear();
            judged_keys(alloc, b"")
        }
    }
}

/// Replaces a place by the name of a file.
fn begin(name: &str, place: &mut Vec<u8>) -> Result<(), ShellFault>
    ensures faults { IfErr result (λ fault. fault ≡ ShellFault.Memory) }
{
    place.clear();
    place.extend_from_slice(name.as_bytes())?;
    Ok(place.extend_from_slice(b": ")?)
}

fn print_comparison<W: Write>(
    alloc: Global,
    table: &Table,
    keys: &Keys,
    other: &Table,
    other_keys: &Keys,
    writer: &mut W,
) -> Result<bool, ShellFault>
    ensures opened { IfOk result (λ is_opened. is_opened
        ≡ opens table.now keys.now other.now other_keys.now) }
    ensures printed { IsOk result → Appends (W.contents writer.old) (W.contents writer.new)
        (comparison_text table.now keys.now other.now other_keys.now) }
    ensures nothing_printed { IfErr result (λ fault. fault ≢ ShellFault.Unwritten
        → Keeps (W.contents writer.old) (W.contents writer.new)) }
    ensures faults { IfErr result (λ fault.
        (fault ≡ ShellFault.Memory) ⊎ (fault ≡ ShellFault.Unwritten)) }
{
    let is_opened = opens(alloc, table, keys, other, other_keys)?;
    let mut text = Vec::new(alloc);
    add_comparison(alloc, &mut text, table, keys, other, other_keys)?;
    print(text.as_slice(), writer)?;
    Ok(is_opened)
}

/// The paths of the files that `compare` reads.
#[derive(Clone, Copy)]
pub struct ComparePaths<'a> {
    pub old: TablePath<'a>,
    pub new: TablePath<'a>,
    pub keys: Option<KeysPath<'a>>,
    pub new_keys: Option<KeysPath<'a>>,
}

/// Compares the files at these paths, and opens each only before its check.
///
/// Returns true if the new ones open a right. On an error `place` has the path of the file that was
/// read last, and the place and the fault of a refused one.
pub fn compare_paths<F: Files, W: Write>(
    alloc: Global,
    files: &F,
    paths: ComparePaths<'_>,
    writer: &mut W,
    place: &mut Vec<u8>,
) -> Result<bool, ShellFault>
    ensures place { IsOk result → place.new.items ≡ [] }
    ensures nothing_printed { IfErr result (λ fault. fault ≢ ShellFault.Unwritten
        → Keeps (W.contents writer.old) (W.contents writer.new)) }
    ensures faults { IfErr result IsTableOrKeysFault }
{
    let names = names_of(paths);
    let mut old = LazyFile::new(files, paths.old.0);
    let mut new = LazyFile::new(files, paths.new.0);
    let mut keys = key_file(files, paths.keys);
    let mut new_keys = key_file(files, paths.new_keys);
    compare_files(
        alloc,
        names,
        &mut old,
        &mut new,
        &mut keys,
        &mut new_keys,
        writer,
        place,
    )
}

fn names_of<'a>(paths: ComparePaths<'a>) -> CompareNames<'a> {
    CompareNames {
        old: paths.old.0,
        new: paths.new.0,
        keys: name_of(paths.keys),
        new_keys: name_of(paths.new_keys),
    }
}

fn name_of(path: Option<KeysPath<'_>>) -> &str {
    match path {
        Some(KeysPath(path)) => path,
        None => "",
    }
}
