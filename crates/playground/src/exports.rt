//! The functions that a page calls.
//!
//! Each writes its output to `out`, and its length to `count`. It returns the exit status of the
//! command: 0, or 3 if `compare` finds a right that is opened, 1 for a refused file, and 2 for a
//! fault in a run. The output of a fault ends with its text and its place. If the output has no
//! space the status is 70.

ghost use Rattle.std.specs.Prelude.{◌≡◌, ◌≤◌, [], false, length, take, true, None, Ok, Some};
ghost use Rattle.gatt_commands.specs.Runs.{RunsFiles, files_of};
ghost use Rattle.gatt_conn.specs.declared.conn.TheConstants.{RX_MTU};
ghost use Rattle.policy_commands.specs.Show.{AreShown};
ghost use Rattle.policy_commands.specs.declared.show.View.{View};
ghost use Rattle.policy_commands.specs.Compare.{AreCompared};
ghost use Rattle.playground.specs.Shown.{HasRights, all_shown};

use crate::fields::add_rights_data;
use crate::finish::finish;
use att_words::{CopyFault, Handles, Worded};
use gatt_commands::{RxMtu, Shows, run_script};
use gatt_subs::Rows;
use policy_commands::{CompareNames, View, compare_files, show_files};
use shell_files::{
    RowsStore, ShellFault, read_key_file_at, read_table_at, tell_keys_fault, tell_table_fault,
};
use std::alloc::Global;
use std::io;
use std::io::Write;

/// Prints what `gatt_shell show` prints for a table and a key file.
#[unsafe(no_mangle)]
pub extern "C" fn page_show(
    alloc: Global,
    table: &[u8],
    keys: &[u8],
    out: &mut [u8],
    count: &mut usize,
) -> u32
    // This is what `show` prints of these texts.
    ensures shown { result ≡ 0 → AreShown (View.Rights 80) (Some table.now)
        (Some (Some keys.now)) (Some []) (Some (take count.new out.new)) }
    ensures within { count.new ≤ length out.old }
{
    let (mut table, mut keys, mut rows) = (table, Some(keys), b"".as_slice());
    let (mut text, mut place) = (Vec::new(alloc), Vec::new(alloc));
    let view = View::Rights(80);
    let shown = show_files(
        alloc, &mut table, &mut keys, &mut rows, view, &mut text, &mut place,
    );
    finish(shown, text, &place, out, count)
}

/// Prints the rights of `gatt_shell show` as lines of fields, separated by tabs.
///
/// `column NAME KEY`, `peer NAME ADDRESS`, `service TYPE`, and for each value and descriptor `row
/// HANDLE TYPE LENGTH VALUE CELL ..`, with the value in hexadecimal and a cell for each column.
#[unsafe(no_mangle)]
pub extern "C" fn page_rights(
    alloc: Global,
    table: &[u8],
    keys: &[u8],
    out: &mut [u8],
    count: &mut usize,
) -> u32
    // The rights as lines of fields.
    ensures rights { result ≡ 0 → HasRights table.now keys.now (take count.new out.new) }
    ensures within { count.new ≤ length out.old }
{
    let (mut text, mut place) = (Vec::new(alloc), Vec::new(alloc));
    let ran = add_rights(alloc, table, keys, &mut text, &mut place);
    finish(ran, text, &place, out, count)
}

fn add_rights(
    alloc: Global,
    table: &[u8],
    keys: &[u8],
    text: &mut Vec<u8>,
    place: &mut Vec<u8>,
) -> Result<(), ShellFault>
    requires { text.old.items ≡ [] }
    ensures rights { result ≡ Ok tt → HasRights table.now keys.now text.new.items }
{
    let (mut table, mut keys) = (table, keys);
    let table = read_table_at(alloc, &mut table, place)?;
    let keys = read_key_file_at(alloc, &mut keys, place)?;
    Ok(add_rights_data(alloc, text, &table, &keys)?)
}

/// Prints what `gatt_shell compare` prints for two table files and a key file.
#[unsafe(no_mangle)]
pub extern "C" fn page_compare(
    alloc: Global,
    old: &[u8],
    new: &[u8],
    keys: &[u8],
    out: &mut [u8],
    count: &mut usize,
) -> u32
    // This is what `compare` prints of these texts, if nothing is opened.
    ensures nothing { result ≡ 0 → AreCompared (Some old.now) (Some new.now)
        (Some (Some keys.now)) None (Some []) (Some (take count.new out.new)) false }
    // The same, if something is opened.
    ensures opened { result ≡ 3 → AreCompared (Some old.now) (Some new.now)
        (Some (Some keys.now)) None (Some []) (Some (take count.new out.new)) true }
    ensures within { count.new ≤ length out.old }
{
    let (mut old, mut new, mut keys, mut new_keys) = (old, new, Some(keys), None::<&[u8]>);
    let (mut text, mut place) = (Vec::new(alloc), Vec::new(alloc));
    let names = CompareNames {
        old: "old",
        new: "new",
        keys: "keys",
        new_keys: "keys",
    };
    let compared = compare_files(
        alloc,
        names,
        &mut old,
        &mut new,
        &mut keys,
        &mut new_keys,
        &mut text,
        &mut place,
    );
    match compared {
        Ok(is_opened) => {
            let status = finish(Ok(()), text, &place, out, count);
            if status == 0 && is_opened { 3 } else { status }
        }
        Err(fault) => finish(Err(fault), text, &place, out, count),
    }
}

/// Prints what `gatt_shell run --echo --notices` prints for a table, a key file and a script.
///
/// There are no subscriptions at first, and none are kept.
#[unsafe(no_mangle)]
pub extern "C" fn page_run(
    alloc: Global,
    table: &[u8],
    keys: &[u8],
    script: &[u8],
    out: &mut [u8],
    count: &mut usize,
) -> u32
    // This is what `run --echo --notices` prints of these texts.
    ensures runs { result ≡ 0 → RunsFiles (Ok tt) all_shown RX_MTU
        (files_of (Some table.now) None (Some keys.now) (Some []) (Some script.now))
        (Some []) (Some (take count.new out.new)) None None }
    ensures within { count.new ≤ length out.old }
{
    let (mut table_left, mut keys_left, mut script) = (table, keys, script);
    let (mut next, mut rows) = (None::<&[u8]>, b"".as_slice());
    let mut text = Vec::new(alloc);
    let shows = Shows {
        notices: true,
        lines: true,
    };
    let ran = run_script(
        alloc,
        &mut table_left,
        &mut next,
        &mut keys_left,
        &mut rows,
        &mut script,
        &mut Unsaved,
        shows,
        RxMtu::usual(),
        &mut text,
    );
    let mut place = Vec::new(alloc);
    match ran {
        Err(ShellFault::Table(_)) if tell_table_fault(alloc, &mut place, table).is_err() => {
            place.clear();
        }
        Err(ShellFault::Keys(_)) if tell_keys_fault(alloc, &mut place, keys).is_err() => {
            place.clear();
        }
        _ => {}
    }
    finish(ran, text, &place, out, count)
}

/// A store that drops the subscriptions.
#[derive(Drop)]
struct Unsaved;

impl RowsStore for Unsaved {
    fn save(&mut self, _rows: &Rows) -> Result<(), ShellFault> {
        Ok(())
    }
}

/// Prints what `gatt_shell words --table TABLE` prints for a text.
#[unsafe(no_mangle)]
pub extern "C" fn page_words(
    alloc: Global,
    table: &[u8],
    text: &[u8],
    out: &mut [u8],
    count: &mut usize,
) -> u32
    ensures within { count.new ≤ length out.old }
{
    let (mut words, mut place) = (Vec::new(alloc), Vec::new(alloc));
    let ran = add_words(alloc, table, text, &mut words, &mut place);
    finish(ran, words, &place, out, count)
}

fn add_words(
    alloc: Global,
    table: &[u8],
    text: &[u8],
    words: &mut Vec<u8>,
    place: &mut Vec<u8>,
) -> Result<(), ShellFault> {
    let (mut table, mut text) = (table, text);
    let table = read_table_at(alloc, &mut table, place)?;
    let mut worded = Worded::new(Sink(words), Handles::of(&table, None));
    match att_words::copy(&mut text, &mut worded) {
        Ok(()) => Ok(()),
        Err(CopyFault::Unreadable) => Err(ShellFault::Unreadable),
        Err(CopyFault::Unwritten) => Err(ShellFault::Unwritten),
    }
}

/// A writer that adds to a text.
#[derive(Drop)]
struct Sink<'a>(&'a mut Vec<u8>);

impl Write for Sink<'_> {
    fn write(&mut self, octets: &[u8]) -> io::Result<usize> {
        self.0.write(octets)
    }

    fn flush(&mut self) -> io::Result<()> {
        Ok(())
    }
}
