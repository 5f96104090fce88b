//! Words for ATT PDUs: the command `words`, and the option of `att` and `run`.

use crate::outcome_of;
use att_table::Table;
use att_table::examples::DOOR;
use att_words::{CopyFault, Handles, Worded};
use gatt_commands::{
    KeysPath, LazyFile, RowsOut, RowsReader, RunPaths, RxMtu, ShellFault, TablePath, att_lines,
    read_table,
};
use shell_files::{RowsWriter, read_all, read_next};
use std::io;
use std::io::{BufWriter, Write};

/// Copies standard input to standard output with words, and names handles by a table file, if any.
///
/// The table file is read before the input.
pub(crate) fn add_words(rt: &HostRuntime, table: Option<TablePath<'_>>) -> Result<(), ShellFault> {
    match table {
        Some(TablePath(path)) => {
            let table = read_table(rt.alloc(), &mut LazyFile::new(rt, path))?;
            copy(rt, Handles::of(&table, None))
        }
        None => copy(rt, Handles::unnamed()),
    }
}

fn copy(rt: &HostRuntime, handles: Handles<'_>) -> Result<(), ShellFault> {
    let Ok(writer) = BufWriter::new(rt.alloc(), io::writer(rt)) else {
        return Err(ShellFault::Memory);
    };
    let mut worded = Worded::new(writer, handles);
    match att_words::copy(&mut rt.reader(), &mut worded) {
        Ok(()) => Ok(()),
        Err(CopyFault::Unreadable) => Err(ShellFault::Unreadable),
        Err(CopyFault::Unwritten) => Err(ShellFault::Unwritten),
    }
}

/// Answers PDUs from standard input with words, as `att` does without, and names handles by its
/// table.
pub(crate) fn answer_lines(rt: &HostRuntime) -> Result<(), ShellFault> {
    let Ok(table) = Table::read(rt.alloc(), DOOR) else {
        return Err(ShellFault::Memory);
    };
    let Ok(writer) = BufWriter::new(rt.alloc(), io::writer(rt)) else {
        return Err(ShellFault::Memory);
    };
    let mut worded = Worded::new(writer, Handles::of(&table, None));
    let ran = att_lines(rt.alloc(), &mut rt.reader(), &mut worded);
    outcome_of(ran, worded.flush().is_ok())
}

/// Runs a script with words, as `run` does without.
///
/// Reads the tables once: for the run, and for the names of handles that are the same in both.
pub(crate) fn run_script(
    rt: &HostRuntime,
    paths: RunPaths<'_>,
    rx_mtu: RxMtu,
) -> Result<(), ShellFault> {
    let alloc = rt.alloc();
    let first = read_all(alloc, &mut LazyFile::new(rt, paths.table.0))?;
    let table = read_table(alloc, &mut first.as_slice())?;
    let second = match paths.next.0 {
        Some(path) => Some(read_all(alloc, &mut LazyFile::new(rt, path))?),
        None => None,
    };
    let next = read_next(alloc, &mut text_of(&second))?;
    let Ok(writer) = BufWriter::new(alloc, io::writer(rt)) else {
        return Err(ShellFault::Memory);
    };
    let mut worded = Worded::new(writer, Handles::of(&table, next.as_ref()));
    let ran = run_texts(
        rt,
        paths,
        rx_mtu,
        first.as_slice(),
        text_of(&second),
        &mut worded,
    );
    outcome_of(ran, worded.flush().is_ok())
}

/// Returns the bytes of a file, if there is one.
fn text_of(file: &Option<Vec<u8>>) -> Option<&[u8]> {
    match file {
        Some(bytes) => Some(bytes.as_slice()),
        None => None,
    }
}

/// Runs the script of files whose tables are read already.
fn run_texts<W: Write>(
    rt: &HostRuntime,
    paths: RunPaths<'_>,
    rx_mtu: RxMtu,
    table: &[u8],
    next: Option<&[u8]>,
    writer: &mut W,
) -> Result<(), ShellFault> {
    let KeysPath(keys) = paths.keys;
    let (mut table, mut next) = (table, next);
    gatt_commands::run_script(
        rt.alloc(),
        &mut table,
        &mut next,
        &mut LazyFile::new(rt, keys),
        &mut RowsReader::new(rt, paths.rows),
        &mut LazyFile::new(rt, paths.script.0),
        &mut RowsOut::new(RowsWriter::new(rt, paths.rows)),
        paths.shows,
        rx_mtu,
        writer,
    )
}
