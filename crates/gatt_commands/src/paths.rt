//! The command `run`, by the paths of its files.

ghost use Rattle.std.specs.Prelude.{◌≡◌, is_some, IfErr};
ghost use Rattle.gatt_commands.specs.Faults.{IsRunCommandFault};

use crate::mtu::RxMtu;
use crate::run::run_script;
use crate::script_text::Shows;
use shell_files::{
    KeysPath, LazyFile, RowsOut, RowsPath, RowsReader, RowsWriter, ShellFault, TablePath,
};
use std::alloc::Global;
use std::fs::Files;
use std::io::Write;

/// The path of a table file that replaces another, if any.
#[derive(Clone, Copy)]
pub struct NextPath<'a>(pub Option<&'a str>);

/// The path of a script.
#[derive(Clone, Copy)]
pub struct ScriptPath<'a>(pub &'a str);

/// The paths of the files of a run.
#[derive(Clone, Copy)]
pub struct RunPaths<'a> {
    pub table: TablePath<'a>,
    /// The table file that replaces `table`.
    pub next: NextPath<'a>,
    pub keys: KeysPath<'a>,
    pub rows: RowsPath<'a>,
    pub script: ScriptPath<'a>,
    /// The output besides the frames of clients.
    pub shows: Shows,
}

/// Runs the script of the files at these paths, by a host with this ATT_MTU.
///
/// Opens each file only before its check.
pub fn run_paths<F: Files, W: Write>(
    alloc: Global,
    files: &F,
    paths: RunPaths<'_>,
    rx_mtu: RxMtu,
    writer: &mut W,
) -> Result<(), ShellFault>
    ensures { IfErr result IsRunCommandFault }
{
    let mut table = LazyFile::new(files, paths.table.0);
    let mut next = next_file(files, paths.next);
    let mut keys = LazyFile::new(files, paths.keys.0);
    let mut rows = RowsReader::new(files, paths.rows);
    let mut script = LazyFile::new(files, paths.script.0);
    let mut store = RowsOut::new(RowsWriter::new(files, paths.rows));
    run_script(
        alloc,
        &mut table,
        &mut next,
        &mut keys,
        &mut rows,
        &mut script,
        &mut store,
        paths.shows,
        rx_mtu,
        writer,
    )
}

fn next_file<'a, F: Files>(files: &'a F, path: NextPath<'a>) -> Option<LazyFile<'a, F>>
    ensures { is_some result ≡ is_some path.entry.0 }
{
    Some(LazyFile::new(files, path.0?))
}
