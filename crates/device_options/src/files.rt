//! The files of a device.

ghost use Rattle.std.specs.Prelude.{◌≡◌, IfOk};
ghost use Rattle.std.specs.Result.{result_ok};
ghost use Rattle.device_options.specs.Places.{AreFilesOf, saved_by};

use crate::numbers::read_size;
use crate::texts::OptionTexts;

/// The data that survive a restart, and their path.
#[derive(Clone, Copy)]
pub enum Saved<'a> {
    Nothing,
    Subscriptions(&'a str),
    State {
        folder: &'a str,
        /// Set if values that no client may write are saved too.
        all_values: bool,
    },
}

/// The files that are read and written.
#[derive(Clone, Copy)]
pub struct FileOptions<'a> {
    pub table: &'a str,
    pub keys: &'a str,
    pub saved: Saved<'a>,
    /// Set to drop subscriptions of peers without a key. Otherwise the file is refused.
    pub drop_unknown: bool,
    /// The path of a capture.
    pub capture: Option<&'a str>,
    /// The largest size of a capture, in bytes.
    pub capture_size: u64,
}

impl<'a> FileOptions<'a> {
    pub(crate) fn read(words: &OptionTexts<'a>) -> Result<FileOptions<'a>, &'static str>
        ensures files { IfOk result (AreFilesOf words.now) }
    {
        Ok(FileOptions {
            table: words.table,
            keys: words.keys,
            saved: read_saved(words.state, words.rows, words.save_updates)?,
            drop_unknown: words.drop_unknown,
            capture: words.capture,
            capture_size: read_size(words.capture_size)?,
        })
    }
}

fn read_saved<'a>(
    state: Option<&'a str>,
    rows: Option<&'a str>,
    all_values: bool,
) -> Result<Saved<'a>, &'static str>
    ensures { result_ok result ≡ saved_by state.entry rows.entry all_values }
{
    match (state, rows) {
        (Some(_), Some(_)) => Err("--state and --rows: one of them is enough"),
        (Some(""), None) => Err("--state: the path of a folder"),
        (None, Some("")) => Err("--rows: the path of a file"),
        (Some(folder), None) => Ok(Saved::State { folder, all_values }),
        _ if all_values => Err("--save-updates: it needs --state"),
        (None, Some(path)) => Ok(Saved::Subscriptions(path)),
        (None, None) => Ok(Saved::Nothing),
    }
}
