//! The notices of the host while a line is done.

ghost use Rattle.std.specs.Prelude.{◌≡◌, true};
ghost use Rattle.gatt_commands.specs.Notices.{NotesWhatIsTold, NotesNothingYet, NotesOne};

use app_lines::add_line;
use gatt_host::{Host, Notice};
use std::alloc::Global;

/// The printed notices of a line of a script, if they are shown.
#[derive(Drop)]
pub(crate) struct Notes {
    pub(crate) shows: bool,
    pub(crate) text: Vec<u8>,
    /// True if memory was refused for a notice.
    pub(crate) is_refused: bool,
}

impl Notes {
    pub(crate) fn new(alloc: Global, shows: bool) -> Notes
        ensures begun { NotesNothingYet shows result }
    {
        Notes {
            shows,
            text: Vec::new(alloc),
            is_refused: false,
        }
    }

    /// Records the host's last notices, if they are shown.
    pub(crate) fn hear(&mut self, host: &Host)
        ensures hears { NotesWhatIsTold host.now self.old self.new }
    {
        if self.shows {
            self.note_all(host);
        }
    }

    fn note_all(&mut self, host: &Host)
        ensures hears { self.old.shows ≡ true → NotesWhatIsTold host.now self.old self.new }
    {
        for notice in host.notices() {
            self.note(&notice);
        }
    }

    fn note(&mut self, notice: &Notice<'_>)
        ensures notes { NotesOne notice.now self.old self.new }
    {
        if add_line(&mut self.text, notice).is_err() {
            self.is_refused = true;
        }
    }
}
