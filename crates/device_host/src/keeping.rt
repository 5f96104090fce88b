//! The saved data of a host.

ghost use Rattle.std.specs.Prelude.{◌≡◌, not};
ghost use Rattle.std.specs.Option.{option_map};
ghost use Rattle.device_session.specs.Turns.{after_work};
ghost use Rattle.device_host.specs.Changes.{is_all_saved, retry_of, with_change};
ghost use Rattle.device_host.specs.Order.{IsFailureTold, IsSavingTold};
ghost use Rattle.device_host.specs.Work.{worked_if, IsSaveTurned};

use crate::before::keep_before;
use crate::changes::Changes;
use crate::stop::Stop;
use app_lines::Told;
use device_io::{Lock, LockFault, Log, SavedFile};
use device_session::Session;
use device_state::{Saves, may_be_saved, state_text};
use gatt_host::{Host, Rows, Table};
use octet_io::Writer;
use std::alloc::Global;
use std::fs::{File, Files};
use std::io::ErrorKind;
use std::time::Clock;
use std::{io, str};

/// Time between attempts to save, in milliseconds.
const RETRY_TIME: u64 = 1_000;

#[derive(Drop)]
pub(crate) enum Contents {
    Subscriptions,
    State(SavedState),
}

#[derive(Drop)]
pub(crate) struct SavedState {
    pub(crate) text: Vec<u8>,
    /// The table with the values of its file.
    pub(crate) initial: Table,
    pub(crate) saves: Saves,
    /// Set if the saved state belongs to another table.
    pub(crate) is_changed: bool,
}

impl Contents {
    /// Returns true if values that clients write are saved.
    pub(crate) fn has_values(&self) -> bool {
        matches!(self, Contents::State(_))
    }

    /// Returns true if a save replaces the state of another table.
    fn is_changed(&self) -> bool {
        match self {
            Contents::State(served) => served.is_changed,
            Contents::Subscriptions => false,
        }
    }

    /// Returns the text of the table that is served, if it is saved.
    fn table_text(&self) -> &[u8] {
        match self {
            Contents::State(served) => served.text.as_slice(),
            Contents::Subscriptions => &[],
        }
    }

    fn has(&self, table: &Table, handle: u16) -> bool {
        match (self, table.get(handle)) {
            (Contents::State(served), Some(attr)) => may_be_saved(attr, served.saves),
            _ => false,
        }
    }

    fn text(&self, alloc: Global, host: &Host) -> io::Result<Vec<u8>> {
        match self {
            Contents::Subscriptions => subscriptions_text(alloc, host.rows()),
            Contents::State(served) => {
                // A table file is UTF-8: other files were refused.
                let table_text = str::from_utf8(served.text.as_slice()).unwrap_or("");
                let (rows, table) = (host.rows(), host.table());
                let text = state_text(
                    alloc,
                    table_text,
                    rows,
                    table,
                    &served.initial,
                    served.saves,
                )?;
                Ok(text)
            }
        }
    }
}

fn subscriptions_text(alloc: Global, rows: &Rows) -> io::Result<Vec<u8>> {
    let mut text = Vec::new(alloc);
    match rows.text(&mut Writer::new(&mut text)) {
        Ok(()) => Ok(text),
        Err(_) => Err(io::Error::from(ErrorKind::OutOfMemory)),
    }
}

#[derive(Drop)]
pub(crate) struct Keeping {
    alloc: Global,
    /// The locks without which nothing is saved.
    locks: Vec<Lock>,
    file: SavedFile,
    pub(crate) contents: Contents,
    changes: Changes,
    /// The file and the error of the last save, if it failed.
    failure: Option<String>,
    news: News,
}

/// A change of saving of which the application is not notified yet.
#[derive(Clone, Copy, PartialEq, Eq)]
enum News {
    Nothing,
    /// Saving fails, or with another error.
    Fails,
    /// Saving has succeeded after a failure.
    SavesAgain,
}

impl Keeping {
    pub(crate) fn new(
        alloc: Global,
        locks: Vec<Lock>,
        file: SavedFile,
        contents: Contents,
    ) -> Keeping {
        Keeping {
            alloc,
            locks,
            file,
            contents,
            changes: Changes::Due,
            failure: None,
            news: News::Nothing,
        }
    }

    /// Saves a copy of the state if it belongs to another table. Call it before the first save.
    pub(crate) fn keep_before<R: Files<File = File> + Clock + Eprint>(
        &self,
        log: &Log<'_, R>,
    ) -> Result<(), Stop> {
        if !self.contents.is_changed() {
            return Ok(());
        }
        keep_before(self.alloc, log, &self.file, self.contents.table_text())
    }

    pub(crate) fn retry(&self) -> Option<u64>
        ensures { result ≡ retry_of self.now.changes }
    {
        self.changes.retry()
    }

    pub(crate) fn note_update(&mut self, table: &Table, handle: u16) {
        if self.contents.has(table, handle) {
            self.note_change();
        }
    }

    /// Notes that something has changed that is saved.
    pub(crate) fn note_change(&mut self)
        ensures { self.new.changes ≡ with_change self.old.changes }
    {
        self.changes = self.changes.with_change();
    }

    /// Saves a host if necessary and if it is time. Returns true if everything is saved.
    ///
    /// Logs when saving begins to fail, or succeeds again.
    pub(crate) fn save<R: Files<File = File> + Clock + Eprint>(
        &mut self,
        host: &Host,
        session: &mut Session<'_, R>,
    ) -> bool
        ensures saved { result ≡ is_all_saved self.new.changes }
        // The application, its place and its output stay as they are.
        ensures application { session.new.seats ≡ session.old.seats }
        // The clock is read after a save, before the host gets anything.
        ensures turns { IsSaveTurned self.old.changes session.old.turns session.new.turns }
    {
        if self.changes.is_made(session.log().now()) {
            self.save_now(host, session);
        }
        self.changes.are_saved()
    }

    /// Saves a host if necessary, whatever the time of the next attempt. Returns the file and the
    /// error if that fails.
    pub(crate) fn save_last<R: Files<File = File> + Clock + Eprint>(
        &mut self,
        host: &Host,
        session: &mut Session<'_, R>,
    ) -> Option<&str>
        ensures application { session.new.seats ≡ session.old.seats }
        ensures turns { session.new.turns
            ≡ worked_if (not (is_all_saved self.old.changes)) session.old.turns }
    {
        if !self.changes.are_saved() {
            self.save_now(host, session);
        }
        if self.changes.are_saved() {
            return None;
        }
        match &self.failure {
            Some(failure) => Some(failure.as_str()),
            None => Some(self.file.path()),
        }
    }

    fn save_now<R: Files<File = File> + Clock + Eprint>(
        &mut self,
        host: &Host,
        session: &mut Session<'_, R>,
    )
        ensures application { session.new.seats ≡ session.old.seats }
        ensures turns { session.new.turns ≡ after_work session.old.turns }
    {
        session.begin_work();
        let written = self.write(host, session.log().rt);
        session.end_work();
        match written {
            Ok(()) => self.succeed(session),
            Err(error) => self.fail(session, &error),
        }
    }

    /// Tells the application, once, that saving fails or succeeds again.
    pub(crate) fn tell_news<R: Clock + Eprint>(&mut self, session: &mut Session<'_, R>)
        ensures news { IsSavingTold self.old.news
            (option_map (λ words. words.bytes.items) self.old.failure)
            session.old.seats session.new.seats }
        ensures failure { self.new.failure ≡ self.old.failure }
        ensures missed { session.new.missed ≡ session.old.missed }
        ensures pending { session.new.pending ≡ session.old.pending }
        ensures updated { session.new.updated ≡ session.old.updated }
        ensures names { session.new.names ≡ session.old.names }
        ensures asking { session.new.asking ≡ session.old.asking }
        ensures controller { session.new.controller ≡ session.old.controller }
    {
        match self.news {
            News::Nothing => {}
            News::Fails => self.tell_failure(session),
            News::SavesAgain => session.tell(&Told::Saved),
        }
        self.news = News::Nothing;
    }

    /// Notifies the application if the last save failed.
    pub(crate) fn tell_failure<R: Clock + Eprint>(&self, session: &mut Session<'_, R>)
        ensures failure { IsFailureTold (option_map (λ words. words.bytes.items) self.now.failure)
            session.old.seats session.new.seats }
        ensures missed { session.new.missed ≡ session.old.missed }
        ensures pending { session.new.pending ≡ session.old.pending }
        ensures updated { session.new.updated ≡ session.old.updated }
        ensures names { session.new.names ≡ session.old.names }
        ensures asking { session.new.asking ≡ session.old.asking }
        ensures controller { session.new.controller ≡ session.old.controller }
    {
        if let Some(failure) = &self.failure {
            session.tell(&Told::Unsaved(failure.as_str()));
        }
    }

    fn succeed<R: Clock + Eprint>(&mut self, session: &Session<'_, R>) {
        if self.changes.retry().is_some() {
            self.failure = None;
            session.log().say_of("saved again:", self.file.path());
            self.news = News::SavesAgain;
        }
        self.changes = Changes::Saved;
    }

    fn fail<R: Clock + Eprint>(&mut self, session: &Session<'_, R>, error: &io::Error) {
        self.changes = Changes::Failing(session.log().now().saturating_add(RETRY_TIME));
        let path = self.file.path();
        if let Ok(line) = format!(in self.alloc; "{path}: {error}")
            && !is_told(&self.failure, line.as_str())
        {
            session.log().say_of("not saved:", line.as_str());
            self.failure = Some(line);
            self.news = News::Fails;
        }
    }

    /// Saves a host, unless another device has one of the locks.
    fn write<R: Files<File = File>>(&mut self, host: &Host, files: &R) -> io::Result<()> {
        if let Err(fault) = hold(self.locks.as_mut_slice(), &mut self.file, files) {
            return Err(fault.error());
        }
        let text = self.contents.text(self.alloc, host)?;
        self.file.save(files, text)
    }
}

fn is_told(failure: &Option<String>, line: &str) -> bool {
    match failure {
        Some(failure) => failure.as_str() == line,
        None => false,
    }
}

/// Takes all locks of a file that are not held.
fn hold<R: Files<File = File>>(
    locks: &mut [Lock],
    file: &mut SavedFile,
    files: &R,
) -> Result<(), LockFault> {
    for lock in locks.iter_mut() {
        if lock.hold(files)? {
            file.contest();
        }
    }
    Ok(())
}
