//! The notices of the host in one turn.

ghost use Rattle.std.specs.Prelude.{◌≡◌, ◌++◌, false, true, OnOk};
ghost use Rattle.app_lines.specs.NoticeText.{named_line};
ghost use Rattle.device_session.specs.Notices as spec;

use crate::links::Links;
use crate::pending::Subject;
use app_lines::{Names, add_named_line, add_number, connection_of};
use host_api::Notice;
use std::alloc::{AllocError, Global};
use std::marker::Model;

/// The changes by clients that a device saves.
#[derive(Clone, Copy, PartialEq, Eq)]
pub enum SavedChanges {
    Nothing,
    Subscriptions,
    /// Subscriptions and values.
    All,
}

/// The line of a change that is saved, by its place in the text.
#[derive(Clone, Copy)]
pub(crate) struct Change {
    pub(crate) subject: Subject,
    pub(crate) begin: usize,
    pub(crate) end: usize,
}

/// The notices of a turn, as lines, and the names of the connections.
#[derive(Drop)]
pub struct Heard {
    /// The lines for the application.
    pub(crate) text: Vec<u8>,
    saved: SavedChanges,
    /// The lines that are sent only once their changes are saved.
    pub(crate) changes: Vec<Change>,
    /// The lines for the log, without written values unless these are logged.
    pub(crate) log: Vec<u8>,
    logs_values: bool,
    pub(crate) names: Names,
    links: Links,
    /// The connections that got a key in the turn.
    secured: Vec<u16>,
    /// The values that clients wrote in the turn, and that are not saved.
    pub(crate) written: Vec<u16>,
    /// Set if memory was refused.
    pub(crate) is_refused: bool,
}

impl Model for Heard {
    ghost use Rattle.device_session.specs.Notices as spec;

    ghost Value = { spec.Heard };

    ghost view = { λ heard. record {
      saved = heard.saved;
      text = heard.text.items;
      changes = heard.changes.items;
      written = heard.written.items;
      secured = heard.secured.items;
      names = heard.names;
      links = heard.links.links.items;
      is_refused = heard.is_refused;
    } };
}

impl Heard {
    /// Returns a record without notices and connections.
    pub fn new(alloc: Global, logs_values: bool, saved: SavedChanges) -> Heard
        ensures { result ≡ spec.at_first saved }
    {
        Heard {
            text: Vec::new(alloc),
            saved,
            changes: Vec::new(alloc),
            log: Vec::new(alloc),
            logs_values,
            names: Names::new(),
            links: Links::new(alloc),
            secured: Vec::new(alloc),
            written: Vec::new(alloc),
            is_refused: false,
        }
    }

    /// Forgets all notices and connections, for a new controller.
    pub fn begin(&mut self)
        ensures { self.new ≡ spec.begun self.old }
    {
        self.clear();
        self.names.forget();
        self.links.forget();
    }

    /// Returns true if there was no notice.
    pub fn is_nothing(&self) -> bool
        ensures { result ≡ spec.is_nothing self.now }
    {
        self.text.is_empty() && !self.is_refused
    }

    /// Drops the notices of the turn.
    pub fn clear(&mut self)
        ensures { self.new ≡ spec.cleared self.old }
    {
        self.text.clear();
        self.changes.clear();
        self.log.clear();
        self.written.clear();
        self.secured.clear();
        self.is_refused = false;
    }

    /// Adds a notice.
    pub fn hear(&mut self, notice: Notice<'_>)
        // Unless memory was refused: each notice has one line, after those before.
        ensures heard { self.new.is_refused ≡ false
            → self.new ≡ spec.after_notice notice.entry self.old }
        ensures refused { self.old.is_refused ≡ true → self.new.is_refused ≡ true }
        ensures names { self.new.names ≡ spec.names_after notice.entry self.old.names }
    {
        let handle = connection_of(&notice);
        if let Notice::Connected { .. } = notice {
            self.names.connect(handle);
        }
        let noted = self.note_link(&notice);
        let added = self.add_change(&notice);
        if noted.is_err() || added.is_err() {
            self.is_refused = true;
        }
        if let Notice::Disconnected { .. } = notice {
            self.names.disconnect(handle);
        }
    }

    /// Returns the connections that got a key in the turn.
    pub fn secured(&self) -> &[u16]
        ensures { result.now ≡ self.now.secured }
    {
        self.secured.as_slice()
    }

    fn note_link(&mut self, notice: &Notice<'_>) -> Result<(), AllocError>
        ensures ok { OnOk result (self.new ≡ record self.old {
          links = spec.links_after notice.now self.old.links;
          secured = spec.secured_after notice.now self.old.secured;
        }) }
        ensures names { self.new.names ≡ self.old.names }
        ensures refused { self.new.is_refused ≡ self.old.is_refused }
    {
        match *notice {
            Notice::Connected { handle, peer } => self.links.connect(handle, peer)?,
            Notice::Disconnected { handle } => self.links.disconnect(handle),
            Notice::Secured { handle, .. } => {
                self.links.note_key(handle, true);
                self.secured.push(handle)?;
            }
            Notice::Unsecured { handle } => self.links.note_key(handle, false),
            _ => {}
        }
        Ok(())
    }

    /// Adds the line of a notice, and notes the change that it reports.
    ///
    /// A name is never missing: a host has no more connections than there are names.
    fn add_change(&mut self, notice: &Notice<'_>) -> Result<(), AllocError>
        ensures ok { OnOk result (self.new ≡ spec.with_line notice.now self.old) }
        ensures names { self.new.names ≡ self.old.names }
        ensures refused { self.new.is_refused ≡ self.old.is_refused }
    {
        let Some(name) = self.names.name_of(connection_of(notice)) else {
            return Ok(());
        };
        let begin = self.text.len();
        self.add(name, notice)?;
        match (self.saved_subject(notice), notice) {
            (Some(subject), _) => {
                let end = self.text.len();
                self.changes.push(Change {
                    subject,
                    begin,
                    end,
                })?;
            }
            (None, Notice::Written { attribute, .. }) => self.written.push(*attribute)?,
            (None, _) => {}
        }
        Ok(())
    }

    /// Returns the subject of a change that is saved.
    fn saved_subject(&self, notice: &Notice<'_>) -> Option<Subject>
        ensures { result ≡ spec.subject_of notice.now self.now }
    {
        match *notice {
            Notice::Written { attribute, .. } if self.saved == SavedChanges::All => {
                Some(Subject::Value(attribute))
            }
            Notice::Configured {
                handle,
                attribute,
                ..
            } if self.saved != SavedChanges::Nothing => {
                let peer = self.links.keyed_peer(handle)?;
                Some(Subject::Configuration { peer, attribute })
            }
            _ => None,
        }
    }

    /// Adds the line of a notice for the application, and the one for the log.
    fn add(&mut self, name: u64, notice: &Notice<'_>) -> Result<(), AllocError>
        ensures ok { OnOk result (self.new ≡ record self.old {
          text = self.old.text ++ named_line name notice.now;
        }) }
        ensures names { self.new.names ≡ self.old.names }
        ensures refused { self.new.is_refused ≡ self.old.is_refused }
    {
        add_named_line(&mut self.text, name, notice)?;
        match notice {
            Notice::Connected { .. } => add_connected(&mut self.log, name, notice),
            Notice::Written {
                attribute,
                value,
                ..
            } if !self.logs_values => add_written(&mut self.log, name, *attribute, value.len()),
            _ => add_named_line(&mut self.log, name, notice),
        }
    }
}

fn add_connected(log: &mut Vec<u8>, name: u64, notice: &Notice<'_>) -> Result<(), AllocError> {
    add_named_line(log, name, notice)?;
    // Removes the line feed, because the handle belongs to the same line.
    log.pop();
    log.extend_from_slice(b" handle")?;
    add_number(log, u64::from(connection_of(notice)))?;
    log.extend_from_slice(b"\n")
}

fn add_written(
    log: &mut Vec<u8>,
    name: u64,
    attribute: u16,
    count: usize,
) -> Result<(), AllocError> {
    log.extend_from_slice(b"+ written")?;
    add_number(log, name)?;
    add_number(log, u64::from(attribute))?;
    add_end(log, b" octets:", count)
}

fn add_end(log: &mut Vec<u8>, words: &[u8], number: usize) -> Result<(), AllocError> {
    log.extend_from_slice(words)?;
    add_number(log, number as u64)?;
    log.extend_from_slice(b"\n")
}
