//! Lines about changes that are not saved yet.

ghost use Rattle.std.specs.Prelude.{◌≡◌, [], IfErr, IfOk};
ghost use Rattle.device_session.specs.Pending.{is_same, with_line, without_subject, KeepsLastLines, KeepsOneEach};
ghost use Rattle.device_session.specs.Reading.{LeavesHostsValues};

use le_hci::Peer;
use std::alloc::{AllocError, Global};
use std::marker::Model;

/// The subject of a change.
#[derive(Clone, Copy, PartialEq, Eq)]
pub(crate) enum Subject {
    /// The value at a handle.
    Value(u16),
    /// The configuration of a peer with a key.
    Configuration { peer: Peer, attribute: u16 },
}

impl Subject {
    fn is(self, other: Subject) -> bool
        ensures { result ≡ is_same self other }
    {
        self == other
    }
}

/// The line of a change.
#[derive(Drop)]
pub(crate) struct PendingLine {
    subject: Subject,
    text: Vec<u8>,
}

impl Model for PendingLine {
    ghost use Rattle.device_session.specs.Pending as spec;

    ghost Value = { spec.Line };

    ghost view = { λ line. record { subject = line.subject; text = line.text.items } };
}

impl PendingLine {
    pub(crate) fn subject(&self) -> Subject
        ensures { result ≡ self.now.subject }
    {
        self.subject
    }

    pub(crate) fn text(&self) -> &[u8]
        ensures { result.now ≡ self.now.text }
    {
        self.text.as_slice()
    }
}

/// The lines about changes that are not saved, in the order of the changes.
///
/// Each subject has at most one line, for its last change. This bounds their number.
#[derive(Drop)]
pub(crate) struct Pending {
    alloc: Global,
    lines: Vec<PendingLine>,
}

impl Pending {
    #[tactic(auto, using(crate::proofs::Lasting::keeps_last_lines, crate::proofs::Lasting::keeps_one_each))]
    pub(crate) fn new(alloc: Global) -> Pending
        ensures none { result.lines.items ≡ [] }
        // The lines that wait for a save are those of the changes that nothing has ended, in their
        // order.
        ensures last { KeepsLastLines }
        // Each subject has at most one line.
        ensures one_each { KeepsOneEach }
        // After any turns: an application that reads its lines in order has each value of the host,
        // unless a line about it still waits.
        ensures values { LeavesHostsValues }
    {
        Pending {
            alloc,
            lines: Vec::new(alloc),
        }
    }

    /// Adds the line of a change, which replaces an earlier one of its subject.
    ///
    /// On error, for which memory was refused, the subject has no line.
    pub(crate) fn add(&mut self, subject: Subject, line: &[u8]) -> Result<(), AllocError>
        ensures added { IfOk result
            (λ _. self.new.lines.items ≡ with_line subject line.now self.old.lines.items) }
        ensures refused { IfErr result
            (λ _. self.new.lines.items ≡ without_subject subject self.old.lines.items) }
    {
        self.forget(subject);
        let mut text = Vec::new(self.alloc);
        text.extend_from_slice(line)?;
        self.lines.push(PendingLine { subject, text })?;
        Ok(())
    }

    /// Removes the line of a subject, whose change another one has replaced.
    pub(crate) fn forget(&mut self, subject: Subject)
        ensures { self.new.lines.items ≡ without_subject subject self.old.lines.items }
    {
        self.lines.retain(|line| !line.subject.is(subject));
    }

    /// Returns the lines in the order of their changes.
    pub(crate) fn lines(&self) -> &[PendingLine]
        ensures { result.now ≡ self.now.lines.items }
    {
        self.lines.as_slice()
    }

    pub(crate) fn clear(&mut self)
        ensures { self.new.lines.items ≡ [] }
    {
        self.lines.clear();
    }
}
