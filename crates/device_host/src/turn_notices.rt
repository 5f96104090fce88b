//! The notices of the host in one turn.

ghost use Rattle.std.specs.Prelude.{◌≡◌, false, Some};
ghost use Rattle.device_session.specs.Notices.{after_notice, begun};

use device_loop::{Received, Unsaved};
use device_session::Heard;
use gatt_host::{Listener, Notice};

#[derive(Drop)]
pub(crate) struct Hearing {
    pub(crate) heard: Heard,
    /// The connections with changes since the last save.
    pub(crate) unsaved: Unsaved,
    /// Set if the turn changed something that is saved.
    pub(crate) is_change: bool,
    /// Set if values that clients write are saved.
    saves_values: bool,
    /// All notices so far, of all turns.
    pub(crate) received: Received,
}

impl Hearing {
    pub(crate) fn new(heard: Heard, saves_values: bool) -> Hearing {
        Hearing {
            heard,
            unsaved: Unsaved::new(),
            is_change: false,
            saves_values,
            received: Received::none(),
        }
    }

    pub(crate) fn begin(&mut self)
        ensures heard { self.new.heard ≡ begun self.old.heard }
    {
        self.heard.begin();
        self.unsaved.clear();
        self.is_change = false;
    }

    /// Adds a notice to those of the turn.
    fn add(&mut self, notice: Notice<'_>)
        // Unless memory was refused: each notice has one line, after those before.
        ensures lines { self.new.heard.is_refused ≡ false
            → self.new.heard ≡ after_notice notice.entry self.old.heard }
        ensures received { self.new.received ≡ self.old.received }
    {
        self.note(&notice);
        self.heard.hear(notice);
    }

    /// Notes whether a notice reports a change of what is saved.
    fn note(&mut self, notice: &Notice<'_>)
        ensures received { self.new.received ≡ self.old.received }
        ensures heard { self.new.heard ≡ self.old.heard }
    {
        self.is_change |= match notice {
            Notice::Written { .. } => self.saves_values,
            Notice::Configured { .. } | Notice::Confirmed { .. } => true,
            _ => false,
        };
        if self.saves_values || !matches!(notice, Notice::Written { .. }) {
            self.unsaved.hear(notice);
        }
    }
}

impl Listener for Hearing {
    ghost heard = { λ hearing. Some hearing.received.notices };

    fn hear(&mut self, notice: Notice<'_>) {
        self.received = self.received.with(&notice);
        self.add(notice);
    }
}
