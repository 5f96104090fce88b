ghost use Rattle.std.specs.Prelude.{◌≡◌, ◌≢◌, ◌<◌, ◌≤◌, ◌&&◌, not, true, IfSome, []};
ghost use Rattle.std.specs.Bool.{OnTrue, OnFalse};
ghost use Rattle.att_numbers.specs.declared.limit.TheConstants.{MAX_ATTRIBUTES};
ghost use Rattle.att_attributes.specs.Attributes.{is_value_at};
ghost use Rattle.gatt_subs.specs.Alone.{after_notify_alone, telling_alone};
ghost use Rattle.gatt_subs.specs.Deadline.{deadline_of};
ghost use Rattle.gatt_subs.specs.Hearing.{is_indicated, wants_indications};
ghost use Rattle.gatt_subs.specs.HeardOnly.{NotifiesOnlyWhatIsHeard, IndicatesOnlyWhatIsHeard, IndicatesOnlyWhatWaits};
ghost use Rattle.gatt_subs.specs.Indications.{after_confirmation, after_end, after_notify, after_indicate, after_replacement, after_tick, confirmed_handle, first_handle, from_due, hears, is_notified, is_told, is_waiting, no_indications, indicated_handle, rest_of, times_out, with_handle, HaveOnePlace};
ghost use Rattle.gatt_subs.specs.Room.{has_room_to_wait};
ghost use Rattle.gatt_subs.specs.Told.{TellsOnlyWhatIsHeard};

use crate::hearing::{Raised, Telling, is_indicated};
use arrayvec::ArrayVec;
use att_numbers::limit::{MAX_ATTRIBUTES, MAX_CONFIGURATIONS};
use att_policy::Standing;
use att_table::{ConfigRow, Table};
use std::marker::Model;

/// The backlog limit: below it, notifications and indications are queued (this profile's own).
pub const MAX_BACKLOG: usize = 8;

/// The confirmation timeout in milliseconds (Core 5.0, Vol 3 Part F, 3.3.3).
const CONFIRMATION_TIMEOUT: u64 = 30_000;

/// An unconfirmed indication.
#[derive(Clone, Copy)]
struct Unconfirmed {
    handle: u16,
    /// The time of queueing in milliseconds.
    since: u64,
    /// The table was replaced since.
    outdated: bool,
}

/// The indications of one connection: handles of up to `ROOM` waiting values, each once, and the
/// unconfirmed indication (Core 5.0, Vol 3 Part F, 3.4.7.2).
#[derive(Drop)]
pub struct PendingOf<const ROOM: usize> {
    waiting: ArrayVec<u16, ROOM>,
    unconfirmed: Option<Unconfirmed>,
    timed_out: bool,
}

/// The indications of any values: no more handles than attributes.
pub type Pending = PendingOf<MAX_ATTRIBUTES>;

/// The indications of values with a CCCD in one table: no more handles than CCCDs.
pub type PendingOfTable = PendingOf<MAX_CONFIGURATIONS>;

impl<const ROOM: usize> Model for PendingOf<ROOM> {
    ghost use Rattle.gatt_subs.specs.Indications.{Indications, HaveOnePlace};

    ghost Value = { Indications };

    ghost view = { λ pending.
        record {
          waiting = pending.waiting.items;
          unconfirmed = pending.unconfirmed;
          timed_out = pending.timed_out;
        } };

    ghost invariant = { λ pending. HaveOnePlace pending.waiting.items };
}

impl<const ROOM: usize> PendingOf<ROOM> {
    /// Creates a state in which nothing waits and nothing is unconfirmed.
    #[tactic(auto, using(crate::proofs::Heard::only_what_is_heard))]
    pub fn new() -> Self
        ensures pending { result ≡ no_indications }
        // For every table and its values, a client learns only what it may be notified of.
        ensures raised { NotifiesOnlyWhatIsHeard }
        ensures released { IndicatesOnlyWhatIsHeard }
        ensures idle { IndicatesOnlyWhatWaits }
        ensures undisclosed { TellsOnlyWhatIsHeard }
    {
        PendingOf {
            waiting: ArrayVec::new(),
            unconfirmed: None,
            timed_out: false,
        }
    }

    /// Processes a written value; returns true if it must be notified.
    ///
    /// A value to indicate waits instead, once and last; there must be space.
    #[inline(always)]
    pub fn raise_value(
        &mut self,
        raised: &Raised<'_>,
        row: &ConfigRow,
        standing: &Standing,
        backlog: usize,
    ) -> bool
        requires fits { HaveOnePlace self.old.waiting
            → wants_indications row.now raised.now.handle ≡ true
            → has_room_to_wait ROOM self.old.waiting raised.now.handle ≡ true }
        ensures notified { result
            ≡ is_notified self.old raised.now.table.attributes row.now standing.entry.now
            raised.now.handle backlog }
        ensures pending { self.new
            ≡ after_notify self.old raised.now.table.attributes row.now standing.entry.now
            raised.now.handle }
        ensures room { OnTrue result (backlog < MAX_BACKLOG) }
    {
        if self.timed_out {
            return false;
        }
        match raised.telling(row, standing) {
            None => false,
            Some(Telling::Notification) => backlog < MAX_BACKLOG,
            Some(Telling::Indication) => {
                wait_once(&mut self.waiting, raised.handle());
                false
            }
        }
    }

    /// Returns true if the value must be notified.
    ///
    /// Send the notification only below `MAX_BACKLOG` queued PDUs; otherwise skip it.
    #[inline(always)]
    pub fn wants_notification(
        &self,
        raised: &Raised<'_>,
        row: &ConfigRow,
        standing: &Standing,
    ) -> bool
        ensures { result
            ≡ (hears self.now raised.now.table.attributes row.now standing.entry.now
            raised.now.handle && not (wants_indications row.now raised.now.handle)) }
    {
        !self.timed_out && matches!(raised.telling(row, standing), Some(Telling::Notification))
    }

    /// Processes the only value of an event; returns how to send it now, if at all.
    ///
    /// A value to indicate becomes unconfirmed if nothing waits, nothing is unconfirmed and fewer
    /// than `MAX_BACKLOG` PDUs are queued. Otherwise it waits, once and last; there must be space.
    #[inline(always)]
    pub fn raise_alone(
        &mut self,
        raised: &Raised<'_>,
        row: &ConfigRow,
        standing: &Standing,
        backlog: usize,
        now: u64,
    ) -> Option<Telling>
        requires fits { HaveOnePlace self.old.waiting
            → wants_indications row.now raised.now.handle ≡ true
            → has_room_to_wait ROOM self.old.waiting raised.now.handle ≡ true }
        ensures told { result
            ≡ telling_alone self.old raised.now.table.attributes row.now standing.entry.now
            raised.now.handle backlog }
        ensures pending { self.new
            ≡ after_notify_alone self.old raised.now.table.attributes row.now standing.entry.now
            raised.now.handle backlog now }
        ensures room { IfSome result (λ telling. backlog < MAX_BACKLOG) }
    {
        if self.timed_out {
            return None;
        }
        let few = backlog < MAX_BACKLOG;
        match raised.telling(row, standing)? {
            Telling::Notification if few => Some(Telling::Notification),
            Telling::Indication if few && self.waiting.is_empty() && self.unconfirmed.is_none() => {
                self.unconfirmed = Some(Unconfirmed {
                    handle: raised.handle(),
                    since: now,
                    outdated: false,
                });
                Some(Telling::Indication)
            }
            Telling::Indication => {
                wait_once(&mut self.waiting, raised.handle());
                None
            }
            Telling::Notification => None,
        }
    }

    /// Removes and returns the first waiting value that must be indicated now, if any.
    ///
    /// The value becomes unconfirmed. Waiting values before it, of which the connection may no
    /// longer be notified, are dropped.
    #[inline(always)]
    pub fn release(
        &mut self,
        table: &Table,
        row: &ConfigRow,
        standing: &Standing,
        backlog: usize,
        now: u64,
    ) -> Option<u16>
        ensures due { result
            ≡ indicated_handle self.old table.now.attributes row.now standing.entry.now backlog }
        ensures pending { self.new
            ≡ after_indicate self.old table.now.attributes row.now standing.entry.now backlog
            now }
        ensures room { IfSome result (λ handle. backlog < MAX_BACKLOG) }
        ensures value { IfSome result
            (λ handle. is_value_at table.now.attributes handle ≡ true) }
    {
        if self.unconfirmed.is_some() || self.timed_out || backlog >= MAX_BACKLOG {
            return None;
        }
        let handle = take_due(&mut self.waiting, table, row, standing)?;
        self.unconfirmed = Some(Unconfirmed {
            handle,
            since: now,
            outdated: false,
        });
        Some(handle)
    }

    /// Returns true if a value waits.
    #[inline(always)]
    pub fn waits(&self) -> bool
        ensures some { OnTrue result (self.now.waiting ≢ []) }
        ensures none { OnFalse result (self.now.waiting ≡ []) }
    {
        !self.waiting.is_empty()
    }

    /// Processes a confirmation and returns the confirmed handle.
    ///
    /// `None`: nothing was unconfirmed, or the indication was from before a replacement.
    pub fn confirm(&mut self) -> Option<u16>
        ensures pending { self.new ≡ after_confirmation self.old }
        ensures confirmed { result ≡ confirmed_handle self.old }
    {
        match self.unconfirmed.take() {
            Some(sent) if !sent.outdated => Some(sent.handle),
            _ => None,
        }
    }

    /// Checks the confirmation timeout at `now`, in milliseconds.
    ///
    /// Returns true when it expires; from then on nothing is notified or indicated.
    pub fn tick(&mut self, now: u64) -> bool
        ensures pending { self.new ≡ after_tick self.old now }
        ensures late { result ≡ times_out self.old now }
    {
        let is_late = self.unconfirmed.is_some_and(|sent| now.saturating_sub(sent.since)
            >= CONFIRMATION_TIMEOUT);
        if is_late {
            self.end();
            self.timed_out = true;
        }
        is_late
    }

    /// Returns the time of the confirmation timeout in milliseconds.
    ///
    /// `None`: nothing is unconfirmed, or the time exceeds 64 bits.
    pub fn deadline(&self) -> Option<u64>
        ensures deadline { result ≡ deadline_of self.now }
    {
        self.unconfirmed?.since.checked_add(CONFIRMATION_TIMEOUT)
    }

    /// Adapts to a replaced table: nothing waits, and the unconfirmed indication is outdated.
    pub fn replace_table(&mut self)
        ensures { self.new ≡ after_replacement self.old }
    {
        self.waiting.clear();
        if let Some(sent) = &mut self.unconfirmed {
            sent.outdated = true;
        }
    }

    /// Returns true if a confirmation now would show that the client knows the value.
    ///
    /// The unconfirmed indication must be of that value and current, and the value must not wait
    /// again.
    #[cold]
    #[inline(never)]
    pub fn told(&self, handle: u16) -> bool
        ensures { result ≡ is_told self.now handle }
    {
        self.unconfirmed
            .is_some_and(|sent| sent.handle == handle && !sent.outdated)
            && !is_waiting(self.waiting.as_slice(), handle)
    }

    /// Clears waiting and unconfirmed indications when the connection ends.
    pub fn end(&mut self)
        ensures { self.new ≡ after_end self.old }
    {
        self.waiting.clear();
        self.unconfirmed = None;
    }
}

impl PendingOf<MAX_ATTRIBUTES> {
    /// Processes a written value; returns true if it must be notified.
    ///
    /// A value to indicate waits instead, once and last. `backlog` counts the queued PDUs of the
    /// connection.
    #[tactic(auto, using(crate::proofs::Places::room_for_any))]
    pub fn raise(
        &mut self,
        table: &Table,
        handle: u16,
        row: &ConfigRow,
        standing: &Standing,
        backlog: usize,
    ) -> bool
        ensures notified { result
            ≡ is_notified self.old table.now.attributes row.now standing.entry.now handle
            backlog }
        ensures pending { self.new
            ≡ after_notify self.old table.now.attributes row.now standing.entry.now handle }
        ensures room { OnTrue result (backlog < MAX_BACKLOG) }
        ensures value { OnTrue result (is_value_at table.now.attributes handle ≡ true) }
    {
        match Raised::of(table, handle) {
            Some(raised) => self.raise_value(&raised, row, standing, backlog),
            None => false,
        }
    }
}

#[inline(always)]
#[tactic(auto, using(crate::proofs::Places::places))]
fn wait_once<const ROOM: usize>(waiting: &mut ArrayVec<u16, ROOM>, handle: u16)
    requires places { HaveOnePlace waiting.old.items }
    requires fits { has_room_to_wait ROOM waiting.old.items handle ≡ true }
    requires used { 0 < handle }
    requires most { handle ≤ MAX_ATTRIBUTES }
    ensures waits { waiting.new.items ≡ with_handle waiting.old.items handle }
    ensures places { HaveOnePlace waiting.new.items }
{
    if !is_waiting(waiting.as_slice(), handle) {
        waiting.push(handle);
    }
}

fn is_waiting(waiting: &[u16], handle: u16) -> bool
    ensures { result ≡ is_waiting waiting.now handle }
{
    waiting.iter().any(|other| *other == handle)
}

/// Removes handles up to the first that must be indicated, and returns that one.
#[inline(always)]
fn take_due<const ROOM: usize>(
    waiting: &mut ArrayVec<u16, ROOM>,
    table: &Table,
    row: &ConfigRow,
    standing: &Standing,
) -> Option<u16>
    requires { HaveOnePlace waiting.old.items }
    ensures due { result ≡ first_handle (from_due
        (is_indicated table.now.attributes row.now standing.entry.now) waiting.old.items) }
    ensures rest { waiting.new.items ≡ rest_of (from_due
        (is_indicated table.now.attributes row.now standing.entry.now) waiting.old.items) }
    ensures value { IfSome result (λ handle. is_value_at table.now.attributes handle ≡ true) }
    ensures places { HaveOnePlace waiting.new.items }
{
    for _taken in 0..waiting.len() {
        let handle = waiting.remove(0);
        if is_indicated(table, row, standing, handle) {
            return Some(handle);
        }
    }
    None
}
