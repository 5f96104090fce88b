//! The end of an event: values are notified, and due indications sent.

ghost use Rattle.std.specs.Prelude.{◌≡◌, ℕ, ◌<◌, ◌≤◌, length, [], ◌∷◌, None};
ghost use Rattle.std.specs.Bool.{OnTrue, OnFalse};
ghost use Rattle.std.specs.List.{position};
ghost use Rattle.att_table.specs.Table.{Contents};
ghost use Rattle.att_writes.specs.declared.queue.TheConstants.{MAX_PREPARED};
ghost use Rattle.host_connections.specs.OfTable.{AreOfTable, AreOfTableIfAny};
ghost use Rattle.host_connections.specs.Places.{may_listen};
ghost use Rattle.host_connections.specs.Skips.{all_skipped};
ghost use Rattle.host_connections.specs.Slots.{all_heard};
ghost use Rattle.gatt_subs.specs.Rows.{Subscriptions};

use crate::event_end::{HeardPlaces, indicate_due, notify_all, notify_alone};
use crate::moment::Moment;
use crate::places::{Due, Places, first_due};
use crate::skipped::{Skips, note_all_skips};
use crate::slots::Slots;

impl Slots {
    /// Ends an event: notifies the values `here` to the slot `own` and `handles` to all others,
    /// slot by slot, then sends pending indications. `skipped` then has only the skipped values. If
    /// there are values, the slots must be of the table.
    #[inline(always)]
    pub fn notify(
        &mut self,
        moment: Moment<'_>,
        own: Option<usize>,
        here: &[u16],
        handles: &[u16],
        skipped: &mut Skips,
    )
        requires here { AreOfTableIfAny here.now moment.table.now.attributes
            moment.rows.now self.old }
        requires handles { AreOfTableIfAny handles.now moment.table.now.attributes
            moment.rows.now self.old }
        requires few_here { length here.now ≤ MAX_PREPARED }
        requires few { length handles.now ≤ MAX_PREPARED }
        // Each value is notified or indicated exactly as the definition says.
        ensures heard { self.new
            ≡ all_heard moment.entry.table.now moment.entry.now moment.entry.rows.now own here.now
            handles.now self.old }
        // The skipped values are exactly those of the definition.
        ensures skipped { skipped.new.items
            ≡ all_skipped moment.entry.table.now moment.entry.now moment.entry.rows.now own
            here.now handles.now self.old }
        ensures count { length self.new ≡ length self.old }
    {
        skipped.clear();
        // Most events notify no connection.
        if !self.nobody_hears(own, here, handles) || self.may_wait() {
            self.look_and_notify(moment, own, here, handles, skipped);
        }
    }

    /// Returns true if the marks show that no connection is notified of these values.
    fn nobody_hears(&self, own: Option<usize>, here: &[u16], handles: &[u16]) -> bool
        ensures heard { OnTrue result ((table : Contents) (rows : Subscriptions) (now : ℕ)
            → all_heard table now rows own here.now handles.now self.now
            ≡ all_heard table now rows None [] [] self.now) }
        ensures skipped { OnTrue result ((table : Contents) (rows : Subscriptions) (now : ℕ)
            → all_skipped table now rows own here.now handles.now self.now ≡ []) }
    {
        here.is_empty() && (handles.is_empty() || self.marks.listening.is_empty_but(own))
    }

    /// Cheap check: false means that nothing is indicated.
    fn may_wait(&self) -> bool
        ensures { OnFalse result ((table : Contents) (rows : Subscriptions) (now : ℕ)
            → all_heard table now rows None [] [] self.now ≡ self.now) }
    {
        !self.marks.waiting.is_empty()
    }

    /// Returns the first slot whose connection may be notified, and unmarks those before it.
    fn first_that_listens(&mut self) -> Option<usize>
        ensures place { result ≡ position may_listen self.old }
        ensures unchanged { self.new ≡ self.old }
    {
        first_due(self.slots.as_slice(), Due::Value, &mut self.marks.listening)
    }

    #[inline(never)]
    fn look_and_notify(
        &mut self,
        moment: Moment<'_>,
        own: Option<usize>,
        here: &[u16],
        handles: &[u16],
        skipped: &mut Skips,
    )
        requires here { AreOfTableIfAny here.now moment.table.now.attributes
            moment.rows.now self.old }
        requires handles { AreOfTableIfAny handles.now moment.table.now.attributes
            moment.rows.now self.old }
        requires few_here { length here.now ≤ MAX_PREPARED }
        requires few { length handles.now ≤ MAX_PREPARED }
        requires none { skipped.old.items ≡ [] }
        ensures heard { self.new
            ≡ all_heard moment.entry.table.now moment.entry.now moment.entry.rows.now own here.now
            handles.now self.old }
        ensures skipped { skipped.new.items
            ≡ all_skipped moment.entry.table.now moment.entry.now moment.entry.rows.now own
            here.now handles.now self.old }
        ensures count { length self.new ≡ length self.old }
    {
        let first = self.first_that_listens();
        let another_listens = first.is_some() && first != own;
        if another_listens || !self.nobody_hears(own, here, handles) {
            self.notify_values(moment, own, here, handles, skipped);
        } else if self.may_wait() {
            self.notify_each(moment, None, &[], &[]);
        }
    }

    /// Notifies the values `here` to the connection of slot `own`, and `handles` to the others.
    /// Usually one value is notified, and only to others.
    fn notify_values(
        &mut self,
        moment: Moment<'_>,
        own: Option<usize>,
        here: &[u16],
        handles: &[u16],
        skipped: &mut Skips,
    )
        requires here { AreOfTableIfAny here.now moment.table.now.attributes
            moment.rows.now self.old }
        requires handles { AreOfTableIfAny handles.now moment.table.now.attributes
            moment.rows.now self.old }
        requires few_here { length here.now ≤ MAX_PREPARED }
        requires few { length handles.now ≤ MAX_PREPARED }
        requires none { skipped.old.items ≡ [] }
        ensures heard { self.new
            ≡ all_heard moment.entry.table.now moment.entry.now moment.entry.rows.now own here.now
            handles.now self.old }
        ensures skipped { skipped.new.items
            ≡ all_skipped moment.entry.table.now moment.entry.now moment.entry.rows.now own
            here.now handles.now self.old }
        ensures count { length self.new ≡ length self.old }
    {
        match handles {
            [handle] if here.is_empty() => self.notify_one(moment, own, *handle, skipped),
            _ => {
                note_all_skips(
                    self.slots.as_slice(),
                    self.marks.listening,
                    moment,
                    own,
                    here,
                    handles,
                    skipped,
                );
                self.notify_each(moment, own, here, handles);
            }
        }
    }

    fn notify_one(
        &mut self,
        moment: Moment<'_>,
        own: Option<usize>,
        handle: u16,
        skipped: &mut Skips,
    )
        requires of_table { AreOfTable moment.table.now.attributes moment.rows.now self.old }
        requires none { skipped.old.items ≡ [] }
        ensures heard { self.new
            ≡ all_heard moment.entry.table.now moment.entry.now moment.entry.rows.now own []
            (handle ∷ []) self.old }
        ensures skipped { skipped.new.items
            ≡ all_skipped moment.entry.table.now moment.entry.now moment.entry.rows.now own []
            (handle ∷ []) self.old }
        ensures count { length self.new ≡ length self.old }
    {
        let mut heard = HeardPlaces {
            packets: self.marks.packets,
            waiting: self.marks.waiting,
        };
        let whom = self.marks.listening.without_own(own);
        let slots = self.slots.as_mut_slice();
        notify_alone(slots, &mut heard, moment, whom, handle, skipped);
        indicate_due(slots, &mut heard, moment);
        self.marks.packets = heard.packets;
        self.marks.waiting = heard.waiting;
    }

    #[inline(always)]
    fn notify_each(&mut self, moment: Moment<'_>, own: Option<usize>, here: &[u16], handles: &[u16])
        requires here { AreOfTableIfAny here.now moment.table.now.attributes
            moment.rows.now self.old }
        requires handles { AreOfTableIfAny handles.now moment.table.now.attributes
            moment.rows.now self.old }
        ensures heard { self.new
            ≡ all_heard moment.entry.table.now moment.entry.now moment.entry.rows.now own here.now
            handles.now self.old }
        ensures count { length self.new ≡ length self.old }
    {
        let mut heard = HeardPlaces {
            packets: self.marks.packets,
            waiting: self.marks.waiting,
        };
        let others = self.marks.listening.without_own(own);
        let slots = self.slots.as_mut_slice();
        notify_all(slots, &mut heard, moment, Places::of_own(own), here);
        notify_all(slots, &mut heard, moment, others, handles);
        indicate_due(slots, &mut heard, moment);
        self.marks.packets = heard.packets;
        self.marks.waiting = heard.waiting;
    }
}
