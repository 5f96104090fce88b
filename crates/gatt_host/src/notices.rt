//! The notices of the last event, computed from the host state.

ghost use Rattle.std.specs.Prelude.{◌≡◌, ℕ, ◌<◌, ◌≤◌, ◌==◌, [], ◌∷◌, ◌++◌, length, map, if◌then◌else◌, slice_get, is_some, IfSome, IsSome, Some, None};
ghost use Rattle.std.specs.Option.{option_map, option_to_list};
ghost use Rattle.att_numbers.specs.Types.{Handle};
ghost use Rattle.att_attributes.specs.Attributes.{attribute_at};
ghost use Rattle.att_table.specs.Table.{value_at};
ghost use Rattle.gatt_laws.specs.machine.Notice.{Confirmed, Ending, TimedOut, write_told};
ghost use Rattle.gatt_laws.specs.machine.Effect.{remote_user_terminated};
ghost use Rattle.gatt_host.specs.Notices.{last_notices, link_change_told, notice_of, notices_by, row_at_place, served_told, skip_told, HasTheValue};

use crate::last_event::LastEvent;
use crate::server::Server;
use att_policy::KeyFacts;
use att_table::{Role, Table};
use host_api::Notice;
use host_connections::Brought;
use le_hci::reason::{AUTHENTICATION_FAILURE, REMOTE_USER_TERMINATED};

impl Server {
    /// Returns the notice at this index, counted from 0: first those of the event, then those of
    /// skipped values.
    pub(crate) fn notice(&self, at: usize) -> Option<Notice<'_>>
        ensures notice { option_map notice_of result ≡ slice_get (last_notices self.now) at }
        ensures value { IfSome result (HasTheValue self.now.table) }
        ensures few { IsSome result → at < 290 }
    {
        match self.event_notice(at) {
            Some(notice) => Some(notice),
            None => self.skip_notice(at - self.event_count()),
        }
    }

    fn skip_notice(&self, at: usize) -> Option<Notice<'_>>
        ensures notice { option_map notice_of result
            ≡ slice_get (map skip_told self.now.skipped) at }
        ensures value { IfSome result (HasTheValue self.now.table) }
        ensures few { IsSome result → at < 256 }
    {
        let _few = self.skipped.len();
        match self.skipped.get(at) {
            Some(skipped) => Some(Notice::Skipped {
                handle: skipped.handle,
                attribute: skipped.attribute,
            }),
            None => None,
        }
    }

    fn event_count(&self) -> usize
        ensures count { result ≡ length (notices_by self.now self.now.last) }
        ensures few { result ≤ 34 }
    {
        match self.last {
            LastEvent::Quiet => 0,
            LastEvent::Connected { .. }
            | LastEvent::Disconnected { .. }
            | LastEvent::Ended { .. } => 1,
            LastEvent::LinkChanged { before, after, .. } => link_count(before, after),
            LastEvent::Served { brought, .. } => self.written.len() + brought_count(brought),
            LastEvent::Ticked => self.late.len(),
        }
    }

    /// Returns the notice of the event itself at this index.
    fn event_notice(&self, at: usize) -> Option<Notice<'_>>
        ensures notice { option_map notice_of result
            ≡ slice_get (notices_by self.now self.now.last) at }
        ensures value { IfSome result (HasTheValue self.now.table) }
        ensures few { IsSome result → at < 34 }
    {
        match self.last {
            LastEvent::Quiet => None,
            LastEvent::Connected { handle, peer } => only(at, Notice::Connected { handle, peer }),
            LastEvent::Disconnected { handle } => only(at, Notice::Disconnected { handle }),
            LastEvent::LinkChanged {
                handle,
                before,
                after,
            } => link_notice(at, handle, before, after),
            LastEvent::Served {
                place,
                handle,
                brought,
            } => self.served_notice(at, place, handle, brought),
            LastEvent::Ended { handle, reason } => only(at, Notice::Ending { handle, reason }),
            LastEvent::Ticked => self.late_notice(at),
        }
    }

    fn late_notice(&self, at: usize) -> Option<Notice<'_>>
        ensures notice { option_map notice_of result ≡ slice_get (map TimedOut self.now.late) at }
        ensures value { IfSome result (HasTheValue self.now.table) }
        ensures few { IsSome result → at < 34 }
    {
        let _few = self.late.len();
        match self.late.get(at) {
            Some(handle) => Some(Notice::TimedOut { handle: *handle }),
            None => None,
        }
    }

    /// Returns the notice of a served connection at this index: its writes first.
    fn served_notice(
        &self,
        at: usize,
        place: usize,
        handle: u16,
        brought: Brought,
    ) -> Option<Notice<'_>>
        ensures notice { option_map notice_of result
            ≡ slice_get (served_told self.now place handle brought) at }
        ensures value { IfSome result (HasTheValue self.now.table) }
        ensures few { IsSome result → at < 34 }
    {
        let _few = self.written.len();
        match self.written.get(at) {
            Some(attribute) => Some(self.write_notice(place, handle, *attribute)),
            None => brought_notice(at - self.written.len(), handle, brought),
        }
    }

    fn write_notice(&self, place: usize, handle: u16, attribute: u16) -> Notice<'_>
        ensures notice { notice_of result
            ≡ write_told self.now.table.attributes (row_at_place self.now place) handle
            attribute }
        ensures value { HasTheValue self.now.table result }
    {
        match self.table.get(attribute) {
            Some(attr) if attr.role == Role::Configuration => Notice::Configured {
                handle,
                attribute,
                bits: self.slots.bits(place, &self.rows, attribute),
            },
            _ => Notice::Written {
                handle,
                attribute,
                value: value_at(&self.table, attribute),
            },
        }
    }
}

fn value_at(table: &Table, handle: u16) -> &[u8]
    ensures { result.now ≡ (if is_some (attribute_at table.now.attributes handle)
        then value_at table.now.values handle else []) }
{
    match table.get(handle) {
        Some(_) => table.value(handle),
        None => &[],
    }
}

fn only(at: usize, notice: Notice<'_>) -> Option<Notice<'_>>
    ensures notice { result ≡ (if at == 0 then Some notice.entry else None) }
    ensures few { IsSome result → at < 1 }
{
    if at == 0 { Some(notice) } else { None }
}

fn link_notice(
    at: usize,
    handle: u16,
    before: Option<KeyFacts>,
    after: Option<KeyFacts>,
) -> Option<Notice<'static>>
    ensures notice { option_map notice_of result
        ≡ slice_get (link_change_told handle before after) at }
    ensures few { IsSome result → at < 2 }
{
    match (before, after) {
        (None, None) => None,
        (None, Some(facts)) => only(at, Notice::Secured { handle, facts }),
        (Some(before), Some(facts)) => {
            if before == facts {
                None
            } else {
                only(at, Notice::Secured { handle, facts })
            }
        }
        (Some(_), None) => match at {
            0 => Some(Notice::Unsecured { handle }),
            1 => Some(Notice::Ending {
                handle,
                reason: AUTHENTICATION_FAILURE,
            }),
            _ => None,
        },
    }
}

fn link_count(before: Option<KeyFacts>, after: Option<KeyFacts>) -> usize
    ensures count { (handle : ℕ) → result ≡ length (link_change_told handle before after) }
    ensures few { result ≤ 2 }
{
    match (before, after) {
        (None, None) => 0,
        (None, Some(_)) => 1,
        (Some(before), Some(after)) => usize::from(before != after),
        (Some(_), None) => 2,
    }
}

fn brought_count(brought: Brought) -> usize
    ensures count { (handle : ℕ) → result
        ≡ length (map (Confirmed handle) (option_to_list brought.confirmed)
        ++ (if brought.ended then Ending handle remote_user_terminated ∷ [] else [])) }
    ensures few { result ≤ 2 }
{
    usize::from(brought.confirmed.is_some()) + usize::from(brought.ended)
}

/// Returns the notice at this index of a request's effects, except its writes.
fn brought_notice(at: usize, handle: u16, brought: Brought) -> Option<Notice<'static>>
    ensures notice { option_map notice_of result
        ≡ slice_get (map (Confirmed handle) (option_to_list brought.confirmed)
        ++ (if brought.ended then Ending handle remote_user_terminated ∷ [] else [])) at }
    ensures few { IsSome result → at < 2 }
{
    let ending = Notice::Ending {
        handle,
        reason: REMOTE_USER_TERMINATED,
    };
    match (brought.confirmed, brought.ended) {
        (None, false) => None,
        (None, true) => only(at, ending),
        (Some(attribute), false) => only(at, Notice::Confirmed { handle, attribute }),
        (Some(attribute), true) => match at {
            0 => Some(Notice::Confirmed { handle, attribute }),
            1 => Some(ending),
            _ => None,
        },
    }
}
