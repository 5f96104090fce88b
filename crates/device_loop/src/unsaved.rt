//! The connections with unsaved changes.

ghost use Rattle.std.specs.Prelude.{◌≡◌, ◌<◌, ◌≤◌, [], length};
ghost use Rattle.gatt_host.specs.Notices.{notice_of};
ghost use Rattle.device_loop.specs.Unsaved.{has_connection, unsaved_after, with_connection, without_connection, FollowsTheNotices, HoldsWhoHasChanged};
ghost use Rattle.host_api.specs.declared.TheConstants.{MAX_SLOTS};

use arrayvec::ArrayVec;
use gatt_host::{MAX_SLOTS, Notice};
use std::marker::Model;

/// Handles of the connections that changed saved state since the last save.
#[derive(Drop)]
pub struct Unsaved {
    handles: ArrayVec<u16, MAX_SLOTS>,
}

impl Model for Unsaved {
    ghost use Rattle.std.specs.Prelude.{ℕ, List};

    ghost Value = { List ℕ };

    ghost view = { λ unsaved. unsaved.handles.items };
}

impl Unsaved {
    /// Creates an empty set.
    pub fn new() -> Unsaved
        ensures none { result ≡ [] }
    {
        Unsaved {
            handles: ArrayVec::new(),
        }
    }

    /// Updates the set by a notice. Adds the connection of a `Written`, `Configured` or
    /// `Confirmed`, and removes that of a `Disconnected`. A connection beyond `MAX_SLOTS` is not
    /// added, which the notices of one host never cause.
    pub fn hear(&mut self, notice: &Notice<'_>)
        // The set follows the notice, if it has then no more connections than a host may have.
        ensures after { length (unsaved_after self.old (notice_of notice.now)) ≤ MAX_SLOTS
            → self.new ≡ unsaved_after self.old (notice_of notice.now) }
        // Else it stays as it was.
        ensures full { MAX_SLOTS < length (unsaved_after self.old (notice_of notice.now))
            → self.new ≡ self.old }
        ensures since { FollowsTheNotices self.old self.new (notice_of notice.now) }
    {
        match *notice {
            Notice::Written { handle, .. }
            | Notice::Configured { handle, .. }
            | Notice::Confirmed { handle, .. } => add(&mut self.handles, handle),
            Notice::Disconnected { handle } => remove(&mut self.handles, handle),
            _ => {}
        }
    }

    /// Removes all connections after everything was saved.
    pub fn clear(&mut self)
        ensures none { self.new ≡ [] }
    {
        self.handles.clear();
    }

    /// Returns true if the set contains the connection with this handle.
    pub fn has(&self, handle: u16) -> bool
        ensures has { result ≡ has_connection self.now handle }
        // For all notices:
        ensures who { HoldsWhoHasChanged }
    {
        self.handles.as_slice().contains(&handle)
    }

    /// Returns the handles, each once, in the order of their first changes.
    pub fn handles(&self) -> ArrayVec<u16, MAX_SLOTS>
        // Each connection once, in the order of the first changes.
        ensures all { result.items ≡ self.now }
    {
        let mut handles = ArrayVec::new();
        handles
            .try_extend_from_slice(self.handles.as_slice())
            .unwrap();
        handles
    }
}

fn add(handles: &mut ArrayVec<u16, MAX_SLOTS>, handle: u16)
    ensures after { length (with_connection handles.old.items handle) ≤ MAX_SLOTS
        → handles.new.items ≡ with_connection handles.old.items handle }
    ensures full { MAX_SLOTS < length (with_connection handles.old.items handle)
        → handles.new.items ≡ handles.old.items }
{
    if !handles.as_slice().contains(&handle) && !handles.is_full() {
        handles.push(handle);
    }
}

fn remove(handles: &mut ArrayVec<u16, MAX_SLOTS>, handle: u16)
    ensures after { handles.new.items ≡ without_connection handles.old.items handle }
    ensures few { length (without_connection handles.old.items handle) ≤ MAX_SLOTS }
{
    let _few = handles.len();
    handles.retain(|connection| *connection != handle);
}
