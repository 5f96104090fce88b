//! The changes of a host, saved or not. Times are milliseconds.

ghost use Rattle.std.specs.Prelude.{◌≡◌};
ghost use Rattle.device_host.specs.Changes.{is_all_saved, is_made, retry_of, with_change};

#[derive(Clone, Copy)]
pub enum Changes {
    /// Nothing has changed since the last save.
    Saved,
    /// Something has changed since the last save.
    Due,
    /// The last save failed. The next one is made at this time.
    Failing(u64),
}

impl Changes {
    /// Returns the state after another change.
    pub fn with_change(self) -> Changes
        ensures { result ≡ with_change self }
    {
        match self {
            Changes::Saved | Changes::Due => Changes::Due,
            Changes::Failing(retry) => Changes::Failing(retry),
        }
    }

    /// Returns true if a save is made at this time.
    pub fn is_made(self, now: u64) -> bool
        ensures { result ≡ is_made now self }
    {
        match self {
            Changes::Saved => false,
            Changes::Due => true,
            Changes::Failing(retry) => retry <= now,
        }
    }

    /// Returns the time of the next save, if it must wait.
    pub fn retry(self) -> Option<u64>
        ensures { result ≡ retry_of self }
    {
        match self {
            Changes::Saved | Changes::Due => None,
            Changes::Failing(retry) => Some(retry),
        }
    }

    /// Returns true if nothing has changed since the last save.
    pub fn are_saved(self) -> bool
        ensures { result ≡ is_all_saved self }
    {
        match self {
            Changes::Saved => true,
            Changes::Due | Changes::Failing(_) => false,
        }
    }
}
