//! Names of connections, for the device and its application.

ghost use Rattle.std.specs.Prelude.{◌≡◌, ◌+◌, ◌<◌, ℕ, [], is_some, IfSome, IfNone};
ghost use Rattle.app_lines.specs.Names.{AreBelow, handle_of, may_name, name_of, with_name, without_handle};

use arrayvec::ArrayVec;
use host_api::MAX_SLOTS;
use std::marker::Model;

/// A connection and its name.
#[derive(Clone, Copy, Default)]
pub struct Named {
    /// Name, never reused until the device restarts.
    pub name: u64,
    /// HCI handle, which later connections may reuse.
    pub handle: u16,
}

/// Names of the current connections: 1 for the first, and the next number for each later one, also
/// with another controller.
#[derive(Drop)]
pub struct Names {
    named: ArrayVec<Named, MAX_SLOTS>,
    next: u64,
}

impl Model for Names {
    ghost use Rattle.app_lines.specs.Names.{AreBelow};
    ghost use Rattle.app_lines.specs.Names as spec;

    ghost Value = { spec.Names };

    ghost view = { λ names. record { named = names.named.items; next = names.next } };

    ghost invariant = { λ names. AreBelow names.next names.named.items };
}

impl Names {
    /// Creates an empty set, with 1 as the next name.
    pub fn new() -> Names
        ensures none { result.named ≡ [] }
        ensures first { result.next ≡ 1 }
    {
        Names {
            named: ArrayVec::new(),
            next: 1,
        }
    }

    /// Returns a copy.
    pub fn copy(&self) -> Names
        ensures { result ≡ self.now }
    {
        let mut named = ArrayVec::new();
        named.try_extend_from_slice(self.named.as_slice()).unwrap();
        Names {
            named,
            next: self.next,
        }
    }

    /// Names a new connection. An earlier connection with its handle loses its name. Returns `None`
    /// if all numbers were used, or if there are more connections than a host has.
    pub fn connect(&mut self, handle: u16) -> Option<u64>
        ensures given { is_some result ≡ may_name handle self.old }
        ensures name { IfSome result (λ name. name ≡ self.old.next) }
        ensures named { IfSome result (λ name. self.new.named
            ≡ with_name name handle self.old.named) }
        ensures next { IfSome result (λ name. self.new.next ≡ name + 1) }
        ensures refused { IfNone result (self.new.named ≡ without_handle handle self.old.named) }
        ensures stays { IfNone result (self.new.next ≡ self.old.next) }
    {
        remove(&mut self.named, handle);
        let name = self.next;
        let next = name.checked_add(1)?;
        if self.named.is_full() {
            return None;
        }
        self.named.push(Named { name, handle });
        self.next = next;
        Some(name)
    }

    /// Drops the name of a closed connection.
    pub fn disconnect(&mut self, handle: u16)
        ensures named { self.new.named ≡ without_handle handle self.old.named }
        ensures next { self.new.next ≡ self.old.next }
    {
        remove(&mut self.named, handle);
    }

    /// Drops all names, which are not reused, when the controller is gone.
    pub fn forget(&mut self)
        ensures none { self.new.named ≡ [] }
        ensures next { self.new.next ≡ self.old.next }
    {
        self.named.clear();
    }

    /// Returns the name of the connection with this handle.
    pub fn name_of(&self, handle: u16) -> Option<u64>
        ensures name { result ≡ name_of handle self.now.named }
        ensures used { IfSome result (λ name. name < self.now.next) }
    {
        let one = self.named.iter().find(|one| one.handle == handle)?;
        Some(one.name)
    }

    /// Returns the handle of the connection with this name.
    pub fn handle_of(&self, name: u64) -> Option<u16>
        ensures handle { result ≡ handle_of name self.now.named }
        ensures used { IfSome result (λ _. name < self.now.next) }
    {
        let one = self.named.iter().find(|one| one.name == name)?;
        Some(one.handle)
    }
}

fn remove(named: &mut ArrayVec<Named, MAX_SLOTS>, handle: u16)
    ensures others { named.new.items ≡ without_handle handle named.old.items }
    ensures below { (next : ℕ) → AreBelow next named.old.items → AreBelow next named.new.items }
{
    named.retain(|one| one.handle != handle);
}
