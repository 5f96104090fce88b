//! The pointer to a host on the heap, which a program in C keeps.

ghost use Rattle.std.specs.Prelude.{◌≡◌, Option, Some, None, option_map};
ghost use Rattle.std.specs.Borrow.{sem};
ghost use Rattle.std.specs.Coded.{coded_option};
ghost use Rattle.std.specs.Option.{option_copied_mut};
ghost use Rattle.gihandop_c.specs.contracts.opened.Opened.{the_row};
ghost use Rattle.gihandop_c.specs.declared.opened.Opened.{Opened as Open};

use crate::box_parts::BoxParts;
use crate::opened::Opened;
use std::alloc::Global;
use std::marker::Model;
use std::{mem, ptr};

/// The pointer to a host, or null if none is open.
#[repr(C)]
pub struct HostPointer {
    at: *mut u8,
    pub ghost host: { Option Open } by { coded_option the_row.coded },
}

impl Model for HostPointer {
    ghost use Rattle.gihandop_c.specs.contracts.opened.Opened.{the_row};
    ghost use Rattle.gihandop_c.specs.Owned.{owns_the_host};

    ghost also_owns = { λ p. owns_the_host the_row p.at p.host };
}

impl HostPointer {
    ghost use Rattle.gihandop_c.specs.Lending.{LendsTheHost};

    #[inline(always)]
    pub(crate) fn as_mut(&mut self) -> Option<&mut Opened>
        ensures* writes_back { sem 𝓛 (LendsTheHost self.entry result) }
        ensures host { option_copied_mut result ≡ self.old.host }
    {
        let at = self.at as *mut Opened;
        if at.is_null() {
            return None;
        }
        unsafe { Some(&mut *at) }
    }

    fn null() -> HostPointer
        ensures { result.host ≡ None }
    {
        HostPointer {
            at: ptr::null_mut(),
        }
    }

    fn of(parts: BoxParts<Opened, Global>) -> HostPointer
        ensures { result.host ≡ Some parts.value }
    {
        let BoxParts { at, alloc: _ } = parts;
        HostPointer { at: at as *mut u8 }
    }

    fn into_parts(self, alloc: Global) -> Option<BoxParts<Opened, Global>>
        ensures { option_map (λ p. p.value) result ≡ self.host }
    {
        let HostPointer { at } = self;
        let at = at as *mut Opened;
        if at.is_null() {
            None
        } else {
            Some(BoxParts { at, alloc })
        }
    }

    /// Removes and returns the host, if one is open.
    pub(crate) fn take(&mut self, alloc: Global) -> Option<Box<Opened, Global>>
        ensures taken { option_map (λ b. b.value) result ≡ self.old.host }
        ensures none { self.new.host ≡ None }
    {
        let parts = mem::replace(self, HostPointer::null()).into_parts(alloc)?;
        Some(parts.into_box())
    }

    #[inline(always)]
    pub(crate) fn put(&mut self, host: Box<Opened, Global>)
        requires { self.old.host ≡ None }
        ensures { self.new.host ≡ Some host.value }
    {
        let none = mem::replace(self, HostPointer::of(BoxParts::of(host)));
        let HostPointer { at: _ } = none;
    }
}
