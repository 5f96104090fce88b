//! Iteration over the notices of a host's last input.

ghost use Rattle.std.specs.Prelude.{length};
ghost use Rattle.std.specs.Iterator.{at_most};
ghost use Rattle.gatt_host.specs.Telling.{GivesTheFirst, Untold};

use crate::host::Host;
use host_api::Notice;
use std::iter::FusedIterator;
use std::marker::Model;

/// Iterator over the notices of the last input.
#[derive(Drop)]
pub struct Notices<'a> {
    pub(crate) host: &'a Host,
    pub(crate) given: usize,
}

impl<'a> Model for Notices<'a> {
    ghost use Rattle.std.specs.Prelude.{drop};
    ghost use Rattle.gatt_host.specs.Telling.{notices_told, Untold};

    ghost Value = { Untold };

    ghost view = { λ n. record {
      notices = drop n.given (notices_told n.host.now);
      table = n.host.now.server.table;
    } };
}

impl<'a> Iterator for Notices<'a> {
    type Item = Notice<'a>;

    ghost next_gives = { GivesTheFirst };

    ghost remaining = { λ untold. at_most (length untold.notices) };

    fn next(&mut self) -> Option<Notice<'a>> {
        let notice = self.host.notice(self.given)?;
        self.given += 1;
        Some(notice)
    }
}

impl<'a> FusedIterator for Notices<'a> {}
