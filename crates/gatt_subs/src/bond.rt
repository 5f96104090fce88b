ghost use Rattle.std.specs.Prelude.{◌≡◌, ◌≤◌, IfSome};
ghost use Rattle.gatt_subs.specs.Changes.{with_changes_owed};
ghost use Rattle.att_numbers.specs.declared.limit.TheConstants.{MAX_ATTRIBUTES};

use crate::fit;
use att_table::ConfigRow;

/// The subscription of a bonded peer.
#[derive(Drop)]
pub struct Bond {
    pub row: ConfigRow,
    /// A Service Changed indication is pending.
    pub owed: bool,
}

impl Bond {
    /// Makes a Service Changed indication pending if the row requests it, else not.
    pub fn owe_changes(&mut self, changer: Option<u16>)
        requires { IfSome changer (λ handle. handle ≤ MAX_ATTRIBUTES) }
        ensures { self.new ≡ with_changes_owed changer self.old }
    {
        self.owed = fit::wants_changes(changer, &self.row);
    }
}
