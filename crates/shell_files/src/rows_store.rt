//! The store of the subscriptions at the end of a run.

ghost use Rattle.std.specs.Prelude.{◌≡◌, List, Option, None, Ok, Err, IfErr};
ghost use Rattle.std.specs.Result.{is_ok};
ghost use Rattle.gatt_subs.specs.RowsText.{rows_text};
ghost use Rattle.shell_files.specs.declared.fault.ShellFault.{ShellFault};
ghost use Rattle.shell_files.specs.Saving.{Save, Saves, SavesAfter};

use crate::fault::ShellFault;
use gatt_subs::Rows;

/// A store of the subscriptions at the end of a run.
pub trait RowsStore {
    /// The texts it had to save, and whether it did, if known.
    ghost saves: { Self → Option (List Save) } = { λ store. None };

    /// Saves subscriptions, or returns `Unwritten`.
    fn save(&mut self, rows: &Rows) -> Result<(), ShellFault>
        ensures saves { Saves (rows_text rows.now) (is_ok result) (saves self.old)
            (saves self.new) }
        ensures faults { IfErr result (λ fault. fault ≡ ShellFault.Unwritten) };
}

/// Saves subscriptions after a run that ended as `ran` says.
///
/// The fault of `ran` precedes that of the store, `Unwritten`.
pub fn save_after<S: RowsStore>(
    ran: Result<(), ShellFault>,
    rows: &Rows,
    store: &mut S,
) -> Result<(), ShellFault>
    ensures fault { (fault : ShellFault) → ran ≡ Err fault → result ≡ Err fault }
    ensures unwritten { ran ≡ Ok tt → IfErr result (λ fault. fault ≡ ShellFault.Unwritten) }
    ensures saves { SavesAfter ran result (rows_text rows.now) (S.saves store.old)
        (S.saves store.new) }
{
    let saved = store.save(rows);
    ran?;
    saved
}
