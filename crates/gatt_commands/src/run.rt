//! The command `run`, by its inputs.

ghost use Rattle.std.specs.Prelude.{◌≡◌, ◌≢◌, ◌⊎◌, ℕ, is_some, Err, IfErr, IfSome, IsOk};
ghost use Rattle.std.specs.Option.{option_map};
ghost use Rattle.scripts.specs.declared.script_fault.ScriptFault.TheVariants.{BadLine};
ghost use Rattle.scripts.specs.Phones.{HasNamedPhones};
ghost use Rattle.shell_files.specs.KeyFile.{keys_out_of_memory, keys_in, KeysAreRefusedAs};
ghost use Rattle.gatt_commands.specs.Echo.{shown_of};
ghost use Rattle.gatt_commands.specs.Faults.{IsRunCommandFault, IsRunFault, IsScriptRunFault};
ghost use Rattle.gatt_commands.specs.Loop.{ClosesTheLoop};
ghost use Rattle.shell_files.specs.RowsFile.{rows_out_of_memory, rows_in, RowsAreRefusedAs};
ghost use Rattle.gatt_commands.specs.Runs.{HostRuns, RunsFile, RunsFiles, ShowsNothingUnasked, files_of};
ghost use Rattle.shell_files.specs.ScriptFile.{script_in};
ghost use Rattle.shell_files.specs.TableFile.{table_out_of_memory, table_in, TableIsRefusedAs};
ghost use Rattle.shell_files.specs.Turns.{IsPast, OfTable, OfNext, OfKeys, OfRows, OfScript};

use crate::lines::run_lines;
use crate::mtu::RxMtu;
use crate::script_text::{Shown, Shows, shown_text};
use crate::stage::{Stage, open_stage};
use att_table::Table;
use gatt_subs::Rows;
use le_security::Keys;
use scripts::Script;
use shell_files::{
    RowsStore, ShellFault, judged_script, read_all, read_keys, read_next, read_rows, read_table,
    save_after,
};
use std::alloc::Global;
use std::io::{Read, Write};

/// Runs a script with a host over a simulated controller, and saves subscriptions.
///
/// Reads table, replacing table, keys, subscriptions and script in this order, each only if those
/// before it are accepted. `shows` selects the output besides the frames of clients. The host can
/// receive PDUs of `rx_mtu` octets.
pub fn run_script<T: Read, N: Read, K: Read, R: Read, S: Read, V: RowsStore, W: Write>(
    alloc: Global,
    table: &mut T,
    next: &mut Option<N>,
    keys: &mut K,
    rows: &mut R,
    script: &mut S,
    store: &mut V,
    shows: Shows,
    rx_mtu: RxMtu,
    writer: &mut W,
) -> Result<(), ShellFault>
    // A file is refused by the number of its first fault, or by that of refused memory.
    ensures table { (number : ℕ) → result ≡ Err (ShellFault.Table number)
        → number ≢ table_out_of_memory
        → IfSome (T.remaining table.old) (λ octets. TableIsRefusedAs number (table_in octets)) }
    ensures next { (number : ℕ) → result ≡ Err (ShellFault.Next number)
        → number ≢ table_out_of_memory
        → IfSome next.old (λ file. IfSome (N.remaining file)
        (λ octets. TableIsRefusedAs number (table_in octets))) }
    ensures keys { (number : ℕ) → result ≡ Err (ShellFault.Keys number)
        → number ≢ keys_out_of_memory
        → IfSome (K.remaining keys.old) (λ octets. KeysAreRefusedAs number (keys_in octets)) }
    ensures rows { (number : ℕ) → result ≡ Err (ShellFault.Rows number)
        → number ≢ rows_out_of_memory
        → IfSome (R.remaining rows.old) (λ octets. RowsAreRefusedAs number (rows_in octets)) }
    ensures script { (line : ℕ) → result ≡ Err (ShellFault.Script line)
        → IfSome (S.remaining script.old)
        (λ octets. script_in (is_some next.old) octets ≡ Err (BadLine line)) }
    // The files are accepted in the order table, next, keys, rows, script, before the run begins.
    ensures table_first { IsPast OfTable result
        → IfSome (T.remaining table.old) (λ octets. IsOk (table_in octets)) }
    ensures next_second { IsPast OfNext result
        → IfSome next.old (λ file. IfSome (N.remaining file)
        (λ octets. IsOk (table_in octets))) }
    ensures keys_third { IsPast OfKeys result
        → IfSome (K.remaining keys.old) (λ octets. IsOk (keys_in octets)) }
    ensures rows_fourth { IsPast OfRows result
        → IfSome (R.remaining rows.old) (λ octets. IsOk (rows_in octets)) }
    ensures script_last { IsPast OfScript result
        → IfSome (S.remaining script.old)
        (λ octets. IsOk (script_in (is_some next.old) octets)) }
    // The script is then run up to its end or a fault, and the store is asked to save.
    ensures runs { IsPast OfScript result → RunsFiles result shows rx_mtu
        (files_of (T.remaining table.old) (option_map N.remaining next.old)
        (K.remaining keys.old) (R.remaining rows.old) (S.remaining script.old))
        (W.contents writer.old) (W.contents writer.new)
        (V.saves store.old) (V.saves store.new) }
    // Before the run nothing is saved or printed; memory may be refused before or in it.
    ensures unbegun { ((store.new ≡ store.old) × (writer.new ≡ writer.old))
        ⊎ RunsFiles result shows rx_mtu
        (files_of (T.remaining table.old) (option_map N.remaining next.old)
        (K.remaining keys.old) (R.remaining rows.old) (S.remaining script.old))
        (W.contents writer.old) (W.contents writer.new)
        (V.saves store.old) (V.saves store.new) }
    ensures faults { IfErr result IsRunCommandFault }
    ensures unasked { ShowsNothingUnasked }
    ensures closed { ClosesTheLoop }
{
    let table = read_table(alloc, table)?;
    let next = read_next(alloc, next)?;
    let keys = read_keys(alloc, keys)?;
    let rows = read_rows(alloc, rows)?;
    run_files(
        alloc, table, next, keys, rows, script, store, shows, rx_mtu, writer,
    )
}

fn run_files<S: Read, V: RowsStore, W: Write>(
    alloc: Global,
    table: Table,
    next: Option<Table>,
    keys: Keys,
    rows: Rows,
    script: &mut S,
    store: &mut V,
    shows: Shows,
    rx_mtu: RxMtu,
    writer: &mut W,
) -> Result<(), ShellFault>
    ensures runs { IsPast OfScript result → RunsFile result shows rx_mtu table next keys rows
        (S.remaining script.old) (W.contents writer.old) (W.contents writer.new)
        (V.saves store.old) (V.saves store.new) }
    ensures unbegun { ((store.new ≡ store.old) × (writer.new ≡ writer.old))
        ⊎ RunsFile result shows rx_mtu table next keys rows
        (S.remaining script.old) (W.contents writer.old) (W.contents writer.new)
        (V.saves store.old) (V.saves store.new) }
    ensures script { (line : ℕ) → result ≡ Err (ShellFault.Script line)
        → IfSome (S.remaining script.old)
        (λ octets. script_in (is_some next) octets ≡ Err (BadLine line)) }
    ensures script_last { IsPast OfScript result
        → IfSome (S.remaining script.old) (λ octets. IsOk (script_in (is_some next) octets)) }
    ensures faults { IfErr result IsScriptRunFault }
{
    let octets = read_all(alloc, script)?;
    let text = octets.as_slice();
    run_text(
        alloc, table, next, keys, rows, text, store, shows, rx_mtu, writer,
    )
}

fn run_text<V: RowsStore, W: Write>(
    alloc: Global,
    table: Table,
    next: Option<Table>,
    keys: Keys,
    rows: Rows,
    text: &[u8],
    store: &mut V,
    shows: Shows,
    rx_mtu: RxMtu,
    writer: &mut W,
) -> Result<(), ShellFault>
    ensures runs { IsPast OfScript result → RunsFile result shows rx_mtu table next keys rows
        (Some text.now) (W.contents writer.old) (W.contents writer.new)
        (V.saves store.old) (V.saves store.new) }
    ensures unbegun { ((store.new ≡ store.old) × (writer.new ≡ writer.old))
        ⊎ RunsFile result shows rx_mtu table next keys rows
        (Some text.now) (W.contents writer.old) (W.contents writer.new)
        (V.saves store.old) (V.saves store.new) }
    ensures script { (line : ℕ) → result ≡ Err (ShellFault.Script line)
        → script_in (is_some next) text.now ≡ Err (BadLine line) }
    ensures script_last { IsPast OfScript result → IsOk (script_in (is_some next) text.now) }
    ensures faults { IfErr result IsScriptRunFault }
{
    let script = judged_script(alloc, text, next.is_some())?;
    let mut stage = open_stage(alloc, table, next, keys, rows, rx_mtu)?;
    let shown = Shown {
        notices: shows.notices,
        lines: shown_text(text, shows.lines),
    };
    let ran = run_host(alloc, &mut stage, &script, store, shown, writer);
    drop(stage);
    ran
}

/// Runs a script, then saves the subscriptions. A fault of the run precedes one of the store.
fn run_host<V: RowsStore, W: Write>(
    alloc: Global,
    stage: &mut Stage,
    script: &Script<'_>,
    store: &mut V,
    shown: Shown<'_>,
    writer: &mut W,
) -> Result<(), ShellFault>
    requires { HasNamedPhones script.now }
    ensures runs { HostRuns result (shown_of shown.entry) script.now stage.old stage.new
        (W.contents writer.old) (W.contents writer.new)
        (V.saves store.old) (V.saves store.new) }
    ensures faults { IfErr result IsRunFault }
{
    let ran = run_lines(alloc, stage, script, shown, writer);
    save_after(ran, stage.host.rows(), store)
}
