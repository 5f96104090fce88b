//! Running the lines of a script.

ghost use Rattle.std.specs.Prelude.{◌≡◌, ◌≤◌, true, length, IfErr, IfOk, IsOk, OnOk};
ghost use Rattle.std.specs.List.{All};
ghost use Rattle.gatt_host.specs.HostModel.{all_out};
ghost use Rattle.scripts.specs.Phones.{HasNamedPhones, IsOfPhoneBelow};
ghost use Rattle.gatt_commands.specs.Echo.{shown_behind, shown_of};
ghost use Rattle.gatt_commands.specs.Faults.{IsRunFault};
ghost use Rattle.gatt_commands.specs.Runs.{EndsAmong, EndsAtLine, EndsAtNext, EndsEarly, Runs, RunsAll, RunsLine, RunsNext};
ghost use Rattle.scripts.specs.declared.script.TheConstants.{MAX_PHONES};

use crate::acts::do_act;
use crate::exchange::exchange;
use crate::notes::Notes;
use crate::script_text::{Shown, echo};
use crate::stage::Stage;
use crate::told::print_line;
use scripts::{Act, Name, Script};
use shell_files::ShellFault;
use std::alloc::Global;
use std::io::Write;

/// Runs the lines of a script after all packets of host and controller.
pub(crate) fn run_lines<W: Write>(
    alloc: Global,
    stage: &mut Stage,
    script: &Script<'_>,
    shown: Shown<'_>,
    writer: &mut W,
) -> Result<(), ShellFault>
    requires { HasNamedPhones script.now }
    ensures runs { OnOk result
        (RunsAll (shown_of shown.entry) script.now stage.old stage.new
        (W.contents writer.old) (W.contents writer.new)) }
    ensures ends { IfErr result
        (λ fault. EndsEarly fault (shown_of shown.entry) script.now stage.old stage.new
        (W.contents writer.old) (W.contents writer.new)) }
    ensures faults { IfErr result IsRunFault }
{
    let mut notes = Notes::new(alloc, false);
    exchange(&mut stage.host, &mut stage.sim, &mut notes)?;
    run_acts(alloc, stage, script.names(), script.acts(), shown, writer)
}

fn run_acts<W: Write>(
    alloc: Global,
    stage: &mut Stage,
    names: &[Name<'_>],
    acts: &[Act<'_>],
    shown: Shown<'_>,
    writer: &mut W,
) -> Result<(), ShellFault>
    requires few { length names.now ≤ MAX_PHONES }
    requires named { All (IsOfPhoneBelow (length names.now)) acts.now }
    requires drained { all_out stage.old.host ≡ true }
    ensures runs { OnOk result
        (Runs (shown_of shown.entry) names.now acts.now stage.old stage.new
        (W.contents writer.old) (W.contents writer.new)) }
    ensures ends { IfErr result
        (λ fault. EndsAmong fault (shown_of shown.entry) names.now acts.now stage.old stage.new
        (W.contents writer.old) (W.contents writer.new)) }
    ensures faults { IfErr result IsRunFault }
{
    let mut left = shown;
    for act in acts {
        left = run_next(alloc, stage, names, act, left, writer)?;
    }
    Ok(())
}

/// Prints a line if lines are shown, then runs it. Returns what is left to show.
fn run_next<'a, W: Write>(
    alloc: Global,
    stage: &mut Stage,
    names: &[Name<'_>],
    act: &Act<'_>,
    shown: Shown<'a>,
    writer: &mut W,
) -> Result<Shown<'a>, ShellFault>
    requires few { length names.now ≤ MAX_PHONES }
    requires named { IsOfPhoneBelow (length names.now) act.now }
    requires drained { all_out stage.old.host ≡ true }
    ensures runs { OnOk result
        (RunsNext (shown_of shown.entry) names.now act.now stage.old stage.new
        (W.contents writer.old) (W.contents writer.new)) }
    ensures left { IfOk result (λ left. shown_of left ≡ shown_behind (shown_of shown.entry)) }
    ensures ends { IfErr result
        (λ fault. EndsAtNext fault (shown_of shown.entry) names.now act.now stage.old stage.new
        (W.contents writer.old) (W.contents writer.new)) }
    ensures drained { IsOk result → all_out stage.new.host ≡ true }
    ensures faults { IfErr result IsRunFault }
{
    let lines = echo(shown.lines, writer)?;
    run_line(alloc, stage, names, act, shown.notices, writer)?;
    Ok(Shown { lines, ..shown })
}

/// Runs a line, exchanges all packets, and prints the outcome and shown notices.
fn run_line<W: Write>(
    alloc: Global,
    stage: &mut Stage,
    names: &[Name<'_>],
    act: &Act<'_>,
    notices: bool,
    writer: &mut W,
) -> Result<(), ShellFault>
    requires few { length names.now ≤ MAX_PHONES }
    requires named { IsOfPhoneBelow (length names.now) act.now }
    requires drained { all_out stage.old.host ≡ true }
    ensures runs { OnOk result (RunsLine notices names.now act.now stage.old stage.new
        (W.contents writer.old) (W.contents writer.new)) }
    ensures ends { IfErr result
        (λ fault. EndsAtLine fault notices names.now act.now stage.old stage.new
        (W.contents writer.old) (W.contents writer.new)) }
    ensures drained { IsOk result → all_out stage.new.host ≡ true }
    ensures faults { IfErr result IsRunFault }
{
    let mut notes = Notes::new(alloc, notices);
    let refused = do_act(stage, act, &mut notes);
    exchange(&mut stage.host, &mut stage.sim, &mut notes)?;
    if notes.is_refused {
        return Err(ShellFault::Memory);
    }
    print_line(&mut stage.sim, names, refused, &notes, writer)
}
