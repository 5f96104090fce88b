//! Scripts as inputs.

ghost use Rattle.std.specs.Prelude.{◌≡◌, IfErr, IfOk};
ghost use Rattle.octet_io.specs.Memory.{Gives};
ghost use Rattle.scripts.specs.Phones.{HasNamedPhones};
ghost use Rattle.shell_files.specs.ScriptFile.{script_in, IsScriptRefusal};

use crate::fault::ShellFault;
use scripts::{Script, ScriptFault};
use std::alloc::Global;
use std::str;

/// Reads a script. Errors: `Script` with the first bad line, from 1, or `Memory`.
///
/// Line 1 is bad if the script is not UTF-8, and a replacement is bad without a table to replace by
/// (`has_next`).
pub fn judged_script<'a>(
    alloc: Global,
    octets: &'a [u8],
    has_next: bool,
) -> Result<Script<'a>, ShellFault>
    ensures script { IfOk result (λ script. script_in has_next octets.now ≡ Ok script) }
    ensures phones { IfOk result HasNamedPhones }
    ensures refused { IfErr result (IsScriptRefusal has_next octets.now) }
{
    match script_in(alloc, octets, has_next) {
        Ok(script) => Ok(script),
        Err(ScriptFault::BadLine(number)) => Err(ShellFault::Script(number)),
        Err(ScriptFault::OutOfMemory) => Err(ShellFault::Memory),
    }
}

#[tactic(auto, using(octet_io::proofs::Texts::of_text, octet_io::proofs::Texts::of_no_text), unfolding(crate::specs::ScriptFile::script_in))]
fn script_in<'a>(alloc: Global, octets: &'a [u8], has_next: bool) -> Result<Script<'a>, ScriptFault>
    ensures script { Gives ScriptFault.OutOfMemory (script_in has_next octets.now) result }
    ensures phones { IfOk result HasNamedPhones }
{
    match str::from_utf8(octets) {
        Ok(text) => Script::read(alloc, text, has_next),
        Err(_) => Err(ScriptFault::BadLine(1)),
    }
}
