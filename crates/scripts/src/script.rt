//! Whole scripts.

ghost use Rattle.std.specs.Prelude.{◌≡◌, ◌<◌, ◌≤◌, ◌∷◌, [], ◌++◌, length, Ok, Err, IfSome, IfNone, IfOk, OnOk, OnErr};
ghost use Rattle.std.specs.List.{position};
ghost use Rattle.std.specs.Str.{bytes_eq};
ghost use Rattle.octet_io.specs.Memory.{Gives, Leaves};
ghost use Rattle.scripts.specs.declared.script_fault.ScriptFault.TheVariants.{OutOfMemory};
ghost use Rattle.scripts.specs.Phones.{HasNamedPhones};
ghost use Rattle.scripts.specs.Script.{no_acts, phone_number_in, with_name, script_with_said, script_with_line, script_of};

use crate::act::Act;
use crate::line::{Line, read_line};
use crate::name::Name;
use crate::script_fault::ScriptFault;
use std::alloc::{AllocError, Global};
use std::marker::Model;
use text_words::first_line;

/// Maximum number of clients in a script.
pub const MAX_PHONES: usize = 8;

/// The acts of a script, in order.
#[derive(Drop)]
pub struct Script<'a> {
    acts: Vec<Act<'a>>,
    /// The clients' names, by number.
    names: Vec<Name<'a>>,
}

impl<'a> Model for Script<'a> {
    ghost use Rattle.scripts.specs.Phones.{HasNamedPhones};
    ghost use Rattle.scripts.specs.Script.{Acts};

    ghost Value = { Acts };

    ghost view = { λ script. record { acts = script.acts.items; names = script.names.items } };
}

impl<'a> Script<'a> {
    fn new(alloc: Global) -> Self
        ensures { result ≡ no_acts }
    {
        Script {
            acts: Vec::new(alloc),
            names: Vec::new(alloc),
        }
    }

    /// Reads a script, or returns the fault of its first wrong line. A replacement is wrong if
    /// `has_next` is false.
    pub fn read(alloc: Global, text: &'a str, has_next: bool) -> Result<Script<'a>, ScriptFault>
        ensures script { Gives OutOfMemory (script_of has_next text.now) result }
        ensures phones { IfOk result HasNamedPhones }
    {
        Script::read_lines(alloc, text, has_next)
    }

    #[tactic(auto, unfolding(crate::specs::Script::script_of))]
    fn read_lines(alloc: Global, text: &'a str, has_next: bool) -> Result<Script<'a>, ScriptFault>
        ensures { Gives OutOfMemory (script_of has_next text.now) result }
    {
        let mut script = Script::new(alloc);
        let mut rest = text;
        let mut number = 1;
        while let Some((line, behind)) = first_line(rest) {
            script.take_line(has_next, number, line)?;
            rest = behind;
            number += 1;
        }
        script.take_line(has_next, number, rest)?;
        Ok(script)
    }

    /// Returns the acts, in the order of the lines.
    pub fn acts(&self) -> &[Act<'a>]
        ensures { result.now ≡ self.now.acts }
    {
        &self.acts
    }

    /// Returns the clients' names, by number.
    pub fn names(&self) -> &[Name<'a>]
        ensures { result.now ≡ self.now.names }
    {
        &self.names
    }

    fn take_line(&mut self, has_next: bool, number: u64, line: &'a str) -> Result<(), ScriptFault>
        ensures { Leaves OutOfMemory (script_with_line has_next number self.old line.now) result
            self.new }
    {
        if let [] | [b'#', ..] = line.as_bytes() {
            return Ok(());
        }
        let said = read_line(line).ok_or(ScriptFault::BadLine(number))?;
        self.take(has_next, number, said)
    }

    fn take(&mut self, has_next: bool, number: u64, said: Line<'a>) -> Result<(), ScriptFault>
        ensures { Leaves OutOfMemory
            (script_with_said has_next number self.old said.entry) result self.new }
    {
        let act = match said {
            Line::Phone { name, act } => {
                let phone = take_name(&mut self.names, name, number)?;
                Act::Phone { phone, act }
            }
            Line::Authorize { name, until } => {
                let phone = take_name(&mut self.names, name, number)?;
                Act::Authorize { phone, until }
            }
            Line::Update { handle, value } => Act::Update { handle, value },
            Line::Tick { time } => Act::Tick { time },
            Line::Replace => {
                if !has_next {
                    return Err(ScriptFault::BadLine(number));
                }
                Act::Replace
            }
        };
        push_act(&mut self.acts, act)?;
        Ok(())
    }
}

/// Returns a client's number, and adds its name if it is new.
fn take_name<'a>(names: &mut Vec<Name<'a>>, name: Name<'a>, number: u64) -> Result<u8, ScriptFault>
    ensures few { phone_number_in names.old.items name.entry < MAX_PHONES
        → Leaves OutOfMemory (Ok (with_name names.old.items name.entry)) result names.new.items }
    ensures place { IfOk result
        (λ place. (place ≡ phone_number_in names.old.items name.entry) × (place < MAX_PHONES)) }
    ensures many { MAX_PHONES ≤ phone_number_in names.old.items name.entry
        → result ≡ Err (ScriptFault.BadLine number) }
{
    let place = number_in(names, &name);
    if place >= MAX_PHONES {
        return Err(ScriptFault::BadLine(number));
    }
    if place == names.len() {
        push_name(names, name)?;
    }
    Ok(place as u8)
}

fn push_act<'a>(acts: &mut Vec<Act<'a>>, act: Act<'a>) -> Result<(), AllocError>
    ensures ok { OnOk result (acts.new.items ≡ acts.old.items ++ act.entry ∷ []) }
    ensures err { OnErr result (acts.new.items ≡ acts.old.items) }
{
    acts.push(act)?;
    Ok(())
}

fn push_name<'a>(names: &mut Vec<Name<'a>>, name: Name<'a>) -> Result<(), AllocError>
    ensures ok { OnOk result (names.new.items ≡ names.old.items ++ name.entry ∷ []) }
    ensures err { OnErr result (names.new.items ≡ names.old.items) }
{
    names.push(name)?;
    Ok(())
}

/// Returns a name's number, or the next free number.
fn number_in(names: &[Name<'_>], name: &Name<'_>) -> usize
    ensures { result ≡ phone_number_in names.now name.now }
{
    place_of(names, name).unwrap_or(names.len())
}

fn place_of(names: &[Name<'_>], name: &Name<'_>) -> Option<usize>
    ensures { result ≡ position (bytes_eq name.now) names.now }
{
    let text = name.as_str();
    names.iter().position(|other| text == other.as_str())
}
