//! The choice of a command, and refusals.
ghost use Rattle.std.specs.Prelude.{◌≡◌, ◌⊎◌, [], ◌∷◌, map, drop, false, codes, option_map, string_bytes};
ghost use Rattle.std.specs.Prelude.{IfSome, IfOk, IfErr, IsErrAnd, MatchResult};
ghost use Rattle.clap.specs.Words.{IsAmong, app_of, fault_of, kind_of};
ghost use Rattle.clap.specs.Words.{found_of, one_of, rows_of, subcommand_name_of, subcommand_of, subcommand_rows_of};
ghost use Rattle.shell_args.specs.CommandLine.{program_line, command_line, command_name};
ghost use Rattle.shell_args.specs.CommandLine.{HasFiles, HasFilesOf, IsAttAlone};
ghost use Rattle.shell_args.specs.Refusal.{ShowsUnlessMemory, refusal_for};

use crate::host::hosting;
use crate::may::asking;
use crate::show::{comparing, showing};
use crate::subcommand::with_subcommands;
use crate::{arguments, help};
use clap::error::ErrorKind;
use clap::{ArgMatches, Command, Error};
use device_options::OptionTexts;
use std::alloc::{AllocError, Global};

/// The command that the words choose, with its arguments.
#[derive(Drop)]
pub enum Choice<'a> {
    /// Answers ATT PDUs from standard input.
    Att {
        /// Set to print what each answer says.
        words: bool,
    },
    /// Checks files.
    Check {
        table: &'a str,
        keys: &'a str,
    },
    /// Shows a table.
    Show {
        table: &'a str,
        keys: Option<&'a str>,
        /// The subscriptions file.
        rows: Option<&'a str>,
        /// Set to print a line for each attribute in place of the rights.
        attributes: bool,
        /// The width of the lines.
        width: Option<&'a str>,
    },
    /// Answers who may use an attribute.
    May {
        table: &'a str,
        keys: &'a str,
        /// The peer, or `stranger`.
        peer: &'a str,
        right: &'a str,
        handle: &'a str,
        /// Set for a connection that the application authorizes.
        authorized: bool,
        /// Set to ask only for a link that is not encrypted.
        unencrypted: bool,
    },
    /// Compares two tables.
    Compare {
        old: &'a str,
        new: &'a str,
        keys: Option<&'a str>,
        /// The key file after the change.
        new_keys: Option<&'a str>,
    },
    /// Compares a table with what is meant.
    Expect {
        table: &'a str,
        keys: Option<&'a str>,
        expectations: &'a str,
    },
    /// Runs a script.
    Run {
        table: &'a str,
        /// The table file that replaces `table`.
        next: Option<&'a str>,
        keys: &'a str,
        /// The subscriptions file.
        rows: Option<&'a str>,
        script: &'a str,
        /// The ATT_MTU that the host can receive.
        rx_mtu: Option<&'a str>,
        /// Set to print the notices to the application.
        notices: bool,
        /// Set to print each line of the script.
        echo: bool,
        /// Set to print what each PDU says.
        words: bool,
    },
    /// Adds words to lines with ATT PDUs.
    Words {
        /// The table file by which handles are named.
        table: Option<&'a str>,
    },
    /// Serves a controller over a connection.
    Serve {
        table: &'a str,
        keys: &'a str,
        /// The subscriptions file.
        rows: Option<&'a str>,
        /// The address to listen at.
        address: &'a str,
    },
    /// Serves one controller after another.
    Host(OptionTexts<'a>),
    /// Sends one line to a device.
    Tell {
        socket: &'a str,
        /// The first word of the line.
        command: &'a str,
        /// The words after it.
        first: Option<&'a str>,
        second: Option<&'a str>,
        third: Option<&'a str>,
    },
}

/// Why the words choose no command.
#[derive(Debug, Drop)]
pub enum Refusal {
    /// The words ask for help or the version, with this text.
    Shown(Error),
    /// The words are not understood.
    Misunderstood,
    /// Memory was refused.
    Memory,
}

impl Refusal {
    /// Returns the exit status of the program.
    pub fn status(&self) -> u8
        ensures shown { (text : Error) → self.now ≡ Refusal.Shown text → result ≡ 0 }
        ensures misunderstood { self.now ≡ Refusal.Misunderstood → result ≡ 64 }
        ensures memory { self.now ≡ Refusal.Memory → result ≡ 2 }
    {
        match self {
            Refusal::Shown(_) => 0,
            Refusal::Misunderstood => 64,
            Refusal::Memory => 2,
        }
    }
}

fn choice_in<'a>(matches: &ArgMatches<'a>) -> Result<Choice<'a>, Refusal>
    ensures named { IfOk result
        (λ choice. subcommand_name_of matches.now ≡ Some (command_name choice)) }
    ensures files { IfOk result (HasFiles (subcommand_rows_of matches.now)) }
    ensures att { IsAttAlone (subcommand_rows_of matches.now) → result
        ≡ Ok (Choice.Att false) }
    ensures err { IfErr result (λ refusal. refusal ≡ Refusal.Misunderstood) }
{
    let Some((name, named)) = matches.subcommand() else {
        return Err(Refusal::Misunderstood);
    };
    choice_of(name, named).ok_or(Refusal::Misunderstood)
}

fn choice_of<'a>(name: &str, matches: &ArgMatches<'a>) -> Option<Choice<'a>>
    ensures named { IfSome result (λ choice. command_name choice ≡ name.now) }
    ensures files { IfSome result (HasFilesOf (rows_of (found_of matches.now))) }
    ensures att { IsAttAlone (Some (name.now, rows_of (found_of matches.now)))
        → result ≡ Some (Choice.Att false) }
{
    match name {
        help::ATT => Some(answering(matches)),
        help::CHECK => checking(matches),
        help::SHOW => showing(matches),
        help::MAY => asking(matches),
        help::COMPARE => comparing(matches),
        help::EXPECT => expecting(matches),
        help::RUN => running(matches),
        help::WORDS => wording(matches),
        help::SERVE => serving(matches),
        help::HOST => hosting(matches),
        help::TELL => telling(matches),
        _ => None,
    }
}

#[tactic(auto, using(crate::proofs::CommandLines::flag_in_rows))]
fn answering<'a>(matches: &ArgMatches<'a>) -> Choice<'a>
    ensures name { command_name result ≡ codes "att" }
    ensures files { HasFilesOf (rows_of (found_of matches.now)) result }
    ensures alone { one_of (codes "words") (rows_of (found_of matches.now)) ≡ Some (codes "false")
        → result ≡ Choice.Att false }
{
    Choice::Att {
        words: matches.get_flag(arguments::WORDS),
    }
}

#[tactic(auto, using(crate::proofs::CommandLines::first_in_rows))]
fn checking<'a>(matches: &ArgMatches<'a>) -> Option<Choice<'a>>
    ensures name { IfSome result (λ choice. command_name choice ≡ codes "check") }
    ensures files { IfSome result (HasFilesOf (rows_of (found_of matches.now))) }
{
    Some(Choice::Check {
        table: matches.get_str(arguments::TABLE)?,
        keys: matches.get_str(arguments::KEYS)?,
    })
}

#[tactic(auto, using(crate::proofs::CommandLines::first_in_rows))]
fn expecting<'a>(matches: &ArgMatches<'a>) -> Option<Choice<'a>>
    ensures name { IfSome result (λ choice. command_name choice ≡ codes "expect") }
    ensures files { IfSome result (HasFilesOf (rows_of (found_of matches.now))) }
{
    let table = matches.get_str(arguments::TABLE)?;
    let file = matches.get_str(arguments::FILE)?;
    let (keys, expectations) = match matches.get_str(arguments::EXPECTATIONS) {
        Some(expectations) => (Some(file), expectations),
        None => (None, file),
    };
    Some(Choice::Expect {
        table,
        keys,
        expectations,
    })
}

#[tactic(auto, using(crate::proofs::CommandLines::first_in_rows, crate::proofs::CommandLines::flag_in_rows))]
fn running<'a>(matches: &ArgMatches<'a>) -> Option<Choice<'a>>
    ensures name { IfSome result (λ choice. command_name choice ≡ codes "run") }
    ensures files { IfSome result (HasFilesOf (rows_of (found_of matches.now))) }
{
    Some(Choice::Run {
        table: matches.get_str(arguments::TABLE)?,
        next: matches.get_str(arguments::NEXT),
        keys: matches.get_str(arguments::KEYS)?,
        rows: matches.get_str(arguments::ROWS),
        script: matches.get_str(arguments::SCRIPT)?,
        rx_mtu: matches.get_str(arguments::RX_MTU),
        notices: matches.get_flag(arguments::NOTICES),
        echo: matches.get_flag(arguments::ECHO),
        words: matches.get_flag(arguments::WORDS),
    })
}

#[tactic(auto, using(crate::proofs::CommandLines::first_in_rows))]
fn wording<'a>(matches: &ArgMatches<'a>) -> Option<Choice<'a>>
    ensures name { IfSome result (λ choice. command_name choice ≡ codes "words") }
    ensures files { IfSome result (HasFilesOf (rows_of (found_of matches.now))) }
{
    Some(Choice::Words {
        table: matches.get_str(arguments::TABLE_OPTION),
    })
}

#[tactic(auto, using(crate::proofs::CommandLines::first_in_rows))]
fn serving<'a>(matches: &ArgMatches<'a>) -> Option<Choice<'a>>
    ensures name { IfSome result (λ choice. command_name choice ≡ codes "serve") }
    ensures files { IfSome result (HasFilesOf (rows_of (found_of matches.now))) }
{
    Some(Choice::Serve {
        table: matches.get_str(arguments::TABLE)?,
        keys: matches.get_str(arguments::KEYS)?,
        rows: matches.get_str(arguments::ROWS),
        address: matches.get_str(arguments::ADDRESS)?,
    })
}

#[tactic(auto, using(crate::proofs::CommandLines::first_in_rows))]
fn telling<'a>(matches: &ArgMatches<'a>) -> Option<Choice<'a>>
    ensures name { IfSome result (λ choice. command_name choice ≡ codes "tell") }
    ensures files { IfSome result (HasFilesOf (rows_of (found_of matches.now))) }
{
    Some(Choice::Tell {
        socket: matches.get_str(arguments::SOCKET)?,
        command: matches.get_str(arguments::COMMAND)?,
        first: matches.get_str(arguments::FIRST),
        second: matches.get_str(arguments::SECOND),
        third: matches.get_str(arguments::THIRD),
    })
}

/// Returns the refusal for the parser's error. Only help and version show their text.
fn refusal_of(error: Error) -> Refusal
    ensures { result ≡ refusal_for error (kind_of error) }
{
    match error.kind() {
        ErrorKind::DisplayHelp | ErrorKind::DisplayVersion => Refusal::Shown(error),
        ErrorKind::OutOfMemory => Refusal::Memory,
        _ => Refusal::Misunderstood,
    }
}

/// Returns the program without its commands, one of which is required.
fn program<'a>(alloc: Global) -> Result<Command<'a>, AllocError>
    ensures { IfOk result (λ command. app_of command ≡ program_line) }
{
    Command::new(alloc, help::PROGRAM)
        .version(help::VERSION)
        .about(help::ABOUT)
        .after_help(help::STATUSES)
        .subcommand_required(true)
        .bin_name(help::PROGRAM)
}

#[tactic(auto, unfolding(crate::specs::CommandLine::command_line))]
fn command<'a>(alloc: Global) -> Result<Command<'a>, AllocError>
    ensures { IfOk result (λ command. app_of command ≡ command_line) }
{
    with_subcommands(alloc, program(alloc)?, &arguments::SUBCOMMANDS)
}

/// Returns the command that the words choose. The first word is the program's name.
pub fn chosen<'a>(alloc: Global, words: &'a [String]) -> Result<Choice<'a>, Refusal>
    // The choice is the command that the words name, with its files, and the words have no fault.
    ensures named { IfOk result (λ choice.
        option_map (λ named. named.0) (subcommand_of command_line (map string_bytes words.now))
        ≡ Some (command_name choice)) }
    ensures files { IfOk result
        (HasFiles (subcommand_of command_line (map string_bytes words.now))) }
    ensures faultless { IfOk result (λ _.
        fault_of command_line (map string_bytes words.now) ≡ []) }

    // Only an error that the words have, and that asks for help or the version, is shown.
    ensures shown { (text : Error) → result ≡ Err (Refusal.Shown text)
        → IsAmong (kind_of text) (fault_of command_line (map string_bytes words.now))
        × ((kind_of text ≡ ErrorKind.DisplayHelp)
        ⊎ (kind_of text ≡ ErrorKind.DisplayVersion)) }

    // After the program's name, each of these words alone has this result, unless memory is
    // refused.
    ensures att { drop 1 (map string_bytes words.now) ≡ codes "att" ∷ []
        → MatchResult result (λ choice. choice ≡ Choice.Att false)
        (λ refusal. refusal ≡ Refusal.Memory) }
    ensures help { drop 1 (map string_bytes words.now) ≡ codes "--help" ∷ []
        → IsErrAnd result (ShowsUnlessMemory ErrorKind.DisplayHelp) }
    ensures version { drop 1 (map string_bytes words.now) ≡ codes "--version" ∷ []
        → IsErrAnd result (ShowsUnlessMemory ErrorKind.DisplayVersion) }
    ensures no_word { drop 1 (map string_bytes words.now) ≡ []
        → IsErrAnd result (λ refusal.
        (refusal ≡ Refusal.Misunderstood) ⊎ (refusal ≡ Refusal.Memory)) }
{
    let Ok(command) = command(alloc) else {
        return Err(Refusal::Memory);
    };
    match command.try_get_matches_from(words) {
        Ok(matches) => choice_in(&matches),
        Err(error) => Err(refusal_of(error)),
    }
}

/// Returns the parser's error of words that are not understood, for `compare`, `expect`, `host`,
/// `may`, `show`, `tell` and `words`.
///
/// The other commands print nothing then.
pub fn complaint(alloc: Global, words: &[String]) -> Option<Error> {
    let name = words.get(1)?;
    if !matches!(
        name.as_str(),
        help::COMPARE
            | help::EXPECT
            | help::HOST
            | help::MAY
            | help::SHOW
            | help::TELL
            | help::WORDS
    ) {
        return None;
    }
    let error = command(alloc).ok()?.try_get_matches_from(words).err()?;
    match error.kind() {
        ErrorKind::DisplayHelp | ErrorKind::DisplayVersion | ErrorKind::OutOfMemory => None,
        _ => Some(error),
    }
}
