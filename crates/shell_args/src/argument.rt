//! Tables of the arguments of a command, read in their order.

ghost use Rattle.std.specs.Prelude.{◌≡◌, [], map, IfOk, false};
ghost use Rattle.clap.specs.Words.{IsPlainArg, app_of, rule_of, with_rule};
ghost use Rattle.clap.specs.declared.builder.Command.TheViews.{out-Command};
ghost use Rattle.shell_args.specs.CommandLine.{rule_for, rule_taking, with_rules};

use clap::{Arg, ArgAction, Command};
use std::alloc::{AllocError, Global};

/// The kind of an argument.
#[derive(Clone, Copy)]
pub(crate) enum Takes {
    /// A required path.
    Path,
    /// An optional path.
    PathIfAny,
    /// An option with a value, which the help calls by this word.
    Value(&'static str),
    /// An option that may be repeated.
    Values(&'static str),
    /// A flag.
    Nothing,
}

/// An argument of a command.
#[derive(Clone, Copy)]
pub(crate) struct Argument {
    /// Its name. Options and flags have two dashes before it.
    pub name: &'static str,
    pub takes: Takes,
    /// Its help text.
    pub about: &'static str,
}

fn action_for(takes: Takes) -> ArgAction
    ensures { Some result ≡ (rule_taking takes []).action }
{
    match takes {
        Takes::Path | Takes::PathIfAny | Takes::Value(_) => ArgAction::Set,
        Takes::Values(_) => ArgAction::Append,
        Takes::Nothing => ArgAction::SetTrue,
    }
}

/// Returns the parser's description of an argument.
fn parsed_argument<'a>(alloc: Global, argument: Argument) -> Arg<'a>
    ensures rule { rule_of result ≡ rule_for argument }
    ensures plain { IsPlainArg result }
    ensures local { result.global ≡ false }
{
    let parsed = Arg::new(alloc, argument.name)
        .help(argument.about)
        .action(action_for(argument.takes));
    match argument.takes {
        Takes::Path => parsed.required(true),
        Takes::PathIfAny => parsed,
        Takes::Value(word) | Takes::Values(word) => parsed.long(argument.name).value_name(word),
        Takes::Nothing => parsed.long(argument.name),
    }
}

fn with_argument<'a>(
    alloc: Global,
    command: Command<'a>,
    argument: Argument,
) -> Result<Command<'a>, AllocError>
    ensures app { IfOk result (λ added. app_of added
        ≡ with_rule (app_of command.entry) (rule_for argument)) }
    ensures local { IfOk result (λ added.
        (out-Command added).has_globals ≡ (out-Command command.entry).has_globals) }
{
    command.arg(parsed_argument(alloc, argument))
}

/// Adds arguments after those that the command has.
pub(crate) fn with_arguments<'a>(
    alloc: Global,
    command: Command<'a>,
    arguments: &[Argument],
) -> Result<Command<'a>, AllocError>
    ensures app { IfOk result (λ added. app_of added
        ≡ with_rules (app_of command.entry) (map rule_for arguments.now)) }
    ensures local { IfOk result (λ added.
        (out-Command added).has_globals ≡ (out-Command command.entry).has_globals) }
{
    let mut command = command;
    for argument in arguments {
        command = with_argument(alloc, command, *argument)?;
    }
    Ok(command)
}
