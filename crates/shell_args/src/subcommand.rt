//! Tables of the commands, read in their order.

ghost use Rattle.std.specs.Prelude.{◌≡◌, map, IfOk, false};
ghost use Rattle.clap.specs.Words.{app_of, shape_of, with_subcommand};
ghost use Rattle.clap.specs.declared.builder.Command.TheViews.{out-Command};
ghost use Rattle.shell_args.specs.CommandLine.{shape_for, with_subcommands};

use crate::argument::{Argument, with_arguments};
use crate::help;
use clap::Command;
use std::alloc::{AllocError, Global};

/// A command of the program.
#[derive(Clone, Copy)]
pub(crate) struct Subcommand {
    pub name: &'static str,
    /// A line on what it does.
    pub about: &'static str,
    /// Its full help text.
    pub details: &'static str,
    pub arguments: &'static [Argument],
}

/// Returns the parser's description of a command.
fn parsed_subcommand<'a>(alloc: Global, subcommand: Subcommand) -> Result<Command<'a>, AllocError>
    ensures shape { IfOk result (λ parsed. shape_of parsed ≡ shape_for subcommand) }
    ensures local { IfOk result (λ parsed. (out-Command parsed).has_globals ≡ false) }
{
    let parsed = Command::new(alloc, subcommand.name)
        .about(subcommand.about)
        .long_about(subcommand.details)
        .after_help(help::STATUSES);
    with_arguments(alloc, parsed, subcommand.arguments)
}

#[tactic(auto, using(crate::proofs::CommandLines::added_to))]
fn with_subcommand<'a>(
    alloc: Global,
    program: Command<'a>,
    subcommand: Subcommand,
) -> Result<Command<'a>, AllocError>
    ensures { IfOk result (λ added. app_of added
        ≡ with_subcommand (app_of program.entry) (shape_for subcommand)) }
{
    program.subcommand(parsed_subcommand(alloc, subcommand)?)
}

/// Adds commands after those that the program has.
pub(crate) fn with_subcommands<'a>(
    alloc: Global,
    program: Command<'a>,
    subcommands: &[Subcommand],
) -> Result<Command<'a>, AllocError>
    ensures { IfOk result (λ added. app_of added
        ≡ with_subcommands (app_of program.entry) (map shape_for subcommands.now)) }
{
    let mut program = program;
    for subcommand in subcommands {
        program = with_subcommand(alloc, program, *subcommand)?;
    }
    Ok(program)
}
