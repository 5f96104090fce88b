//! The commands on what a table permits: their words and their choices.

ghost use Rattle.std.specs.Prelude.{◌≡◌, codes, IfSome};
ghost use Rattle.clap.specs.Words.{found_of, rows_of};
ghost use Rattle.shell_args.specs.CommandLine.{command_name};
ghost use Rattle.shell_args.specs.CommandLine.{HasFilesOf};

use crate::arguments;
use crate::words::Choice;
use clap::ArgMatches;

#[tactic(auto, using(crate::proofs::CommandLines::first_in_rows, crate::proofs::CommandLines::flag_in_rows))]
pub(crate) fn showing<'a>(matches: &ArgMatches<'a>) -> Option<Choice<'a>>
    ensures name { IfSome result (λ choice. command_name choice ≡ codes "show") }
    ensures files { IfSome result (HasFilesOf (rows_of (found_of matches.now))) }
{
    Some(Choice::Show {
        table: matches.get_str(arguments::TABLE)?,
        keys: matches.get_str(arguments::KEYS),
        rows: matches.get_str(arguments::ROWS),
        attributes: matches.get_flag(arguments::ATTRIBUTES),
        width: matches.get_str(arguments::WIDTH),
    })
}

#[tactic(auto, using(crate::proofs::CommandLines::first_in_rows))]
pub(crate) fn comparing<'a>(matches: &ArgMatches<'a>) -> Option<Choice<'a>>
    ensures name { IfSome result (λ choice. command_name choice ≡ codes "compare") }
    ensures files { IfSome result (HasFilesOf (rows_of (found_of matches.now))) }
{
    Some(Choice::Compare {
        old: matches.get_str(arguments::OLD)?,
        new: matches.get_str(arguments::NEW)?,
        keys: matches.get_str(arguments::KEYS),
        new_keys: matches.get_str(arguments::NEW_KEYS),
    })
}
