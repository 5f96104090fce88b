//! The command `may`: its words and its choice.

ghost use Rattle.std.specs.Prelude.{◌≡◌, codes, IfSome};
ghost use Rattle.clap.specs.Words.{found_of, rows_of};
ghost use Rattle.shell_args.specs.CommandLine.{command_name};
ghost use Rattle.shell_args.specs.CommandLine.{HasFilesOf};

use crate::arguments;
use crate::words::Choice;
use clap::ArgMatches;

#[tactic(auto, using(crate::proofs::CommandLines::first_in_rows, crate::proofs::CommandLines::flag_in_rows))]
pub(crate) fn asking<'a>(matches: &ArgMatches<'a>) -> Option<Choice<'a>>
    ensures name { IfSome result (λ choice. command_name choice ≡ codes "may") }
    ensures files { IfSome result (HasFilesOf (rows_of (found_of matches.now))) }
{
    Some(Choice::May {
        table: matches.get_str(arguments::TABLE)?,
        keys: matches.get_str(arguments::KEYS)?,
        peer: matches.get_str(arguments::PEER)?,
        right: matches.get_str(arguments::RIGHT)?,
        handle: matches.get_str(arguments::HANDLE)?,
        authorized: matches.get_flag(arguments::AUTHORIZED),
        unencrypted: matches.get_flag(arguments::UNENCRYPTED),
    })
}
