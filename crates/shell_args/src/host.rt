//! The command `host`: its words and its choice.

ghost use Rattle.std.specs.Prelude.{◌≡◌, codes, map, take, IfSome};
ghost use Rattle.clap.specs.Words.{found_of, rows_of};
ghost use Rattle.shell_args.specs.CommandLine.{command_name};
ghost use Rattle.shell_args.specs.CommandLine.{given, HasFilesOf};

use crate::arguments;
use crate::words::Choice;
use arrayvec::ArrayVec;
use clap::ArgMatches;
use device_options::{MOST_SERVICES, OptionTexts};

#[tactic(auto, using(crate::proofs::CommandLines::first_in_rows, crate::proofs::CommandLines::flag_in_rows))]
pub(crate) fn hosting<'a>(matches: &ArgMatches<'a>) -> Option<Choice<'a>>
    ensures name { IfSome result (λ choice. command_name choice ≡ codes "host") }
    ensures files { IfSome result (HasFilesOf (rows_of (found_of matches.now))) }
{
    Some(Choice::Host(OptionTexts {
        table: matches.get_str(arguments::TABLE)?,
        keys: matches.get_str(arguments::KEYS)?,
        rows: matches.get_str(arguments::ROWS),
        state: matches.get_str(arguments::STATE),
        save_updates: matches.get_flag(arguments::SAVE_UPDATES),
        drop_unknown: matches.get_flag(arguments::DROP_UNKNOWN),
        listen: matches.get_str(arguments::LISTEN),
        connect: matches.get_str(arguments::CONNECT),
        serial: matches.get_str(arguments::SERIAL),
        application: matches.get_str(arguments::APPLICATION),
        application_port: matches.get_str(arguments::APPLICATION_PORT),
        wait_for_application: matches.get_flag(arguments::WAIT_FOR_APPLICATION),
        name: matches.get_str(arguments::NAME),
        advertise: advertised(matches),
        address: matches.get_str(arguments::RANDOM_ADDRESS),
        capture: matches.get_str(arguments::CAPTURE),
        capture_size: matches.get_str(arguments::CAPTURE_SIZE),
        log_values: matches.get_flag(arguments::LOG_VALUES),
        log_refusals: matches.get_flag(arguments::LOG_REFUSALS),
        slots: matches.get_str(arguments::SLOTS),
        idle: matches.get_str(arguments::IDLE),
        stranger: matches.get_str(arguments::STRANGER),
        patience: matches.get_str(arguments::PATIENCE),
        once: matches.get_flag(arguments::ONCE),
    }))
}

/// Returns the services to advertise: at most `MOST_SERVICES`, the first ones.
#[tactic(auto, using(crate::proofs::CommandLines::all_in_rows))]
fn advertised<'a>(matches: &ArgMatches<'a>) -> ArrayVec<&'a str, MOST_SERVICES>
    ensures { map (λ word. word.now) result.items
        ≡ take 14 (given (codes "advertise") (rows_of (found_of matches.now))) }
{
    match matches.get_strs(arguments::ADVERTISE) {
        Some(words) => first_words(words),
        None => ArrayVec::new(),
    }
}

fn first_words<'a>(words: &[&'a str]) -> ArrayVec<&'a str, MOST_SERVICES>
    ensures { result.items ≡ take 14 words.now }
{
    let mut first = ArrayVec::new();
    let (front, _) = words.split_at(words.len().min(MOST_SERVICES));
    first.try_extend_from_slice(front).unwrap();
    first
}
