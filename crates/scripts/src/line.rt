//! Lines of a script.

ghost use Rattle.std.specs.Prelude.{◌≡◌};
ghost use Rattle.scripts.specs.Line.{random_number_of, channel_of, line_of_one, line_of_two, line_of_three, line_of_four, of_phone, authorized_until, line_of};

use crate::act::ScriptedAct;
use crate::name::Name;
use le_l2cap::channel;
use le_security::read_peer;
use text_words::{Payload, first_word, read_u16, read_u64};

/// The content of a line.
#[derive(Drop)]
pub enum Line<'a> {
    Phone {
        name: Name<'a>,
        act: ScriptedAct<'a>,
    },
    /// Authorization until a time in milliseconds.
    Authorize {
        name: Name<'a>,
        until: u64,
    },
    /// New value at a handle.
    Update {
        handle: u16,
        value: Payload<'a>,
    },
    /// Time in milliseconds.
    Tick {
        time: u64,
    },
    /// Replacement of the table.
    Replace,
}

/// Reads a line that is not blank and not a comment. Returns `None` if it is wrong.
#[tactic(auto, unfolding(crate::specs::Line::line_of))]
pub fn read_line(line: &str) -> Option<Line<'_>>
    ensures { result ≡ line_of line.now }
{
    let Some((first, rest)) = first_word(line) else {
        return read_one(line);
    };
    let Some((second, rest)) = first_word(rest) else {
        return read_two(first, rest);
    };
    let Some((third, rest)) = first_word(rest) else {
        return read_three(first, second, rest);
    };
    match first_word(rest) {
        None => read_four(first, second, third, rest),
        Some(_) => None,
    }
}

#[tactic(auto, unfolding(crate::specs::Line::line_of_one))]
fn read_one(first: &str) -> Option<Line<'_>>
    ensures { result ≡ line_of_one first.now }
{
    match first {
        "replace" => Some(Line::Replace),
        _ => None,
    }
}

#[tactic(auto, unfolding(crate::specs::Line::line_of_two))]
fn read_two<'a>(first: &str, second: &'a str) -> Option<Line<'a>>
    ensures { result ≡ line_of_two first.now second.now }
{
    match first {
        "drop" => of_phone(second, ScriptedAct::Drop),
        "clear" => of_phone(second, ScriptedAct::Clear),
        "hold" => of_phone(second, ScriptedAct::Hold),
        "allow" => authorized_until(second, u64::MAX),
        "deny" => authorized_until(second, 0),
        "tick" => Some(Line::Tick {
            time: read_u64(second)?,
        }),
        _ => None,
    }
}

#[tactic(auto, unfolding(crate::specs::Line::line_of_three))]
fn read_three<'a>(first: &'a str, second: &'a str, third: &'a str) -> Option<Line<'a>>
    ensures { result ≡ line_of_three first.now second.now third.now }
{
    match first {
        "done" => of_phone(
            second,
            ScriptedAct::Done {
                packets: read_u16(third)?,
            },
        ),
        "allow" => authorized_until(second, read_u64(third)?),
        "update" => Some(Line::Update {
            handle: read_u16(second)?,
            value: Payload::read(third)?,
        }),
        _ => of_phone(
            first,
            ScriptedAct::Send {
                channel: read_channel(second)?,
                payload: Payload::read(third)?,
            },
        ),
    }
}

#[tactic(auto, unfolding(crate::specs::Line::line_of_four))]
fn read_four<'a>(first: &str, second: &'a str, third: &str, fourth: &str) -> Option<Line<'a>>
    ensures { result ≡ line_of_four first.now second.now third.now fourth.now }
{
    match first {
        "connect" => of_phone(
            second,
            ScriptedAct::Connect {
                peer: read_peer(third, fourth)?,
            },
        ),
        "encrypt" => of_phone(
            second,
            ScriptedAct::Encrypt {
                random_number: read_random_number(third)?,
                diversifier: read_u16(fourth)?,
            },
        ),
        _ => None,
    }
}

fn of_phone<'a>(name: &'a str, act: ScriptedAct<'a>) -> Option<Line<'a>>
    ensures { result ≡ of_phone name.now act.entry }
{
    Some(Line::Phone {
        name: Name::read(name)?,
        act,
    })
}

fn authorized_until(name: &str, until: u64) -> Option<Line<'_>>
    ensures { result ≡ authorized_until name.now until }
{
    Some(Line::Authorize {
        name: Name::read(name)?,
        until,
    })
}

#[tactic(auto, unfolding(crate::specs::Line::channel_of))]
fn read_channel(sign: &str) -> Option<u16>
    ensures { result ≡ channel_of sign.now }
{
    match sign {
        "<" => Some(channel::ATT),
        "<5" => Some(channel::LE_SIGNALLING),
        "<6" => Some(channel::SECURITY_MANAGER),
        _ => None,
    }
}

#[tactic(auto, unfolding(crate::specs::Line::random_number_of))]
fn read_random_number(word: &str) -> Option<[u8; 8]>
    ensures { result ≡ random_number_of word.now }
{
    let mut octets = [0; 8];
    if hex::decode_to_slice(word, &mut octets).is_err() {
        return None;
    }
    Some(octets)
}
