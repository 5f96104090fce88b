//! Answers to the commands of the application.

ghost use Rattle.std.specs.Prelude.{◌≡◌, ◌++◌, OnOk};
ghost use Rattle.std.specs.Option.{option_map};
ghost use Rattle.app_lines.specs.Answers.{handle_answer, outcome_answer, refused_answer, value_answer};

use crate::reply::{Reply, add_reply};
use host_api::AppFault;
use std::alloc::AllocError;

/// Adds the answer to a call of the host.
#[tactic(auto, unfolding(crate::specs::Reply::reply_line))]
pub fn add_outcome(text: &mut Vec<u8>, answer: Result<(), AppFault>) -> Result<(), AllocError>
    ensures ok { OnOk result (text.new.items ≡ text.old.items ++ outcome_answer answer) }
{
    match answer {
        Ok(()) => add_reply(text, &Reply::Done),
        Err(fault) => add_refused(text, fault, fault.text()),
    }
}

/// Adds the handle of a characteristic, or that there is none.
#[tactic(auto, unfolding(crate::specs::Reply::reply_line))]
pub fn add_handle_answer(text: &mut Vec<u8>, handle: Option<u16>) -> Result<(), AllocError>
    ensures ok { OnOk result (text.new.items ≡ text.old.items ++ handle_answer handle) }
{
    match handle {
        Some(handle) => add_reply(text, &Reply::Handle(handle)),
        None => add_refused(
            text,
            AppFault::NoSuchHandle,
            "there is no such characteristic",
        ),
    }
}

/// Adds the value at a handle, or that there is none.
#[tactic(auto, unfolding(crate::specs::Reply::reply_line))]
pub fn add_value_answer(
    text: &mut Vec<u8>,
    handle: u16,
    value: Option<&[u8]>,
) -> Result<(), AllocError>
    ensures ok { OnOk result (text.new.items
        ≡ text.old.items ++ value_answer handle (option_map (λ value. value.now) value.entry)) }
{
    match value {
        Some(value) => add_reply(text, &Reply::Value { handle, value }),
        None => add_outcome(text, Err(AppFault::NoSuchHandle)),
    }
}

#[tactic(auto, unfolding(crate::specs::Reply::reply_line))]
fn add_refused(text: &mut Vec<u8>, fault: AppFault, words: &str) -> Result<(), AllocError>
    ensures ok { OnOk result (text.new.items ≡ text.old.items ++ refused_answer fault words.now) }
{
    add_reply(text, &Reply::Refused { fault, words })
}
