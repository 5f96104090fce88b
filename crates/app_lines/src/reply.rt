//! Replies to the application.

ghost use Rattle.std.specs.Prelude.{◌≡◌, ◌++◌, OnOk};
ghost use Rattle.app_lines.specs.Reply.{reply_line, reply_text};
ghost use Rattle.app_lines.specs.declared.reply.Reply.TheVariants.{Refused, Value, Handle};

use crate::notice_text::{add_number, add_value};
use host_api::AppFault;
use std::alloc::AllocError;

/// The reply to a line.
#[derive(Clone, Copy)]
pub enum Reply<'a> {
    Done,
    /// The command was rejected with this fault and text.
    Refused { fault: AppFault, words: &'a str },
    /// The device stops and could not save: what is not saved, and the reason.
    NotSaved(&'a str),
    /// The keys are not read again: the reason.
    NotReloaded(&'a str),
    /// The value at a handle.
    Value { handle: u16, value: &'a [u8] },
    /// The handle found.
    Handle(u16),
    /// The line is wrong, with an explanation.
    Bad(&'a str),
}

/// Appends the line of a reply.
#[tactic(auto, unfolding(crate::specs::Reply::reply_line))]
pub fn add_reply(text: &mut Vec<u8>, reply: &Reply<'_>) -> Result<(), AllocError>
    ensures ok { OnOk result (text.new.items ≡ text.old.items ++ reply_line reply.now) }
{
    add_text(text, reply)?;
    text.extend_from_slice(b"\n")
}

fn add_text(text: &mut Vec<u8>, reply: &Reply<'_>) -> Result<(), AllocError>
    ensures ok { OnOk result (text.new.items ≡ text.old.items ++ reply_text reply.now) }
{
    match reply {
        Reply::Done => text.extend_from_slice(b"ok"),
        Reply::Refused { fault, words } => add_refused(text, *fault, words),
        Reply::NotSaved(words) => add_words(text, b"fault 8: ", words),
        Reply::NotReloaded(words) => add_words(text, b"fault 9: ", words),
        Reply::Value { handle, value } => add_handle_value(text, *handle, value),
        Reply::Handle(handle) => add_handle(text, *handle),
        Reply::Bad(words) => add_words(text, b"bad: ", words),
    }
}

fn add_refused(text: &mut Vec<u8>, fault: AppFault, words: &str) -> Result<(), AllocError>
    ensures ok { OnOk result
        (text.new.items ≡ text.old.items ++ reply_text (Refused fault words.entry)) }
{
    text.extend_from_slice(b"fault")?;
    add_number(text, u64::from(fault.number()))?;
    text.extend_from_slice(b": ")?;
    text.extend_from_slice(words.as_bytes())
}

fn add_handle_value(text: &mut Vec<u8>, handle: u16, value: &[u8]) -> Result<(), AllocError>
    ensures ok { OnOk result
        (text.new.items ≡ text.old.items ++ reply_text (Value handle value.entry)) }
{
    text.extend_from_slice(b"value")?;
    add_number(text, u64::from(handle))?;
    add_value(text, value)
}

fn add_handle(text: &mut Vec<u8>, handle: u16) -> Result<(), AllocError>
    ensures ok { OnOk result (text.new.items ≡ text.old.items ++ reply_text (Handle handle)) }
{
    text.extend_from_slice(b"handle")?;
    add_number(text, u64::from(handle))
}

fn add_words(text: &mut Vec<u8>, about: &[u8], words: &str) -> Result<(), AllocError>
    ensures ok { OnOk result (text.new.items ≡ text.old.items ++ about.now ++ words.now) }
{
    text.extend_from_slice(about)?;
    text.extend_from_slice(words.as_bytes())
}
