//! An answer in words: the rule by its key of the table file, and the error code by its name.

ghost use Rattle.std.specs.Prelude.{◌≡◌, ◌++◌, [], codes, if◌then◌else◌, OnOk, unwrap_or};
ghost use Rattle.att_numbers.specs.ErrorCode.{error_name};
ghost use Rattle.att_policy.specs.Need.{key_size_of};
ghost use Rattle.att_policy.specs.Policy.{need_of};
ghost use Rattle.att_attributes.specs.Attributes.{is_configuration_at};
ghost use Rattle.policy_words.specs.may.Reason.{access_of, error_text, needed_text, place_word, property_text, property_word, ending_in_quote, rule_text, separator, size_at, size_text, verdict_code, verdict_front, verdict_rule, verdict_text};

use crate::may::verdict::{Verdict, is_configuration};
use att_numbers::error_code;
use att_policy::{Access, Guard, Rule};
use att_table::Table;
use policy_rights::Right;
use std::alloc::AllocError;
use text_words::{add_hex, add_number, add_octets};

/// Adds an answer. On `Err` memory was refused and the text is invalid.
#[tactic(auto, unfolding(crate::specs::may::Reason::verdict_text))]
pub(crate) fn add_verdict(
    text: &mut Vec<u8>,
    table: &Table,
    handle: u16,
    right: Right,
    verdict: Verdict,
) -> Result<(), AllocError>
    ensures ok { OnOk result (text.new.items ≡ text.old.items
        ++ verdict_text table.now.attributes handle right verdict) }
{
    add_octets(text, verdict_front(verdict).as_bytes())?;
    add_verdict_rule(text, table, handle, right, verdict)?;
    add_verdict_code(text, verdict)
}

fn verdict_front(verdict: Verdict) -> &'static str
    ensures { result.now ≡ verdict_front verdict }
{
    match verdict {
        Verdict::Yes => "yes",
        Verdict::Refused(..) => "no: ",
        Verdict::NoConfiguration | Verdict::NoSubscription(..) => "no: it may not subscribe: ",
        Verdict::Silent(_) => "no: nothing is sent: ",
    }
}

fn add_verdict_rule(
    text: &mut Vec<u8>,
    table: &Table,
    handle: u16,
    right: Right,
    verdict: Verdict,
) -> Result<(), AllocError>
    ensures ok { OnOk result (text.new.items ≡ text.old.items
        ++ verdict_rule table.now.attributes handle right verdict) }
{
    match verdict {
        Verdict::Yes => Ok(()),
        Verdict::Refused(rule, _) => add_rule(text, table, handle, access_of(right), right, rule),
        Verdict::NoConfiguration => add_property(text, right),
        Verdict::NoSubscription(configuration, rule, _) => {
            add_rule(text, table, configuration, Access::Write, right, rule)
        }
        Verdict::Silent(rule) => add_rule(text, table, handle, Access::Read, right, rule),
    }
}

fn add_verdict_code(text: &mut Vec<u8>, verdict: Verdict) -> Result<(), AllocError>
    ensures ok { OnOk result (text.new.items ≡ text.old.items ++ verdict_code verdict) }
{
    match verdict {
        Verdict::Refused(rule, code) | Verdict::NoSubscription(_, rule, code) => {
            add_octets(text, separator(rule).as_bytes())?;
            add_error(text, code)
        }
        _ => Ok(()),
    }
}

fn separator(rule: Rule) -> &'static str
    ensures { result.now ≡ separator rule }
{
    match rule {
        Rule::HandleExists => "",
        _ => ", ",
    }
}

/// Adds a rule of an access to the attribute at a handle.
fn add_rule(
    text: &mut Vec<u8>,
    table: &Table,
    handle: u16,
    access: Access,
    right: Right,
    rule: Rule,
) -> Result<(), AllocError>
    ensures ok { OnOk result (text.new.items ≡ text.old.items
        ++ rule_text table.now.attributes handle access right rule) }
{
    let place = place_word(table, handle, access);
    match rule {
        Rule::HandleExists => Ok(()),
        Rule::Property => add_property(text, right),
        Rule::Encryption => add_need(text, place, b"encrypted"),
        Rule::Authentication => add_need(text, place, b"authenticated"),
        Rule::KeySize => add_size(text, place, size_at(table, handle, access)),
        Rule::SecureConnections => add_need(text, place, b"secure"),
        Rule::Authorization => add_need(text, place, b"authorized"),
    }
}

fn add_property(text: &mut Vec<u8>, right: Right) -> Result<(), AllocError>
    ensures ok { OnOk result (text.new.items ≡ text.old.items ++ property_text right) }
{
    let word = property_word(right);
    add_quoted(text, b"it has no property `", word.as_bytes())
}

/// Adds a word and the sign that ends it, after other words.
fn add_quoted(text: &mut Vec<u8>, front: &[u8], word: &[u8]) -> Result<(), AllocError>
    ensures ok { OnOk result (text.new.items
        ≡ text.old.items ++ ending_in_quote front.now word.now) }
{
    add_octets(text, front)?;
    add_octets(text, word)?;
    add_octets(text, b"`")
}

fn property_word(right: Right) -> &'static str
    ensures { result.now ≡ property_word right }
{
    match right {
        Right::Read => "read",
        Right::Write => "write",
        Right::Command => "command",
        Right::Notify => "notify",
        Right::Indicate => "indicate",
        Right::Subscribe => "notify` or `indicate",
    }
}

/// Returns the access that a right is; a subscription is a write of the CCCD.
fn access_of(right: Right) -> Access
    ensures { result ≡ access_of right }
{
    match right {
        Right::Read => Access::Read,
        Right::Command => Access::Command,
        Right::Write | Right::Notify | Right::Indicate | Right::Subscribe => Access::Write,
    }
}

/// Returns the key of the table file with the requirements of an access.
fn place_word(table: &Table, handle: u16, access: Access) -> &'static str
    ensures { result.now ≡ place_word table.now.attributes handle access }
{
    match access {
        Access::Read => "read",
        Access::Write | Access::Command => written_word(table, handle),
    }
}

fn written_word(table: &Table, handle: u16) -> &'static str
    ensures { result.now ≡ (if is_configuration_at table.now.attributes handle
        then codes "config" else codes "write") }
{
    if is_configuration(table, handle) {
        "config"
    } else {
        "write"
    }
}

/// Returns the least size of a key for an access, 0 for any.
fn size_at(table: &Table, handle: u16, access: Access) -> u8
    ensures { result ≡ size_at table.now.attributes handle access }
{
    match table.get(handle) {
        Some(attr) => size_of(access, &attr.guard),
        None => 0,
    }
}

fn size_of(access: Access, guard: &Guard) -> u8
    ensures { result ≡ key_size_of (need_of access guard.now) }
{
    match access {
        Access::Read => guard.read.least_key_size(),
        Access::Write | Access::Command => guard.write.least_key_size(),
    }
}

#[tactic(auto, unfolding(crate::specs::may::Reason::needed_text))]
fn add_need(text: &mut Vec<u8>, place: &str, need: &[u8]) -> Result<(), AllocError>
    ensures ok { OnOk result (text.new.items ≡ text.old.items ++ needed_text place.now need.now) }
{
    add_octets(text, b"`")?;
    add_octets(text, place.as_bytes())?;
    add_octets(text, b"` needs `")?;
    add_octets(text, need)?;
    add_octets(text, b"`")
}

#[tactic(auto, unfolding(crate::specs::may::Reason::needed_text))]
fn add_size(text: &mut Vec<u8>, place: &str, size: u8) -> Result<(), AllocError>
    ensures ok { OnOk result (text.new.items
        ≡ text.old.items ++ needed_text place.now (size_text size)) }
{
    add_octets(text, b"`")?;
    add_octets(text, place.as_bytes())?;
    add_octets(text, b"` needs `")?;
    add_size_text(text, size)?;
    add_octets(text, b"`")
}

#[tactic(auto, unfolding(crate::specs::may::Reason::size_text))]
fn add_size_text(text: &mut Vec<u8>, size: u8) -> Result<(), AllocError>
    ensures ok { OnOk result (text.new.items ≡ text.old.items ++ size_text size) }
{
    add_octets(text, b"key_size = ")?;
    add_number(text, u64::from(size))
}

#[tactic(auto, unfolding(crate::specs::may::Reason::error_text))]
fn add_error(text: &mut Vec<u8>, code: u8) -> Result<(), AllocError>
    ensures ok { OnOk result (text.new.items ≡ text.old.items ++ error_text code) }
{
    add_octets(text, name_of_error(code).as_bytes())?;
    add_octets(text, b" (")?;
    add_hex(text, &[code])?;
    add_octets(text, b")")
}

/// Returns the name of an error code; empty if it has none.
fn name_of_error(code: u8) -> &'static str
    ensures { result.now ≡ unwrap_or (error_name code) [] }
{
    error_code::name(code).unwrap_or("")
}
