//! The needs of an expectation: a word, or a requirements table as a table file has it.

ghost use Rattle.std.specs.Prelude.{◌≡◌, None, Some, option_map};
ghost use Rattle.std.specs.Result.{result_ok};
ghost use Rattle.toml.specs.Data.{get_member};
ghost use Rattle.toml.specs.View.{table_view, view};
ghost use Rattle.att_table.specs.file.Field.{key_size_asked};
ghost use Rattle.att_table.specs.file.Needs.{need_in};
ghost use Rattle.policy_expectations.specs.File.{need_among, need_of_member, need_named, need_written};

use crate::fault::{Fault, Wrong};
use att_policy::Need;
use att_table::NEED;
use toml::{Table, Value};

/// Returns the need of a use; without its key, or with `nobody`, the use is for nobody.
pub(crate) fn need_of_member<'a>(
    place: u16,
    table: &'a Table,
    right: &'static str,
) -> Result<Option<Need>, Fault<'a>>
    ensures { result_ok result ≡ need_of_member right.now (table_view table.now) }
{
    match value_at(table, right) {
        Some(value) => read_need(place, right, value),
        None => Ok(None),
    }
}

/// Returns the value at a key, if there is one.
#[tactic(auto, using(toml::proofs::Views::table_get))]
pub(crate) fn value_at<'a>(table: &'a Table, key: &str) -> Option<&'a Value>
    ensures { option_map (λ value. view value.now) result
        ≡ get_member key.now (table_view table.now) }
{
    table.get(key)
}

/// Returns the need that a value states.
pub(crate) fn read_need<'a>(
    place: u16,
    right: &'static str,
    value: &'a Value,
) -> Result<Option<Need>, Fault<'a>>
    ensures { result_ok result ≡ need_written (Some (view value.now)) }
{
    match value.as_str() {
        Some(word) => need_of_word(place, right, word),
        None => need_of_table(place, right, value.as_table()),
    }
}

fn need_of_word<'a>(place: u16, right: &'static str, word: &str) -> Result<Option<Need>, Fault<'a>>
    ensures { result_ok result ≡ need_named word.now }
{
    match need_named(word) {
        Some(need) => Ok(need),
        None => Err(fault_of(place, right, Wrong::NoWord)),
    }
}

/// Returns the need of a word: `None` if there is no such word.
fn need_named(word: &str) -> Option<Option<Need>>
    ensures { result ≡ need_named word.now }
{
    let mut need = Need::NONE;
    match word {
        "nobody" => return Some(None),
        "everybody" => {}
        "encrypted" => need.encrypted = true,
        "authenticated" => need.authenticated = true,
        "secure" => need.secure = true,
        "authorized" => need.authorized = true,
        _ => return None,
    }
    Some(Some(need))
}

fn need_of_table<'a>(
    place: u16,
    right: &'static str,
    table: Option<&'a Table>,
) -> Result<Option<Need>, Fault<'a>>
    ensures { result_ok result
        ≡ need_among None (option_map (λ t. table_view t.now) table.entry) }
{
    match table {
        Some(table) => Ok(Some(need_in(place, right, table)?)),
        None => Err(fault_of(place, right, Wrong::NoNeed)),
    }
}

fn need_in<'a>(place: u16, right: &'static str, table: &'a Table) -> Result<Need, Fault<'a>>
    ensures { result_ok result ≡ result_ok (need_in (table_view table.now)) }
{
    if !toml_schema::is_shaped(table, &NEED) {
        return Err(wrong_rule(place, right, table));
    }
    let key_size = match key_size(toml_schema::integer(table, "key_size")) {
        Some(key_size) => key_size,
        None => return Err(fault_in(place, right, "key_size", Wrong::BadKeySize)),
    };
    Ok(Need {
        encrypted: toml_schema::flag(table, "encrypted"),
        authenticated: toml_schema::flag(table, "authenticated"),
        key_size,
        authorized: toml_schema::flag(table, "authorized"),
        secure: toml_schema::flag(table, "secure"),
    })
}

/// Returns the required key size in octets, or `None` if it is not 7 to 16.
fn key_size(size: Option<i64>) -> Option<Option<u8>>
    ensures { result ≡ result_ok (key_size_asked size) }
{
    let Some(size) = size else {
        return Some(None);
    };
    match u8::try_from(size) {
        Ok(size @ 7..=16) => Some(Some(size)),
        _ => None,
    }
}

/// Returns the first key that a requirements table may not have, or whose value has another type.
fn wrong_rule<'a>(place: u16, right: &'static str, table: &'a Table) -> Fault<'a> {
    for (name, value) in table.iter() {
        if let Some(wrong) = wrong_of(name.as_str(), value) {
            return fault_in(place, right, name.as_str(), wrong);
        }
    }
    fault_of(place, right, Wrong::NoNeed)
}

fn wrong_of(key: &str, value: &Value) -> Option<Wrong> {
    match key {
        "encrypted" | "authenticated" | "authorized" | "secure" => {
            if value.is_bool() {
                None
            } else {
                Some(Wrong::NoBoolean)
            }
        }
        "key_size" => {
            if value.is_integer() {
                None
            } else {
                Some(Wrong::NoInteger)
            }
        }
        _ => Some(Wrong::UnknownKey),
    }
}

fn fault_of<'a>(place: u16, right: &'static str, wrong: Wrong) -> Fault<'a> {
    Fault {
        place,
        right: Some(right),
        key: None,
        wrong,
    }
}

fn fault_in<'a>(place: u16, right: &'static str, key: &'a str, wrong: Wrong) -> Fault<'a> {
    Fault {
        place,
        right: Some(right),
        key: Some(key),
        wrong,
    }
}
