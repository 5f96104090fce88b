//! The text and number fields of a characteristic or descriptor.

ghost use Rattle.std.specs.Prelude.{◌≡◌, ◌≤◌, [], is_ok};
ghost use Rattle.std.specs.Char.{is_ascii_hexdigit};
ghost use Rattle.std.specs.List.{list_all};
ghost use Rattle.std.specs.Result.{result_map_both};
ghost use Rattle.hex.specs.Hex.{decode_of};
ghost use Rattle.att_table.specs.file.Field.{value_of, largest_of, property_named, key_size_asked};

use crate::table_fault::TableFault;
use arrayvec::ArrayVec;
use att_numbers::limit::MAX_VALUE;
use att_policy::Properties;

const ZEROS: [u8; MAX_VALUE] = [0; MAX_VALUE];

/// Reads a value in hexadecimal into an empty buffer.
///
/// `BadHex`: not an even number of digits. `TooLong`: more than `MAX_VALUE` octets.
pub fn read_value(text: &str, value: &mut ArrayVec<u8, MAX_VALUE>) -> Result<(), TableFault>
    requires { value.old.items ≡ [] }
    ensures { result_map_both (λ _. value.new.items) (λ fault. fault) result
        ≡ value_of text.now }
{
    if !is_hex(text) {
        return Err(TableFault::BadHex);
    }
    if text.len() / 2 > MAX_VALUE {
        return Err(TableFault::TooLong);
    }
    value
        .try_extend_from_slice(&ZEROS[..text.len() / 2])
        .unwrap();
    hex::decode_to_slice(text, value.as_mut_slice()).unwrap();
    Ok(())
}

fn is_hex(text: &str) -> bool
    ensures { result ≡ is_ok (decode_of text.now) }
{
    text.len() % 2 == 0 && has_only_digits(text)
}

fn has_only_digits(text: &str) -> bool
    ensures { result ≡ list_all is_ascii_hexdigit text.now }
{
    text.bytes().all(|digit| digit.is_ascii_hexdigit())
}

/// Returns the largest length of a value in octets, `max` or else its length.
///
/// `TooLong`: `max` below the length, above `MAX_VALUE`, or not the length of a fixed value.
pub fn read_largest(max: Option<i64>, fixed: bool, length: usize) -> Result<u16, TableFault>
    requires { length ≤ MAX_VALUE }
    ensures { result ≡ largest_of max fixed length }
{
    let Some(max) = max else {
        return Ok(length as u16);
    };
    let Ok(largest) = u16::try_from(max) else {
        return Err(TableFault::TooLong);
    };
    let max = usize::from(largest);
    if max < length || max > MAX_VALUE || (fixed && max != length) {
        return Err(TableFault::TooLong);
    }
    Ok(largest)
}

/// Reads a property; `command` is a write without response.
pub fn read_property(word: &str) -> Option<Properties>
    ensures { result ≡ property_named word.now }
{
    match word {
        "read" => Some(Properties::READ),
        "command" => Some(Properties::WRITE_WITHOUT_RESPONSE),
        "write" => Some(Properties::WRITE),
        "notify" => Some(Properties::NOTIFY),
        "indicate" => Some(Properties::INDICATE),
        _ => None,
    }
}

/// Returns the required key size in octets. `BadSecurity`: not 7 to 16.
pub fn key_size(size: Option<i64>) -> Result<Option<u8>, TableFault>
    ensures { result ≡ key_size_asked size }
{
    let Some(size) = size else {
        return Ok(None);
    };
    match u8::try_from(size) {
        Ok(size @ 7..=16) => Ok(Some(size)),
        _ => Err(TableFault::BadSecurity),
    }
}
