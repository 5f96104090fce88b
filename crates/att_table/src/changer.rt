//! The Service Changed value of a table (Core 5.0, Vol 3 Part G, 7.1).

ghost use Rattle.std.specs.Prelude.{◌≡◌, ◌==◌, ◌&&◌};
ghost use Rattle.std.specs.Option.{option_copied};
ghost use Rattle.std.specs.Str.{bytes_eq};
ghost use Rattle.octet_io.specs.Number.{two_octets};
ghost use Rattle.att_numbers.specs.declared.attribute_type.TheConstants.{GENERIC_ATTRIBUTE_SERVICE, PRIMARY_SERVICE};
ghost use Rattle.att_values.specs.Cell.{IsUsed};
ghost use Rattle.att_table.specs.Changer.{last_service, is_changer, changer_of};
ghost use Rattle.att_table.specs.Table.{value_at, values_of, IsKept};

use att_attributes::{Attr, Role, is_service};
use att_numbers::attribute_type::{GENERIC_ATTRIBUTE_SERVICE, PRIMARY_SERVICE, SERVICE_CHANGED};
use att_policy::Properties;
use att_values::FlatStore;
use bitflags::Flags;

/// The value's length: the first and the last affected handle.
const CHANGER_LEN: u16 = 4;

/// Returns the handle of the first Service Changed value.
pub fn changer_of(attributes: &[Attr], values: &FlatStore) -> Option<u16>
    requires { IsKept attributes.now values.now }
    ensures { result
        ≡ changer_of (record { attributes = attributes.now; values = values_of values.now }) }
{
    for attr in attributes {
        if is_changer(attr, attributes, values) {
            return Some(attr.handle);
        }
    }
    None
}

/// Returns true if the attribute is an indicated, fixed Service Changed value.
fn is_changer(attr: &Attr, attributes: &[Attr], values: &FlatStore) -> bool
    requires { IsKept attributes.now values.now }
    ensures { result
        ≡ is_changer
        (record { attributes = attributes.now; values = values_of values.now }) attr.now }
{
    if attr.role != Role::Value
        || attr.kind != SERVICE_CHANGED
        || !attr.guard.properties.contains(Properties::INDICATE)
        || !attr.fixed
        || attr.largest != CHANGER_LEN
    {
        return false;
    }
    let before = usize::from(attr.handle.saturating_sub(1)).min(attributes.len());
    match last_service(&attributes[..before]) {
        Some(service) => declares_generic_attribute(service, values),
        None => false,
    }
}

fn declares_generic_attribute(attr: &Attr, values: &FlatStore) -> bool
    requires { IsUsed values.now attr.now.handle }
    ensures { result ≡ ((attr.now.kind == PRIMARY_SERVICE)
        && bytes_eq (value_at (values_of values.now) attr.now.handle)
        (two_octets GENERIC_ATTRIBUTE_SERVICE)) }
{
    let uuid = GENERIC_ATTRIBUTE_SERVICE.to_le_bytes();
    attr.kind == PRIMARY_SERVICE && values.value_at(attr.handle) == uuid.as_slice()
}

fn last_service(attributes: &[Attr]) -> Option<&Attr>
    ensures { option_copied result ≡ last_service attributes.now }
{
    attributes.iter().rev().find(|attr| is_service(attr.kind))
}
