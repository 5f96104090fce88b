//! The search for a value by service and characteristic type (Core 5.0, Vol 3 Part G, 4.4.2 and
//! 4.6.2).

ghost use Rattle.std.specs.Prelude.{◌≡◌, ◌&&◌, true, if◌then◌else◌, IfSome};
ghost use Rattle.std.specs.Str.{bytes_eq};
ghost use Rattle.att_attributes.specs.Attributes.{is_value_at};
ghost use Rattle.att_attributes.specs.Group.{is_service_type};
ghost use Rattle.att_values.specs.Cell.{IsUsed};
ghost use Rattle.att_table.specs.Find.{is_value_of_type, value_found};
ghost use Rattle.att_table.specs.Table.{value_at, values_of, IsKept};

use att_attributes::{Attr, Role, is_service, type_octets};
use att_values::FlatStore;

/// Returns the handle of the characteristic value with this number, from 1.
///
/// Counts, in handle order, the values with this type in services with this type.
#[tactic(auto, using(crate::proofs::Found::place_used))]
pub fn find_value(
    attributes: &[Attr],
    values: &FlatStore,
    service: u128,
    characteristic: u128,
    number: u16,
) -> Option<u16>
    requires kept { IsKept attributes.now values.now }
    ensures found { result ≡ value_found
        (record { attributes = attributes.now; values = values_of values.now }) service
        characteristic
        number }
    ensures value { IfSome result (λ handle. is_value_at attributes.now handle ≡ true) }
{
    let uuid = type_octets(service);
    let mut is_inside = false;
    let mut left = number;
    for attr in attributes {
        if is_wanted(is_inside, attr, characteristic) {
            if left == 1 {
                return Some(attr.handle);
            }
            left = left.saturating_sub(1);
        }
        is_inside = is_inside_after(is_inside, attr, values, uuid.as_slice());
    }
    None
}

fn is_wanted(is_inside: bool, attr: &Attr, characteristic: u128) -> bool
    ensures { result ≡ (is_value_of_type characteristic attr.now && is_inside) }
{
    attr.role == Role::Value && attr.kind == characteristic && is_inside
}

/// Returns true if the next attribute is in a service of type `uuid`.
fn is_inside_after(is_inside: bool, attr: &Attr, values: &FlatStore, uuid: &[u8]) -> bool
    requires { IsUsed values.now attr.now.handle }
    ensures { result ≡ (if is_service_type attr.now.kind then
        bytes_eq (value_at (values_of values.now) attr.now.handle) uuid.now else is_inside) }
{
    if is_service(attr.kind) {
        values.value_at(attr.handle) == uuid
    } else {
        is_inside
    }
}
