//! The groups of a table's attributes (Core 5.0, Vol 3 Part G, 2.5.3).

ghost use Rattle.std.specs.Prelude.{◌≡◌, IfOk};
ghost use Rattle.att_attributes.specs.Group.{is_service_type, is_grouping_type, group_ends_of};

use crate::attr::Attr;
use att_numbers::attribute_type::{CHARACTERISTIC, PRIMARY_SERVICE, SECONDARY_SERVICE};
use std::alloc::{AllocError, Global};

/// Returns the last handle of the group that each attribute begins, else its own handle.
///
/// A service ends before the next service, a characteristic before the next characteristic or
/// service, the last with the table.
pub fn group_ends(alloc: Global, attributes: &[Attr]) -> Result<Vec<u16>, AllocError>
    ensures { IfOk result (λ ends. ends.items ≡ group_ends_of attributes.now) }
{
    let mut ends = vec![in alloc; 0; attributes.len()]?;
    // The ends of the open service and innermost group.
    let mut service_end = None;
    let mut innermost_end = None;
    for place in (0..attributes.len()).rev() {
        let attr = attributes[place];
        let service_last = service_end.unwrap_or(attr.handle);
        let innermost_last = innermost_end.unwrap_or(attr.handle);
        let end = if is_service(attr.kind) {
            service_last
        } else if is_grouping(attr.kind) {
            innermost_last
        } else {
            attr.handle
        };
        ends[place] = end;
        service_end = (!is_service(attr.kind)).then_some(service_last);
        innermost_end = (!is_grouping(attr.kind)).then_some(innermost_last);
    }
    Ok(ends)
}

/// Returns true if the type begins a service.
pub fn is_service(kind: u128) -> bool
    ensures { result ≡ is_service_type kind }
{
    kind == PRIMARY_SERVICE || kind == SECONDARY_SERVICE
}

fn is_grouping(kind: u128) -> bool
    ensures { result ≡ is_grouping_type kind }
{
    is_service(kind) || kind == CHARACTERISTIC
}
