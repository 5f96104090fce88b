//! The includes of a service in a table file.

ghost use Rattle.std.specs.Prelude.{◌≡◌, slice_get, IsSome};
ghost use Rattle.att_attributes.specs.Attributes.{attribute_at};
ghost use Rattle.att_table.specs.file.Service.{followed_end, followed_service, earlier_services, earlier_service, include_value};
ghost use Rattle.att_table.specs.file.TableFile.{include_step};

use crate::file::draft::Draft;
use crate::file::part::Part;
use crate::table_builder::TableBuilder;
use crate::table_fault::TableFault;
use arrayvec::ArrayVec;
use att_attributes::{Attr, is_service};
use att_numbers::attribute_type::INCLUDE;
use toml::Value;

/// The first and last handle of a service.
#[derive(Clone, Copy)]
pub struct ServiceHandles {
    pub first: u16,
    pub last: u16,
}

/// An include of an earlier service (Core 5.0, Vol 3 Part G, 3.2).
pub struct Include;

impl Part for Include {
    ghost step = { include_step };

    fn read(draft: &mut Draft, element: &Value) -> Result<(), TableFault> {
        let position = element.as_integer().ok_or(TableFault::Shape)?;
        let service = draft
            .earlier_service(position)
            .ok_or(TableFault::BadInclude)?;
        let value = include_value(draft.table(), service);
        draft.declare(INCLUDE, value.as_slice())
    }
}

/// Returns an include's value: first and last handle, and a 16-bit type.
fn include_value(table: &TableBuilder, service: ServiceHandles) -> ArrayVec<u8, 6>
    requires { IsSome (attribute_at table.now.attributes service.first) }
    ensures { result.items ≡ include_value table.now.values service }
{
    let [first_low, first_high] = service.first.to_le_bytes();
    let [last_low, last_high] = service.last.to_le_bytes();
    let mut octets = ArrayVec::new();
    octets.push(first_low);
    octets.push(first_high);
    octets.push(last_low);
    octets.push(last_high);
    if let [low, high] = table.value(service.first) {
        octets.push(*low);
        octets.push(*high);
    }
    octets
}

/// Returns a service by position from 0; the one being read does not count.
pub fn earlier_service(attributes: &[Attr], position: i64) -> Option<ServiceHandles>
    ensures { result ≡ earlier_service attributes.now position }
{
    service_at(attributes, usize::try_from(position).ok()?)
}

#[tactic(auto, using(crate::proofs::Services::later_place))]
fn service_at(attributes: &[Attr], position: usize) -> Option<ServiceHandles>
    ensures { result ≡ slice_get (earlier_services attributes.now) position }
{
    let mut left = position;
    'attributes: for (place, attr) in attributes.iter().enumerate() {
        let Some(service) = followed_service(*attr, &attributes[place + 1..]) else {
            continue;
        };
        if left == 0 {
            return Some(service);
        }
        left -= 1;
    }
    None
}

fn followed_service(attr: Attr, rest: &[Attr]) -> Option<ServiceHandles>
    ensures { result ≡ followed_service attr rest.now }
{
    if !is_service(attr.kind) {
        return None;
    }
    let last = followed_end(attr.handle, rest)?;
    Some(ServiceHandles {
        first: attr.handle,
        last,
    })
}

fn followed_end(handle: u16, rest: &[Attr]) -> Option<u16>
    ensures { result ≡ followed_end handle rest.now }
{
    let mut last = handle;
    'rest: for attr in rest {
        if is_service(attr.kind) {
            return Some(last);
        }
        last = attr.handle;
    }
    None
}
