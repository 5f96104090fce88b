//! The characteristics of a service in a table file.

ghost use Rattle.std.specs.Prelude.{◌≡◌, ◌+◌, ◌≤◌, true, length};
ghost use Rattle.octet_io.specs.Memory.{Leaves};
ghost use Rattle.toml.specs.View.{table_view};
ghost use Rattle.att_attributes.specs.declared.attr.Role.TheVariants.{Declaration};
ghost use Rattle.att_attributes.specs.Attributes.{is_value};
ghost use Rattle.att_table.specs.declared.table_fault.TableFault.TheVariants.{OutOfMemory};
ghost use Rattle.att_table.specs.Table.{last_role};
ghost use Rattle.att_table.specs.file.Placed.{next_handle};
ghost use Rattle.att_table.specs.file.TableFile.{is_announced, config_at, configure, characteristic_value, characterize, characteristic_step};
ghost use Rattle.att_numbers.specs.declared.limit.TheConstants.{MAX_VALUE};

use crate::file::descriptor::Descriptor;
use crate::file::draft::Draft;
use crate::file::part::Part;
use crate::file::{keys, needs, part, placed};
use crate::table_fault::TableFault;
use arrayvec::ArrayVec;
use att_attributes::{Attr, Role, type_octets};
use att_numbers::attribute_type::{CHARACTERISTIC, CLIENT_CHARACTERISTIC_CONFIGURATION};
use att_numbers::limit::MAX_DECLARATION;
use att_policy::{Guard, Need, Properties};
use bitflags::Flags;
use toml::{Table, Value};

const ALLOWED: Properties = Properties(
    Properties::READ.0
        | Properties::WRITE_WITHOUT_RESPONSE.0
        | Properties::WRITE.0
        | Properties::NOTIFY.0
        | Properties::INDICATE.0,
);

/// The properties that require a CCCD.
const ANNOUNCED: Properties = Properties(Properties::NOTIFY.0 | Properties::INDICATE.0);

/// The properties of a CCCD.
const CONFIGURABLE: Properties = Properties(Properties::READ.0 | Properties::WRITE.0);

/// A characteristic: declaration, value, CCCD if it notifies or indicates, and other descriptors
/// (Core 5.0, Vol 3 Part G, 3.3).
pub struct Characteristic;

impl Part for Characteristic {
    ghost step = { characteristic_step };

    fn read(draft: &mut Draft, element: &Value) -> Result<(), TableFault> {
        let table = element.as_table().ok_or(TableFault::Shape)?;
        if !toml_schema::is_shaped(table, &keys::CHARACTERISTIC) {
            return Err(TableFault::Shape);
        }
        let mut value = ArrayVec::new();
        let handle = draft.next_handle() + 1;
        let attr = placed::read_placed(table, Role::Value, handle, ALLOWED, &mut value)?;
        let need = read_config(table, attr.guard.properties)?;
        characterize(draft, attr, value.as_slice(), need)?;
        part::read_all::<Descriptor>(draft, toml_schema::items(table, "descriptor"))
    }
}

/// Reads the requirements for writing the CCCD. `BadProperty`: given without a CCCD.
fn read_config(table: &Table, properties: Properties) -> Result<Need, TableFault>
    ensures { result ≡ config_at properties (table_view table.now) }
{
    let config = toml_schema::table(table, "config");
    let need = needs::read_need(config)?;
    if !is_announced(properties) && config.is_some() {
        return Err(TableFault::BadProperty);
    }
    Ok(need)
}

fn is_announced(properties: Properties) -> bool
    ensures { result ≡ is_announced properties }
{
    properties.intersects(ANNOUNCED)
}

/// Adds the declaration, value and CCCD of a characteristic.
fn characterize(draft: &mut Draft, attr: Attr, value: &[u8], need: Need) -> Result<(), TableFault>
    requires handle { attr.handle ≡ next_handle draft.old + 1 }
    requires role { attr.role ≡ Role.Value }
    requires fits { length value.now ≤ attr.largest }
    requires largest { attr.largest ≤ MAX_VALUE }
    requires exact { attr.fixed ≡ true → length value.now ≡ attr.largest }
    ensures { Leaves OutOfMemory (characterize draft.old attr value.now need) result draft.new }
{
    draft.declare(CHARACTERISTIC, characteristic_value(&attr).as_slice())?;
    draft.add(attr, value)?;
    configure(draft, attr.guard.properties, need)
}

fn characteristic_value(attr: &Attr) -> ArrayVec<u8, MAX_DECLARATION>
    ensures { result.items ≡ characteristic_value attr.now }
{
    let [low, high] = attr.handle.to_le_bytes();
    let mut octets = ArrayVec::new();
    octets.push(attr.guard.properties.0);
    octets.push(low);
    octets.push(high);
    octets
        .try_extend_from_slice(type_octets(attr.kind).as_slice())
        .unwrap();
    octets
}

fn configure(draft: &mut Draft, properties: Properties, need: Need) -> Result<(), TableFault>
    requires { is_value (last_role Declaration draft.old.attributes) ≡ true }
    ensures { Leaves OutOfMemory (configure draft.old properties need) result draft.new }
{
    if !is_announced(properties) {
        return Ok(());
    }
    let attr = Attr {
        handle: draft.next_handle(),
        kind: CLIENT_CHARACTERISTIC_CONFIGURATION,
        largest: 0,
        fixed: false,
        role: Role::Configuration,
        guard: Guard {
            properties: CONFIGURABLE,
            read: Need::NONE,
            write: need,
        },
    };
    draft.add(attr, &[])
}
